ghost use Rattle.std.specs.Prelude.{◌≡◌, ◌≤◌, ℕ, List, length};
ghost use Rattle.bpf_code.specs.declared.insn.Insn.{Insn};
ghost use Rattle.call_data.specs.declared.sys_call.SysCall.{SysCall};
ghost use Rattle.bpf_verify.specs.Sound.{IsSound};
ghost use Rattle.bpf_machine.specs.Machine.{Next, State, Step};
ghost use Rattle.bpf_machine.specs.Runs.{NeverStuck, Reaches, Runs};

use bpf_verify::walks_stay_inside;

/// A step has at most one result, so code has at most one run on a call, sound or not.
pub fn runs_are_determined()
    ensures step { (code : List Insn) (call : SysCall) (s : State) (next other : Next)
        → Step call code s next → Step call code s other → next ≡ other }
    ensures state { (code : List Insn) (call : SysCall) (n : ℕ) (s t : State)
        → Reaches code call n s → Reaches code call n t → s ≡ t }
    ensures value { (code : List Insn) (call : SysCall) (value other steps count : ℕ)
        → Runs code call value steps → Runs code call other count → value ≡ other }
    ensures steps { (code : List Insn) (call : SysCall) (value other steps count : ℕ)
        → Runs code call value steps → Runs code call other count → steps ≡ count }
{}

/// Sound code has a run on every call, of no more steps than it has instructions, and is never stuck.
pub fn sound_code_runs()
    ensures run { (code : List Insn) (call : SysCall) → IsSound code → (value : ℕ) × (steps : ℕ)
        × Runs code call value steps }
    ensures bounded { (code : List Insn) (call : SysCall) (value steps : ℕ) → IsSound code
        → Runs code call value steps → steps ≤ length code }
    ensures never_stuck { (code : List Insn) (call : SysCall) → IsSound code → NeverStuck code call }
{
    walks_stay_inside();
}
