ghost use Rattle.std.specs.Prelude.{◌<◌, ℕ, List, length};
ghost use Rattle.bpf_code.specs.declared.insn.Insn.{Insn};
ghost use Rattle.bpf_verify.specs.Sound.{IsSound};
ghost use Rattle.bpf_verify.specs.Walks.{Follows, IsWalk};

/// Walks go forward, and a walk through sound code never leaves it.
pub fn walks_stay_inside()
    ensures forward { (code : List Insn) (from to : ℕ) → Follows code from to → from < to }
    ensures inside { (code : List Insn) (before : List ℕ) (at : ℕ) → IsSound code → IsWalk code before at
        → at < length code }
{}
