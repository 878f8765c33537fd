ghost use Rattle.std.specs.Prelude.{◌≡◌, ◌<◌, ℕ, List, Option, Some, length};
ghost use Rattle.action.specs.Verdict.{performs_of};
ghost use Rattle.bpf_code.specs.declared.insn.Insn.{Insn};
ghost use Rattle.script.specs.declared.scripts.Step.{Step};
ghost use Rattle.runtime_cell.specs.Keeps.{next_by};
ghost use Rattle.runtime_cell.specs.Outcome.{code_at, end_of, entry_of, install_call, installed, judged};
ghost use Rattle.runtime_cell.specs.Outcome.{on_errno};

use crate::calls::{ENOMEM, JudgedCall, KILLED, entry_of, install_call};
use action::{Action, Verdict};
use call_data::SysCall;

/// What is done at a step of a script.
#[derive(Clone, Copy)]
pub(crate) enum Act {
    /// A call is judged, and the script goes on.
    Goes(JudgedCall),
    /// A call is judged, the step's filter is added, and the script goes on.
    Adds(JudgedCall),
    /// A call is judged, and the script ends with the code.
    Stops(JudgedCall, u8),
    /// The script ends with the code.
    Over(u8),
}

/// What is done at a call with this verdict.
pub(crate) fn call_act(call: SysCall, verdict: Verdict, on_error: Option<u8>) -> Act
    ensures { (step : Option Step) → next_by result step
        ≡ judged (entry_of call verdict) (end_of verdict on_error) }
{
    judged(entry_of(call, verdict), end_of(verdict, on_error))
}

/// What is done at a step that installs a filter, with this verdict of its call. `has_place` is whether the
/// filter fits on the stack.
pub(crate) fn install_act(verdict: Verdict, has_place: bool, on_error: Option<u8>) -> Act
    ensures { (filter : List Insn) (own : Option ℕ) → next_by result (Some (Step.Install filter own))
        ≡ installed filter (entry_of install_call verdict) (end_of verdict on_error) on_error
        (performs_of verdict.action) has_place }
{
    let entry = entry_of(install_call(), verdict);
    match (entry.performed, has_place) {
        (true, true) => Act::Adds(entry),
        (true, false) => judged(entry, on_errno(ENOMEM, on_error)),
        (false, _) => judged(entry, end_of(verdict, on_error)),
    }
}

fn judged(entry: JudgedCall, end: Option<u8>) -> Act
    ensures { (step : Option Step) → next_by result step ≡ judged entry end }
{
    match end {
        Some(code) => Act::Stops(entry, code),
        None => Act::Goes(entry),
    }
}

/// The code with which a script ends after a call with this verdict, if it ends there.
fn end_of(verdict: Verdict, on_error: Option<u8>) -> Option<u8>
    ensures { result ≡ end_of verdict on_error }
{
    match verdict.action {
        Action::KillProcess | Action::KillThread | Action::Trap => Some(KILLED),
        _ => match verdict.errno() {
            None => None,
            Some(errno) => on_errno(errno, on_error),
        },
    }
}

/// The code with which a script ends after a call that returns this errno. An errno of 0 is no error.
fn on_errno(errno: u16, on_error: Option<u8>) -> Option<u8>
    ensures { result ≡ on_errno (Some errno) on_error }
{
    if errno == 0 { None } else { on_error }
}

/// The code of this attempt, or the last one if there are fewer.
pub(crate) fn code_at(codes: &[u8], attempt: u32) -> u8
    requires { 0 < length codes.now }
    ensures { result ≡ code_at codes.now attempt }
{
    let last = codes.len() - 1;
    codes[last.min(attempt as usize)]
}
