//! Judging calls, which takes no memory.
use crate::filters::{are_same, filter};
use action::{Action, Verdict};
use bpf_code::Insn;
use bpf_machine::run;
use bpf_verify::{Filter, verify};
use call_data::{NATIVE_ARCH, SysCall};
use std::alloc::Global;
use sys_table::{name, number};
use trials::{CallResult, Trial, TrialResult, try_call};
use verdict::Stack;

/// Tries to judge calls.
pub(crate) fn run_trial(rt: &HostRuntime, name: &str) -> Option<TrialResult> {
    match name {
        "judging" => Some(try_call(rt, Judges::new(rt.alloc()))),
        _ => None,
    }
}

/// getpid, without arguments.
const GETPID: SysCall = SysCall {
    nr: 39,
    arch: NATIVE_ARCH,
    ip: 0,
    args: [0; 6],
};

/// The code of a filter that was not verified, and a stack of that filter.
#[derive(Drop)]
struct Judges {
    alloc: Global,
    codes: Vec<Vec<Insn>>,
    wanted: Filter,
    stack: Stack,
}

impl Judges {
    fn new(alloc: Global) -> Option<Judges> {
        let wanted = filter(alloc)?;
        let mut codes = Vec::new(alloc);
        codes
            .push(Vec::from_slice(alloc, wanted.insns()).ok()?)
            .ok()?;
        let mut stack = Stack::new(alloc);
        stack.push(filter(alloc)?).ok()?;
        Some(Judges {
            alloc,
            codes,
            wanted,
            stack,
        })
    }

    /// The verdicts on getpid of a filter of the code, by itself and in a stack, if the filter is sound.
    fn judged(&mut self) -> Option<(Verdict, Verdict)> {
        let filter = verify(self.codes.pop()?).ok()?;
        let ran = run(&filter, &GETPID);
        let is_right = are_same(&filter, &self.wanted)
            && filter.len() == 4
            && filter.longest() == 3
            && ran.steps == 3;
        if is_right {
            Some((Verdict::of_value(ran.value), self.stack.judge(&GETPID)))
        } else {
            None
        }
    }
}

/// Whether calls, values and names are as seccomp(2) and the call table have them.
fn are_as_documented() -> bool {
    GETPID.to_bytes()[0] == 39
        && GETPID.word(4) == NATIVE_ARCH
        && Insn::new(0xff, 0, 0, 0).is_none()
        && name(39) == Some("getpid")
        && number("getpid") == Some(39)
}

fn is_killed(verdict: Verdict) -> bool {
    verdict.action == Action::KillProcess
        && verdict.value() == 0x8000_0000
        && verdict.rank() == 0
        && verdict.errno().is_none()
        && !verdict.performs()
}

impl Trial for Judges {
    type Answer = bool;

    fn call(&mut self) -> bool {
        let is_open = Stack::new(self.alloc).judge(&GETPID).performs();
        match self.judged() {
            Some((alone, together)) => is_open
                && are_as_documented()
                && is_killed(alone)
                && is_killed(together),
            None => false,
        }
    }

    fn check(&mut self, answer: &bool) -> CallResult {
        CallResult::right_if(*answer)
    }
}
