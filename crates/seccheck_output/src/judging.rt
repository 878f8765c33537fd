ghost use Rattle.std.specs.Prelude.{◌≡◌, ◌≤◌, length};
ghost use Rattle.action.specs.Verdict.{verdict_of};
ghost use Rattle.bpf_verify.specs.Sound.{IsSound};
ghost use Rattle.bpf_machine.specs.Runs.{NeverStuck, Runs};

use action::Verdict;
use bpf_machine::run;
use bpf_verify::Filter;
use call_data::SysCall;
use std::fmt;

/// A filter's answer to a call.
#[derive(Clone, Copy, Debug, PartialEq, Eq)]
pub struct Judged {
    /// The value that the filter returns.
    pub value: u32,
    /// The verdict of that value.
    pub verdict: Verdict,
    /// How many instructions were executed.
    pub steps: u32,
}

/// The printed line: `7fff0000 ALLOW 0 steps 3`, the value in eight hexadecimal digits.
impl fmt::Display for Judged {
    ghost use Rattle.std.specs.Prelude.{Some};
    ghost use Rattle.seccheck_output.specs.Texts.{judged_text};

    ghost output = { λ judged. Some (judged_text judged) };

    fn fmt<W: fmt::Write>(&self, f: &mut fmt::Formatter<W>) -> fmt::Result {
        let (value, steps) = (self.value, self.steps);
        let (action, ret_data) = (self.verdict.action, self.verdict.ret_data);
        write!(f, "{value:08x} {action} {ret_data} steps {steps}")
    }
}

/// Runs a filter on a call and interprets its value.
///
/// Every filter that the verifier accepts, on any call's data, ends within its own instruction count,
/// reads only the 64 data bytes and scratch words that it stored, and returns an action.
pub fn judge(filter: &Filter, call: &SysCall) -> Judged
    ensures sound { IsSound filter.now }
    ensures run { Runs filter.now call.now result.value result.steps }
    ensures ends { result.steps ≤ length filter.now }
    ensures reads { NeverStuck filter.now call.now }
    ensures acts { result.verdict ≡ verdict_of result.value }
{
    let _insns = filter.insns();
    let ran = run(filter, call);
    Judged {
        value: ran.value,
        verdict: Verdict::of_value(ran.value),
        steps: ran.steps,
    }
}
