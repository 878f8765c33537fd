ghost use Rattle.std.specs.Prelude.{◌≡◌, IfOk};
ghost use Rattle.std.specs.List.{All};
ghost use Rattle.bpf_compare.specs.Agree.{Returns};
ghost use Rattle.filter_differences.specs.Differences.{IsTrue};
ghost use Rattle.seccheck_differences.specs.Telling.{AreLinesOf, IsDecidedBy, IsLineOf, IsAnswerOf, code_of};

use crate::line::{Line, SideAnswer};
use crate::sides::{Compiled, Side};
use call_data::{SysCall, fields_fit};
use explain::{Decider, explain};
use filter_differences::{Finding, Found};
use std::alloc::{AllocError, Global};

/// The line of each finding, in order.
pub fn lines(
    alloc: Global,
    first: &Side,
    second: &Side,
    findings: &[Finding],
) -> Result<Vec<Line>, AllocError>
    requires { All (IsTrue (code_of first.now) (code_of second.now)) findings.now }
    ensures { IfOk result (λ lines. AreLinesOf first.now second.now findings.now lines.items) }
{
    let mut lines = Vec::new(alloc);
    for finding in findings {
        lines.push(line(alloc, first, second, finding)?)?;
    }
    Ok(lines)
}

/// The line of a finding.
fn line(alloc: Global, first: &Side, second: &Side, finding: &Finding) -> Result<Line, AllocError>
    requires { IsTrue (code_of first.now) (code_of second.now) finding.now }
    ensures { IfOk result (λ line. IsLineOf first.now second.now finding.now line) }
{
    let part = finding.part;
    match finding.found {
        Found::Differs(call, one, other) => {
            let one = side_answer(alloc, first, &call, one)?;
            let other = side_answer(alloc, second, &call, other)?;
            Ok(Line::Differs(part, call, one, other))
        }
        Found::Undecided(doubt) => Ok(Line::Undecided(part, doubt)),
    }
}

/// What a side returns on a call, with what decides it.
fn side_answer(
    alloc: Global,
    side: &Side,
    call: &SysCall,
    value: u32,
) -> Result<SideAnswer, AllocError>
    requires { Returns (code_of side.now) call.now value }
    ensures { IfOk result (λ answer. (answer.value ≡ value)
        × IsAnswerOf side.now call.now answer) }
{
    let decider = match side {
        Side::Filter(_) => None,
        Side::Profile(compiled) => Some(decider(alloc, compiled, call, value)?),
    };
    Ok(SideAnswer { value, decider })
}

/// What of a profile decides a call on which its filter returns this value.
fn decider(
    alloc: Global,
    compiled: &Compiled,
    call: &SysCall,
    value: u32,
) -> Result<Decider, AllocError>
    requires { Returns compiled.now.filter call.now value }
    ensures { IfOk result (λ decider. IsDecidedBy compiled.now.profile call.now value decider) }
{
    fields_fit(*call);
    let explanation = explain(alloc, &compiled.profile, call)?;
    Ok(explanation.decider)
}
