ghost use Rattle.std.specs.Prelude.{◌≡◌, ◌<◌, ◌≤◌, ◌↔◌, IsOk, IfOk, IfErr, IfSome, IfNone, IsTrue, IsErrAnd};
ghost use Rattle.std.specs.Prelude.{length};
ghost use Rattle.bpf_verify.specs.declared.fault.Fault.{Fault};
ghost use Rattle.bpf_verify.specs.Sound.{EndsWithReturn, IsSound};
ghost use Rattle.bpf_verify.specs.Faults.{IsFirstFault};

use crate::fault::Fault;
use crate::filter::Filter;
use crate::place::first_broken;
use crate::words::first_unstored;
use bpf_code::{Flow, Insn, MAX_INSNS};

/// Accepts sound code, and no other. Refused code is returned with its first fault.
pub fn verify(insns: Vec<Insn>) -> Result<Filter, (Vec<Insn>, Fault)>
    ensures sound { IsOk result ↔ IsSound insns.items }
    ensures same { IfOk result (λ filter. filter ≡ insns.items) }

    // A refused list is returned unchanged.
    ensures back { IfErr result (λ refused. refused.0.items ≡ insns.items) }
    ensures first { IfErr result (λ refused. IsFirstFault insns.items refused.1) }

    // If there is a first fault, it is reported.
    ensures told { (fault : Fault) → IsFirstFault insns.items fault
        → IsErrAnd result (λ refused. refused.1 ≡ fault) }
{
    match first_fault(&insns) {
        Some(fault) => Err((insns, fault)),
        None => Ok(Filter::new(insns)),
    }
}

/// The first fault of code that is not sound.
fn first_fault(code: &[Insn]) -> Option<Fault>
    ensures first { IfSome result (IsFirstFault code.now) }
    ensures sound { IfNone result (IsSound code.now) }
{
    if code.is_empty() {
        return Some(Fault::Empty);
    }
    if code.len() > MAX_INSNS {
        return Some(Fault::TooLong);
    }
    if let Some(fault) = first_broken(code) {
        return Some(fault);
    }
    if !ends_with_return(code) {
        return Some(Fault::NoFinalReturn);
    }
    match first_unstored(code) {
        Some(at) => Some(Fault::Unstored(at)),
        None => None,
    }
}

fn ends_with_return(code: &[Insn]) -> bool
    requires { 0 < length code.now }
    ensures { IsTrue result ↔ EndsWithReturn code.now }
{
    code[code.len() - 1].op.flow() == Flow::Returns
}
