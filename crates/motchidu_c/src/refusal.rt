ghost use Rattle.std.specs.Prelude.{◌≡◌};
ghost use Rattle.motchidu_c.specs.Status.{place_of, status_of};

use crate::status::Status;
use bpf_code::CodeFault;
use bpf_verify::{Fault, Refusal};

/// The status of a refusal for C.
pub(crate) fn status_of(refusal: Refusal) -> Status
    ensures { result ≡ status_of refusal }
{
    match refusal {
        Refusal::Code(CodeFault::Length) => Status::Length,
        Refusal::Code(CodeFault::TooLong) => Status::TooLong,
        Refusal::Code(CodeFault::BadCode(_)) => Status::BadCode,
        Refusal::Code(CodeFault::Memory) => Status::Memory,
        Refusal::Filter(Fault::Empty) => Status::Empty,
        Refusal::Filter(Fault::TooLong) => Status::TooLong,
        Refusal::Filter(Fault::BadOffset(_)) => Status::BadOffset,
        Refusal::Filter(Fault::BadJump(_)) => Status::BadJump,
        Refusal::Filter(Fault::BadWord(_)) => Status::BadWord,
        Refusal::Filter(Fault::BadShift(_)) => Status::BadShift,
        Refusal::Filter(Fault::ZeroDivisor(_)) => Status::ZeroDivisor,
        Refusal::Filter(Fault::NoFinalReturn) => Status::NoFinalReturn,
        Refusal::Filter(Fault::Unstored(_)) => Status::Unstored,
    }
}

/// The place of a refusal, if it has one, counted in instructions from 0.
pub(crate) fn place_of(refusal: Refusal) -> Option<usize>
    ensures { result ≡ place_of refusal }
{
    match refusal {
        Refusal::Code(CodeFault::BadCode(at)) => Some(at),
        Refusal::Filter(Fault::BadOffset(at)) => Some(at),
        Refusal::Filter(Fault::BadJump(at)) => Some(at),
        Refusal::Filter(Fault::BadWord(at)) => Some(at),
        Refusal::Filter(Fault::BadShift(at)) => Some(at),
        Refusal::Filter(Fault::ZeroDivisor(at)) => Some(at),
        Refusal::Filter(Fault::Unstored(at)) => Some(at),
        _ => None,
    }
}
