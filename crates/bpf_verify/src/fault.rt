use std::fmt;
use thiserror::Error;

/// Why code is not a sound filter, in the order of the checks. The five faults of a place are checked
/// together, lowest place first. Places count from 0.
#[derive(Clone, Copy, Debug, PartialEq, Eq, Error)]
pub enum Fault {
    /// There are no instructions.
    Empty,
    /// There are more than [`MAX_INSNS`](bpf_code::MAX_INSNS).
    TooLong,
    /// A load from the call's data at an offset that is not that of a word.
    BadOffset(usize),
    /// A jump to a place outside the code.
    BadJump(usize),
    /// A scratch word that the machine does not have.
    BadWord(usize),
    /// A shift by as many bits as a register has, or more.
    BadShift(usize),
    /// A division by the constant 0.
    ZeroDivisor(usize),
    /// The last instruction is not a return.
    NoFinalReturn,
    /// A load of a scratch word that some walk to it did not store.
    Unstored(usize),
}

/// The fault's name, and its place if it has one.
impl fmt::Display for Fault {
    ghost use Rattle.std.specs.Prelude.{Some};
    ghost use Rattle.bpf_verify.specs.FaultText.{fault_text};

    ghost output = { λ fault. Some (fault_text fault) };

    fn fmt<W: fmt::Write>(&self, f: &mut fmt::Formatter<W>) -> fmt::Result {
        match self {
            Fault::Empty => f.write_str("Empty"),
            Fault::TooLong => f.write_str("TooLong"),
            Fault::BadOffset(at) => write!(f, "BadOffset at {at}"),
            Fault::BadJump(at) => write!(f, "BadJump at {at}"),
            Fault::BadWord(at) => write!(f, "BadWord at {at}"),
            Fault::BadShift(at) => write!(f, "BadShift at {at}"),
            Fault::ZeroDivisor(at) => write!(f, "ZeroDivisor at {at}"),
            Fault::NoFinalReturn => f.write_str("NoFinalReturn"),
            Fault::Unstored(at) => write!(f, "Unstored at {at}"),
        }
    }
}
