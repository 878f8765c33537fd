use oci_profile::{Cond, Decision};

/// What decides a call.
#[derive(Clone, Copy, Debug, PartialEq, Eq)]
pub enum Decider {
    /// Its architecture is not x86-64.
    Architecture,
    /// Its number is one of the x32 interface.
    X32Bit,
    /// The entry at this place of `syscalls`, from 0.
    Entry(usize),
    /// No entry applies: `defaultAction`.
    Default,
}

/// An entry that names the call's number and does not apply.
#[derive(Clone, Copy, Debug, PartialEq, Eq)]
pub struct PassedOver {
    /// Its place in `syscalls`, from 0.
    pub place: usize,
    /// The first of its conditions that fails.
    pub cond: Cond,
    /// The argument of the call that the condition asks about.
    pub argument: u64,
}

/// Why a profile decides a call as it does.
#[derive(Drop)]
pub struct Explanation {
    /// The decision.
    pub decision: Decision,
    /// What makes the decision.
    pub decider: Decider,
    /// The entries before it that name the number, in order.
    pub passed: Vec<PassedOver>,
}
