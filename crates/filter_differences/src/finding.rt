use crate::part::Part;
use bpf_compare::Doubt;
use call_data::SysCall;

/// A part of the calls on which two filters were not found to be the same.
#[derive(Clone, Copy, Debug)]
pub struct Finding {
    /// The part.
    pub part: Part,
    /// What was found about it.
    pub found: Found,
}

/// What was found about a part.
#[derive(Clone, Copy, Debug)]
pub enum Found {
    /// On this call of the part the first filter returns the first value, and the second filter the second.
    Differs(SysCall, u32, u32),
    /// No answer was found.
    Undecided(Doubt),
}
