use bpf_compare::Doubt;
use call_data::SysCall;
use explain::Decider;
use filter_differences::Part;

/// What one of two filters returns on a call.
#[derive(Clone, Copy, Debug)]
pub struct SideAnswer {
    /// The value.
    pub value: u32,
    /// What of the profile decides the call, if the filter is a profile's.
    pub decider: Option<Decider>,
}

/// What is printed of the calls of a part.
#[derive(Clone, Copy, Debug)]
pub enum Line {
    /// On this call of the part the first filter returns the first value, and the second filter the second.
    Differs(Part, SysCall, SideAnswer, SideAnswer),
    /// No answer was found.
    Undecided(Part, Doubt),
}
