use call_data::SysCall;

/// Whether an entry of a profile is needed.
#[derive(Clone, Copy, Debug, PartialEq, Eq)]
pub enum Standing {
    /// The profile decides this call differently without it.
    Needed(SysCall),
    /// It decides no call.
    NeverDecides,
    /// Without it the profile means the same.
    Redundant,
    /// No answer was found, or there is no such entry.
    Unknown,
}
