use call_data::SysCall;
use profile_advice::Advice;

/// The values of a call that engines treat differently.
#[derive(Clone, Copy, Debug, PartialEq, Eq)]
pub struct EngineValues {
    /// The profile's value.
    pub here: u32,
    /// The value of the filter that engines make of the profile, if they keep the order of its entries.
    pub there: u32,
    /// The value that this filter may return instead, since libseccomp keeps no order between entries with
    /// conditions.
    pub instead: Option<u32>,
}

/// Something in a profile's entries or its default that its author may not have meant.
#[derive(Clone, Copy, Debug, PartialEq, Eq)]
pub enum Finding {
    /// The entry at this place decides no call.
    NeverDecides(usize),
    /// Without the entry at this place the profile means the same.
    Redundant(usize),
    /// It is not known whether the entry at this place ever decides a call.
    NotFoundOut(usize),
    /// It was not checked whether the entries from this place on ever decide a call.
    NotLookedAt(usize),
    /// It is not known whether engines read the entry at this place differently.
    NotCompared(usize),
    /// The entry at this place decides the call, and the filter that engines make of the profile returns
    /// another value for it.
    EnginesDiffer(usize, SysCall, EngineValues),
    /// The entries at both places apply to the call and decide it differently, and engines don't keep their
    /// order.
    Overlap(usize, usize, SysCall),
    /// Calls above the table's last number return this errno, and not ENOSYS.
    NewerCalls(u16),
    /// What the profile probably gets wrong by itself.
    Advised(Advice),
}
