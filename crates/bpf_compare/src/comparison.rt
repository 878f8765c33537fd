use call_data::SysCall;

/// How two filters compare.
#[derive(Clone, Copy, Debug, PartialEq, Eq)]
pub enum Comparison {
    /// They return the same value on every call of the scope.
    Same,
    /// On this call of the scope the first filter returns the first value, and the second filter the second.
    Differs(SysCall, u32, u32),
    /// No answer was found.
    Undecided(Doubt),
}

/// Why a comparison is undecided.
#[derive(Clone, Copy, Debug, PartialEq, Eq)]
pub enum Doubt {
    /// The comparison takes more instructions than the budget.
    Budget,
    /// A filter computes with what it loaded, other than by masks, or compares it with an X that may be many
    /// numbers.
    Arithmetic,
}
