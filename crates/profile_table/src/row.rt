use explain::Decider;

/// How a profile treats the calls with a number.
#[derive(Clone, Copy, Debug)]
pub struct Row {
    /// The number of a call of the table.
    pub nr: u32,
    /// Whether an entry with conditions may decide before.
    pub is_asked: bool,
    /// What decides all other calls with the number: its first entry without conditions, or the default.
    pub decider: Decider,
    /// The value of its decision.
    pub value: u32,
}
