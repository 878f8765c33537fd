/// The maximum number of entries of a history.
pub const MAX_ENTRIES: usize = 1_048_576;

/// The number of parts of the count of a node's entries: one for each of the workers 0 to 64.
pub const PARTS: u64 = 65;
