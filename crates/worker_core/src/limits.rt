/// How many pods may be on a node.
pub const MAX_PODS: usize = 110;

/// How many uids a node ever admits.
pub const MAX_UIDS: usize = 65_536;

// The last number of a request.
pub(crate) const LAST_NUMBER: u64 = 18_446_744_073_709_551_615;
