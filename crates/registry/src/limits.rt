/// The greatest number of uids that a runtime knows, including removed ones.
pub const MAX_UIDS: usize = 65_536;

/// The greatest number of cells of a sandbox.
pub const MAX_CELLS: usize = 1_024;

/// The greatest number of attempts at containers that are made in a sandbox.
pub const MAX_KEYS: usize = 65_536;

/// The exit code of a container that was stopped without a grace period: 128 and the number of SIGKILL, as a
/// shell reports a signal.
pub const STOPPED: u8 = 137;

/// The exit code of a container that was stopped with a grace period: 128 and the number of SIGTERM.
pub const TERMINATED: u8 = 143;
