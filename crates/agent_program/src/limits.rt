/// The number of runners, if the runtime is in this process.
pub(crate) const RUNNERS: u32 = 4;

/// The maximum number of workers.
pub(crate) const MAX_WORKERS: u32 = 64;

/// How many seconds a call may take, from its connection to the last byte of its reply. After that it is
/// lost.
pub(crate) const PATIENCE: u64 = 120;

/// How many milliseconds a call in progress has left when the agent ends.
pub(crate) const LAST_CALLS: u64 = 1_000;

/// How often calls in progress are checked in that time.
pub(crate) const LOOKS: u64 = 100;
