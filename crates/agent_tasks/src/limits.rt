/// How often worker 0 checks for tasks, in seconds of the machine's clock.
pub const TASK_LOOK: u64 = 1;

/// How many milliseconds worker 0 looks at files before it looks at its clock again.
pub const SLICE: u64 = 50;
