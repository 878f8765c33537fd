/// The last moment of `--settle` by default, in seconds.
pub const SETTLE_UNTIL: u64 = 3_600;

/// The seconds between two looks at a running container, by the machine's clock.
pub const POLL: u64 = 1;

/// The time from the beginning of a look into a folder to the next one, as a multiple of the look's duration.
pub const LOOK_SHARE: u64 = 125;

/// The shortest time from the beginning of a look to the next one, in milliseconds.
pub const SHORTEST_REST: u64 = 1_000;

/// The longest time from the beginning of a look to the next one, in milliseconds.
pub const LONGEST_REST: u64 = 10_000;

/// How many seconds of the virtual clock an agent has at its end to remove its pods.
pub const REMOVAL: u64 = 60;
