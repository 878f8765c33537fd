ghost use Rattle.std.specs.Prelude.{◌≡◌, ◌≤◌};
ghost use Rattle.lifecycle.specs.BackOff.{Run, lasted};

use std::marker::Model;

/// A run of a container that ended: when its start was answered, its exit code, and when that exit was
/// recorded. It was not recorded before it was started.
#[derive(Drop)]
pub struct PastRun {
    started: u64,
    code: u8,
    recorded: u64,
}

impl Model for PastRun {
    ghost use Rattle.std.specs.Prelude.{◌≤◌};
    ghost use Rattle.lifecycle.specs.BackOff.{Run};

    ghost Value = { Run };

    ghost view = { λ r. record { started = r.started; code = r.code; recorded = r.recorded } };

    ghost invariant = { λ r. r.started ≤ r.recorded };
}

impl PastRun {
    /// The run from `started` to `recorded`, both in seconds.
    pub fn new(started: u64, code: u8, recorded: u64) -> PastRun
        requires { started ≤ recorded }
        ensures { result ≡ record { started = started; code = code; recorded = recorded } }
    {
        PastRun {
            started,
            code,
            recorded,
        }
    }

    /// The moment at which its start was answered.
    pub fn started(&self) -> u64
        ensures value { result ≡ self.now.started }
        ensures ordered { result ≤ self.now.recorded }
    {
        self.started
    }

    /// Its exit code.
    pub fn code(&self) -> u8
        ensures { result ≡ self.now.code }
    {
        self.code
    }

    /// The moment at which its exit was recorded.
    pub fn recorded(&self) -> u64
        ensures { result ≡ self.now.recorded }
    {
        self.recorded
    }

    /// How many seconds it lasted.
    pub fn lasted(&self) -> u64
        ensures { result ≡ lasted self.now }
    {
        self.recorded - self.started
    }
}
