ghost use Rattle.std.specs.Prelude.{◌≡◌};
ghost use Rattle.lifecycle.specs.Tracks.{ended_code, is_failed, is_finished, is_succeeded, started_of};
ghost use Rattle.lifecycle.specs.Tracks.{state_of, was_started};

use crate::policy::{RestartPolicy, may_restart};
use crate::runs::Runs;
use crate::state::ContainerState;

/// The last known stage of a container's current attempt. Attempts count from 0.
#[derive(Clone, Copy, Debug, PartialEq, Eq)]
pub enum Stage {
    /// No attempt was made.
    Absent,
    /// The attempt was made.
    Made {
        attempt: u32,
    },
    /// Its start was answered at the moment `started`, and its status last at `polled`.
    Running {
        attempt: u32,
        started: u64,
        polled: Option<u64>,
    },
    /// It ended, as recorded in the last of the runs, and was not removed.
    Exited {
        attempt: u32,
    },
    /// It ended, and was removed.
    Removed {
        attempt: u32,
    },
}

/// The history of a container of a pod.
#[derive(Drop)]
pub struct Track {
    /// Whether it is an init container.
    pub init: bool,
    pub stage: Stage,
    /// Its runs that ended, the oldest first.
    pub runs: Runs,
    /// The number of the last claim that worked on it, 0 for none.
    pub worked: u64,
}

impl Track {
    /// The exit code of its last run, if no further run is going on.
    pub fn ended_code(&self) -> Option<u8>
        ensures { result ≡ ended_code self.now }
    {
        match self.stage {
            Stage::Running { .. } => None,
            _ => self.runs.last().map(|run| run.code()),
        }
    }

    /// How many attempts were started: each run that ended, and the current one.
    pub fn started(&self) -> usize
        ensures { result ≡ started_of self.now }
    {
        match self.stage {
            Stage::Running { .. } => self.runs.count() + 1,
            _ => self.runs.count(),
        }
    }

    /// Whether an attempt was started at all.
    pub fn was_started(&self) -> bool
        ensures { result ≡ was_started self.now }
    {
        self.started() > 0
    }

    /// Whether it ended for good: with a code after which it may not be started again.
    pub fn is_finished(&self, policy: RestartPolicy) -> bool
        ensures { result ≡ is_finished policy self.now }
    {
        match self.ended_code() {
            None => false,
            Some(code) => !may_restart(policy, self.init, code),
        }
    }

    /// Whether it ended for good, with code 0.
    pub fn is_succeeded(&self, policy: RestartPolicy) -> bool
        ensures { result ≡ is_succeeded policy self.now }
    {
        match self.ended_code() {
            None => false,
            Some(code) => !may_restart(policy, self.init, code) && code == 0,
        }
    }

    /// Whether it ended for good, with another code than 0.
    pub fn is_failed(&self, policy: RestartPolicy) -> bool
        ensures { result ≡ is_failed policy self.now }
    {
        match self.ended_code() {
            None => false,
            Some(code) => !may_restart(policy, self.init, code) && code != 0,
        }
    }

    /// Its state.
    pub fn state(&self, policy: RestartPolicy) -> ContainerState
        ensures { result ≡ state_of policy self.now }
    {
        match (self.stage, self.ended_code()) {
            (Stage::Running { .. }, _) => ContainerState::Running,
            (_, Some(code)) if !may_restart(policy, self.init, code) => ContainerState::Terminated(
                code,
            ),
            _ => ContainerState::Waiting,
        }
    }
}
