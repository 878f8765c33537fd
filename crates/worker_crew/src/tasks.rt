ghost use Rattle.std.specs.Prelude.{◌≡◌, IfSome};
ghost use Rattle.node_lock.specs.Books.{worker_of};

use crate::observer::Changes;
use crate::pace::Ended;
use worker_core::{AgentEvent, NodeRefusal};

/// What worker 0 does besides advancing the time: it records pods that come and go, and reports what changed.
pub trait CoordinatorTasks {
    /// The next event to record, if there is one now. Returns the same event until it is recorded.
    fn next(&mut self) -> Option<AgentEvent>
        ensures { IfSome result (λ event. worker_of event ≡ 0) };

    /// Called when the time has advanced to this moment.
    fn ticks(&mut self, moment: u64);

    /// Called when the event has become an entry, with the reason if the node refused it.
    fn recorded(&mut self, refusal: Option<NodeRefusal>);

    /// The seconds of the machine's clock until there may be an event again. `None` if there will be none.
    fn pause(&self) -> Option<u64>;

    /// Reports what changed since the last call.
    fn tell(&mut self, changes: Changes);

    /// Whether the crew must end at once.
    fn stops(&self) -> bool;

    /// The last moment of the virtual clock. `until` is the crew's own.
    fn until(&self, until: u64) -> u64;

    /// Called when the virtual clock ends this way, at this moment. Returns how the crew ends, or `None` if
    /// there is more to do.
    fn at_end(&mut self, ended: Ended, now: u64) -> Option<Ended>;
}

/// No tasks: worker 0 only advances the time.
#[derive(Clone, Copy)]
pub struct NoTasks;

impl CoordinatorTasks for NoTasks {
    fn next(&mut self) -> Option<AgentEvent> {
        None
    }

    fn ticks(&mut self, _moment: u64) {}

    fn recorded(&mut self, refusal: Option<NodeRefusal>) {
        drop(refusal);
    }

    fn pause(&self) -> Option<u64> {
        None
    }

    fn tell(&mut self, changes: Changes) {
        drop(changes);
    }

    fn stops(&self) -> bool {
        false
    }

    fn until(&self, until: u64) -> u64 {
        until
    }

    fn at_end(&mut self, ended: Ended, _now: u64) -> Option<Ended> {
        Some(ended)
    }
}
