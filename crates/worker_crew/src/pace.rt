//! Worker 0 advances the time: by a virtual clock that moves on when nothing else can happen, or by the
//! machine's clock.
ghost use Rattle.std.specs.Prelude.{◌≡◌, ◌-◌, ◌*◌, ◌/◌, min};
ghost use Rattle.std.specs.Duration.{as_nanos};
ghost use Rattle.worker_crew.specs.Idle.{next_look, next_of};
ghost use Rattle.worker_crew.specs.declared.pace.TheConstants.{LONGEST_WAIT};

use crate::coordinator::Coordinator;
use crate::idle::IdleReason;
use crate::shared::Shared;
use crate::tasks::CoordinatorTasks;
use std::sync::Wait;
use std::sync::ledger::Ledger;
use std::time::{Clock, Duration, Instant};
use worker_core::AgentEvent;

/// Which clock is used, and up to which moment, in seconds from the start.
#[derive(Clone, Copy, Debug, PartialEq, Eq)]
pub enum Pace {
    /// A virtual clock that starts at 0. Once no request is due and no pod is held, it moves to the next
    /// moment at which a request is due. It ends when each pod is Succeeded or Failed, and before any moment
    /// above this one.
    Virtual(u64),
    /// The machine's clock. It ends at this moment, if there is one.
    Real(Option<u64>),
}

/// Why a crew ended.
#[derive(Clone, Copy, Debug, PartialEq, Eq)]
pub enum Ended {
    /// Each pod is Succeeded or Failed.
    Settled,
    /// The last moment was reached.
    TimeUp,
    /// An allocation failed, or a thread could not be made.
    Memory,
    /// The current part of the history has no room for a claim.
    HistoryFull,
    /// A moment of the virtual clock does not end: workers have something to do at it again and again.
    Endless,
}

/// The runtime's side of a crew's calls, as far as the clock and the crew's end depend on it.
pub trait Counterpart {
    /// Waits until no container of the runtime runs, if that can be known. The virtual clock moves on only
    /// then.
    fn wait_idle(&self);

    /// Called at the crew's end: makes calls in progress return soon, whatever their peers do.
    fn end_calls(&self);
}

/// The longest time between two looks at the machine's clock, in seconds.
pub(crate) const LONGEST_WAIT: u64 = 3_600;

/// Advances the time beside workers, with one start for all parts of a history.
#[derive(Clone, Copy)]
pub(crate) struct TimeKeeper {
    pace: Pace,
    // None if the clock can't be read. The time does not advance then.
    start: Option<Instant>,
}

impl TimeKeeper {
    /// Begins now.
    pub(crate) fn start<R: Clock>(rt: &R, pace: Pace) -> TimeKeeper {
        TimeKeeper {
            pace,
            start: Instant::now(rt).ok(),
        }
    }

    /// Advances the time until there is nothing left to wait for, or the part of the history is full.
    pub(crate) fn keep<L: Ledger, C: Counterpart, E: CoordinatorTasks, R: Wait + Clock>(
        &self,
        rt: &R,
        shared: &Shared<L>,
        counterpart: &C,
        coordinator: &mut Coordinator<L>,
        tasks: &mut E,
    ) -> Ended
        ensures { coordinator.new.parts ≡ coordinator.old.parts }
    {
        match self.pace {
            Pace::Virtual(until) => count(rt, shared, counterpart, coordinator, tasks, until),
            Pace::Real(until) => self.watch(rt, shared, coordinator, tasks, until),
        }
    }

    /// Waits for the workers of a full part, until the last moment at most. Each worker ends once its call has
    /// returned.
    pub(crate) fn rest<L: Ledger, R: Wait + Clock>(&self, rt: &R, shared: &Shared<L>) -> Ended {
        if let Pace::Real(Some(until)) = self.pace {
            for _ in rt.forever() {
                if shared.wait_deserted_for(rt, self.left_until(rt, until)) {
                    break;
                }
                if self.seconds(rt) >= until {
                    return Ended::TimeUp;
                }
            }
        } else {
            shared.wait_deserted(rt);
        }
        Ended::HistoryFull
    }

    fn elapsed<R: Clock>(&self, rt: &R) -> Duration {
        match self.start.map(|start| start.elapsed(rt)) {
            Some(Ok(passed)) => passed,
            Some(Err(_)) | None => Duration::ZERO,
        }
    }

    fn seconds<R: Clock>(&self, rt: &R) -> u64 {
        moment_after(self.elapsed(rt))
    }

    // The time left until this moment, at most `LONGEST_WAIT`.
    fn left_until<R: Clock>(&self, rt: &R, moment: u64) -> Duration {
        left_of(self.elapsed(rt), moment)
    }

    fn watch<L: Ledger, E: CoordinatorTasks, R: Wait + Clock>(
        &self,
        rt: &R,
        shared: &Shared<L>,
        coordinator: &mut Coordinator<L>,
        tasks: &mut E,
        until: Option<u64>,
    ) -> Ended
        ensures { coordinator.new.parts ≡ coordinator.old.parts }
    {
        for _ in rt.forever() {
            let now = self.seconds(rt);
            if !ran_tasks(rt, shared, coordinator, tasks, now) {
                return fault_of(rt, shared);
            }
            let found = shared.idle_reason(rt, now);
            match found {
                Some(IdleReason::Deserted) => return fault_of(rt, shared),
                Some(IdleReason::Full) => return Ended::HistoryFull,
                // Nothing is due, so no entry is used to advance the time.
                Some(IdleReason::Over | IdleReason::Never | IdleReason::At(_)) => {}
                Some(IdleReason::Endless) | None => {
                    if now > shared.moment() && !ticked(rt, shared, coordinator, tasks, now) {
                        return fault_of(rt, shared);
                    }
                }
            }
            if tasks.stops() || until.is_some_and(|until| now >= until) {
                return Ended::TimeUp;
            }
            let next = next_look(found, now)
                .min(until.unwrap_or(u64::MAX))
                .min(next_task(tasks, now));
            shared.wait_change(rt, now, found, self.left_until(rt, next));
        }
        unreachable!()
    }
}

// When to read the machine's clock again, if nothing changes before: in a second, if workers have something
// to do.
fn next_look(found: Option<IdleReason>, now: u64) -> u64
    ensures { result ≡ next_look found now }
{
    match found {
        Some(IdleReason::At(due)) => due,
        Some(_) => u64::MAX,
        None => now.saturating_add(1),
    }
}

// When there may be an task again.
fn next_task<E: CoordinatorTasks>(tasks: &E, now: u64) -> u64 {
    match tasks.pause() {
        Some(seconds) => now.saturating_add(seconds),
        None => u64::MAX,
    }
}

// The moment after this time: whole seconds.
fn moment_after(passed: Duration) -> u64
    ensures { result ≡ as_nanos passed / 1000000000 }
{
    passed.as_secs()
}

// The time left until this moment after this time, at most `LONGEST_WAIT`.
fn left_of(passed: Duration, moment: u64) -> Duration
    ensures { as_nanos result ≡ min (moment * 1000000000 - as_nanos passed) (LONGEST_WAIT * 1000000000) }
{
    Duration::from_secs(moment)
        .saturating_sub(passed)
        .min(Duration::from_secs(LONGEST_WAIT))
}

// Records the events due at this moment, and reports what changed. False if the book took no entry.
fn ran_tasks<L: Ledger, E: CoordinatorTasks, R: Wait>(
    rt: &R,
    shared: &Shared<L>,
    coordinator: &mut Coordinator<L>,
    tasks: &mut E,
    now: u64,
) -> bool
    ensures { coordinator.new.parts ≡ coordinator.old.parts }
{
    for _ in rt.forever() {
        let Some(event) = tasks.next() else {
            break;
        };
        if now > shared.moment() && !ticked(rt, shared, coordinator, tasks, now) {
            return false;
        }
        match coordinator.record(rt, shared, event) {
            Ok(refusal) => tasks.recorded(refusal),
            Err(_) => return false,
        }
    }
    tasks.tell(shared.take_changes(rt));
    true
}

// Why the book took no event.
fn fault_of<L: Ledger, R: Wait>(rt: &R, shared: &Shared<L>) -> Ended {
    if shared.has_room(rt) {
        Ended::Memory
    } else {
        Ended::HistoryFull
    }
}

// Advances the time to this moment. It is set first, so that workers woken by the tick see it. False if the
// book took no entry.
fn ticked<L: Ledger, E: CoordinatorTasks, R: Wait>(
    rt: &R,
    shared: &Shared<L>,
    coordinator: &mut Coordinator<L>,
    tasks: &mut E,
    now: u64,
) -> bool
    ensures { coordinator.new.parts ≡ coordinator.old.parts }
{
    shared.tell(now);
    tasks.ticks(now);
    coordinator
        .record(rt, shared, AgentEvent::Tick(now))
        .is_ok()
}

// What the virtual clock does next.
enum Next {
    // It goes on to this moment.
    To(u64),
    // It ends this way.
    End(Ended),
    // The book takes no entry.
    Stuck,
    // Nothing yet.
    Nothing,
}

fn next_of(found: Option<IdleReason>, until: u64) -> Next
    ensures { result ≡ next_of found until }
{
    match found {
        None => Next::Nothing,
        Some(IdleReason::Over) => Next::End(Ended::Settled),
        Some(IdleReason::Never) => Next::End(Ended::TimeUp),
        Some(IdleReason::Endless) => Next::End(Ended::Endless),
        Some(IdleReason::Full) => Next::End(Ended::HistoryFull),
        Some(IdleReason::Deserted) => Next::Stuck,
        Some(IdleReason::At(due)) if due > until => Next::End(Ended::TimeUp),
        Some(IdleReason::At(due)) => Next::To(due),
    }
}

fn count<L: Ledger, C: Counterpart, E: CoordinatorTasks, R: Wait>(
    rt: &R,
    shared: &Shared<L>,
    counterpart: &C,
    coordinator: &mut Coordinator<L>,
    tasks: &mut E,
    until: u64,
) -> Ended
    ensures { coordinator.new.parts ≡ coordinator.old.parts }
{
    for _ in rt.forever() {
        let now = shared.moment();
        if !ran_tasks(rt, shared, coordinator, tasks, now) {
            return fault_of(rt, shared);
        }
        match next_of(shared.next_idle_reason(rt, now), tasks.until(until)) {
            Next::Nothing => {}
            Next::Stuck => return fault_of(rt, shared),
            Next::End(Ended::HistoryFull) => return Ended::HistoryFull,
            Next::End(ended) => {
                if let Some(ended) = tasks.at_end(ended, now) {
                    return ended;
                }
            }
            Next::To(due) => {
                // So the requests at the next moment do not depend on how far a runner has come.
                counterpart.wait_idle();
                if !ticked(rt, shared, coordinator, tasks, due) {
                    return fault_of(rt, shared);
                }
            }
        }
    }
    unreachable!()
}
