ghost use Rattle.std.specs.Prelude.{◌≡◌, ◌<◌, ◌≤◌, IfSome};
ghost use Rattle.worker_pod.specs.ContainerActions.{again, look_from, step_of};

use crate::settings::LAST_ATTEMPT;
use lifecycle::{RestartPolicy, Stage, Track, may_restart};

// What is done for a container, at one of its attempts.
#[derive(Clone, Copy)]
pub(crate) enum Work {
    Create(u32),
    Start(u32),
    // Its status is asked for.
    Look(u32),
    // It is removed, to make room for the next attempt.
    Clear(u32),
}

// The work due for a container, and the moment from which it is due.
#[derive(Clone, Copy)]
pub(crate) struct ContainerAction {
    pub(crate) from: u64,
    pub(crate) work: Work,
}

// The container that is worked on, by its place, and the number of the last claim that worked on it.
#[derive(Clone, Copy)]
pub(crate) struct Pick {
    pub(crate) at: usize,
    pub(crate) worked: u64,
    pub(crate) work: Work,
}

fn look_from(poll: u64, polled: Option<u64>) -> u64
    ensures { result ≡ look_from poll polled }
{
    match polled {
        None => 0,
        Some(polled) => polled.saturating_add(poll),
    }
}

// The moment from which another attempt may follow this one, whose run is the last.
fn again(policy: RestartPolicy, track: &Track, attempt: u32) -> Option<u64>
    ensures value { result ≡ again policy track.now attempt }
    ensures more { IfSome result (λ _. attempt < LAST_ATTEMPT) }
{
    let code = track.runs.last()?.code();
    if may_restart(policy, track.init, code) && attempt < LAST_ATTEMPT {
        Some(track.runs.ready_at())
    } else {
        None
    }
}

pub(crate) fn step_of(policy: RestartPolicy, poll: u64, track: &Track) -> Option<ContainerAction>
    ensures { result ≡ step_of policy poll track.now }
{
    match track.stage {
        Stage::Absent => Some(ContainerAction {
            from: 0,
            work: Work::Create(0),
        }),
        Stage::Made { attempt } => Some(ContainerAction {
            from: 0,
            work: Work::Start(attempt),
        }),
        Stage::Running {
            attempt,
            polled,
            ..
        } => Some(ContainerAction {
            from: look_from(poll, polled),
            work: Work::Look(attempt),
        }),
        Stage::Exited { attempt } => again(policy, track, attempt).map(|from| ContainerAction {
            from,
            work: Work::Clear(attempt),
        }),
        Stage::Removed { attempt } => {
            let from = again(policy, track, attempt)?;
            Some(ContainerAction {
                from,
                work: Work::Create(attempt + 1),
            })
        }
    }
}
