ghost use Rattle.std.specs.Prelude.{◌≡◌};
ghost use Rattle.worker_pod.specs.ContainerActions.{better, chosen, front_of, is_in_turn, is_longer, sooner};
ghost use Rattle.worker_pod.specs.ContainerActions.{soonest};
ghost use Rattle.worker_pod.specs.ContainerActions.{turn_of};

use crate::container_actions::{ContainerAction, Pick, step_of};
use lifecycle::{RestartPolicy, Track};

// The first init container that has not succeeded.
fn front(policy: RestartPolicy, tracks: &[Track]) -> Option<usize>
    ensures { result ≡ front_of policy tracks.now }
{
    tracks
        .iter()
        .position(|t| t.init && !t.is_succeeded(policy))
}

fn is_in_turn(front: Option<usize>, at: usize, track: &Track) -> bool
    ensures { result ≡ is_in_turn front at track.now }
{
    match front {
        None => !track.init,
        Some(first) => at == first,
    }
}

fn turn(
    policy: RestartPolicy,
    poll: u64,
    front: Option<usize>,
    at: usize,
    track: &Track,
) -> Option<ContainerAction>
    ensures { result ≡ turn_of policy poll front at track.now }
{
    if is_in_turn(front, at, track) {
        step_of(policy, poll, track)
    } else {
        None
    }
}

fn is_longer(best: Option<Pick>, worked: u64) -> bool
    ensures { result ≡ is_longer best worked }
{
    match best {
        None => true,
        Some(best) => worked < best.worked,
    }
}

// Of containers that were worked on equally long ago, the first stays.
fn better(
    now: u64,
    best: Option<Pick>,
    at: usize,
    track: &Track,
    step: Option<ContainerAction>,
) -> Option<Pick>
    ensures { result ≡ better now best at track.now step }
{
    match step {
        Some(step) if step.from <= now && is_longer(best, track.worked) => Some(Pick {
            at,
            worked: track.worked,
            work: step.work,
        }),
        _ => best,
    }
}

// The container that is worked on at this moment, if one is due.
pub(crate) fn chosen(policy: RestartPolicy, poll: u64, now: u64, tracks: &[Track]) -> Option<Pick>
    ensures { result ≡ chosen policy poll now tracks.now }
{
    let front = front(policy, tracks);
    let mut best = None;
    for (at, track) in tracks.iter().enumerate() {
        best = better(now, best, at, track, turn(policy, poll, front, at, track));
    }
    best
}

fn sooner(best: Option<u64>, step: Option<ContainerAction>) -> Option<u64>
    ensures { result ≡ sooner best step }
{
    match (best, step) {
        (best, None) => best,
        (None, Some(step)) => Some(step.from),
        (Some(best), Some(step)) => Some(best.min(step.from)),
    }
}

// The moment from which one is due.
pub(crate) fn soonest(policy: RestartPolicy, poll: u64, tracks: &[Track]) -> Option<u64>
    ensures { result ≡ soonest policy poll tracks.now }
{
    let front = front(policy, tracks);
    let mut best = None;
    for (at, track) in tracks.iter().enumerate() {
        best = sooner(best, turn(policy, poll, front, at, track));
    }
    best
}
