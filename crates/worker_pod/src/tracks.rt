ghost use Rattle.std.specs.Prelude.{◌≡◌, ℕ, ◌+◌, ◌<◌, ◌≤◌, ◌++◌, ◌∷◌, [], IfOk, OnOk, OnErr, true, length};
ghost use Rattle.std.specs.Prelude.{map, option_map};
ghost use Rattle.lifecycle.specs.declared.runs.TheConstants.{MAX_RUNS};
ghost use Rattle.std.specs.Option.{option_copied};
ghost use Rattle.worker_pod.specs.Past.{fresh_tracks};
ghost use Rattle.worker_pod.specs.Tracks.{AllStartedBy, AllWithin, StartedBy, fresh, named_in, number_after};
ghost use Rattle.worker_pod.specs.Tracks.{records_in};
ghost use Rattle.worker_pod.specs.Tracks.{run_after, run_at, running_in, stage_after, stage_at, tracks_after};
ghost use Rattle.worker_pod.specs.Tracks.{worked_in};

use crate::settings::Outcome;
use crate::update::{StatusUpdate, told_of};
use cri_msgs::{Call, Key, Request};
use lifecycle::{MAX_RUNS, PastRun, Runs, Stage, Track};
use manifest::{Container, Containers, Label};
use std::alloc::{AllocError, Global};

// A container without any report.
fn fresh(init: bool) -> Track
    ensures { result ≡ fresh init }
{
    Track {
        init,
        stage: Stage::Absent,
        runs: Runs::new(),
        worked: 0,
    }
}

pub(crate) fn fresh_tracks(alloc: Global, containers: &Containers) -> Result<Vec<Track>, AllocError>
    ensures { IfOk result (λ tracks. tracks.items ≡ fresh_tracks containers.now) }
{
    let inits = containers.inits();
    let count = containers.as_slice().len();
    (0..count).map(|place| fresh(place < inits)).collect(alloc)
}

// An update on the attempt `of` moves the container on only if that attempt is the current one.
fn stage_at(now: u64, of: u32, update: StatusUpdate, stage: Stage) -> Stage
    ensures value { result ≡ stage_at now of update stage }
    ensures started { StartedBy now stage → StartedBy now result }
{
    match (update, stage) {
        (StatusUpdate::Made, _) => Stage::Made { attempt: of },
        (StatusUpdate::Started, Stage::Made { attempt }) if attempt == of => Stage::Running {
            attempt,
            started: now,
            polled: None,
        },
        (
            StatusUpdate::NotExited,
            Stage::Running {
                attempt,
                started,
                ..
            },
        ) if attempt == of => Stage::Running {
            attempt,
            started,
            polled: Some(now),
        },
        (StatusUpdate::Exited(_), Stage::Running { attempt, .. }) if attempt == of => {
            Stage::Exited { attempt }
        }
        (StatusUpdate::Cleared, Stage::Exited { attempt }) if attempt == of => Stage::Removed {
            attempt,
        },
        _ => stage,
    }
}

// The run that ends by the update.
fn run_at(now: u64, of: u32, update: StatusUpdate, stage: Stage) -> Option<PastRun>
    requires { StartedBy now stage }
    ensures { result ≡ run_at now of update stage }
{
    match (update, stage) {
        (
            StatusUpdate::Exited(code),
            Stage::Running {
                attempt,
                started,
                ..
            },
        ) if attempt == of => Some(PastRun::new(started, code, now)),
        _ => None,
    }
}

// The attempt that is going on.
fn running_in(stage: Stage) -> Option<u32>
    ensures { result ≡ running_in stage }
{
    match stage {
        Stage::Running { attempt, .. } => Some(attempt),
        _ => None,
    }
}

fn named_in(key: &Key, name: &Label) -> Option<u32>
    ensures { result ≡ named_in key.now name.now }
{
    if key.container.name == *name {
        Some(key.container.attempt)
    } else {
        None
    }
}

// Which attempt at the container of this name a claim of the call works on.
fn worked_in(call: &Call, name: &Label, stage: Stage) -> Option<u32>
    ensures { result ≡ worked_in call.now name.now stage }
{
    match call {
        Call::CreateContainer { key, .. }
        | Call::StartContainer { key }
        | Call::StopContainer { key, .. }
        | Call::RemoveContainer { key }
        | Call::ContainerStatus { key } => named_in(key, name),
        Call::ContainerStatuses { .. } => running_in(stage),
        Call::RunPodSandbox { .. }
        | Call::StopPodSandbox { .. }
        | Call::RemovePodSandbox { .. }
        | Call::ListContainers { .. } => None,
    }
}

// The run of the container that ends by the end of the claim.
fn run_after(
    name: &Label,
    stage: Stage,
    now: u64,
    request: &Request,
    outcome: &Outcome,
) -> Option<PastRun>
    requires { StartedBy now stage }
    ensures { result ≡ run_after now request.now outcome.now name.now stage }
{
    match worked_in(&request.call, name, stage) {
        Some(of) => run_at(now, of, told_of(name, of, request, outcome), stage),
        None => None,
    }
}

// What changes of the container besides its runs.
fn moved(track: &mut Track, name: &Label, now: u64, request: &Request, outcome: &Outcome)
    ensures track { track.new ≡ record {
      init = track.old.init;
      stage = stage_after now request.now outcome.now name.now track.old.stage;
      runs = track.old.runs;
      worked = number_after request.now name.now track.old.stage track.old.worked;
    } }
    ensures started { StartedBy now track.old.stage → StartedBy now track.new.stage }
{
    if let Some(of) = worked_in(&request.call, name, track.stage) {
        track.stage = stage_at(now, of, told_of(name, of, request, outcome), track.stage);
        track.worked = request.id;
    }
}

fn put(runs: &mut Runs, run: PastRun)
    requires { length runs.old < MAX_RUNS }
    ensures { runs.new ≡ runs.old ++ run ∷ [] }
{
    let pushed = runs.push(run);
    let held = pushed.is_ok();
    prove!(held);
    drop(pushed);
}

// Applies the end of the request's claim to the containers. Only a record of an exit can be refused, if no
// further run can be counted: that is checked for all containers before anything changes.
#[tactic(auto, unfolding(crate::specs::Tracks::AllStartedBy), using(crate::proofs::Begun::beyond_first))]
pub(crate) fn tracks_ended(
    containers: &[Container],
    tracks: &mut [Track],
    now: u64,
    request: &Request,
    outcome: &Outcome,
) -> Result<(), AllocError>
    requires { AllStartedBy now tracks.old }
    ensures ok { OnOk result
        (tracks.new ≡ tracks_after now request.now outcome.now containers.now tracks.old) }
    ensures err { OnErr result (tracks.new ≡ tracks.old) }
    ensures started { OnOk result (AllStartedBy now tracks.new) }
    ensures free { OnErr result (records_in now request.now outcome.now containers.now tracks.old ≡ true) }
    ensures full { OnErr result ((most : ℕ) → AllWithin most tracks.old → MAX_RUNS < most) }
{
    let Some((container, containers)) = containers.split_first() else {
        return Ok(());
    };
    let Some((track, tracks)) = tracks.split_first_mut() else {
        return Ok(());
    };
    let run = run_after(&container.name, track.stage, now, request, outcome);
    if run.is_some() && track.runs.is_full() {
        return Err(AllocError);
    }
    tracks_ended(containers, tracks, now, request, outcome)?;
    if let Some(run) = run {
        put(&mut track.runs, run);
    }
    moved(track, &container.name, now, request, outcome);
    Ok(())
}
