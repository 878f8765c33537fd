//! Why each container of a pod waits.
ghost use Rattle.std.specs.Prelude.{◌≡◌, ◌++◌, ℕ, IfOk, IsNone, IsSome, OnOk, false, option_copied};
ghost use Rattle.lifecycle.specs.Tracks.{state_of};
ghost use Rattle.lifecycle.specs.declared.state.ContainerState.TheVariants.{Running, Terminated, Waiting};
ghost use Rattle.node_watch.specs.Waits.{back_off_in, container_wait, holds_back, is_same_failure, minute_of};
ghost use Rattle.node_watch.specs.Waits.{is_same_reason, reason_of, unless_failed, waits_behind, waits_of};

use crate::calls::call_name;
use crate::reasons::{Reason, Reasons, is_same_cause, is_same_trouble};
use lifecycle::{ContainerState, RestartPolicy, Stage, Track};
use manifest::{Container, Label, Pod, Uid};
use std::alloc::{AllocError, Global};
use worker_pod::PodView;

/// Why a container that is not over waits, or that it runs.
#[derive(Debug, Drop)]
pub enum WaitReason {
    /// It comes after an init container that has not succeeded.
    Setup,
    /// Its back-off ends at this moment, in seconds.
    BackOff {
        until: u64,
        /// The code of its last run.
        code: u8,
        /// The number of the next run, from 1.
        run: usize,
    },
    /// The last call about it, or about its pod as a whole, failed.
    Failed(Reason),
    /// Its next call is due, or under way.
    Due,
    /// It runs.
    Runs,
}

/// Why one container waits. `None` if it is over.
#[derive(Debug, Drop)]
pub struct ContainerWait {
    pub name: Label,
    pub reason: Option<WaitReason>,
}

/// Why the containers of a pod wait.
#[derive(Debug, Drop)]
pub struct PodWaits {
    pub uid: Uid,
    /// Init containers first, in the order of the manifest.
    pub containers: Vec<ContainerWait>,
}

fn holds_back(policy: RestartPolicy, track: &Track) -> bool
    ensures { result ≡ holds_back policy track.now }
{
    track.init && !track.is_succeeded(policy)
}

fn back_off_of(moment: u64, track: &Track) -> Option<WaitReason>
    ensures { result ≡ back_off_in moment track.now.runs track.now.stage }
{
    let (Stage::Exited { .. } | Stage::Removed { .. }) = track.stage else {
        return None;
    };
    let code = track.runs.last()?.code();
    let until = track.runs.ready_at();
    if moment < until {
        Some(WaitReason::BackOff {
            until,
            code,
            run: track.runs.count() + 1,
        })
    } else {
        None
    }
}

// The reason, unless a call failed.
fn unless_failed(
    alloc: Global,
    reason: WaitReason,
    failed: Option<&Reason>,
) -> Result<WaitReason, AllocError>
    ensures { IfOk result (λ r. r ≡ unless_failed reason (option_copied failed.entry)) }
{
    match failed {
        None => Ok(reason),
        Some(failed) => Ok(WaitReason::Failed(failed.try_clone(alloc)?)),
    }
}

/// Why a container waits at this moment, in seconds: the one reason of a container that is not over.
/// `is_behind` is whether an init container before it has not succeeded, and `failed` is the last failed call
/// about it.
pub fn reason_of(
    alloc: Global,
    policy: RestartPolicy,
    is_behind: bool,
    moment: u64,
    track: &Track,
    failed: Option<&Reason>,
) -> Result<Option<WaitReason>, AllocError>
    ensures reason { IfOk result (λ reason. reason
        ≡ reason_of policy is_behind moment track.now (option_copied failed.entry)) }
    ensures over { (code : ℕ) → state_of policy track.now ≡ Terminated code → IfOk result IsNone }
    ensures waits { state_of policy track.now ≡ Waiting → IfOk result IsSome }
    ensures runs { state_of policy track.now ≡ Running → IfOk result IsSome }
{
    match track.state(policy) {
        ContainerState::Terminated(_) => Ok(None),
        ContainerState::Running => Ok(Some(unless_failed(alloc, WaitReason::Runs, failed)?)),
        ContainerState::Waiting if is_behind => Ok(Some(WaitReason::Setup)),
        ContainerState::Waiting => match back_off_of(moment, track) {
            Some(back_off) => Ok(Some(back_off)),
            None => Ok(Some(unless_failed(alloc, WaitReason::Due, failed)?)),
        },
    }
}

/// A pod at a moment in seconds, and the failed calls of its node.
#[derive(Clone, Copy)]
struct PodAt<'a> {
    pod: &'a Pod,
    reasons: &'a Reasons,
    moment: u64,
}

fn container_wait(
    alloc: Global,
    at: &PodAt<'_>,
    is_behind: bool,
    container: &Container,
    track: &Track,
) -> Result<ContainerWait, AllocError>
    ensures { IfOk result (λ wait. wait ≡ container_wait at.now.pod.now.policy at.now.pod.now.uid at.now.reasons.now
        at.now.moment is_behind container.now track.now) }
{
    let (policy, moment) = (at.pod.policy, at.moment);
    let failed = at.reasons.reason_for(&at.pod.uid, &container.name);
    Ok(ContainerWait {
        name: container.name.try_clone(alloc)?,
        reason: reason_of(alloc, policy, is_behind, moment, track, failed)?,
    })
}

// Those of the other containers come after.
fn add_waits(
    alloc: Global,
    at: &PodAt<'_>,
    is_behind: bool,
    containers: &[Container],
    tracks: &[Track],
    waits: &mut Vec<ContainerWait>,
) -> Result<(), AllocError>
    ensures { OnOk result (waits.new.items ≡ waits.old.items
        ++ waits_behind at.now.pod.now.policy at.now.pod.now.uid at.now.reasons.now at.now.moment is_behind
        containers.now tracks.now) }
{
    let Some((container, containers)) = containers.split_first() else {
        return Ok(());
    };
    let Some((track, tracks)) = tracks.split_first() else {
        return Ok(());
    };
    waits.push(container_wait(alloc, at, is_behind, container, track)?)?;
    let is_behind = is_behind || holds_back(at.pod.policy, track);
    add_waits(alloc, at, is_behind, containers, tracks, waits)
}

impl PodWaits {
    /// Why the containers of a pod wait at this moment, in seconds, by the failed calls of the node.
    pub fn of(
        alloc: Global,
        view: PodView<'_>,
        reasons: &Reasons,
        moment: u64,
    ) -> Result<PodWaits, AllocError>
        ensures uid { IfOk result (λ waits. waits.uid ≡ view.entry.pod.now.uid) }
        ensures containers { IfOk result (λ waits. waits.containers.items
            ≡ waits_of view.entry.pod.now.policy view.entry.pod.now.uid reasons.now moment
            view.entry.pod.now.containers.all view.entry.tracks.now) }
    {
        let pod = view.pod;
        let mut containers = Vec::new(alloc);
        let at = PodAt {
            pod,
            reasons,
            moment,
        };
        add_waits(
            alloc,
            &at,
            false,
            pod.containers.as_slice(),
            view.tracks,
            &mut containers,
        )?;
        Ok(PodWaits {
            uid: pod.uid.try_clone(alloc)?,
            containers,
        })
    }
}

fn minute_of(reason: &Reason) -> u64
    ensures { result ≡ minute_of reason.now }
{
    reason.latest.saturating_sub(reason.since) / 60
}

fn is_same_failure(old: &Reason, new: &Reason) -> bool
    ensures { result ≡ is_same_failure old.now new.now }
{
    call_name(&old.call) == call_name(&new.call)
        && is_same_trouble(old.trouble, new.trouble)
        && is_same_cause(old.cause.as_ref(), new.cause.as_ref())
        && old.since == new.since
        && minute_of(old) == minute_of(new)
}

/// Whether the second reason adds nothing new to the first one: more failures of the same call in the same
/// way are nothing new within a minute.
pub(crate) fn is_same_reason(old: &WaitReason, new: &WaitReason) -> bool
    ensures { result ≡ is_same_reason old.now new.now }
{
    match (old, new) {
        (WaitReason::Setup, WaitReason::Setup)
        | (WaitReason::Due, WaitReason::Due)
        | (WaitReason::Runs, WaitReason::Runs) => true,
        (
            WaitReason::BackOff { until, code, run },
            WaitReason::BackOff {
                until: other_until,
                code: other_code,
                run: other_run,
            },
        ) => until == other_until && code == other_code && run == other_run,
        (WaitReason::Failed(old), WaitReason::Failed(new)) => is_same_failure(old, new),
        _ => false,
    }
}
