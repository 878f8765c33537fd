ghost use Rattle.std.specs.Prelude.{◌≡◌, ℕ, ◌+◌, ◌<◌, ◌≤◌, IfOk, Ok, OnOk, OnErr, IsOk, Some, None, true};
ghost use Rattle.std.specs.Prelude.{false, option_map};
ghost use Rattle.lifecycle.specs.declared.runs.TheConstants.{MAX_RUNS};
ghost use Rattle.worker_pod.specs.Updates.{told};
ghost use Rattle.worker_pod.specs.Next.{due_by, due_of, action_of, is_gone, next_by, next_of, numbered};
ghost use Rattle.worker_pod.specs.Next.{phase_in};
ghost use Rattle.worker_pod.specs.Past.{Past, StandsFor, admitted, after, as_deleted, records_exit, rest_at};
ghost use Rattle.worker_pod.specs.Past.{start, with_claim, with_deleted};
ghost use Rattle.worker_pod.specs.Tracks.{AllWithin};
ghost use Rattle.worker_pod.specs.ContainerActions.{chosen};

use crate::action::{PodAction, action_in, unmaking};
use crate::calls::call_by;
use crate::sandbox::{Sandbox, sandbox_at};
use crate::settings::{Outcome, REST, Settings};
use crate::tracks::{fresh_tracks, tracks_ended};
use crate::turns::{chosen, soonest};
use crate::update::{StatusUpdate, update_of};
use cri_msgs::{Call, Request};
use lifecycle::{Phase, Track, phase};
use manifest::Pod;
use std::alloc::{AllocError, Global};
use std::marker::Model;

/// A pod as it is seen from outside, borrowed.
#[derive(Clone, Copy)]
pub struct PodView<'p> {
    pub pod: &'p Pod,
    /// The tracks of its containers, init ones first, in the order of the manifest.
    pub tracks: &'p [Track],
    pub phase: Phase,
    /// Whether its last claim was lost or abandoned.
    pub lost: bool,
}

/// A pod on a node, and what was reported of it.
#[derive(Drop)]
pub struct PodState {
    alloc: Global,
    pod: Pod,
    settings: Settings,
    deleted: bool,
    sandbox: Sandbox,
    lost: bool,
    rest: u64,
    latest: u64,
    worked: u64,
    tracks: Vec<Track>,
    // As of the last claim that ended.
    phase: Phase,
}

impl Model for PodState {
    ghost use Rattle.std.specs.Prelude.{◌≡◌};
    ghost use Rattle.lifecycle.specs.Phases.{phase_of};
    ghost use Rattle.worker_pod.specs.Past.{Kept};
    ghost use Rattle.worker_pod.specs.Tracks.{AllStartedBy};

    ghost Value = { Kept };

    ghost view = { λ s. record {
      pod = s.pod;
      settings = s.settings;
      deleted = s.deleted;
      sandbox = s.sandbox;
      lost = s.lost;
      rest = s.rest;
      latest = s.latest;
      worked = s.worked;
      tracks = s.tracks.items;
    } };

    // No running attempt was started after the last claim ended.
    ghost invariant = { λ s. record {
      started : AllStartedBy s.latest s.tracks.items;
      phase : s.phase ≡ phase_of s.pod.policy s.lost s.tracks.items;
    } };
}

impl PodState {
    /// A pod that was just admitted.
    #[tactic(auto, using(crate::proofs::Fresh::fresh_started, crate::proofs::Begun::fresh_within))]
    pub fn new(alloc: Global, pod: Pod, settings: Settings) -> Result<PodState, AllocError>
        ensures start { IfOk result (λ state. state ≡ start pod settings) }
        ensures past { IfOk result (λ state. StandsFor state (admitted pod)) }
        ensures begun { IfOk result (λ state. AllWithin 0 state.tracks) }
    {
        let tracks = fresh_tracks(alloc, &pod.containers)?;
        let begun = phase(tracks.as_slice(), pod.policy, false);
        Ok(PodState {
            alloc,
            pod,
            settings,
            deleted: false,
            sandbox: Sandbox::Absent,
            lost: false,
            rest: 0,
            latest: 0,
            worked: 0,
            tracks,
            phase: begun,
        })
    }

    /// Its manifest, its containers, its phase, and whether its last claim was lost.
    pub fn view(&self) -> PodView<'_>
        ensures pod { result.pod.now ≡ self.now.pod }
        ensures tracks { result.tracks.now ≡ self.now.tracks }
        ensures phase { result.phase ≡ phase_in self.now }
        ensures lost { result.lost ≡ self.now.lost }
    {
        PodView {
            pod: &self.pod,
            tracks: self.tracks.as_slice(),
            phase: self.phase,
            lost: self.lost,
        }
    }

    /// The number of the pod's last ended claim, 0 for none.
    pub fn worked(&self) -> u64
        ensures { result ≡ self.now.worked }
    {
        self.worked
    }

    /// Marks the pod as deleted: from now on its sandbox is stopped, and then removed.
    pub fn delete(&mut self)
        ensures deleted { self.new ≡ with_deleted self.old true }
        ensures past { (past : Past) → StandsFor self.old past → StandsFor self.new (as_deleted past) }
    {
        self.deleted = true;
    }

    /// Whether the removal of its sandbox was answered.
    pub fn gone(&self) -> bool
        ensures { result ≡ is_gone self.now.sandbox }
    {
        self.sandbox.is_gone()
    }

    /// The moment from which a request is due, in seconds, if one is due without a further claim.
    pub fn due(&self) -> Option<u64>
        ensures { result ≡ due_of self.now }
    {
        self.due_by(self.action())
    }

    fn due_by(&self, action: PodAction) -> Option<u64>
        ensures { result ≡ due_by self.now action }
    {
        match action {
            PodAction::Nothing => None,
            PodAction::RunSandbox | PodAction::StopSandbox | PodAction::RemoveSandbox => Some(
                self.rest,
            ),
            PodAction::Containers => self.containers_due(),
        }
    }

    fn containers_due(&self) -> Option<u64>
        ensures { result ≡ due_by self.now PodAction.Containers }
    {
        soonest(self.pod.policy, self.settings.poll, self.tracks.as_slice()).map(
            |moment| moment.max(self.rest),
        )
    }

    fn action(&self) -> PodAction
        ensures { result ≡ action_of self.now }
    {
        if self.deleted {
            unmaking(self.sandbox)
        } else {
            action_in(self.phase, self.sandbox)
        }
    }

    /// The request that is due at this moment, with this number, if one is.
    pub fn next(&self, now: u64, number: u64) -> Result<Option<Request>, AllocError>
        ensures next { IfOk result (λ next. next ≡ option_map (numbered number) (next_of self.now now)) }

        // If none is due, no memory is taken.
        ensures none { next_of self.now now ≡ None → result ≡ Ok None }
    {
        match self.next_call(now)? {
            Some(call) => Ok(Some(Request { id: number, call })),
            None => Ok(None),
        }
    }

    fn next_call(&self, now: u64) -> Result<Option<Call>, AllocError>
        ensures next { IfOk result (λ next. next ≡ next_of self.now now) }
        ensures none { next_of self.now now ≡ None → result ≡ Ok None }
    {
        if self.rest <= now {
            self.call_for(now, self.action())
        } else {
            Ok(None)
        }
    }

    fn call_for(&self, now: u64, action: PodAction) -> Result<Option<Call>, AllocError>
        ensures next { IfOk result (λ next. next ≡ next_by self.now now action) }
        ensures none { next_by self.now now action ≡ None → result ≡ Ok None }
    {
        match action {
            PodAction::Nothing => Ok(None),
            PodAction::RunSandbox => Ok(Some(Call::RunPodSandbox {
                uid: self.pod.uid.try_clone(self.alloc)?,
            })),
            PodAction::StopSandbox => Ok(Some(Call::StopPodSandbox {
                uid: self.pod.uid.try_clone(self.alloc)?,
                grace: self.pod.grace,
            })),
            PodAction::RemoveSandbox => Ok(Some(Call::RemovePodSandbox {
                uid: self.pod.uid.try_clone(self.alloc)?,
            })),
            PodAction::Containers => self.container_call(now),
        }
    }

    fn container_call(&self, now: u64) -> Result<Option<Call>, AllocError>
        ensures next { IfOk result (λ next. next ≡ next_by self.now now PodAction.Containers) }
        ensures none { next_by self.now now PodAction.Containers ≡ None → result ≡ Ok None }
    {
        let chosen = chosen(
            self.pod.policy,
            self.settings.poll,
            now,
            self.tracks.as_slice(),
        );
        call_by(self.alloc, &self.pod, self.settings, chosen)
    }

    /// Ends the claim of this request at this moment, in seconds. Takes no memory. If a container has
    /// [`MAX_RUNS`](lifecycle::MAX_RUNS) past runs, and an exit of it was reported, nothing changes.
    #[tactic(auto, using(crate::proofs::Silent::given_up, crate::proofs::Fresh::all_later))]
    pub fn ended(&mut self, now: u64, request: &Request, outcome: Outcome) -> Result<(), AllocError>
        requires { self.old.latest ≤ now }
        ensures ok { OnOk result (self.new ≡ after now request.now outcome self.old) }
        ensures past { OnOk result ((past : Past) → StandsFor self.old past
            → StandsFor self.new (with_claim past
            (record { moment = now; request = request.now; outcome = outcome }))) }
        ensures err { OnErr result (self.new ≡ self.old) }

        // Only a record of an exit can be refused.
        ensures free { OnErr result (records_exit now request.now outcome self.old ≡ true) }
        ensures abandoned { outcome ≡ Outcome.Abandoned → IsOk result }

        // At most one more run of each container began.
        ensures begun { OnOk result ((most : ℕ) → AllWithin most self.old.tracks
            → AllWithin (most + 1) self.new.tracks) }

        // It is refused only if more runs of a container began than can be counted.
        ensures full { OnErr result ((most : ℕ) → AllWithin most self.old.tracks → MAX_RUNS < most) }
    {
        tracks_ended(
            self.pod.containers.as_slice(),
            self.tracks.as_mut_slice(),
            now,
            request,
            &outcome,
        )?;
        let update = update_of(request, &outcome);
        self.sandbox = sandbox_at(update, self.sandbox);
        self.lost = update.is_lost();
        self.rest = rest_at(now, update);
        self.latest = now;
        self.worked = request.id;
        self.phase = phase(self.tracks.as_slice(), self.pod.policy, self.lost);
        Ok(())
    }
}

fn rest_at(now: u64, update: StatusUpdate) -> u64
    ensures { result ≡ rest_at now update }
{
    match update {
        StatusUpdate::Lost | StatusUpdate::Refused => now.saturating_add(REST),
        _ => 0,
    }
}
