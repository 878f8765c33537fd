ghost use Rattle.std.specs.Prelude.{◌≡◌, ◌+◌, ◌<◌, ◌≤◌, Some, None, length, nat_lt, true, false, is_some};
ghost use Rattle.std.specs.Prelude.{slice_get, map, IfSome, IfOk, OnOk, OnErr, option_copied, option_map};
ghost use Rattle.worker_core.specs.declared.limits.TheConstants.{LAST_NUMBER, MAX_PODS, MAX_UIDS};
ghost use Rattle.worker_core.specs.Kept.{Foresees, KeptStep, admit_answer, after_admit, after_claim};
ghost use Rattle.worker_core.specs.Kept.{after_delete, after_end, after_tick, claim_answer, delete_answer};
ghost use Rattle.worker_core.specs.Kept.{end_answer, fresh_node, grant_of, grant_of_turn, is_full, changes};
ghost use Rattle.worker_core.specs.Kept.{refusal_of, tick_answer, with_grant, with_pod};
ghost use Rattle.worker_pod.specs.Next.{phase_in};
ghost use Rattle.worker_core.specs.Turns.{soonest};
ghost use Rattle.worker_core.specs.Laws.{IsClaimOf};
ghost use Rattle.worker_core.specs.Nodes.{Comes, IsNextDue, NodeState, StandsFor, empty_node, kept_of};
ghost use Rattle.worker_core.specs.Slots.{claim_of, has_failed, held_in, holder_of, is_settled};
ghost use Rattle.worker_core.specs.Slots.{place_of, slot_of};

use crate::answers::{Answer, NodeRefusal};
use crate::claims::{Grant, granted};
use crate::events::AgentEvent;
use crate::known::KnownUids;
use crate::limits::{LAST_NUMBER, MAX_PODS, MAX_UIDS};
use crate::pods::Pods;
use crate::slots::{
    Held, claim_of, fresh_slot, has_failed, held_in, holder_of, is_settled, place_of,
};
use crate::turns::Turn;
use cri_msgs::Request;
use manifest::{Pod, Uid};
use std::alloc::{AllocError, Global};
use std::marker::Model;
use worker_pod::{Outcome, PodView, Settings, due_is_when_next_is};

/// The agent of a node: its pods, and what its workers hold.
#[derive(Drop)]
pub struct Node {
    alloc: Global,
    settings: Settings,
    moment: u64,
    number: u64,
    known: KnownUids,
    pods: Pods,
}

impl Model for Node {
    ghost use Rattle.std.specs.Prelude.{◌≤◌, length};
    ghost use Rattle.worker_core.specs.declared.limits.TheConstants.{MAX_PODS};
    ghost use Rattle.worker_core.specs.Kept.{KeptNode};
    ghost use Rattle.worker_core.specs.Slots.{AllCounted, AllEndedBy};

    ghost Value = { KeptNode };

    ghost view = { λ n. record {
      settings = n.settings;
      moment = n.moment;
      number = n.number;
      known = n.known;
      slots = n.pods;
    } };

    // No claim ended later than now, the pods are few enough to be counted, and no more runs of a container
    // began than numbers were given.
    ghost invariant = { λ n. record {
      ended : AllEndedBy n.moment n.pods;
      few : length n.pods ≤ MAX_PODS;
      counted : AllCounted n.number n.pods;
    } };
}

fn admit_answer(refusal: Option<NodeRefusal>) -> Answer
    ensures { result ≡ admit_answer refusal }
{
    match refusal {
        Some(refusal) => Answer::Refused(refusal),
        None => Answer::Done,
    }
}

fn delete_answer(place: Option<usize>) -> Answer
    ensures { result ≡ delete_answer place }
{
    match place {
        Some(_) => Answer::Done,
        None => Answer::Refused(NodeRefusal::NoSuchPod),
    }
}

fn end_answer(held: Option<usize>) -> Answer
    ensures { result ≡ end_answer held }
{
    match held {
        Some(_) => Answer::Done,
        None => Answer::Refused(NodeRefusal::NotYours),
    }
}

impl Node {
    /// A node without pods, at moment 0.
    pub fn new(alloc: Global, settings: Settings) -> Node
        ensures kept { result ≡ fresh_node settings }
        ensures empty { StandsFor result (empty_node settings) }
    {
        Node {
            alloc,
            settings,
            moment: 0,
            number: 0,
            known: KnownUids::new(alloc),
            pods: Pods::new(alloc),
        }
    }

    fn is_full(&self) -> bool
        ensures value { result ≡ is_full self.now }
    {
        self.pods.len() >= MAX_PODS || self.known.count() >= MAX_UIDS
    }

    // Why a pod is not admitted.
    fn refusal_of(&self, pod: &Pod) -> Option<NodeRefusal>
        ensures value { result ≡ refusal_of self.now pod.now }
        ensures room { result ≡ None → length self.now.slots < MAX_PODS }
    {
        if self.known.has(&pod.uid) {
            Some(NodeRefusal::KnownUid)
        } else if self.is_full() {
            Some(NodeRefusal::Full)
        } else {
            None
        }
    }

    fn admit(&mut self, pod: Pod) -> Result<Answer, AllocError>
        ensures answer { IfOk result (λ answer. answer ≡ admit_answer (refusal_of self.old pod)) }
        ensures node { OnOk result (self.new ≡ after_admit self.old pod (refusal_of self.old pod)) }
        ensures err { OnErr result (self.new ≡ self.old) }
        ensures only { OnErr result (changes (admit_answer (refusal_of self.old pod)) ≡ true) }
    {
        let refusal = self.refusal_of(&pod);
        match refusal {
            Some(_) => drop(pod),
            None => self.add(pod)?,
        }
        Ok(admit_answer(refusal))
    }

    // Allocates everything before the first change.
    fn add(&mut self, pod: Pod) -> Result<(), AllocError>
        requires { length self.old.slots < MAX_PODS }
        ensures ok { OnOk result (self.new ≡ with_pod self.old pod) }
        ensures err { OnErr result (self.new ≡ self.old) }
    {
        let text = String::from_str(self.alloc, pod.uid.as_str())?;
        let slot = fresh_slot(self.alloc, pod, self.settings)?;
        self.pods.admit(&mut self.known, text, slot)?;
        Ok(())
    }

    fn delete(&mut self, uid: &Uid) -> Answer
        ensures answer { result ≡ delete_answer (place_of uid.now self.old.slots) }
        ensures node { self.new ≡ after_delete self.old (place_of uid.now self.old.slots) }
    {
        let place = place_of(uid, self.pods.as_slice());
        if let Some(place) = place {
            self.pods.delete(place);
        }
        delete_answer(place)
    }

    fn tick(&mut self, now: u64) -> Answer
        ensures answer { result ≡ tick_answer self.old now }
        ensures node { self.new ≡ after_tick self.old now }
    {
        let answer = self.tick_answer(now);
        if let Answer::Done = answer {
            self.moment = now;
        }
        answer
    }

    fn tick_answer(&self, now: u64) -> Answer
        ensures { result ≡ tick_answer self.now now }
    {
        if now < self.moment {
            Answer::Refused(NodeRefusal::ClockBack)
        } else {
            Answer::Done
        }
    }

    // The grant that a worker gets, if there is one.
    fn grant(&self) -> Result<Option<Grant>, AllocError>
        ensures grant { IfOk result (λ grant. grant ≡ grant_of self.now) }
        ensures only { OnErr result (is_some (grant_of self.now) ≡ true) }
    {
        if self.number < LAST_NUMBER {
            self.grant_of_turn(self.pods.longest(self.moment))
        } else {
            Ok(None)
        }
    }

    fn grant_of_turn(&self, turn: Option<Turn>) -> Result<Option<Grant>, AllocError>
        requires { self.now.number < LAST_NUMBER }
        ensures grant { IfOk result (λ grant. grant ≡ grant_of_turn self.now turn) }
        ensures only { OnErr result (is_some (grant_of_turn self.now turn) ≡ true) }
    {
        let Some(turn) = turn else {
            return Ok(None);
        };
        let Some(slot) = self.pods.as_slice().get(turn.place) else {
            return Ok(None);
        };
        let request = slot.state.next(self.moment, self.number + 1)?;
        granted(self.alloc, turn.place, &slot.state, request)
    }

    fn give(&mut self, worker: u32, grant: Grant)
        requires { grant.request.id ≡ self.old.number + 1 }
        ensures { self.new ≡ with_grant self.old worker grant }
    {
        let Grant { place, request, .. } = grant;
        self.number = request.id;
        self.pods.claim(place, Held { worker, request });
    }

    /// Whether this worker holds a pod.
    pub fn is_busy(&self, worker: u32) -> bool
        ensures { result ≡ is_some (holder_of worker self.now.slots) }
    {
        holder_of(worker, self.pods.as_slice()).is_some()
    }

    fn claim_answer(&self, worker: u32) -> Result<Answer, AllocError>
        ensures answer { IfOk result (λ answer.
            answer ≡ claim_answer self.now (holder_of worker self.now.slots)) }
        ensures only { OnErr result
            (changes (claim_answer self.now (holder_of worker self.now.slots)) ≡ true) }
    {
        if self.is_busy(worker) {
            return Ok(Answer::Refused(NodeRefusal::NotYours));
        }
        match self.grant()? {
            None => Ok(Answer::Nothing),
            Some(grant) => grant.answer(self.alloc),
        }
    }

    fn claim(&mut self, worker: u32) -> Result<Answer, AllocError>
        ensures answer { IfOk result (λ answer.
            answer ≡ claim_answer self.old (holder_of worker self.old.slots)) }
        ensures node { OnOk result
            (self.new ≡ after_claim self.old worker (holder_of worker self.old.slots)) }
        ensures err { OnErr result (self.new ≡ self.old) }
        ensures only { OnErr result
            (changes (claim_answer self.old (holder_of worker self.old.slots)) ≡ true) }
    {
        if self.is_busy(worker) {
            return Ok(Answer::Refused(NodeRefusal::NotYours));
        }
        match self.grant()? {
            None => Ok(Answer::Nothing),
            Some(grant) => {
                let answer = grant.answer(self.alloc)?;
                self.give(worker, grant);
                Ok(answer)
            }
        }
    }

    // Ends a worker's claim with this outcome.
    fn end(&mut self, worker: u32, outcome: Outcome) -> Answer
        ensures answer { result ≡ end_answer (holder_of worker self.old.slots) }
        ensures node { self.new ≡ after_end self.old outcome (holder_of worker self.old.slots) }
    {
        let place = holder_of(worker, self.pods.as_slice());
        match place {
            Some(place) => self.pods.end(place, self.moment, outcome),
            None => drop(outcome),
        }
        end_answer(place)
    }

    fn take(&mut self, event: AgentEvent) -> Answer
        ensures { KeptStep self.old event result self.new }
    {
        match event {
            AgentEvent::Admit(pod) => match self.admit(pod) {
                Ok(answer) => answer,
                Err(_) => Answer::Refused(NodeRefusal::Memory),
            },
            AgentEvent::Delete(uid) => self.delete(&uid),
            AgentEvent::Claim(worker) => match self.claim(worker) {
                Ok(answer) => answer,
                Err(_) => Answer::Refused(NodeRefusal::Memory),
            },
            AgentEvent::Report(worker, reported) => self.end(worker, reported.outcome()),
            AgentEvent::Tick(now) => self.tick(now),
            AgentEvent::Abandon(worker) => self.end(worker, Outcome::Abandoned),
        }
    }

    /// Applies an event, and returns the answer. If an allocation fails, the answer reports that, and nothing
    /// changes.
    pub fn apply(&mut self, event: AgentEvent) -> Answer
        ensures kept { KeptStep self.old event result self.new }

        // It is a step, with this answer, of every node that the kept state stands for.
        ensures step { (node : NodeState) → StandsFor self.old node → Comes node event result self.new }
    {
        self.take(event)
    }

    fn foreseen(&self, event: &AgentEvent) -> Answer
        ensures { Foresees self.now event.now result }
    {
        match event {
            AgentEvent::Admit(pod) => admit_answer(self.refusal_of(pod)),
            AgentEvent::Delete(uid) => delete_answer(place_of(uid, self.pods.as_slice())),
            AgentEvent::Claim(worker) => match self.claim_answer(*worker) {
                Ok(answer) => answer,
                Err(_) => Answer::Refused(NodeRefusal::Memory),
            },
            AgentEvent::Report(worker, _) | AgentEvent::Abandon(worker) => {
                end_answer(holder_of(*worker, self.pods.as_slice()))
            }
            AgentEvent::Tick(now) => self.tick_answer(*now),
        }
    }

    /// The answer that [`apply`](Node::apply) would return if memory sufficed. Only a request that a worker
    /// would get is copied, which may run out of memory.
    pub fn answer(&self, event: &AgentEvent) -> Answer
        ensures kept { Foresees self.now event.now result }
        ensures answer { (node : NodeState) → StandsFor self.now node
            → Foresees (kept_of node) event.now result }
    {
        self.foreseen(event)
    }

    /// The pod at this place, in order of admission.
    pub fn pod(&self, i: usize) -> Option<PodView<'_>>
        ensures there { is_some result ≡ is_some (slice_get self.now.slots i) }
        ensures few { length self.now.slots ≤ MAX_PODS }
        ensures pod { IfSome result (λ view. slice_get (map (λ slot. slot.state.pod) self.now.slots) i
            ≡ Some view.pod.now) }
        ensures tracks { IfSome result (λ view. slice_get (map (λ slot. slot.state.tracks) self.now.slots) i
            ≡ Some view.tracks.now) }
        ensures phase { IfSome result (λ view. slice_get (map (λ slot. phase_in slot.state) self.now.slots) i
            ≡ Some view.phase) }
    {
        match self.pods.as_slice().get(i) {
            Some(slot) => Some(slot.state.view()),
            None => None,
        }
    }

    /// The pod of this uid.
    pub fn pod_of(&self, uid: &Uid) -> Option<PodView<'_>>
        ensures pod { option_map (λ view. view.pod.now) result
            ≡ option_map (λ slot. slot.state.pod) (slot_of uid.now self.now.slots) }
        ensures tracks { option_map (λ view. view.tracks.now) result
            ≡ option_map (λ slot. slot.state.tracks) (slot_of uid.now self.now.slots) }
        ensures phase { option_map (λ view. view.phase) result
            ≡ option_map (λ slot. phase_in slot.state) (slot_of uid.now self.now.slots) }
        ensures lost { option_map (λ view. view.lost) result
            ≡ option_map (λ slot. slot.state.lost) (slot_of uid.now self.now.slots) }
    {
        let slots = self.pods.as_slice();
        match place_of(uid, slots) {
            Some(place) => match slots.get(place) {
                Some(slot) => Some(slot.state.view()),
                None => None,
            },
            None => None,
        }
    }

    /// Whether each pod is Succeeded or Failed.
    pub fn is_settled(&self) -> bool
        ensures { result ≡ is_settled self.now.slots }
    {
        is_settled(self.pods.as_slice())
    }

    /// Whether a pod is Failed.
    pub fn has_failed(&self) -> bool
        ensures { result ≡ has_failed self.now.slots }
    {
        has_failed(self.pods.as_slice())
    }

    /// The moment, in seconds and not before now, from which a request is due for a pod that nobody holds, if
    /// nothing else happens.
    pub fn next_due(&self) -> Option<u64>
        ensures kept { result ≡ soonest self.now.moment self.now.slots }
        ensures least { (node : NodeState) → StandsFor self.now node → IsNextDue node result }
    {
        due_is_when_next_is();
        self.pods.soonest(self.moment)
    }

    /// How many pods are held.
    pub fn held(&self) -> u32
        ensures { result ≡ held_in self.now.slots }
    {
        held_in(self.pods.as_slice()) as u32
    }

    /// The request that this worker was given, if it holds a pod.
    pub fn claim_of(&self, worker: u32) -> Option<&Request>
        ensures kept { option_copied result ≡ claim_of worker self.now.slots }

        // It is what the worker holds at every node that the kept state stands for.
        ensures claim { (node : NodeState) → StandsFor self.now node
            → IsClaimOf node worker (option_copied result) }
    {
        claim_of(worker, self.pods.as_slice())
    }
}
