ghost use Rattle.std.specs.Prelude.{◌≡◌, ℕ, ◌+◌, ◌<◌, ◌≤◌, [], ◌∷◌, ◌++◌, Some, None, true, false, length};
ghost use Rattle.std.specs.Prelude.{slice_get, vec_len, vec_capacity, IfOk, OnOk, OnErr, option_copied};
ghost use Rattle.std.specs.String.{string_bytes};
ghost use Rattle.worker_core.specs.declared.limits.TheConstants.{LAST_NUMBER};
ghost use Rattle.worker_core.specs.Known.{with_uid};
ghost use Rattle.worker_core.specs.Slots.{AllCounted, AllEndedBy, IsCounted, changed, claimed_by, deleted};
ghost use Rattle.worker_core.specs.Slots.{ended, free_due};
ghost use Rattle.worker_core.specs.Slots.{fresh_slot, held_in, holder_of, is_free, is_gone_slot, is_held_by};
ghost use Rattle.worker_core.specs.Slots.{place_of, claim_of, request_at, request_of};
ghost use Rattle.worker_core.specs.Slots.{has_failed, is_failed, is_final, is_settled};
ghost use Rattle.worker_pod.specs.Next.{phase_in};

use crate::known::KnownUids;
use cri_msgs::Request;
use lifecycle::Phase;
use manifest::{Pod, Uid};
use std::alloc::{AllocError, Global};
use worker_pod::{Outcome, PodState, Settings};

// What a worker holds of a pod: the request that it was given.
#[derive(Drop)]
pub(crate) struct Held {
    pub(crate) worker: u32,
    pub(crate) request: Request,
}

// A pod on the node, and who holds it.
#[derive(Drop)]
pub(crate) struct Slot {
    pub(crate) state: PodState,
    pub(crate) held: Option<Held>,
}

impl Slot {
    pub(crate) fn is_free(&self) -> bool
        ensures { result ≡ is_free self.now.held }
    {
        match &self.held {
            None => true,
            Some(_) => false,
        }
    }

    pub(crate) fn is_held_by(&self, worker: u32) -> bool
        ensures { result ≡ is_held_by worker self.now.held }
    {
        match &self.held {
            None => false,
            Some(held) => held.worker == worker,
        }
    }

    // The request by which the pod is held.
    pub(crate) fn request(&self) -> Option<&Request>
        ensures { option_copied result ≡ request_of self.now.held }
    {
        match &self.held {
            None => None,
            Some(held) => Some(&held.request),
        }
    }

    // Whether the pod stays in its phase.
    fn is_final(&self) -> bool
        ensures { result ≡ is_final (phase_in self.now.state) }
    {
        match self.state.view().phase {
            Phase::Succeeded | Phase::Failed => true,
            Phase::Pending | Phase::Running | Phase::Unknown => false,
        }
    }

    fn is_failed(&self) -> bool
        ensures { result ≡ is_failed (phase_in self.now.state) }
    {
        match self.state.view().phase {
            Phase::Failed => true,
            Phase::Pending | Phase::Running | Phase::Succeeded | Phase::Unknown => false,
        }
    }

    // The moment from which a request is due that a worker can be given.
    pub(crate) fn free_due(&self) -> Option<u64>
        ensures { result ≡ free_due self.now }
    {
        if self.is_free() {
            self.state.due()
        } else {
            None
        }
    }
}

// Whether each pod is Succeeded or Failed.
pub(crate) fn is_settled(slots: &[Slot]) -> bool
    ensures { result ≡ is_settled slots.now }
{
    slots.iter().all(|slot| slot.is_final())
}

// Whether a pod is Failed.
pub(crate) fn has_failed(slots: &[Slot]) -> bool
    ensures { result ≡ has_failed slots.now }
{
    slots.iter().any(|slot| slot.is_failed())
}

pub(crate) fn fresh_slot(alloc: Global, pod: Pod, settings: Settings) -> Result<Slot, AllocError>
    ensures slot { IfOk result (λ slot. slot ≡ fresh_slot pod settings) }
    ensures counted { IfOk result (λ slot. IsCounted 0 slot) }
{
    let state = PodState::new(alloc, pod, settings)?;
    Ok(Slot { state, held: None })
}

// Adds an admitted pod as the last one, and its uid as known. Allocates everything before the first change.
pub(crate) fn admitted(
    slots: &mut Vec<Slot>,
    known: &mut KnownUids,
    text: String,
    slot: Slot,
) -> Result<(), AllocError>
    requires { slot.state.latest ≡ 0 }
    ensures slots { OnOk result (slots.new.items ≡ slots.old.items ++ slot ∷ []) }
    ensures known { OnOk result (known.new ≡ with_uid (string_bytes text) known.old) }
    ensures same_slots { OnErr result (slots.new.items ≡ slots.old.items) }
    ensures same_known { OnErr result (known.new ≡ known.old) }
    ensures by { (now : ℕ) → AllEndedBy now slots.old.items → AllEndedBy now slots.new.items }
    ensures more { length slots.new.items ≤ length slots.old.items + 1 }
{
    match slots.reserve(1) {
        Ok(()) => reserved(slots, known, text, slot),
        Err(refused) => {
            drop(slot);
            Err(refused)
        }
    }
}

fn reserved(
    slots: &mut Vec<Slot>,
    known: &mut KnownUids,
    text: String,
    slot: Slot,
) -> Result<(), AllocError>
    requires room { vec_len slots.old < vec_capacity slots.old }
    requires fresh { slot.state.latest ≡ 0 }
    ensures slots { OnOk result (slots.new.items ≡ slots.old.items ++ slot ∷ []) }
    ensures known { OnOk result (known.new ≡ with_uid (string_bytes text) known.old) }
    ensures same_slots { OnErr result (slots.new.items ≡ slots.old.items) }
    ensures same_known { OnErr result (known.new ≡ known.old) }
    ensures by { (now : ℕ) → AllEndedBy now slots.old.items → AllEndedBy now slots.new.items }
    ensures more { length slots.new.items ≤ length slots.old.items + 1 }
{
    match known.add(text) {
        Ok(()) => {
            pushed(slots, slot);
            Ok(())
        }
        Err(refused) => {
            drop(slot);
            Err(refused)
        }
    }
}

fn pushed(slots: &mut Vec<Slot>, slot: Slot)
    requires room { vec_len slots.old < vec_capacity slots.old }
    requires fresh { slot.state.latest ≡ 0 }
    ensures slots { slots.new.items ≡ slots.old.items ++ slot ∷ [] }
    ensures by { (now : ℕ) → AllEndedBy now slots.old.items → AllEndedBy now slots.new.items }
    ensures more { length slots.new.items ≤ length slots.old.items + 1 }
{
    let pushed = slots.push(slot);
    let held = pushed.is_ok();
    prove!(held);
    drop(pushed);
}

// How many pods are held.
pub(crate) fn held_in(slots: &[Slot]) -> usize
    ensures value { result ≡ held_in slots.now }
    ensures within { result ≤ length slots.now }
{
    let mut count = 0;
    for slot in slots {
        count += if slot.is_free() { 0 } else { 1 };
    }
    count
}

// The place of the pod that this worker holds.
pub(crate) fn holder_of(worker: u32, slots: &[Slot]) -> Option<usize>
    ensures { result ≡ holder_of worker slots.now }
{
    slots.iter().position(|s| s.is_held_by(worker))
}

// The request that this worker was given, if it holds a pod.
pub(crate) fn claim_of(worker: u32, slots: &[Slot]) -> Option<&Request>
    ensures { option_copied result ≡ claim_of worker slots.now }
{
    request_at(slots, holder_of(worker, slots))
}

fn request_at(slots: &[Slot], place: Option<usize>) -> Option<&Request>
    ensures { option_copied result ≡ request_at slots.now place }
{
    match place {
        None => None,
        Some(place) => match slots.get(place) {
            None => None,
            Some(slot) => slot.request(),
        },
    }
}

// The place of the pod of this uid.
pub(crate) fn place_of(uid: &Uid, slots: &[Slot]) -> Option<usize>
    ensures { result ≡ place_of uid.now slots.now }
{
    slots.iter().position(|s| s.state.view().pod.uid == *uid)
}

pub(crate) fn deleted_at(slots: &mut Vec<Slot>, place: usize)
    ensures slots { slots.new.items ≡ changed deleted slots.old.items place }
    ensures by { (now : ℕ) → AllEndedBy now slots.old.items → AllEndedBy now slots.new.items }
    ensures same { length slots.new.items ≡ length slots.old.items }
{
    if place < slots.len() {
        slots[place].state.delete();
    }
}

pub(crate) fn claimed_at(slots: &mut Vec<Slot>, place: usize, held: Held)
    ensures slots { slots.new.items ≡ changed (claimed_by held) slots.old.items place }
    ensures by { (now : ℕ) → AllEndedBy now slots.old.items → AllEndedBy now slots.new.items }
    ensures same { length slots.new.items ≡ length slots.old.items }
{
    if place < slots.len() {
        slots[place].held = Some(held);
    }
}

// Ends the claim of the pod. That is never refused: since fewer runs of each container began than claims were
// given, one more can be recorded.
fn ended(slot: &mut Slot, now: u64, outcome: Outcome)
    requires by { slot.old.state.latest ≤ now }
    requires counted { IsCounted LAST_NUMBER slot.old }
    ensures slot { slot.new ≡ ended now outcome slot.old }
    ensures counted { (number : ℕ) → IsCounted number slot.old → IsCounted number slot.new }
{
    let Some(held) = &slot.held else {
        return;
    };
    let ended = slot.state.ended(now, &held.request, outcome);
    let done = ended.is_ok();
    prove!(done);
    drop(ended);
    slot.held = None;
}

pub(crate) fn is_gone_at(slots: &[Slot], place: usize) -> bool
    ensures value { result ≡ is_gone_slot (slice_get slots.now place) }
    ensures within { result ≡ true → place < length slots.now }
{
    match slots.get(place) {
        Some(slot) => slot.state.gone(),
        None => false,
    }
}

// Ends the claim of the pod at this place.
pub(crate) fn claim_ended(slots: &mut Vec<Slot>, place: usize, now: u64, outcome: Outcome)
    requires by { AllEndedBy now slots.old.items }
    requires counted { AllCounted LAST_NUMBER slots.old.items }
    ensures slots { slots.new.items ≡ changed (ended now outcome) slots.old.items place }
    ensures by { AllEndedBy now slots.new.items }
    ensures counted { (number : ℕ) → AllCounted number slots.old.items → AllCounted number slots.new.items }
    ensures same { length slots.new.items ≡ length slots.old.items }
{
    if place < slots.len() {
        ended(&mut slots[place], now, outcome);
    }
}
