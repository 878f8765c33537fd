ghost use Rattle.std.specs.Prelude.{◌≡◌, ℕ, ◌+◌, ◌≤◌, [], ◌∷◌, ◌++◌, length, OnOk, OnErr};
ghost use Rattle.std.specs.String.{string_bytes};
ghost use Rattle.worker_core.specs.declared.limits.TheConstants.{LAST_NUMBER};
ghost use Rattle.worker_core.specs.Known.{with_uid};
ghost use Rattle.worker_core.specs.Slots.{AllCounted, AllEndedBy, IsCounted, changed, claimed_by, deleted};
ghost use Rattle.worker_core.specs.Slots.{ended_at, left};
ghost use Rattle.worker_core.specs.Turns.{longest, soonest};

use crate::known::KnownUids;
use crate::order::{Due, close, refresh};
use crate::slots::{Held, Slot, admitted, claim_ended, claimed_at, deleted_at, is_gone_at};
use crate::turns::{Turn, first_moment, first_turn};
use std::alloc::{AllocError, Global};
use std::marker::Model;
use worker_pod::Outcome;

// The pods of a node, in order of admission. Those that can be given are also kept in the order of their
// moments, so that none of the others is looked at. There is room for all of them, so that only an admission
// allocates.
#[derive(Drop)]
pub(crate) struct Pods {
    slots: Vec<Slot>,
    order: Vec<Due>,
}

impl Model for Pods {
    ghost use Rattle.std.specs.Prelude.{◌≡◌, ◌≤◌, List, length, vec_capacity};
    ghost use Rattle.worker_core.specs.declared.slots.Slot.{Slot};
    ghost use Rattle.worker_core.specs.Order.{order_of};

    ghost Value = { List Slot };

    ghost view = { λ p. p.slots.items };

    ghost invariant = { λ p. record {
      order : p.order.items ≡ order_of p.slots.items;
      room : length p.slots.items ≤ vec_capacity p.order;
    } };
}

impl Pods {
    pub(crate) fn new(alloc: Global) -> Pods
        ensures { result ≡ [] }
    {
        Pods {
            slots: Vec::new(alloc),
            order: Vec::new(alloc),
        }
    }

    pub(crate) fn as_slice(&self) -> &[Slot]
        ensures { result.now ≡ self.now }
    {
        self.slots.as_slice()
    }

    pub(crate) fn len(&self) -> usize
        ensures { result ≡ length self.now }
    {
        self.slots.len()
    }

    // The pod that a worker is given at this moment, if a request is due for one.
    pub(crate) fn longest(&self, now: u64) -> Option<Turn>
        ensures { result ≡ longest now self.now }
    {
        first_turn(now, self.order.as_slice())
    }

    // The moment, not before this one, from which a worker can be given a request.
    pub(crate) fn soonest(&self, now: u64) -> Option<u64>
        ensures { result ≡ soonest now self.now }
    {
        first_moment(now, self.order.as_slice())
    }

    // Adds an admitted pod as the last one, and its uid as known. Allocates everything before the first
    // change.
    pub(crate) fn admit(
        &mut self,
        known: &mut KnownUids,
        text: String,
        slot: Slot,
    ) -> Result<(), AllocError>
        requires fresh { slot.state.latest ≡ 0 }
        requires counted { IsCounted 0 slot }
        ensures slots { OnOk result (self.new ≡ self.old ++ slot ∷ []) }
        ensures known { OnOk result (known.new ≡ with_uid (string_bytes text) known.old) }
        ensures same_slots { OnErr result (self.new ≡ self.old) }
        ensures same_known { OnErr result (known.new ≡ known.old) }
        ensures by { (now : ℕ) → AllEndedBy now self.old → AllEndedBy now self.new }
        ensures counted { (number : ℕ) → AllCounted number self.old → AllCounted number self.new }
        ensures more { length self.new ≤ length self.old + 1 }
    {
        let place = self.slots.len();
        self.order.reserve(place + 1 - self.order.len())?;
        admitted(&mut self.slots, known, text, slot)?;
        refresh(&mut self.order, place, self.slots.as_slice());
        Ok(())
    }

    pub(crate) fn delete(&mut self, place: usize)
        ensures slots { self.new ≡ changed deleted self.old place }
        ensures by { (now : ℕ) → AllEndedBy now self.old → AllEndedBy now self.new }
        ensures counted { (number : ℕ) → AllCounted number self.old → AllCounted number self.new }
        ensures same { length self.new ≡ length self.old }
    {
        deleted_at(&mut self.slots, place);
        refresh(&mut self.order, place, self.slots.as_slice());
    }

    pub(crate) fn claim(&mut self, place: usize, held: Held)
        ensures slots { self.new ≡ changed (claimed_by held) self.old place }
        ensures by { (now : ℕ) → AllEndedBy now self.old → AllEndedBy now self.new }
        ensures counted { (number : ℕ) → AllCounted number self.old → AllCounted (number + 1) self.new }
        ensures same { length self.new ≡ length self.old }
    {
        claimed_at(&mut self.slots, place, held);
        refresh(&mut self.order, place, self.slots.as_slice());
    }

    // Ends the claim of the pod at this place, and removes the pod if its removal was answered.
    pub(crate) fn end(&mut self, place: usize, now: u64, outcome: Outcome)
        requires by { AllEndedBy now self.old }
        requires counted { AllCounted LAST_NUMBER self.old }
        ensures slots { self.new ≡ ended_at now outcome self.old place }
        ensures by { AllEndedBy now self.new }
        ensures counted { (number : ℕ) → AllCounted number self.old → AllCounted number self.new }
        ensures fewer { length self.new ≤ length self.old }
    {
        claim_ended(&mut self.slots, place, now, outcome);
        refresh(&mut self.order, place, self.slots.as_slice());
        self.leave(place);
    }

    // Removes a pod whose removal was answered.
    fn leave(&mut self, place: usize)
        ensures slots { self.new ≡ left self.old place }
        ensures by { (now : ℕ) → AllEndedBy now self.old → AllEndedBy now self.new }
        ensures counted { (number : ℕ) → AllCounted number self.old → AllCounted number self.new }
        ensures fewer { length self.new ≤ length self.old }
    {
        if is_gone_at(self.slots.as_slice(), place) {
            drop(self.slots.remove(place));
            close(&mut self.order, place);
        }
    }
}
