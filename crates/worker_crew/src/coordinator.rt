ghost use Rattle.std.specs.Prelude.{◌≡◌, ◌+◌, ◌<◌, ◌≤◌, ◌++◌, ◌∷◌, [], length, vec_len, vec_capacity, IfOk};
ghost use Rattle.std.specs.Prelude.{OnErr};
ghost use Rattle.node_lock.specs.Books.{worker_of};
ghost use Rattle.worker_crew.specs.Work.{Recorded};

use crate::shared::Shared;
use crate::worker_share::WorkerShare;
use node_lock::{BookFault, Receipt, Tally};
use std::alloc::Global;
use std::marker::Model;
use std::sync::Wait;
use std::sync::ledger::{Ledger, Share};
use worker_core::{AgentEvent, Answer, NodeRefusal};

/// Worker 0, which admits pods and advances the time: its share of the count, and the receipts for what it
/// did. Contracts see how many parts of the count its share has, and the receipts.
#[derive(Drop)]
pub struct Coordinator<L: Ledger> {
    share: Share<L>,
    receipts: Vec<Receipt>,
}

impl<L: Ledger> Model for Coordinator<L> {
    ghost use Rattle.std.specs.Prelude.{◌≡◌, ◌<◌, length};
    ghost use Rattle.node_lock.specs.Receipts.{Tallied};

    ghost Value = { Tallied };

    ghost view = { λ d. record { parts = d.share.parts; receipts = d.receipts.items } };

    ghost invariant = { λ d. (0 < d.share.parts) × (d.share.amount ≡ length d.receipts.items) };
}

// Appends the receipt, for which there is room.
fn add(receipts: &mut Vec<Receipt>, receipt: Receipt)
    requires { vec_len receipts.old < vec_capacity receipts.old }
    ensures { receipts.new.items ≡ receipts.old.items ++ receipt ∷ [] }
{
    let pushed = receipts.push(receipt);
    let added = pushed.is_ok();
    prove!(added);
    drop(pushed);
}

impl<L: Ledger> Coordinator<L> {
    /// A coordinator that did nothing yet.
    pub fn new(alloc: Global, share: Share<L>) -> Coordinator<L>
        requires part { 0 < share.parts }
        requires fresh { share.amount ≡ 0 }
        ensures parts { result.parts ≡ share.parts }
        ensures receipts { result.receipts ≡ [] }
    {
        Coordinator {
            share,
            receipts: Vec::new(alloc),
        }
    }

    /// A coordinator that goes on from a tally of what it did.
    pub(crate) fn resume(tally: Tally<L>) -> Coordinator<L>
        requires part { 0 < tally.parts }
        ensures { result ≡ tally }
    {
        let (share, receipts) = tally.into_share();
        Coordinator { share, receipts }
    }

    /// Records an event of worker 0, and returns why the node refused it, if it did.
    pub fn record<R: Wait>(
        &mut self,
        rt: &R,
        shared: &Shared<L>,
        event: AgentEvent,
    ) -> Result<Option<NodeRefusal>, BookFault>
        requires own { worker_of event ≡ 0 }
        ensures parts { self.new.parts ≡ self.old.parts }
        ensures done { IfOk result (λ refusal. Recorded 0 event refusal self.old.receipts self.new.receipts) }
        ensures err { OnErr result (self.new.receipts ≡ self.old.receipts) }
    {
        self.receipts.reserve(1)?;
        let receipt = shared.record(rt, &mut self.share, event)?;
        let refusal = match &receipt.entry().answer {
            Answer::Refused(refusal) => Some(*refusal),
            Answer::Done | Answer::Nothing | Answer::Claimed { .. } => None,
        };
        add(&mut self.receipts, receipt);
        Ok(refusal)
    }

    /// Splits off one part of the count for a worker.
    pub(crate) fn share_for(&mut self, worker: u32) -> WorkerShare<L>
        requires { 1 < self.old.parts }
        ensures parts { self.new.parts + 1 ≡ self.old.parts }
        ensures receipts { self.new.receipts ≡ self.old.receipts }
    {
        WorkerShare::new(worker, self.share.split_off(1, 0))
    }

    /// The receipts, and the share that counts them.
    pub fn into_tally(self) -> Tally<L>
        ensures { result ≡ self }
    {
        let Coordinator { share, receipts } = self;
        Tally::of(share, receipts)
    }
}
