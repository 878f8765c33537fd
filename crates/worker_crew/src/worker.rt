//! What a worker does: it claims, calls a runtime with no lock held, and reports.
ghost use Rattle.std.specs.Prelude.{◌≡◌, ◌+◌, ◌<◌, ◌≤◌, ◌++◌, [], ◌∷◌, Option, Result, length, vec_len};
ghost use Rattle.std.specs.Prelude.{vec_capacity, true, IfSome, IfNone, OnSome};
ghost use Rattle.cri_frames.specs.declared.faults.Lost.{Lost};
ghost use Rattle.cri_msgs.specs.declared.calls.Request.{Request};
ghost use Rattle.cri_msgs.specs.declared.replies.Reply.{Reply};
ghost use Rattle.node_lock.specs.Books.{worker_of};
ghost use Rattle.worker_crew.specs.Work.{IsWork, MayFollow, claim_after, claim_in, number_after, request_of};

use crate::shared::Shared;
use cri_frames::Lost;
use cri_msgs::{Reply, Request};
use node_lock::{Receipt, Tally};
use std::alloc::Global;
use std::sync::Wait;
use std::sync::ledger::{Ledger, Share};
use worker_core::{AgentEvent, Answer, Reported};

/// Answers a worker's requests. `may` relates a request to its possible results.
pub trait Peer {
    ghost may: { Request → Result Reply Lost → Type 0 };

    /// Sends the request, and returns the reply, or why there is none.
    fn call(&mut self, request: &Request) -> Result<Reply, Lost>
        ensures { may request.now result };
}

/// Hooks around each call. A call has the number of its request.
pub trait Gate {
    /// Whether to make the call.
    fn before(&self, call: u64) -> bool;

    /// Called when the call has returned.
    fn after(&self, call: u64);
}

/// A gate that allows each call.
#[derive(Clone, Copy)]
pub struct Always;

impl Gate for Always {
    fn before(&self, _call: u64) -> bool {
        true
    }

    fn after(&self, _call: u64) {}
}

// The end of the claim that got this answer. `None` if it got no request. No lock is held here.
fn end_of<P: Peer, G: Gate>(
    worker: u32,
    answer: &Answer,
    peer: &mut P,
    gate: &G,
) -> Option<AgentEvent>
    ensures worker { IfSome result (λ event. worker_of event ≡ worker) }
    ensures may { IfSome result (λ event. MayFollow P.may (request_of answer.now) event) }
{
    let Answer::Claimed { request, .. } = answer else {
        return None;
    };
    if !gate.before(request.id) {
        return Some(AgentEvent::Abandon(worker));
    }
    let called = peer.call(request);
    gate.after(request.id);
    let told = match called {
        Ok(reply) => Reported::Replied(reply),
        Err(_) => Reported::Lost,
    };
    Some(AgentEvent::Report(worker, told))
}

// Records how the claim ended. If memory for the report runs out, abandons the claim, which needs none.
fn report<L: Ledger, P: Peer, R: Wait>(
    rt: &R,
    shared: &Shared<L>,
    worker: u32,
    share: &mut Share<L>,
    event: AgentEvent,
    last: u64,
) -> Option<Receipt>
    requires part { 0 < share.old.parts }
    requires own { worker_of event ≡ worker }
    ensures above { IfSome result (λ r. last < r.number) }
    ensures worker { IfSome result (λ r. r.entry.worker ≡ worker) }
    ensures may { (before : Option Request) → MayFollow P.may before event
        → IfSome result (λ r. MayFollow P.may before r.entry.event) }
    ensures counted { OnSome result (share.new.amount ≡ share.old.amount + 1) }
    ensures uncounted { IfNone result (share.new.amount ≡ share.old.amount) }
    ensures parts { share.new.parts ≡ share.old.parts }
{
    match shared.report(rt, share, worker, event, last) {
        Some(told) => Some(told),
        None => shared.report(rt, share, worker, AgentEvent::Abandon(worker), last),
    }
}

// Appends the receipt, for which there is room.
#[tactic(auto, using(crate::proofs::Receipts::work_push, crate::proofs::Receipts::number_push, crate::proofs::Receipts::claim_push))]
fn add<P: Peer>(receipts: &mut Vec<Receipt>, last: &mut u64, worker: u32, receipt: Receipt)
    requires room { vec_len receipts.old < vec_capacity receipts.old }
    requires last { last.old ≡ number_after 0 receipts.old.items }
    requires above { last.old < receipt.number }
    requires worker { receipt.entry.worker ≡ worker }
    requires may { MayFollow P.may (claim_after None receipts.old.items) receipt.entry.event }
    requires work { IsWork P.may worker receipts.old.items }
    ensures receipts { receipts.new.items ≡ receipts.old.items ++ receipt ∷ [] }
    ensures last { last.new ≡ number_after 0 receipts.new.items }
    ensures work { IsWork P.may worker receipts.new.items }
    ensures claim { claim_after None receipts.new.items ≡ claim_in receipt.entry.event receipt.entry.answer }
    ensures room { vec_capacity receipts.old ≤ vec_capacity receipts.new }
{
    *last = receipt.number();
    let pushed = receipts.push(receipt);
    let added = pushed.is_ok();
    prove!(added);
    drop(pushed);
}

// One claim and its end. False if the worker ends. Room for both receipts is made before the claim.
fn turn<L: Ledger, P: Peer, G: Gate, R: Wait>(
    rt: &R,
    shared: &Shared<L>,
    worker: u32,
    share: &mut Share<L>,
    receipts: &mut Vec<Receipt>,
    last: &mut u64,
    peer: &mut P,
    gate: &G,
) -> bool
    requires part { 0 < share.old.parts }
    requires counted { share.old.amount ≡ length receipts.old.items }
    requires last { last.old ≡ number_after 0 receipts.old.items }
    requires work { IsWork P.may worker receipts.old.items }
    ensures parts { share.new.parts ≡ share.old.parts }
    ensures counted { share.new.amount ≡ length receipts.new.items }
    ensures last { last.new ≡ number_after 0 receipts.new.items }
    ensures work { IsWork P.may worker receipts.new.items }
{
    if receipts.reserve(2).is_err() {
        return false;
    }
    let Some(claim) = shared.claim(rt, share, worker, *last) else {
        return false;
    };
    let end = end_of(worker, &claim.entry().answer, peer, gate);
    let nothing = matches!(&claim.entry().answer, Answer::Nothing);
    add::<P>(receipts, last, worker, claim);
    let Some(event) = end else {
        return nothing;
    };
    let Some(told) = report::<L, P, R>(rt, shared, worker, share, event, *last) else {
        return false;
    };
    add::<P>(receipts, last, worker, told);
    true
}

/// Works until the book is closed, or has no room for a claim: claims, calls the peer between the gate's two
/// calls with no lock held, and reports. Returns the receipts for all that the worker did.
pub fn work<L: Ledger, P: Peer, G: Gate, R: Wait>(
    rt: &R,
    alloc: Global,
    shared: &Shared<L>,
    worker: u32,
    share: Share<L>,
    peer: &mut P,
    gate: &G,
) -> Tally<L>
    requires part { 0 < share.parts }
    requires fresh { share.amount ≡ 0 }
    ensures parts { result.parts ≡ share.parts }

    // The numbers rise, and each report comes right after its claim, with a result that the peer may return.
    ensures work { IsWork P.may worker result.receipts }
{
    let mut share = share;
    let mut receipts = Vec::new(alloc);
    let mut last = 0;
    for _ in rt.forever() {
        if !turn(
            rt,
            shared,
            worker,
            &mut share,
            &mut receipts,
            &mut last,
            peer,
            gate,
        ) {
            break;
        }
    }
    Tally::of(share, receipts)
}
