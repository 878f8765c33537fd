//! The node's book under its lock, and the workers that wait for the book to change.
ghost use Rattle.std.specs.Prelude.{◌≡◌, ◌+◌, ◌<◌, [], IfOk, IfSome, IfNone, OnOk, OnErr, OnSome};
ghost use Rattle.worker_core.specs.declared.events.AgentEvent.TheVariants.{Claim};
ghost use Rattle.node_lock.specs.Books.{worker_of};
ghost use Rattle.worker_crew.specs.Idle.{Stands, StandsByCount};
ghost use Rattle.worker_crew.specs.Observed.{Ends, IsBefore, Observes, ticked_by};

use crate::idle::{IdleReason, idle_reason};
use crate::observer::{Before, Changes, Observed, Observer};
use cri_msgs::Call;
use manifest::Uid;
use node_lock::{Book, BookFault, Entry, Receipt, Tally};
use node_watch::{Counts, Reasons, container_of, uid_of};
use refusal_causes::{CauseText, Causes};
use std::alloc::{AllocError, Global};
use std::sync::atomic::{AtomicU64, Ordering};
use std::sync::ledger::{Ledger, Share};
use std::sync::{Arc, Condvar, CondvarTimeouts, Mutex, Wait};
use std::time::{Clock, Duration};
use worker_core::{AgentEvent, Answer, Node, Reported};

/// What the lock protects: the book, how many workers have not ended, the number of the last entry that
/// advanced the time, and what is kept of the entries beside the book.
#[derive(Drop)]
struct Guarded<L: Ledger> {
    book: Book<L>,
    workers: u32,
    ticked: u64,
    observer: Observer,
}

/// The most entries at one moment of the virtual clock. With more, the moment counts as endless.
pub(crate) const MAX_AT_MOMENT: u64 = 1_048_576;

/// A node's book, which its workers share. Its lock is held for one step at a time, and never while a call is
/// made or a file is read.
#[derive(Drop)]
pub struct Shared<L: Ledger> {
    guarded: Mutex<Guarded<L>>,
    // Wakes one of the workers that were given nothing, if a request is due after an entry of worker 0 or
    // after a claim, so that no more are woken than have something to do. Wakes all of them when a worker
    // ends, and once the book is closed. The end of a claim makes only its own pod due, and the worker that
    // held that pod claims next.
    due: Condvar,
    // Wakes worker 0: at each entry that is not a claim, when a worker ends, and once the book is closed.
    changed: Condvar,
    // The current moment, readable without the lock.
    moment: AtomicU64,
    // Why a runtime in this process refused requests, if there is one. Its lock is taken under the book's.
    causes: Option<Arc<Mutex<Causes>, Global>>,
}

/// What is kept beside a book.
#[derive(Drop)]
pub struct BesideBook {
    pub observed: Observed,
    /// Whether the counts of containers' calls are kept.
    pub counting: bool,
    /// Collects why a runtime in this process refuses requests, if that is needed.
    pub causes: Option<Arc<Mutex<Causes>, Global>>,
}

// Records an event, after the entry of this number. No fact survives the release of a lock, so the presence
// of the entry is checked again.
fn record_behind<L: Ledger>(
    book: &mut Book<L>,
    share: &mut Share<L>,
    worker: u32,
    event: AgentEvent,
    last: u64,
) -> Option<Receipt>
    requires part { 0 < share.old.parts }
    requires own { worker_of event ≡ worker }
    ensures above { IfSome result (λ r. last < r.number) }
    ensures worker { IfSome result (λ r. r.entry.worker ≡ worker) }
    ensures event { IfSome result (λ r. r.entry.event ≡ event) }
    ensures counted { OnSome result (share.new.amount ≡ share.old.amount + 1) }
    ensures uncounted { IfNone result (share.new.amount ≡ share.old.amount) }
    ensures parts { share.new.parts ≡ share.old.parts }
{
    if book.last_number() < last {
        return None;
    }
    book.record(share, worker, event).ok()
}

// Whether the worker has to wait: the book is open, and a claim would get nothing.
fn has_nothing<L: Ledger>(book: &Book<L>, worker: u32) -> bool {
    let claim = AgentEvent::Claim(worker);
    !book.is_closed() && matches!(book.node().answer(&claim), Answer::Nothing)
}

/// Describes a node.
pub trait DescribeNode {
    /// The description.
    type Output;

    /// Describes the node, why its containers wait, and their calls' counts. Uses no file and no socket.
    fn describe(
        &self,
        node: &Node,
        reasons: &Reasons,
        counts: &Counts,
    ) -> Result<Self::Output, AllocError>;
}

// What worker 0 has to do, by the virtual clock.
fn virtual_idle_reason<L: Ledger>(guarded: &Guarded<L>, now: u64) -> Option<IdleReason>
    ensures { StandsByCount guarded.now.book guarded.now.workers guarded.now.ticked now result }
{
    match idle_reason(&guarded.book, guarded.workers, now) {
        None if guarded.book.last_number().saturating_sub(guarded.ticked) > MAX_AT_MOMENT => Some(
            IdleReason::Endless,
        ),
        found => found,
    }
}

// Observes what worker 0 recorded.
fn observe<L: Ledger>(guarded: &mut Guarded<L>, receipt: &Receipt, moment: u64)
    ensures observer { Observes guarded.old.observer.observed moment guarded.old.book.node
        receipt.now.entry.event receipt.now.entry.answer guarded.old.observer guarded.new.observer }
    ensures ticked { guarded.new.ticked ≡ ticked_by receipt.now.entry.event receipt.now.number
        guarded.old.ticked }
    ensures book { guarded.new.book ≡ guarded.old.book }
    ensures workers { guarded.new.workers ≡ guarded.old.workers }
{
    let Entry { event, answer, .. } = receipt.entry();
    match (event, answer) {
        (AgentEvent::Tick(_), _) => guarded.ticked = receipt.number(),
        (AgentEvent::Admit(pod), Answer::Done) => {
            guarded
                .observer
                .admitted(moment, guarded.book.node(), &pod.uid);
        }
        _ => {}
    }
}

fn before_of<L: Ledger>(guarded: &mut Guarded<L>, worker: u32, moment: u64) -> Option<Before>
    ensures before { IfSome result (λ b. IsBefore guarded.old.observer moment guarded.old.book.node worker
        b.call b.seen b.waits) }
    ensures book { guarded.new.book ≡ guarded.old.book }
    ensures workers { guarded.new.workers ≡ guarded.old.workers }
    ensures ticked { guarded.new.ticked ≡ guarded.old.ticked }
{
    guarded.observer.before(moment, guarded.book.node(), worker)
}

// Observes what a worker reported of its claim.
fn observe_end<L: Ledger>(
    guarded: &mut Guarded<L>,
    receipt: &Receipt,
    cause: Option<CauseText>,
    before: &Before,
    moment: u64,
)
    ensures observer { Ends guarded.old.observer.observed moment guarded.old.book.node
        receipt.now.entry.event cause before.now.call before.now.seen before.now.waits guarded.old.observer
        guarded.new.observer }
    ensures book { guarded.new.book ≡ guarded.old.book }
    ensures workers { guarded.new.workers ≡ guarded.old.workers }
    ensures ticked { guarded.new.ticked ≡ guarded.old.ticked }
{
    guarded.observer.ended(moment, guarded.book.node(), receipt.entry(), cause, before);
}

impl<L: Ledger> Shared<L> {
    /// Shares a book, and keeps what is observed of its entries.
    pub fn new(alloc: Global, book: Book<L>, observed: Observed) -> Shared<L> {
        let beside = BesideBook {
            observed,
            counting: false,
            causes: None,
        };
        Shared::watching(alloc, book, beside)
    }

    /// Shares a book, and keeps this beside it.
    pub fn watching(alloc: Global, book: Book<L>, beside: BesideBook) -> Shared<L> {
        let BesideBook {
            observed,
            counting,
            causes,
        } = beside;
        Shared {
            guarded: Mutex::new(Guarded {
                book,
                workers: 0,
                ticked: 0,
                observer: Observer::new(alloc, observed, counting),
            }),
            due: Condvar::new(),
            changed: Condvar::new(),
            moment: AtomicU64::new(0),
            causes,
        }
    }

    /// The book, once nobody shares it any longer.
    pub fn into_book(self) -> Book<L> {
        self.into_parts().0
    }

    /// The book, why containers wait, and the counts of their calls, once nobody shares it any longer.
    pub fn into_parts(self) -> (Book<L>, Reasons, Counts) {
        let Shared {
            guarded,
            due,
            changed,
            moment: _,
            causes,
        } = self;
        drop((due, changed, causes));
        let Guarded { book, observer, .. } = guarded.into_inner();
        let (reasons, counts) = observer.into_parts();
        (book, reasons, counts)
    }

    // Why the runtime refused the call, if this event reports a refusal and the runtime noted its cause.
    fn cause_of<R: Wait>(&self, rt: &R, event: &AgentEvent, call: &Call) -> Option<CauseText> {
        let causes = self.causes.as_ref()?;
        let AgentEvent::Report(_, Reported::Replied(reply)) = event else {
            return None;
        };
        let name = container_of(call)?;
        causes.lock(rt).take(reply.id, uid_of(call), name)
    }

    // Whether a request is due for a pod that nobody holds.
    fn is_due(&self, book: &Book<L>) -> bool {
        let now = self.moment();
        book.node().next_due().is_some_and(|due| due <= now)
    }

    /// Records an event of worker 0, and wakes a worker if something is due after it.
    pub(crate) fn record<R: Wait>(
        &self,
        rt: &R,
        share: &mut Share<L>,
        event: AgentEvent,
    ) -> Result<Receipt, BookFault>
        requires part { 0 < share.old.parts }
        requires own { worker_of event ≡ 0 }
        ensures worker { IfOk result (λ r. r.entry.worker ≡ 0) }
        ensures event { IfOk result (λ r. r.entry.event ≡ event) }
        ensures counted { OnOk result (share.new.amount ≡ share.old.amount + 1) }
        ensures uncounted { OnErr result (share.new.amount ≡ share.old.amount) }
        ensures parts { share.new.parts ≡ share.old.parts }
    {
        let mut guarded = self.guarded.lock(rt);
        let recorded = guarded.book.record(share, 0, event);
        if let Ok(receipt) = &recorded {
            observe(&mut guarded, receipt, self.moment());
        }
        let wakes = self.is_due(&guarded.book);
        drop(guarded);
        if wakes {
            self.due.notify_one();
        }
        self.changed.notify_all();
        recorded
    }

    /// Records how a worker's claim ended, after the worker's last entry, which has this number, and wakes
    /// worker 0. `None` if the book took no entry.
    pub(crate) fn report<R: Wait>(
        &self,
        rt: &R,
        share: &mut Share<L>,
        worker: u32,
        event: AgentEvent,
        last: u64,
    ) -> Option<Receipt>
        requires part { 0 < share.old.parts }
        requires own { worker_of event ≡ worker }
        ensures above { IfSome result (λ r. last < r.number) }
        ensures worker { IfSome result (λ r. r.entry.worker ≡ worker) }
        ensures event { IfSome result (λ r. r.entry.event ≡ event) }
        ensures counted { OnSome result (share.new.amount ≡ share.old.amount + 1) }
        ensures uncounted { IfNone result (share.new.amount ≡ share.old.amount) }
        ensures parts { share.new.parts ≡ share.old.parts }
    {
        let mut guarded = self.guarded.lock(rt);
        let moment = self.moment();
        let before = before_of(&mut guarded, worker, moment);
        let cause = match &before {
            Some(before) => self.cause_of(rt, &event, before.call()),
            None => None,
        };
        let recorded = record_behind(&mut guarded.book, share, worker, event, last);
        if let (Some(before), Some(receipt)) = (&before, &recorded) {
            observe_end(&mut guarded, receipt, cause, before, moment);
        }
        drop(guarded);
        self.changed.notify_all();
        recorded
    }

    /// Waits until a request is due, and claims it for the worker. `None` if the book is closed, or has no
    /// room for a claim. A worker that waits makes no entry.
    pub(crate) fn claim<R: Wait>(
        &self,
        rt: &R,
        share: &mut Share<L>,
        worker: u32,
        last: u64,
    ) -> Option<Receipt>
        requires part { 0 < share.old.parts }
        ensures above { IfSome result (λ r. last < r.number) }
        ensures worker { IfSome result (λ r. r.entry.worker ≡ worker) }
        ensures event { IfSome result (λ r. r.entry.event ≡ Claim worker) }
        ensures counted { OnSome result (share.new.amount ≡ share.old.amount + 1) }
        ensures uncounted { IfNone result (share.new.amount ≡ share.old.amount) }
        ensures parts { share.new.parts ≡ share.old.parts }
    {
        let guarded = self.guarded.lock(rt);
        let mut guarded = self
            .due
            .wait_while(rt, guarded, |guarded| has_nothing(&guarded.book, worker));
        if guarded.book.is_closed() {
            return None;
        }
        let event = AgentEvent::Claim(worker);
        let recorded = record_behind(&mut guarded.book, share, worker, event, last);
        let wakes = self.is_due(&guarded.book);
        drop(guarded);
        if wakes {
            self.due.notify_one();
        }
        recorded
    }

    /// Counts a worker that is about to begin.
    pub(crate) fn begin<R: Wait>(&self, rt: &R) {
        let mut guarded = self.guarded.lock(rt);
        guarded.workers = guarded.workers.saturating_add(1);
    }

    /// Counts a worker that has ended.
    pub(crate) fn end<R: Wait>(&self, rt: &R) {
        let mut guarded = self.guarded.lock(rt);
        guarded.workers = guarded.workers.saturating_sub(1);
        drop(guarded);
        self.due.notify_all();
        self.changed.notify_all();
    }

    /// What worker 0 has to do at this moment. `None` if workers have something to do.
    pub(crate) fn idle_reason<R: Wait>(&self, rt: &R, now: u64) -> Option<IdleReason> {
        let guarded = self.guarded.lock(rt);
        idle_reason(&guarded.book, guarded.workers, now)
    }

    /// Waits until workers have nothing to do, or have too much to ever end at this moment of the virtual
    /// clock, and returns which.
    pub(crate) fn next_idle_reason<R: Wait>(&self, rt: &R, now: u64) -> Option<IdleReason> {
        let guarded = self.guarded.lock(rt);
        let guarded = self.changed.wait_while(rt, guarded, |guarded| {
            virtual_idle_reason(guarded, now).is_none()
        });
        virtual_idle_reason(&guarded, now)
    }

    /// Waits, for this long at most, until there is something else to do at this moment than was found, or a
    /// change that was not printed.
    pub(crate) fn wait_change<R: Wait + Clock>(
        &self,
        rt: &R,
        now: u64,
        found: Option<IdleReason>,
        most: Duration,
    ) {
        let guarded = self.guarded.lock(rt);
        let (guarded, timed) = self
            .changed
            .wait_timeout_while(rt, guarded, most, |guarded| {
                !guarded.observer.has_changes()
                    && idle_reason(&guarded.book, guarded.workers, now) == found
            });
        drop((guarded, timed));
    }

    /// Waits until no worker is left.
    pub(crate) fn wait_deserted<R: Wait>(&self, rt: &R) {
        let guarded = self.guarded.lock(rt);
        let guarded = self
            .changed
            .wait_while(rt, guarded, |guarded| guarded.workers > 0);
        drop(guarded);
    }

    /// Waits until no worker is left, for this long at most. Returns whether none is left.
    pub(crate) fn wait_deserted_for<R: Wait + Clock>(&self, rt: &R, most: Duration) -> bool {
        let guarded = self.guarded.lock(rt);
        let (guarded, timed) = self
            .changed
            .wait_timeout_while(rt, guarded, most, |guarded| guarded.workers > 0);
        drop((guarded, timed));
        self.guarded.lock(rt).workers == 0
    }

    /// Ends a part of the history, whose workers have ended and whose receipts are all here.
    pub(crate) fn end_part<R: Wait>(&self, rt: &R, tally: &mut Tally<L>) -> Result<(), BookFault>
        requires whole { tally.old.parts ≡ L.parts }
        ensures receipts { OnOk result (tally.new.receipts ≡ []) }
        ensures parts { tally.new.parts ≡ tally.old.parts }
        ensures kept { OnErr result (tally.new ≡ tally.old) }
    {
        self.guarded.lock(rt).book.end_part(tally)
    }

    /// Takes out the changes not printed yet.
    pub(crate) fn take_changes<R: Wait>(&self, rt: &R) -> Changes {
        self.guarded.lock(rt).observer.take()
    }

    /// Whether a pod of this uid is on the node.
    pub fn has_pod<R: Wait>(&self, rt: &R, uid: &Uid) -> bool {
        let guarded = self.guarded.lock(rt);
        guarded.book.node().pod_of(uid).is_some()
    }

    /// The uid of the pod at this place, in order of admission.
    pub fn uid_at<R: Wait>(
        &self,
        rt: &R,
        alloc: Global,
        place: usize,
    ) -> Result<Option<Uid>, AllocError> {
        let guarded = self.guarded.lock(rt);
        match guarded.book.node().pod(place) {
            Some(view) => Ok(Some(view.pod.uid.try_clone(alloc)?)),
            None => Ok(None),
        }
    }

    /// A description of the node, of why its containers wait and of their calls, made under the lock.
    pub fn describe<R: Wait, T: DescribeNode>(
        &self,
        rt: &R,
        form: &T,
    ) -> Result<T::Output, AllocError> {
        let guarded = self.guarded.lock(rt);
        let observer = &guarded.observer;
        form.describe(guarded.book.node(), observer.reasons(), observer.counts())
    }

    /// Whether the book still has room for a claim.
    pub fn has_room<R: Wait>(&self, rt: &R) -> bool {
        self.guarded.lock(rt).book.has_room(&AgentEvent::Claim(1))
    }

    /// How many entries the history has now, over all of its parts.
    pub fn entries<R: Wait>(&self, rt: &R) -> u64 {
        self.guarded.lock(rt).book.last_number()
    }

    /// The current moment.
    pub fn moment(&self) -> u64 {
        self.moment.load(Ordering::SeqCst)
    }

    /// Sets the current moment.
    pub(crate) fn tell(&self, moment: u64) {
        self.moment.store(moment, Ordering::SeqCst);
    }

    /// Closes the book: no worker claims or waits from now on.
    pub(crate) fn close<R: Wait>(&self, rt: &R) {
        let mut guarded = self.guarded.lock(rt);
        guarded.book.close();
        drop(guarded);
        self.due.notify_all();
        self.changed.notify_all();
    }
}
