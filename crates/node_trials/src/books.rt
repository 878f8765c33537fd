//! The book of a node, and receipts for its entries.
ghost use Rattle.std.specs.Prelude.{◌≡◌, ◌<◌, ◌≤◌, IfOk, IfSome, length, vec_len};
ghost use Rattle.node_lock.specs.Books.{worker_of};

use crate::nodes::{Foreseen, SETTINGS, events_before, same_node};
use node_lock::{Book, BookFault, MAX_ENTRIES, PARTS, Receipt, Tally, audit};
use std::alloc::Global;
use std::marker::Brand;
use std::sync::ledger::{Blank, Ledger, Share};
use trials::{CallResult, Trial, TrialResult, try_call};
use worker_core::AgentEvent;

/// Tries to record the event of this name, to join tallies, or what takes no memory.
pub(crate) fn run_trial(rt: &HostRuntime, name: &str, event: &str) -> Option<TrialResult> {
    match name {
        "record" => {
            let foreseen = Foreseen::new(rt.alloc(), event)?;
            Some(recorded::<Brand>(rt, foreseen, Blank::new(PARTS)))
        }
        "Tally::join" => Some(joined::<Brand>(rt, Blank::new(PARTS))),
        "audit" => Some(audited::<Brand>(rt, Blank::new(PARTS))),
        _ => None,
    }
}

fn recorded<L: Ledger>(rt: &HostRuntime, foreseen: Foreseen, blank: Blank) -> TrialResult
    requires name { blank.name ≡ L.name }
    requires parts { blank.parts ≡ L.parts }
    requires some { 0 < blank.parts }
{
    try_call(rt, recording::<L>(rt.alloc(), foreseen, blank))
}

fn joined<L: Ledger>(rt: &HostRuntime, blank: Blank) -> TrialResult
    requires name { blank.name ≡ L.name }
    requires parts { blank.parts ≡ L.parts }
    requires two { 2 ≤ blank.parts }
{
    try_call(rt, joining::<L>(rt.alloc(), blank))
}

fn audited<L: Ledger>(rt: &HostRuntime, blank: Blank) -> TrialResult
    requires name { blank.name ≡ L.name }
    requires parts { blank.parts ≡ L.parts }
    requires some { 0 < blank.parts }
{
    try_call(rt, auditing::<L>(rt.alloc(), blank))
}

fn worker_of(event: &AgentEvent) -> u32
    ensures { result ≡ worker_of event.now }
{
    match event {
        AgentEvent::Admit(_) | AgentEvent::Delete(_) | AgentEvent::Tick(_) => 0,
        AgentEvent::Claim(worker) | AgentEvent::Report(worker, _) | AgentEvent::Abandon(worker) =>
            *worker,
    }
}

/// `Book::record`, in a book that has the events of a node.
#[derive(Drop)]
struct Records<L: Ledger> {
    book: Book<L>,
    share: Share<L>,
    foreseen: Foreseen,
    // How many entries there are before.
    entries: usize,
    ghost some: { 0 < share.parts },
}

fn recording<L: Ledger>(alloc: Global, foreseen: Foreseen, blank: Blank) -> Option<Records<L>>
    requires name { blank.name ≡ L.name }
    requires parts { blank.parts ≡ L.parts }
    requires some { 0 < blank.parts }
{
    let (book, share) = Book::<L>::with_limit(alloc, SETTINGS, MAX_ENTRIES, blank);
    let mut it = Records {
        book,
        share,
        foreseen,
        entries: 0,
    };
    for event in events_before(alloc)? {
        drop(it.record(event).ok()?);
    }
    it.entries = it.book.history().len();
    Some(it)
}

impl<L: Ledger> Records<L> {
    fn record(&mut self, event: AgentEvent) -> Result<Receipt, BookFault> {
        let worker = worker_of(&event);
        self.book.record(&mut self.share, worker, event)
    }
}

impl<L: Ledger> Trial for Records<L> {
    type Answer = Option<Result<Receipt, BookFault>>;

    fn call(&mut self) -> Option<Result<Receipt, BookFault>> {
        let event = self.foreseen.events.pop()?;
        Some(self.record(event))
    }

    fn check(&mut self, answer: &Option<Result<Receipt, BookFault>>) -> CallResult {
        match answer {
            Some(Ok(receipt)) => {
                let is_last = receipt.number() == self.book.history().len() as u64;
                let answer = &receipt.entry().answer;
                match self.foreseen.check(answer, self.book.node()) {
                    CallResult::Right => CallResult::right_if(is_last),
                    // Out of memory is a fault of the book, and not an answer of the node in an entry.
                    _ => CallResult::Wrong,
                }
            }
            Some(Err(BookFault::Memory)) => CallResult::Memory,
            Some(Err(BookFault::HistoryFull)) | None => CallResult::Wrong,
        }
    }

    fn is_unchanged(&mut self) -> bool {
        let count = self.book.history().len();
        count == self.entries && same_node(self.book.node(), &self.foreseen.before)
    }
}

/// A tally with the receipt for this event, by a share that counted nothing before.
fn one<L: Ledger>(
    alloc: Global,
    book: &mut Book<L>,
    share: Share<L>,
    event: AgentEvent,
) -> Option<Tally<L>>
    requires part { 0 < share.parts }
    requires none { share.amount ≡ 0 }
{
    let mut share = share;
    let worker = worker_of(&event);
    let receipt = book.record(&mut share, worker, event).ok()?;
    let receipts = Vec::from_array(alloc, [receipt]).ok()?;
    Some(Tally::of(share, receipts))
}

/// `Tally::join`, of two tallies with one receipt each.
#[derive(Drop)]
struct Joins<L: Ledger> {
    tally: Tally<L>,
    others: Vec<Tally<L>>,
}

fn joining<L: Ledger>(alloc: Global, blank: Blank) -> Option<Joins<L>>
    requires name { blank.name ≡ L.name }
    requires parts { blank.parts ≡ L.parts }
    requires two { 2 ≤ blank.parts }
{
    let (mut book, mut first) = Book::<L>::with_limit(alloc, SETTINGS, MAX_ENTRIES, blank);
    let second = first.split_off(1, 0);
    let tally = one(alloc, &mut book, first, AgentEvent::Tick(1))?;
    let mut others = Vec::new(alloc);
    others
        .push(one(alloc, &mut book, second, AgentEvent::Claim(1))?)
        .ok()?;
    Some(Joins { tally, others })
}

/// Whether the receipts have the numbers from this one on.
fn are_from(receipts: &[Receipt], first: u64) -> bool {
    let mut number = first;
    for receipt in receipts {
        if receipt.number() != number {
            return false;
        }
        number = number.saturating_add(1);
    }
    true
}

impl<L: Ledger> Trial for Joins<L> {
    type Answer = Option<bool>;

    // A tally that is refused is returned.
    fn call(&mut self) -> Option<bool> {
        let other = self.others.pop()?;
        match self.tally.join(other) {
            Ok(()) => Some(true),
            Err(back) => {
                let kept = self.others.push(back);
                drop(kept);
                Some(false)
            }
        }
    }

    fn check(&mut self, answer: &Option<bool>) -> CallResult {
        let receipts = self.tally.receipts();
        match answer {
            Some(true) => CallResult::right_if(receipts.len() == 2 && are_from(receipts, 1)),
            Some(false) => CallResult::Memory,
            None => CallResult::Wrong,
        }
    }

    fn is_unchanged(&mut self) -> bool {
        let receipts = self.tally.receipts();
        let is_back = self.others.as_slice().first().is_some_and(|other| other.receipts().len() == 1
            && are_from(other.receipts(), 2));
        receipts.len() == 1 && are_from(receipts, 1) && is_back
    }
}

/// `audit`, `Book::entries` and `Book::close`, which take no memory.
#[derive(Drop)]
struct Audits<L: Ledger> {
    book: Book<L>,
    tally: Tally<L>,
}

fn auditing<L: Ledger>(alloc: Global, blank: Blank) -> Option<Audits<L>>
    requires name { blank.name ≡ L.name }
    requires parts { blank.parts ≡ L.parts }
    requires some { 0 < blank.parts }
{
    let (mut book, share) = Book::<L>::with_limit(alloc, SETTINGS, MAX_ENTRIES, blank);
    let tally = one(alloc, &mut book, share, AgentEvent::Tick(1))?;
    Some(Audits { book, tally })
}

impl<L: Ledger> Trial for Audits<L> {
    type Answer = (bool, u64);

    fn call(&mut self) -> (bool, u64) {
        let stand = audit(
            self.book.before(),
            self.book.history(),
            self.tally.receipts(),
        );
        let entries = self.book.entries(&mut self.tally);
        self.book.close();
        (stand, entries)
    }

    fn check(&mut self, answer: &(bool, u64)) -> CallResult {
        CallResult::right_if(*answer == (true, 1) && self.book.is_closed())
    }
}
