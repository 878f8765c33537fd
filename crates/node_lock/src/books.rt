ghost use Rattle.std.specs.Prelude.{◌≡◌, ◌↔◌, ◌+◌, ◌<◌, ◌≤◌, ◌++◌, [], ◌∷◌, List, true, false, length};
ghost use Rattle.std.specs.Prelude.{nat_le, Err, IfOk, IsTrue, OnOk, OnErr, IsOk};
ghost use Rattle.worker_core.specs.Kept.{after_event, answer_of, fresh_node};
ghost use Rattle.worker_core.specs.Slots.{held_in};
ghost use Rattle.node_lock.specs.declared.limits.TheConstants.{MAX_ENTRIES};
ghost use Rattle.node_lock.specs.Books.{HasNumbers, MayEnd, last_number, needed, worker_of};
ghost use Rattle.node_lock.specs.Histories.{EndsAt, GoesOn};
ghost use Rattle.node_lock.specs.declared.entries.Entry.{Entry};
ghost use Rattle.node_lock.specs.Rooms.{gives_up, room_for};

use crate::audits::audit;
use crate::entries::Entry;
use crate::faults::BookFault;
use crate::limits::{MAX_ENTRIES, PARTS};
use crate::receipts::Receipt;
use crate::steps::{entered, room_for};
use crate::tallies::Tally;
use crate::whole::Whole;
use std::alloc::Global;
use std::marker::Model;
use std::sync::ledger;
use std::sync::ledger::{Blank, Ledger, Share};
use worker_core::{AgentEvent, Node};
use worker_pod::Settings;

/// The node that workers share, the history of what they did, and the count of its entries. A history is
/// written in parts: the entries of a part are dropped once it has ended, and the next part goes on from the
/// node as it is then. A lock has to protect a book. Each call of a book is one step, and uses no file and no
/// socket.
#[derive(Drop)]
pub struct Book<L: Ledger> {
    alloc: Global,
    settings: Settings,
    node: Node,
    before: u64,
    history: Vec<Entry>,
    whole: Whole,
    count: ledger::Book<L>,
    limit: usize,
    closed: bool,
}

impl<L: Ledger> Model for Book<L> {
    ghost use Rattle.std.specs.Prelude.{vec_capacity};
    ghost use Rattle.node_lock.specs.Books.{Books, IsKept};

    ghost Value = { Books };

    ghost view = { λ b. record {
      settings = b.settings;
      node = b.node;
      before = b.before;
      history = b.history.items;
      whole = b.whole.entries;
      total = b.count.total;
      limit = b.limit;
      closed = b.closed;
    } };

    ghost invariant = { λ b. IsKept b.settings b.node b.before b.history.items b.whole.entries
        b.count.total b.limit (vec_capacity b.history) };
}

impl<L: Ledger> Book<L> {
    /// A book of a node without pods, whose history has at most `limit` entries in each part, and the share
    /// that counts them, with all parts of its ledger.
    pub fn with_limit(
        alloc: Global,
        settings: Settings,
        limit: usize,
        blank: Blank,
    ) -> (Book<L>, Share<L>)
        requires name { blank.name ≡ L.name }
        requires parts { blank.parts ≡ L.parts }
        requires limit { limit ≤ MAX_ENTRIES }
        ensures node { result.0.node ≡ fresh_node settings }
        ensures history { result.0.history ≡ [] }
        ensures whole { result.0.whole ≡ [] }
        ensures before { result.0.before ≡ 0 }
        ensures settings { result.0.settings ≡ settings }
        ensures limit { result.0.limit ≡ limit }
        ensures open { result.0.closed ≡ false }
        ensures parts { result.1.parts ≡ L.parts }
        ensures amount { result.1.amount ≡ 0 }
    {
        let (count, share) = blank.open::<L>();
        let book = Book {
            alloc,
            settings,
            node: Node::new(alloc, settings),
            before: 0,
            history: Vec::new(alloc),
            whole: Whole::none(),
            count,
            limit,
            closed: false,
        };
        (book, share)
    }

    /// The entries of the current part, oldest first.
    pub fn history(&self) -> &[Entry]
        ensures value { result.now ≡ self.now.history }
        ensures counted { self.now.total ≡ length result.now }

        // With the earlier parts it is one history, which a single thread could have made, and which ends at
        // the node.
        ensures legal { GoesOn self.now.settings self.now.before result.now self.now.whole self.now.node }
    {
        self.history.as_slice()
    }

    /// How many entries the earlier parts of the history had.
    pub fn before(&self) -> u64
        ensures { result ≡ self.now.before }
    {
        self.before
    }

    /// The number of the last entry, from 1 over all parts. 0 if there is none.
    pub fn last_number(&self) -> u64
        ensures value { result ≡ last_number self.now }

        // There are enough numbers for a whole further part.
        ensures room { HasNumbers self.now.before }
    {
        self.before + self.history.len() as u64
    }

    /// The node.
    pub fn node(&self) -> &Node
        ensures { result.now ≡ self.now.node }
    {
        &self.node
    }

    // How many entries must still fit into the history: the event's, and the ends of claims.
    fn ahead(&self, event: &AgentEvent) -> usize
        ensures { result ≡ held_in self.now.node.slots + room_for self.now.node event.now }
    {
        self.node.held() as usize + room_for(&self.node, event)
    }

    /// Whether the limit leaves room for this event.
    pub fn has_room(&self, event: &AgentEvent) -> bool
        ensures { result ≡ nat_le (needed self.now event.now) self.now.limit }
    {
        self.history.len() + self.ahead(event) <= self.limit
    }

    /// Applies the worker's event to the node, and appends it to the history. The receipt is for the entry,
    /// and the share counts it. A fault changes nothing. HistoryFull is reported before Memory; the end of a
    /// held claim always finds room, and giving one up takes no memory.
    #[tactic(auto, using(crate::proofs::Abandons::giving_up))]
    pub fn record(
        &mut self,
        share: &mut Share<L>,
        worker: u32,
        event: AgentEvent,
    ) -> Result<Receipt, BookFault>
        requires part { 0 < share.old.parts }
        requires own { worker_of event ≡ worker }

        // The entry is the worker's, and its answer is that of the node's step.
        ensures number { IfOk result (λ r. r.number ≡ last_number self.new) }
        ensures worker { IfOk result (λ r. r.entry.worker ≡ worker) }
        ensures event { IfOk result (λ r. r.entry.event ≡ event) }
        ensures answer { IfOk result (λ r. r.entry.answer ≡ answer_of self.old.node event) }
        ensures history { IfOk result (λ r. self.new.history ≡ self.old.history ++ r.entry ∷ []) }
        ensures node { OnOk result (self.new.node ≡ after_event self.old.node event) }
        ensures counted { OnOk result (share.new.amount ≡ share.old.amount + 1) }

        // It is the last of the whole history, and nothing else was added to that.
        ensures whole { IfOk result (λ r. self.new.whole ≡ self.old.whole ++ r.entry ∷ []) }

        // Whatever the earlier parts were, the history goes on from them.
        ensures goes_on { OnOk result ((gone : List Entry)
            → EndsAt self.old.settings (gone ++ self.old.history) self.old.node
            → EndsAt self.new.settings (gone ++ self.new.history) self.new.node) }

        // The rest stays.
        ensures before { self.new.before ≡ self.old.before }
        ensures settings { self.new.settings ≡ self.old.settings }
        ensures limit { self.new.limit ≡ self.old.limit }
        ensures closed { self.new.closed ≡ self.old.closed }
        ensures parts { share.new.parts ≡ share.old.parts }
        ensures err { OnErr result (self.new ≡ self.old) }
        ensures uncounted { OnErr result (share.new.amount ≡ share.old.amount) }

        // Which fault, and when none.
        ensures full { result ≡ Err BookFault.HistoryFull ↔ self.old.limit < needed self.old event }
        ensures abandon { gives_up self.old.node event ≡ true → IsOk result }
    {
        if !self.has_room(&event) {
            return Err(BookFault::HistoryFull);
        }
        let ahead = self.ahead(&event);
        let entry = entered(
            self.alloc,
            &mut self.node,
            &mut self.history,
            ahead,
            worker,
            event,
        )?;
        self.whole = self.whole.and(&entry);
        self.count.add(share, 1);
        Ok(Receipt::new(self.last_number(), entry))
    }

    /// Ends a part of the history, whose receipts are all here: its entries and receipts are dropped, and the
    /// next part goes on at the node where this one ended, open and with room for as many entries.
    /// HistoryFull if the part has no entries, a claim is held, an entry isn't at its receipt's number, or
    /// there are no numbers for another part; then nothing changes. No memory is taken.
    pub fn end_part(&mut self, tally: &mut Tally<L>) -> Result<(), BookFault>
        requires whole { tally.old.parts ≡ L.parts }
        ensures when { IsOk result ↔ MayEnd self.old tally.old.receipts }
        ensures fault { OnErr result (result ≡ Err BookFault.HistoryFull) }
        ensures node { self.new.node ≡ self.old.node }
        ensures before { OnOk result (self.new.before ≡ last_number self.old) }
        ensures history { OnOk result (self.new.history ≡ []) }
        ensures whole { self.new.whole ≡ self.old.whole }
        ensures receipts { OnOk result (tally.new.receipts ≡ []) }
        ensures open { OnOk result (self.new.closed ≡ false) }
        ensures settings { self.new.settings ≡ self.old.settings }
        ensures limit { self.new.limit ≡ self.old.limit }
        ensures parts { tally.new.parts ≡ tally.old.parts }
        ensures err { OnErr result (self.new ≡ self.old) }
        ensures kept { OnErr result (tally.new ≡ tally.old) }
    {
        if !self.may_end(tally) {
            return Err(BookFault::HistoryFull);
        }
        self.before = self.last_number();
        self.history.clear();
        tally.clear(&mut self.count);
        self.closed = false;
        Ok(())
    }

    // Whether the part may end.
    fn may_end(&self, tally: &Tally<L>) -> bool
        ensures { IsTrue result ↔ MayEnd self.now tally.now.receipts }
    {
        !self.history.is_empty()
            && self.node.held() == 0
            && u64::MAX - self.last_number() >= MAX_ENTRIES as u64
            && audit(self.before, self.history.as_slice(), tally.receipts())
    }

    /// Closes the book: workers that wait stop waiting.
    pub fn close(&mut self)
        ensures { self.new ≡ record self.old { closed = true } }
    {
        self.closed = true;
    }

    /// Whether it was closed.
    pub fn is_closed(&self) -> bool
        ensures { result ≡ self.now.closed }
    {
        self.closed
    }

    /// How many entries the part has. That is the number of the tally's receipts too, if it has all parts of
    /// the ledger. Nothing changes.
    pub fn entries(&mut self, tally: &mut Tally<L>) -> u64
        ensures length { result ≡ length self.old.history }
        ensures all { tally.old.parts ≡ L.parts → result ≡ length tally.old.receipts }
        ensures book { self.new ≡ self.old }
        ensures tally { tally.new ≡ tally.old }
    {
        tally.counted(&mut self.count);
        self.history.len() as u64
    }
}
