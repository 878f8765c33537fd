ghost use Rattle.std.specs.Prelude.{◌≡◌, ◌+◌, ◌++◌, [], length, IfErr, OnOk, OnErr};

use crate::receipts::Receipt;
use std::marker::Model;
use std::sync::ledger;
use std::sync::ledger::{Ledger, Share};

/// Receipts, and the share that counts them: as many entries of the book were made with it.
#[derive(Drop)]
pub struct Tally<L: Ledger> {
    share: Share<L>,
    receipts: Vec<Receipt>,
}

impl<L: Ledger> Model for Tally<L> {
    ghost use Rattle.std.specs.Prelude.{◌≡◌, length};
    ghost use Rattle.node_lock.specs.Receipts.{Tallied};

    ghost Value = { Tallied };

    ghost view = { λ t. record { parts = t.share.parts; receipts = t.receipts.items } };

    ghost invariant = { λ t. t.share.amount ≡ length t.receipts.items };
}

impl<L: Ledger> Tally<L> {
    /// The receipts that the share counts.
    pub fn of(share: Share<L>, receipts: Vec<Receipt>) -> Tally<L>
        requires { share.amount ≡ length receipts.items }
        ensures parts { result.parts ≡ share.parts }
        ensures receipts { result.receipts ≡ receipts.items }
    {
        Tally { share, receipts }
    }

    /// The receipts.
    pub fn receipts(&self) -> &[Receipt]
        ensures { result.now ≡ self.now.receipts }
    {
        self.receipts.as_slice()
    }

    /// The share, and the receipts that it counts.
    pub fn into_share(self) -> (Share<L>, Vec<Receipt>)
        ensures parts { result.0.parts ≡ self.parts }
        ensures receipts { result.1.items ≡ self.receipts }
        ensures counted { result.0.amount ≡ length result.1.items }
    {
        let Tally { share, receipts } = self;
        (share, receipts)
    }

    /// Adds another tally of the same book: its receipts come last. If there is no memory for them, it is
    /// returned.
    pub fn join(&mut self, other: Tally<L>) -> Result<(), Tally<L>>
        ensures parts { OnOk result (self.new.parts ≡ self.old.parts + other.parts) }
        ensures receipts { OnOk result (self.new.receipts ≡ self.old.receipts ++ other.receipts) }
        ensures back { IfErr result (λ back. back ≡ other) }
        ensures err { OnErr result (self.new ≡ self.old) }
    {
        let mut other = other;
        if self.receipts.append(&mut other.receipts).is_err() {
            return Err(other);
        }
        let Tally { share, receipts } = other;
        drop(receipts);
        self.share.merge(share);
        Ok(())
    }

    // Changes nothing. Shows that there are as many receipts as counted, if the share is the whole.
    pub(crate) fn counted(&mut self, count: &mut ledger::Book<L>)
        ensures whole { self.old.parts ≡ L.parts → length self.old.receipts ≡ count.old.total }
        ensures count { count.new.total ≡ count.old.total }
        ensures same { self.new ≡ self.old }
    {
        count.audit(&mut self.share);
    }

    // Drops the receipts, and no longer counts their entries. The share is the whole, so the count is then 0.
    pub(crate) fn clear(&mut self, count: &mut ledger::Book<L>)
        requires whole { self.old.parts ≡ L.parts }
        ensures none { count.new.total ≡ 0 }
        ensures receipts { self.new.receipts ≡ [] }
        ensures parts { self.new.parts ≡ self.old.parts }
    {
        self.counted(count);
        count.sub(&mut self.share, self.receipts.len() as u64);
        self.receipts.clear();
    }
}
