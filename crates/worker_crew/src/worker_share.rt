ghost use Rattle.std.specs.Prelude.{◌≡◌};

use std::sync::ledger::{Ledger, Share};

/// What a worker begins with: its number, and its part of the count of a book's entries.
#[derive(Drop)]
pub(crate) struct WorkerShare<L: Ledger> {
    pub(crate) worker: u32,
    pub(crate) share: Share<L>,
    ghost one: { share.parts ≡ 1 },
    ghost none: { share.amount ≡ 0 },
}

impl<L: Ledger> WorkerShare<L> {
    pub(crate) fn new(worker: u32, share: Share<L>) -> WorkerShare<L>
        requires one { share.parts ≡ 1 }
        requires none { share.amount ≡ 0 }
    {
        WorkerShare { worker, share }
    }
}
