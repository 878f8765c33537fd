ghost use Rattle.std.specs.Prelude.{◌≡◌, ◌↔◌, ◌<◌, ◌≤◌, ◌+◌, ◌++◌, [], ◌∷◌, length, nat_le};
ghost use Rattle.std.specs.Prelude.{IsOk, OnErr, OnOk, Some};
ghost use Rattle.std.specs.Option.{option_copied};
ghost use Rattle.lifecycle.specs.BackOff.{last_of, next_row, ready_at, row_of};
ghost use Rattle.lifecycle.specs.declared.runs.TheConstants.{MAX_RUNS};

use crate::back_off::{next_row, ready_behind};
use crate::history::History;
use crate::past_run::PastRun;
use std::alloc::AllocError;
use std::marker::Model;

/// This many runs of a container can be counted, and one more that is going on. No container comes near it.
pub const MAX_RUNS: usize = usize::MAX - 1;

/// The runs of a container that ended, the oldest first. However many they are, they take no memory: only
/// their count, the last one, and how many of them the back-off counts are kept.
#[derive(Drop)]
pub struct Runs {
    count: usize,
    row: usize,
    last: Option<PastRun>,
    all: History,
}

impl Model for Runs {
    ghost use Rattle.std.specs.Prelude.{◌≡◌, ◌≤◌, List, length};
    ghost use Rattle.lifecycle.specs.BackOff.{Run, last_of, row_of};
    ghost use Rattle.lifecycle.specs.declared.runs.TheConstants.{MAX_RUNS};

    ghost Value = { List Run };

    ghost view = { λ r. r.all.runs };

    ghost invariant = { λ r. (r.count ≡ length r.all.runs) × (r.count ≤ MAX_RUNS)
        × (r.row ≡ row_of r.all.runs) × (r.row ≤ r.count) × (r.last ≡ last_of r.all.runs) };
}

// The history of these runs and one more.
fn one_more(earlier: &History, run: &PastRun) -> History
    ensures all { result.runs ≡ earlier.now.runs ++ run.now ∷ [] }
    ensures last { last_of result.runs ≡ Some run.now }
    ensures row { row_of result.runs ≡ next_row (row_of earlier.now.runs) run.now }
    ensures longer { length result.runs ≡ length earlier.now.runs + 1 }
{
    earlier.and(run)
}

impl Runs {
    /// No runs yet.
    pub fn new() -> Runs
        ensures { result ≡ [] }
    {
        Runs {
            count: 0,
            row: 0,
            last: None,
            all: History::none(),
        }
    }

    /// Adds the latest run. That takes no memory, but if there are [`MAX_RUNS`] it fails as if memory ran
    /// out: the run is dropped and nothing else changes.
    pub fn push(&mut self, run: PastRun) -> Result<(), AllocError>
        ensures ok { OnOk result (self.new ≡ self.old ++ run ∷ []) }
        ensures err { OnErr result (self.new ≡ self.old) }
        ensures room { IsOk result ↔ length self.old < MAX_RUNS }
    {
        if self.is_full() {
            return Err(AllocError);
        }
        let all = one_more(&self.all, &run);
        let row = next_row(self.row, &run);
        *self = Runs {
            count: self.count + 1,
            row,
            last: Some(run),
            all,
        };
        Ok(())
    }

    /// How many there are.
    pub fn count(&self) -> usize
        ensures value { result ≡ length self.now }
        ensures few { result ≤ MAX_RUNS }
    {
        self.count
    }

    /// Whether there are [`MAX_RUNS`], so that no other can be added.
    pub fn is_full(&self) -> bool
        ensures { result ≡ nat_le MAX_RUNS (length self.now) }
    {
        MAX_RUNS <= self.count
    }

    /// The latest run.
    pub fn last(&self) -> Option<&PastRun>
        ensures { option_copied result ≡ last_of self.now }
    {
        self.last.as_ref()
    }

    /// The result of [`ready_at`](crate::ready_at) for them, and 0 if there are none.
    pub fn ready_at(&self) -> u64
        ensures { result ≡ ready_at self.now }
    {
        match self.last() {
            None => 0,
            Some(last) => ready_behind(last, self.row),
        }
    }
}
