ghost use Rattle.std.specs.Prelude.{◌≡◌, ◌-◌, ◌<◌, ◌≤◌, ◌^◌, length};
ghost use Rattle.lifecycle.specs.BackOff.{later, next_row, ready_at, row_of, wait_of};

use crate::past_run::PastRun;

// A run of at least this many seconds restarts the back-off.
const LONG_RUN: u64 = 600;

// How many runs count after one more.
pub(crate) fn next_row(row: usize, run: &PastRun) -> usize
    requires { row < 2 ^ 64 - 1 }
    ensures { result ≡ next_row row run.now }
{
    if run.lasted() >= LONG_RUN { 1 } else { row + 1 }
}

// How many of the runs count: those from the latest long one on.
fn row(runs: &[PastRun]) -> usize
    ensures { result ≡ row_of runs.now }
{
    let mut row = 0;
    for run in runs {
        row = next_row(row, run);
    }
    row
}

// How many seconds to wait after this many runs in a row.
fn wait(row: usize) -> u64
    ensures { result ≡ wait_of row }
{
    match row {
        0 | 1 => 10,
        2 => 20,
        3 => 40,
        4 => 80,
        5 => 160,
        _ => 300,
    }
}

// The moment at which the wait after the last of this many runs in a row ends.
pub(crate) fn ready_behind(last: &PastRun, row: usize) -> u64
    ensures { result ≡ later last.now.recorded (wait_of row) }
{
    last.recorded().saturating_add(wait(row))
}

/// The moment, in seconds, from which the next attempt may be made: that at which the last exit was recorded,
/// plus 10, 20, 40, 80, 160 and from then on 300 seconds, the more the more runs there were since the latest
/// one that lasted ten minutes. A sum above the greatest moment is that moment.
pub fn ready_at(runs: &[PastRun]) -> u64
    requires { 0 < length runs.now }
    ensures { result ≡ ready_at runs.now }
{
    ready_behind(&runs[runs.len() - 1], row(runs))
}
