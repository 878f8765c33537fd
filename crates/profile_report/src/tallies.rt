//! How many calls have each action, as the key to the letters.
ghost use Rattle.std.specs.Prelude.{◌≡◌, IfOk, string_bytes};
ghost use Rattle.profile_report.specs.Tallies.{counted, has_action, pair_html, tallies_html};

use crate::words::letter;
use action::{Action, Verdict};
use profile_table::Row;
use std::alloc::{AllocError, Global};
use std::fmt;

/// Each letter with its action and the number of calls, the mildest action first.
#[tactic(auto, unfolding(crate::specs::Tallies::tallies_html))]
pub(crate) fn tallies_html(alloc: Global, rows: &[Row]) -> Result<String, AllocError>
    ensures { IfOk result (λ text. string_bytes text ≡ tallies_html rows.now) }
{
    let performed = pair_html(alloc, rows, Action::Allow, Action::Log)?;
    let answered = pair_html(alloc, rows, Action::Errno, Action::Trace)?;
    let asked = pair_html(alloc, rows, Action::UserNotif, Action::Trap)?;
    let ended = pair_html(alloc, rows, Action::KillThread, Action::KillProcess)?;
    format!(in alloc; "{performed}{answered}{asked}{ended}")
}

/// The letters of two actions.
#[tactic(auto, unfolding(crate::specs::Tallies::pair_html))]
fn pair_html(alloc: Global, rows: &[Row], one: Action, other: Action) -> Result<String, AllocError>
    ensures { IfOk result (λ text. string_bytes text ≡ pair_html rows.now one other) }
{
    let first = Tally(one, counted(one, rows));
    let second = Tally(other, counted(other, rows));
    format!(in alloc; "{first}{second}")
}

/// How many rows have this action.
fn counted(action: Action, rows: &[Row]) -> usize
    ensures { result ≡ counted action rows.now }
{
    let mut count = 0;
    for row in rows {
        if has_action(action, row) {
            count += 1;
        }
    }
    count
}

fn has_action(action: Action, row: &Row) -> bool
    ensures { result ≡ has_action action row.now }
{
    Verdict::of_value(row.value).rank() == action.rank()
}

/// A letter, its action, and how many calls have it.
#[derive(Clone, Copy)]
struct Tally(Action, usize);

impl fmt::Display for Tally {
    ghost use Rattle.std.specs.Prelude.{Some};
    ghost use Rattle.profile_report.specs.Tallies.{tally_html};

    ghost output = { λ tally. Some (tally_html tally.0 tally.1) };

    #[tactic(auto, unfolding(crate::specs::Tallies::tally_html))]
    fn fmt<W: fmt::Write>(&self, f: &mut fmt::Formatter<W>) -> fmt::Result {
        let (action, count) = (self.0, self.1);
        let letter = letter(action);
        write!(
            f,
            "<li class=\"{letter}\"><b>{letter}</b> {action} {count}</li>\n"
        )
    }
}
