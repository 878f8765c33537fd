ghost use Rattle.std.specs.Prelude.{◌≡◌, None};
ghost use Rattle.worker_core.specs.Order.{first_moment, first_turn, is_ahead, prefer, turn_of};

use crate::order::Due;

// The pod that a worker is given, by its place, and the number of its last ended claim.
#[derive(Clone, Copy)]
pub(crate) struct Turn {
    pub(crate) place: usize,
    pub(crate) worked: u64,
}

fn turn_of(due: Due) -> Turn
    ensures { result ≡ turn_of due }
{
    Turn {
        place: due.place,
        worked: due.worked,
    }
}

fn is_ahead(due: Due, best: Turn) -> bool
    ensures { result ≡ is_ahead due best }
{
    due.worked < best.worked || due.worked == best.worked && due.place < best.place
}

// Prefers the pod that was worked on longer ago, and of equal ones the first on the node.
fn prefer(best: Option<Turn>, due: Due) -> Turn
    ensures { result ≡ prefer best due }
{
    match best {
        None => turn_of(due),
        Some(best) if is_ahead(due, best) => turn_of(due),
        Some(best) => best,
    }
}

// The pod that a worker is given at this moment, if a request is due for one. Looks only at pods with a
// request due.
pub(crate) fn first_turn(now: u64, order: &[Due]) -> Option<Turn>
    ensures { result ≡ first_turn now None order.now }
{
    let mut best = None;
    for due in order {
        if due.from <= now {
            best = Some(prefer(best, *due));
        } else {
            break;
        }
    }
    best
}

// The moment, not before this one, from which a worker can be given a request.
pub(crate) fn first_moment(now: u64, order: &[Due]) -> Option<u64>
    ensures { result ≡ first_moment now order.now }
{
    match order.first() {
        None => None,
        Some(due) => Some(due.from.max(now)),
    }
}
