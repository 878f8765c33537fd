//! The pods that can be given, in the order of the moments from which they can.
ghost use Rattle.std.specs.Prelude.{◌≡◌, ◌<◌, ◌≤◌, length, vec_len, vec_capacity};
ghost use Rattle.std.specs.List.{insert};
ghost use Rattle.worker_core.specs.Order.{closed, closed_up, put, refreshed, reseated, stands_before};
ghost use Rattle.worker_core.specs.Order.{without};

use crate::slots::Slot;

// A pod that nobody holds, by its place: the moment from which a request is due for it, and the number of its
// last ended claim.
#[derive(Clone, Copy)]
pub(crate) struct Due {
    pub(crate) place: usize,
    pub(crate) from: u64,
    pub(crate) worked: u64,
}

fn stands_before(due: Due, other: Due) -> bool
    ensures { result ≡ stands_before due other }
{
    due.from < other.from || due.from == other.from && due.place < other.place
}

// The index at which to insert it.
fn place_for(due: Due, order: &[Due]) -> usize
    ensures put { insert order.now result due ≡ put due order.now }
    ensures within { result ≤ length order.now }
{
    let mut at = 0;
    while at < order.len() && stands_before(order[at], due) {
        at += 1;
    }
    at
}

// Allocates nothing.
fn put(order: &mut Vec<Due>, due: Due)
    requires { vec_len order.old < vec_capacity order.old }
    ensures order { order.new.items ≡ put due order.old.items }
    ensures room { vec_capacity order.old ≤ vec_capacity order.new }
{
    let at = place_for(due, order.as_slice());
    let inserted = order.insert(at, due);
    let held = inserted.is_ok();
    prove!(held);
    drop(inserted);
}

fn take_out(order: &mut Vec<Due>, place: usize)
    ensures order { order.new.items ≡ without place order.old.items }
    ensures room { vec_capacity order.new ≡ vec_capacity order.old }
{
    order.retain(|due| due.place != place);
}

// Moves the pod at this place to where it belongs now, if it can be given.
fn reseat(order: &mut Vec<Due>, place: usize, slot: &Slot)
    requires { length (without place order.old.items) < vec_capacity order.old }
    ensures order { order.new.items ≡ reseated place slot.now order.old.items }
    ensures room { vec_capacity order.old ≤ vec_capacity order.new }
{
    take_out(order, place);
    if let Some(from) = slot.free_due() {
        let worked = slot.state.worked();
        put(
            order,
            Due {
                place,
                from,
                worked,
            },
        );
    }
}

// Updates the order after the pod at this place has changed.
pub(crate) fn refresh(order: &mut Vec<Due>, place: usize, slots: &[Slot])
    requires { place < length slots.now → length (without place order.old.items) < vec_capacity order.old }
    ensures order { order.new.items ≡ refreshed place slots.now order.old.items }
    ensures room { vec_capacity order.old ≤ vec_capacity order.new }
{
    if let Some(slot) = slots.get(place) {
        reseat(order, place, slot);
    }
}

fn close_up(due: &mut Due, gone: usize)
    ensures { due.new ≡ closed_up gone due.old }
{
    if gone < due.place {
        due.place -= 1;
    }
}

// Updates the order after the pod at this place has left, and those after it have moved up.
pub(crate) fn close(order: &mut Vec<Due>, gone: usize)
    ensures order { order.new.items ≡ closed gone order.old.items }
    ensures room { vec_capacity order.new ≡ vec_capacity order.old }
{
    take_out(order, gone);
    for due in order.iter_mut() {
        close_up(due, gone);
    }
}
