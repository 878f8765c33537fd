//! A lock whose value fits a uid, which contracts read off the lock.
ghost use Rattle.std.specs.Prelude.{◌≡◌, ◌<◌, [], IfSome, IsTrue};
ghost use Rattle.runtime_history.specs.Keyed.{Guarded, HasOnly, Seized};

use atomic_table::{Play, Seat, Shared, Table, TableRule};
use manifest::Uid;
use std::alloc::Global;
use std::marker::{Model, PhantomData};
use std::sync::{Mutex, MutexGuard, Wait};
use std::thread::yield_now;

/// Values that fit some uids.
pub trait Keyed {
    ghost use Rattle.std.specs.Prelude.{ℕ, List};

    ghost fits: { List ℕ → Self → Type 0 };
}

/// The rule of a lock: its value, if it has it, fits its uid.
pub struct Guard<T> {
    marker: PhantomData<T>,
}

impl<T: Keyed> TableRule<Option<T>, Uid, Uid> for Guard<T> {
    ghost holds = { λ uid. Guarded (T.fits uid) };

    ghost first = { λ uid. uid };
}

impl<T: Keyed> Play<Option<T>, Uid> for Guard<T> {
    ghost then = { λ _ me found me'. found ≡ 0 → Seized (T.fits me.0) me' };
}

struct Blanks;

impl<T> Play<Option<T>, Uid> for Blanks {
    ghost use Rattle.std.specs.Prelude.{◌≡◌, ◌∷◌, [], None};

    ghost then = { λ _ _ found me'. found ≡ 2 → me'.1 ≡ (0, None) ∷ [] };
}

struct Release;

impl<T> Play<Option<T>, Uid> for Release {
    ghost then = { λ _ _ _ _. Unit {0} };
}

/// A lock for a value that fits a uid. A thread takes the mutex first, so the word of the table is free when
/// the thread gets to it, except while another thread has the value without the mutex. Contracts see the uid
/// and the identity of the lock.
#[derive(Drop)]
pub struct KeyedLock<T: Keyed> {
    table: Table<Option<T>, Uid, Uid, Guard<T>, Global>,
    waits: Mutex<()>,
}

impl<T: Keyed> Model for KeyedLock<T> {
    ghost use Rattle.std.specs.Prelude.{◌≡◌, ℕ, List};
    ghost use Rattle.atomic_table.specs.Seated.{TableId};

    ghost Value = { List ℕ × TableId };

    ghost view = { λ l. (l.table.shared.key, l.table.shared.table_id) };

    ghost invariant = { λ l. (l.table.shared.table_id.words ≡ 1) × (l.table.shared.table_id.slots ≡ 1) };
}

/// The right to set the first value of a lock. Contracts see which lock it belongs to.
#[derive(Drop)]
pub struct Blank<T> {
    seat: Seat<Option<T>, Uid>,
}

impl<T> Model for Blank<T> {
    ghost use Rattle.atomic_table.specs.Seated.{TableId};
    ghost use Rattle.runtime_history.specs.Keyed.{HasOnly};

    ghost Value = { TableId };

    ghost view = { λ b. b.seat.table_id };

    ghost invariant = { λ b. HasOnly b.seat.me };
}

/// A lock's value was taken out. It has no `Drop`, so it ends in [`KeyedLock::put_back`]. Contracts see which
/// lock it belongs to.
pub struct Loan<'a, T> {
    seat: Seat<Option<T>, Uid>,
    // None if the value was taken without the mutex.
    waits: Option<MutexGuard<'a, ()>>,
}

impl<'a, T> Model for Loan<'a, T> {
    ghost use Rattle.atomic_table.specs.Seated.{TableId};
    ghost use Rattle.runtime_history.specs.Keyed.{HasOnly};

    ghost Value = { TableId };

    ghost view = { λ l. l.seat.table_id };

    ghost invariant = { λ l. HasOnly l.seat.me };
}

impl<T: Keyed + Drop> KeyedLock<T> {
    /// A lock for this uid, taken, still without its value. `None` if memory runs out.
    pub fn taken(alloc: Global, uid: &Uid) -> Option<(KeyedLock<T>, Blank<T>)>
        ensures key { IfSome result (λ made. made.0.0 ≡ uid.now) }
        ensures blank { IfSome result (λ made. made.1 ≡ made.0.1) }
    {
        let (table, mut seat) = Table::vacant(alloc, &[2], 1, uid).ok()?;
        if !seize_blank(&table.shared, &mut seat) {
            return None;
        }
        let lock = KeyedLock {
            table,
            waits: Mutex::new(()),
        };
        Some((lock, Blank { seat }))
    }

    /// Gives the lock its first value.
    pub fn fill(&self, value: T, blank: Blank<T>)
        requires value { T.fits self.now.0 value }
        requires blank { blank ≡ self.now.1 }
    {
        let Blank { seat } = blank;
        give(&self.table.shared, value, seat);
    }

    /// Takes the value, once no other thread has it.
    pub fn take<'a, R: Wait>(&'a self, rt: &R) -> (T, Loan<'a, T>)
        ensures value { T.fits self.now.0 result.0 }
        ensures loan { result.1 ≡ self.now.1 }
    {
        let waits = self.waits.lock(rt);
        let (value, seat) = take_in(rt, &self.table.shared);
        let loan = Loan {
            seat,
            waits: Some(waits),
        };
        (value, loan)
    }

    /// Takes the value if no other thread has it. Put it back soon: until then, a thread in `take` spins.
    pub fn try_take<'a>(&'a self) -> Option<(T, Loan<'a, T>)>
        ensures value { IfSome result (λ taken. T.fits self.now.0 taken.0) }
        ensures loan { IfSome result (λ taken. taken.1 ≡ self.now.1) }
    {
        let (value, seat) = try_take_in(&self.table.shared)?;
        Some((value, Loan { seat, waits: None }))
    }

    /// Puts the value back, or another that fits.
    pub fn put_back(&self, value: T, loan: Loan<'_, T>)
        requires value { T.fits self.now.0 value }
        requires loan { loan ≡ self.now.1 }
    {
        let Loan { seat, waits } = loan;
        give(&self.table.shared, value, seat);
        drop(waits);
    }
}

type Places<T> = Shared<Option<T>, Uid, Uid, Guard<T>>;

fn give<T: Keyed + Drop>(shared: &Places<T>, value: T, mut seat: Seat<Option<T>, Uid>)
    requires table { (shared.now.table_id.words ≡ 1) × (shared.now.table_id.slots ≡ 1) }
    requires value { T.fits shared.now.key value }
    requires seat { (seat.table_id ≡ shared.now.table_id) × HasOnly seat.me }
{
    drop(shared.exchange(&mut seat, 0, Some(value)));
    shared.store::<Release>(&mut seat, 0, 0);
}

fn take_in<T: Keyed, R: Wait>(rt: &R, shared: &Places<T>) -> (T, Seat<Option<T>, Uid>)
    requires table { (shared.now.table_id.words ≡ 1) × (shared.now.table_id.slots ≡ 1) }
    ensures value { T.fits shared.now.key result.0 }
    ensures seat { (result.1.table_id ≡ shared.now.table_id) × HasOnly result.1.me }
{
    for _ in rt.forever() {
        if let Some(taken) = try_take_in(shared) {
            return taken;
        }
        yield_now();
    }
    unreachable!()
}

fn try_take_in<T: Keyed>(shared: &Places<T>) -> Option<(T, Seat<Option<T>, Uid>)>
    requires table { (shared.now.table_id.words ≡ 1) × (shared.now.table_id.slots ≡ 1) }
    ensures value { IfSome result (λ taken. T.fits shared.now.key taken.0) }
    ensures seat { IfSome result (λ taken. (taken.1.table_id ≡ shared.now.table_id) × HasOnly taken.1.me) }
{
    let (found, mut seat) = shared.swap_new_seat::<Guard<T>>(0, 1);
    if found == 0 {
        let value = shared.exchange(&mut seat, 0, None).unwrap();
        return Some((value, seat));
    }
    None
}

// Takes the slot of a new table. It has no value yet.
fn seize_blank<T: Keyed>(shared: &Places<T>, seat: &mut Seat<Option<T>, Uid>) -> bool
    requires table { (seat.old.table_id ≡ shared.now.table_id) × (0 < shared.now.table_id.words) }
    requires seat { seat.old.me ≡ (shared.now.key, []) }
    ensures seat { seat.new.table_id ≡ seat.old.table_id }
    ensures held { IsTrue result → HasOnly seat.new.me }
{
    shared.swap::<Blanks>(seat, 0, 1) == 2
}
