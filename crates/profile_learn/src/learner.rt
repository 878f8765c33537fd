ghost use Rattle.std.specs.Prelude.{◌≡◌, ◌≤◌, ◌<◌, ◌++◌, ◌∷◌, [], if◌then◌else◌, IfOk, List};
ghost use Rattle.sys_table.specs.declared.table.TheConstants.{TABLE_LIMIT};
ghost use Rattle.call_data.specs.declared.sys_call.SysCall.{SysCall};
ghost use Rattle.oci_profile.specs.Entries.{AreEntries, IsFit};
ghost use Rattle.oci_profile.specs.Meaning.{meaning};
ghost use Rattle.profile_learn.specs.Allowed.{learned_meaning};
ghost use Rattle.profile_learn.specs.Entries.{any_below, keeps_few, learned_entries, narrow_entries};
ghost use Rattle.profile_learn.specs.Entries.{numbers_entries, takes_any, value_entries, value_entry};
ghost use Rattle.profile_learn.specs.Kept.{IsSummary};
ghost use Rattle.profile_learn.specs.declared.sighting.Sighting.{Sighting};

use crate::learned::Learned;
use crate::needed::is_needed;
use crate::sighting::{FCNTL, IOCTL, PERSONALITY, PRCTL, SOCKET};
use crate::values::{Values, is_few, list_of};
use oci_profile::{Cond, Conds, Decision, Entries, Entry, Numbers, Op, Profile};
use std::alloc::{AllocError, Global};
use sys_table::{TABLE_LIMIT, names_and_numbers_agree};

/// What a learned profile is to allow.
#[derive(Clone, Copy, Debug, PartialEq, Eq)]
pub struct Wanted {
    /// Calls with a small argument only with the values that were seen, if each value is known and there are
    /// four at most.
    pub args: bool,
    /// Also the calls that any program may need.
    pub needed: bool,
}

/// The profile that allows the calls that were seen, and decides all others as the base does.
pub fn profile_of(
    alloc: Global,
    learned: &Learned,
    base: &Profile,
    wanted: Wanted,
) -> Result<Profile, AllocError>
    // Nothing less is allowed, and nothing more.
    ensures means { (history : List Sighting) → IsSummary learned.now history
        → IfOk result (λ profile. (call : SysCall)
        → meaning profile call ≡ learned_meaning history wanted base.now call) }
{
    names_and_numbers_agree();
    let entries = learned_entries(alloc, learned, wanted)?;
    let entries = with_copies(alloc, entries, base.entries.as_slice())?;
    Ok(Profile {
        default: base.default,
        entries: Entries::new(entries),
    })
}

/// The entries of the calls that are allowed.
fn learned_entries(
    alloc: Global,
    learned: &Learned,
    wanted: Wanted,
) -> Result<Vec<Entry>, AllocError>
    ensures entries { IfOk result (λ v. v.items ≡ learned_entries learned.now wanted) }
    ensures fit { IfOk result (λ v. AreEntries v.items) }
{
    let numbers = any_below(alloc, learned, wanted, TABLE_LIMIT as u32)?;
    let entries = numbers_entries(alloc, numbers)?;
    if wanted.args {
        with_narrow(alloc, entries, learned)
    } else {
        Ok(entries)
    }
}

/// The calls below the limit that are allowed with any arguments.
#[tactic(auto, using(crate::proofs::Numbers::any_none, crate::proofs::Numbers::any_taken, crate::proofs::Numbers::any_left, crate::proofs::Numbers::any_fit))]
fn any_below(
    alloc: Global,
    learned: &Learned,
    wanted: Wanted,
    limit: u32,
) -> Result<Numbers, AllocError>
    requires { limit ≤ TABLE_LIMIT }
    ensures { IfOk result (λ numbers. numbers ≡ any_below learned.now wanted limit) }
{
    let mut numbers = Vec::new(alloc);
    for number in 0..limit {
        if takes_any(learned, wanted, number) {
            numbers.push(number)?;
        }
    }
    Ok(Numbers::new(numbers))
}

/// Whether the call is allowed with any arguments.
#[tactic(auto, unfolding(crate::specs::Entries::takes_any))]
fn takes_any(learned: &Learned, wanted: Wanted, number: u32) -> bool
    requires { number < TABLE_LIMIT }
    ensures { result ≡ takes_any learned.now wanted number }
{
    if wanted.needed && is_needed(number) {
        return true;
    }
    learned.seen[number as usize] && !(wanted.args && keeps_few(learned, number))
}

/// Whether the values of the call's small argument are known and few.
fn keeps_few(learned: &Learned, number: u32) -> bool
    ensures { result ≡ keeps_few learned.now number }
{
    match number {
        IOCTL => is_few(learned.ioctl),
        SOCKET => is_few(learned.socket),
        FCNTL => is_few(learned.fcntl),
        PERSONALITY => is_few(learned.personality),
        PRCTL => is_few(learned.prctl),
        _ => false,
    }
}

/// An entry that allows these calls, if there are any.
fn numbers_entries(alloc: Global, numbers: Numbers) -> Result<Vec<Entry>, AllocError>
    ensures entries { IfOk result (λ v. v.items ≡ numbers_entries numbers) }
    ensures fit { IfOk result (λ v. AreEntries v.items) }
{
    let mut entries = Vec::new(alloc);
    if !numbers.as_slice().is_empty() {
        entries.push(Entry {
            numbers,
            decision: Decision::Allow,
            conds: Conds::new(Vec::new(alloc)),
        })?;
    }
    Ok(entries)
}

/// With the entries of the calls that have a small argument.
fn with_narrow(
    alloc: Global,
    entries: Vec<Entry>,
    learned: &Learned,
) -> Result<Vec<Entry>, AllocError>
    requires { AreEntries entries.items }
    ensures entries { IfOk result (λ v. v.items ≡ entries.items ++ narrow_entries learned.now) }
    ensures fit { IfOk result (λ v. AreEntries v.items) }
{
    let entries = with_values(alloc, entries, IOCTL, 1, learned.ioctl)?;
    let entries = with_values(alloc, entries, SOCKET, 0, learned.socket)?;
    let entries = with_values(alloc, entries, FCNTL, 1, learned.fcntl)?;
    let entries = with_values(alloc, entries, PERSONALITY, 0, learned.personality)?;
    with_values(alloc, entries, PRCTL, 0, learned.prctl)
}

/// With an entry for each value that was seen of this argument of this call.
fn with_values(
    alloc: Global,
    mut entries: Vec<Entry>,
    number: u32,
    index: u8,
    values: Values,
) -> Result<Vec<Entry>, AllocError>
    requires number { number < TABLE_LIMIT }
    requires index { index < 6 }
    requires fit { AreEntries entries.items }
    ensures entries { IfOk result (λ v. v.items ≡ entries.items ++ value_entries number index values) }
    ensures fit { IfOk result (λ v. AreEntries v.items) }
{
    let values = list_of(alloc, values)?;
    for value in values.as_slice() {
        entries.push(value_entry(alloc, number, index, *value)?)?;
    }
    Ok(entries)
}

/// An entry that allows a call with this value of one argument.
fn value_entry(alloc: Global, number: u32, index: u8, value: u64) -> Result<Entry, AllocError>
    requires number { number < TABLE_LIMIT }
    requires index { index < 6 }
    ensures { IfOk result (λ entry. entry ≡ value_entry number index value) }
{
    let numbers = vec![in alloc; number]?;
    let conds = vec![in alloc;
        Cond {
            index,
            op: Op::Equal,
            value,
            value_two: 0
        },
    ]?;
    Ok(Entry {
        numbers: Numbers::new(numbers),
        decision: Decision::Allow,
        conds: Conds::new(conds),
    })
}

/// With copies of the base's entries at the end.
#[tactic(auto, using(crate::proofs::Fits::entry_pushed))]
fn with_copies(
    alloc: Global,
    mut entries: Vec<Entry>,
    base: &[Entry],
) -> Result<Vec<Entry>, AllocError>
    requires fit { AreEntries entries.items }
    requires base { AreEntries base.now }
    ensures entries { IfOk result (λ v. v.items ≡ entries.items ++ base.now) }
    ensures fit { IfOk result (λ v. AreEntries v.items) }
{
    for entry in base {
        entries.push(copied(alloc, entry)?)?;
    }
    Ok(entries)
}

fn copied(alloc: Global, entry: &Entry) -> Result<Entry, AllocError>
    ensures { IfOk result (λ copy. copy ≡ entry.now) }
{
    let numbers = Numbers::new(entry.numbers.as_slice().to_vec(alloc)?);
    let conds = Conds::new(entry.conds.as_slice().to_vec(alloc)?);
    Ok(Entry {
        numbers,
        decision: entry.decision,
        conds,
    })
}
