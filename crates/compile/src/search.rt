ghost use Rattle.std.specs.Prelude.{◌≡◌, ◌≤◌, ◌<◌, ◌+◌, ◌-◌, ◌*◌, ◌^◌, ◌==◌, ℕ, IfOk, OnOk, length};
ghost use Rattle.std.specs.Prelude.{slice_index, if◌then◌else◌, IfSome, IsSome, IsTrue, None, true, IfNone};
ghost use Rattle.std.specs.Bool.{OnFalse};
ghost use Rattle.compile.specs.Common.{Builds, IsRecent, SysCall, IsCall, Decision, value_of, all_hold};
ghost use Rattle.compile.specs.Common.{decision_of, names, GivesAlways, IsBare, conditions_at, AreAsked};
ghost use Rattle.compile.specs.Common.{added_of, RECENT, IsEquality, Fits, IsRising, IsSearched, value_for};

use crate::code::{Code, Placed, RECENT};
use crate::plain::test_clauses;
use crate::rules::{add_equal, add_order, is_void};
use oci_profile::{Entry, Op};
use std::alloc::{AllocError, Global};

/// A number that entries compare an argument with, and the value for it.
#[derive(Clone, Copy)]
pub(crate) struct Point {
    number: u64,
    value: u32,
}

/// The place for a number among those in order; None if it is already there.
fn place_for(points: &[Point], number: u64) -> Option<usize>
    requires { IsRising points.now }
    ensures fits { IfSome result (λ at. Fits points.now at number) }
    ensures there { IfNone result ((arg value other : ℕ)
        → value_for points.now arg (if arg == number then value else other)
        ≡ value_for points.now arg other) }
{
    for (at, point) in points.iter().enumerate() {
        if point.number == number {
            return None;
        }
        if point.number > number {
            return Some(at);
        }
    }
    Some(points.len())
}

/// Adds a number with its value to those in order, unless it is already there: the first value counts.
fn add(points: &mut Vec<Point>, number: u64, value: u32) -> Result<(), AllocError>
    requires rising { IsRising points.old.items }
    ensures rising { OnOk result (IsRising points.new.items) }
    ensures longer { OnOk result (length points.new.items ≤ length points.old.items + 1) }
    ensures same { OnOk result ((arg other : ℕ) → value_for points.new.items arg other
        ≡ value_for points.old.items arg (if arg == number then value else other)) }
{
    if let Some(at) = place_for(points.as_slice(), number) {
        points.insert(at, Point { number, value })?;
    }
    Ok(())
}

/// Whether the entry names the number and has conditions.
fn asks(entry: &Entry, nr: u32) -> bool
    ensures yes { IsTrue result → (names entry.now nr ≡ true) × (0 < length entry.now.conds) }
    ensures no { OnFalse result (names entry.now nr ≡ true → IsBare entry.now) }
{
    entry.names(nr) && !entry.conds.as_slice().is_empty()
}

/// The argument that the first condition compares, among the entries that name the number.
fn asked(entries: &[Entry], nr: u32) -> u32
    ensures { (index : ℕ) → AreAsked index entries.now nr → 0 < conditions_at entries.now nr
        → result ≡ index }
{
    for entry in entries {
        if asks(entry, nr) {
            return u32::from(entry.conds.as_slice()[0].index);
        }
    }
    0
}

/// The number that this argument must equal, if that is the only condition of the entry.
fn equality(entry: &Entry, index: u32) -> Option<u64>
    ensures index_in { IfSome result (λ _. index < 6) }
    ensures one { IfSome result (λ _. length entry.now.conds ≡ 1) }
    ensures same { IfSome result (λ number. (call : SysCall)
        → all_hold entry.now call ≡ (slice_index call.args index == number)) }
    ensures all { IsEquality index entry.now → IsSome result }
{
    let conds = entry.conds.as_slice();
    if conds.len() != 1 {
        return None;
    }
    if u32::from(conds[0].index) != index {
        return None;
    }
    match conds[0].op {
        Op::Equal => Some(conds[0].value),
        _ => None,
    }
}

/// Up to this many equalities are tested one after another.
const FEW: usize = 6;

/// The argument that the entries of a number compare, and the numbers that it may equal, in order, if each
/// entry has exactly one condition, an equality of this argument, and there are many entries.
pub(crate) fn points_for(
    alloc: Global,
    entries: &[Entry],
    nr: u32,
) -> Result<Option<(u32, Vec<Point>)>, AllocError>
    ensures index_in { IfOk result (λ found. IfSome found (λ it. it.0 < 6)) }
    ensures rising { IfOk result (λ found. IfSome found (λ it. IsRising it.1.items)) }
    ensures same { IfOk result (λ found. IfSome found (λ it. (last : Decision) (call : SysCall)
        → value_for it.1.items (slice_index call.args it.0) (value_of last)
        ≡ value_of (decision_of entries.now last nr call))) }
    ensures short { IfOk result (λ found. IfSome found
        (λ it. 7 * length it.1.items ≤ added_of entries.now nr)) }
    ensures many { IfOk result (λ found. IfSome found
        (λ it. length it.1.items ≤ conditions_at entries.now nr)) }
    ensures more { IfOk result (λ found. IfSome found (λ _. 6 < conditions_at entries.now nr)) }

    // Only few equalities of one argument are left to be tested one after another.
    ensures left { IfOk result (λ found. found ≡ None → (index : ℕ) → AreAsked index entries.now nr
        → conditions_at entries.now nr ≤ 6) }
{
    let index = asked(entries, nr);
    let mut points = Vec::new(alloc);
    let mut count: usize = 0;
    for entry in entries {
        if entry.names(nr) {
            match equality(entry, index) {
                Some(number) => add(&mut points, number, entry.decision.value())?,
                None => return Ok(None),
            }
            count += 1;
        }
    }
    if count <= FEW {
        return Ok(None);
    }
    Ok(Some((index, points)))
}

/// Emits the values of numbers, and the value of all others, one test after another.
fn few(code: &mut Code, alloc: Global, index: u32, points: &[Point], other: u32) -> Placed
    requires { index < 6 }
    ensures gives { IfOk result (λ at. (call : SysCall) → IsCall call
        → GivesAlways code.new call at (value_for points.now (slice_index call.args index) other)
        (1 + 4 * length points.now)) }
    ensures recent { IfOk result (IsRecent code.new) }
    ensures longer { OnOk result (length code.new ≤ length code.old + 1 + 5 * length points.now) }
    ensures builds { Builds code.old code.new }
{
    if points.is_empty() {
        return code.value(other);
    }
    let (first, later) = points.split_at(1);
    let rest = few(code, alloc, index, later, other)?;
    let mut clauses = Vec::new(alloc);
    add_equal(&mut clauses, index, first[0].number)?;
    if is_void(clauses.as_slice()) {
        return Ok(rest);
    }
    let hit = code.value(first[0].value)?;
    test_clauses(code, clauses.as_slice(), 0, hit, rest)
}

/// This many numbers are searched by halves.
const MANY: usize = 10;

/// Emits the values of numbers in order, and the value of all others: by halves, down to a few.
pub(crate) fn search(
    code: &mut Code,
    alloc: Global,
    index: u32,
    points: &[Point],
    other: u32,
) -> Placed
    requires index_in { index < 6 }
    requires rising { IsRising points.now }
    requires short { length code.old + 1 + 7 * length points.now < 2 ^ 32 }
    ensures gives { IfOk result (λ at. (call : SysCall) (most : ℕ) → IsCall call
        → IsSearched (length points.now) most
        → GivesAlways code.new call at (value_for points.now (slice_index call.args index) other) most) }
    ensures recent { IfOk result (IsRecent code.new) }
    ensures longer { OnOk result (length code.new ≤ length code.old + 1 + 7 * length points.now) }
    ensures shorter { OnOk result (5 ≤ length points.now
        → length code.new + 8 ≤ length code.old + 7 * length points.now) }
    ensures builds { Builds code.old code.new }
{
    if points.len() < MANY {
        return few(code, alloc, index, points, other);
    }
    let (smaller, larger) = points.split_at(points.len() / 2);
    let below = search(code, alloc, index, smaller, other)?;
    let above = search(code, alloc, index, larger, other)?;
    let miss = code.near(below, RECENT - 2)?;
    let hit = code.near(above, RECENT - 2)?;
    let mut clauses = Vec::new(alloc);
    add_order(&mut clauses, index, larger[0].number, true, true)?;
    if is_void(clauses.as_slice()) {
        return Ok(miss);
    }
    test_clauses(code, clauses.as_slice(), 0, hit, miss)
}
