//! Advice about the conditions of an entry.
ghost use Rattle.std.specs.Prelude.{◌≡◌, ◌++◌, ◌<◌, ◌^◌, IfOk, option_to_list, filter_map, map};
ghost use Rattle.profile_advice.specs.Conditions.{about_cond, about_conds, always, call_with, is_narrow, is_unused};
ghost use Rattle.profile_advice.specs.Conditions.{is_wider, lacking, meeting, met_by, pick, reads_two, target};
ghost use Rattle.profile_advice.specs.Conditions.{types, types_of, when, wide_at, wide_on, widened};

use crate::judged::{call_of, rank_on};
use crate::kind::Advice;
use crate::table::TYPES;
use call_data::SysCall;
use oci_profile::{Cond, Entry, Op, Profile};
use std::alloc::{AllocError, Global};

/// How many numbers 32 bits have.
const WIDE: u64 = 0x1_0000_0000;

/// A condition and its place.
#[derive(Clone, Copy)]
struct Tested<'p> {
    profile: &'p Profile,
    /// The place of the entry.
    place: usize,
    entry: &'p Entry,
    /// The place of the condition.
    at: usize,
    cond: Cond,
}

/// Whether the comparison is true of every number.
pub(crate) fn always(op: Op, value: u64, two: u64) -> bool
    ensures { result ≡ always op value two }
{
    match op {
        Op::LessOrEqual => value == u64::MAX,
        Op::GreaterOrEqual => value == 0,
        Op::MaskedEqual => value == 0 && two == 0,
        Op::NotEqual | Op::Less | Op::Equal | Op::Greater => false,
    }
}

fn reads_two(op: Op) -> bool
    ensures { result ≡ reads_two op }
{
    matches!(op, Op::MaskedEqual)
}

/// Whether the condition has a second value that is not read.
fn is_unused(cond: &Cond) -> bool
    ensures { result ≡ is_unused cond.now }
{
    !reads_two(cond.op) && cond.value_two != 0
}

#[tactic(auto, unfolding(crate::specs::Conditions::types))]
fn types() -> &'static [&'static str]
    ensures { map (λ text. text.now) result.now ≡ types }
{
    &TYPES
}

/// The types of a call's arguments, by letters.
fn types_of(number: u32) -> &'static str
    ensures { result.now ≡ types_of number }
{
    match types().get(number as usize) {
        Some(text) => *text,
        None => "",
    }
}

/// Whether the kernel reads 32 bits of the argument.
fn is_narrow(number: u32, index: u8) -> bool
    ensures { result ≡ is_narrow number index }
{
    match types_of(number).as_bytes().get(index as usize) {
        Some(letter) => *letter == b'i',
        None => false,
    }
}

/// An argument for which the comparison is true, if there is one.
fn meeting(op: Op, value: u64, two: u64) -> u64
    ensures { result ≡ meeting op value two }
{
    match op {
        Op::NotEqual => u64::from(value == 0),
        Op::Less => 0,
        Op::LessOrEqual | Op::Equal | Op::GreaterOrEqual => value,
        Op::Greater => value.saturating_add(1),
        Op::MaskedEqual => two,
    }
}

/// The argument at this place for which the conditions hold.
fn met_by(conds: &[Cond], index: u8) -> u64
    ensures { result ≡ met_by conds.now index }
{
    for cond in conds {
        if cond.index == index {
            return meeting(cond.op, cond.value, cond.value_two);
        }
    }
    0
}

fn pick(conds: &[Cond], index: u8, argument: u64, place: u8) -> u64
    ensures { result ≡ pick conds.now index argument place }
{
    if place == index {
        argument
    } else {
        met_by(conds, place)
    }
}

/// The call with this argument, whose other arguments meet the conditions.
#[tactic(auto, unfolding(crate::specs::Conditions::call_with))]
fn call_with(conds: &[Cond], number: u32, index: u8, argument: u64) -> SysCall
    ensures { result ≡ call_with conds.now number index argument }
{
    call_of(
        number,
        [
            pick(conds, index, argument, 0),
            pick(conds, index, argument, 1),
            pick(conds, index, argument, 2),
            pick(conds, index, argument, 3),
            pick(conds, index, argument, 4),
            pick(conds, index, argument, 5),
        ],
    )
}

/// The number that the condition compares with.
fn target(cond: &Cond) -> u64
    ensures { result ≡ target cond.now }
{
    if reads_two(cond.op) {
        cond.value_two
    } else {
        cond.value
    }
}

/// The advice about the call with this argument, if the profile decides it less strictly where the upper 32 bits of
/// the argument are 1.
fn wide_on(tested: Tested<'_>, number: u32, argument: u64) -> Option<Advice>
    ensures { result ≡ wide_on tested.entry.profile.now tested.entry.place tested.entry.at
        tested.entry.entry.now.conds number tested.entry.cond.index argument None }
{
    if argument >= WIDE {
        return None;
    }
    let (conds, index) = (tested.entry.conds.as_slice(), tested.cond.index);
    let narrow = call_with(conds, number, index, argument);
    let wide = call_with(conds, number, index, argument + WIDE);
    if rank_on(tested.profile, &narrow) < rank_on(tested.profile, &wide) {
        let (here, cut) = (
            tested.profile.value_on(&wide),
            tested.profile.value_on(&narrow),
        );
        Some(Advice::WideArgument(tested.place, tested.at, wide, here, cut))
    } else {
        None
    }
}

/// The advice about a condition that compares more bits than the kernel reads for this call.
fn wide_at(tested: Tested<'_>, number: u32) -> Option<Advice>
    ensures { result ≡ wide_at tested.entry.profile.now tested.entry.place tested.entry.entry.now.conds
        tested.entry.at tested.entry.cond number }
{
    if !is_narrow(number, tested.cond.index) {
        return None;
    }
    match wide_on(tested, number, target(&tested.cond)) {
        Some(advice) => Some(advice),
        None => wide_on(tested, number, 0),
    }
}

/// The advice about a call that lacks the argument.
fn lacking(tested: Tested<'_>, number: u32) -> Option<Advice>
    ensures { result ≡ lacking tested.entry.place tested.entry.at tested.entry.cond number }
{
    if types_of(number).len() <= tested.cond.index as usize {
        Some(Advice::NoArgument(tested.place, tested.at, number))
    } else {
        None
    }
}

/// Adds the advice, if there is some.
pub(crate) fn add(found: &mut Vec<Advice>, one: Option<Advice>) -> Result<(), AllocError>
    ensures { IfOk result (λ _. found.new.items ≡ found.old.items ++ option_to_list one) }
{
    if let Some(one) = one {
        found.push(one)?;
    }
    Ok(())
}

/// Adds the advice, if this is so.
fn add_when(found: &mut Vec<Advice>, is: bool, one: Advice) -> Result<(), AllocError>
    ensures { IfOk result (λ _. found.new.items ≡ found.old.items ++ when is one) }
{
    if is {
        found.push(one)?;
    }
    Ok(())
}

fn add_lacking(found: &mut Vec<Advice>, tested: Tested<'_>) -> Result<(), AllocError>
    ensures { IfOk result (λ _. found.new.items ≡ found.old.items ++ filter_map
        (lacking tested.entry.place tested.entry.at tested.entry.cond) tested.entry.entry.now.numbers) }
{
    for number in tested.entry.numbers.as_slice() {
        add(found, lacking(tested, *number))?;
    }
    Ok(())
}

fn add_wide(found: &mut Vec<Advice>, tested: Tested<'_>) -> Result<(), AllocError>
    ensures { IfOk result (λ _. found.new.items ≡ found.old.items ++ filter_map
        (wide_at tested.entry.profile.now tested.entry.place tested.entry.entry.now.conds tested.entry.at
        tested.entry.cond) tested.entry.entry.now.numbers) }
{
    for number in tested.entry.numbers.as_slice() {
        add(found, wide_at(tested, *number))?;
    }
    Ok(())
}

/// The advice about a condition of the entry at this place.
fn about_cond(alloc: Global, tested: Tested<'_>) -> Result<Vec<Advice>, AllocError>
    ensures { IfOk result (λ v. v.items ≡ about_cond tested.entry.profile.now tested.entry.place
        tested.entry.entry.now (tested.entry.at, tested.entry.cond)) }
{
    let (place, at, cond) = (tested.place, tested.at, tested.cond);
    let mut found = Vec::new(alloc);
    let holds = always(cond.op, cond.value, cond.value_two);
    add_when(&mut found, holds, Advice::AlwaysHolds(place, at))?;
    add_when(&mut found, is_unused(&cond), Advice::UnusedValue(place, at))?;
    add_lacking(&mut found, tested)?;
    add_wide(&mut found, tested)?;
    Ok(found)
}

/// The advice about the conditions of the entry at this place.
pub(crate) fn about_conds(
    alloc: Global,
    profile: &Profile,
    place: usize,
    entry: &Entry,
) -> Result<Vec<Advice>, AllocError>
    ensures { IfOk result (λ v. v.items ≡ about_conds profile.now place entry.now) }
{
    let mut found = Vec::new(alloc);
    for (at, cond) in entry.conds.as_slice().iter().enumerate() {
        let tested = Tested {
            profile,
            place,
            entry,
            at,
            cond: *cond,
        };
        let more = about_cond(alloc, tested)?;
        found.extend_from_slice(more.as_slice())?;
    }
    Ok(found)
}
