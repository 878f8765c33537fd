ghost use Rattle.std.specs.Prelude.{◌+◌, IfNone, IfOk, IfSome};
ghost use Rattle.std.specs.List.{All};
ghost use Rattle.call_data.specs.declared.sys_call.SysCall.{SysCall};
ghost use Rattle.call_data.specs.CallData.{IsCall};
ghost use Rattle.bpf_compare.specs.Agree.{Agree, IsOf, scope_of};
ghost use Rattle.bpf_compare.specs.declared.scope.Scope.TheVariants.{NativeCalls};
ghost use Rattle.filter_differences.specs.Differences.{Ascend, IsBelow, IsFoundOf, IsFoundOn, IsOfPart};
ghost use Rattle.filter_differences.specs.Differences.{IsTrue, Misses};
ghost use Rattle.filter_differences.specs.Parts.{IsPart, calls_of, first_of, last_of};

use crate::finding::{Finding, Found};
use crate::part::{Part, last_from};
use bpf_compare::{Calls, Comparison, Watch, compare_watched};
use bpf_verify::Filter;
use std::alloc::{AllocError, Global};
use sys_table::CallTable;

/// Compares two filters on these calls, part by part, following at most `budget` instructions for each part.
/// The known calls decide which parts there are. Returns what was found about each part on which the filters were
/// not found to be the same. Somebody may watch.
pub fn differences<W: Watch>(
    alloc: Global,
    known: CallTable,
    first: &Filter,
    second: &Filter,
    calls: Calls,
    budget: u64,
    watch: &mut W,
) -> Result<Vec<Finding>, AllocError>
    // On a call that is in no reported part both filters return the same.
    ensures complete { IfOk result (λ found. (call : SysCall) → IsOf (scope_of calls) call
        → All (Misses known call) found.items → Agree first.now second.now call) }

    // A reported difference is one.
    ensures real { IfOk result (λ found. All (IsTrue first.now second.now) found.items) }

    // It is on a call of its part, and a number that has a name is a part of its own.
    ensures parts { IfOk result (λ found. All (IsOfPart known) found.items) }

    // No call is in two reported parts.
    ensures in_order { IfOk result (λ found. Ascend found.items) }
{
    match calls {
        Calls::Native => native_differences(alloc, known, first, second, budget, watch),
        Calls::Every => every_difference(alloc, known, first, second, budget, watch),
    }
}

/// The same for every call.
fn every_difference<W: Watch>(
    alloc: Global,
    known: CallTable,
    first: &Filter,
    second: &Filter,
    budget: u64,
    watch: &mut W,
) -> Result<Vec<Finding>, AllocError>
    ensures complete { IfOk result (λ found. (call : SysCall) → IsCall call
        → All (Misses known call) found.items → Agree first.now second.now call) }
    ensures real { IfOk result (λ found. All (IsTrue first.now second.now) found.items) }
    ensures parts { IfOk result (λ found. All (IsOfPart known) found.items) }
    ensures in_order { IfOk result (λ found. Ascend found.items) }
{
    let mut found = native_differences(alloc, known, first, second, budget, watch)?;
    add(
        alloc,
        known,
        &mut found,
        first,
        second,
        Part::X32,
        budget,
        watch,
    )?;
    add(
        alloc,
        known,
        &mut found,
        first,
        second,
        Part::OtherArchitectures,
        budget,
        watch,
    )?;
    Ok(found)
}

/// The same for the native calls.
fn native_differences<W: Watch>(
    alloc: Global,
    known: CallTable,
    first: &Filter,
    second: &Filter,
    budget: u64,
    watch: &mut W,
) -> Result<Vec<Finding>, AllocError>
    ensures complete { IfOk result (λ found. (call : SysCall) → IsOf NativeCalls call
        → All (Misses known call) found.items → Agree first.now second.now call) }
    ensures real { IfOk result (λ found. All (IsTrue first.now second.now) found.items) }
    ensures parts { IfOk result (λ found. All (IsOfPart known) found.items) }
    ensures in_order { IfOk result (λ found. Ascend found.items) }
    ensures below { IfOk result (λ found. All (IsBelow 0x40000000) found.items) }
{
    let mut found = Vec::new(alloc);
    let mut next = 0;
    for nr in 0..known.limit() {
        if nr < next {
            continue;
        }
        let last = last_from(known, nr);
        add(
            alloc,
            known,
            &mut found,
            first,
            second,
            Part::Numbers(nr, last),
            budget,
            watch,
        )?;
        next = last + 1;
    }
    add(
        alloc,
        known,
        &mut found,
        first,
        second,
        Part::Later,
        budget,
        watch,
    )?;
    Ok(found)
}

/// Adds what is found about a part that comes after those of the findings.
fn add<W: Watch>(
    alloc: Global,
    known: CallTable,
    found: &mut Vec<Finding>,
    first: &Filter,
    second: &Filter,
    part: Part,
    budget: u64,
    watch: &mut W,
) -> Result<(), AllocError>
    requires is { IsPart known part }
    requires real { All (IsTrue first.now second.now) found.old.items }
    requires parts { All (IsOfPart known) found.old.items }
    requires in_order { Ascend found.old.items }
    requires below { All (IsBelow (first_of part)) found.old.items }
    ensures complete { IfOk result (λ _. (call : SysCall) → IsOf (calls_of known part) call
        → All (Misses known call) found.new.items → Agree first.now second.now call) }
    ensures kept { IfOk result (λ _. (call : SysCall) → All (Misses known call) found.new.items
        → All (Misses known call) found.old.items) }
    ensures real { IfOk result (λ _. All (IsTrue first.now second.now) found.new.items) }
    ensures parts { IfOk result (λ _. All (IsOfPart known) found.new.items) }
    ensures in_order { IfOk result (λ _. Ascend found.new.items) }
    ensures below { IfOk result (λ _. All (IsBelow (last_of part + 1)) found.new.items) }
{
    if let Some(one) = found_on(alloc, known, first, second, part, budget, watch)? {
        found.push(Finding { part, found: one })?;
    }
    Ok(())
}

/// What is found about a part, unless both filters return the same on all its calls.
fn found_on<W: Watch>(
    alloc: Global,
    known: CallTable,
    first: &Filter,
    second: &Filter,
    part: Part,
    budget: u64,
    watch: &mut W,
) -> Result<Option<Found>, AllocError>
    ensures none { IfOk result (λ found. IfNone found
        ((call : SysCall) → IsOf (calls_of known part) call → Agree first.now second.now call)) }
    ensures real { IfOk result (λ found. IfSome found (IsFoundOf first.now second.now)) }
    ensures on { IfOk result (λ found. IfSome found (IsFoundOn known part)) }
{
    let scope = part.scope(known);
    Ok(
        match compare_watched(alloc, first, second, scope, budget, watch)? {
            Comparison::Same => None,
            Comparison::Differs(call, one, other) => Some(Found::Differs(call, one, other)),
            Comparison::Undecided(doubt) => Some(Found::Undecided(doubt)),
        },
    )
}
