ghost use Rattle.std.specs.Prelude.{◌≡◌, ◌≤◌, ◌<◌, ◌+◌, ◌*◌, ◌&&◌, ◌||◌, ◌==◌, ◌%◌, ◌^◌, ℕ, All, IfOk, OnOk};
ghost use Rattle.std.specs.Prelude.{IsTrue, length, not, true, false, bit_and, if◌then◌else◌, slice_index};
ghost use Rattle.std.specs.Prelude.{[]};
ghost use Rattle.std.specs.Bool.{OnFalse};
ghost use Rattle.compile.specs.Common.{SysCall, IsCall, all_hold, decision_of, names, clause_holds};
ghost use Rattle.compile.specs.Common.{clauses_hold, first_value, literal_holds, IsFit, IsPossible, IsSmall};
ghost use Rattle.compile.specs.Common.{IsSmallClause, size_of_rules, added_of, conditions_at, Decision};
ghost use Rattle.compile.specs.Common.{value_of, Says, is_large, ordered, all_of, holds_on};

use crate::clause::{Clause, Literal, Rule, high, low, words};
use oci_profile::{Cond, Entry, Op};
use std::alloc::{AllocError, Global};

/// Nothing, unless memory runs out.
type Added = Result<(), AllocError>;

/// Adds a clause, unless it always holds.
fn add(clauses: &mut Vec<Clause>, clause: Clause) -> Added
    ensures { OnOk result ((n : ℕ) → IsSmallClause n clause
        → Says clauses.old.items clauses.new.items (λ call. clause_holds clause call) n) }
{
    if !clause.is_true() {
        clauses.push(clause)?;
    }
    Ok(())
}

/// Adds the clauses that both literals hold.
fn add_both(clauses: &mut Vec<Clause>, one: Literal, other: Literal) -> Added
    ensures { OnOk result ((n : ℕ) → IsSmall n one → IsSmall n other
        → Says clauses.old.items clauses.new.items
        (λ call. literal_holds one call && literal_holds other call) (n + n)) }
{
    add(clauses, Clause::of(one))?;
    add(clauses, Clause::of(other))
}

/// Adds the clause that one of the literals holds.
fn add_either(clauses: &mut Vec<Clause>, one: Literal, other: Literal) -> Added
    ensures { OnOk result ((n : ℕ) → IsSmall n one → IsSmall n other
        → Says clauses.old.items clauses.new.items
        (λ call. literal_holds one call || literal_holds other call) (n + n)) }
{
    add(clauses, Clause::either(one, other))
}

/// Adds the clauses that an argument is large: its upper half is large enough (`from`), and either exceeds
/// the bound (`above`) or its lower half is large too.
fn add_large(clauses: &mut Vec<Clause>, from: Literal, above: Literal, lower: Literal) -> Added
    ensures { OnOk result (IsSmall 2 from → IsSmall 2 above → IsSmall 2 lower
        → Says clauses.old.items clauses.new.items
        (λ call. literal_holds from call && (literal_holds above call || literal_holds lower call)) 6) }
{
    add(clauses, Clause::of(from))?;
    add_either(clauses, above, lower)
}

/// Adds the clauses that an argument is not large.
fn add_small(clauses: &mut Vec<Clause>, from: Literal, above: Literal, lower: Literal) -> Added
    ensures { OnOk result (IsSmall 2 from → IsSmall 2 above → IsSmall 2 lower
        → ((call : SysCall) → IsCall call → literal_holds above call ≡ true → literal_holds from call ≡ true)
        → Says clauses.old.items clauses.new.items (λ call. not
        (literal_holds from call && (literal_holds above call || literal_holds lower call))) 6) }
{
    if lower.is_known(true) {
        return add(clauses, Clause::of(from.opposite()));
    }
    add(clauses, Clause::of(above.opposite()))?;
    add_either(clauses, from.opposite(), lower.opposite())
}

/// Asks whether the lower half of an argument is large.
fn lower_half(index: u32, value: u64, includes: bool) -> Literal
    requires { index < 6 }
    ensures holds { (call : SysCall) → IsCall call → literal_holds result call
        ≡ is_large includes (value % 2 ^ 32) (slice_index call.args index % 2 ^ 32) }
    ensures small { IsSmall 2 result }
{
    words();
    if includes {
        Literal::from(16 + 8 * index, low(value))
    } else {
        Literal::above(16 + 8 * index, low(value))
    }
}

/// Adds a comparison of an argument: with `includes` the bound itself is large, and without `is_large` the
/// argument must not be.
pub(crate) fn add_order(
    clauses: &mut Vec<Clause>,
    index: u32,
    value: u64,
    includes: bool,
    is_large: bool,
) -> Added
    requires { index < 6 }
    ensures { OnOk result (Says clauses.old.items clauses.new.items
        (λ call. ordered includes is_large value (slice_index call.args index)) 6) }
{
    words();
    let from = Literal::from(20 + 8 * index, high(value));
    let above = Literal::above(20 + 8 * index, high(value));
    let lower = lower_half(index, value, includes);
    if is_large {
        add_large(clauses, from, above, lower)
    } else {
        add_small(clauses, from, above, lower)
    }
}

/// Adds the clauses that a condition holds.
fn add_cond(clauses: &mut Vec<Clause>, cond: &Cond) -> Added
    requires { cond.now.index < 6 }
    ensures { OnOk result (Says clauses.old.items clauses.new.items (λ call. holds_on cond.now call) 6) }
{
    let index = u32::from(cond.index);
    let value = cond.value;
    match cond.op {
        Op::Equal => add_equal(clauses, index, value),
        Op::NotEqual => add_unequal(clauses, index, value),
        Op::GreaterOrEqual => add_order(clauses, index, value, true, true),
        Op::Greater => add_order(clauses, index, value, false, true),
        Op::Less => add_order(clauses, index, value, true, false),
        Op::LessOrEqual => add_order(clauses, index, value, false, false),
        Op::MaskedEqual => add_masked(clauses, index, value, cond.value_two),
    }
}

/// Adds the clauses that an argument equals a number.
pub(crate) fn add_equal(clauses: &mut Vec<Clause>, index: u32, value: u64) -> Added
    requires { index < 6 }
    ensures { OnOk result (Says clauses.old.items clauses.new.items
        (λ call. slice_index call.args index == value) 4) }
{
    words();
    let lower = Literal::equal(16 + 8 * index, low(value));
    let upper = Literal::equal(20 + 8 * index, high(value));
    add_both(clauses, lower, upper)
}

fn add_unequal(clauses: &mut Vec<Clause>, index: u32, value: u64) -> Added
    requires { index < 6 }
    ensures { OnOk result (Says clauses.old.items clauses.new.items
        (λ call. not (slice_index call.args index == value)) 6) }
{
    words();
    let lower = Literal::equal(16 + 8 * index, low(value)).opposite();
    let upper = Literal::equal(20 + 8 * index, high(value)).opposite();
    add_either(clauses, lower, upper)
}

fn add_masked(clauses: &mut Vec<Clause>, index: u32, mask: u64, with: u64) -> Added
    requires { index < 6 }
    ensures { OnOk result (Says clauses.old.items clauses.new.items
        (λ call. bit_and (slice_index call.args index) mask == with) 6) }
{
    words();
    let lower = Literal::masked(16 + 8 * index, low(mask), low(with));
    let upper = Literal::masked(20 + 8 * index, high(mask), high(with));
    add_both(clauses, lower, upper)
}

/// The clauses of conditions.
fn clauses_of(alloc: Global, conds: &[Cond]) -> Result<Vec<Clause>, AllocError>
    requires { All (λ cond. cond.index < 6) conds.now }
    ensures { IfOk result (λ clauses. Says [] clauses.items (λ call. all_of conds.now call)
        (6 * length conds.now)) }
{
    let mut clauses = Vec::new(alloc);
    for cond in conds {
        add_cond(&mut clauses, cond)?;
    }
    Ok(clauses)
}

/// Whether one of the clauses is known to fail.
pub(crate) fn is_void(clauses: &[Clause]) -> bool
    ensures yes { IsTrue result → (call : SysCall) → clauses_hold clauses.now call ≡ false }
    ensures no { OnFalse result (All IsPossible clauses.now) }
{
    for clause in clauses {
        if clause.is_false() {
            return true;
        }
    }
    false
}

/// Whether one of the rules has exactly these clauses, so that a later rule with them is never reached.
fn is_hidden(rules: &[Rule], clauses: &[Clause]) -> bool
    ensures { IsTrue result → (call : SysCall) (one other : ℕ) → clauses_hold clauses.now call ≡ true
        → first_value rules.now one call ≡ first_value rules.now other call }
{
    for rule in rules {
        if rule.clauses.as_slice() == clauses {
            return true;
        }
    }
    false
}

/// Adds an entry as a rule if it names the number, unless it decides nothing: its conditions never hold, or
/// an earlier entry has the same ones.
fn add_named(rules: &mut Vec<Rule>, alloc: Global, entry: &Entry, nr: u32) -> Added
    ensures holds { OnOk result ((call : SysCall) (other : ℕ) → IsCall call
        → first_value rules.new.items other call ≡ first_value rules.old.items
        (if names entry.now nr && all_hold entry.now call then value_of entry.now.decision else other) call) }
    ensures size { OnOk result (size_of_rules rules.new.items ≤ size_of_rules rules.old.items
        + 6 * (if names entry.now nr then length entry.now.conds else 0)) }
    ensures many { OnOk result (length rules.new.items ≤ length rules.old.items
        + (if names entry.now nr then 1 else 0)) }
    ensures fit { All IsFit rules.old.items → OnOk result (All IsFit rules.new.items) }
{
    if !entry.names(nr) {
        return Ok(());
    }
    let clauses = clauses_of(alloc, entry.conds.as_slice())?;
    if is_void(clauses.as_slice()) {
        return Ok(());
    }
    if is_hidden(rules.as_slice(), clauses.as_slice()) {
        return Ok(());
    }
    rules.push(Rule {
        clauses,
        value: entry.decision.value(),
    })?;
    Ok(())
}

/// The entries that name a number, as rules.
pub(crate) fn rules_of(alloc: Global, entries: &[Entry], nr: u32) -> Result<Vec<Rule>, AllocError>
    ensures same { IfOk result (λ rules. (call : SysCall) (last : Decision) → IsCall call
        → first_value rules.items (value_of last) call ≡ value_of (decision_of entries.now last nr call)) }
    ensures size { IfOk result (λ rules. size_of_rules rules.items ≤ 6 * conditions_at entries.now nr) }
    ensures added { IfOk result (λ rules. size_of_rules rules.items + length rules.items
        ≤ added_of entries.now nr) }
    ensures fit { IfOk result (λ rules. All IsFit rules.items) }
{
    let mut rules = Vec::new(alloc);
    for entry in entries {
        add_named(&mut rules, alloc, entry, nr)?;
    }
    Ok(rules)
}
