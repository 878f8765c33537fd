ghost use Rattle.std.specs.Prelude.{◌≡◌, ◌≢◌, ◌≤◌, ◌<◌, ◌+◌, ◌-◌, ◌*◌, ◌%◌, ◌==◌, ℕ, All, IfOk, OnOk, drop};
ghost use Rattle.std.specs.Prelude.{false, true, if◌then◌else◌, length};
ghost use Rattle.compile.specs.Common.{Builds, IsRecent, DATA_LEN, SysCall, GivesAlways, atom_holds};
ghost use Rattle.compile.specs.Common.{clause_holds, clauses_hold, first_value, literal_holds, IsFit};
ghost use Rattle.compile.specs.Common.{IsPossible, size_of_rules, WHOLE, Literal, REACH, RECENT, IsWithin};
ghost use Rattle.compile.specs.Common.{IsWithinLiteral, size_of_clause, size_of_clauses, size_of_literal};

use crate::atom::{Atom, WHOLE};
use crate::clause::{Clause, Literal, Rule};
use crate::code::{Code, Placed, REACH, RECENT};
use std::alloc::AllocError;

/// Puts a question in front, for anything in A.
fn ask(code: &mut Code, atom: &Atom, hit: usize, miss: usize) -> Placed
    requires known { atom.now.view.offset < DATA_LEN }
    requires aligned { atom.now.view.offset % 4 ≡ 0 }
    requires hit_inside { hit < length code.old }
    requires miss_inside { miss < length code.old }
    requires hit_near { length code.old ≤ hit + 1 + REACH }
    requires miss_near { length code.old ≤ miss + 1 + REACH }
    ensures gives { OnOk result ((call : SysCall) (value most : ℕ)
        → GivesAlways code.old call (if atom_holds atom.now call then hit else miss) value most
        → GivesAlways code.new call (length code.new - 1) value
        (most + (if atom.now.view.mask == WHOLE then 2 else 3))) }
    ensures at { IfOk result (λ at. at + 1 ≡ length code.new) }
    ensures longer { OnOk result (length code.new
        ≡ length code.old + (if atom.now.view.mask == WHOLE then 2 else 3)) }
    ensures builds { Builds code.old code.new }
{
    let (test, k) = atom.ask.test();
    code.jump(test, k, hit, miss)?;
    if atom.view.mask == WHOLE {
        return code.load(atom.view.offset);
    }
    code.mask(atom.view.mask)?;
    code.load(atom.view.offset)
}

/// Puts the test of a literal in front, for anything in A.
fn test_literal(code: &mut Code, literal: &Literal, hit: usize, miss: usize) -> Placed
    requires within { IsWithinLiteral literal.now }
    requires hit_inside { hit < length code.old }
    requires miss_inside { miss < length code.old }
    requires hit_near { length code.old ≤ hit + 1 + REACH }
    requires miss_near { length code.old ≤ miss + 1 + REACH }
    ensures gives { IfOk result (λ at. (call : SysCall) (value most : ℕ)
        → GivesAlways code.old call (if literal_holds literal.now call then hit else miss) value most
        → GivesAlways code.new call at value (most + size_of_literal literal.now)) }
    ensures inside { IfOk result (λ at. at < length code.new) }
    ensures front { IfOk result (λ at. literal.now ≢ Literal.Known false → literal.now ≢ Literal.Known true
        → at + 1 ≡ length code.new) }
    ensures recent { IfOk result (λ at. literal.now ≢ Literal.Known false → length code.old ≤ hit + RECENT
        → length code.new ≤ at + RECENT) }

    // A branch in front of `more` instructions still reaches it.
    ensures near { IfOk result (λ at. (more : ℕ)
        → length code.old + size_of_literal literal.now + more ≤ hit + 1 + REACH
        → length code.old + size_of_literal literal.now + more ≤ miss + 1 + REACH
        → length code.new + more ≤ at + 1 + REACH) }
    ensures longer { OnOk result (length code.new ≤ length code.old + size_of_literal literal.now) }
    ensures builds { Builds code.old code.new }
{
    match *literal {
        Literal::Known(holds) => {
            if holds {
                return Ok(hit);
            }
            Ok(miss)
        }
        Literal::Asked(atom, wanted) => {
            if wanted {
                return ask(code, &atom, hit, miss);
            }
            ask(code, &atom, miss, hit)
        }
    }
}

/// Puts the tests of a clause in front, for anything in A.
fn test_clause(code: &mut Code, clause: &Clause, hit: usize, miss: usize) -> Placed
    requires within { IsWithin clause.now }
    requires possible { IsPossible clause.now }
    requires hit_inside { hit < length code.old }
    requires miss_inside { miss < length code.old }
    requires hit_recent { length code.old ≤ hit + RECENT }
    requires miss_near { length code.old + size_of_clause clause.now ≤ miss + 1 + REACH }
    ensures gives { IfOk result (λ at. (call : SysCall) (value most : ℕ)
        → GivesAlways code.old call (if clause_holds clause.now call then hit else miss) value most
        → GivesAlways code.new call at value (most + size_of_clause clause.now)) }
    ensures recent { IfOk result (IsRecent code.new) }
    ensures longer { OnOk result (length code.new ≤ length code.old + size_of_clause clause.now) }
    ensures builds { Builds code.old code.new }
{
    if clause.one.is_known(true) {
        return Ok(hit);
    }
    if clause.one.is_known(false) {
        return test_literal(code, &clause.other, hit, miss);
    }
    let rest = test_literal(code, &clause.other, hit, miss)?;
    test_literal(code, &clause.one, hit, rest)
}

/// Puts the tests of the clauses from this one on in front, the last one first. None of them is known to
/// fail, so the place is recent.
pub(crate) fn test_clauses(
    code: &mut Code,
    clauses: &[Clause],
    from: usize,
    hit: usize,
    miss: usize,
) -> Placed
    requires within { All IsWithin clauses.now }
    requires possible { All IsPossible clauses.now }
    requires from_in { from ≤ length clauses.now }
    requires hit_inside { hit < length code.old }
    requires miss_inside { miss < length code.old }
    requires hit_recent { length code.old ≤ hit + RECENT }
    requires miss_near { length code.old + size_of_clauses clauses.now ≤ miss + 1 + REACH }
    ensures gives { IfOk result (λ at. (call : SysCall) (value most : ℕ)
        → GivesAlways code.old call (if clauses_hold (drop from clauses.now) call then hit
        else miss) value most
        → GivesAlways code.new call at value (most + size_of_clauses (drop from clauses.now))) }
    ensures recent { IfOk result (IsRecent code.new) }
    ensures longer { OnOk result (length code.new
        ≤ length code.old + size_of_clauses (drop from clauses.now)) }
    ensures builds { Builds code.old code.new }
{
    if from == clauses.len() {
        return Ok(hit);
    }
    let rest = test_clauses(code, clauses, from + 1, hit, miss)?;
    test_clause(code, &clauses[from], rest, miss)
}

/// Puts the rules from this one on in front of the code after them, one after another, the last one first.
pub(crate) fn plain(code: &mut Code, rules: &[Rule], from: usize, last: usize) -> Placed
    requires fit { All IsFit rules.now }
    requires from_in { from ≤ length rules.now }
    requires inside { last < length code.old }
    requires recent { length code.old ≤ last + RECENT }
    ensures gives { IfOk result (λ at. (call : SysCall) (other most : ℕ) → 0 < most
        → GivesAlways code.old call last other most
        → GivesAlways code.new call at (first_value (drop from rules.now) other call)
        (most + size_of_rules (drop from rules.now))) }
    ensures recent { IfOk result (IsRecent code.new) }
    ensures longer { OnOk result (length code.new
        ≤ length code.old + (size_of_rules (drop from rules.now) + (length rules.now - from))) }
    ensures builds { Builds code.old code.new }
{
    if from == rules.len() {
        return Ok(last);
    }
    let rest = plain(code, rules, from + 1, last)?;
    let rule = &rules[from];
    let hit = code.value(rule.value)?;
    test_clauses(code, rule.clauses.as_slice(), 0, hit, rest)
}
