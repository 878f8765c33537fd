ghost use Rattle.std.specs.Prelude.{◌≡◌, ◌<◌, ℕ, length, IfSome, ◌+◌};
ghost use Rattle.compile.specs.Common.{SysCall, first_value};

use crate::atom::NOWHERE;
use crate::choose::{alike, best};
use crate::clause::{Clause, Literal, Rule};

/// The arguments that a literal asks about, one bit each.
fn argument(literal: &Literal) -> u32 {
    match *literal {
        Literal::Asked(atom, _) if atom.view.offset < 64 => 1 << (atom.view.offset / 8),
        _ => 0,
    }
}

/// The arguments that a clause asks about, one bit each.
pub(crate) fn asked_by(clause: &Clause) -> u32 {
    argument(&clause.one) | argument(&clause.other)
}

/// The arguments that a rule asks about, one bit each.
pub(crate) fn arguments(rule: &Rule) -> u32 {
    let mut found = 0;
    for clause in rule.clauses.as_slice() {
        found |= asked_by(clause);
    }
    found
}

/// The arguments that any of the rules asks about, one bit each.
fn all_arguments(rules: &[Rule]) -> u32 {
    let mut found = 0;
    for rule in rules {
        found |= arguments(rule);
    }
    found
}

/// Whether the rules ask about more than one argument.
pub(crate) fn ask_several(rules: &[Rule]) -> bool {
    all_arguments(rules).count_ones() > 1
}

/// Up to this many rules part only where the rules before and after share no argument. More rules part where
/// the next one asks about none of the arguments that all rules before it share.
const FEW: usize = 5;

/// Whether the rules part at a place, given the arguments that all rules since the last parting share.
fn part_at(rules: &[Rule], at: usize, shared: u32) -> bool
    requires { at < length rules.now }
{
    if rules.len() > FEW {
        return shared & arguments(&rules[at]) == 0;
    }
    all_arguments(&rules[..at]) & all_arguments(&rules[at..]) == 0
}

/// The place near the middle where the rules part by their arguments.
pub(crate) fn boundary(rules: &[Rule]) -> Option<usize>
    ensures { IfSome result (λ at. (0 < at) × (at < length rules.now)) }
{
    let first = rules.first()?;
    let mut found = None;
    let mut shared = arguments(first);
    for at in 1..rules.len() {
        let asked = arguments(&rules[at]);
        if !part_at(rules, at, shared) {
            shared &= asked;
        } else if found.is_some() && at > rules.len() / 2 {
            return found;
        } else {
            found = Some(at);
            shared = asked;
        }
    }
    found
}

/// The value that the rules return on every call, if the first rules all return it and one of these always
/// holds.
pub(crate) fn certain(rules: &[Rule]) -> Option<u32>
    ensures { IfSome result (λ value. (call : SysCall) (other : ℕ)
        → first_value rules.now other call ≡ value) }
{
    let value = rules.first()?.value;
    for rule in rules {
        if rule.value != value {
            return None;
        }
        if rule.clauses.as_slice().is_empty() {
            return Some(value);
        }
    }
    None
}

/// The arguments that the first clause of a rule asks about, one bit each.
pub(crate) fn first_argument(rule: &Rule) -> u32 {
    match rule.clauses.as_slice().first() {
        Some(clause) => asked_by(clause),
        None => 0,
    }
}

/// Exchanges a rule and the next one if they return the same value. Then it does not matter which of them
/// holds.
fn exchange(rules: &mut [Rule], at: usize)
    requires { at + 1 < length rules.old }
    ensures same { (call : SysCall) (other : ℕ) → first_value rules.new other call
        ≡ first_value rules.old other call }
    ensures long { length rules.new ≡ length rules.old }
{
    if rules[at].value == rules[at + 1].value {
        rules.swap(at, at + 1);
    }
}

/// Moves a rule to an earlier place, past rules that return the same value.
fn bring(rules: &mut [Rule], from: usize, to: usize)
    requires { from < length rules.old }
    ensures same { (call : SysCall) (other : ℕ) → first_value rules.new other call
        ≡ first_value rules.old other call }
    ensures long { length rules.new ≡ length rules.old }
{
    let mut at = from;
    while at > to {
        at -= 1;
        exchange(rules, at);
    }
}

/// The place of the rule that comes next, among those from `at` on that return the same value: the first that
/// asks about one of these arguments, else the best one to try first.
fn next(rules: &[Rule], at: usize, asked: u32) -> usize
    requires { at < length rules.now }
    ensures { result < length rules.now }
{
    let rest = &rules[at..];
    let many = alike(rest);
    for place in 0..many {
        if arguments(&rest[place]) & asked != 0 {
            return at + place;
        }
    }
    at + best(&rest[..many], NOWHERE)
}

/// Orders rules for fewer steps: rules about one argument side by side, and those that hold most often first.
/// Only neighbours that return the same value are exchanged.
fn order(rules: &mut [Rule])
    ensures same { (call : SysCall) (other : ℕ) → first_value rules.new other call
        ≡ first_value rules.old other call }
    ensures long { length rules.new ≡ length rules.old }
{
    let mut asked = 0;
    for at in 0..rules.len() {
        let next = next(rules, at, asked);
        if arguments(&rules[next]) & asked == 0 {
            asked = first_argument(&rules[next]);
        }
        bring(rules, next, at);
    }
}

/// The rules in the order of [`order`].
pub(crate) fn ordered(mut rules: Vec<Rule>) -> Vec<Rule>
    ensures { (call : SysCall) (other : ℕ) → first_value result.items other call
        ≡ first_value rules.items other call }
{
    order(rules.as_mut_slice());
    rules
}
