ghost use Rattle.std.specs.Prelude.{◌≤◌, ◌<◌, length};

use crate::apart::{ask_several, asked_by, first_argument};
use crate::atom::{Ask, Atom, NOWHERE, View, WHOLE};
use crate::build::cost;
use crate::clause::{Clause, Literal, Rule};
use std::alloc::{AllocError, Global};

/// If a word is compared with this many numbers, the middle one splits them.
const MANY: usize = 4;
/// The same for a word that must be loaded, if the rules ask about several arguments.
const MANY_BESIDE_OTHERS: usize = 3;

/// Up to this many rules are few: more mostly share an argument that they do not ask about first.
pub(crate) const FEW: usize = 4;
/// How much the argument counts that a rule asks about first.
const WRITTEN_FIRST: u64 = 3;

/// The question for rules that ask nothing.
const ANY: Atom = Atom {
    view: NOWHERE,
    ask: Ask::Equal(0),
};

/// Odds worse than any other.
const WORST: Odds = Odds { share: 0, steps: 1 };

/// The number of rules at the front that return the same value. It does not matter which of them holds.
pub(crate) fn alike(rules: &[Rule]) -> usize
    ensures inside { result ≤ length rules.now }
    ensures some { 0 < length rules.now → 0 < result }
{
    let mut end = 0;
    while end < rules.len() && rules[end].value == rules[0].value {
        end += 1;
    }
    end
}

/// The place of the best rule to try first.
pub(crate) fn best(rules: &[Rule], view: View) -> usize
    ensures { 0 < length rules.now → result < length rules.now }
{
    let mut best = 0;
    let mut odds = WORST;
    for (at, rule) in rules.iter().enumerate() {
        let it = rule_odds(rule, view);
        if is_better(&it, &odds) {
            best = at;
            odds = it;
        }
    }
    best
}

/// How many of the rules need this literal to hold.
fn needing(rules: &[Rule], literal: &Literal) -> u64 {
    let mut many: u64 = 0;
    for rule in rules {
        for clause in rule.clauses.as_slice() {
            if clause.is_alone() && clause.one == *literal {
                many = many.saturating_add(1);
            }
        }
    }
    many
}

/// Whether a clause asks about a lower half first.
fn asks_lower(clause: &Clause) -> bool {
    matches!(clause.one, Literal::Asked(atom, _) if atom.view.offset.is_multiple_of(8))
}

/// How much a failure of a clause of a rule counts. If all rules return the same value, the argument that the
/// rule asks about first counts more, and so does a lower half if there are several rules, since the others
/// mostly ask about it too. Otherwise a clause counts for each rule that needs it, and by the square if few
/// rules ask about several arguments, since it is then asked once for all of them.
fn importance(clause: &Clause, rule: &Rule, rules: &[Rule], is_alike: bool) -> u64 {
    let are_few = rules.len() <= FEW;
    if is_alike {
        let is_first = are_few && asked_by(clause) & first_argument(rule) != 0;
        let is_shared = rules.len() > 1 && asks_lower(clause);
        let half = if is_shared { 3 } else { 2 };
        return if is_first { WRITTEN_FIRST * half } else { half };
    }
    if !clause.is_alone() {
        return 1;
    }
    let many = needing(rules, &clause.one);
    if are_few && ask_several(rules) {
        return many.saturating_mul(many);
    }
    many
}

/// The best clause of a rule to try first: the one whose failures count most for the steps it takes.
fn first_clause(rule: &Rule, rules: &[Rule], is_alike: bool, view: View) -> Option<Clause> {
    let mut best = rule.clauses.as_slice().first().copied();
    let mut odds = WORST;
    for clause in rule.clauses.as_slice() {
        let Odds { share, steps } = clause_odds(clause, view);
        let it = Odds {
            share: rest(share).saturating_mul(importance(clause, rule, rules, is_alike)),
            steps,
        };
        if is_better(&it, &odds) {
            best = Some(*clause);
            odds = it;
        }
    }
    best
}

/// The best literal of a clause to try first.
fn first_literal(clause: &Clause, view: View) -> Literal {
    let one = literal_odds(&clause.one, view);
    let other = literal_odds(&clause.other, view);
    if is_better(&other, &one) {
        clause.other
    } else {
        clause.one
    }
}

/// Adds the number that a literal compares a view with.
fn add(numbers: &mut Vec<u32>, literal: &Literal, view: View) -> Result<(), AllocError> {
    match *literal {
        Literal::Asked(atom, _) if atom.view == view => match atom.ask {
            Ask::Equal(k) | Ask::AtLeast(k) => numbers.push(k)?,
        },
        _ => {}
    }
    Ok(())
}

/// The best literal to try first.
fn first_of(rules: &[Rule], view: View) -> Option<Literal> {
    let prefix = &rules[..alike(rules)];
    let rule = prefix.get(best(prefix, view))?;
    let clause = first_clause(rule, rules, prefix.len() == rules.len(), view)?;
    Some(first_literal(&clause, view))
}

/// The next question, given the view in A. Any question is right; this one should lead to few steps and
/// little code.
pub(crate) fn choose(alloc: Global, rules: &[Rule], view: View) -> Result<Atom, AllocError> {
    match first_of(rules, view) {
        Some(Literal::Asked(best, false)) if matches!(best.ask, Ask::Equal(_)) => Ok(best),
        Some(Literal::Asked(best, _)) => {
            let many = if ask_several(rules) && !best.view.is(view) {
                MANY_BESIDE_OTHERS
            } else {
                MANY
            };
            parted(alloc, rules, best, many)
        }
        _ => Ok(ANY),
    }
}

/// A question about the best one's view: whether it is at least the middle one of this many numbers, and of
/// fewer the best question, asked for the smallest number.
fn parted(alloc: Global, rules: &[Rule], best: Atom, many: usize) -> Result<Atom, AllocError> {
    let view = best.view;
    let mut numbers = Vec::new(alloc);
    for rule in rules {
        for clause in rule.clauses.as_slice() {
            add(&mut numbers, &clause.one, view)?;
            add(&mut numbers, &clause.other, view)?;
        }
    }
    numbers.sort()?;
    numbers.dedup();
    let Some(least) = numbers.as_slice().first() else {
        return Ok(best);
    };
    let ask = match best.ask {
        _ if numbers.len() >= many => from(numbers[numbers.len() / 2]),
        Ask::Equal(_) => Ask::Equal(*least),
        Ask::AtLeast(_) => best.ask,
    };
    Ok(Atom { view, ask })
}

/// Whether a word is at least this number. For 1 it asks, as clauses do, whether the word is 0.
fn from(k: u32) -> Ask {
    if k > 1 {
        Ask::AtLeast(k)
    } else {
        Ask::Equal(0)
    }
}

/// Shares of the calls are counted in parts of this number.
const ALL: u64 = 1024;

/// A guess: for how many of 1,024 calls something holds, and the steps that all of them take to find out.
#[derive(Clone, Copy)]
struct Odds {
    share: u64,
    steps: u64,
}

/// The share of the other calls.
fn rest(share: u64) -> u64 {
    ALL.saturating_sub(share)
}

/// The steps of a share of the calls.
fn part(steps: u64, share: u64) -> u64 {
    steps.saturating_mul(share) / ALL
}

/// The share of calls that answer yes. Upper halves are mostly 0, lower halves mostly another, small number.
fn share_of(atom: &Atom) -> u64 {
    let is_lower = atom.view.offset.is_multiple_of(8);
    match atom.ask {
        Ask::Equal(0) if is_lower && atom.view.mask != WHOLE => 910,
        Ask::Equal(_) if is_lower => 220,
        Ask::AtLeast(k) if is_lower => 620u64.saturating_sub(12 * u64::from(k.max(1).ilog2())),
        Ask::Equal(0) => 900,
        Ask::Equal(_) => 250,
        Ask::AtLeast(_) => 50,
    }
}

/// The odds of a literal, given the view in A.
fn literal_odds(literal: &Literal, view: View) -> Odds {
    match *literal {
        Literal::Known(holds) => Odds {
            share: if holds { ALL } else { 0 },
            steps: 0,
        },
        Literal::Asked(atom, wanted) => {
            let share = share_of(&atom);
            Odds {
                share: if wanted { share } else { rest(share) },
                steps: ALL.saturating_mul(cost(&atom, view) as u64),
            }
        }
    }
}

/// The odds of a clause.
fn clause_odds(clause: &Clause, view: View) -> Odds {
    let one = literal_odds(&clause.one, view);
    let other = literal_odds(&clause.other, view);
    Odds {
        share: rest(part(rest(one.share), rest(other.share))),
        steps: one.steps.saturating_add(part(other.steps, rest(one.share))),
    }
}

/// The odds of a rule.
fn rule_odds(rule: &Rule, view: View) -> Odds {
    let mut share = ALL;
    let mut steps: u64 = 0;
    for clause in rule.clauses.as_slice() {
        let odds = clause_odds(clause, view);
        steps = steps.saturating_add(part(odds.steps, share));
        share = part(share, odds.share);
    }
    Odds { share, steps }
}

/// Whether to try one thing before another if either is enough.
fn is_better(one: &Odds, other: &Odds) -> bool {
    one.share.saturating_mul(other.steps) > other.share.saturating_mul(one.steps)
}
