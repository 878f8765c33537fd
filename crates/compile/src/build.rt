ghost use Rattle.std.specs.Prelude.{◌≡◌, ◌≤◌, ◌<◌, ◌+◌, ◌-◌, ◌%◌, ℕ, length, IfOk, IfSome, if◌then◌else◌};
ghost use Rattle.compile.specs.Common.{Builds, DATA_LEN, SysCall, Gives, first_value, holds_of, WayGives};
ghost use Rattle.compile.specs.Common.{NOWHERE, REACH, shown, GivesWith, taken, told, View};

use crate::apart::{boundary, certain};
use crate::atom::{Atom, NOWHERE, Probe, View, WHOLE};
use crate::choose::choose;
use crate::clause::{Rule, rules_where};
use crate::code::{Code, REACH, RECENT};
use bpf_code::{DATA_LEN, MAX_INSNS};
use std::alloc::{AllocError, Global};

/// A place, and a bound of the steps from there.
#[derive(Clone, Copy)]
pub(crate) struct Way {
    pub(crate) at: usize,
    pub(crate) most: usize,
}

/// A way through the new code; None if that takes too many tests. An error if memory runs out.
pub(crate) type Built = Result<Option<Way>, AllocError>;

/// The steps of a test, given the view in A.
pub(crate) fn cost(atom: &Atom, view: View) -> usize {
    let base = atom.probe(view).base;
    if base.is(view) {
        1
    } else if base.mask == WHOLE || view.covers(base) {
        2
    } else {
        3
    }
}

/// A way to the same place that a branch can reach. None if the code is longer than any filter.
fn nearer(code: &mut Code, way: Way, reach: usize) -> Built
    requires inside { way.at < length code.old }
    requires within { reach ≤ REACH }
    ensures gives { IfOk result (λ found. IfSome found (λ near. (call : SysCall) (view : View) (value : ℕ)
        → WayGives view code.old call way value → WayGives view code.new call near value)) }
    ensures near { IfOk result (λ found. IfSome found (λ near. length code.new ≤ near.at + 1 + reach)) }
    ensures inside { IfOk result (λ found. IfSome found (λ near. near.at < length code.new)) }
    ensures longer { length code.new ≤ length code.old + 1 }
    ensures builds { Builds code.old code.new }
{
    if code.len() > MAX_INSNS {
        return Ok(None);
    }
    let at = code.near(way.at, reach)?;
    if at == way.at {
        return Ok(Some(way));
    }
    match way.most.checked_add(1) {
        Some(most) => Ok(Some(Way { at, most })),
        None => Ok(None),
    }
}

/// Where to enter the branch at `front - 1`, given the view in A. If A does not have what the branch needs,
/// the instruction at `front` must load it.
fn brought_at(code: &Code, front: usize, base: View, view: View) -> Option<Way>
    requires some { 0 < front }
    requires inside { front ≤ length code.now }
    requires known { base.offset < DATA_LEN }
    ensures gives { IfSome result (λ way. (call : SysCall) (value most : ℕ)
        → Gives code.now call (front - 1) (shown base call) value most
        → GivesWith view code.now call way.at value (most + way.most)) }
    ensures inside { IfSome result (λ way. way.at < length code.now) }
{
    if view.is(base) {
        return Some(Way {
            at: front - 1,
            most: 0,
        });
    }
    if base.mask != WHOLE {
        return None;
    }
    let way = Way { at: front, most: 1 };
    code.loads(front, base.offset).then_some(way)
}

/// A recent branch with the same test and targets, and where to enter it, given the view in A.
fn twin(code: &Code, probe: &Probe, hit: usize, miss: usize, view: View) -> Option<Way>
    requires { probe.now.base.offset < DATA_LEN }
    ensures gives { IfSome result (λ way. (call : SysCall) (value most : ℕ)
        → Gives code.now call (taken probe.now call hit miss) (shown probe.now.base call) value most
        → GivesWith view code.now call way.at value (most + 1 + way.most)) }
    ensures inside { IfSome result (λ way. way.at < length code.now) }
{
    let len = code.len();
    let room = len.saturating_sub(hit.max(miss)).saturating_sub(1);
    for back in 0..RECENT.min(room) {
        if code.branches(len - back - 1, probe.test, probe.k, hit, miss) {
            if let Some(way) = brought_at(code, len - back, probe.base, view) {
                return Some(way);
            }
        }
    }
    None
}

/// Puts code in front that loads a view into A, given the view in A now, and returns how many steps it takes.
fn bring(code: &mut Code, base: View, view: View) -> Result<usize, AllocError>
    requires some { 0 < length code.old }
    requires known { base.offset < DATA_LEN }
    requires aligned { base.offset % 4 ≡ 0 }
    ensures gives { IfOk result (λ steps. (call : SysCall) (value most : ℕ)
        → Gives code.old call (length code.old - 1) (shown base call) value most
        → GivesWith view code.new call (length code.new - 1) value (most + steps)) }
    ensures builds { Builds code.old code.new }
{
    if view.is(base) {
        return Ok(0);
    }
    if base.mask == WHOLE {
        code.load(base.offset)?;
        return Ok(1);
    }
    code.mask(base.mask)?;
    if view.covers(base) {
        return Ok(1);
    }
    code.load(base.offset)?;
    Ok(2)
}

/// A way that makes the test and goes on by its outcome, given the view in A.
fn branch(code: &mut Code, probe: &Probe, hit: Way, miss: Way, view: View) -> Built
    requires known { probe.now.base.offset < DATA_LEN }
    requires aligned { probe.now.base.offset % 4 ≡ 0 }
    requires hit_inside { hit.at < length code.old }
    requires miss_inside { miss.at < length code.old }
    ensures gives { IfOk result (λ found. IfSome found (λ way. (call : SysCall) (value : ℕ)
        → WayGives probe.now.base code.old call
        (if holds_of probe.now.test probe.now.k (shown probe.now.base call) then hit else miss) value
        → WayGives view code.new call way value)) }
    ensures inside { IfOk result (λ found. IfSome found (λ way. way.at < length code.new)) }
    ensures builds { Builds code.old code.new }
{
    let Some(miss) = nearer(code, miss, REACH - 1)? else {
        return Ok(None);
    };
    let Some(hit) = nearer(code, hit, REACH)? else {
        return Ok(None);
    };
    let Some(most) = hit.most.max(miss.most).checked_add(1) else {
        return Ok(None);
    };
    let way = match twin(code, probe, hit.at, miss.at, view) {
        Some(way) => way,
        None => {
            code.jump(probe.test, probe.k, hit.at, miss.at)?;
            let steps = bring(code, probe.base, view)?;
            Way {
                at: code.len() - 1,
                most: steps,
            }
        }
    };
    match most.checked_add(way.most) {
        Some(most) => Ok(Some(Way { at: way.at, most })),
        None => Ok(None),
    }
}

/// Where to go on when no test is left, given the view in A.
fn arrived(code: &Code, last: Way, view: View) -> Way
    requires { last.at < length code.now }
    ensures gives { (call : SysCall) (value : ℕ) → WayGives NOWHERE code.now call last value
        → WayGives view code.now call result value }
    ensures inside { result.at < length code.now }
{
    if view.offset >= DATA_LEN || view.mask != WHOLE {
        return last;
    }
    Way {
        at: code.past_load(last.at, view.offset),
        most: last.most,
    }
}

/// Emits the rules as tests of words, given the view in A: the value of the first rule that holds, else that
/// of `last`. None if that takes too many tests. Rules without a common argument come one after another.
/// Otherwise a question is chosen, and the code for each answer is built from the rules it leaves. Any
/// question is right, so nothing is required of the choice.
pub(crate) fn build(
    code: &mut Code,
    alloc: Global,
    rules: &[Rule],
    last: Way,
    view: View,
    depth: usize,
    fuel: &mut usize,
) -> Built
    requires { last.at < length code.old }
    ensures gives { IfOk result (λ found. IfSome found (λ way. (call : SysCall) (other : ℕ)
        → WayGives NOWHERE code.old call last other
        → WayGives view code.new call way (first_value rules.now other call))) }
    ensures inside { IfOk result (λ found. IfSome found (λ way. way.at < length code.new)) }
    ensures builds { Builds code.old code.new }
{
    if rules.is_empty() {
        return Ok(Some(arrived(code, last, view)));
    }
    if let Some(value) = certain(rules) {
        let at = code.value(value)?;
        return Ok(Some(Way { at, most: 1 }));
    }
    if depth == 0 || *fuel == 0 {
        return Ok(None);
    }
    if let Some(at) = boundary(rules) {
        let Some(rest) = build(code, alloc, &rules[at..], last, NOWHERE, depth - 1, fuel)? else {
            return Ok(None);
        };
        return build(code, alloc, &rules[..at], rest, view, depth - 1, fuel);
    }
    *fuel = fuel.saturating_sub(rules.len());
    let atom = choose(alloc, rules, view)?;
    let probe = atom.probe(view);
    let base = probe.base;
    let left = rules_where(alloc, rules, &atom, false)?;
    let Some(no) = build(code, alloc, left.as_slice(), last, base, depth - 1, fuel)? else {
        return Ok(None);
    };
    let left = rules_where(alloc, rules, &atom, true)?;
    let Some(yes) = build(code, alloc, left.as_slice(), last, base, depth - 1, fuel)? else {
        return Ok(None);
    };
    joined(code, &probe, yes, no, view)
}

/// A way that goes on by the answer to a question. If both answers lead to one place, nothing is tested.
fn joined(code: &mut Code, probe: &Probe, yes: Way, no: Way, view: View) -> Built
    requires yes_inside { yes.at < length code.old }
    requires no_inside { no.at < length code.old }
    ensures gives { IfOk result (λ found. IfSome found (λ way. (call : SysCall) (value : ℕ)
        → WayGives probe.now.base code.old call (if told probe.now call then yes else no) value
        → WayGives view code.new call way value)) }
    ensures inside { IfOk result (λ found. IfSome found (λ way. way.at < length code.new)) }
    ensures builds { Builds code.old code.new }
{
    if yes.at == no.at && code.is_steady(no.at) {
        return Ok(Some(Way {
            at: no.at,
            most: yes.most.max(no.most),
        }));
    }
    if probe.base.offset >= DATA_LEN || !probe.base.offset.is_multiple_of(4) {
        return Ok(None);
    }
    if probe.is_turned {
        branch(code, probe, no, yes, view)
    } else {
        branch(code, probe, yes, no, view)
    }
}
