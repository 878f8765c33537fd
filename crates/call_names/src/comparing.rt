ghost use Rattle.std.specs.Prelude.{◌≡◌, ◌≤◌, ◌<◌, IfOk, Some, false, length, slice_get, slice_set, true};
ghost use Rattle.bpf_code.specs.Flow.{flow_of};
ghost use Rattle.bpf_code.specs.declared.limits.TheConstants.{MAX_INSNS};
ghost use Rattle.call_names.specs.Marks.{Knows, Reaches, is_test, marked_on, other_after, passed};
ghost use Rattle.call_names.specs.Tests.{AreNumberTests, compares_constant, writes_a};

use bpf_code::{Flow, Insn, MAX_INSNS, Operation};
use std::alloc::{AllocError, Global};

/// Which instructions compare the call's number with a constant, on every walk that reaches them. Code need
/// not be sound; a jump out of it leads nowhere.
pub fn number_tests(alloc: Global, code: &[Insn]) -> Result<Vec<bool>, AllocError>
    requires { length code.now ≤ MAX_INSNS }
    ensures { IfOk result (λ tests. AreNumberTests code.now tests.items) }
{
    let mut reached = vec![in alloc; false; code.len()]?;
    mark_reached(code, &mut reached);
    let mut others = vec![in alloc; false; code.len()]?;
    mark_others(code, &mut others);
    tests_by(alloc, code, reached.as_slice(), others.as_slice())
}

/// The comparisons with a constant that a walk reaches, with nothing but the call's number in A.
fn tests_by(
    alloc: Global,
    code: &[Insn],
    reached: &[bool],
    others: &[bool],
) -> Result<Vec<bool>, AllocError>
    requires marked { length reached.now ≡ length code.now }
    requires room { length others.now ≡ length code.now }
    requires reaches { Reaches code.now reached.now }
    requires known { Knows code.now others.now (length code.now) }
    ensures { IfOk result (λ tests. AreNumberTests code.now tests.items) }
{
    let mut tests = Vec::new(alloc);
    for (at, insn) in code.iter().enumerate() {
        tests.push(is_test(insn, reached[at], others[at]))?;
    }
    Ok(tests)
}

/// Whether a walk reaches it, it compares A with a constant, and A can only have the call's number.
fn is_test(insn: &Insn, reached: bool, other: bool) -> bool
    ensures { result ≡ is_test insn.now reached other }
{
    reached && compares_constant(insn.op) && !other
}

/// Marks the places that a walk reaches.
fn mark_reached(code: &[Insn], reached: &mut [bool])
    requires short { length code.now ≤ MAX_INSNS }
    requires room { length reached.old ≡ length code.now }
    requires unmarked { Reaches code.now reached.old }
    ensures { Reaches code.now reached.new }
{
    mark(reached, 0);
    for (at, insn) in code.iter().enumerate() {
        if reached[at] {
            mark_next(reached, at, insn);
        }
    }
}

/// Marks the places at which A may not be the call's number. Jumps only go forward, so one pass is enough.
fn mark_others(code: &[Insn], others: &mut [bool])
    requires short { length code.now ≤ MAX_INSNS }
    requires room { length others.old ≡ length code.now }
    ensures { Knows code.now others.new (length code.now) }
{
    mark(others, 0);
    for (at, insn) in code.iter().enumerate() {
        pass(others, at, insn);
    }
}

/// Passes on what the instruction at this place does.
fn pass(others: &mut [bool], at: usize, insn: &Insn)
    requires short { at < MAX_INSNS }
    requires inside { at < length others.old }
    ensures { others.new ≡ passed insn.now at others.old }
{
    if other_after(insn, others[at]) {
        mark_next(others, at, insn);
    }
}

/// Whether A may not be the call's number after the instruction, given whether that is so before.
fn other_after(insn: &Insn, other: bool) -> bool
    ensures { result ≡ other_after insn.now other }
{
    match insn.op {
        Operation::LoadData => insn.k != 0,
        _ => writes_a(insn.op) || other,
    }
}

/// Whether it may change A.
fn writes_a(op: Operation) -> bool
    ensures { result ≡ writes_a op }
{
    match op {
        Operation::LoadXImmediate
        | Operation::LoadXWord
        | Operation::LoadXLength
        | Operation::Store
        | Operation::StoreX
        | Operation::JumpEqualK
        | Operation::JumpEqualX
        | Operation::JumpGreaterK
        | Operation::JumpGreaterX
        | Operation::JumpGreaterOrEqualK
        | Operation::JumpGreaterOrEqualX
        | Operation::JumpAnyBitK
        | Operation::JumpAnyBitX
        | Operation::Jump
        | Operation::ReturnK
        | Operation::ReturnA
        | Operation::MoveToX => false,
        _ => true,
    }
}

/// Whether it compares A with a constant. A test of bits does not count.
fn compares_constant(op: Operation) -> bool
    ensures { result ≡ compares_constant op }
{
    matches!(
        op,
        Operation::JumpEqualK | Operation::JumpGreaterK | Operation::JumpGreaterOrEqualK
    )
}

/// Marks the places that may come next.
fn mark_next(others: &mut [bool], at: usize, insn: &Insn)
    requires { at < MAX_INSNS }
    ensures { others.new ≡ marked_on (flow_of insn.now.op) insn.now at others.old }
{
    let next = at + 1;
    match insn.op.flow() {
        Flow::Returns => {}
        Flow::Jumps => mark(others, next + insn.k as usize),
        Flow::Branches => {
            mark(others, next + insn.jt as usize);
            mark(others, next + insn.jf as usize);
        }
        Flow::Continues => mark(others, next),
    }
}

fn mark(others: &mut [bool], at: usize)
    ensures { others.new ≡ slice_set others.old at true }
{
    if at < others.len() {
        others[at] = true;
    }
}
