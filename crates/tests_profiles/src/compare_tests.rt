use bpf_code::{Insn, Operation};
use bpf_compare::{Comparison, Doubt, Scope, compare};
use bpf_verify::{Filter, verify};
use std::test::Fail;

fn insn(op: Operation, jt: u8, jf: u8, k: u32) -> Insn {
    Insn { op, jt, jf, k }
}

fn filter(rt: &HostRuntime, insns: &[Insn]) -> Result<Filter, Fail> {
    match verify(Vec::from_slice(rt.alloc(), insns)?) {
        Ok(filter) => Ok(filter),
        Err(_) => Err("sound")?,
    }
}

/// A filter that allows `count` numbers, multiples of 3, by a test each, in an order set by `step`.
fn linear(rt: &HostRuntime, count: u32, step: u32) -> Result<Filter, Fail> {
    let mut code = Vec::new(rt.alloc());
    code.push(insn(Operation::LoadData, 0, 0, 0))?;
    for i in 0..count {
        let number = i.wrapping_mul(step) % 251 * 3;
        code.push(insn(Operation::JumpEqualK, 0, 1, number))?;
        code.push(insn(Operation::ReturnK, 0, 0, 0x7fff_0000))?;
    }
    code.push(insn(Operation::ReturnK, 0, 0, 0x8000_0000))?;
    match verify(code) {
        Ok(filter) => Ok(filter),
        Err(_) => Err("sound")?,
    }
}

/// More instructions than any pair here takes.
const BUDGET: u64 = 1_000_000;

#[test]
fn equal_filters_in_other_shapes(rt: HostRuntime) -> Result<(), Fail> {
    let one = filter(
        &rt,
        &[
            insn(Operation::LoadData, 0, 0, 0),
            insn(Operation::JumpEqualK, 0, 1, 5),
            insn(Operation::ReturnK, 0, 0, 1),
            insn(Operation::JumpGreaterK, 0, 1, 7),
            insn(Operation::ReturnK, 0, 0, 3),
            insn(Operation::ReturnK, 0, 0, 2),
        ],
    )?;
    let other = filter(
        &rt,
        &[
            insn(Operation::LoadData, 0, 0, 0),
            insn(Operation::Store, 0, 0, 2),
            insn(Operation::JumpGreaterOrEqualK, 0, 1, 8),
            insn(Operation::ReturnK, 0, 0, 3),
            insn(Operation::LoadXImmediate, 0, 0, 5),
            insn(Operation::LoadImmediate, 0, 0, 9),
            insn(Operation::LoadWord, 0, 0, 2),
            insn(Operation::JumpEqualX, 0, 1, 0),
            insn(Operation::ReturnK, 0, 0, 1),
            insn(Operation::ReturnK, 0, 0, 2),
        ],
    )?;
    assert_eq!(rt;
        compare(rt.alloc(), &one, &other, Scope::EveryCall, BUDGET)?,
        Comparison::Same
    );
    assert_eq!(rt;
        compare(rt.alloc(), &other, &one, Scope::NativeCalls, BUDGET)?,
        Comparison::Same
    );
    assert_eq!(rt;
        compare(rt.alloc(), &other, &one, Scope::NativeCalls, 9)?,
        Comparison::Undecided(Doubt::Budget)
    );
    Ok(())
}

#[test]
fn bits_of_an_argument_and_arithmetic(rt: HostRuntime) -> Result<(), Fail> {
    let one = filter(
        &rt,
        &[
            insn(Operation::LoadData, 0, 0, 24),
            insn(Operation::JumpAnyBitK, 1, 0, 0x80),
            insn(Operation::ReturnK, 0, 0, 1),
            insn(Operation::LoadData, 0, 0, 28),
            insn(Operation::JumpEqualK, 0, 1, 77),
            insn(Operation::ReturnK, 0, 0, 3),
            insn(Operation::ReturnK, 0, 0, 2),
        ],
    )?;
    let other = filter(
        &rt,
        &[
            insn(Operation::LoadData, 0, 0, 24),
            insn(Operation::AndK, 0, 0, 0x80),
            insn(Operation::JumpEqualK, 1, 0, 0x80),
            insn(Operation::ReturnK, 0, 0, 1),
            insn(Operation::ReturnK, 0, 0, 2),
        ],
    )?;
    match compare(rt.alloc(), &one, &other, Scope::EveryCall, BUDGET)? {
        Comparison::Differs(call, 3, 2) => {
            assert_eq!(rt; call.args[1], 77 << 32 | 0x80);
        }
        _ => assert!(rt; false, "differs"),
    }
    let mut codes = [
        insn(Operation::LoadData, 0, 0, 24),
        insn(Operation::AddK, 0, 0, 1),
        insn(Operation::JumpEqualK, 1, 0, 0x80),
        insn(Operation::ReturnK, 0, 0, 1),
        insn(Operation::ReturnK, 0, 0, 1),
    ];
    let sums = filter(&rt, &codes)?;
    assert_eq!(rt;
        compare(rt.alloc(), &sums, &sums, Scope::EveryCall, 0)?,
        Comparison::Same
    );
    codes[2].k = 0x81;
    let others = filter(&rt, &codes)?;
    assert_eq!(rt;
        compare(rt.alloc(), &sums, &others, Scope::EveryCall, BUDGET)?,
        Comparison::Undecided(Doubt::Arithmetic)
    );
    Ok(())
}

#[test]
fn a_number_of_x32(rt: HostRuntime) -> Result<(), Fail> {
    let one = filter(
        &rt,
        &[
            insn(Operation::LoadData, 0, 0, 4),
            insn(Operation::JumpEqualK, 1, 0, 0xc000_003e),
            insn(Operation::ReturnK, 0, 0, 0),
            insn(Operation::LoadData, 0, 0, 0),
            insn(Operation::JumpGreaterOrEqualK, 0, 1, 0x4000_0000),
            insn(Operation::ReturnK, 0, 0, 0),
            insn(Operation::ReturnK, 0, 0, 9),
        ],
    )?;
    let other = filter(
        &rt,
        &[
            insn(Operation::LoadData, 0, 0, 4),
            insn(Operation::JumpEqualK, 1, 0, 0xc000_003e),
            insn(Operation::ReturnK, 0, 0, 0),
            insn(Operation::LoadData, 0, 0, 0),
            insn(Operation::JumpGreaterOrEqualK, 0, 2, 0x4000_0000),
            insn(Operation::JumpEqualK, 1, 0, 0xffff_ffff),
            insn(Operation::ReturnK, 0, 0, 0),
            insn(Operation::ReturnK, 0, 0, 9),
        ],
    )?;
    assert_eq!(rt;
        compare(rt.alloc(), &one, &other, Scope::NativeCalls, BUDGET)?,
        Comparison::Same
    );
    match compare(rt.alloc(), &one, &other, Scope::EveryCall, BUDGET)? {
        Comparison::Differs(call, 0, 9) => assert_eq!(rt; call.nr, 0xffff_ffff),
        _ => assert!(rt; false, "differs"),
    }
    Ok(())
}

#[test]
fn lists_in_other_orders(rt: HostRuntime) -> Result<(), Fail> {
    let one = linear(&rt, 251, 1)?;
    let other = linear(&rt, 251, 100)?;
    assert_eq!(rt;
        compare(rt.alloc(), &one, &other, Scope::EveryCall, BUDGET)?,
        Comparison::Same
    );
    let shorter = linear(&rt, 250, 100)?;
    match compare(rt.alloc(), &one, &shorter, Scope::EveryCall, BUDGET)? {
        Comparison::Differs(call, 0x7fff_0000, 0x8000_0000) => assert_eq!(rt; call.nr, 151 * 3),
        _ => assert!(rt; false, "differs"),
    }
    Ok(())
}
