//! Pairs of small filters that need many paths unless a path knows which word of its calls is impossible.

use bpf_code::{Insn, Operation};
use bpf_compare::{Comparison, Doubt, Scope, compare};
use bpf_verify::{Filter, verify};
use std::test::Fail;

fn insn(op: Operation, jt: u8, jf: u8, k: u32) -> Insn {
    Insn { op, jt, jf, k }
}

fn filter(rt: &HostRuntime, insns: &[Insn]) -> Result<Filter, Fail> {
    match verify(Vec::from_slice(rt.alloc(), insns)?) {
        Ok(filter) => Ok(filter),
        Err(_) => Err("sound")?,
    }
}

/// Returns 1 if the first argument is not 7 and the second one is below `count` under a mask, by a test for
/// each number, and 2 otherwise.
fn parts(rt: &HostRuntime, mask: u32, count: u32) -> Result<Filter, Fail> {
    let mut code = Vec::new(rt.alloc());
    for number in 0..count {
        code.push(insn(Operation::LoadData, 0, 0, 16))?;
        code.push(insn(Operation::JumpEqualK, 4, 0, 7))?;
        code.push(insn(Operation::LoadData, 0, 0, 24))?;
        code.push(insn(Operation::AndK, 0, 0, mask))?;
        code.push(insn(Operation::JumpEqualK, 0, 1, number))?;
        code.push(insn(Operation::ReturnK, 0, 0, 1))?;
    }
    code.push(insn(Operation::ReturnK, 0, 0, 2))?;
    filter(rt, code.as_slice())
}

/// Returns 1 if the first argument is not 7, and 2 otherwise.
fn other_than_7(rt: &HostRuntime) -> Result<Filter, Fail> {
    filter(
        rt,
        &[
            insn(Operation::LoadData, 0, 0, 16),
            insn(Operation::JumpEqualK, 1, 0, 7),
            insn(Operation::ReturnK, 0, 0, 1),
            insn(Operation::ReturnK, 0, 0, 2),
        ],
    )
}

/// Returns 1 if this test of the words at two offsets holds, the second one in X, and 2 if it does not.
fn two_words(
    rt: &HostRuntime,
    at: u32,
    in_x: u32,
    test: Operation,
    is_turned: bool,
) -> Result<Filter, Fail> {
    let (jt, jf) = if is_turned { (1, 0) } else { (0, 1) };
    filter(
        rt,
        &[
            insn(Operation::LoadData, 0, 0, in_x),
            insn(Operation::MoveToX, 0, 0, 0),
            insn(Operation::LoadData, 0, 0, at),
            insn(test, jt, jf, 0),
            insn(Operation::ReturnK, 0, 0, 1),
            insn(Operation::ReturnK, 0, 0, 2),
        ],
    )
}

// A part has all of its numbers, so the test of the other argument alone decides.
#[test]
fn each_number_of_a_part(rt: HostRuntime) -> Result<(), Fail> {
    let whole = other_than_7(&rt)?;
    for (mask, count) in [(3, 4), (0xf, 16)] {
        let parted = parts(&rt, mask, count)?;
        assert_eq!(rt;
            compare(rt.alloc(), &parted, &whole, Scope::EveryCall, 3_000)?,
            Comparison::Same,
            "{count} parts"
        );
        assert_eq!(rt;
            compare(rt.alloc(), &whole, &parted, Scope::NativeCalls, 3_000)?,
            Comparison::Same,
            "beside {count} parts"
        );
        let last = u32::saturating_sub(count, 1);
        let fewer = parts(&rt, mask, last)?;
        match compare(rt.alloc(), &whole, &fewer, Scope::EveryCall, 3_000)? {
            Comparison::Differs(call, 1, 2) => {
                assert!(rt; call.word(16) != 7, "{count}");
                assert_eq!(rt; call.word(24) & mask, last);
            }
            _ => assert!(rt; false, "{count} parts but one"),
        }
    }
    Ok(())
}

// 0x5400 under the mask ffffff00 is 0x5400 to 0x54ff.
#[test]
fn a_mask_and_its_range(rt: HostRuntime) -> Result<(), Fail> {
    let masked = filter(
        &rt,
        &[
            insn(Operation::LoadData, 0, 0, 24),
            insn(Operation::AndK, 0, 0, 0xffff_ff00),
            insn(Operation::JumpEqualK, 0, 1, 0x5400),
            insn(Operation::ReturnK, 0, 0, 1),
            insn(Operation::ReturnK, 0, 0, 2),
        ],
    )?;
    for (last, is_same) in [(0x54ff, true), (0x54fe, false), (0x5500, false)] {
        let between = filter(
            &rt,
            &[
                insn(Operation::LoadData, 0, 0, 24),
                insn(Operation::JumpGreaterOrEqualK, 0, 2, 0x5400),
                insn(Operation::JumpGreaterK, 1, 0, last),
                insn(Operation::ReturnK, 0, 0, 1),
                insn(Operation::ReturnK, 0, 0, 2),
            ],
        )?;
        for (one, other) in [(&masked, &between), (&between, &masked)] {
            match compare(rt.alloc(), one, other, Scope::EveryCall, 100)? {
                Comparison::Same => assert!(rt; is_same, "{last}"),
                Comparison::Differs(call, _, _) => {
                    assert!(rt; !is_same, "{last}");
                    assert_eq!(rt; call.word(24), last.max(0x54ff));
                }
                Comparison::Undecided(_) => assert!(rt; false, "{last}"),
            }
        }
    }
    Ok(())
}

// a > x is not x >= a: no bound on the numbers of X is enough to see it.
#[test]
fn a_test_of_two_words(rt: HostRuntime) -> Result<(), Fail> {
    let greater = two_words(&rt, 24, 16, Operation::JumpGreaterX, false)?;
    let turned = two_words(&rt, 16, 24, Operation::JumpGreaterOrEqualX, true)?;
    let swapped = two_words(&rt, 24, 16, Operation::JumpGreaterX, true)?;
    let copy = two_words(&rt, 24, 16, Operation::JumpGreaterX, false)?;
    assert_eq!(rt;
        compare(rt.alloc(), &greater, &copy, Scope::EveryCall, 0)?,
        Comparison::Same
    );
    assert_eq!(rt;
        compare(rt.alloc(), &greater, &turned, Scope::EveryCall, 1_000)?,
        Comparison::Undecided(Doubt::Arithmetic)
    );
    match compare(rt.alloc(), &greater, &swapped, Scope::EveryCall, 1_000)? {
        Comparison::Differs(..) => {}
        _ => assert!(rt; false, "differs"),
    }
    Ok(())
}

// With fewer bits of X than a byte each number has a path.
#[test]
fn a_part_in_x(rt: HostRuntime) -> Result<(), Fail> {
    let code = [
        insn(Operation::LoadData, 0, 0, 16),
        insn(Operation::AndK, 0, 0, 0xff),
        insn(Operation::MoveToX, 0, 0, 0),
        insn(Operation::LoadData, 0, 0, 24),
        insn(Operation::JumpEqualX, 0, 1, 0),
        insn(Operation::ReturnK, 0, 0, 1),
        insn(Operation::ReturnK, 0, 0, 2),
    ];
    let one = filter(&rt, &code)?;
    let mut others = code;
    others[4] = insn(Operation::JumpEqualX, 1, 0, 0);
    others[5].k = 2;
    others[6].k = 1;
    let other = filter(&rt, &others)?;
    assert_eq!(rt;
        compare(rt.alloc(), &one, &other, Scope::EveryCall, 20_000)?,
        Comparison::Same
    );
    Ok(())
}
