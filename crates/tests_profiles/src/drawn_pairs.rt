use crate::drawn_profiles::next;
use bpf_code::{Insn, Operation};
use bpf_compare::{Comparison, Scope, compare};
use bpf_machine::run;
use bpf_verify::{Filter, verify};
use call_data::SysCall;
use std::test::Fail;

/// More instructions than any pair here takes.
const BUDGET: u64 = 1_000_000;

const MASKS: [u32; 5] = [1, 3, 6, 0xff, u32::MAX];

const NUMBERS: [u32; 6] = [0, 1, 2, 3, 7, 0xfe];
/// The offsets of the tested words: the number, and the low halves of two arguments.
const OFFSETS: [u32; 3] = [0, 16, 24];

const TESTS: [Operation; 4] = [
    Operation::JumpEqualK,
    Operation::JumpGreaterK,
    Operation::JumpGreaterOrEqualK,
    Operation::JumpAnyBitK,
];

const EDGES: [u32; 7] = [0, 1, 2, 3, 7, 0xfe, 0xff];

fn insn(op: Operation, jt: u8, jf: u8, k: u32) -> Insn {
    Insn { op, jt, jf, k }
}

/// One of these, chosen by a drawn number.
fn choice<T: Copy>(items: &[T], given: T, state: u64) -> T {
    let count = items.len().max(1);
    *items.get((state >> 33) as usize % count).unwrap_or(&given)
}

/// Three drawn tests of masked words, a return after each. The other form has the masks in X.
fn drawn(rt: &HostRuntime, from: u64, is_other_form: bool) -> Result<Filter, Fail> {
    let mut code = Vec::new(rt.alloc());
    let mut state = from;
    for value in 1..4 {
        let offset = choice(&OFFSETS, 0, state);
        state = next(state);
        let mask = choice(&MASKS, 1, state);
        state = next(state);
        let test = choice(&TESTS, Operation::JumpEqualK, state);
        state = next(state);
        if is_other_form {
            code.push(insn(Operation::LoadXImmediate, 0, 0, mask))?;
        }
        code.push(insn(Operation::LoadData, 0, 0, offset))?;
        if is_other_form {
            code.push(insn(Operation::AndX, 0, 0, 0))?;
        } else {
            code.push(insn(Operation::AndK, 0, 0, mask))?;
        }
        code.push(insn(test, 0, 1, choice(&NUMBERS, 0, state)))?;
        state = next(state);
        code.push(insn(Operation::ReturnK, 0, 0, value % 3))?;
    }
    code.push(insn(Operation::ReturnK, 0, 0, 1))?;
    match verify(code) {
        Ok(filter) => Ok(filter),
        Err(_) => Err("sound")?,
    }
}

/// Whether both return the same at each edge of the tested words.
fn agree(first: &Filter, second: &Filter) -> bool {
    for nr in EDGES {
        for one in EDGES {
            for other in EDGES {
                let call = SysCall {
                    nr,
                    arch: 0,
                    ip: 0,
                    args: [u64::from(one), u64::from(other), 0, 0, 0, 0],
                };
                if run(first, &call).value != run(second, &call).value {
                    return false;
                }
            }
        }
    }
    true
}

#[test]
fn drawn_pairs(rt: HostRuntime) -> Result<(), Fail> {
    let mut state = 33;
    let mut differ = 0u32;
    for pair in 0..100 {
        let first = drawn(&rt, state, false)?;
        let is_same = pair % 2 == 0;
        let second = drawn(&rt, if is_same { state } else { next(state) }, true)?;
        state = next(next(state));
        match compare(rt.alloc(), &first, &second, Scope::EveryCall, BUDGET)? {
            Comparison::Same => assert!(rt; agree(&first, &second), "pair {pair}"),
            Comparison::Differs(..) => {
                assert!(rt; !is_same, "pair {pair}");
                differ = differ.saturating_add(1);
            }
            Comparison::Undecided(_) => assert!(rt; false, "pair {pair}"),
        }
    }
    assert!(rt; differ > 40, "{differ}");
    Ok(())
}
