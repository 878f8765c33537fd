use action::{Action, Verdict};
use bpf_code::Insn;
use bpf_verify::{Filter, verify};
use call_data::SysCall;
use std::test::Fail;
use verdict::{Stack, StackFault, stacks_judge_every_call};

const CALL: SysCall = SysCall {
    nr: 39,
    arch: 0xc000_003e,
    ip: 0,
    args: [0; 6],
};

/// A filter of this length that returns this value.
fn returning(rt: &HostRuntime, value: u32, len: usize) -> Result<Filter, Fail> {
    let mut code = Vec::new(rt.alloc());
    for _ in 1..len {
        code.push(Insn::new(0x00, 0, 0, 0).ok_or("a load")?)?;
    }
    code.push(Insn::new(0x06, 0, 0, value).ok_or("a return")?)?;
    match verify(code) {
        Ok(filter) => Ok(filter),
        Err(_) => Err("sound")?,
    }
}

/// The joint verdict of filters that return these values, oldest first.
fn judged(rt: &HostRuntime, values: &[u32]) -> Result<Verdict, Fail> {
    let mut stack = Stack::new(rt.alloc());
    for value in values {
        if stack.push(returning(rt, *value, 1)?).is_err() {
            return Err("room")?;
        }
    }
    Ok(stack.judge(&CALL))
}

#[test]
fn eight_filters_at_the_limit(rt: HostRuntime) -> Result<(), Fail> {
    let mut stack = Stack::new(rt.alloc());
    for _ in 0..7 {
        assert!(rt; stack.push(returning(&rt, 0x7fff_0000, 4096)?).is_ok());
    }
    match stack.push(returning(&rt, 0, 4069)?) {
        Ok(()) => return Err("one instruction too many")?,
        Err((filter, fault)) => {
            assert_eq!(rt; filter.len(), 4069);
            assert_eq!(rt; fault, StackFault::TooManyInsns);
        }
    }
    assert_eq!(rt; stack.judge(&CALL).action, Action::Allow);
    assert!(rt; stack.push(returning(&rt, 0x5_0001, 4068)?).is_ok());
    assert_eq!(rt; stack.judge(&CALL).action, Action::Errno);
    Ok(())
}

#[test]
fn the_first_rank_wins_and_the_newest_data(rt: HostRuntime) -> Result<(), Fail> {
    let errno = judged(&rt, &[0x5_0001, 0x5_000d, 0x7ffc_0000, 0x7fff_0000])?;
    assert_eq!(rt; errno.action, Action::Errno);
    assert_eq!(rt; errno.ret_data, 13);
    let unknown = judged(&rt, &[0, 0x1_0007])?;
    assert_eq!(rt; unknown.action, Action::KillProcess);
    assert_eq!(rt; unknown.ret_data, 7);
    let none = judged(&rt, &[])?;
    assert_eq!(rt; none.action, Action::Allow);
    assert_eq!(rt; none.ret_data, 0);
    Ok(())
}

#[test]
fn each_rank_against_each(rt: HostRuntime) -> Result<(), Fail> {
    // In the order of seccomp(2).
    let values = [
        0x8000_0001,
        0x1,
        0x3_0001,
        0x5_0001,
        0x7fc0_0001,
        0x7ff0_0001,
        0x7ffc_0001,
        0x7fff_0001u32,
    ];
    for (rank, first) in values.iter().enumerate() {
        for (other, second) in values.iter().enumerate() {
            let got = judged(&rt, &[*first, *second])?;
            assert_eq!(rt; usize::from(got.rank()), rank.min(other), "{rank} {other}");
        }
    }
    Ok(())
}

#[test]
fn filters_are_lent_the_oldest_first(rt: HostRuntime) -> Result<(), Fail> {
    stacks_judge_every_call();
    let mut stack = Stack::new(rt.alloc());
    assert!(rt; stack.filters().is_empty());
    for len in [3, 1, 2] {
        assert!(rt; stack.push(returning(&rt, 0x7fff_0000, len)?).is_ok());
    }
    let filters = stack.filters();
    assert_eq!(rt; filters.len(), 3);
    for (filter, len) in filters.iter().zip([3, 1, 2]) {
        assert_eq!(rt; filter.len(), len);
    }
    Ok(())
}
