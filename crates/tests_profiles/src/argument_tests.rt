use crate::drawn_profiles::{
    ACTIONS, EDGES, OPS, call, cond, edge, entry, filter_of, next, profile_of,
};
use bpf_machine::run;
use bpf_verify::Filter;
use oci_profile::Profile;
use std::alloc::{AllocError, Global};
use std::test::Fail;

/// Whether the filter returns the profile's value for `read` with each of these as its first argument, and
/// with its neighbours.
fn agree_at(filter: &Filter, profile: &Profile, args: &[u64]) -> bool {
    for arg in args {
        for first in [arg.wrapping_sub(1), *arg, arg.wrapping_add(1)] {
            let call = call(0, first, 7);
            if run(filter, &call).value != profile.value_on(&call) {
                return false;
            }
        }
    }
    true
}

/// An entry of `read` with a condition on its first argument.
fn asks(alloc: Global, action: &str, op: &str, value: u64) -> Result<String, AllocError> {
    let cond = cond(alloc, 0, op, value, 0)?;
    let args = format!(in alloc; ",\"args\":[{cond}]")?;
    entry(alloc, "\"read\"", action, args.as_str())
}

// Each operator against each on one argument, at numbers that overlap, touch, and lie at the edges of the
// halves.
#[test]
fn operators_against_each_other(rt: HostRuntime) -> Result<(), Fail> {
    let values = [1, 0xffff_ffff, 0x1_0000_0000];
    for one in OPS {
        for other in OPS {
            for first in values {
                for second in values {
                    let low = asks(rt.alloc(), "TRAP", one, first)?;
                    let high = asks(rt.alloc(), "LOG", other, second)?;
                    let entries = format!(in rt.alloc(); "{low},{high}")?;
                    let profile = profile_of(&rt, "ERRNO", entries.as_str())?;
                    let filter = filter_of(&rt, &profile)?;
                    assert!(rt; agree_at(&filter, &profile, &EDGES), "{entries}");
                }
            }
        }
    }
    Ok(())
}

// Equalities with gaps, neighbours and upper halves among them, which return the same or not.
#[test]
fn equalities(rt: HostRuntime) -> Result<(), Fail> {
    let values = [
        3,
        9,
        10,
        11,
        0x20,
        0xffff_fffe,
        0xffff_ffff,
        0x1_0000_0003,
        0,
        5,
        7,
    ];
    for many in 1..values.len() + 1 {
        for kinds in 1..4 {
            let mut entries = String::from_str(
                rt.alloc(),
                "{\"names\":[\"write\"],\"action\":\"SCMP_ACT_LOG\"}",
            )?;
            for at in 0..many {
                let asked = asks(rt.alloc(), ACTIONS[at % kinds], "EQ", values[at])?;
                entries.push_str(",")?;
                entries.push_str(asked.as_str())?;
            }
            let profile = profile_of(&rt, "ERRNO", entries.as_str())?;
            let filter = filter_of(&rt, &profile)?;
            assert!(rt; agree_at(&filter, &profile, &values), "{entries}");
            assert!(rt; agree_at(&filter, &profile, &EDGES), "{entries}");
        }
    }
    Ok(())
}

// Conditions that can never hold, between two that can.
#[test]
fn conditions_that_never_hold(rt: HostRuntime) -> Result<(), Fail> {
    let never = [
        "{\"index\":0,\"value\":1,\"valueTwo\":2,\"op\":\"SCMP_CMP_MASKED_EQ\"}",
        "{\"index\":0,\"value\":0,\"op\":\"SCMP_CMP_LT\"}",
        "{\"index\":0,\"value\":18446744073709551615,\"op\":\"SCMP_CMP_GT\"}",
    ];
    for cond in never {
        let first = asks(rt.alloc(), "LOG", "GE", 9)?;
        let args = format!(in rt.alloc(); ",\"args\":[{cond}]")?;
        let middle = entry(rt.alloc(), "\"read\"", "TRAP", args.as_str())?;
        let last = asks(rt.alloc(), "ALLOW", "LE", 4)?;
        let entries = format!(in rt.alloc(); "{first},{middle},{last}")?;
        let profile = profile_of(&rt, "ERRNO", entries.as_str())?;
        let filter = filter_of(&rt, &profile)?;
        assert!(rt; agree_at(&filter, &profile, &[2, 4, 9]), "{entries}");
        assert!(rt; agree_at(&filter, &profile, &EDGES), "{entries}");
    }
    Ok(())
}

// Drawn entries of one number, each with a condition on its first argument.
#[test]
fn drawn_conditions(rt: HostRuntime) -> Result<(), Fail> {
    let mut state = 5;
    for _ in 0..600 {
        let mut entries = String::from_str(
            rt.alloc(),
            "{\"names\":[\"write\"],\"action\":\"SCMP_ACT_LOG\"}",
        )?;
        for _ in 0..3 + (state >> 60) % 5 {
            state = next(state);
            let op = OPS[(state >> 35) as usize % 7];
            let near = edge(state).wrapping_add((state >> 50) % 3);
            let asked = asks(rt.alloc(), ACTIONS[(state >> 40) as usize % 6], op, near)?;
            entries.push_str(",")?;
            entries.push_str(asked.as_str())?;
        }
        state = next(state);
        let profile = profile_of(&rt, "ERRNO", entries.as_str())?;
        let filter = filter_of(&rt, &profile)?;
        assert!(rt; agree_at(&filter, &profile, &EDGES), "{entries}");
    }
    Ok(())
}

// An entry that repeats an earlier one, and so can't be reached, costs nothing.
#[test]
fn entries_that_are_hidden(rt: HostRuntime) -> Result<(), Fail> {
    let pair = "{\"names\":[\"read\"],\"action\":\"SCMP_ACT_TRAP\",\"args\":[
        {\"index\":0,\"value\":16,\"op\":\"SCMP_CMP_EQ\"},{\"index\":2,\"value\":7,\"op\":\"SCMP_CMP_EQ\"}]}";
    let protocol = "{\"names\":[\"read\"],\"action\":\"SCMP_ACT_ALLOW\",\"args\":[
        {\"index\":2,\"value\":9,\"op\":\"SCMP_CMP_NE\"}]}";
    let family = asks(rt.alloc(), "LOG", "NE", 16)?;
    let said = format!(in rt.alloc(); "{pair},{protocol},{family}")?;
    let again = format!(in rt.alloc(); "{pair},{protocol},{family},{protocol}")?;
    let short = filter_of(&rt, &profile_of(&rt, "ERRNO", said.as_str())?)?;
    let profile = profile_of(&rt, "ERRNO", again.as_str())?;
    let filter = filter_of(&rt, &profile)?;
    assert_eq!(rt; filter.len(), short.len());
    for first in [15, 16, 17, 0x1_0000_0010] {
        for third in [7, 9, 0x1_0000_0009] {
            let call = call(0, first, third);
            assert_eq!(rt;
                run(&filter, &call).value,
                profile.value_on(&call),
                "{first} {third}"
            );
        }
    }
    Ok(())
}
