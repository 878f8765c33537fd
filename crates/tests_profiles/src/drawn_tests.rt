use crate::drawn_profiles::{
    ACTIONS, EDGES, OPS, call, cond, edge, entry, filter_of, next, profile_of,
};
use bpf_machine::run;
use bpf_verify::Filter;
use compile::{CompileFault, compile};
use oci_profile::Profile;
use std::alloc::{AllocError, Global};
use std::test::Fail;
use sys_table::name;

/// Whether the filter returns the profile's values at these numbers, with edges as arguments.
fn agree(filter: &Filter, profile: &Profile, from: u32, to: u32) -> bool {
    for nr in from..to {
        for first in EDGES {
            for third in EDGES {
                let call = call(nr, first, third);
                if run(filter, &call).value != profile.value_on(&call) {
                    return false;
                }
            }
        }
    }
    true
}

// Each operator, each number at an edge of its halves, and each argument there.
#[test]
fn operators_at_edges(rt: HostRuntime) -> Result<(), Fail> {
    for op in OPS {
        for value in EDGES {
            for two in [0, 1, 0x1_0000_0000, value] {
                let cond = cond(rt.alloc(), 0, op, value, two)?;
                let args = format!(in rt.alloc(); ",\"args\":[{cond}]")?;
                let entry = entry(rt.alloc(), "\"read\"", "TRAP", args.as_str())?;
                let profile = profile_of(&rt, "ALLOW", entry.as_str())?;
                let filter = filter_of(&rt, &profile)?;
                assert!(rt; agree(&filter, &profile, 0, 1), "{args}");
            }
        }
    }
    Ok(())
}

/// A drawn entry of two numbers below 8, with up to two conditions.
fn drawn_entry(alloc: Global, state: u64) -> Result<String, AllocError> {
    let second = next(state);
    let third = next(second);
    let fourth = next(third);
    let action = ACTIONS[(second >> 33) as usize % 6];
    let one = name((state >> 33) as u32 % 8).unwrap_or("read");
    let other = name((fourth >> 33) as u32 % 8).unwrap_or("write");
    let names = format!(in alloc; "\"{one}\",\"{other}\"")?;
    let low = cond(
        alloc,
        0,
        OPS[(third >> 33) as usize % 7],
        edge(fourth),
        edge(next(fourth)),
    )?;
    let high = cond(
        alloc,
        2,
        OPS[(fourth >> 33) as usize % 7],
        edge(third),
        edge(state),
    )?;
    let args = match (fourth >> 40) % 4 {
        0 => String::new(alloc),
        1 => format!(in alloc; ",\"args\":[{low}]")?,
        2 => format!(in alloc; ",\"args\":[{high}]")?,
        _ => format!(in alloc; ",\"args\":[{low},{high}]")?,
    };
    entry(alloc, names.as_str(), action, args.as_str())
}

#[test]
fn drawn_profiles(rt: HostRuntime) -> Result<(), Fail> {
    let mut state = 1;
    for _ in 0..60 {
        let mut entries = drawn_entry(rt.alloc(), state)?;
        for _ in 0..7 {
            state = next(next(state));
            let entry = drawn_entry(rt.alloc(), state)?;
            entries.push_str(",")?;
            entries.push_str(entry.as_str())?;
        }
        let profile = profile_of(&rt, "ERRNO", entries.as_str())?;
        let filter = filter_of(&rt, &profile)?;
        assert!(rt; agree(&filter, &profile, 0, 10), "{entries}");
        state = next(state);
    }
    Ok(())
}

/// `count` entries on one number, each with six conditions.
fn deep(alloc: Global, count: u32) -> Result<String, AllocError> {
    let mut entries = String::from_str(
        alloc,
        "{\"names\":[\"write\"],\"action\":\"SCMP_ACT_LOG\"}",
    )?;
    for at in 0..count {
        entries.push_str(",{\"names\":[\"read\"],\"action\":\"SCMP_ACT_TRAP\",\"args\":[")?;
        for index in 0..6 {
            let one = cond(alloc, index, "NE", u64::from(at), 0)?;
            entries.push_str(one.as_str())?;
            if index < 5 {
                entries.push_str(",")?;
            }
        }
        entries.push_str("]}")?;
    }
    Ok(entries)
}

/// Entries of one number each, the numbers up to this one, each with a condition of its own.
fn wide(alloc: Global, count: u32) -> Result<String, AllocError> {
    let mut entries = String::from_str(
        alloc,
        "{\"names\":[\"read\"],\"action\":\"SCMP_ACT_LOG\"}",
    )?;
    for nr in 1..count {
        if let Some(name) = name(nr) {
            let cond = cond(alloc, 1, "GT", u64::from(nr) << 28, 0)?;
            let entry = format!(in alloc;
                ",{{\"names\":[\"{name}\"],\"action\":\"SCMP_ACT_TRAP\",\"args\":[{cond}]}}"
            )?;
            entries.push_str(entry.as_str())?;
        }
    }
    Ok(entries)
}

/// `count` entries. Most name no call of the table.
fn many(alloc: Global, count: u32) -> Result<String, AllocError> {
    let mut entries = String::from_str(
        alloc,
        "{\"names\":[\"read\"],\"action\":\"SCMP_ACT_ALLOW\"}",
    )?;
    for _ in 0..count {
        entries.push_str(",{\"names\":[\"nosuchcall\"],\"action\":\"SCMP_ACT_ALLOW\"}")?;
    }
    Ok(entries)
}

// As many conditions as a filter has room for, on one number and on many, and 2,000 entries.
#[test]
fn large_profiles(rt: HostRuntime) -> Result<(), Fail> {
    let cases = [
        (deep(rt.alloc(), 92)?, 2),
        (wide(rt.alloc(), 292)?, 300),
        (many(rt.alloc(), 2000)?, 2),
    ];
    for (entries, to) in cases {
        let profile = profile_of(&rt, "ERRNO", entries.as_str())?;
        let filter = filter_of(&rt, &profile)?;
        assert!(rt; agree(&filter, &profile, 0, to), "{to}");
    }
    Ok(())
}

// Heavier profiles are refused, however deep they are: 4,002 conditions on one number, one on each call below
// number 340, and one entry more than fits.
#[test]
fn heavier_profiles(rt: HostRuntime) -> Result<(), Fail> {
    for entries in [
        deep(rt.alloc(), 667)?,
        wide(rt.alloc(), 340)?,
        deep(rt.alloc(), 93)?,
    ] {
        let profile = profile_of(&rt, "ERRNO", entries.as_str())?;
        let fault = compile(rt.alloc(), &profile).err();
        assert_eq!(rt; fault, Some(CompileFault::TooLong));
    }
    Ok(())
}
