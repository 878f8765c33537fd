//! The building blocks of this crate's tests.
use bpf_verify::Filter;
use call_data::{NATIVE_ARCH, SysCall};
use compile::compile;
use oci_profile::{Profile, read};
use std::alloc::{AllocError, Global};
use std::test::Fail;

pub(crate) fn call(nr: u32, first: u64, third: u64) -> SysCall {
    SysCall {
        nr,
        arch: NATIVE_ARCH,
        ip: 0,
        args: [first, 0, third, 0, 0, 0],
    }
}

/// The profile with this default action and these entries.
pub(crate) fn profile_of(rt: &HostRuntime, default: &str, entries: &str) -> Result<Profile, Fail> {
    let text = format!(in rt.alloc();
        "{{\"defaultAction\":\"SCMP_ACT_{default}\",\"syscalls\":[{entries}]}}"
    )?;
    match read(rt.alloc(), text.as_bytes()) {
        Ok(profile) => Ok(profile),
        Err(_) => Err("a profile")?,
    }
}

pub(crate) fn filter_of(rt: &HostRuntime, profile: &Profile) -> Result<Filter, Fail> {
    match compile(rt.alloc(), profile) {
        Ok(filter) => Ok(filter),
        Err(_) => Err("light enough")?,
    }
}

/// An entry of these names, with the text after its action.
pub(crate) fn entry(
    alloc: Global,
    names: &str,
    action: &str,
    more: &str,
) -> Result<String, AllocError> {
    format!(in alloc; "{{\"names\":[{names}],\"action\":\"SCMP_ACT_{action}\"{more}}}")
}

/// Numbers at the edges of the halves.
pub(crate) const EDGES: [u64; 8] = [
    0,
    1,
    0xffff_ffff,
    0x1_0000_0000,
    0x1_0000_0001,
    0x2_0000_0000,
    0xffff_ffff_0000_0000,
    u64::MAX,
];

pub(crate) const OPS: [&str; 7] = ["NE", "LT", "LE", "EQ", "GE", "GT", "MASKED_EQ"];

pub(crate) const ACTIONS: [&str; 6] = ["ALLOW", "LOG", "TRAP", "KILL", "KILL_PROCESS", "ERRNO"];

/// The next number of a fixed generator.
pub(crate) fn next(state: u64) -> u64 {
    state
        .wrapping_mul(6_364_136_223_846_793_005)
        .wrapping_add(1_442_695_040_888_963_407)
}

pub(crate) fn edge(state: u64) -> u64 {
    EDGES[(state >> 33) as usize % 8]
}

/// A condition on this argument.
pub(crate) fn cond(
    alloc: Global,
    index: u32,
    op: &str,
    value: u64,
    two: u64,
) -> Result<String, AllocError> {
    format!(in alloc;
        "{{\"index\":{index},\"value\":{value},\"valueTwo\":{two},\"op\":\"SCMP_CMP_{op}\"}}"
    )
}
