//! Reading profiles, RuntimeDefault, and compiling.
use bpf_verify::Filter;
use compile::{CompileFault, compile};
use oci_profile::{Entry, Profile, ProfileFault, runtime_default};
use std::alloc::{AllocError, Global};
use trials::{CallResult, PROFILE, Trial, TrialResult, try_call};

/// Tries the call of this name, if it is one of this module's.
pub(crate) fn run_trial(rt: &HostRuntime, name: &str) -> Option<TrialResult> {
    let alloc = rt.alloc();
    match name {
        "oci_profile::read" => Some(try_call(rt, Reads::new(alloc))),
        "runtime_default" => Some(try_call(rt, Defaults::new(alloc))),
        "compile" => Some(try_call(rt, Compiles::new(alloc))),
        _ => None,
    }
}

/// The profile that trials share.
pub(crate) fn profile(alloc: Global) -> Option<Profile> {
    oci_profile::read(alloc, PROFILE.as_bytes()).ok()
}

fn same_entry(a: &Entry, b: &Entry) -> bool {
    a.numbers.as_slice() == b.numbers.as_slice()
        && a.conds.as_slice() == b.conds.as_slice()
        && a.decision == b.decision
}

/// Whether both have the same default, and the same entries in the same order.
fn are_same(a: &Profile, b: &Profile) -> bool {
    let (entries, others) = (a.entries.as_slice(), b.entries.as_slice());
    for (entry, other) in entries.iter().zip(others) {
        if !same_entry(entry, other) {
            return false;
        }
    }
    a.default == b.default && entries.len() == others.len()
}

/// `oci_profile::read`.
#[derive(Drop)]
struct Reads {
    alloc: Global,
    wanted: Profile,
}

impl Reads {
    fn new(alloc: Global) -> Option<Reads> {
        let wanted = profile(alloc)?;
        Some(Reads { alloc, wanted })
    }
}

impl Trial for Reads {
    type Answer = Result<Profile, ProfileFault>;

    fn call(&mut self) -> Result<Profile, ProfileFault> {
        oci_profile::read(self.alloc, PROFILE.as_bytes())
    }

    fn check(&mut self, answer: &Result<Profile, ProfileFault>) -> CallResult {
        match answer {
            Ok(profile) => CallResult::right_if(are_same(profile, &self.wanted)),
            Err(ProfileFault::Memory) => CallResult::Memory,
            Err(_) => CallResult::Wrong,
        }
    }
}

/// `runtime_default`.
#[derive(Drop)]
struct Defaults {
    alloc: Global,
    wanted: Profile,
}

impl Defaults {
    fn new(alloc: Global) -> Option<Defaults> {
        let wanted = runtime_default(alloc).ok()?;
        Some(Defaults { alloc, wanted })
    }
}

impl Trial for Defaults {
    type Answer = Result<Profile, AllocError>;

    fn call(&mut self) -> Result<Profile, AllocError> {
        runtime_default(self.alloc)
    }

    fn check(&mut self, answer: &Result<Profile, AllocError>) -> CallResult {
        match answer {
            Ok(profile) => CallResult::right_if(are_same(profile, &self.wanted)),
            Err(AllocError) => CallResult::Memory,
        }
    }
}

/// `compile`.
#[derive(Drop)]
struct Compiles {
    alloc: Global,
    profile: Profile,
    wanted: Filter,
}

impl Compiles {
    fn new(alloc: Global) -> Option<Compiles> {
        let profile = profile(alloc)?;
        let wanted = compile(alloc, &profile).ok()?;
        Some(Compiles {
            alloc,
            profile,
            wanted,
        })
    }
}

impl Trial for Compiles {
    type Answer = Result<Filter, CompileFault>;

    fn call(&mut self) -> Result<Filter, CompileFault> {
        compile(self.alloc, &self.profile)
    }

    fn check(&mut self, answer: &Result<Filter, CompileFault>) -> CallResult {
        match answer {
            Ok(filter) => CallResult::right_if(filter.insns() == self.wanted.insns()),
            Err(CompileFault::Memory) => CallResult::Memory,
            Err(CompileFault::TooLong) => CallResult::Wrong,
        }
    }
}
