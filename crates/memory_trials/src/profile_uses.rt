//! Uses of profiles: the place of a fault, the text, and why a call is judged as it is.
use crate::places::is_at;
use crate::profiles::profile;
use call_data::{NATIVE_ARCH, SysCall};
use explain::{Decider, Explanation, explain, explanation_lines};
use oci_profile::{Decision, Errno, Profile, ProfileFault, ProfileFaultAt};
use profile_text::{WriteFault, default_text, write};
use std::alloc::{AllocError, Global};
use sys_table::CallTable;
use trials::{CallResult, Trial, TrialResult, try_call};

/// Tries the call of this name, if it is one of this module's.
pub(crate) fn run_trial(rt: &HostRuntime, name: &str) -> Option<TrialResult> {
    let alloc = rt.alloc();
    match name {
        "oci_profile::read_placed" => Some(try_call(rt, Some(Places { alloc }))),
        "profile_text::write" => Some(try_call(rt, Writes::new(alloc))),
        "profile_text::default_text" => Some(try_call(rt, Some(Defaults { alloc }))),
        "explain" => Some(try_call(rt, Explains::new(alloc))),
        "explanation_lines" => Some(try_call(rt, Lines::new(alloc))),
        _ => None,
    }
}

/// `oci_profile::read_placed`, of a profile with a fault in its second entry.
#[derive(Drop)]
struct Places {
    alloc: Global,
}

const FAULTY: &str = r#"{"defaultAction":"SCMP_ACT_ALLOW","syscalls":[
{"names":["read"],"action":"SCMP_ACT_LOG"},{"names":["write","ptrce"],"action":"SCMP_ACT_ERRNO"}]}"#;

impl Trial for Places {
    type Answer = Result<Profile, ProfileFaultAt>;

    fn call(&mut self) -> Result<Profile, ProfileFaultAt> {
        oci_profile::read_placed(self.alloc, FAULTY.as_bytes())
    }

    fn check(&mut self, answer: &Result<Profile, ProfileFaultAt>) -> CallResult {
        match answer {
            Ok(_) => CallResult::Wrong,
            Err(found) => match found.fault {
                ProfileFault::Memory => CallResult::Memory,
                ProfileFault::UnknownCall => {
                    CallResult::right_if(is_at(self.alloc, &found.place, "syscalls[1].names[1]"))
                },
                _ => CallResult::Wrong,
            },
        }
    }
}

/// `profile_text::write`.
#[derive(Drop)]
struct Writes {
    alloc: Global,
    profile: Profile,
    wanted: String,
}

impl Writes {
    fn new(alloc: Global) -> Option<Writes> {
        let profile = profile(alloc)?;
        let wanted = write(alloc, CallTable::Linux5_8, &profile).ok()?;
        Some(Writes {
            alloc,
            profile,
            wanted,
        })
    }
}

impl Trial for Writes {
    type Answer = Result<String, WriteFault>;

    fn call(&mut self) -> Result<String, WriteFault> {
        write(self.alloc, CallTable::Linux5_8, &self.profile)
    }

    fn check(&mut self, answer: &Result<String, WriteFault>) -> CallResult {
        match answer {
            Ok(text) => CallResult::right_if(text.as_str() == self.wanted.as_str()),
            Err(WriteFault::Memory) => CallResult::Memory,
            Err(WriteFault::NoName | WriteFault::TooLarge) => CallResult::Wrong,
        }
    }
}

/// `profile_text::default_text`.
#[derive(Drop)]
struct Defaults {
    alloc: Global,
}

impl Trial for Defaults {
    type Answer = Result<String, AllocError>;

    fn call(&mut self) -> Result<String, AllocError> {
        default_text(self.alloc)
    }

    fn check(&mut self, answer: &Result<String, AllocError>) -> CallResult {
        match answer {
            Ok(text) => CallResult::right_if(oci_profile::read(
                self.alloc,
                text.as_bytes(),
            ).is_ok()),
            Err(AllocError) => CallResult::Memory,
        }
    }
}

/// A call of `clone` with this second argument, which the third entry asks about.
fn clone_call(second: u64) -> SysCall {
    SysCall {
        nr: 56,
        arch: NATIVE_ARCH,
        ip: 0,
        args: [0, second, 0, 0, 0, 0],
    }
}

/// `explain`, of a call that an entry names and passes over.
#[derive(Drop)]
struct Explains {
    alloc: Global,
    profile: Profile,
}

impl Explains {
    fn new(alloc: Global) -> Option<Explains> {
        let profile = profile(alloc)?;
        Some(Explains { alloc, profile })
    }
}

fn passes_over_the_third(explanation: &Explanation) -> bool {
    match explanation.passed.as_slice() {
        [passed] => {
            passed.place == 2
                && passed.argument == 3
                && explanation.decider == Decider::Default
                && Errno::new(13).is_some_and(|errno| explanation.decision
                    == Decision::Errno(errno))
        }
        _ => false,
    }
}

impl Trial for Explains {
    type Answer = Result<Explanation, AllocError>;

    fn call(&mut self) -> Result<Explanation, AllocError> {
        explain(self.alloc, &self.profile, &clone_call(3))
    }

    fn check(&mut self, answer: &Result<Explanation, AllocError>) -> CallResult {
        match answer {
            Ok(explanation) => CallResult::right_if(passes_over_the_third(explanation)),
            Err(AllocError) => CallResult::Memory,
        }
    }
}

/// `explanation_lines`.
#[derive(Drop)]
struct Lines {
    alloc: Global,
    explanation: Explanation,
}

impl Lines {
    fn new(alloc: Global) -> Option<Lines> {
        let explanation = explain(alloc, &profile(alloc)?, &clone_call(3)).ok()?;
        Some(Lines { alloc, explanation })
    }
}

impl Trial for Lines {
    type Answer = Result<String, AllocError>;

    fn call(&mut self) -> Result<String, AllocError> {
        explanation_lines(self.alloc, &self.explanation)
    }

    fn check(&mut self, answer: &Result<String, AllocError>) -> CallResult {
        let wanted =
            "not syscalls[2]: args[1] is 3, wanted GT 9\nERRNO 13 (EACCES) by defaultAction\n";
        match answer {
            Ok(text) => CallResult::right_if(text.as_str() == wanted),
            Err(AllocError) => CallResult::Memory,
        }
    }
}
