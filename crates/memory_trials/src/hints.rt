//! Hints on refused files.
use std::alloc::{AllocError, Global};
use trials::{CallResult, Trial, TrialResult, try_call};
use wrong_files::{Hint, Wanted, hint_of_filter, hint_of_text};

/// Tries the call of this name, if it is one of this module's.
pub(crate) fn run_trial(rt: &HostRuntime, name: &str) -> Option<TrialResult> {
    let alloc = rt.alloc();
    match name {
        "hint_of_text" => Some(try_call(rt, Some(OfText { alloc }))),
        "hint_of_filter" => Some(try_call(rt, Some(OfFilter { alloc }))),
        _ => None,
    }
}

/// A manifest. That is the last hint that is try_call where a profile is wanted.
const POD: &str =
    r#"{"apiVersion":"v1","kind":"Pod","metadata":{"name":"web-in-front"},"spec":{"containers":[]}}"#;

/// The Base64 of a filter that allows every call, as a line.
const BASE64: &str = "BgAAAAAA/38=\n";

/// `hint_of_text`.
#[derive(Drop)]
struct OfText {
    alloc: Global,
}

impl Trial for OfText {
    type Answer = Result<Option<Hint>, AllocError>;

    fn call(&mut self) -> Result<Option<Hint>, AllocError> {
        hint_of_text(self.alloc, POD.as_bytes(), Wanted::Profile)
    }

    fn check(&mut self, answer: &Result<Option<Hint>, AllocError>) -> CallResult {
        match answer {
            Ok(hint) => CallResult::right_if(*hint == Some(Hint::Manifest)),
            Err(AllocError) => CallResult::Memory,
        }
    }
}

/// `hint_of_filter`.
#[derive(Drop)]
struct OfFilter {
    alloc: Global,
}

impl Trial for OfFilter {
    type Answer = Result<Option<Hint>, AllocError>;

    fn call(&mut self) -> Result<Option<Hint>, AllocError> {
        hint_of_filter(self.alloc, BASE64.as_bytes())
    }

    fn check(&mut self, answer: &Result<Option<Hint>, AllocError>) -> CallResult {
        match answer {
            Ok(hint) => CallResult::right_if(*hint == Some(Hint::Base64)),
            Err(AllocError) => CallResult::Memory,
        }
    }
}
