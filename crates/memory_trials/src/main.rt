//! Makes one call of the libraries, for trials in which memory is refused: `memory_trials CALL [GIVEN]` marks
//! on standard error where the requests of that call begin and end, and prints its result. The calls are
//! those of filters, profiles, scripts, messages and runtimes; `node_trials` has the others.
#![tactic(auto)]

mod filters;
mod frames;
mod hints;
mod judging;
mod manifests;
mod places;
mod profile_uses;
mod profiles;
mod replies;
mod requests;
mod scripts;
mod serving;
mod stacks;

use std::{env, io};
use trials::TrialResult;

fn main(rt: HostRuntime) -> io::Result<()> {
    let words: Vec<String> = env::args(&rt)?.collect(rt.alloc())?;
    let mut words = words.as_slice().iter().skip(1).map(|word| word.as_str());
    let name = words.next().unwrap_or("");
    let given = words.next().unwrap_or("");
    let text = match run_trial(&rt, name, given) {
        Some(result) => result.text(),
        None => "there is no such call",
    };
    println!(rt; "{text}")?;
    Ok(())
}

/// Tries the call of this name, with what is given for it.
fn run_trial(rt: &HostRuntime, name: &str, given: &str) -> Option<TrialResult> {
    if let Some(result) = of_filters(rt, name) {
        return Some(result);
    }
    if let Some(result) = of_messages(rt, name) {
        return Some(result);
    }
    serving::run_trial(rt, name, given)
}

/// Tries a call for judging calls.
fn of_filters(rt: &HostRuntime, name: &str) -> Option<TrialResult> {
    if let Some(result) = filters::run_trial(rt, name) {
        return Some(result);
    }
    if let Some(result) = stacks::run_trial(rt, name) {
        return Some(result);
    }
    if let Some(result) = judging::run_trial(rt, name) {
        return Some(result);
    }
    if let Some(result) = profiles::run_trial(rt, name) {
        return Some(result);
    }
    if let Some(result) = profile_uses::run_trial(rt, name) {
        return Some(result);
    }
    scripts::run_trial(rt, name)
}

/// Tries a call for what is read and written between a user, an agent and a runtime.
fn of_messages(rt: &HostRuntime, name: &str) -> Option<TrialResult> {
    if let Some(result) = manifests::run_trial(rt, name) {
        return Some(result);
    }
    if let Some(result) = hints::run_trial(rt, name) {
        return Some(result);
    }
    if let Some(result) = requests::run_trial(rt, name) {
        return Some(result);
    }
    if let Some(result) = replies::run_trial(rt, name) {
        return Some(result);
    }
    frames::run_trial(rt, name)
}
