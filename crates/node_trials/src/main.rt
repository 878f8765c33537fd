//! Makes one call of the libraries of an agent, for trials in which memory is refused: `node_trials CALL
//! [GIVEN]` marks on standard error where the requests of that call begin and end, and prints its result.
//! `memory_trials` has the calls below an agent.
#![tactic(auto)]

mod books;
mod counting;
mod folders;
mod nodes;
mod runs;
mod waiting;
mod watching;
mod worlds;

use std::{env, io};
use trials::TrialResult;

fn main(rt: HostRuntime) -> io::Result<()> {
    let words: Vec<String> = env::args(&rt)?.collect(rt.alloc())?;
    let mut words = words.as_slice().iter().skip(1).map(|word| word.as_str());
    let name = words.next().unwrap_or("");
    let given = words.next().unwrap_or("");
    let text = match run_trial(&rt, name, given) {
        Some(result) => result.text(),
        None => "there is no such call",
    };
    println!(rt; "{text}")?;
    Ok(())
}

/// Tries the call of this name, with what is given for it.
fn run_trial(rt: &HostRuntime, name: &str, given: &str) -> Option<TrialResult> {
    if let Some(result) = of_pods(rt, name) {
        return Some(result);
    }
    if let Some(result) = nodes::run_trial(rt, name, given) {
        return Some(result);
    }
    if let Some(result) = books::run_trial(rt, name, given) {
        return Some(result);
    }
    worlds::run_trial(rt, name, given)
}

/// Tries a call of what an agent shows of its pods, of their past runs, or of its folder of manifests.
fn of_pods(rt: &HostRuntime, name: &str) -> Option<TrialResult> {
    if let Some(result) = watching::run_trial(rt, name) {
        return Some(result);
    }
    if let Some(result) = waiting::run_trial(rt, name) {
        return Some(result);
    }
    if let Some(result) = runs::run_trial(rt, name) {
        return Some(result);
    }
    folders::run_trial(rt, name)
}
