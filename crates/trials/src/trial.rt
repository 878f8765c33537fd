//! Trying a call whose allocations can be refused.
use std::io::{self, Write};

/// What the answer of a call is.
#[derive(Clone, Copy, PartialEq, Eq)]
pub enum CallResult {
    /// The answer that a first call with enough memory returns.
    Right,
    /// Out of memory.
    Memory,
    /// Any other answer.
    Wrong,
}

impl CallResult {
    /// Right, if this holds.
    pub fn right_if(holds: bool) -> CallResult {
        if holds {
            CallResult::Right
        } else {
            CallResult::Wrong
        }
    }
}

/// A call, and the state that it is made on.
pub trait Trial {
    /// The answer of the call.
    type Answer: Drop;

    /// Makes the call, and allocates nothing besides. There are at most two calls.
    fn call(&mut self) -> Self::Answer;

    /// Compares the answer with the wanted one.
    fn check(&mut self, answer: &Self::Answer) -> CallResult;

    /// Whether the state is as it was before the call. A call that has none changes nothing.
    fn is_unchanged(&mut self) -> bool {
        true
    }
}

/// The result of a trial.
#[derive(Clone, Copy, PartialEq, Eq)]
pub enum TrialResult {
    /// There was no memory for the state, or the state is not valid.
    NotSetUp,
    /// A line around the call was not written.
    Unmarked,
    /// The answer was right.
    Right,
    /// The answer was wrong.
    Wrong,
    /// Out of memory, after which something had changed.
    Changed,
    /// Out of memory, after which nothing had changed, and the result of the same call then.
    Refused(CallResult),
}

impl TrialResult {
    /// The text that a program of trials prints.
    pub fn text(self) -> &'static str {
        match self {
            TrialResult::NotSetUp => "not set up",
            TrialResult::Unmarked => "no line can be written",
            TrialResult::Right => "right",
            TrialResult::Wrong => "wrong",
            TrialResult::Changed => "Memory, and something changed",
            TrialResult::Refused(CallResult::Right) => "Memory, nothing changed, then right",
            TrialResult::Refused(CallResult::Wrong) => "Memory, nothing changed, then wrong",
            TrialResult::Refused(CallResult::Memory) => "Memory, nothing changed, then Memory",
        }
    }
}

/// Makes the call between the two lines that delimit where allocations are counted and refused, and returns
/// the result. After a refusal the same call is made once more.
pub fn try_call<T: Trial + Drop>(rt: &HostRuntime, trial: Option<T>) -> TrialResult {
    let Some(mut trial) = trial else {
        return TrialResult::NotSetUp;
    };
    let begun = mark(rt, "call begins\n");
    let answer = trial.call();
    let ended = mark(rt, "call ended\n");
    if begun.is_err() || ended.is_err() {
        return TrialResult::Unmarked;
    }
    match trial.check(&answer) {
        CallResult::Right => TrialResult::Right,
        CallResult::Wrong => TrialResult::Wrong,
        CallResult::Memory => retry(&mut trial),
    }
}

/// The result after a refusal.
fn retry<T: Trial>(trial: &mut T) -> TrialResult {
    if !trial.is_unchanged() {
        return TrialResult::Changed;
    }
    let answer = trial.call();
    TrialResult::Refused(trial.check(&answer))
}

fn mark(rt: &HostRuntime, line: &str) -> io::Result<()> {
    rt.stderr().write_all(line.as_bytes())
}
