//! Runs of a container that ended.
use lifecycle::{PastRun, Runs};
use trials::{CallResult, Trial, TrialResult, try_call};

/// Tries the call of this name, if it is one of this module's.
pub(crate) fn run_trial(rt: &HostRuntime, name: &str) -> Option<TrialResult> {
    match name {
        "Runs::push" => Some(try_call(rt, Some(Pushes { runs: Runs::new() }))),
        _ => None,
    }
}

/// Whether two runs are the same.
pub(crate) fn same_run(a: &PastRun, b: &PastRun) -> bool {
    a.started() == b.started() && a.code() == b.code() && a.recorded() == b.recorded()
}

/// Whether both show the same runs.
pub(crate) fn same_runs(a: &Runs, b: &Runs) -> bool {
    let same_last = match (a.last(), b.last()) {
        (Some(run), Some(other)) => same_run(run, other),
        (None, None) => true,
        _ => false,
    };
    same_last && a.count() == b.count() && a.ready_at() == b.ready_at()
}

/// A million times `Runs::push`, for a container that ends once a second.
#[derive(Drop)]
struct Pushes {
    runs: Runs,
}

impl Trial for Pushes {
    type Answer = bool;

    fn call(&mut self) -> bool {
        for second in 0..1_000_000 {
            let run = PastRun::new(second, 1, second + 1);
            if self.runs.push(run).is_err() {
                return false;
            }
        }
        true
    }

    fn check(&mut self, answer: &bool) -> CallResult {
        let Some(last) = self.runs.last() else {
            return CallResult::Wrong;
        };
        let is_last = same_run(last, &PastRun::new(999_999, 1, 1_000_000));
        let is_all = self.runs.count() == 1_000_000 && self.runs.ready_at() == 1_000_300;
        CallResult::right_if(*answer && is_last && is_all)
    }
}
