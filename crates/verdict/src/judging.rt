ghost use Rattle.std.specs.Prelude.{◌≡◌};
ghost use Rattle.verdict.specs.Stack.{IsJudged};

use action::{Action, Verdict, ranks_are_an_order};
use bpf_machine::run;
use bpf_verify::Filter;
use call_data::SysCall;

/// Runs every filter, and keeps the verdict of the newest one among those of first rank.
pub(crate) fn judge_all(filters: &[Filter], call: &SysCall) -> Verdict
    ensures { IsJudged filters.now call.now result }
{
    ranks_are_an_order();
    let mut best = Verdict {
        action: Action::Allow,
        ret_data: 0,
    };
    for filter in filters {
        let verdict = Verdict::of_value(run(filter, call).value);
        if verdict.rank() <= best.rank() {
            best = verdict;
        }
    }
    best
}
