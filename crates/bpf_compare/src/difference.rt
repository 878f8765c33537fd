ghost use Rattle.std.specs.Prelude.{◌≡◌, ℕ, IfNone, IfSome};
ghost use Rattle.bpf_compare.specs.Agree.{IsOf, Returns, Says};

use crate::comparison::Comparison;
use crate::scope::Scope;
use bpf_machine::{run, runs_are_determined};
use bpf_verify::Filter;
use call_data::SysCall;

/// Runs both filters on a call. Returns it if it is in the scope and their values differ.
pub(crate) fn difference(
    first: &Filter,
    second: &Filter,
    scope: Scope,
    call: SysCall,
) -> Option<Comparison>
    ensures told { IfSome result (λ found. Says found scope first.now second.now) }
    ensures none { IfNone result ((one other : ℕ) → IsOf scope call → Returns first.now call one
        → Returns second.now call other → one ≡ other) }
{
    runs_are_determined();
    let one = run(first, &call).value;
    let other = run(second, &call).value;
    if one != other && scope.has(call) {
        Some(Comparison::Differs(call, one, other))
    } else {
        None
    }
}
