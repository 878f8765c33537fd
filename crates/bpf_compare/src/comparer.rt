ghost use Rattle.std.specs.Prelude.{◌≡◌, IfOk, IfSome, IfNone, IsTrue};
ghost use Rattle.call_data.specs.declared.sys_call.SysCall.{SysCall};
ghost use Rattle.bpf_compare.specs.Agree.{Agree, Says};

use crate::comparison::{Comparison, Doubt};
use crate::path::{Path, Progress};
use crate::scope::Scope;
use bpf_machine::sound_code_runs;
use bpf_verify::Filter;
use std::alloc::{AllocError, Global};

/// Sees how far a comparison has come. It has no part in the result.
pub trait Watch {
    /// One more instruction is followed.
    fn follow(&mut self);
}

/// Nobody watches.
#[derive(Clone, Copy)]
pub struct Unwatched;

impl Watch for Unwatched {
    fn follow(&mut self) {}
}

/// Compares two filters on all calls of the scope, following at most `budget` instructions. The error is a
/// failed allocation.
pub fn compare(
    alloc: Global,
    first: &Filter,
    second: &Filter,
    scope: Scope,
    budget: u64,
) -> Result<Comparison, AllocError>
    ensures { IfOk result (λ found. Says found scope first.now second.now) }
{
    compare_watched(alloc, first, second, scope, budget, &mut Unwatched)
}

/// Compares two filters as [`compare`] does, while somebody watches.
///
/// A path runs the first filter to its return and then the second one. At a test that may go either way for
/// its calls it splits in two, and one part waits.
pub fn compare_watched<W: Watch>(
    alloc: Global,
    first: &Filter,
    second: &Filter,
    scope: Scope,
    budget: u64,
    watch: &mut W,
) -> Result<Comparison, AllocError>
    ensures { IfOk result (λ found. Says found scope first.now second.now) }
{
    if is_same_code(first, second) {
        return Ok(Comparison::Same);
    }
    let mut waiting = Vec::new(alloc);
    let mut path = Path::start(alloc, scope)?;
    let mut doubt = None;
    for _ in 0..budget {
        watch.follow();
        let ended = match path.advance(alloc, first, second, scope)? {
            Progress::Goes => continue,
            Progress::Splits(other) => {
                waiting.push(other)?;
                continue;
            }
            Progress::Narrows => {
                doubt = Some(Doubt::Arithmetic);
                continue;
            }
            Progress::Agrees => None,
            Progress::Differs(found) => return Ok(found),
            Progress::Unclear => Some(Doubt::Arithmetic),
        };
        doubt = ended.or(doubt);
        match waiting.pop() {
            Some(next) => path = next,
            None => return Ok(ending(doubt)),
        }
    }
    Ok(Comparison::Undecided(Doubt::Budget))
}

/// Whether both filters have the same instructions, and so the same run on every call.
fn is_same_code(first: &Filter, second: &Filter) -> bool
    ensures { IsTrue result → (call : SysCall) → Agree first.now second.now call }
{
    sound_code_runs();
    first.insns() == second.insns()
}

/// The result if no difference was found.
fn ending(doubt: Option<Doubt>) -> Comparison
    ensures told { IfSome doubt (λ why. result ≡ Comparison.Undecided why) }
    ensures none { IfNone doubt (result ≡ Comparison.Same) }
{
    match doubt {
        None => Comparison::Same,
        Some(why) => Comparison::Undecided(why),
    }
}
