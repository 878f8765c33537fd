ghost use Rattle.std.specs.Prelude.{◌≡◌, ◌+◌, ◌++◌, IfOk, OnOk, Some, drop, option_map, option_to_list};
ghost use Rattle.std.specs.Prelude.{slice_get};
ghost use Rattle.runtime_cell.specs.Keeps.{filter_in, filters_in};

use bpf_verify::Filter;
use script::Step;
use std::alloc::{AllocError, Global};
use std::collections::VecDeque;

/// Copies of the filters that steps install, in order.
#[tactic(auto, using(crate::proofs::Kept::copies_more))]
pub(crate) fn copies(alloc: Global, steps: &[Step]) -> Result<VecDeque<Filter>, AllocError>
    ensures { IfOk result (λ copies. copies.items ≡ filters_in steps.now) }
{
    let mut copies = VecDeque::new(alloc);
    for step in steps {
        add_copy(alloc, &mut copies, step)?;
    }
    Ok(copies)
}

fn add_copy(alloc: Global, copies: &mut VecDeque<Filter>, step: &Step) -> Result<(), AllocError>
    ensures { OnOk result (copies.new.items ≡ copies.old.items ++ filter_in (Some step.now)) }
{
    match filter_of(step) {
        Some(filter) => {
            copies.push_back(filter.try_clone(alloc)?)?;
            Ok(())
        }
        None => Ok(()),
    }
}

/// Removes and returns the copy of the filter that the step at this place installs, if it installs one.
pub(crate) fn take_copy(
    copies: &mut VecDeque<Filter>,
    steps: &[Step],
    place: usize,
) -> Option<Filter>
    requires { copies.old.items ≡ filters_in (drop place steps.now) }
    ensures copy { option_to_list result ≡ filter_in (slice_get steps.now place) }
    ensures rest { copies.new.items ≡ filters_in (drop (place + 1) steps.now) }
{
    let step = steps.get(place)?;
    let _installs = filter_of(step)?;
    copies.pop_front()
}

/// The filter that a step installs, if it installs one.
fn filter_of(step: &Step) -> Option<&Filter>
    ensures { option_to_list (option_map (λ filter. filter.now) result) ≡ filter_in (Some step.now) }
{
    match step {
        Step::Install { filter, .. } => Some(filter),
        Step::Call { .. } | Step::Exit(_) | Step::ExitByAttempt(_) => None,
    }
}
