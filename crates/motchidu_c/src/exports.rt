ghost use Rattle.std.specs.Prelude.{◌≡◌, ◌≢◌, ◌≤◌, ◌↔◌, List, length};
ghost use Rattle.bpf_code.specs.declared.insn.Insn.{Insn};
ghost use Rattle.bpf_code.specs.declared.fault.CodeFault.{CodeFault};
ghost use Rattle.bpf_code.specs.Reading.{HasFault};
ghost use Rattle.bpf_code.specs.declared.limits.TheConstants.{MAX_INSNS};
ghost use Rattle.bpf_verify.specs.declared.fault.Fault.{Fault};
ghost use Rattle.bpf_verify.specs.declared.refusal.Refusal.{Refusal};
ghost use Rattle.bpf_verify.specs.Faults.{IsFirstFault};
ghost use Rattle.bpf_verify.specs.Longest.{IsLongest};
ghost use Rattle.bpf_verify.specs.Refused.{IsRefused, IsTextOf};
ghost use Rattle.bpf_verify.specs.Sound.{IsSound};
ghost use Rattle.motchidu_c.specs.declared.status.Status.TheVariants.{Accepted, Memory, Lengths};
ghost use Rattle.motchidu_c.specs.Judged.{AreJudged, HaveRoom};
ghost use Rattle.motchidu_c.specs.Status.{number_of, place_or, status_of, status_of_code, status_of_text};

use crate::calls::{have_room, run_each};
use crate::refusal::{place_of, status_of};
use crate::status::Status;
use bpf_verify::{Refusal, filter_of};
use std::alloc::Global;

/// Checks a filter. A refused filter is reported by its first fault; `at` is set if that fault has a place,
/// and is unchanged otherwise.
#[unsafe(no_mangle)]
pub extern "C" fn motchidu_verify(alloc: Global, filter: &[u8], at: &mut usize) -> u32
    ensures sound { result ≡ number_of Accepted → (code : List Insn) × IsTextOf filter.now code
        × IsSound code }
    ensures kept { result ≡ number_of Accepted → at.new ≡ at.old }
    ensures refused { result ≢ number_of Accepted → (refusal : Refusal) × IsRefused filter.now refusal
        × (result ≡ number_of (status_of refusal)) × (at.new ≡ place_or refusal at.old) }

    // A text with a fault is refused for it, even if memory runs out.
    ensures told { (fault : CodeFault) → HasFault filter.now fault
        → result ≡ number_of (status_of_text fault) }

    // Sound code is accepted, and other code is reported by its first fault, unless memory runs out.
    ensures accepts { (code : List Insn) → IsTextOf filter.now code → IsSound code
        → result ≢ number_of Memory → result ≡ number_of Accepted }
    ensures first { (code : List Insn) (fault : Fault) → IsTextOf filter.now code → length code ≤ MAX_INSNS
        → IsFirstFault code fault
        → result ≢ number_of Memory → result ≡ number_of (status_of_code fault) }
{
    match filter_of(alloc, filter) {
        Ok(_) => Status::Accepted.number(),
        Err(refusal) => report_refusal(refusal, at),
    }
}

/// Checks a filter and runs it on each of the calls, given as 64 bytes each. Nothing is written unless the
/// filter is accepted.
#[unsafe(no_mangle)]
pub extern "C" fn motchidu_run_all(
    alloc: Global,
    filter: &[u8],
    calls: &[u8],
    values: &mut [u32],
    steps: &mut [u32],
) -> u32
    ensures lengths { result ≡ number_of Lengths ↔ ¬ HaveRoom calls.now values.old steps.old }
    ensures ran { result ≡ number_of Accepted → (code : List Insn) × IsTextOf filter.now code × IsSound code
        × AreJudged code calls.now values.new steps.new }
    ensures refused { result ≢ number_of Accepted → result ≢ number_of Lengths
        → (refusal : Refusal) × IsRefused filter.now refusal × (result ≡ number_of (status_of refusal)) }

    // A text with a fault is refused for it, even if memory runs out.
    ensures told { HaveRoom calls.now values.old steps.old
        → (fault : CodeFault) → HasFault filter.now fault → result ≡ number_of (status_of_text fault) }

    // Sound code is run, and other code is reported by its first fault, unless memory runs out.
    ensures accepts { HaveRoom calls.now values.old steps.old → (code : List Insn) → IsTextOf filter.now code
        → IsSound code
        → result ≢ number_of Memory → result ≡ number_of Accepted }
    ensures first { HaveRoom calls.now values.old steps.old → (code : List Insn) (fault : Fault)
        → IsTextOf filter.now code
        → length code ≤ MAX_INSNS → IsFirstFault code fault
        → result ≢ number_of Memory → result ≡ number_of (status_of_code fault) }

    // A refused filter writes nothing.
    ensures values_kept { result ≢ number_of Accepted → values.new ≡ values.old }
    ensures steps_kept { result ≢ number_of Accepted → steps.new ≡ steps.old }
{
    if !have_room(calls, values, steps) {
        return Status::Lengths.number();
    }
    match filter_of(alloc, filter) {
        Ok(filter) => {
            run_each(&filter, calls, values, steps);
            Status::Accepted.number()
        }
        Err(refusal) => status_of(refusal).number(),
    }
}

/// Checks a filter, and writes how many instructions a run of it takes at most, whatever the call: those of
/// the longest way through it. A refused filter is reported by its first fault, as by `motchidu_verify`.
#[unsafe(no_mangle)]
pub extern "C" fn motchidu_longest(
    alloc: Global,
    filter: &[u8],
    longest: &mut u32,
    at: &mut usize,
) -> u32
    ensures longest { result ≡ number_of Accepted → (code : List Insn) × IsTextOf filter.now code
        × IsSound code
        × IsLongest code longest.new }
    ensures longest_kept { result ≢ number_of Accepted → longest.new ≡ longest.old }
    ensures kept { result ≡ number_of Accepted → at.new ≡ at.old }
    ensures refused { result ≢ number_of Accepted → (refusal : Refusal) × IsRefused filter.now refusal
        × (result ≡ number_of (status_of refusal)) × (at.new ≡ place_or refusal at.old) }

    // As for `motchidu_verify`.
    ensures told { (fault : CodeFault) → HasFault filter.now fault
        → result ≡ number_of (status_of_text fault) }
    ensures accepts { (code : List Insn) → IsTextOf filter.now code → IsSound code
        → result ≢ number_of Memory → result ≡ number_of Accepted }
    ensures first { (code : List Insn) (fault : Fault) → IsTextOf filter.now code → length code ≤ MAX_INSNS
        → IsFirstFault code fault
        → result ≢ number_of Memory → result ≡ number_of (status_of_code fault) }
{
    match filter_of(alloc, filter) {
        Ok(filter) => {
            *longest = filter.longest();
            Status::Accepted.number()
        }
        Err(refusal) => report_refusal(refusal, at),
    }
}

/// Reports a refused filter: its fault, and the fault's place if it has one.
fn report_refusal(refusal: Refusal, at: &mut usize) -> u32
    ensures number { result ≡ number_of (status_of refusal) }
    ensures place { at.new ≡ place_or refusal at.old }
{
    if let Some(place) = place_of(refusal) {
        *at = place;
    }
    status_of(refusal).number()
}
