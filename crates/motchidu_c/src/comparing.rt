ghost use Rattle.std.specs.Prelude.{◌≡◌, ◌≢◌, Err, IsOk, IfOk, IfErr};
ghost use Rattle.bpf_code.specs.declared.fault.CodeFault.{CodeFault};
ghost use Rattle.bpf_code.specs.Reading.{HasFault};
ghost use Rattle.bpf_verify.specs.declared.fault.Fault.{Fault};
ghost use Rattle.bpf_verify.specs.Refused.{IsTextOf};
ghost use Rattle.bpf_verify.specs.Sound.{IsSound};
ghost use Rattle.motchidu_c.specs.declared.status.Status.TheVariants.{Memory, Same, Differ};
ghost use Rattle.motchidu_c.specs.Compared.{AreCompared, AreShownToDiffer, IsFilter, IsOfComparison};
ghost use Rattle.motchidu_c.specs.Compared.{IsOneRefused, IsRefusedAs, SpellsFault, TellsRefusal};
ghost use Rattle.motchidu_c.specs.Compared.{call_or, scope_of, values_or};
ghost use Rattle.motchidu_c.specs.Status.{number_of, status_of_code, status_of_comparison};
ghost use Rattle.motchidu_c.specs.Status.{status_of_doubt, status_of_text};

use crate::refusal::status_of;
use crate::status::Status;
use bpf_compare::{Comparison, Doubt, Scope, compare};
use bpf_verify::{Filter, filter_of};
use std::alloc::Global;

/// Checks two filters and compares them on every call, or on every native one, following at most this many
/// instructions. If they differ, the call is one on which they do, and the values are those that the first
/// and the second return on it.
#[unsafe(no_mangle)]
pub extern "C" fn motchidu_compare(
    alloc: Global,
    first: &[u8],
    second: &[u8],
    native: bool,
    budget: u64,
    call: &mut [u8; 64],
    values: &mut [u32; 2],
) -> u32
    ensures same { result ≡ number_of Same
        → AreCompared Comparison.Same (scope_of native) first.now second.now }
    ensures differ { result ≡ number_of Differ
        → AreShownToDiffer (scope_of native) first.now second.now call.new values.new }
    ensures sound { IsOfComparison result → IsFilter first.now × IsFilter second.now }
    ensures call_kept { result ≢ number_of Differ → call.new ≡ call.old }
    ensures values_kept { result ≢ number_of Differ → values.new ≡ values.old }

    // Any other answer is that of a refused filter, of the second one only if the first is sound.
    ensures refused { ¬ IsOfComparison result → TellsRefusal first.now second.now result }

    // A first text with a fault is refused for it, even if memory runs out.
    ensures first_told { (fault : CodeFault) → HasFault first.now fault
        → result ≡ number_of (status_of_text fault) }
    ensures first_fault { (fault : Fault) → SpellsFault first.now fault
        → result ≢ number_of Memory → result ≡ number_of (status_of_code fault) }

    // If the first filter is sound, the second's fault is reported, unless memory runs out.
    ensures second_told { IsFilter first.now → (fault : CodeFault) → HasFault second.now fault
        → result ≢ number_of Memory → result ≡ number_of (status_of_text fault) }
    ensures second_fault { IsFilter first.now → (fault : Fault) → SpellsFault second.now fault
        → result ≢ number_of Memory → result ≡ number_of (status_of_code fault) }

    // Sound code is compared, unless memory runs out.
    ensures accepts { IsFilter first.now → IsFilter second.now
        → result ≢ number_of Memory → IsOfComparison result }
{
    match found_of(alloc, first, second, scope_of(native), budget) {
        Ok(found) => {
            show(found, call, values);
            status_of_comparison(found).number()
        }
        Err(status) => status.number(),
    }
}

/// How the filters in these bytes compare, or why they are not compared.
fn found_of(
    alloc: Global,
    first: &[u8],
    second: &[u8],
    scope: Scope,
    budget: u64,
) -> Result<Comparison, Status>
    ensures found { IfOk result (λ found. AreCompared found scope first.now second.now) }
    ensures refused { IfErr result (IsOneRefused first.now second.now) }
    ensures first_told { (fault : CodeFault) → HasFault first.now fault
        → result ≡ Err (status_of_text fault) }
    ensures first_fault { (fault : Fault) → SpellsFault first.now fault
        → result ≢ Err Memory → result ≡ Err (status_of_code fault) }
    ensures second_told { IsFilter first.now → (fault : CodeFault) → HasFault second.now fault
        → result ≢ Err Memory → result ≡ Err (status_of_text fault) }
    ensures second_fault { IsFilter first.now → (fault : Fault) → SpellsFault second.now fault
        → result ≢ Err Memory → result ≡ Err (status_of_code fault) }
    ensures accepts { IsFilter first.now → IsFilter second.now → result ≢ Err Memory → IsOk result }
{
    let first = match checked(alloc, first) {
        Ok(filter) => filter,
        Err(status) => return Err(status),
    };
    let second = match checked(alloc, second) {
        Ok(filter) => filter,
        Err(status) => return Err(status),
    };
    match compare(alloc, &first, &second, scope, budget) {
        Ok(found) => Ok(found),
        Err(_) => Err(Status::Memory),
    }
}

/// The filter in these bytes, or the status of its fault.
fn checked(alloc: Global, bytes: &[u8]) -> Result<Filter, Status>
    ensures text { IfOk result (IsTextOf bytes.now) }
    ensures sound { IfOk result IsSound }
    ensures refused { IfErr result (IsRefusedAs bytes.now) }
    ensures told { (fault : CodeFault) → HasFault bytes.now fault → result ≡ Err (status_of_text fault) }
    ensures first { (fault : Fault) → SpellsFault bytes.now fault
        → result ≢ Err Memory → result ≡ Err (status_of_code fault) }
    ensures accepts { IsFilter bytes.now → result ≢ Err Memory → IsOk result }
{
    match filter_of(alloc, bytes) {
        Ok(filter) => Ok(filter),
        Err(refusal) => Err(status_of(refusal)),
    }
}

/// Writes the call on which two filters differ, and what they return on it.
fn show(found: Comparison, call: &mut [u8; 64], values: &mut [u32; 2])
    ensures call { call.new ≡ call_or found call.old }
    ensures values { values.new ≡ values_or found values.old }
{
    if let Comparison::Differs(shown, one, other) = found {
        *call = shown.to_bytes();
        *values = [one, other];
    }
}

/// The calls on which to compare.
fn scope_of(native: bool) -> Scope
    ensures { result ≡ scope_of native }
{
    if native {
        Scope::NativeCalls
    } else {
        Scope::EveryCall
    }
}

/// The status of a comparison for C.
fn status_of_comparison(found: Comparison) -> Status
    ensures { result ≡ status_of_comparison found }
{
    match found {
        Comparison::Same => Status::Same,
        Comparison::Differs(..) => Status::Differ,
        Comparison::Undecided(doubt) => status_of_doubt(doubt),
    }
}

/// The status of a doubt for C.
fn status_of_doubt(doubt: Doubt) -> Status
    ensures { result ≡ status_of_doubt doubt }
{
    match doubt {
        Doubt::Budget => Status::Budget,
        Doubt::Arithmetic => Status::Arithmetic,
    }
}
