ghost use Rattle.std.specs.Prelude.{◌≡◌, ◌≢◌, ◌<◌, ◌↔◌, None, Some, Err, IsOk, IfOk, IfErr, length};
ghost use Rattle.oci_profile.specs.declared.placed.ProfileFaultAt.{ProfileFaultAt};
ghost use Rattle.oci_profile.specs.declared.profile.Profile.{Profile};
ghost use Rattle.oci_profile.specs.declared.reader.TheConstants.{MAX_PROFILE_BYTES};
ghost use Rattle.oci_profile.specs.Decision.{value_of};
ghost use Rattle.oci_profile.specs.Profile.{ReadsProfile, ReadsProfileWith};
ghost use Rattle.oci_profile.specs.Reading.{first_fault_at};
ghost use Rattle.sys_table.specs.declared.calls.CallTable.{CallTable};
ghost use Rattle.sys_table.specs.declared.calls.CallTable.TheVariants.{Linux5_8};
ghost use Rattle.motchidu_c.specs.declared.status.Status.TheVariants.{Accepted, Memory, TooLarge, UnknownVersion};
ghost use Rattle.motchidu_c.specs.Explained.{IsAnswerOn, IsDecidedUnder, IsExplained, entry_or, number_of_decider};
ghost use Rattle.motchidu_c.specs.Status.{number_of, status_of_profile};
ghost use Rattle.motchidu_c.specs.Versions.{calls_of};

use crate::calls::call_of;
use crate::compiling::status_of_profile;
use crate::status::Status;
use crate::versions::calls_of;
use call_data::SysCall;
use explain::{Decider, Explanation, explain};
use oci_profile::read_placed_with;
use std::alloc::Global;
use sys_table::CallTable;

/// What decides a call under a profile, and the value that its filter returns on the call. `entry` is the
/// index of the entry that decides, and is unchanged if none does.
#[unsafe(no_mangle)]
pub extern "C" fn motchidu_explain(
    alloc: Global,
    profile: &[u8],
    call: &[u8; 64],
    decider: &mut u32,
    entry: &mut usize,
    value: &mut u32,
) -> u32
    ensures explained { result ≡ number_of Accepted
        → IsExplained Linux5_8 profile.now call.now decider.new entry.old entry.new value.new }

    // Nothing is written unless the text is a profile.
    ensures decider_kept { result ≢ number_of Accepted → decider.new ≡ decider.old }
    ensures entry_kept { result ≢ number_of Accepted → entry.new ≡ entry.old }
    ensures value_kept { result ≢ number_of Accepted → value.new ≡ value.old }

    // A text that is no profile is refused for its first fault, and any other is accepted, unless memory runs
    // out. A text that is too long is reported in any case.
    ensures large { MAX_PROFILE_BYTES < length profile.now → result ≡ number_of TooLarge }
    ensures first { (found : ProfileFaultAt) → first_fault_at Linux5_8 profile.now ≡ Some found
        → result ≢ number_of Memory → result ≡ number_of (status_of_profile found.fault) }
    ensures accepts { (p : Profile) → ReadsProfile profile.now p
        → result ≢ number_of Memory → result ≡ number_of Accepted }
{
    let call = call_of(call);
    explained(
        alloc,
        CallTable::Linux5_8,
        profile,
        &call,
        decider,
        entry,
        value,
    )
    .number()
}

/// What decides a call as by `motchidu_explain`, if the known calls are those of the version of Linux that
/// `calls` names.
#[unsafe(no_mangle)]
pub extern "C" fn motchidu_explain_with(
    alloc: Global,
    calls: u32,
    profile: &[u8],
    call: &[u8; 64],
    decider: &mut u32,
    entry: &mut usize,
    value: &mut u32,
) -> u32
    ensures explained { (known : CallTable) → calls_of calls ≡ Some known → result ≡ number_of Accepted
        → IsExplained known profile.now call.now decider.new entry.old entry.new value.new }
    ensures decider_kept { result ≢ number_of Accepted → decider.new ≡ decider.old }
    ensures entry_kept { result ≢ number_of Accepted → entry.new ≡ entry.old }
    ensures value_kept { result ≢ number_of Accepted → value.new ≡ value.old }

    // As for `motchidu_explain`.
    ensures large { (known : CallTable) → calls_of calls ≡ Some known → MAX_PROFILE_BYTES < length profile.now
        → result ≡ number_of TooLarge }
    ensures first { (known : CallTable) (found : ProfileFaultAt) → calls_of calls ≡ Some known
        → first_fault_at known profile.now ≡ Some found
        → result ≢ number_of Memory → result ≡ number_of (status_of_profile found.fault) }
    ensures accepts { (known : CallTable) (p : Profile) → calls_of calls ≡ Some known
        → ReadsProfileWith known profile.now p → result ≢ number_of Memory → result ≡ number_of Accepted }

    // A number of no version is refused.
    ensures version { (result ≡ number_of UnknownVersion) ↔ (calls_of calls ≡ None) }
{
    match calls_of(calls) {
        Some(known) => {
            let call = call_of(call);
            explained(alloc, known, profile, &call, decider, entry, value).number()
        }
        None => Status::UnknownVersion.number(),
    }
}

/// Writes what decides a call under a profile, if these are the known calls.
pub(crate) fn explained(
    alloc: Global,
    known: CallTable,
    profile: &[u8],
    call: &SysCall,
    decider: &mut u32,
    entry: &mut usize,
    value: &mut u32,
) -> Status
    ensures explained { result ≡ Accepted
        → IsAnswerOn known profile.now call.now decider.new entry.old entry.new value.new }
    ensures decider_kept { result ≢ Accepted → decider.new ≡ decider.old }
    ensures entry_kept { result ≢ Accepted → entry.new ≡ entry.old }
    ensures value_kept { result ≢ Accepted → value.new ≡ value.old }
    ensures large { MAX_PROFILE_BYTES < length profile.now → result ≡ TooLarge }
    ensures first { (found : ProfileFaultAt) → first_fault_at known profile.now ≡ Some found
        → result ≢ Memory → result ≡ status_of_profile found.fault }
    ensures accepts { (p : Profile) → ReadsProfileWith known profile.now p
        → result ≢ Memory → result ≡ Accepted }
    ensures version { result ≢ UnknownVersion }
{
    match explanation(alloc, known, profile, call) {
        Ok(found) => {
            show(&found, decider, entry, value);
            Status::Accepted
        }
        Err(status) => status,
    }
}

/// What decides the call under the profile in a text, or why the text is no profile.
fn explanation(
    alloc: Global,
    known: CallTable,
    text: &[u8],
    call: &SysCall,
) -> Result<Explanation, Status>
    ensures found { IfOk result (λ found. IsDecidedUnder known text.now call.now found.decider
        (value_of found.decision)) }
    ensures refused { IfErr result (λ status. (status ≢ Accepted) × (status ≢ UnknownVersion)) }
    ensures large { MAX_PROFILE_BYTES < length text.now → result ≡ Err TooLarge }
    ensures first { (found : ProfileFaultAt) → first_fault_at known text.now ≡ Some found
        → result ≢ Err Memory → result ≡ Err (status_of_profile found.fault) }
    ensures accepts { (p : Profile) → ReadsProfileWith known text.now p → result ≢ Err Memory → IsOk result }
{
    let profile = match read_placed_with(alloc, known, text) {
        Ok(profile) => profile,
        Err(found) => return Err(status_of_profile(found.fault)),
    };
    match explain(alloc, &profile, call) {
        Ok(found) => Ok(found),
        Err(_) => Err(Status::Memory),
    }
}

/// Writes what decides a call, the index of the entry that does, and the value.
fn show(found: &Explanation, decider: &mut u32, entry: &mut usize, value: &mut u32)
    ensures decider { decider.new ≡ number_of_decider found.now.decider }
    ensures entry { entry.new ≡ entry_or found.now.decider entry.old }
    ensures value { value.new ≡ value_of found.now.decision }
{
    *decider = number_of_decider(found.decider);
    if let Decider::Entry(place) = found.decider {
        *entry = place;
    }
    *value = found.decision.value();
}

/// What decides, as a number of `enum motchidu_decider` in the header.
fn number_of_decider(decider: Decider) -> u32
    ensures { result ≡ number_of_decider decider }
{
    match decider {
        Decider::Entry(_) => 0,
        Decider::Default => 1,
        Decider::Architecture => 2,
        Decider::X32Bit => 3,
    }
}
