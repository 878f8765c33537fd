ghost use Rattle.std.specs.Prelude.{◌≡◌, ◌≢◌, ◌<◌, ◌↔◌, ℕ, None, Some, length};
ghost use Rattle.oci_profile.specs.declared.placed.ProfileFaultAt.{ProfileFaultAt};
ghost use Rattle.oci_profile.specs.declared.profile.Profile.{Profile};
ghost use Rattle.oci_profile.specs.declared.reader.TheConstants.{MAX_PROFILE_BYTES};
ghost use Rattle.oci_profile.specs.Profile.{ReadsProfileWith};
ghost use Rattle.oci_profile.specs.Reading.{first_fault_at};
ghost use Rattle.sys_table.specs.SysTable.{number_in};
ghost use Rattle.sys_table.specs.declared.calls.CallTable.{CallTable};
ghost use Rattle.motchidu_c.specs.declared.status.Status.TheVariants.{Accepted, Memory, TooLarge, UnknownCall};
ghost use Rattle.motchidu_c.specs.declared.status.Status.TheVariants.{UnknownVersion};
ghost use Rattle.motchidu_c.specs.Explained.{IsAnswerOn, native_call};
ghost use Rattle.motchidu_c.specs.Status.{number_of, status_of_profile};
ghost use Rattle.motchidu_c.specs.Versions.{calls_of};

use crate::call_number::number_named;
use crate::explaining::explained;
use crate::status::Status;
use crate::versions::calls_of;
use call_data::{NATIVE_ARCH, SysCall};
use std::alloc::Global;
use sys_table::CallTable;

/// What decides the call of x86-64 with this name and these arguments under a profile, as by
/// `motchidu_explain_with`. The name is that of a call of the version of Linux that `calls` names.
#[unsafe(no_mangle)]
pub extern "C" fn motchidu_explain_name(
    alloc: Global,
    calls: u32,
    profile: &[u8],
    name: &[u8],
    args: &[u64; 6],
    decider: &mut u32,
    entry: &mut usize,
    value: &mut u32,
) -> u32
    ensures explained { (known : CallTable) (nr : ℕ) → calls_of calls ≡ Some known
        → number_in known name.now ≡ Some nr → result ≡ number_of Accepted
        → IsAnswerOn known profile.now (native_call nr args.now) decider.new entry.old entry.new value.new }
    ensures decider_kept { result ≢ number_of Accepted → decider.new ≡ decider.old }
    ensures entry_kept { result ≢ number_of Accepted → entry.new ≡ entry.old }
    ensures value_kept { result ≢ number_of Accepted → value.new ≡ value.old }

    // A name that no call has is refused before the profile is read.
    ensures unknown { (known : CallTable) → calls_of calls ≡ Some known → number_in known name.now ≡ None
        → result ≡ number_of UnknownCall }

    // Else as for `motchidu_explain`.
    ensures large { (known : CallTable) (nr : ℕ) → calls_of calls ≡ Some known
        → number_in known name.now ≡ Some nr → MAX_PROFILE_BYTES < length profile.now
        → result ≡ number_of TooLarge }
    ensures first { (known : CallTable) (nr : ℕ) (found : ProfileFaultAt) → calls_of calls ≡ Some known
        → number_in known name.now ≡ Some nr → first_fault_at known profile.now ≡ Some found
        → result ≢ number_of Memory → result ≡ number_of (status_of_profile found.fault) }
    ensures accepts { (known : CallTable) (nr : ℕ) (p : Profile) → calls_of calls ≡ Some known
        → number_in known name.now ≡ Some nr → ReadsProfileWith known profile.now p
        → result ≢ number_of Memory → result ≡ number_of Accepted }

    // A number of no version is refused.
    ensures version { (result ≡ number_of UnknownVersion) ↔ (calls_of calls ≡ None) }
{
    match calls_of(calls) {
        Some(known) => { named(alloc, known, profile, name, args, decider, entry, value).number() }
        None => Status::UnknownVersion.number(),
    }
}

/// Writes what decides the call of this name, if these are the known calls.
fn named(
    alloc: Global,
    known: CallTable,
    profile: &[u8],
    name: &[u8],
    args: &[u64; 6],
    decider: &mut u32,
    entry: &mut usize,
    value: &mut u32,
) -> Status
    ensures explained { (nr : ℕ) → number_in known name.now ≡ Some nr → result ≡ Accepted
        → IsAnswerOn known profile.now (native_call nr args.now) decider.new entry.old entry.new value.new }
    ensures decider_kept { result ≢ Accepted → decider.new ≡ decider.old }
    ensures entry_kept { result ≢ Accepted → entry.new ≡ entry.old }
    ensures value_kept { result ≢ Accepted → value.new ≡ value.old }
    ensures unknown { number_in known name.now ≡ None → result ≡ UnknownCall }
    ensures large { (nr : ℕ) → number_in known name.now ≡ Some nr → MAX_PROFILE_BYTES < length profile.now
        → result ≡ TooLarge }
    ensures first { (nr : ℕ) (found : ProfileFaultAt) → number_in known name.now ≡ Some nr
        → first_fault_at known profile.now ≡ Some found
        → result ≢ Memory → result ≡ status_of_profile found.fault }
    ensures accepts { (nr : ℕ) (p : Profile) → number_in known name.now ≡ Some nr
        → ReadsProfileWith known profile.now p → result ≢ Memory → result ≡ Accepted }
    ensures version { result ≢ UnknownVersion }
{
    match number_named(known, name) {
        Some(nr) => {
            let call = SysCall {
                nr,
                arch: NATIVE_ARCH,
                ip: 0,
                args: *args,
            };
            explained(alloc, known, profile, &call, decider, entry, value)
        }
        None => Status::UnknownCall,
    }
}
