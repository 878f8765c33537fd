ghost use Rattle.std.specs.Prelude.{◌≡◌, ◌≢◌, ◌≤◌, ◌<◌, ◌⊎◌, ◌↔◌, None, Some, length};
ghost use Rattle.bpf_code.specs.declared.limits.TheConstants.{MAX_INSNS};
ghost use Rattle.json_place.specs.Places.{place_text};
ghost use Rattle.oci_profile.specs.declared.placed.ProfileFaultAt.{ProfileFaultAt};
ghost use Rattle.oci_profile.specs.declared.profile.Profile.{Profile};
ghost use Rattle.oci_profile.specs.declared.reader.TheConstants.{MAX_PROFILE_BYTES};
ghost use Rattle.oci_profile.specs.Meaning.{weight};
ghost use Rattle.oci_profile.specs.Profile.{ReadsProfileWith};
ghost use Rattle.oci_profile.specs.Reading.{first_fault_at};
ghost use Rattle.sys_table.specs.declared.calls.CallTable.{CallTable};
ghost use Rattle.motchidu_c.specs.declared.status.Status.TheVariants.{Accepted, Memory, NoRoom, TooHeavy};
ghost use Rattle.motchidu_c.specs.declared.status.Status.TheVariants.{TooLarge, UnknownVersion};
ghost use Rattle.motchidu_c.specs.Compiled.{IsCompiled, NeedsRoom};
ghost use Rattle.motchidu_c.specs.Room.{IsPut};
ghost use Rattle.motchidu_c.specs.Status.{number_of, status_of_profile};
ghost use Rattle.motchidu_c.specs.Versions.{calls_of};

use crate::compiling_at::compiled_at;
use crate::status::Status;
use crate::versions::calls_of;
use std::alloc::Global;

/// Compiles a profile as `motchidu_compile_at` does. The known calls are those of a version of Linux, which
/// `calls` names.
#[unsafe(no_mangle)]
pub extern "C" fn motchidu_compile_with(
    alloc: Global,
    calls: u32,
    profile: &[u8],
    filter: &mut [u8],
    len: &mut usize,
    place: &mut [u8],
    place_len: &mut usize,
) -> u32
    ensures compiled { (known : CallTable) → calls_of calls ≡ Some known → result ≡ number_of Accepted
        → IsCompiled known profile.now filter.old filter.new len.new }
    ensures no_room { (known : CallTable) → calls_of calls ≡ Some known → result ≡ number_of NoRoom
        → NeedsRoom known profile.now filter.old len.new }
    ensures kept { result ≢ number_of Accepted → filter.new ≡ filter.old }
    ensures len_kept { result ≢ number_of Accepted → result ≢ number_of NoRoom → len.new ≡ len.old }

    // As for `motchidu_compile`.
    ensures large { (known : CallTable) → calls_of calls ≡ Some known → MAX_PROFILE_BYTES < length profile.now
        → result ≡ number_of TooLarge }
    ensures first { (known : CallTable) (found : ProfileFaultAt) → calls_of calls ≡ Some known
        → first_fault_at known profile.now ≡ Some found
        → result ≢ number_of Memory → result ≡ number_of (status_of_profile found.fault) }
    ensures heavy { (known : CallTable) (p : Profile) → calls_of calls ≡ Some known
        → ReadsProfileWith known profile.now p → MAX_INSNS < weight p
        → result ≢ number_of Memory → result ≡ number_of TooHeavy }
    ensures accepts { (known : CallTable) (p : Profile) → calls_of calls ≡ Some known
        → ReadsProfileWith known profile.now p → weight p ≤ MAX_INSNS
        → result ≢ number_of Memory → (result ≡ number_of Accepted) ⊎ (result ≡ number_of NoRoom) }

    // As for `motchidu_compile_at`.
    ensures placed { (known : CallTable) (found : ProfileFaultAt) → calls_of calls ≡ Some known
        → first_fault_at known profile.now ≡ Some found
        → result ≢ number_of Memory → IsPut (place_text found.place) place.old place.new place_len.new }
    ensures place_kept { (known : CallTable) → calls_of calls ≡ Some known
        → first_fault_at known profile.now ≡ None → place.new ≡ place.old }
    ensures place_len_kept { (known : CallTable) → calls_of calls ≡ Some known
        → first_fault_at known profile.now ≡ None → place_len.new ≡ place_len.old }
    ensures memory_place { result ≡ number_of Memory → place.new ≡ place.old }
    ensures memory_place_len { result ≡ number_of Memory → place_len.new ≡ place_len.old }

    // A number of no version is refused, and nothing is written.
    ensures version { (result ≡ number_of UnknownVersion) ↔ (calls_of calls ≡ None) }
    ensures version_place { calls_of calls ≡ None → place.new ≡ place.old }
    ensures version_place_len { calls_of calls ≡ None → place_len.new ≡ place_len.old }
{
    match calls_of(calls) {
        Some(known) => {
            compiled_at(alloc, known, profile, filter, len, place, place_len).number()
        }
        None => Status::UnknownVersion.number(),
    }
}
