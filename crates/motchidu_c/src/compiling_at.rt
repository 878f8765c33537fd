ghost use Rattle.std.specs.Prelude.{◌≡◌, ◌≢◌, ◌≤◌, ◌<◌, ◌⊎◌, [], None, Some, IfOk, IsOk, length};
ghost use Rattle.std.specs.Prelude.{string_bytes};
ghost use Rattle.bpf_code.specs.declared.limits.TheConstants.{MAX_INSNS};
ghost use Rattle.json_place.specs.Places.{place_text};
ghost use Rattle.oci_profile.specs.declared.placed.ProfileFaultAt.{ProfileFaultAt};
ghost use Rattle.oci_profile.specs.declared.profile.Profile.{Profile};
ghost use Rattle.oci_profile.specs.declared.reader.TheConstants.{MAX_PROFILE_BYTES};
ghost use Rattle.oci_profile.specs.Meaning.{weight};
ghost use Rattle.oci_profile.specs.Profile.{ReadsProfile, ReadsProfileWith};
ghost use Rattle.oci_profile.specs.Reading.{first_fault_at};
ghost use Rattle.sys_table.specs.declared.calls.CallTable.TheVariants.{Linux5_8};
ghost use Rattle.motchidu_c.specs.declared.status.Status.TheVariants.{Accepted, Memory, NoRoom, TooHeavy};
ghost use Rattle.motchidu_c.specs.declared.status.Status.TheVariants.{TooLarge, UnknownVersion};
ghost use Rattle.motchidu_c.specs.Compiled.{IsCompiled, NeedsRoom};
ghost use Rattle.motchidu_c.specs.Room.{IsPut};
ghost use Rattle.motchidu_c.specs.Status.{number_of, status_of_profile};

use crate::compiling::{compiled, status_of_profile};
use crate::room::give;
use crate::status::Status;
use json_place::Place;
use oci_profile::{ProfileFault, ProfileFaultAt, read_placed_with};
use std::alloc::{AllocError, Global};
use sys_table::CallTable;

/// Compiles a profile as `motchidu_compile` does. If the text is no profile, the place of its first fault is
/// written too, if there is room for it; `place_len` is its length in bytes.
#[unsafe(no_mangle)]
pub extern "C" fn motchidu_compile_at(
    alloc: Global,
    profile: &[u8],
    filter: &mut [u8],
    len: &mut usize,
    place: &mut [u8],
    place_len: &mut usize,
) -> u32
    ensures compiled { result ≡ number_of Accepted
        → IsCompiled Linux5_8 profile.now filter.old filter.new len.new }
    ensures no_room { result ≡ number_of NoRoom → NeedsRoom Linux5_8 profile.now filter.old len.new }
    ensures kept { result ≢ number_of Accepted → filter.new ≡ filter.old }
    ensures len_kept { result ≢ number_of Accepted → result ≢ number_of NoRoom → len.new ≡ len.old }

    // As for `motchidu_compile`.
    ensures large { MAX_PROFILE_BYTES < length profile.now → result ≡ number_of TooLarge }
    ensures first { (found : ProfileFaultAt) → first_fault_at Linux5_8 profile.now ≡ Some found
        → result ≢ number_of Memory → result ≡ number_of (status_of_profile found.fault) }
    ensures heavy { (p : Profile) → ReadsProfile profile.now p → MAX_INSNS < weight p
        → result ≢ number_of Memory → result ≡ number_of TooHeavy }
    ensures accepts { (p : Profile) → ReadsProfile profile.now p → weight p ≤ MAX_INSNS
        → result ≢ number_of Memory → (result ≡ number_of Accepted) ⊎ (result ≡ number_of NoRoom) }

    // The place of that fault, unless memory runs out.
    ensures placed { (found : ProfileFaultAt) → first_fault_at Linux5_8 profile.now ≡ Some found
        → result ≢ number_of Memory → IsPut (place_text found.place) place.old place.new place_len.new }

    // No place is written for a text that is a profile, or if memory runs out.
    ensures place_kept { first_fault_at Linux5_8 profile.now ≡ None → place.new ≡ place.old }
    ensures place_len_kept { first_fault_at Linux5_8 profile.now ≡ None → place_len.new ≡ place_len.old }
    ensures memory_place { result ≡ number_of Memory → place.new ≡ place.old }
    ensures memory_place_len { result ≡ number_of Memory → place_len.new ≡ place_len.old }
{
    let known = CallTable::Linux5_8;
    compiled_at(alloc, known, profile, filter, len, place, place_len).number()
}

/// Compiles a profile if these are the known calls, and writes the place of the first fault of any other text.
pub(crate) fn compiled_at(
    alloc: Global,
    known: CallTable,
    profile: &[u8],
    filter: &mut [u8],
    len: &mut usize,
    place: &mut [u8],
    place_len: &mut usize,
) -> Status
    ensures compiled { result ≡ Accepted → IsCompiled known profile.now filter.old filter.new len.new }
    ensures no_room { result ≡ NoRoom → NeedsRoom known profile.now filter.old len.new }
    ensures kept { result ≢ Accepted → filter.new ≡ filter.old }
    ensures len_kept { result ≢ Accepted → result ≢ NoRoom → len.new ≡ len.old }

    // As for `motchidu_compile`.
    ensures large { MAX_PROFILE_BYTES < length profile.now → result ≡ TooLarge }
    ensures first { (found : ProfileFaultAt) → first_fault_at known profile.now ≡ Some found
        → result ≢ Memory → result ≡ status_of_profile found.fault }
    ensures heavy { (p : Profile) → ReadsProfileWith known profile.now p → MAX_INSNS < weight p
        → result ≢ Memory → result ≡ TooHeavy }
    ensures accepts { (p : Profile) → ReadsProfileWith known profile.now p → weight p ≤ MAX_INSNS
        → result ≢ Memory → (result ≡ Accepted) ⊎ (result ≡ NoRoom) }
    ensures version { result ≢ UnknownVersion }

    // As for `motchidu_compile_at`.
    ensures placed { (found : ProfileFaultAt) → first_fault_at known profile.now ≡ Some found
        → result ≢ Memory → IsPut (place_text found.place) place.old place.new place_len.new }
    ensures place_kept { first_fault_at known profile.now ≡ None → place.new ≡ place.old }
    ensures place_len_kept { first_fault_at known profile.now ≡ None → place_len.new ≡ place_len.old }
    ensures memory_place { result ≡ Memory → place.new ≡ place.old }
    ensures memory_place_len { result ≡ Memory → place_len.new ≡ place_len.old }
{
    match read_placed_with(alloc, known, profile) {
        Ok(profile) => compiled(alloc, &profile, filter, len),
        Err(found) => write_place(alloc, &found, place, place_len),
    }
}

/// Writes the place of a fault, if there is room for it.
fn write_place(alloc: Global, found: &ProfileFaultAt, place: &mut [u8], len: &mut usize) -> Status
    ensures told { result ≢ Memory → result ≡ status_of_profile found.now.fault }
    ensures put { result ≢ Memory → IsPut (place_text found.now.place) place.old place.new len.new }
    ensures kept { result ≡ Memory → place.new ≡ place.old }
    ensures len_kept { result ≡ Memory → len.new ≡ len.old }
    ensures whole { found.now.place ≡ [] → result ≡ status_of_profile found.now.fault }
    ensures version { result ≢ UnknownVersion }
{
    if found.fault == ProfileFault::Memory {
        return Status::Memory;
    }
    match place_text(alloc, &found.place) {
        Ok(text) => {
            let _ = give(text.as_bytes(), place, len);
            status_of_profile(found.fault)
        }
        Err(_) => Status::Memory,
    }
}

/// A place as it is printed: `syscalls[1].names[2]`. That of the whole text, which is empty, takes no memory.
fn place_text(alloc: Global, place: &Place) -> Result<String, AllocError>
    ensures text { IfOk result (λ text. string_bytes text ≡ place_text place.now) }
    ensures whole { place.now ≡ [] → IsOk result }
{
    if place.is_root() {
        return Ok(String::new(alloc));
    }
    format!(in alloc; "{place}")
}
