ghost use Rattle.std.specs.Prelude.{◌≡◌, ◌≢◌, ◌≤◌, ◌<◌, ◌⊎◌, ℕ, List, Some, Err, IsOk, IfOk, IfErr, length};
ghost use Rattle.bpf_code.specs.declared.limits.TheConstants.{MAX_INSNS};
ghost use Rattle.oci_profile.specs.declared.faults.ProfileFault.{ProfileFault};
ghost use Rattle.oci_profile.specs.declared.profile.Profile.{Profile};
ghost use Rattle.oci_profile.specs.declared.reader.TheConstants.{MAX_PROFILE_BYTES};
ghost use Rattle.oci_profile.specs.Meaning.{weight};
ghost use Rattle.oci_profile.specs.Profile.{ReadsProfile, ReadsProfileWith};
ghost use Rattle.oci_profile.specs.Reading.{first_fault};
ghost use Rattle.sys_table.specs.declared.calls.CallTable.{CallTable};
ghost use Rattle.sys_table.specs.declared.calls.CallTable.TheVariants.{Linux5_8};
ghost use Rattle.motchidu_c.specs.declared.status.Status.TheVariants.{Accepted, Memory, NoRoom, TooHeavy};
ghost use Rattle.motchidu_c.specs.declared.status.Status.TheVariants.{TooLarge, UnknownVersion};
ghost use Rattle.motchidu_c.specs.Compiled.{IsCompiled, IsFilterOf, NeedsRoom};
ghost use Rattle.motchidu_c.specs.Status.{number_of, status_of_compile, status_of_profile};

use crate::room::give;
use crate::status::Status;
use bpf_code::write;
use compile::{CompileFault, compile};
use oci_profile::{Profile, ProfileFault};
use std::alloc::Global;

/// Compiles a profile to a filter, whose bytes are the first of the room; `len` is their number. If there is
/// no room for them, `len` is how many there would be.
#[unsafe(no_mangle)]
pub extern "C" fn motchidu_compile(
    alloc: Global,
    profile: &[u8],
    filter: &mut [u8],
    len: &mut usize,
) -> u32
    ensures compiled { result ≡ number_of Accepted
        → IsCompiled Linux5_8 profile.now filter.old filter.new len.new }
    ensures no_room { result ≡ number_of NoRoom → NeedsRoom Linux5_8 profile.now filter.old len.new }

    // Only a filter is written.
    ensures kept { result ≢ number_of Accepted → filter.new ≡ filter.old }
    ensures len_kept { result ≢ number_of Accepted → result ≢ number_of NoRoom → len.new ≡ len.old }

    // A text that is no profile is refused for its first fault, a profile that is too heavy as such, and any
    // other is compiled, unless memory runs out. A text that is too long is reported in any case.
    ensures large { MAX_PROFILE_BYTES < length profile.now → result ≡ number_of TooLarge }
    ensures first { (fault : ProfileFault) → first_fault Linux5_8 profile.now ≡ Some fault
        → result ≢ number_of Memory → result ≡ number_of (status_of_profile fault) }
    ensures heavy { (p : Profile) → ReadsProfile profile.now p → MAX_INSNS < weight p
        → result ≢ number_of Memory → result ≡ number_of TooHeavy }
    ensures accepts { (p : Profile) → ReadsProfile profile.now p → weight p ≤ MAX_INSNS
        → result ≢ number_of Memory → (result ≡ number_of Accepted) ⊎ (result ≡ number_of NoRoom) }
{
    match oci_profile::read(alloc, profile) {
        Ok(profile) => compiled(alloc, &profile, filter, len).number(),
        Err(fault) => status_of_profile(fault).number(),
    }
}

/// Compiles a profile that was read. The filter's bytes are the first of the room; `len` is how many.
pub(crate) fn compiled(
    alloc: Global,
    profile: &Profile,
    filter: &mut [u8],
    len: &mut usize,
) -> Status
    ensures compiled { result ≡ Accepted → (calls : CallTable) (text : List ℕ)
        → ReadsProfileWith calls text profile.now → IsCompiled calls text filter.old filter.new len.new }
    ensures no_room { result ≡ NoRoom → (calls : CallTable) (text : List ℕ)
        → ReadsProfileWith calls text profile.now → NeedsRoom calls text filter.old len.new }
    ensures kept { result ≢ Accepted → filter.new ≡ filter.old }
    ensures len_kept { result ≢ Accepted → result ≢ NoRoom → len.new ≡ len.old }
    ensures heavy { MAX_INSNS < weight profile.now → result ≢ Memory → result ≡ TooHeavy }
    ensures accepts { weight profile.now ≤ MAX_INSNS → result ≢ Memory
        → (result ≡ Accepted) ⊎ (result ≡ NoRoom) }
    ensures version { result ≢ UnknownVersion }
{
    match bytes_of(alloc, profile) {
        Ok(bytes) => give(&bytes, filter, len),
        Err(status) => status,
    }
}

/// The bytes of a profile's filter.
fn bytes_of(alloc: Global, profile: &Profile) -> Result<Vec<u8>, Status>
    ensures filter { IfOk result (λ bytes. IsFilterOf profile.now bytes.items) }
    ensures refused { IfErr result (λ status. (status ≢ Accepted) × (status ≢ NoRoom)) }
    ensures version { result ≢ Err UnknownVersion }
    ensures light { IfOk result (λ _. weight profile.now ≤ MAX_INSNS) }
    ensures heavy { MAX_INSNS < weight profile.now → result ≢ Err Memory → result ≡ Err TooHeavy }
    ensures accepts { weight profile.now ≤ MAX_INSNS → result ≢ Err Memory → IsOk result }
{
    let filter = match compile(alloc, profile) {
        Ok(filter) => filter,
        Err(fault) => return Err(status_of_compile(fault)),
    };
    match write(alloc, filter.insns()) {
        Ok(bytes) => Ok(bytes),
        Err(_) => Err(Status::Memory),
    }
}

/// The status of a profile's fault for C.
pub(crate) fn status_of_profile(fault: ProfileFault) -> Status
    ensures { result ≡ status_of_profile fault }
{
    match fault {
        ProfileFault::NotJson => Status::NotJson,
        ProfileFault::NotObject => Status::NotObject,
        ProfileFault::Missing => Status::Missing,
        ProfileFault::WrongType => Status::WrongType,
        ProfileFault::UnknownAction => Status::UnknownAction,
        ProfileFault::UnknownOp => Status::UnknownOp,
        ProfileFault::BadIndex => Status::BadIndex,
        ProfileFault::EmptyNames => Status::EmptyNames,
        ProfileFault::RepeatedIndex => Status::RepeatedIndex,
        ProfileFault::ErrnoNotAllowed => Status::ErrnoNotAllowed,
        ProfileFault::ErrnoTooLarge => Status::ErrnoTooLarge,
        ProfileFault::UnknownCall => Status::UnknownCall,
        ProfileFault::Notify => Status::Notify,
        ProfileFault::TooLarge => Status::TooLarge,
        ProfileFault::Memory => Status::Memory,
    }
}

/// The status of a compiler's fault for C.
fn status_of_compile(fault: CompileFault) -> Status
    ensures { result ≡ status_of_compile fault }
{
    match fault {
        CompileFault::TooLong => Status::TooHeavy,
        CompileFault::Memory => Status::Memory,
    }
}
