//! How the texts of a container's files are read: its script, and its profile with the profile's filter.
ghost use Rattle.std.specs.Prelude.{◌≡◌, ◌≢◌, ◌⊎◌, ◌<◌, Result, Ok, Err, IfOk, IfErr};
ghost use Rattle.bpf_code.specs.declared.limits.TheConstants.{MAX_INSNS};
ghost use Rattle.oci_profile.specs.declared.profile.Profile.{Profile};
ghost use Rattle.oci_profile.specs.Meaning.{weight};
ghost use Rattle.oci_profile.specs.Profile.{ReadsProfileWith};
ghost use Rattle.script.specs.Script.{ReadsScriptWith};
ghost use Rattle.script.specs.declared.faults.ScriptFault.{ScriptFault};
ghost use Rattle.oci_profile.specs.declared.faults.ProfileFault.{ProfileFault};
ghost use Rattle.cri_msgs.specs.declared.refusals.Refusal.{Refusal};
ghost use Rattle.runtime_cell.specs.Cell.{GivesMeaning};
ghost use Rattle.creation.specs.Made.{FileText, LacksIn, LacksScript};

use bpf_verify::Filter;
use compile::{CompileFault, compile};
use cri_msgs::Refusal;
use oci_profile::{Profile, ProfileFault};
use script::{Script, ScriptFault};
use std::alloc::{AllocError, Global};
use sys_table::CallTable;

/// What the text of a file can be read as.
pub trait ReadAs {
    // Whether this text is read as it.
    ghost is_of: { FileText → Self → Type 0 };

    // Why a file's text, or a file that could not be read, is refused.
    ghost lacks: { Result FileText Refusal → Refusal → Type 0 };

    /// Reads these bytes, if these are the known calls.
    fn read(alloc: Global, calls: CallTable, bytes: &[u8]) -> Result<Self, Refusal>
        ensures found { IfOk result (is_of (record { calls = calls; bytes = bytes.now })) }
        ensures refused { IfErr result (λ refusal.
            (refusal ≡ Refusal.Memory) ⊎ lacks (Ok (record { calls = calls; bytes = bytes.now })) refusal) };

    /// A second owner of the same value.
    fn share(&self, alloc: Global) -> Result<Self, AllocError>
        ensures { IfOk result (λ other. other ≡ self.now) };

    /// An upper bound of its memory in bytes, for a text of this length.
    fn size(&self, length: usize) -> usize;
}

// An upper bound of a step's memory in bytes, in a list that has grown.
const STEP_BYTES: usize = 160;

// An upper bound of a filter's memory in bytes.
const FILTER_BYTES: usize = 64 << 10;

impl ReadAs for Script {
    ghost use Rattle.creation.specs.Made.{IsScriptOf, LacksScript};

    ghost is_of = { IsScriptOf };

    ghost lacks = { LacksScript };

    fn read(alloc: Global, calls: CallTable, bytes: &[u8]) -> Result<Script, Refusal> {
        script_in(alloc, calls, bytes)
    }

    fn share(&self, _alloc: Global) -> Result<Script, AllocError> {
        self.share()
    }

    // Filters that a script installs take less than twice the memory of their numbers in the text.
    fn size(&self, length: usize) -> usize {
        let steps = self.len().saturating_mul(STEP_BYTES);
        length.saturating_mul(3).saturating_add(steps)
    }
}

impl ReadAs for CompiledProfile {
    ghost use Rattle.creation.specs.Made.{IsCompiledOf, LacksIn};

    ghost is_of = { IsCompiledOf };

    ghost lacks = { LacksIn };

    fn read(alloc: Global, calls: CallTable, bytes: &[u8]) -> Result<CompiledProfile, Refusal> {
        compiled_in(alloc, calls, bytes)
    }

    fn share(&self, alloc: Global) -> Result<CompiledProfile, AllocError> {
        self.try_clone(alloc)
    }

    // Entries take less than three times the memory of their text.
    fn size(&self, length: usize) -> usize {
        length.saturating_mul(4).saturating_add(FILTER_BYTES)
    }
}

fn script_refusal(fault: ScriptFault) -> Refusal
    ensures { (result ≡ Refusal.Memory)
        ⊎ ((fault ≢ ScriptFault.Memory) × (result ≡ Refusal.InvalidArgument)) }
{
    if fault == ScriptFault::Memory {
        Refusal::Memory
    } else {
        Refusal::InvalidArgument
    }
}

fn profile_refusal(fault: ProfileFault) -> Refusal
    ensures { (result ≡ Refusal.Memory)
        ⊎ ((fault ≢ ProfileFault.Memory) × (result ≡ Refusal.InvalidArgument)) }
{
    if fault == ProfileFault::Memory {
        Refusal::Memory
    } else {
        Refusal::InvalidArgument
    }
}

/// The script of a text.
fn script_in(alloc: Global, calls: CallTable, bytes: &[u8]) -> Result<Script, Refusal>
    ensures found { IfOk result (λ script. ReadsScriptWith calls bytes.now script) }
    ensures refused { IfErr result (λ refusal. (refusal ≡ Refusal.Memory)
        ⊎ LacksScript (Ok (record { calls = calls; bytes = bytes.now })) refusal) }
{
    match script::read_placed_with(alloc, calls, bytes) {
        Ok(script) => Ok(script),
        Err(found) => Err(script_refusal(found.fault)),
    }
}

/// A profile, and the filter that it is compiled to.
#[derive(Drop)]
pub struct CompiledProfile {
    pub(crate) profile: Profile,
    pub(crate) filter: Filter,
}

impl CompiledProfile {
    /// A copy.
    pub(crate) fn try_clone(&self, alloc: Global) -> Result<CompiledProfile, AllocError>
        ensures { IfOk result (λ copy. copy ≡ self.now) }
    {
        let profile = self.profile.try_clone(alloc)?;
        let filter = self.filter.try_clone(alloc)?;
        Ok(CompiledProfile { profile, filter })
    }
}

/// A profile with its filter.
pub(crate) fn compiled(alloc: Global, profile: Profile) -> Result<CompiledProfile, Refusal>
    // Reported even if memory runs out.
    ensures told { MAX_INSNS < weight profile → result ≡ Err Refusal.InvalidArgument }
    ensures made { IfOk result (λ made. (made.profile ≡ profile) × GivesMeaning made.filter profile) }
    ensures refused { IfErr result (λ refusal.
        (refusal ≡ Refusal.Memory) ⊎ ((refusal ≡ Refusal.InvalidArgument) × (MAX_INSNS < weight profile))) }
{
    match compile(alloc, &profile) {
        Ok(filter) => Ok(CompiledProfile { profile, filter }),
        Err(CompileFault::TooLong) => Err(Refusal::InvalidArgument),
        Err(CompileFault::Memory) => Err(Refusal::Memory),
    }
}

fn profile_in(alloc: Global, calls: CallTable, bytes: &[u8]) -> Result<Profile, Refusal>
    ensures found { IfOk result (λ profile. ReadsProfileWith calls bytes.now profile) }
    ensures one { IfOk result (λ profile. (other : Profile) → ReadsProfileWith calls bytes.now other
        → other ≡ profile) }
    ensures refused { IfErr result (λ refusal. (refusal ≡ Refusal.Memory)
        ⊎ (((profile : Profile) → ReadsProfileWith calls bytes.now profile → ⊥)
        × (refusal ≡ Refusal.InvalidArgument))) }
{
    match oci_profile::read_placed_with(alloc, calls, bytes) {
        Ok(profile) => Ok(profile),
        Err(found) => Err(profile_refusal(found.fault)),
    }
}

/// The profile of a text, with its filter.
fn compiled_in(alloc: Global, calls: CallTable, bytes: &[u8]) -> Result<CompiledProfile, Refusal>
    ensures found { IfOk result (λ made. ReadsProfileWith calls bytes.now made.profile) }
    ensures means { IfOk result (λ made. GivesMeaning made.filter made.profile) }
    ensures refused { IfErr result (λ refusal. (refusal ≡ Refusal.Memory)
        ⊎ LacksIn (Ok (record { calls = calls; bytes = bytes.now })) refusal) }
{
    match profile_in(alloc, calls, bytes) {
        Ok(profile) => compiled(alloc, profile),
        Err(refusal) => Err(refusal),
    }
}
