ghost use Rattle.std.specs.Prelude.{◌≡◌, ◌≢◌, ◌⊎◌, ◌↔◌, ℕ, List, Some, None, IfErr, IfOk, string_bytes};
ghost use Rattle.sys_table.specs.declared.calls.CallTable.{CallTable};
ghost use Rattle.sys_table.specs.declared.calls.CallTable.TheVariants.{Linux5_8};
ghost use Rattle.motchidu_c.specs.declared.status.Status.TheVariants.{Accepted, Memory, NoRoom, UnknownVersion};
ghost use Rattle.motchidu_c.specs.Room.{IsGiven};
ghost use Rattle.motchidu_c.specs.Status.{number_of, status_of_template, status_of_write};
ghost use Rattle.motchidu_c.specs.Templates.{HasNoProfile, IsResolved, IsUnresolved, ReadsTemplate};
ghost use Rattle.motchidu_c.specs.Templates.{TellsNoProfile};
ghost use Rattle.motchidu_c.specs.Versions.{calls_of};

use crate::capabilities::caps_in;
use crate::compiling::status_of_profile;
use crate::room::give;
use crate::status::Status;
use crate::versions::calls_of;
use profile_template::{Settings, TemplateFault, Version};
use profile_text::WriteFault;
use std::alloc::Global;
use sys_table::CallTable;

/// Resolves a template to the plain profile of a container with these capabilities, on x86-64 and a kernel of
/// this version. A bit of the mask is a capability's number.
#[unsafe(no_mangle)]
pub extern "C" fn motchidu_resolve(
    alloc: Global,
    template: &[u8],
    caps: u64,
    kernel_major: u32,
    kernel_minor: u32,
    text: &mut [u8],
    len: &mut usize,
) -> u32
    // A text that reads as the plain profile, if there is room for it.
    ensures resolved { (result ≡ number_of Accepted) ⊎ (result ≡ number_of NoRoom) → (bytes : List ℕ)
        × IsResolved Linux5_8 template.now bytes caps kernel_major kernel_minor
        × IsGiven bytes text.old text.new len.new result }

    // If there is none, the template's first fault, or that the profile has too many bytes.
    ensures refused { result ≢ number_of Accepted → result ≢ number_of NoRoom → result ≢ number_of Memory
        → TellsNoProfile template.now result caps kernel_major kernel_minor }

    // Only that text is written.
    ensures kept { result ≢ number_of Accepted → text.new ≡ text.old }
    ensures len_kept { result ≢ number_of Accepted → result ≢ number_of NoRoom → len.new ≡ len.old }
{
    let kernel = Version {
        major: kernel_major,
        minor: kernel_minor,
    };
    resolved(
        alloc,
        CallTable::Linux5_8,
        template,
        caps,
        kernel,
        text,
        len,
    )
    .number()
}

/// Resolves a template as `motchidu_resolve` does, if the known calls are those of the version of Linux that
/// `calls` names.
#[unsafe(no_mangle)]
pub extern "C" fn motchidu_resolve_with(
    alloc: Global,
    calls: u32,
    template: &[u8],
    caps: u64,
    kernel_major: u32,
    kernel_minor: u32,
    text: &mut [u8],
    len: &mut usize,
) -> u32
    ensures resolved { (known : CallTable) → calls_of calls ≡ Some known
        → (result ≡ number_of Accepted) ⊎ (result ≡ number_of NoRoom) → (bytes : List ℕ)
        × IsResolved known template.now bytes caps kernel_major kernel_minor
        × IsGiven bytes text.old text.new len.new result }
    ensures refused { (known : CallTable) → calls_of calls ≡ Some known
        → result ≢ number_of Accepted → result ≢ number_of NoRoom → result ≢ number_of Memory
        → TellsNoProfile template.now result caps kernel_major kernel_minor }
    ensures kept { result ≢ number_of Accepted → text.new ≡ text.old }
    ensures len_kept { result ≢ number_of Accepted → result ≢ number_of NoRoom → len.new ≡ len.old }

    // A number of no version is refused.
    ensures version { (result ≡ number_of UnknownVersion) ↔ (calls_of calls ≡ None) }
{
    let kernel = Version {
        major: kernel_major,
        minor: kernel_minor,
    };
    match calls_of(calls) {
        Some(known) => resolved(alloc, known, template, caps, kernel, text, len).number(),
        None => Status::UnknownVersion.number(),
    }
}

/// Writes the plain profile that a template is, if these are the known calls.
fn resolved(
    alloc: Global,
    known: CallTable,
    template: &[u8],
    caps: u64,
    kernel: Version,
    text: &mut [u8],
    len: &mut usize,
) -> Status
    ensures resolved { (result ≡ Accepted) ⊎ (result ≡ NoRoom) → (bytes : List ℕ)
        × IsResolved known template.now bytes caps kernel.major kernel.minor
        × IsGiven bytes text.old text.new len.new (number_of result) }
    ensures refused { result ≢ Accepted → result ≢ NoRoom → result ≢ Memory
        → HasNoProfile template.now result caps kernel.major kernel.minor }
    ensures kept { result ≢ Accepted → text.new ≡ text.old }
    ensures len_kept { result ≢ Accepted → result ≢ NoRoom → len.new ≡ len.old }
    ensures version { result ≢ UnknownVersion }
{
    match text_for(alloc, known, template, caps, kernel) {
        Ok(found) => give(found.as_bytes(), text, len),
        Err(status) => status,
    }
}

/// The plain profile's text, for these capabilities and this kernel.
fn text_for(
    alloc: Global,
    known: CallTable,
    template: &[u8],
    caps: u64,
    kernel: Version,
) -> Result<String, Status>
    ensures resolved { IfOk result (λ text. IsResolved known template.now (string_bytes text) caps kernel.major
        kernel.minor) }
    ensures refused { IfErr result (λ status. status ≢ Memory
        → HasNoProfile template.now status caps kernel.major kernel.minor) }
    ensures none { IfErr result (λ status. (status ≢ Accepted) × (status ≢ NoRoom)
        × (status ≢ UnknownVersion)) }
{
    let caps = match caps_in(alloc, caps) {
        Ok(caps) => caps,
        Err(_) => return Err(Status::Memory),
    };
    let settings = Settings {
        caps: caps.as_slice(),
        arch: "amd64",
        kernel: Some(kernel),
    };
    text_under(alloc, known, template, &settings)
}

/// The plain profile's text under these settings.
fn text_under(
    alloc: Global,
    known: CallTable,
    template: &[u8],
    settings: &Settings<'_>,
) -> Result<String, Status>
    ensures resolved { IfOk result (λ text. ReadsTemplate known settings.now template.now (string_bytes text)) }
    ensures refused { IfErr result (λ status. status ≢ Memory
        → IsUnresolved settings.now template.now status) }
    ensures none { IfErr result (λ status. (status ≢ Accepted) × (status ≢ NoRoom)
        × (status ≢ UnknownVersion)) }
{
    let template = match profile_template::read(alloc, template, settings) {
        Ok(template) => template,
        Err(found) => return Err(status_of_template(found.fault)),
    };
    match template.write(alloc, known) {
        Ok(text) => Ok(text),
        Err(fault) => Err(status_of_write(fault)),
    }
}

/// The status of a template's fault for C.
fn status_of_template(fault: TemplateFault) -> Status
    ensures { result ≡ status_of_template fault }
{
    match fault {
        TemplateFault::Profile(fault) => status_of_profile(fault),
        TemplateFault::Both => Status::Both,
        TemplateFault::UnknownErrno => Status::UnknownErrno,
        TemplateFault::BadKernel => Status::BadKernel,
    }
}

/// The status for C if the profile of a template is not written.
fn status_of_write(fault: WriteFault) -> Status
    ensures { result ≡ status_of_write fault }
{
    match fault {
        WriteFault::NoName | WriteFault::TooLarge => Status::TooLarge,
        WriteFault::Memory => Status::Memory,
    }
}
