ghost use Rattle.std.specs.Prelude.{IfOk, string_bytes};
ghost use Rattle.fault_notes.specs.Notes.{IsNote, IsPlaceNote, Says};
ghost use Rattle.fault_notes.specs.declared.named.Named.{Named};

use crate::named::{Kind, Named, kind_of};
use crate::places::{PlaceNote, shown_at};
use crate::texts::TextNote;
use crate::wanted::wanted_at;
use json_place::{Place, Shown};
use json_tree::TextFault;
use manifest::PodFaultAt;
use oci_profile::ProfileFaultAt;
use profile_template::TemplateFaultAt;
use script::ScriptFaultAt;
use serde_json::Value;
use std::alloc::{AllocError, Global};

/// The note after the name of a file that is not a profile:
/// `: syscalls[1].names[2]: UnknownCall: "ptrce" (did you mean ptrace?)`.
pub fn profile_note(
    alloc: Global,
    bytes: &[u8],
    found: &ProfileFaultAt,
) -> Result<String, AllocError>
    ensures { IfOk result (λ text. IsNote bytes.now (Named.Profile found.now.fault) found.now.place
        (string_bytes text)) }
{
    note(alloc, bytes, Named::Profile(found.fault), &found.place)
}

/// The note on a text that is not a template of a profile.
pub fn template_note(
    alloc: Global,
    bytes: &[u8],
    found: &TemplateFaultAt,
) -> Result<String, AllocError>
    ensures { IfOk result (λ text. IsNote bytes.now (Named.Template found.now.fault) found.now.place
        (string_bytes text)) }
{
    note(alloc, bytes, Named::Template(found.fault), &found.place)
}

/// The note after the name of a template's file, which has this tree, on a name that is left out of the
/// profile: `: syscalls[6].names[0]: LeftOut: "umount"`.
pub fn left_out_note(alloc: Global, tree: &Value, place: &Place) -> Result<String, AllocError> {
    place_line(alloc, Named::LeftOut, place, shown_at(tree, place))
}

/// The note on a text that is not a manifest.
pub fn manifest_note(alloc: Global, bytes: &[u8], found: &PodFaultAt) -> Result<String, AllocError>
    ensures { IfOk result (λ text. IsNote bytes.now (Named.Manifest found.now.fault) found.now.place
        (string_bytes text)) }
{
    note(alloc, bytes, Named::Manifest(found.fault), &found.place)
}

/// The note on a text that is not a script.
pub fn script_note(alloc: Global, bytes: &[u8], found: &ScriptFaultAt) -> Result<String, AllocError>
    ensures { IfOk result (λ text. IsNote bytes.now (Named.Script found.now.fault) found.now.place
        (string_bytes text)) }
{
    note(alloc, bytes, Named::Script(found.fault), &found.place)
}

fn note(alloc: Global, bytes: &[u8], fault: Named, place: &Place) -> Result<String, AllocError>
    ensures { IfOk result (λ text. IsNote bytes.now fault place.now (string_bytes text)) }
{
    match kind_of(fault) {
        Kind::NoJson => format!(in alloc; "{}", TextNote::of(alloc, bytes, fault)),
        Kind::TooLarge => format!(in alloc; ": {fault}"),
        Kind::Placed => noted_place(alloc, bytes, fault, place),
    }
}

// Parses the text again to show the value there.
fn noted_place(
    alloc: Global,
    bytes: &[u8],
    fault: Named,
    place: &Place,
) -> Result<String, AllocError>
    ensures { IfOk result (λ text. IsPlaceNote bytes.now fault place.now (string_bytes text)) }
{
    match json_tree::read(alloc, bytes) {
        Ok(tree) => place_line(alloc, fault, place, shown_at(&tree, place)),
        Err(TextFault::NotJson) => place_line(alloc, fault, place, None),
        Err(TextFault::Memory) => Err(AllocError),
    }
}

fn place_line(
    alloc: Global,
    fault: Named,
    place: &Place,
    shown: Option<Shown<'_>>,
) -> Result<String, AllocError>
    ensures { IfOk result (λ text. Says place.now fault shown.entry (string_bytes text)) }
{
    let wanted = wanted_at(fault, place);
    let note = PlaceNote {
        place,
        fault,
        shown,
        wanted,
    };
    format!(in alloc; "{note}")
}
