//! Resolves templates of profiles.
ghost use Rattle.std.specs.Prelude.{◌≡◌};
ghost use Rattle.seccheck_cli.specs.LeavingOut.{may_be_left_out};

use absent_names::{AbsentName, kind_of};
use fault_notes::left_out_note;
use json_place::{Place, Step, stands_at};
use json_tree::text;
use oci_profile::ProfileFault;
use profile_template::{LeftOut, Settings, TemplateFault, TemplateFaultAt};
use profile_text::WriteFault;
use seccheck_stops::{FileLine, Output, Refused, Stop, bytes_at, refused_stop};
use serde_json::Value;
use std::alloc::{AllocError, Global};
use std::rt;
use sys_table::CallTable;

/// The plain profile of the template in a file, and on standard error the names that it is written without.
pub(crate) fn resolve_output<'a, R: rt::Files + AllocGlobal>(
    rt: &R,
    calls: CallTable,
    path: &'a str,
    settings: &Settings<'_>,
    drops_newer: bool,
) -> Result<Output, Stop<'a>> {
    let bytes = bytes_at(rt, path)?;
    match resolved(rt.alloc(), calls, path, &bytes, settings, drops_newer) {
        Ok(output) => Ok(output),
        Err(found) => Err(refused_stop(path, bytes, Refused::Template(found))),
    }
}

fn resolved(
    alloc: Global,
    calls: CallTable,
    path: &str,
    bytes: &[u8],
    settings: &Settings<'_>,
    drops_newer: bool,
) -> Result<Output, TemplateFaultAt> {
    let template = profile_template::read(alloc, bytes, settings)?;
    let aside = aside(
        alloc,
        path,
        bytes,
        template.left_out(alloc, calls)?,
        drops_newer,
    )?;
    match template.write(alloc, calls) {
        Ok(text) => Ok(Output::with_aside(ended(text)?, aside)),
        Err(WriteFault::Memory) => Err(AllocError.into()),
        Err(WriteFault::TooLarge | WriteFault::NoName) => Err(TemplateFaultAt {
            fault: TemplateFault::Profile(ProfileFault::TooLarge),
            place: Place::root(),
        }),
    }
}

/// The text as a line.
fn ended(text: String) -> Result<String, AllocError> {
    let mut line = text;
    line.push_str("\n")?;
    Ok(line)
}

/// A line for each name that is left out. A name that may not be left out is refused.
fn aside(
    alloc: Global,
    path: &str,
    bytes: &[u8],
    left_out: Vec<LeftOut>,
    drops_newer: bool,
) -> Result<String, TemplateFaultAt> {
    let mut lines = String::new(alloc);
    if left_out.is_empty() {
        return Ok(lines);
    }
    // The bytes were read before, so that this fails only if memory runs out.
    let tree = json_tree::read(alloc, bytes).map_err(|_| AllocError)?;
    for name in &left_out {
        let place = place_of(&tree, *name);
        if !may_be_left_out(kind_at(&tree, &place), drops_newer) {
            return Err(unknown_at(place));
        }
        let text = left_out_note(alloc, &tree, &place)?;
        let note = text.as_str();
        write!(lines, "{}", FileLine { path, note })?;
    }
    Ok(lines)
}

/// What the name at this place is.
fn kind_at(tree: &Value, place: &Place) -> AbsentName {
    let Some(found) = stands_at(tree, place) else {
        return AbsentName::Unknown;
    };
    match text(found) {
        Some(name) => kind_of(name),
        None => AbsentName::Unknown,
    }
}

/// Whether an entry that is stricter than the default means the same without such a name: no program makes the
/// call on x86-64, or calls newer than the table are dropped.
fn may_be_left_out(kind: AbsentName, drops_newer: bool) -> bool
    ensures { result ≡ may_be_left_out drops_newer kind }
{
    match kind {
        AbsentName::NotImplemented | AbsentName::OtherArchitecture => true,
        AbsentName::Newer(_) => drops_newer,
        AbsentName::Unknown => false,
    }
}

fn unknown_at(place: Place) -> TemplateFaultAt {
    let fault = TemplateFault::Profile(ProfileFault::UnknownCall);
    TemplateFaultAt { fault, place }
}

// A name of `names`, or the one of `name`.
fn place_of(tree: &Value, name: LeftOut) -> Place {
    let listed = in_entry(
        name.entry,
        Place::root()
            .within(Step::Item(name.name))
            .within(Step::Member("names")),
    );
    match stands_at(tree, &listed) {
        Some(_) => listed,
        None => in_entry(name.entry, Place::root().within(Step::Member("name"))),
    }
}

fn in_entry(entry: usize, place: Place) -> Place {
    place
        .within(Step::Item(entry))
        .within(Step::Member("syscalls"))
}
