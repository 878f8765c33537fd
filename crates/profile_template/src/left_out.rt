ghost use Rattle.std.specs.Prelude.{◌≡◌, IfOk, flat_map, map, string_bytes};
ghost use Rattle.std.specs.List.{enumerate_from};
ghost use Rattle.profile_template.specs.Resolved.{met_entries, names_out, out_if, out_of_entry};

use crate::template::Template;
use oci_profile::Decision;
use profile_text::{NamedEntry, WriteFault, is_stricter, is_taken, write_named};
use std::alloc::{AllocError, Global};
use sys_table::CallTable;

/// A name of a template's entry that is left out of its profile.
#[derive(Clone, Copy, Debug, PartialEq, Eq)]
pub struct LeftOut {
    /// The entry's index among all entries of the template, from 0.
    pub entry: usize,
    /// The name's index among those of the entry, from 0.
    pub name: usize,
}

impl Template {
    ghost use Rattle.std.specs.Prelude.{◌≡◌, IfOk, string_bytes};
    ghost use Rattle.oci_profile.specs.Profile.{ReadsProfileWith};
    ghost use Rattle.profile_template.specs.Resolved.{left_out, profile_of};

    /// Writes the plain profile: its text reads as the profile with exactly the entries whose conditions are
    /// met, in their order, without the names that are left out.
    pub fn write(self, alloc: Global, calls: CallTable) -> Result<String, WriteFault>
        ensures { IfOk result (λ text. ReadsProfileWith calls (string_bytes text) (profile_of calls self)) }
    {
        let entries = met_entries(alloc, self.entries.into_vec())?;
        write_named(
            alloc,
            calls,
            &self.default,
            &self.architectures,
            entries.as_slice(),
        )
    }

    /// The names that are left out, in their order.
    pub fn left_out(&self, alloc: Global, calls: CallTable) -> Result<Vec<LeftOut>, AllocError>
        ensures { IfOk result (λ v. v.items ≡ left_out calls self.now) }
    {
        left_out_of(alloc, calls, &self.default, self.entries.as_slice())
    }
}

fn met_entries(
    alloc: Global,
    entries: Vec<Option<NamedEntry>>,
) -> Result<Vec<NamedEntry>, AllocError>
    ensures { IfOk result (λ v. v.items ≡ met_entries entries.items) }
{
    let mut met = Vec::new(alloc);
    for entry in entries {
        if let Some(entry) = entry {
            met.push(entry)?;
        }
    }
    Ok(met)
}

fn left_out_of(
    alloc: Global,
    calls: CallTable,
    default: &Decision,
    entries: &[Option<NamedEntry>],
) -> Result<Vec<LeftOut>, AllocError>
    ensures { IfOk result (λ v. v.items
        ≡ flat_map (out_of_entry calls default.now) (enumerate_from 0 entries.now)) }
{
    let mut found = Vec::new(alloc);
    for (index, entry) in entries.iter().enumerate() {
        let names = out_if(alloc, calls, default, index, entry)?;
        found.extend_from_slice(names.as_slice())?;
    }
    Ok(found)
}

fn out_if(
    alloc: Global,
    calls: CallTable,
    default: &Decision,
    index: usize,
    entry: &Option<NamedEntry>,
) -> Result<Vec<LeftOut>, AllocError>
    ensures { IfOk result (λ v. v.items ≡ out_if calls default.now index entry.now) }
{
    match entry {
        Some(entry) => {
            let is_stricter = is_stricter(default, &entry.decision);
            names_out(alloc, calls, is_stricter, index, entry.names.as_slice())
        }
        None => Ok(Vec::new(alloc)),
    }
}

fn names_out(
    alloc: Global,
    calls: CallTable,
    is_stricter: bool,
    entry: usize,
    names: &[String],
) -> Result<Vec<LeftOut>, AllocError>
    ensures { IfOk result (λ v. v.items ≡ names_out calls is_stricter entry (map string_bytes names.now)) }
{
    let mut found = Vec::new(alloc);
    for (index, name) in names.iter().enumerate() {
        if !is_taken(calls, is_stricter, name.as_str()) {
            found.push(LeftOut { entry, name: index })?;
        }
    }
    Ok(found)
}
