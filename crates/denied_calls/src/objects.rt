//! Denied calls as objects of JSON (RFC 8259).
ghost use Rattle.std.specs.Prelude.{◌≡◌, IfOk, string_bytes};
ghost use Rattle.denied_calls.specs.Objects.{by_items, by_member, container_members, kind_of};
ghost use Rattle.denied_calls.specs.Objects.{row_object, total_object};

use crate::sighting::Sighting;
use crate::totalling::Total;
use action::Verdict;
use cell_records::{CallKind, CallMembers, VerdictMembers, quoted};
use explain::Decider;
use std::alloc::{AllocError, Global};
use sys_table::CallTable;

/// The object of a denied call of a container, with its count, and with its name if it is one of these calls.
/// `by` follows the other members.
pub fn row_object(
    alloc: Global,
    calls: CallTable,
    sighting: &Sighting,
    count: usize,
    by: &str,
) -> Result<String, AllocError>
    ensures { IfOk result (λ t. string_bytes t ≡ row_object calls sighting.now count by.now) }
{
    let container = container_members(alloc, sighting)?;
    let kind = kind_of(sighting.nr, sighting.arch, sighting.value);
    let (call, verdict) = (CallMembers(calls, kind), VerdictMembers(kind.verdict));
    let (attempt, first) = (sighting.attempt, sighting.first);
    let place = format!(in alloc; "\"attempt\":{attempt},\"first\":{first}")?;
    format!(in alloc; "{{{container},{call},{verdict},\"count\":{count},{place}{by}}}\n")
}

fn container_members(alloc: Global, sighting: &Sighting) -> Result<String, AllocError>
    ensures { IfOk result (λ t. string_bytes t ≡ container_members sighting.now) }
{
    let (uid, name) = (
        quoted(alloc, sighting.uid.as_str())?,
        quoted(alloc, sighting.name.as_str())?,
    );
    format!(in alloc; "\"uid\":{uid},\"name\":{name}")
}

/// A call over all containers, with its name if it is one of these calls.
pub fn total_object(alloc: Global, calls: CallTable, total: Total) -> Result<String, AllocError>
    ensures { IfOk result (λ t. string_bytes t ≡ total_object calls total) }
{
    let kind = kind_of(total.nr, total.arch, total.value);
    let (call, verdict) = (CallMembers(calls, kind), VerdictMembers(kind.verdict));
    let (count, containers) = (total.count.0, total.containers);
    format!(in alloc; "{{{call},{verdict},\"count\":{count},\"containers\":{containers}}}\n")
}

fn kind_of(nr: u32, arch: u32, value: u32) -> CallKind
    ensures { result ≡ kind_of nr arch value }
{
    CallKind {
        nr,
        arch,
        verdict: Verdict::of_value(value),
    }
}

/// The member that names the parts of a profile that denied a call: `,"by":["syscalls[1]","syscalls[3]"]`.
pub fn by_member(alloc: Global, deciders: &[Decider]) -> Result<String, AllocError>
    ensures { IfOk result (λ t. string_bytes t ≡ by_member deciders.now) }
{
    let items = by_items(alloc, deciders)?;
    format!(in alloc; ",\"by\":[{items}]")
}

fn by_items(alloc: Global, deciders: &[Decider]) -> Result<String, AllocError>
    ensures { IfOk result (λ t. string_bytes t ≡ by_items deciders.now) }
{
    let mut text = String::new(alloc);
    let Some((first, others)) = deciders.split_first() else {
        return Ok(text);
    };
    write!(text, "\"{first}\"")?;
    for other in others {
        write!(text, ",\"{other}\"")?;
    }
    Ok(text)
}
