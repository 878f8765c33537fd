//! Denied calls as lines of a table.
ghost use Rattle.std.specs.Prelude.{◌≡◌, [], ◌∷◌, IfOk, codes, map, string_bytes};
ghost use Rattle.denied_calls.specs.Lines.{by_text, others_text, row_cells, total_cells};

use crate::shown::CallText;
use crate::sighting::Sighting;
use crate::totalling::Total;
use action::ValueText;
use explain::Decider;
use std::alloc::{AllocError, Global};
use sys_table::CallTable;

/// The head of the table of containers.
pub fn row_head(alloc: Global) -> Result<Vec<String>, AllocError>
    ensures { IfOk result (λ v. map string_bytes v.items ≡ codes "POD" ∷ codes "CONTAINER" ∷ codes "CALL"
        ∷ codes "VERDICT" ∷ codes "TIMES" ∷ codes "FIRST" ∷ []) }
{
    let pod = String::from_str(alloc, "POD")?;
    let container = String::from_str(alloc, "CONTAINER")?;
    let call = String::from_str(alloc, "CALL")?;
    let verdict = String::from_str(alloc, "VERDICT")?;
    let times = String::from_str(alloc, "TIMES")?;
    let first = String::from_str(alloc, "FIRST")?;
    Ok(vec![in alloc; pod, container, call, verdict, times, first]?)
}

/// The line of a denied call of a container: its verdict, its count, and the place of its first sighting. The
/// call is named if it is one of these calls.
pub fn row_line(
    alloc: Global,
    calls: CallTable,
    sighting: &Sighting,
    count: usize,
) -> Result<Vec<String>, AllocError>
    ensures { IfOk result (λ v. map string_bytes v.items ≡ row_cells calls sighting.now count) }
{
    let (nr, arch) = (sighting.nr, sighting.arch);
    let (call, verdict) = (CallText { calls, nr, arch }, ValueText(sighting.value));
    let (attempt, first) = (sighting.attempt, sighting.first);
    let pod = String::from_str(alloc, sighting.uid.as_str())?;
    let container = String::from_str(alloc, sighting.name.as_str())?;
    let call = format!(in alloc; "{call}")?;
    let verdict = format!(in alloc; "{verdict}")?;
    let times = format!(in alloc; "{count}")?;
    let first = format!(in alloc; "attempt {attempt}, call {first}")?;
    Ok(vec![in alloc; pod, container, call, verdict, times, first]?)
}

/// The head of the table of calls.
pub fn total_head(alloc: Global) -> Result<Vec<String>, AllocError>
    ensures { IfOk result (λ v. map string_bytes v.items ≡ codes "CALL" ∷ codes "VERDICT" ∷ codes "TIMES"
        ∷ codes "CONTAINERS" ∷ []) }
{
    let call = String::from_str(alloc, "CALL")?;
    let verdict = String::from_str(alloc, "VERDICT")?;
    let times = String::from_str(alloc, "TIMES")?;
    let containers = String::from_str(alloc, "CONTAINERS")?;
    Ok(vec![in alloc; call, verdict, times, containers]?)
}

/// The line of a call over all containers. It is named if it is one of these calls.
pub fn total_line(alloc: Global, calls: CallTable, total: Total) -> Result<Vec<String>, AllocError>
    ensures { IfOk result (λ v. map string_bytes v.items ≡ total_cells calls total) }
{
    let (nr, arch) = (total.nr, total.arch);
    let (call, verdict) = (CallText { calls, nr, arch }, ValueText(total.value));
    let (count, containers) = (total.count.0, total.containers);
    let call = format!(in alloc; "{call}")?;
    let verdict = format!(in alloc; "{verdict}")?;
    let times = format!(in alloc; "{count}")?;
    let containers = format!(in alloc; "{containers}")?;
    Ok(vec![in alloc; call, verdict, times, containers]?)
}

/// What of a profile denied a call: `syscalls[1], syscalls[3]`, or `-` for nothing of it.
pub fn by_cell(alloc: Global, deciders: &[Decider]) -> Result<String, AllocError>
    ensures { IfOk result (λ t. string_bytes t ≡ by_text deciders.now) }
{
    let mut text = String::new(alloc);
    let Some((first, others)) = deciders.split_first() else {
        text.push_str("-")?;
        return Ok(text);
    };
    write!(text, "{first}")?;
    for other in others {
        write!(text, ", {other}")?;
    }
    Ok(text)
}
