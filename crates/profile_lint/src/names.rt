ghost use Rattle.std.specs.Prelude.{◌≡◌, ◌==◌, ◌++◌, [], ◌∷◌, IfOk, List, map, option_map, option_to_list};
ghost use Rattle.std.specs.List.{list_any};
ghost use Rattle.serde_json.specs.Data.{Data};
ghost use Rattle.serde_json.specs.View.{view};
ghost use Rattle.json_tree.specs.Tree.{text};
ghost use Rattle.oci_profile.specs.Profile.{number_named};
ghost use Rattle.profile_lint.specs.Passed.{AreSeen, names_in, told, told_text};

use crate::passed::Passed;
use json_tree::text;
use serde_json::Value;
use std::alloc::{AllocError, Global};
use sys_table::CallTable;

/// The names of an entry whose calls are not known, or that are repeated.
pub(crate) fn names_in<'v>(
    alloc: Global,
    calls: CallTable,
    entry: usize,
    names: &'v [Value],
) -> Result<Vec<Passed<'v>>, AllocError>
    ensures { IfOk result (λ v. map told v.items ≡ names_in calls entry (map view names.now)) }
{
    let mut found = Vec::new(alloc);
    let mut seen = Vec::new(alloc);
    for (index, item) in names.iter().enumerate() {
        tell(
            &mut found,
            name_at(calls, entry, index, item, seen.as_slice()),
        )?;
        see(calls, &mut seen, item)?;
    }
    Ok(found)
}

/// Adds the finding, if there is one.
pub(crate) fn tell<'v>(
    found: &mut Vec<Passed<'v>>,
    one: Option<Passed<'v>>,
) -> Result<(), AllocError>
    ensures { IfOk result (λ _. found.new.items ≡ found.old.items ++ option_to_list one.entry) }
{
    if let Some(one) = one {
        found.push(one)?;
    }
    Ok(())
}

/// The finding about the name at this index, after names with these numbers.
fn name_at<'v>(
    calls: CallTable,
    entry: usize,
    index: usize,
    item: &'v Value,
    seen: &[u32],
) -> Option<Passed<'v>>
    ensures { (before : List Data) → AreSeen calls before seen.now
        → option_map told result ≡ told_text calls entry index (text (view item.now)) before }
{
    let name = text(item)?;
    match calls.number(name) {
        None => Some(Passed::UnknownName(entry, index, name)),
        Some(number) if is_seen(seen, number) => Some(Passed::RepeatedName(entry, index, name)),
        Some(_) => None,
    }
}

/// Adds the name's number, if it has one that was not seen.
#[tactic(auto, using(crate::proofs::Seen::seen_more, crate::proofs::Seen::seen_again, crate::proofs::Seen::seen_none))]
fn see(calls: CallTable, seen: &mut Vec<u32>, item: &Value) -> Result<(), AllocError>
    ensures { IfOk result (λ _. (before : List Data) → AreSeen calls before seen.old.items
        → AreSeen calls (before ++ view item.now ∷ []) seen.new.items) }
{
    match number_named(calls, item) {
        Some(number) if !is_seen(seen.as_slice(), number) => Ok(seen.push(number)?),
        _ => Ok(()),
    }
}

fn is_seen(seen: &[u32], number: u32) -> bool
    ensures { result ≡ list_any (λ n. n == number) seen.now }
{
    seen.iter().any(|n| *n == number)
}

#[tactic(auto, unfolding(oci_profile::specs::Profile::number_named))]
fn number_named(calls: CallTable, name: &Value) -> Option<u32>
    ensures { result ≡ number_named calls (view name.now) }
{
    calls.number(text(name)?)
}
