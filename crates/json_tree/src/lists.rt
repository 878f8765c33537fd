ghost use Rattle.std.specs.Prelude.{◌≡◌, IfOk, Ok, None, is_some, map, option_map};
ghost use Rattle.serde_json.specs.View.{view};
ghost use Rattle.json_tree.specs.Tree as kind;

use crate::kinds::{list, text, whole};
use serde_json::Value;
use std::alloc::{AllocError, Global};

// The items of a list are checked before anything is allocated, so that a wrong type is reported as such.

/// The whole numbers of a list, if it is a list of nothing else.
#[tactic(auto, unfolding(crate::specs::Tree::wholes))]
pub(crate) fn wholes(alloc: Global, tree: &Value) -> Result<Option<Vec<u64>>, AllocError>
    ensures value { IfOk result (λ o. option_map (λ v. v.items) o ≡ kind.wholes (view tree.now)) }
    ensures told { kind.wholes (view tree.now) ≡ None → result ≡ Ok None }
{
    match list(tree) {
        Some(items) if are_whole(items) => each_whole(alloc, items),
        _ => Ok(None),
    }
}

#[tactic(auto, using(crate::proofs::Items::each_goes_on, crate::proofs::Items::each_fails))]
fn are_whole(items: &[Value]) -> bool
    ensures { result ≡ is_some (kind.each kind.whole (map view items.now)) }
{
    for item in items {
        let Some(_) = whole(item) else {
            return false;
        };
    }
    true
}

#[tactic(auto, using(crate::proofs::Items::each_goes_on, crate::proofs::Items::each_fails))]
pub(crate) fn are_texts(items: &[Value]) -> bool
    ensures { result ≡ is_some (kind.each kind.text (map view items.now)) }
{
    for item in items {
        let Some(_) = text(item) else {
            return false;
        };
    }
    true
}

#[tactic(auto, using(crate::proofs::Items::each_more, crate::proofs::Items::each_stops))]
fn each_whole(alloc: Global, items: &[Value]) -> Result<Option<Vec<u64>>, AllocError>
    ensures { IfOk result (λ o. option_map (λ v. v.items) o
        ≡ kind.each kind.whole (map view items.now)) }
{
    let mut numbers = Vec::new(alloc);
    for item in items {
        let Some(number) = whole(item) else {
            return Ok(None);
        };
        numbers.push(number)?;
    }
    Ok(Some(numbers))
}
