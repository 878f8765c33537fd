ghost use Rattle.std.specs.Prelude.{◌≡◌, Err, map, option_map};
ghost use Rattle.serde_json.specs.View.{view};
ghost use Rattle.json_tree.specs.declared.faults.FieldFault.{FieldFault};
ghost use Rattle.json_tree.specs.Reading.{Gives, as_read, optional};
ghost use Rattle.json_tree.specs.Tree as kind;

use crate::faults::FieldFault;
use crate::kinds::{flag, list, object, text, whole, word};
use crate::lists::wholes;
use crate::members::member;
use serde_json::Value;
use std::alloc::Global;

// Each returns `WrongType` if the field is present and has another type. Those that allocate return `Memory`
// if an allocation fails, but a fault of the field is reported even if memory runs out.

/// The `bool` of an optional field, which may be null.
#[tactic(auto, unfolding(crate::specs::Reading::optional))]
pub fn optional_flag(tree: &Value, key: &str) -> Result<Option<bool>, FieldFault>
    ensures { result ≡ optional kind.flag key.now (view tree.now) }
{
    match member(tree, key) {
        Some(found) => flag(found).map(Some).ok_or(FieldFault::WrongType),
        None => Ok(None),
    }
}

/// The whole number of an optional field, which may be null.
#[tactic(auto, unfolding(crate::specs::Reading::optional))]
pub fn optional_whole(tree: &Value, key: &str) -> Result<Option<u64>, FieldFault>
    ensures { result ≡ optional kind.whole key.now (view tree.now) }
{
    match member(tree, key) {
        Some(found) => whole(found).map(Some).ok_or(FieldFault::WrongType),
        None => Ok(None),
    }
}

/// The whole number below 2^32 of an optional field, which may be null.
#[tactic(auto, unfolding(crate::specs::Reading::optional))]
pub fn optional_word(tree: &Value, key: &str) -> Result<Option<u32>, FieldFault>
    ensures { result ≡ optional kind.word key.now (view tree.now) }
{
    match member(tree, key) {
        Some(found) => word(found).map(Some).ok_or(FieldFault::WrongType),
        None => Ok(None),
    }
}

/// The text of an optional field, which may be null.
#[tactic(auto, unfolding(crate::specs::Reading::optional))]
pub fn optional_text<'v>(tree: &'v Value, key: &str) -> Result<Option<&'v str>, FieldFault>
    ensures { as_read (option_map (λ t. t.now)) result ≡ optional kind.text key.now (view tree.now) }
{
    match member(tree, key) {
        Some(found) => text(found).map(Some).ok_or(FieldFault::WrongType),
        None => Ok(None),
    }
}

/// The items of the list of an optional field, which may be null.
#[tactic(auto, unfolding(crate::specs::Reading::optional))]
pub fn optional_list<'v>(tree: &'v Value, key: &str) -> Result<Option<&'v [Value]>, FieldFault>
    ensures { as_read (option_map (λ items. map view items.now)) result
        ≡ optional kind.list key.now (view tree.now) }
{
    match member(tree, key) {
        Some(found) => list(found).map(Some).ok_or(FieldFault::WrongType),
        None => Ok(None),
    }
}

/// The object of an optional field, which may be null.
#[tactic(auto, unfolding(crate::specs::Reading::optional))]
pub fn optional_object<'v>(tree: &'v Value, key: &str) -> Result<Option<&'v Value>, FieldFault>
    ensures { as_read (option_map (λ v. view v.now)) result ≡ optional kind.object key.now (view tree.now) }
{
    match member(tree, key) {
        Some(found) => object(found).map(Some).ok_or(FieldFault::WrongType),
        None => Ok(None),
    }
}

/// The whole numbers of the list of an optional field, which may be null.
#[tactic(auto, unfolding(crate::specs::Reading::optional))]
pub fn optional_wholes(
    alloc: Global,
    tree: &Value,
    key: &str,
) -> Result<Option<Vec<u64>>, FieldFault>
    ensures value { Gives FieldFault.Memory (option_map (λ v. v.items)) result
        (optional kind.wholes key.now (view tree.now)) }
    ensures told { (fault : FieldFault) → optional kind.wholes key.now (view tree.now) ≡ Err fault
        → result ≡ Err fault }
{
    match member(tree, key) {
        Some(found) => wholes(alloc, found)?.map(Some).ok_or(FieldFault::WrongType),
        None => Ok(None),
    }
}
