ghost use Rattle.std.specs.Prelude.{◌≡◌, Err, Some, is_some, map, not, option_map, position};
ghost use Rattle.serde_json.specs.View.{view};
ghost use Rattle.json_place.specs.declared.fields.FieldFaultAt.{FieldFaultAt};
ghost use Rattle.json_tree.specs.declared.faults.FieldFault.{FieldFault};
ghost use Rattle.json_tree.specs.Reading.{as_read};
ghost use Rattle.json_tree.specs.Tree as kind;
ghost use Rattle.json_place.specs.Fields.{GivesAt, item_place, list_fault, odd_item, optional_each};
ghost use Rattle.json_place.specs.Fields.{required_each};

use crate::fields::FieldFaultAt;
use crate::place::{Place, Step};
use json_tree::{FieldFault, list, text, whole};
use serde_json::Value;
use std::alloc::Global;

// Fields that are lists with items of one type. If items have another type, the fault has the place of the
// first of them.

/// The items of the list of texts of a required field.
#[tactic(auto, unfolding(crate::specs::Fields::required_each))]
pub fn required_text_list<'v>(
    tree: &'v Value,
    key: &'static str,
) -> Result<&'v [Value], FieldFaultAt>
    ensures { as_read (λ items. map view items.now) result
        ≡ required_each kind.text kind.text_list key.now (view tree.now) }
{
    json_tree::required_text_list(tree, key).map_err(|fault| text_fault(tree, key, fault))
}

/// The items of the list of texts of an optional field, which may be null.
#[tactic(auto, unfolding(crate::specs::Fields::optional_each))]
pub fn optional_text_list<'v>(
    tree: &'v Value,
    key: &'static str,
) -> Result<Option<&'v [Value]>, FieldFaultAt>
    ensures { as_read (option_map (λ items. map view items.now)) result
        ≡ optional_each kind.text kind.text_list key.now (view tree.now) }
{
    json_tree::optional_text_list(tree, key).map_err(|fault| text_fault(tree, key, fault))
}

/// The whole numbers of the list of a required field. `Memory` if an allocation fails, but a fault of the
/// field is reported even if memory runs out.
#[tactic(auto, unfolding(crate::specs::Fields::required_each))]
pub fn required_wholes(
    alloc: Global,
    tree: &Value,
    key: &'static str,
) -> Result<Vec<u64>, FieldFaultAt>
    ensures value { GivesAt (λ e. e.fault) FieldFault.Memory (λ v. v.items) result
        (required_each kind.whole kind.wholes key.now (view tree.now)) }
    ensures told { (e : FieldFaultAt) → required_each kind.whole kind.wholes key.now (view tree.now) ≡ Err e
        → result ≡ Err e }
{
    json_tree::required_wholes(alloc, tree, key).map_err(|fault| whole_fault(tree, key, fault))
}

fn text_fault(tree: &Value, key: &'static str, fault: FieldFault) -> FieldFaultAt
    ensures { result ≡ list_fault kind.text key.now (view tree.now) fault }
{
    let place = match tree.get(key) {
        Some(found) => odd_text(found),
        None => Place::root(),
    };
    FieldFaultAt {
        fault,
        place: place.within(Step::Member(key)),
    }
}

fn whole_fault(tree: &Value, key: &'static str, fault: FieldFault) -> FieldFaultAt
    ensures { result ≡ list_fault kind.whole key.now (view tree.now) fault }
{
    let place = match tree.get(key) {
        Some(found) => odd_whole(found),
        None => Place::root(),
    };
    FieldFaultAt {
        fault,
        place: place.within(Step::Member(key)),
    }
}

#[tactic(auto, using(crate::proofs::Odd::position_of_views))]
fn odd_text(tree: &Value) -> Place
    ensures { result ≡ odd_item kind.text (Some (view tree.now)) }
{
    match list(tree) {
        Some(items) => item_place(first_no_text(items)),
        None => Place::root(),
    }
}

fn first_no_text(items: &[Value]) -> Option<usize>
    ensures { result ≡ position (λ item. not (is_some (kind.text (view item)))) items.now }
{
    items.iter().position(|item| text(item).is_none())
}

#[tactic(auto, using(crate::proofs::Odd::position_of_views))]
fn odd_whole(tree: &Value) -> Place
    ensures { result ≡ odd_item kind.whole (Some (view tree.now)) }
{
    match list(tree) {
        Some(items) => item_place(first_no_whole(items)),
        None => Place::root(),
    }
}

fn first_no_whole(items: &[Value]) -> Option<usize>
    ensures { result ≡ position (λ item. not (is_some (kind.whole (view item)))) items.now }
{
    items.iter().position(|item| whole(item).is_none())
}

fn item_place(index: Option<usize>) -> Place
    ensures { result ≡ item_place index }
{
    match index {
        Some(index) => Place::root().within(Step::Item(index)),
        None => Place::root(),
    }
}
