ghost use Rattle.std.specs.Prelude.{◌≡◌, Err, map, option_map};
ghost use Rattle.serde_json.specs.View.{view};
ghost use Rattle.json_tree.specs.Reading.{as_read};
ghost use Rattle.json_tree.specs.Tree as kind;
ghost use Rattle.json_place.specs.declared.fields.FieldFaultAt.{FieldFaultAt};
ghost use Rattle.json_place.specs.Fields.{optional, required};

use crate::place::{Place, Step};
use json_tree::FieldFault;
use serde_json::Value;

// The fields of an object, as `json_tree` reads them. A fault has the place of its field.

/// What is wrong with a field, and where.
#[derive(Debug, Drop)]
pub struct FieldFaultAt {
    pub fault: FieldFault,
    pub place: Place,
}

impl FieldFaultAt {
    ghost use Rattle.std.specs.Prelude.{◌≡◌};
    ghost use Rattle.json_place.specs.Fields.{member_fault};

    /// The fault of the member with this key.
    pub(crate) fn of_member(key: &'static str, fault: FieldFault) -> FieldFaultAt
        ensures { result ≡ member_fault key.now fault }
    {
        FieldFaultAt {
            fault,
            place: Place::root().within(Step::Member(key)),
        }
    }
}

/// The whole number of a required field.
#[tactic(auto, unfolding(crate::specs::Fields::required))]
pub fn required_whole(tree: &Value, key: &'static str) -> Result<u64, FieldFaultAt>
    ensures { result ≡ required kind.whole key.now (view tree.now) }
{
    json_tree::required_whole(tree, key).map_err(|fault| FieldFaultAt::of_member(key, fault))
}

/// The text of a required field.
#[tactic(auto, unfolding(crate::specs::Fields::required))]
pub fn required_text<'v>(tree: &'v Value, key: &'static str) -> Result<&'v str, FieldFaultAt>
    ensures { as_read (λ t. t.now) result ≡ required kind.text key.now (view tree.now) }
{
    json_tree::required_text(tree, key).map_err(|fault| FieldFaultAt::of_member(key, fault))
}

/// The items of the list of a required field.
#[tactic(auto, unfolding(crate::specs::Fields::required))]
pub fn required_list<'v>(tree: &'v Value, key: &'static str) -> Result<&'v [Value], FieldFaultAt>
    ensures { as_read (λ items. map view items.now) result ≡ required kind.list key.now (view tree.now) }
{
    json_tree::required_list(tree, key).map_err(|fault| FieldFaultAt::of_member(key, fault))
}

/// The object of a required field.
#[tactic(auto, unfolding(crate::specs::Fields::required))]
pub fn required_object<'v>(tree: &'v Value, key: &'static str) -> Result<&'v Value, FieldFaultAt>
    ensures { as_read (λ v. view v.now) result ≡ required kind.object key.now (view tree.now) }
{
    json_tree::required_object(tree, key).map_err(|fault| FieldFaultAt::of_member(key, fault))
}

/// The value of a required field, of any type but null.
#[tactic(auto, unfolding(crate::specs::Fields::required))]
pub fn required_value<'v>(tree: &'v Value, key: &'static str) -> Result<&'v Value, FieldFaultAt>
    ensures { as_read (λ v. view v.now) result ≡ required kind.value key.now (view tree.now) }
{
    json_tree::required_value(tree, key).map_err(|fault| FieldFaultAt::of_member(key, fault))
}

/// The `bool` of an optional field, which may be null.
#[tactic(auto, unfolding(crate::specs::Fields::optional))]
pub fn optional_flag(tree: &Value, key: &'static str) -> Result<Option<bool>, FieldFaultAt>
    ensures { result ≡ optional kind.flag key.now (view tree.now) }
{
    json_tree::optional_flag(tree, key).map_err(|fault| FieldFaultAt::of_member(key, fault))
}

/// The whole number of an optional field, which may be null.
#[tactic(auto, unfolding(crate::specs::Fields::optional))]
pub fn optional_whole(tree: &Value, key: &'static str) -> Result<Option<u64>, FieldFaultAt>
    ensures { result ≡ optional kind.whole key.now (view tree.now) }
{
    json_tree::optional_whole(tree, key).map_err(|fault| FieldFaultAt::of_member(key, fault))
}

/// The whole number below 2^32 of an optional field, which may be null.
#[tactic(auto, unfolding(crate::specs::Fields::optional))]
pub fn optional_word(tree: &Value, key: &'static str) -> Result<Option<u32>, FieldFaultAt>
    ensures { result ≡ optional kind.word key.now (view tree.now) }
{
    json_tree::optional_word(tree, key).map_err(|fault| FieldFaultAt::of_member(key, fault))
}

/// The text of an optional field, which may be null.
#[tactic(auto, unfolding(crate::specs::Fields::optional))]
pub fn optional_text<'v>(
    tree: &'v Value,
    key: &'static str,
) -> Result<Option<&'v str>, FieldFaultAt>
    ensures { as_read (option_map (λ t. t.now)) result ≡ optional kind.text key.now (view tree.now) }
{
    json_tree::optional_text(tree, key).map_err(|fault| FieldFaultAt::of_member(key, fault))
}

/// The items of the list of an optional field, which may be null.
#[tactic(auto, unfolding(crate::specs::Fields::optional))]
pub fn optional_list<'v>(
    tree: &'v Value,
    key: &'static str,
) -> Result<Option<&'v [Value]>, FieldFaultAt>
    ensures { as_read (option_map (λ items. map view items.now)) result
        ≡ optional kind.list key.now (view tree.now) }
{
    json_tree::optional_list(tree, key).map_err(|fault| FieldFaultAt::of_member(key, fault))
}

/// The object of an optional field, which may be null.
#[tactic(auto, unfolding(crate::specs::Fields::optional))]
pub fn optional_object<'v>(
    tree: &'v Value,
    key: &'static str,
) -> Result<Option<&'v Value>, FieldFaultAt>
    ensures { as_read (option_map (λ v. view v.now)) result ≡ optional kind.object key.now (view tree.now) }
{
    json_tree::optional_object(tree, key).map_err(|fault| FieldFaultAt::of_member(key, fault))
}
