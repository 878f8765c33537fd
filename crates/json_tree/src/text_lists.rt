ghost use Rattle.std.specs.Prelude.{◌≡◌, map, option_map};
ghost use Rattle.serde_json.specs.View.{view};
ghost use Rattle.json_tree.specs.Reading.{as_read, optional, required};
ghost use Rattle.json_tree.specs.Tree as kind;

use crate::faults::FieldFault;
use crate::kinds::list;
use crate::lists::are_texts;
use crate::members::member;
use serde_json::Value;

// The items of a list of texts are borrowed, so nothing is allocated.

/// The items of the list of texts of a required field. `Missing` if the field is absent, `WrongType` if it
/// has another type.
#[tactic(auto, unfolding(crate::specs::Reading::required))]
pub fn required_text_list<'v>(tree: &'v Value, key: &str) -> Result<&'v [Value], FieldFault>
    ensures { as_read (λ items. map view items.now) result
        ≡ required kind.text_list key.now (view tree.now) }
{
    let found = tree.get(key).ok_or(FieldFault::Missing)?;
    text_list(found).ok_or(FieldFault::WrongType)
}

/// The items of the list of texts of an optional field, which may be null. `WrongType` if it is present and
/// has another type.
#[tactic(auto, unfolding(crate::specs::Reading::optional))]
pub fn optional_text_list<'v>(tree: &'v Value, key: &str) -> Result<Option<&'v [Value]>, FieldFault>
    ensures { as_read (option_map (λ items. map view items.now)) result
        ≡ optional kind.text_list key.now (view tree.now) }
{
    match member(tree, key) {
        Some(found) => text_list(found).map(Some).ok_or(FieldFault::WrongType),
        None => Ok(None),
    }
}

/// The items of a list, if each of them is a text.
#[tactic(auto, unfolding(crate::specs::Tree::text_list))]
fn text_list(tree: &Value) -> Option<&[Value]>
    ensures { option_map (λ items. map view items.now) result ≡ kind.text_list (view tree.now) }
{
    let items = list(tree)?;
    if are_texts(items) { Some(items) } else { None }
}
