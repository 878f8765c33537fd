ghost use Rattle.std.specs.Prelude.{◌≡◌, map, option_map};
ghost use Rattle.serde_json.specs.View.{view};
ghost use Rattle.json_tree.specs.Tree as kind;

use serde_json::Value;

pub(crate) fn flag(tree: &Value) -> Option<bool>
    ensures { result ≡ kind.flag (view tree.now) }
{
    tree.as_bool()
}

/// A text, in UTF-8 and with its escapes resolved.
pub fn text(tree: &Value) -> Option<&str>
    ensures { option_map (λ t. t.now) result ≡ kind.text (view tree.now) }
{
    tree.as_str()
}

/// A whole number below 2^64. Neither `-1` nor `1.0` nor `1e3` is one.
#[tactic(auto, unfolding(crate::specs::Tree::whole))]
pub fn whole(tree: &Value) -> Option<u64>
    ensures { result ≡ kind.whole (view tree.now) }
{
    tree.as_u64()
}

/// A whole number below 2^32.
#[tactic(auto, unfolding(crate::specs::Tree::word))]
pub fn word(tree: &Value) -> Option<u32>
    ensures { result ≡ kind.word (view tree.now) }
{
    let number = whole(tree)?;
    u32::try_from(number).ok()
}

/// The tree itself, if it is an object.
pub fn object(tree: &Value) -> Option<&Value>
    ensures { option_map (λ v. view v.now) result ≡ kind.object (view tree.now) }
{
    if tree.is_object() { Some(tree) } else { None }
}

/// The items of a list.
#[tactic(auto, unfolding(crate::specs::Tree::list), using(crate::proofs::Items::items_list_view))]
pub fn list(tree: &Value) -> Option<&[Value]>
    ensures { option_map (λ items. map view items.now) result ≡ kind.list (view tree.now) }
{
    let items = tree.as_array()?;
    Some(items.as_slice())
}

/// The tree itself, unless it is null.
pub fn value(tree: &Value) -> Option<&Value>
    ensures { option_map (λ v. view v.now) result ≡ kind.value (view tree.now) }
{
    if tree.is_null() { None } else { Some(tree) }
}
