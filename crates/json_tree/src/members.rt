ghost use Rattle.std.specs.Prelude.{◌≡◌, option_map};
ghost use Rattle.serde_json.specs.View.{view};
ghost use Rattle.json_tree.specs.Tree as kind;

use crate::kinds::value;
use serde_json::Value;

/// The member with this key, unless it is null.
#[tactic(auto, unfolding(crate::specs::Tree::member))]
pub fn member<'v>(tree: &'v Value, key: &str) -> Option<&'v Value>
    ensures { option_map (λ v. view v.now) result ≡ kind.member key.now (view tree.now) }
{
    value(tree.get(key)?)
}

/// Whether there is a member with this key that is not null.
#[tactic(auto, unfolding(crate::specs::Tree::has))]
pub fn has(tree: &Value, key: &str) -> bool
    ensures { result ≡ kind.has key.now (view tree.now) }
{
    member(tree, key).is_some()
}
