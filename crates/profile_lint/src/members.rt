ghost use Rattle.std.specs.Prelude.{◌≡◌, ◌==◌, IfOk, filter_map, length, map};
ghost use Rattle.serde_json.specs.View.{members_view, view};
ghost use Rattle.json_tree.specs.Tree.{list, text};
ghost use Rattle.profile_lint.specs.Passed.{deciding, ignored_at, ignored_in, is_empty, is_ignored};
ghost use Rattle.profile_lint.specs.Passed.{is_for_engines, is_one_of, is_recased, is_recased_as, members_list};
ghost use Rattle.profile_lint.specs.Passed.{members_of, says_nothing, told};

use crate::passed::{Holder, Passed};
use json_tree::{list, text, value};
use serde_json::{Map, Value};
use std::alloc::{AllocError, Global};

/// The holder's members that decide nothing, in the order of their keys.
pub(crate) fn ignored_in<'v>(
    alloc: Global,
    holder: Holder,
    tree: &'v Value,
) -> Result<Vec<Passed<'v>>, AllocError>
    ensures { IfOk result (λ v. map told v.items ≡ ignored_in holder (view tree.now)) }
{
    match tree.as_object() {
        Some(members) => ignored(alloc, holder, members),
        None => Ok(Vec::new(alloc)),
    }
}

fn ignored<'v>(
    alloc: Global,
    holder: Holder,
    members: &'v Map<String, Value>,
) -> Result<Vec<Passed<'v>>, AllocError>
    ensures { IfOk result (λ v. map told v.items
        ≡ filter_map (ignored_at holder) (members_list (members_view members.now.entries))) }
{
    let mut found = Vec::new(alloc);
    for (key, value) in members.iter() {
        if is_ignored(holder, key.as_str(), value) {
            found.push(Passed::Ignored(holder, key.as_str()))?;
        }
    }
    Ok(found)
}

#[tactic(auto, unfolding(crate::specs::Passed::is_ignored))]
fn is_ignored(holder: Holder, key: &str, value: &Value) -> bool
    ensures { result ≡ is_ignored holder key.now (view value.now) }
{
    !says_nothing(value) && !(key == "comment" || is_deciding(holder, key))
}

fn is_deciding(holder: Holder, key: &str) -> bool
    ensures { result ≡ is_one_of (deciding holder) key.now }
{
    match holder {
        Holder::Profile => {
            matches!(
                key,
                "defaultAction" | "defaultErrnoRet" | "architectures" | "syscalls"
            )
        }
        Holder::Entry(_) => matches!(key, "names" | "action" | "errnoRet" | "args"),
        Holder::Arg(_, _) => matches!(key, "index" | "value" | "valueTwo" | "op"),
    }
}

/// Whether the key is the name, in upper or lower case.
fn is_recased_as(key: &str, name: &str) -> bool
    ensures { result ≡ is_recased_as key.now name.now }
{
    key.eq_ignore_ascii_case(name)
}

/// Whether the key is one of the members that decide something, in another case.
pub(crate) fn is_recased(holder: Holder, key: &str) -> bool
    ensures { result ≡ is_recased holder key.now }
{
    match holder {
        Holder::Profile => {
            is_recased_as(key, "defaultAction")
                || is_recased_as(key, "defaultErrnoRet")
                || is_recased_as(key, "architectures")
                || is_recased_as(key, "syscalls")
        }
        Holder::Entry(_) => {
            is_recased_as(key, "names")
                || is_recased_as(key, "action")
                || is_recased_as(key, "errnoRet")
                || is_recased_as(key, "args")
        }
        Holder::Arg(_, _) => {
            is_recased_as(key, "index")
                || is_recased_as(key, "value")
                || is_recased_as(key, "valueTwo")
                || is_recased_as(key, "op")
        }
    }
}

/// Whether engines read the member.
pub(crate) fn is_for_engines(holder: Holder, key: &str) -> bool
    ensures { result ≡ is_for_engines holder key.now }
{
    match holder {
        Holder::Profile => matches!(key, "flags" | "listenerPath" | "listenerMetadata"),
        Holder::Entry(_) | Holder::Arg(_, _) => false,
    }
}

/// Whether it is null or empty.
#[tactic(auto, unfolding(crate::specs::Passed::says_nothing))]
fn says_nothing(tree: &Value) -> bool
    ensures { result ≡ says_nothing (view tree.now) }
{
    value(tree).is_none() || is_empty_text(tree) || is_empty_list(tree) || is_empty_object(tree)
}

fn is_empty_text(tree: &Value) -> bool
    ensures { result ≡ is_empty (text (view tree.now)) }
{
    match text(tree) {
        Some(text) => text.is_empty(),
        None => false,
    }
}

fn is_empty_list(tree: &Value) -> bool
    ensures { result ≡ is_empty (list (view tree.now)) }
{
    match list(tree) {
        Some(items) => items.is_empty(),
        None => false,
    }
}

fn is_empty_object(tree: &Value) -> bool
    ensures { result ≡ is_empty (members_of (view tree.now)) }
{
    match tree.as_object() {
        Some(members) => has_none(members),
        None => false,
    }
}

fn has_none(members: &Map<String, Value>) -> bool
    ensures { result ≡ (length (members_list (members_view members.now.entries)) == 0) }
{
    for _ in members.iter() {
        return false;
    }
    true
}
