//! What shows that a text is a template where a profile is wanted.
ghost use Rattle.std.specs.Prelude.{◌≡◌, IfOk, count_by, map, option_map};
ghost use Rattle.serde_json.specs.View.{members_view, view};
ghost use Rattle.json_tree.specs.Tree;
ghost use Rattle.json_tree.specs.Tree.{tree_of};
ghost use Rattle.profile_template.specs.Signs as signs;
ghost use Rattle.profile_template.specs.Signs.{are_some, has_members, is_given, items_at, sign_in, sign_in_text};
ghost use Rattle.profile_template.specs.Signs.{sign_text};

use json_tree::{TextFault, list, member};
use serde_json::{Map, Value};
use std::alloc::{AllocError, Global};
use std::fmt;

/// What a template has and a reader of profiles ignores.
#[derive(Clone, Copy, Debug, PartialEq, Eq)]
pub enum TemplateSign {
    /// The number of entries with conditions, at least one.
    Conditions(usize),
    /// Architectures at `archMap`, where no entry has conditions.
    ArchMap,
}

/// What shows that a text is a template, if it is one.
#[tactic(auto, unfolding(crate::specs::Signs::sign_in_text))]
pub fn template_sign(alloc: Global, bytes: &[u8]) -> Result<Option<TemplateSign>, AllocError>
    ensures { IfOk result (λ sign. sign ≡ sign_in_text bytes.now) }
{
    match tree_in(alloc, bytes)? {
        Some(tree) => Ok(sign_in(&tree)),
        None => Ok(None),
    }
}

/// The tree of a text, if it is JSON.
fn tree_in(alloc: Global, bytes: &[u8]) -> Result<Option<Value>, AllocError>
    ensures { IfOk result (λ tree. option_map view tree ≡ tree_of bytes.now) }
{
    match json_tree::read(alloc, bytes) {
        Ok(tree) => Ok(Some(tree)),
        Err(TextFault::NotJson) => Ok(None),
        Err(TextFault::Memory) => Err(AllocError),
    }
}

#[tactic(auto, unfolding(crate::specs::Signs::sign_in))]
fn sign_in(tree: &Value) -> Option<TemplateSign>
    ensures { result ≡ sign_in (view tree.now) }
{
    let conditions = conditional(items_at(tree, "syscalls"));
    if conditions != 0 {
        Some(TemplateSign::Conditions(conditions))
    } else if !items_at(tree, "archMap").is_empty() {
        Some(TemplateSign::ArchMap)
    } else {
        None
    }
}

/// How many of the entries have conditions.
fn conditional(items: &[Value]) -> usize
    ensures { result ≡ count_by signs.is_conditional (map view items.now) }
{
    counted(items)
}

fn counted(items: &[Value]) -> usize
    ensures { result ≡ count_by (λ item. signs.is_conditional (view item)) items.now }
{
    items.iter().filter(|item| is_conditional(item)).count()
}

#[tactic(auto, unfolding(crate::specs::Signs::items_at))]
fn items_at<'v>(tree: &'v Value, key: &str) -> &'v [Value]
    ensures { map view result.now ≡ items_at key.now (view tree.now) }
{
    match member(tree, key) {
        Some(found) => list(found).unwrap_or(&[]),
        None => &[],
    }
}

#[tactic(auto, unfolding(crate::specs::Signs::is_conditional))]
fn is_conditional(item: &Value) -> bool
    ensures { result ≡ signs.is_conditional (view item.now) }
{
    is_given(item, "includes") || is_given(item, "excludes")
}

fn is_given(item: &Value, key: &str) -> bool
    ensures { result ≡ is_given (Tree.member key.now (view item.now)) }
{
    match member(item, key) {
        Some(found) => has_members(found),
        None => false,
    }
}

/// Whether it is an object that is not empty.
fn has_members(tree: &Value) -> bool
    ensures { result ≡ has_members (view tree.now) }
{
    match tree.as_object() {
        Some(members) => are_some(members),
        None => false,
    }
}

fn are_some(members: &Map<String, Value>) -> bool
    ensures { result ≡ are_some (members_view members.now.entries) }
{
    for _ in members.iter() {
        return true;
    }
    false
}

/// Its text, with the command that resolves a template.
#[tactic(auto, unfolding(crate::specs::Signs::sign_text))]
impl fmt::Display for TemplateSign {
    ghost use Rattle.std.specs.Prelude.{Some};
    ghost use Rattle.profile_template.specs.Signs.{sign_text};

    ghost output = { λ sign. Some (sign_text sign) };

    fn fmt<W: fmt::Write>(&self, f: &mut fmt::Formatter<W>) -> fmt::Result {
        match self {
            TemplateSign::Conditions(1) => {
                f.write_str("a template: its condition is ignored, see seccheck resolve")
            }
            TemplateSign::Conditions(count) => {
                write!(
                    f,
                    "a template: its {count} conditions are ignored, see seccheck resolve"
                )
            }
            TemplateSign::ArchMap => {
                f.write_str("a template: its archMap is ignored, see seccheck resolve")
            }
        }
    }
}
