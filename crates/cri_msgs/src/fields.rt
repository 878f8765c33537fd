ghost use Rattle.std.specs.Prelude.{◌≡◌, codes, option_map, unwrap_or};
ghost use Rattle.serde_json.specs.View.{view};
ghost use Rattle.json_tree.specs.declared.faults.FieldFault.{FieldFault};
ghost use Rattle.json_tree.specs.Reading.{Gives};
ghost use Rattle.manifest.specs.Texts as rule;
ghost use Rattle.cri_msgs.specs.Requests.{number_in};
ghost use Rattle.cri_msgs.specs.Reading.{container_of, fitting, key_of, message_fault, numbered, profile_in};
ghost use Rattle.cri_msgs.specs.Reading.{profile_named, profile_of, with_path, without_path};

use crate::faults::MessageFault;
use crate::keys::{ContainerMetadata, Key};
use crate::version::Version;
use json_tree::{
    FieldFault, optional_text, required_object, required_text, required_whole, required_word, whole,
};
use manifest::{DescendingPath, Label, SeccompProfile, Uid};
use serde_json::Value;
use std::alloc::Global;

// The fields of messages, one by one.

#[tactic(auto, unfolding(crate::specs::Reading::fitting))]
pub(crate) fn uid(alloc: Global, tree: &Value) -> Result<Uid, FieldFault>
    ensures { Gives FieldFault.Memory (λ u. u) result (fitting rule.is_uid (codes "uid") (view tree.now)) }
{
    let text = required_text(tree, "uid")?;
    Uid::new(alloc, text)?.ok_or(FieldFault::WrongType)
}

#[tactic(auto, unfolding(crate::specs::Reading::fitting))]
fn name(alloc: Global, tree: &Value) -> Result<Label, FieldFault>
    ensures { Gives FieldFault.Memory (λ l. l) result (fitting rule.is_label (codes "name") (view tree.now)) }
{
    let text = required_text(tree, "name")?;
    Label::new(alloc, text)?.ok_or(FieldFault::WrongType)
}

#[tactic(auto, unfolding(crate::specs::Reading::fitting))]
pub(crate) fn image(alloc: Global, tree: &Value) -> Result<DescendingPath, FieldFault>
    ensures { Gives FieldFault.Memory (λ p. p) result
        (fitting rule.is_descending (codes "image") (view tree.now)) }
{
    let text = required_text(tree, "image")?;
    DescendingPath::new(alloc, text)?.ok_or(FieldFault::WrongType)
}

#[tactic(auto, unfolding(crate::specs::Reading::container_of))]
pub(crate) fn container(alloc: Global, tree: &Value) -> Result<ContainerMetadata, FieldFault>
    ensures { Gives FieldFault.Memory (λ c. c) result (container_of (view tree.now)) }
{
    let name = name(alloc, tree)?;
    let attempt = required_word(tree, "attempt")?;
    Ok(ContainerMetadata { name, attempt })
}

#[tactic(auto, unfolding(crate::specs::Reading::key_of))]
pub(crate) fn key(alloc: Global, tree: &Value) -> Result<Key, FieldFault>
    ensures { Gives FieldFault.Memory (λ k. k) result (key_of (view tree.now)) }
{
    let uid = uid(alloc, tree)?;
    let container = container(alloc, tree)?;
    Ok(Key { uid, container })
}

#[tactic(auto, unfolding(crate::specs::Reading::profile_of))]
pub(crate) fn profile(alloc: Global, tree: &Value) -> Result<SeccompProfile, FieldFault>
    ensures { Gives FieldFault.Memory (λ p. p) result (profile_of (view tree.now)) }
{
    let found = required_object(tree, "profile")?;
    profile_in(alloc, found)
}

#[tactic(auto, unfolding(crate::specs::Reading::profile_in))]
fn profile_in(alloc: Global, tree: &Value) -> Result<SeccompProfile, FieldFault>
    ensures { Gives FieldFault.Memory (λ p. p) result (profile_in (view tree.now)) }
{
    let text = required_text(tree, "type")?;
    let path = optional_text(tree, "path")?;
    profile_named(alloc, text, path)
}

#[tactic(auto, unfolding(crate::specs::Reading::profile_named))]
fn profile_named(
    alloc: Global,
    text: &str,
    path: Option<&str>,
) -> Result<SeccompProfile, FieldFault>
    ensures { Gives FieldFault.Memory (λ p. p) result
        (profile_named text.now (option_map (λ t. t.now) path.entry)) }
{
    match text {
        "RuntimeDefault" => without_path(SeccompProfile::RuntimeDefault, path),
        "Localhost" => with_path(alloc, path),
        "Unconfined" => without_path(SeccompProfile::Unconfined, path),
        _ => Err(FieldFault::WrongType),
    }
}

fn without_path(profile: SeccompProfile, path: Option<&str>) -> Result<SeccompProfile, FieldFault>
    ensures { result ≡ without_path profile (option_map (λ t. t.now) path.entry) }
{
    match path {
        Some(_) => Err(FieldFault::WrongType),
        None => Ok(profile),
    }
}

fn with_path(alloc: Global, path: Option<&str>) -> Result<SeccompProfile, FieldFault>
    ensures { Gives FieldFault.Memory (λ p. p) result (with_path (option_map (λ t. t.now) path.entry)) }
{
    match path {
        Some(text) => {
            let file = DescendingPath::new(alloc, text)?.ok_or(FieldFault::WrongType)?;
            Ok(SeccompProfile::Localhost(file))
        }
        None => Err(FieldFault::WrongType),
    }
}

// The number of a message of this version.
#[tactic(auto, unfolding(crate::specs::Reading::numbered))]
pub(crate) fn numbered(version: Version, tree: &Value) -> Result<u64, FieldFault>
    ensures { result ≡ numbered version (view tree.now) }
{
    if required_whole(tree, "v")? != version.number() {
        return Err(FieldFault::WrongType);
    }
    required_whole(tree, "id")
}

// The number of a text, even if it is not a message.
fn number(tree: &Value) -> Option<u64>
    ensures { result ≡ number_in (view tree.now) }
{
    whole(tree.get("id")?)
}

// Why the tree is not a message.
pub(crate) fn message_fault(fault: FieldFault, tree: &Value) -> MessageFault
    ensures { result ≡ message_fault (unwrap_or (number_in (view tree.now)) 0) fault }
{
    match fault {
        FieldFault::Missing | FieldFault::WrongType => {
            MessageFault::NoMessage(number(tree).unwrap_or(0))
        }
        FieldFault::Memory => MessageFault::Memory,
    }
}
