ghost use Rattle.std.specs.Prelude.{◌≡◌, ◌≢◌, IfOk, IfErr, IsTrue, Ok, Err, None, Some, length, map};
ghost use Rattle.serde_json.specs.View.{view};
ghost use Rattle.json_tree.specs.Reading.{Gives, as_read, in_order_after};
ghost use Rattle.manifest.specs.declared.containers.Container.{Container};
ghost use Rattle.manifest.specs.declared.faults.PodFault.{PodFault};
ghost use Rattle.manifest.specs.declared.placed.PodFaultAt.{PodFaultAt};
ghost use Rattle.manifest.specs.declared.pods.Pod.{Pod};
ghost use Rattle.manifest.specs.Heads.{default_uid};
ghost use Rattle.manifest.specs.Pod.{ReadsPod};
ghost use Rattle.manifest.specs.Profiles.{HasFitPath};
ghost use Rattle.manifest.specs.Reading.{Reads, container_at, container_of, containers_of, first_fault};
ghost use Rattle.manifest.specs.Reading.{first_fault_at, head_of, is_taken, listed_of, new_name_of, pod_from};
ghost use Rattle.manifest.specs.Reading.{pod_of, reading_of};
ghost use Rattle.manifest.specs.Seen.{head_seen, identity_seen, lists_seen};
ghost use Rattle.manifest.specs.Texts as rule;

use crate::containers::{Container, Containers};
use crate::contexts::context;
use crate::faults::PodFault;
use crate::fields::{label, path};
use crate::heads::head;
use crate::labels::Label;
use crate::lent::{HeadText, IdentityText, ListsText};
use crate::paths::DescendingPath;
use crate::placed::{PodFaultAt, under};
use crate::pod_names::PodName;
use crate::pods::Pod;
use crate::profiles::kept;
use crate::uids::Uid;
use json_place::Step;
use json_tree::object;
use serde_json::Value;
use std::alloc::{AllocError, Global};

/// The pod of a manifest's text, or the text's first fault: of the text, then of the fields in the order of
/// docs/SEMANTICS.md, and of the containers in order, init ones first. Unknown fields are ignored. If an
/// allocation fails, the result is `Memory`.
pub fn read(alloc: Global, bytes: &[u8]) -> Result<Pod, PodFault>
    // The result is the text's pod.
    ensures found { IfOk result (ReadsPod bytes.now) }

    // Every pod is read, unless memory runs out.
    ensures only { (pod : Pod) → ReadsPod bytes.now pod → Gives PodFault.Memory (λ p. p) result (Ok pod) }

    // A text that is read has no fault, and a refused one has this fault first.
    ensures no_fault { IfOk result (λ _. first_fault bytes.now ≡ None) }
    ensures first { IfErr result (λ fault. fault ≢ PodFault.Memory
        → first_fault bytes.now ≡ Some fault) }
{
    Ok(read_placed(alloc, bytes)?)
}

/// Reads a manifest as [`read`] does, and returns the place of the first fault in the text.
pub fn read_placed(alloc: Global, bytes: &[u8]) -> Result<Pod, PodFaultAt>
    ensures found { IfOk result (ReadsPod bytes.now) }
    ensures only { (pod : Pod) → ReadsPod bytes.now pod → Reads (λ p. p) result (Ok pod) }
    ensures no_fault { IfOk result (λ _. first_fault_at bytes.now ≡ None) }
    ensures first { IfErr result (λ found. found.fault ≢ PodFault.Memory
        → first_fault_at bytes.now ≡ Some found) }
{
    reading(alloc, bytes)
}

#[tactic(auto, unfolding(crate::specs::Reading::reading_of))]
fn reading(alloc: Global, bytes: &[u8]) -> Result<Pod, PodFaultAt>
    ensures { Reads (λ p. p) result (reading_of bytes.now) }
{
    let tree = json_tree::read(alloc, bytes)?;
    pod(alloc, &tree)
}

#[tactic(auto, unfolding(crate::specs::Reading::pod_of))]
fn pod(alloc: Global, tree: &Value) -> Result<Pod, PodFaultAt>
    ensures value { Reads (λ p. p) result (pod_of (view tree.now)) }

    // A fault found before the containers are read is reported even if memory runs out.
    ensures told { (fault : PodFaultAt) → head_of (view tree.now) ≡ Err fault → result ≡ Err fault }
{
    let head = head(tree)?;
    let containers = containers(alloc, head.lists)?;
    Ok(gathered(alloc, head, containers)?)
}

#[tactic(auto, unfolding(crate::specs::Reading::containers_of))]
fn containers(alloc: Global, lists: ListsText<'_>) -> Result<Containers, PodFaultAt>
    ensures { Reads (λ c. c) result (containers_of (lists_seen lists.entry)) }
{
    let inits = listed(alloc, "initContainers", Vec::new(alloc), lists.inits)?;
    let count = inits.len();
    let all = listed(alloc, "containers", inits, lists.others)?;
    Ok(Containers::new(all, count))
}

// The containers of one list, after those of another.
fn listed(
    alloc: Global,
    key: &'static str,
    done: Vec<Container>,
    items: &[Value],
) -> Result<Vec<Container>, PodFaultAt>
    ensures { Reads (λ v. v.items) result (listed_of key.now done.items (map view items.now)) }
{
    let read = under(Step::Member(key), each_container(alloc, done, items));
    under(Step::Member("spec"), read)
}

#[tactic(auto, using(json_tree::proofs::After::after_more, json_tree::proofs::After::after_stops))]
fn each_container(
    alloc: Global,
    mut done: Vec<Container>,
    items: &[Value],
) -> Result<Vec<Container>, PodFaultAt>
    ensures { Reads (λ v. v.items) result
        (in_order_after (container_at (length done.items)) done.items (map view items.now)) }
{
    let others = done.len();
    for item in items {
        let index = done.len().saturating_sub(others);
        let container = under(Step::Item(index), container(alloc, done.as_slice(), item))?;
        done.push(container)?;
    }
    Ok(done)
}

// The copies come last, so each fault is reported even if memory runs out.
#[tactic(auto, unfolding(crate::specs::Reading::container_of))]
fn container(alloc: Global, done: &[Container], item: &Value) -> Result<Container, PodFaultAt>
    ensures value { Reads (λ c. c) result (container_of done.now (view item.now)) }
    ensures told { (fault : PodFaultAt) → container_of done.now (view item.now) ≡ Err fault
        → result ≡ Err fault }
{
    let tree = object(item).ok_or(PodFaultAt::here(PodFault::WrongType))?;
    let name = new_name(done, tree)?;
    let image = path(tree, "image")?;
    let context = context(tree)?;
    let name = Label::copied(alloc, name)?;
    let image = DescendingPath::copied(alloc, image)?;
    let profile = kept(alloc, context.profile)?;
    Ok(Container {
        name,
        image,
        privileged: context.privileged,
        profile,
    })
}

#[tactic(auto, unfolding(crate::specs::Reading::new_name_of))]
fn new_name<'v>(done: &[Container], tree: &'v Value) -> Result<&'v str, PodFaultAt>
    ensures value { as_read (λ t. t.now) result ≡ new_name_of done.now (view tree.now) }
    ensures fit { IfOk result (λ t. IsTrue (rule.is_label t.now)) }
{
    let name = label(tree, "name")?;
    if is_taken(done, name) {
        return Err(PodFaultAt::at("name", PodFault::RepeatedName));
    }
    Ok(name)
}

#[tactic(auto, unfolding(crate::specs::Reading::is_taken))]
fn is_taken(done: &[Container], name: &str) -> bool
    ensures { result ≡ is_taken done.now name.now }
{
    done.iter().any(|container| container.name.as_str() == name)
}

// The pod of the parts that were read.
fn gathered(alloc: Global, head: HeadText<'_>, containers: Containers) -> Result<Pod, AllocError>
    requires { HasFitPath head.terms.profile }
    ensures { IfOk result (λ pod. pod ≡ pod_from (head_seen head.entry) containers) }
{
    let uid = uid(alloc, head.identity)?;
    let namespace = Label::copied(alloc, head.identity.namespace)?;
    let name = PodName::copied(alloc, head.identity.name)?;
    let profile = kept(alloc, head.terms.profile)?;
    Ok(Pod {
        uid,
        namespace,
        name,
        policy: head.terms.policy,
        grace: head.terms.grace,
        profile,
        containers,
    })
}

fn uid(alloc: Global, identity: IdentityText<'_>) -> Result<Uid, AllocError>
    ensures { IfOk result (λ uid. uid ≡ (identity_seen identity.entry).uid) }
{
    match identity.uid {
        Some(uid) => Uid::copied(alloc, uid),
        None => default_uid(alloc, identity.namespace, identity.name),
    }
}

// The namespace, a dot and the name.
#[tactic(auto, using(crate::proofs::Defaults::default_fits))]
fn default_uid(alloc: Global, namespace: &str, name: &str) -> Result<Uid, AllocError>
    requires a_namespace { IsTrue (rule.is_label namespace.now) }
    requires a_name { IsTrue (rule.is_pod_name name.now) }
    ensures { IfOk result (λ uid. uid ≡ default_uid namespace.now name.now) }
{
    let mut text = String::from_str(alloc, namespace)?;
    text.push_str(".")?;
    text.push_str(name)?;
    Ok(Uid::owned(text))
}
