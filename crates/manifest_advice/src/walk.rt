//! A manifest from the outside in.
ghost use Rattle.std.specs.Prelude.{◌≡◌, IfOk, codes, flat_map, map};
ghost use Rattle.std.specs.List.{enumerate_from};
ghost use Rattle.serde_json.specs.View.{view};
ghost use Rattle.manifest_advice.specs.Advice as advice;
ghost use Rattle.manifest_advice.specs.Advice.{container_at, containers_in, context_in, items_in};
ghost use Rattle.manifest_advice.specs.Advice.{listed_in, metadata_in, old_in, recased_in, spec_in, told, within};

use crate::advice::Advice;
use crate::holder::{Holder, Listing};
use crate::members::{old_in, recased_in};
use json_tree::{list, member};
use serde_json::Value;
use std::alloc::{AllocError, Global};

/// The advice on a manifest's tree, from the outside in.
#[tactic(auto, unfolding(crate::specs::Advice::advice_in))]
pub fn advice_in<'v>(alloc: Global, tree: &'v Value) -> Result<Vec<Advice<'v>>, AllocError>
    ensures { IfOk result (λ v. map told v.items ≡ advice.advice_in (view tree.now)) }
{
    let mut found = recased_in(alloc, Holder::Manifest, tree)?;
    let metadata = metadata_of(alloc, tree)?;
    found.extend_from_slice(metadata.as_slice())?;
    let spec = spec_of(alloc, tree)?;
    found.extend_from_slice(spec.as_slice())?;
    Ok(found)
}

#[tactic(auto, unfolding(crate::specs::Advice::within))]
fn metadata_of<'v>(alloc: Global, tree: &'v Value) -> Result<Vec<Advice<'v>>, AllocError>
    ensures { IfOk result (λ v. map told v.items ≡ within metadata_in (codes "metadata") (view tree.now)) }
{
    match member(tree, "metadata") {
        Some(metadata) => metadata_in(alloc, metadata),
        None => Ok(Vec::new(alloc)),
    }
}

#[tactic(auto, unfolding(crate::specs::Advice::metadata_in))]
fn metadata_in<'v>(alloc: Global, tree: &'v Value) -> Result<Vec<Advice<'v>>, AllocError>
    ensures { IfOk result (λ v. map told v.items ≡ metadata_in (view tree.now)) }
{
    let mut found = recased_in(alloc, Holder::Metadata, tree)?;
    let old = old_of(alloc, tree)?;
    found.extend_from_slice(old.as_slice())?;
    Ok(found)
}

#[tactic(auto, unfolding(crate::specs::Advice::within))]
fn old_of<'v>(alloc: Global, tree: &'v Value) -> Result<Vec<Advice<'v>>, AllocError>
    ensures { IfOk result (λ v. map told v.items ≡ within old_in (codes "annotations") (view tree.now)) }
{
    match member(tree, "annotations") {
        Some(annotations) => old_in(alloc, annotations),
        None => Ok(Vec::new(alloc)),
    }
}

#[tactic(auto, unfolding(crate::specs::Advice::within))]
fn spec_of<'v>(alloc: Global, tree: &'v Value) -> Result<Vec<Advice<'v>>, AllocError>
    ensures { IfOk result (λ v. map told v.items ≡ within spec_in (codes "spec") (view tree.now)) }
{
    match member(tree, "spec") {
        Some(spec) => spec_in(alloc, spec),
        None => Ok(Vec::new(alloc)),
    }
}

#[tactic(auto, unfolding(crate::specs::Advice::spec_in))]
fn spec_in<'v>(alloc: Global, tree: &'v Value) -> Result<Vec<Advice<'v>>, AllocError>
    ensures { IfOk result (λ v. map told v.items ≡ spec_in (view tree.now)) }
{
    let mut found = recased_in(alloc, Holder::Spec, tree)?;
    let context = context_of(alloc, Holder::PodContext, Holder::PodProfile, tree)?;
    found.extend_from_slice(context.as_slice())?;
    let containers = containers_in(alloc, tree)?;
    found.extend_from_slice(containers.as_slice())?;
    Ok(found)
}

#[tactic(auto, unfolding(crate::specs::Advice::containers_in))]
fn containers_in<'v>(alloc: Global, tree: &'v Value) -> Result<Vec<Advice<'v>>, AllocError>
    ensures { IfOk result (λ v. map told v.items ≡ containers_in (view tree.now)) }
{
    let mut found = listed_in(alloc, Listing::Init, items_in(tree, "initContainers"))?;
    let others = listed_in(alloc, Listing::Main, items_in(tree, "containers"))?;
    found.extend_from_slice(others.as_slice())?;
    Ok(found)
}

#[tactic(auto, unfolding(crate::specs::Advice::within))]
fn context_of<'v>(
    alloc: Global,
    context: Holder,
    profile: Holder,
    tree: &'v Value,
) -> Result<Vec<Advice<'v>>, AllocError>
    ensures { IfOk result (λ v. map told v.items
        ≡ within (context_in context profile) (codes "securityContext") (view tree.now)) }
{
    match member(tree, "securityContext") {
        Some(found) => context_in(alloc, context, profile, found),
        None => Ok(Vec::new(alloc)),
    }
}

/// The advice on a `securityContext`, and on the `seccompProfile` in it.
#[tactic(auto, unfolding(crate::specs::Advice::context_in))]
fn context_in<'v>(
    alloc: Global,
    context: Holder,
    profile: Holder,
    tree: &'v Value,
) -> Result<Vec<Advice<'v>>, AllocError>
    ensures { IfOk result (λ v. map told v.items ≡ context_in context profile (view tree.now)) }
{
    let mut found = recased_in(alloc, context, tree)?;
    let own = profile_of(alloc, profile, tree)?;
    found.extend_from_slice(own.as_slice())?;
    Ok(found)
}

#[tactic(auto, unfolding(crate::specs::Advice::within))]
fn profile_of<'v>(
    alloc: Global,
    profile: Holder,
    tree: &'v Value,
) -> Result<Vec<Advice<'v>>, AllocError>
    ensures { IfOk result (λ v. map told v.items
        ≡ within (recased_in profile) (codes "seccompProfile") (view tree.now)) }
{
    match member(tree, "seccompProfile") {
        Some(found) => recased_in(alloc, profile, found),
        None => Ok(Vec::new(alloc)),
    }
}

#[tactic(auto, unfolding(crate::specs::Advice::listed_in))]
fn listed_in<'v>(
    alloc: Global,
    listing: Listing,
    items: &'v [Value],
) -> Result<Vec<Advice<'v>>, AllocError>
    ensures { IfOk result (λ v. map told v.items ≡ listed_in listing (map view items.now)) }
{
    let mut found = Vec::new(alloc);
    for (index, item) in items.iter().enumerate() {
        let container = container_at(alloc, listing, index, item)?;
        found.extend_from_slice(container.as_slice())?;
    }
    Ok(found)
}

#[tactic(auto, unfolding(crate::specs::Advice::container_at))]
fn container_at<'v>(
    alloc: Global,
    listing: Listing,
    index: usize,
    item: &'v Value,
) -> Result<Vec<Advice<'v>>, AllocError>
    ensures { IfOk result (λ v. map told v.items ≡ container_at listing (index, view item.now)) }
{
    let mut found = recased_in(alloc, Holder::Container(listing, index), item)?;
    let (context, profile) = (
        Holder::Context(listing, index),
        Holder::Profile(listing, index),
    );
    let own = context_of(alloc, context, profile, item)?;
    found.extend_from_slice(own.as_slice())?;
    Ok(found)
}

/// The items of the list at this member.
#[tactic(auto, unfolding(crate::specs::Advice::items_in))]
fn items_in<'v>(tree: &'v Value, key: &str) -> &'v [Value]
    ensures { map view result.now ≡ items_in key.now (view tree.now) }
{
    match member(tree, key) {
        Some(found) => list(found).unwrap_or(&[]),
        None => &[],
    }
}
