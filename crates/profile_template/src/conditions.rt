ghost use Rattle.std.specs.Prelude.{◌≡◌, codes, map};
ghost use Rattle.std.specs.List.{list_all, list_any};
ghost use Rattle.serde_json.specs.View.{view};
ghost use Rattle.json_tree.specs.Reading.{as_read};
ghost use Rattle.profile_template.specs.Reading.{excluded_of, included_of, is_met_of, items_of, kernel_of};
ghost use Rattle.profile_template.specs.Reading.{version_at};
ghost use Rattle.profile_template.specs.Settings.{has_cap, is_excluded, is_included, is_listed, is_word};

use crate::faults::TemplateFault;
use crate::placed::{TemplateFaultAt, under};
use crate::settings::{Settings, has_cap, is_new_enough, is_word};
use crate::version::Version;
use json_place::{Step, optional_object, optional_text, optional_text_list};
use serde_json::Value;

/// Whether the settings meet an entry's conditions.
#[tactic(auto, unfolding(crate::specs::Reading::is_met_of))]
pub(crate) fn is_met(settings: &Settings<'_>, tree: &Value) -> Result<bool, TemplateFaultAt>
    ensures { result ≡ is_met_of settings.now (view tree.now) }
{
    let is_included = match optional_object(tree, "includes")? {
        Some(found) => under(Step::Member("includes"), included(settings, found))?,
        None => true,
    };
    let is_excluded = match optional_object(tree, "excludes")? {
        Some(found) => under(Step::Member("excludes"), excluded(settings, found))?,
        None => false,
    };
    Ok(is_included && !is_excluded)
}

#[tactic(auto, unfolding(crate::specs::Reading::included_of))]
fn included(settings: &Settings<'_>, tree: &Value) -> Result<bool, TemplateFaultAt>
    ensures { result ≡ included_of settings.now (view tree.now) }
{
    let arches = items(tree, "arches")?;
    let caps = items(tree, "caps")?;
    let least = kernel(tree)?;
    Ok(is_included(settings, arches, caps, least))
}

#[tactic(auto, unfolding(crate::specs::Reading::excluded_of))]
fn excluded(settings: &Settings<'_>, tree: &Value) -> Result<bool, TemplateFaultAt>
    ensures { result ≡ excluded_of settings.now (view tree.now) }
{
    let arches = items(tree, "arches")?;
    let caps = items(tree, "caps")?;
    let least = kernel(tree)?;
    Ok(is_excluded(settings, arches, caps, least))
}

fn is_included(
    settings: &Settings<'_>,
    arches: &[Value],
    caps: &[Value],
    least: Option<Version>,
) -> bool
    ensures { result ≡ is_included settings.now (map view arches.now) (map view caps.now) least }
{
    (arches.is_empty() || is_listed(settings, arches))
        && has_all(settings, caps)
        && is_new_enough(true, settings.kernel, least)
}

fn is_excluded(
    settings: &Settings<'_>,
    arches: &[Value],
    caps: &[Value],
    least: Option<Version>,
) -> bool
    ensures { result ≡ is_excluded settings.now (map view arches.now) (map view caps.now) least }
{
    is_listed(settings, arches)
        || has_any(settings, caps)
        || is_new_enough(false, settings.kernel, least)
}

fn is_listed(settings: &Settings<'_>, arches: &[Value]) -> bool
    ensures { result ≡ is_listed settings.now (map view arches.now) }
{
    has_word(settings.arch, arches)
}

fn has_word(word: &str, items: &[Value]) -> bool
    ensures { result ≡ list_any (λ item. is_word word.now (view item)) items.now }
{
    items.iter().any(|item| is_word(word, item))
}

fn has_all(settings: &Settings<'_>, caps: &[Value]) -> bool
    ensures { result ≡ list_all (has_cap settings.now) (map view caps.now) }
{
    has_each(settings, caps)
}

fn has_each(settings: &Settings<'_>, caps: &[Value]) -> bool
    ensures { result ≡ list_all (λ cap. has_cap settings.now (view cap)) caps.now }
{
    caps.iter().all(|cap| has_cap(settings, cap))
}

fn has_any(settings: &Settings<'_>, caps: &[Value]) -> bool
    ensures { result ≡ list_any (has_cap settings.now) (map view caps.now) }
{
    has_one(settings, caps)
}

fn has_one(settings: &Settings<'_>, caps: &[Value]) -> bool
    ensures { result ≡ list_any (λ cap. has_cap settings.now (view cap)) caps.now }
{
    caps.iter().any(|cap| has_cap(settings, cap))
}

/// The texts of an optional list.
#[tactic(auto, unfolding(crate::specs::Reading::items_of))]
pub(crate) fn items<'v>(tree: &'v Value, key: &'static str) -> Result<&'v [Value], TemplateFaultAt>
    ensures { as_read (λ items. map view items.now) result ≡ items_of key.now (view tree.now) }
{
    Ok(optional_text_list(tree, key)?.unwrap_or(&[]))
}

#[tactic(auto, unfolding(crate::specs::Reading::kernel_of))]
fn kernel(tree: &Value) -> Result<Option<Version>, TemplateFaultAt>
    ensures { result ≡ kernel_of (view tree.now) }
{
    match optional_text(tree, "minKernel")? {
        Some(word) => Ok(Some(version(word)?)),
        None => Ok(None),
    }
}

fn version(word: &str) -> Result<Version, TemplateFaultAt>
    ensures { result ≡ version_at (codes "minKernel") word.now }
{
    Version::of(word).ok_or(TemplateFaultAt::at("minKernel", TemplateFault::BadKernel))
}
