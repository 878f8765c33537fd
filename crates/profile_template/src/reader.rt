ghost use Rattle.std.specs.Prelude.{◌≡◌, [], length, map, nat_lt};
ghost use Rattle.serde_json.specs.View.{view};
ghost use Rattle.json_tree.specs.Reading.{as_fault, in_order_after, refuse_if};
ghost use Rattle.oci_profile.specs.declared.faults.ProfileFault.TheVariants.{TooLarge};
ghost use Rattle.oci_profile.specs.declared.reader.TheConstants.{MAX_PROFILE_BYTES};
ghost use Rattle.oci_profile.specs.Reading as of_profile;
ghost use Rattle.profile_template.specs.declared.faults.TemplateFault.TheVariants.{Profile};
ghost use Rattle.profile_template.specs.Faults.{fault_here, fault_of_profile};
ghost use Rattle.profile_template.specs.Reading.{Reads, default_of, entries_of, entry_at, entry_if, entry_of};
ghost use Rattle.profile_template.specs.Reading.{ignored_of, reading_of, short_of, template_of};

use crate::architectures::architectures;
use crate::conditions::is_met;
use crate::decisions::decision;
use crate::faults::TemplateFault;
use crate::names::names;
use crate::placed::{TemplateFaultAt, under};
use crate::settings::Settings;
use crate::template::{Template, TemplateEntries};
use json_place::{Step, optional_list, optional_text, optional_text_list};
use json_tree::object;
use oci_profile::{Conds, Decision, MAX_PROFILE_BYTES, ProfileFault};
use profile_text::NamedEntry;
use serde_json::Value;
use std::alloc::Global;

/// The template of a text, for these settings, or its first fault: of the text, then of the fields in the
/// order of docs/SEMANTICS.md, and of the entries in order, including those whose conditions are not met. If
/// an allocation fails, the result is `Memory`, unless it is `TooLarge`.
#[tactic(auto, unfolding(crate::specs::Reading::reading_of))]
pub fn read(
    alloc: Global,
    bytes: &[u8],
    settings: &Settings<'_>,
) -> Result<Template, TemplateFaultAt>
    ensures { Reads (λ t. t) result (reading_of settings.now bytes.now) }
{
    short_enough(bytes)?;
    short(alloc, bytes, settings)
}

fn short_enough(bytes: &[u8]) -> Result<(), TemplateFaultAt>
    ensures { result ≡ refuse_if (nat_lt MAX_PROFILE_BYTES (length bytes.now))
        (fault_here (Profile TooLarge)) }
{
    if bytes.len() > MAX_PROFILE_BYTES {
        return Err(refused(ProfileFault::TooLarge));
    }
    Ok(())
}

#[tactic(auto, unfolding(crate::specs::Reading::short_of))]
fn short(alloc: Global, bytes: &[u8], settings: &Settings<'_>) -> Result<Template, TemplateFaultAt>
    ensures { Reads (λ t. t) result (short_of settings.now bytes.now) }
{
    let tree = json_tree::read(alloc, bytes)?;
    template(alloc, &tree, settings)
}

#[tactic(auto, unfolding(crate::specs::Reading::template_of))]
fn template(
    alloc: Global,
    tree: &Value,
    settings: &Settings<'_>,
) -> Result<Template, TemplateFaultAt>
    ensures { Reads (λ t. t) result (template_of settings.now (view tree.now)) }
{
    let tree = object(tree).ok_or(refused(ProfileFault::NotObject))?;
    let default = default(tree)?;
    let architectures = architectures(alloc, settings, tree)?;
    ignored(tree)?;
    let entries = entries(alloc, settings, tree)?;
    Ok(Template {
        default,
        architectures,
        entries,
    })
}

#[tactic(auto, unfolding(crate::specs::Reading::entries_of))]
fn entries(
    alloc: Global,
    settings: &Settings<'_>,
    tree: &Value,
) -> Result<TemplateEntries, TemplateFaultAt>
    ensures { Reads (λ e. e) result (entries_of settings.now (view tree.now)) }
{
    let items = optional_list(tree, "syscalls")?.unwrap_or(&[]);
    under(Step::Member("syscalls"), each_entry(alloc, settings, items))
}

#[tactic(auto, unfolding(crate::specs::Reading::default_of))]
fn default(tree: &Value) -> Result<Decision, TemplateFaultAt>
    ensures { result ≡ default_of (view tree.now) }
{
    decision(tree, "defaultAction", "defaultErrnoRet", "defaultErrno")
}

fn refused(fault: ProfileFault) -> TemplateFaultAt
    ensures { result ≡ fault_here (Profile fault) }
{
    TemplateFaultAt::here(TemplateFault::Profile(fault))
}

#[tactic(auto, unfolding(crate::specs::Reading::ignored_of))]
fn ignored(tree: &Value) -> Result<(), TemplateFaultAt>
    ensures { result ≡ ignored_of (view tree.now) }
{
    optional_text_list(tree, "flags")?;
    optional_text(tree, "listenerPath")?;
    optional_text(tree, "listenerMetadata")?;
    Ok(())
}

#[tactic(auto, using(json_tree::proofs::After::after_more, json_tree::proofs::After::after_stops))]
fn each_entry(
    alloc: Global,
    settings: &Settings<'_>,
    items: &[Value],
) -> Result<TemplateEntries, TemplateFaultAt>
    ensures { Reads (λ e. e) result
        (in_order_after (entry_at settings.now) [] (map view items.now)) }
{
    let mut entries = Vec::new(alloc);
    for item in items {
        let index = entries.len();
        let entry = under(Step::Item(index), entry(alloc, settings, item))?;
        entries.push(entry)?;
    }
    Ok(TemplateEntries::new(entries))
}

#[tactic(auto, unfolding(crate::specs::Reading::entry_of))]
fn entry(
    alloc: Global,
    settings: &Settings<'_>,
    item: &Value,
) -> Result<Option<NamedEntry>, TemplateFaultAt>
    ensures { Reads (λ e. e) result (entry_of settings.now (view item.now)) }
{
    let tree = object(item).ok_or(refused(ProfileFault::WrongType))?;
    let names = names(alloc, tree)?;
    let decision = decision(tree, "action", "errnoRet", "errno")?;
    let conds = conds(alloc, tree)?;
    let is_met = is_met(settings, tree)?;
    let entry = NamedEntry {
        names,
        decision,
        conds,
    };
    Ok(entry_if(is_met, entry))
}

fn entry_if(is_met: bool, entry: NamedEntry) -> Option<NamedEntry>
    ensures { result ≡ entry_if is_met entry }
{
    if is_met { Some(entry) } else { None }
}

fn conds(alloc: Global, tree: &Value) -> Result<Conds, TemplateFaultAt>
    ensures { Reads (λ c. c) result (as_fault fault_of_profile (of_profile.conds_of (view tree.now))) }
{
    Ok(oci_profile::conds(alloc, tree)?)
}
