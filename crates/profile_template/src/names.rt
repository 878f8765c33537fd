ghost use Rattle.std.specs.Prelude.{◌≡◌, IfOk, Some, None, codes, filter_map, map, option_map};
ghost use Rattle.serde_json.specs.View.{view};
ghost use Rattle.json_tree.specs.Tree as kind;
ghost use Rattle.profile_template.specs.declared.faults.TemplateFault.TheVariants.{Profile};
ghost use Rattle.profile_template.specs.Faults.{fault_at};
ghost use Rattle.profile_template.specs.Reading.{Reads, chosen_names, names_of};

use crate::faults::TemplateFault;
use crate::placed::TemplateFaultAt;
use json_place::{optional_text, optional_text_list};
use json_tree::text;
use oci_profile::ProfileFault;
use profile_text::Texts;
use serde_json::Value;
use std::alloc::{AllocError, Global};

/// The names of an entry: its `names`, or its one `name`.
#[tactic(auto, unfolding(crate::specs::Reading::names_of))]
pub(crate) fn names(alloc: Global, tree: &Value) -> Result<Texts, TemplateFaultAt>
    ensures { Reads (λ t. t) result (names_of (view tree.now)) }
{
    let name = optional_text(tree, "name")?;
    let names = optional_text_list(tree, "names")?;
    match name {
        Some(name) if !name.is_empty() => single(alloc, name, names.unwrap_or(&[])),
        _ => listed(alloc, names),
    }
}

// The one name of an entry without a list of names.
fn single(alloc: Global, name: &str, names: &[Value]) -> Result<Texts, TemplateFaultAt>
    ensures { Reads (λ t. t) result (chosen_names (Some name.now) (Some (map view names.now))) }
{
    if !names.is_empty() {
        return Err(TemplateFaultAt::at("name", TemplateFault::Both));
    }
    let mut texts = Vec::new(alloc);
    texts.push(String::from_str(alloc, name)?)?;
    Ok(Texts::new(texts))
}

fn listed(alloc: Global, names: Option<&[Value]>) -> Result<Texts, TemplateFaultAt>
    ensures { Reads (λ t. t) result
        (chosen_names None (option_map (λ items. map view items.now) names.entry)) }
{
    let Some(names) = names else {
        return Err(refused(ProfileFault::Missing));
    };
    if names.is_empty() {
        return Err(refused(ProfileFault::EmptyNames));
    }
    Ok(texts(alloc, names)?)
}

fn refused(fault: ProfileFault) -> TemplateFaultAt
    ensures { result ≡ fault_at (codes "names") (Profile fault) }
{
    TemplateFaultAt::at("names", TemplateFault::Profile(fault))
}

/// The texts of a list of texts.
pub(crate) fn texts(alloc: Global, items: &[Value]) -> Result<Texts, AllocError>
    ensures { IfOk result (λ t. t ≡ filter_map kind.text (map view items.now)) }
{
    let mut texts = Vec::new(alloc);
    for item in items {
        if let Some(found) = text(item) {
            texts.push(String::from_str(alloc, found)?)?;
        }
    }
    Ok(Texts::new(texts))
}
