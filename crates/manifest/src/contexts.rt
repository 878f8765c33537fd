ghost use Rattle.std.specs.Prelude.{◌≡◌, IfOk, option_map};
ghost use Rattle.serde_json.specs.View.{view};
ghost use Rattle.json_tree.specs.Reading.{as_read};
ghost use Rattle.manifest.specs.Seen.{context_seen};
ghost use Rattle.manifest.specs.Profiles.{HasFitPath};
ghost use Rattle.manifest.specs.Reading.{context_of, settings_in, settings_within};

use crate::fields::profile_in;
use crate::lent::ContextText;
use crate::placed::PodFaultAt;
use json_place::{Step, optional_flag, optional_object};
use serde_json::Value;

// A container's `securityContext`. Nothing is allocated.

#[tactic(auto, unfolding(crate::specs::Reading::context_of))]
pub(crate) fn context(tree: &Value) -> Result<ContextText<'_>, PodFaultAt>
    ensures value { as_read context_seen result ≡ context_of (view tree.now) }
    ensures fit { IfOk result (λ context. HasFitPath context.profile) }
{
    let found = optional_object(tree, "securityContext")?;
    settings_within(found).map_err(|found| found.within(Step::Member("securityContext")))
}

fn settings_within<'v>(context: Option<&'v Value>) -> Result<ContextText<'v>, PodFaultAt>
    ensures value { as_read context_seen result
        ≡ settings_within (option_map (λ v. view v.now) context.entry) }
    ensures fit { IfOk result (λ context. HasFitPath context.profile) }
{
    match context {
        Some(context) => settings(context),
        None => Ok(ContextText {
            privileged: false,
            profile: None,
        }),
    }
}

#[tactic(auto, unfolding(crate::specs::Reading::settings_in))]
fn settings(context: &Value) -> Result<ContextText<'_>, PodFaultAt>
    ensures value { as_read context_seen result ≡ settings_in (view context.now) }
    ensures fit { IfOk result (λ context. HasFitPath context.profile) }
{
    let privileged = optional_flag(context, "privileged")?.unwrap_or(false);
    let profile = profile_in(context)?;
    Ok(ContextText {
        privileged,
        profile,
    })
}
