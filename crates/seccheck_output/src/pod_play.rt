//! The containers of a pod that were played: how each ended, and its denied calls with what denied them.
ghost use Rattle.std.specs.Prelude.{◌≡◌, ◌≢◌, ◌++◌, IfNone, IfOk, IfSome, codes, string_bytes};
ghost use Rattle.action.specs.Verdict.{value_of};
ghost use Rattle.explain.specs.Explained.{Decides};
ghost use Rattle.oci_profile.specs.declared.decision.Decision.{Decision};
ghost use Rattle.oci_profile.specs.Meaning.{meaning};
ghost use Rattle.profile_pick.specs.Choice.{choice_seen};
ghost use Rattle.seccheck_output.specs.PodPlay.{denied_object, denied_text, ended_object, ended_text};
ghost use Rattle.seccheck_output.specs.PodPlay.{place_members};

use crate::list_objects::{CallValue, profile_members};
use crate::picked::named;
use action::ValueText;
use call_names::{CallWord, Naming};
use explain::{Decider, explain};
use manifest::Container;
use oci_profile::Profile;
use profile_pick::Choice;
use runtime_cell::JudgedCall;
use std::alloc::{AllocError, Global};
use std::fmt;

/// The part of the profile that decides the call's verdict. None if another filter does.
pub fn decided_by(
    alloc: Global,
    profile: &Profile,
    entry: &JudgedCall,
) -> Result<Option<Decider>, AllocError>
    ensures some { IfOk result (λ by. IfSome by (λ decider. (decision : Decision)
        × Decides profile.now entry.now.call decider decision)) }
    ensures same { IfOk result (λ by. IfSome by (λ decider.
        meaning profile.now entry.now.call ≡ value_of entry.now.verdict)) }
    ensures none { IfOk result (λ by. IfNone by
        (meaning profile.now entry.now.call ≢ value_of entry.now.verdict)) }
{
    let explanation = explain(alloc, profile, &entry.call)?;
    if explanation.decision.verdict().value() == entry.verdict.value() {
        Ok(Some(explanation.decider))
    } else {
        Ok(None)
    }
}

/// The line of a container that was played to its end: its profile and its exit code.
pub fn ended_line(
    alloc: Global,
    container: &Container,
    choice: Choice<'_>,
    code: u8,
) -> Result<String, AllocError>
    ensures { IfOk result (λ text. string_bytes text
        ≡ ended_text container.now.name (choice_seen choice.entry) code) }
{
    let picked = named(container, choice);
    format!(in alloc; "{picked} exit {code}\n")
}

/// The object of a container that was played to its end.
pub fn ended_object(
    alloc: Global,
    container: &Container,
    choice: Choice<'_>,
    code: u8,
) -> Result<String, AllocError>
    ensures { IfOk result (λ text. string_bytes text
        ≡ ended_object container.now.name (choice_seen choice.entry) code) }
{
    let name = container.name.as_str();
    let members = profile_members(alloc, choice)?;
    format!(in alloc; "{{\"container\":\"{name}\",\"profile\":{members},\"exit\":{code}}}\n")
}

/// A denied call of a container, and the part of its profile that denied it.
#[derive(Clone, Copy)]
pub struct DeniedCall {
    /// The step that makes the call, from 0.
    pub place: usize,
    pub entry: JudgedCall,
    pub naming: Naming,
    /// None if another filter of the container denied it.
    pub by: Option<Decider>,
}

/// What decided, as a text.
#[derive(Clone, Copy)]
struct By(Option<Decider>);

impl fmt::Display for By {
    ghost use Rattle.std.specs.Prelude.{Some};
    ghost use Rattle.seccheck_output.specs.PodPlay.{by_text};

    ghost output = { λ by. Some (by_text by.0) };

    fn fmt<W: fmt::Write>(&self, f: &mut fmt::Formatter<W>) -> fmt::Result {
        match self.0 {
            Some(decider) => write!(f, "{decider}"),
            None => f.write_str("another filter"),
        }
    }
}

/// The line of a denied call, below that of its container.
pub fn denied_line(alloc: Global, denied: DeniedCall) -> Result<String, AllocError>
    ensures { IfOk result (λ text. string_bytes text ≡ denied_text denied) }
{
    let (place, nr, naming) = (denied.place, denied.entry.call.nr, denied.naming);
    let call = CallWord { nr, naming };
    let value = ValueText(denied.entry.verdict.value());
    let by = By(denied.by);
    format!(in alloc; "  {place} {call} {value} by {by}\n")
}

/// The object of a denied call of this container.
pub fn denied_object(
    alloc: Global,
    container: &Container,
    denied: DeniedCall,
) -> Result<String, AllocError>
    ensures { IfOk result (λ text. string_bytes text ≡ denied_object container.now.name denied) }
{
    let place = place_members(alloc, container, denied)?;
    let (action, ret_data) = (denied.entry.verdict.action, denied.entry.verdict.ret_data);
    let by = By(denied.by);
    format!(in alloc; "{{{place},\"action\":\"{action}\",\"data\":{ret_data},\"by\":\"{by}\"}}\n")
}

fn place_members(
    alloc: Global,
    container: &Container,
    denied: DeniedCall,
) -> Result<String, AllocError>
    ensures { IfOk result (λ text. string_bytes text ≡ place_members container.now.name denied) }
{
    let name = container.name.as_str();
    let (place, nr, naming) = (denied.place, denied.entry.call.nr, denied.naming);
    let call = CallValue(CallWord { nr, naming });
    format!(in alloc; "\"container\":\"{name}\",\"place\":{place},\"call\":{call}")
}
