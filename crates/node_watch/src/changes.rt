ghost use Rattle.std.specs.Prelude.{◌≡◌, ◌++◌, IfOk, OnOk, string_bytes, option_copied};
ghost use Rattle.node_watch.specs.Changes.{container_change, container_changes, container_line, gone_line};
ghost use Rattle.node_watch.specs.Changes.{how_members};
ghost use Rattle.node_watch.specs.Changes.{is_same, is_same_phase, is_same_state, phase_change, pod_changes};
ghost use Rattle.node_watch.specs.Changes.{pod_line, state_members, which_members};
ghost use Rattle.lifecycle.specs.Names.{phase_name};
ghost use Rattle.node_watch.specs.declared.forms.Form.{Form};

use crate::counts::{CallCounts, add_counts, is_same_counts};
use crate::forms::Form;
use crate::seen::{ContainerSeen, PodSeen};
use lifecycle::{ContainerState, Phase};
use manifest::{Label, Uid};
use std::alloc::{AllocError, Global};

fn is_same_phase(old: Phase, new: Phase) -> bool
    ensures { result ≡ is_same_phase old new }
{
    matches!(
        (old, new),
        (Phase::Pending, Phase::Pending)
            | (Phase::Running, Phase::Running)
            | (Phase::Succeeded, Phase::Succeeded)
            | (Phase::Failed, Phase::Failed)
            | (Phase::Unknown, Phase::Unknown)
    )
}

fn is_same_state(old: ContainerState, new: ContainerState) -> bool
    ensures { result ≡ is_same_state old new }
{
    match (old, new) {
        (ContainerState::Waiting, ContainerState::Waiting)
        | (ContainerState::Running, ContainerState::Running) => true,
        (ContainerState::Terminated(code), ContainerState::Terminated(other)) => code == other,
        _ => false,
    }
}

fn is_same(old: &ContainerSeen, new: &ContainerSeen) -> bool
    ensures { result ≡ is_same old.now new.now }
{
    is_same_state(old.state, new.state)
        && old.restarts == new.restarts
        && is_same_counts(old.counts, new.counts)
}

fn add_pod(
    text: &mut String,
    form: Form,
    moment: u64,
    uid: &Uid,
    what: &str,
) -> Result<(), AllocError>
    ensures { OnOk result (string_bytes text.new ≡ string_bytes text.old
        ++ pod_line form moment uid.now what.now) }
{
    let uid = uid.as_str();
    match form {
        Form::Text => writeln!(text, "{moment} {uid} {what}")?,
        Form::Json => writeln!(
            text,
            "{{\"moment\":{moment},\"pod\":\"{uid}\",\"phase\":\"{what}\"}}"
        )?,
    }
    Ok(())
}

fn add_line(
    text: &mut String,
    form: Form,
    moment: u64,
    uid: &Uid,
    seen: &ContainerSeen,
) -> Result<(), AllocError>
    ensures { OnOk result (string_bytes text.new ≡ string_bytes text.old
        ++ container_line form moment uid.now seen.now) }
{
    match form {
        Form::Text => add_words(text, moment, uid, seen),
        Form::Json => add_object(text, moment, uid, seen),
    }
}

fn add_words(
    text: &mut String,
    moment: u64,
    uid: &Uid,
    seen: &ContainerSeen,
) -> Result<(), AllocError>
    ensures { OnOk result (string_bytes text.new ≡ string_bytes text.old
        ++ container_line Form.Text moment uid.now seen.now) }
{
    let (uid, name, state) = (uid.as_str(), seen.name.as_str(), seen.state);
    let restarts = seen.restarts;
    match state {
        ContainerState::Terminated(code) => write!(
            text,
            "{moment} {uid} {name} {state} {code} {restarts}"
        )?,
        ContainerState::Waiting | ContainerState::Running => write!(
            text,
            "{moment} {uid} {name} {state} - {restarts}"
        )?,
    }
    add_counts(text, Form::Text, seen.counts)?;
    text.push_str("\n")
}

fn add_object(
    text: &mut String,
    moment: u64,
    uid: &Uid,
    seen: &ContainerSeen,
) -> Result<(), AllocError>
    ensures { OnOk result (string_bytes text.new ≡ string_bytes text.old
        ++ container_line Form.Json moment uid.now seen.now) }
{
    add_which(text, moment, uid, &seen.name)?;
    add_state(text, seen.state, seen.restarts, seen.counts)
}

pub(crate) fn add_which(
    text: &mut String,
    moment: u64,
    uid: &Uid,
    name: &Label,
) -> Result<(), AllocError>
    ensures { OnOk result (string_bytes text.new ≡ string_bytes text.old
        ++ which_members moment uid.now name.now) }
{
    let (uid, name) = (uid.as_str(), name.as_str());
    write!(
        text,
        "{{\"moment\":{moment},\"pod\":\"{uid}\",\"container\":\"{name}\""
    )?;
    Ok(())
}

fn add_state(
    text: &mut String,
    state: ContainerState,
    restarts: usize,
    counts: Option<CallCounts>,
) -> Result<(), AllocError>
    ensures { OnOk result (string_bytes text.new ≡ string_bytes text.old
        ++ state_members state restarts counts) }
{
    add_how(text, state, restarts)?;
    add_counts(text, Form::Json, counts)?;
    text.push_str("}\n")
}

fn add_how(text: &mut String, state: ContainerState, restarts: usize) -> Result<(), AllocError>
    ensures { OnOk result (string_bytes text.new ≡ string_bytes text.old ++ how_members state restarts) }
{
    match state {
        ContainerState::Terminated(code) => write!(
            text,
            ",\"state\":\"{state}\",\"code\":{code},\"restarts\":{restarts}"
        )?,
        ContainerState::Waiting | ContainerState::Running => write!(
            text,
            ",\"state\":\"{state}\",\"code\":null,\"restarts\":{restarts}"
        )?,
    }
    Ok(())
}

fn add_container(
    text: &mut String,
    form: Form,
    moment: u64,
    uid: &Uid,
    old: Option<&ContainerSeen>,
    new: &ContainerSeen,
) -> Result<(), AllocError>
    ensures { OnOk result (string_bytes text.new ≡ string_bytes text.old
        ++ container_change form moment uid.now (option_copied old.entry) new.now) }
{
    match old {
        Some(old) if is_same(old, new) => Ok(()),
        _ => add_line(text, form, moment, uid, new),
    }
}

// Adds the changes place by place.
fn add_containers(
    text: &mut String,
    form: Form,
    moment: u64,
    uid: &Uid,
    old: &[ContainerSeen],
    new: &[ContainerSeen],
) -> Result<(), AllocError>
    ensures { OnOk result (string_bytes text.new ≡ string_bytes text.old
        ++ container_changes form moment uid.now old.now new.now) }
{
    let Some((seen, others)) = new.split_first() else {
        return Ok(());
    };
    match old.split_first() {
        Some((was, rest)) => {
            add_container(text, form, moment, uid, Some(was), seen)?;
            add_containers(text, form, moment, uid, rest, others)
        }
        None => {
            add_container(text, form, moment, uid, None, seen)?;
            add_containers(text, form, moment, uid, &[], others)
        }
    }
}

fn name_of(phase: Phase) -> &'static str
    ensures { result.now ≡ phase_name phase }
{
    match phase {
        Phase::Pending => "Pending",
        Phase::Running => "Running",
        Phase::Succeeded => "Succeeded",
        Phase::Failed => "Failed",
        Phase::Unknown => "Unknown",
    }
}

fn add_phase(
    text: &mut String,
    form: Form,
    moment: u64,
    uid: &Uid,
    old: Option<Phase>,
    new: Phase,
) -> Result<(), AllocError>
    ensures { OnOk result (string_bytes text.new ≡ string_bytes text.old
        ++ phase_change form moment uid.now old new) }
{
    match old {
        Some(old) if is_same_phase(old, new) => Ok(()),
        _ => add_pod(text, form, moment, uid, name_of(new)),
    }
}

/// What changed in a pod at a moment, in seconds: a line for its phase, and one for each container whose
/// state, restarts or counts changed. All of them if the pod was not seen before.
pub fn pod_changes(
    alloc: Global,
    form: Form,
    moment: u64,
    old: Option<&PodSeen>,
    new: &PodSeen,
) -> Result<String, AllocError>
    ensures { IfOk result (λ text. string_bytes text
        ≡ pod_changes form moment (option_copied old.entry) new.now) }
{
    let mut text = String::new(alloc);
    let containers = new.containers.as_slice();
    match old {
        Some(old) => {
            add_phase(
                &mut text,
                form,
                moment,
                &new.uid,
                Some(old.phase),
                new.phase,
            )?;
            let before = old.containers.as_slice();
            add_containers(&mut text, form, moment, &new.uid, before, containers)?;
        }
        None => {
            add_phase(&mut text, form, moment, &new.uid, None, new.phase)?;
            add_containers(&mut text, form, moment, &new.uid, &[], containers)?;
        }
    }
    Ok(text)
}

/// The line for a pod that has left the node, at a moment in seconds.
pub fn gone_line(alloc: Global, form: Form, moment: u64, uid: &Uid) -> Result<String, AllocError>
    ensures { IfOk result (λ text. string_bytes text ≡ gone_line form moment uid.now) }
{
    let mut text = String::new(alloc);
    add_pod(&mut text, form, moment, uid, "Deleted")?;
    Ok(text)
}
