ghost use Rattle.std.specs.Prelude.{◌≡◌, ◌++◌, [], IfOk, OnOk, option_copied, string_bytes};
ghost use Rattle.agent_parts.specs.Table.{container_line, name_member, pod_line, pod_lines, reason_text};
ghost use Rattle.agent_parts.specs.Table.{restarts_of, state_line, state_members, state_words, table_text};
ghost use Rattle.agent_parts.specs.Table.{rest_text, told_table, trouble_text, uid_member, why_text};
ghost use Rattle.node_watch.specs.declared.forms.Form.TheVariants as form;

use fault_notes::refusal_name;
use lifecycle::{ContainerState, Phase, Track};
use manifest::{Container, Label, Pod, Uid};
use node_watch::{CallCounts, Counts, Form, Reason, Reasons, Trouble, add_counts, call_name};
use std::alloc::{AllocError, Global};
use worker_core::{MAX_PODS, Node};

/// The table of a node's pods: a line for each, in order of admission, with uid and phase, and below it one
/// for each of its containers, init ones first, with name, state, code and restarts.
pub fn table(alloc: Global, node: &Node) -> Result<String, AllocError>
    ensures { IfOk result (λ text. string_bytes text ≡ table_text node.now) }
{
    let (reasons, counts) = (Reasons::new(alloc), Counts::new(alloc));
    told_table(alloc, node, Form::Text, &reasons, &counts)
}

/// The table as words or JSON, with the counts of each container's calls, if there are any, and the given
/// reason why each unfinished container waits.
pub fn told_table(
    alloc: Global,
    node: &Node,
    form: Form,
    reasons: &Reasons,
    counts: &Counts,
) -> Result<String, AllocError>
    ensures { IfOk result (λ text. string_bytes text
        ≡ told_table form reasons.now counts.now node.now) }
{
    let mut text = String::new(alloc);
    for place in 0..MAX_PODS {
        if let Some(view) = node.pod(place) {
            add_pod(
                &mut text,
                form,
                reasons,
                counts,
                view.pod,
                view.tracks,
                view.phase,
            )?;
        }
    }
    Ok(text)
}

fn add_pod(
    text: &mut String,
    form: Form,
    reasons: &Reasons,
    counts: &Counts,
    pod: &Pod,
    tracks: &[Track],
    phase: Phase,
) -> Result<(), AllocError>
    ensures { OnOk result (string_bytes text.new ≡ string_bytes text.old
        ++ pod_lines form reasons.now counts.now pod.now tracks.now phase) }
{
    add_phase(text, form, pod, phase)?;
    for (container, track) in pod.containers.as_slice().iter().zip(tracks) {
        add_container(text, form, reasons, counts, pod, container, track)?;
    }
    Ok(())
}

fn add_phase(text: &mut String, form: Form, pod: &Pod, phase: Phase) -> Result<(), AllocError>
    ensures { OnOk result (string_bytes text.new ≡ string_bytes text.old ++ pod_line form pod.now phase) }
{
    let uid = pod.uid.as_str();
    match form {
        Form::Text => writeln!(text, "POD {uid} {phase}")?,
        Form::Json => writeln!(text, "{{\"pod\":\"{uid}\",\"phase\":\"{phase}\"}}")?,
    }
    Ok(())
}

fn add_container(
    text: &mut String,
    form: Form,
    reasons: &Reasons,
    counts: &Counts,
    pod: &Pod,
    container: &Container,
    track: &Track,
) -> Result<(), AllocError>
    ensures { OnOk result (string_bytes text.new ≡ string_bytes text.old
        ++ container_line form reasons.now counts.now pod.now.uid pod.now.policy
        (container.now, track.now)) }
{
    let (uid, name) = (&pod.uid, &container.name);
    let state = track.state(pod.policy);
    let reason = reasons.reason_for(uid, name);
    let counts = counts.counts_of(uid, name);
    match form {
        Form::Text => add_words(text, name, state, restarts(track), counts, reason),
        Form::Json => add_object(text, uid, name, state, restarts(track), counts, reason),
    }
}

fn add_words(
    text: &mut String,
    name: &Label,
    state: ContainerState,
    restarts: usize,
    counts: Option<CallCounts>,
    reason: Option<&Reason>,
) -> Result<(), AllocError>
    ensures { OnOk result (string_bytes text.new ≡ string_bytes text.old
        ++ state_line form.Text [] name.now state restarts counts (option_copied reason.entry)) }
{
    add_state(text, name, state, restarts)?;
    add_rest(text, Form::Text, state, counts, reason)?;
    text.push_str("\n")
}

fn add_object(
    text: &mut String,
    uid: &Uid,
    name: &Label,
    state: ContainerState,
    restarts: usize,
    counts: Option<CallCounts>,
    reason: Option<&Reason>,
) -> Result<(), AllocError>
    ensures { OnOk result (string_bytes text.new ≡ string_bytes text.old
        ++ state_line form.Json uid.now name.now state restarts counts (option_copied reason.entry)) }
{
    add_uid(text, uid)?;
    add_name(text, name)?;
    add_members(text, state, restarts)?;
    add_rest(text, Form::Json, state, counts, reason)?;
    text.push_str("}\n")
}

fn add_state(
    text: &mut String,
    name: &Label,
    state: ContainerState,
    restarts: usize,
) -> Result<(), AllocError>
    ensures { OnOk result (string_bytes text.new ≡ string_bytes text.old
        ++ state_words name.now state restarts) }
{
    let name = name.as_str();
    match state {
        ContainerState::Terminated(code) => write!(text, "  {name} {state} {code} {restarts}")?,
        ContainerState::Waiting | ContainerState::Running => write!(
            text,
            "  {name} {state} - {restarts}"
        )?,
    }
    Ok(())
}

fn add_uid(text: &mut String, uid: &Uid) -> Result<(), AllocError>
    ensures { OnOk result (string_bytes text.new ≡ string_bytes text.old ++ uid_member uid.now) }
{
    let uid = uid.as_str();
    write!(text, "{{\"pod\":\"{uid}\"")?;
    Ok(())
}

fn add_name(text: &mut String, name: &Label) -> Result<(), AllocError>
    ensures { OnOk result (string_bytes text.new ≡ string_bytes text.old ++ name_member name.now) }
{
    let name = name.as_str();
    write!(text, ",\"container\":\"{name}\"")?;
    Ok(())
}

fn add_members(text: &mut String, state: ContainerState, restarts: usize) -> Result<(), AllocError>
    ensures { OnOk result (string_bytes text.new ≡ string_bytes text.old ++ state_members state restarts) }
{
    match state {
        ContainerState::Terminated(code) => write!(
            text,
            ",\"state\":\"{state}\",\"code\":{code},\"restarts\":{restarts}"
        )?,
        ContainerState::Waiting | ContainerState::Running => write!(
            text,
            ",\"state\":\"{state}\",\"code\":null,\"restarts\":{restarts}"
        )?,
    }
    Ok(())
}

// Adds the counts of a container's calls, if there are any, and why it waits.
fn add_rest(
    text: &mut String,
    form: Form,
    state: ContainerState,
    counts: Option<CallCounts>,
    reason: Option<&Reason>,
) -> Result<(), AllocError>
    ensures { OnOk result (string_bytes text.new ≡ string_bytes text.old
        ++ rest_text form state counts (option_copied reason.entry)) }
{
    add_counts(text, form, counts)?;
    add_why(text, form, state, reason)
}

// Adds why an unfinished container waits.
fn add_why(
    text: &mut String,
    form: Form,
    state: ContainerState,
    reason: Option<&Reason>,
) -> Result<(), AllocError>
    ensures { OnOk result (string_bytes text.new ≡ string_bytes text.old
        ++ why_text form state (option_copied reason.entry)) }
{
    match (state, reason) {
        (ContainerState::Terminated(_), _) | (_, None) => Ok(()),
        (_, Some(reason)) => add_reason(text, form, reason),
    }
}

fn add_reason(text: &mut String, form: Form, reason: &Reason) -> Result<(), AllocError>
    ensures { OnOk result (string_bytes text.new ≡ string_bytes text.old ++ reason_text form reason.now) }
{
    let (call, since) = (call_name(&reason.call), reason.since);
    match form {
        Form::Text => {
            write!(text, " {call} ")?;
            add_trouble(text, reason.trouble)?;
            write!(text, " since {since} s")?;
        }
        Form::Json => {
            write!(text, ",\"call\":\"{call}\",\"came\":\"")?;
            add_trouble(text, reason.trouble)?;
            write!(text, "\",\"since\":{since}")?;
        }
    }
    Ok(())
}

fn add_trouble(text: &mut String, trouble: Trouble) -> Result<(), AllocError>
    ensures { OnOk result (string_bytes text.new ≡ string_bytes text.old ++ trouble_text trouble) }
{
    match trouble {
        Trouble::Refused(refusal) => write!(text, "refused {}", refusal_name(refusal))?,
        Trouble::Lost => write!(text, "lost")?,
    }
    Ok(())
}

/// How many attempts were started after the first one.
fn restarts(track: &Track) -> usize
    ensures { result ≡ restarts_of track.now }
{
    track.started().saturating_sub(1)
}
