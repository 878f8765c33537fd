//! The call that a command makes about a pod, and the text printed for its answer.
ghost use Rattle.std.specs.Prelude.{◌≡◌, ◌++◌, IfOk, OnOk, option_map, string_bytes};
ghost use Rattle.node_watch.specs.declared.forms.Form.TheVariants.{Json, Text};
ghost use Rattle.runtime_client.specs.Answers.{call_of, count_members, head, lines_of, state_members};
ghost use Rattle.runtime_client.specs.Answers.{status_line, status_lines, which_members};

use command_line::PodCommand;
use cri_msgs::{Answer, Call, ContainerMetadata, ListedStatus, State, Status};
use manifest::Uid;
use node_watch::Form;
use std::alloc::{AllocError, Global};

/// The grace period of `stop` in seconds, the default of a pod in Kubernetes.
pub const STOP_GRACE: u64 = 30;

/// The call that a command makes about a pod.
pub fn call_of(alloc: Global, command: PodCommand, uid: &Uid) -> Result<Call, AllocError>
    ensures { IfOk result (λ call. call ≡ call_of command uid.now) }
{
    let uid = uid.try_clone(alloc)?;
    Ok(match command {
        PodCommand::Ps => Call::ContainerStatuses { uid },
        PodCommand::Stop => Call::StopPodSandbox {
            uid,
            grace: STOP_GRACE,
        },
        PodCommand::Rm => Call::RemovePodSandbox { uid },
    })
}

/// The header line above the statuses, with its line end: the names of the columns, separated by tabs.
pub fn head() -> &'static str
    ensures { result.now ≡ head }
{
    "POD\tCONTAINER\tATTEMPT\tSTATE\tEXIT\tPERFORMED\tDENIED\n"
}

/// The text printed for the answer to a command about a pod: a line for each container, or one that confirms
/// the command. `None` for a refusal, and for the answer to another call.
pub fn lines_of(
    alloc: Global,
    command: PodCommand,
    form: Form,
    uid: &Uid,
    answer: &Answer,
) -> Result<Option<String>, AllocError>
    ensures { IfOk result (λ lines. option_map string_bytes lines
        ≡ lines_of command form uid.now answer.now) }
{
    match (command, answer) {
        (PodCommand::Ps, Answer::Statuses(statuses)) => {
            Ok(Some(status_lines(alloc, form, uid, statuses.as_slice())?))
        }
        (PodCommand::Stop, Answer::Done) => {
            Ok(Some(format!(in alloc; "{} stopped\n", uid.as_str())?))
        }
        (PodCommand::Rm, Answer::Done) => Ok(Some(format!(in alloc;
            "{} removed\n",
            uid.as_str()
        )?)),
        _ => Ok(None),
    }
}

fn status_lines(
    alloc: Global,
    form: Form,
    uid: &Uid,
    statuses: &[ListedStatus],
) -> Result<String, AllocError>
    ensures { IfOk result (λ text. string_bytes text ≡ status_lines form uid.now statuses.now) }
{
    let mut text = String::new(alloc);
    add_lines(&mut text, form, uid, statuses)?;
    Ok(text)
}

// Adds the line of each status.
fn add_lines(
    text: &mut String,
    form: Form,
    uid: &Uid,
    statuses: &[ListedStatus],
) -> Result<(), AllocError>
    ensures { OnOk result (string_bytes text.new ≡ string_bytes text.old
        ++ status_lines form uid.now statuses.now) }
{
    let Some((listed, others)) = statuses.split_first() else {
        return Ok(());
    };
    add_line(text, form, uid, listed)?;
    add_lines(text, form, uid, others)
}

fn add_line(
    text: &mut String,
    form: Form,
    uid: &Uid,
    listed: &ListedStatus,
) -> Result<(), AllocError>
    ensures { OnOk result (string_bytes text.new ≡ string_bytes text.old
        ++ status_line form uid.now listed.now) }
{
    match form {
        Form::Text => add_words(text, uid, listed),
        Form::Json => add_object(text, uid, listed),
    }
}

fn add_words(text: &mut String, uid: &Uid, listed: &ListedStatus) -> Result<(), AllocError>
    ensures { OnOk result (string_bytes text.new ≡ string_bytes text.old
        ++ status_line Text uid.now listed.now) }
{
    let (uid, name) = (uid.as_str(), listed.container.name.as_str());
    let attempt = listed.container.attempt;
    let (performed, denied) = (listed.status.performed, listed.status.denied);
    match listed.status.state {
        State::Created => writeln!(
            text,
            "{uid}\t{name}\t{attempt}\tCREATED\t-\t{performed}\t{denied}"
        )?,
        State::Running => writeln!(
            text,
            "{uid}\t{name}\t{attempt}\tRUNNING\t-\t{performed}\t{denied}"
        )?,
        State::Exited(code) => writeln!(
            text,
            "{uid}\t{name}\t{attempt}\tEXITED\t{code}\t{performed}\t{denied}"
        )?,
    }
    Ok(())
}

fn add_object(text: &mut String, uid: &Uid, listed: &ListedStatus) -> Result<(), AllocError>
    ensures { OnOk result (string_bytes text.new ≡ string_bytes text.old
        ++ status_line Json uid.now listed.now) }
{
    add_which(text, uid, &listed.container)?;
    add_state(text, listed.status.state)?;
    add_counts(text, &listed.status)
}

fn add_which(text: &mut String, uid: &Uid, container: &ContainerMetadata) -> Result<(), AllocError>
    ensures { OnOk result (string_bytes text.new ≡ string_bytes text.old
        ++ which_members uid.now container.now) }
{
    let (uid, name, attempt) = (uid.as_str(), container.name.as_str(), container.attempt);
    write!(
        text,
        "{{\"pod\":\"{uid}\",\"container\":\"{name}\",\"attempt\":{attempt}"
    )
}

fn add_state(text: &mut String, state: State) -> Result<(), AllocError>
    ensures { OnOk result (string_bytes text.new ≡ string_bytes text.old ++ state_members state) }
{
    match state {
        State::Created => text.push_str(",\"state\":\"CREATED\",\"exit\":null"),
        State::Running => text.push_str(",\"state\":\"RUNNING\",\"exit\":null"),
        State::Exited(code) => write!(text, ",\"state\":\"EXITED\",\"exit\":{code}"),
    }
}

fn add_counts(text: &mut String, status: &Status) -> Result<(), AllocError>
    ensures { OnOk result (string_bytes text.new ≡ string_bytes text.old ++ count_members status.now) }
{
    let (performed, denied) = (status.performed, status.denied);
    writeln!(text, ",\"performed\":{performed},\"denied\":{denied}}}")
}
