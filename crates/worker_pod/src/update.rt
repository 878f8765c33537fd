ghost use Rattle.std.specs.Prelude.{◌≡◌, find, option_copied};
ghost use Rattle.worker_pod.specs.Updates.{answer_tells, answer_tells_of, cell_tells, done_tells, heard};
ghost use Rattle.worker_pod.specs.Updates.{is_cell_of, is_lost, list_tells, made_tells, state_tells};
ghost use Rattle.worker_pod.specs.Updates.{status_tells, statuses_tell, statuses_tell_of, told, told_of};

use crate::settings::Outcome;
use cri_msgs::{Answer, Call, ListedStatus, Request, State, Statuses};
use manifest::Label;

// What the end of a claim shows of a pod or container.
#[derive(Clone, Copy)]
pub(crate) enum StatusUpdate {
    // Nobody knows whether the request was carried out.
    Lost,
    Refused,
    SandboxReady,
    SandboxStopped,
    SandboxRemoved,
    Made,
    Started,
    NotExited,
    Exited(u8),
    Cleared,
    // Something that the agent ignores.
    Nothing,
}

impl StatusUpdate {
    pub(crate) fn is_lost(self) -> bool
        ensures { result ≡ is_lost self }
    {
        match self {
            StatusUpdate::Lost => true,
            _ => false,
        }
    }
}

// The answer to the request. A reply with the number of another one counts as lost.
fn heard<'o>(request: &Request, outcome: &'o Outcome) -> Option<&'o Answer>
    ensures { option_copied result ≡ heard request.now outcome.now }
{
    match outcome {
        Outcome::Replied(reply) if reply.id == request.id => Some(&reply.answer),
        Outcome::Replied(_) | Outcome::Lost | Outcome::Abandoned => None,
    }
}

// The update on the pod.
pub(crate) fn update_of(request: &Request, outcome: &Outcome) -> StatusUpdate
    ensures { result ≡ told request.now outcome.now }
{
    match heard(request, outcome) {
        Some(answer) => answer_update(&request.call, answer),
        None => StatusUpdate::Lost,
    }
}

fn answer_update(call: &Call, answer: &Answer) -> StatusUpdate
    ensures { result ≡ answer_tells call.now answer.now }
{
    match call {
        Call::RunPodSandbox { .. } => done_update(StatusUpdate::SandboxReady, answer),
        Call::StopPodSandbox { .. } => done_update(StatusUpdate::SandboxStopped, answer),
        Call::RemovePodSandbox { .. } => done_update(StatusUpdate::SandboxRemoved, answer),
        Call::CreateContainer { .. } => made_update(answer),
        Call::StartContainer { .. } => done_update(StatusUpdate::Started, answer),
        Call::StopContainer { .. } => done_update(StatusUpdate::Nothing, answer),
        Call::RemoveContainer { .. } => done_update(StatusUpdate::Cleared, answer),
        Call::ContainerStatus { .. } => status_update(answer),
        Call::ListContainers { .. } => list_update(answer),
        Call::ContainerStatuses { .. } => statuses_update(answer),
    }
}

fn done_update(update: StatusUpdate, answer: &Answer) -> StatusUpdate
    ensures { result ≡ done_tells update answer.now }
{
    match answer {
        Answer::Done => update,
        Answer::Refused(_) => StatusUpdate::Refused,
        _ => StatusUpdate::Lost,
    }
}

fn made_update(answer: &Answer) -> StatusUpdate
    ensures { result ≡ made_tells answer.now }
{
    match answer {
        Answer::Container(_) => StatusUpdate::Made,
        Answer::Refused(_) => StatusUpdate::Refused,
        _ => StatusUpdate::Lost,
    }
}

fn status_update(answer: &Answer) -> StatusUpdate
    ensures { result ≡ status_tells answer.now }
{
    match answer {
        Answer::Status(status) => state_update(status.state),
        Answer::Refused(_) => StatusUpdate::Refused,
        _ => StatusUpdate::Lost,
    }
}

fn state_update(state: State) -> StatusUpdate
    ensures { result ≡ state_tells state }
{
    match state {
        State::Created | State::Running => StatusUpdate::NotExited,
        State::Exited(code) => StatusUpdate::Exited(code),
    }
}

fn list_update(answer: &Answer) -> StatusUpdate
    ensures { result ≡ list_tells answer.now }
{
    match answer {
        Answer::List(_) => StatusUpdate::Nothing,
        Answer::Refused(_) => StatusUpdate::Refused,
        _ => StatusUpdate::Lost,
    }
}

fn statuses_update(answer: &Answer) -> StatusUpdate
    ensures { result ≡ statuses_tell answer.now }
{
    match answer {
        Answer::Statuses(_) => StatusUpdate::Nothing,
        Answer::Refused(_) => StatusUpdate::Refused,
        _ => StatusUpdate::Lost,
    }
}

// The update on an attempt at one of its containers.
pub(crate) fn told_of(
    name: &Label,
    attempt: u32,
    request: &Request,
    outcome: &Outcome,
) -> StatusUpdate
    ensures { result ≡ told_of name.now attempt request.now outcome.now }
{
    let Some(answer) = heard(request, outcome) else {
        return StatusUpdate::Lost;
    };
    answer_update_of(name, attempt, &request.call, answer)
}

fn answer_update_of(name: &Label, attempt: u32, call: &Call, answer: &Answer) -> StatusUpdate
    ensures { result ≡ answer_tells_of name.now attempt call.now answer.now }
{
    match call {
        Call::ContainerStatuses { .. } => statuses_update_of(name, attempt, answer),
        _ => answer_update(call, answer),
    }
}

fn statuses_update_of(name: &Label, attempt: u32, answer: &Answer) -> StatusUpdate
    ensures { result ≡ statuses_tell_of name.now attempt answer.now }
{
    match answer {
        Answer::Statuses(statuses) => cell_update(cell_of(name, attempt, statuses)),
        _ => statuses_update(answer),
    }
}

fn is_cell_of(name: &Label, attempt: u32, listed: &ListedStatus) -> bool
    ensures { result ≡ is_cell_of name.now attempt listed.now }
{
    listed.container.attempt == attempt && listed.container.name == *name
}

fn cell_of<'s>(name: &Label, attempt: u32, statuses: &'s Statuses) -> Option<&'s ListedStatus>
    ensures { option_copied result ≡ find (is_cell_of name.now attempt) statuses.now }
{
    statuses
        .as_slice()
        .iter()
        .find(|listed| is_cell_of(name, attempt, listed))
}

// An attempt that the list lacks was seen, and has not exited.
fn cell_update(listed: Option<&ListedStatus>) -> StatusUpdate
    ensures { result ≡ cell_tells (option_copied listed.entry) }
{
    match listed {
        Some(listed) => state_update(listed.status.state),
        None => StatusUpdate::NotExited,
    }
}
