use cri_msgs::{
    Answer, Call, ContainerMetadata, Key, ListedStatus, MAX_LISTED, Refusal, Reply, Request, State,
    Status, Statuses,
};
use lifecycle::{Phase, Stage};
use manifest::{Label, PodFault, SeccompProfile};
use std::alloc::{AllocError, Global};
use std::marker::Model;
use worker_pod::{Outcome, PodState, Settings};

// A pod on a node, the moment, and how many claims there were.
#[derive(Drop)]
pub(crate) struct Play {
    alloc: Global,
    pub(crate) state: PodState,
    pub(crate) now: u64,
    number: u64,
}

impl Model for Play {
    ghost use Rattle.std.specs.Prelude.{ℕ, ◌≤◌};

    ghost Value = { ℕ };

    ghost view = { λ p. p.now };

    ghost invariant = { λ p. p.state.latest ≤ p.now };
}

pub(crate) fn begun(alloc: Global, spec: &str, settings: Settings) -> Result<Play, PodFault> {
    let text = format!(in alloc;
        "{{\"apiVersion\":\"v1\",\"kind\":\"Pod\",\"metadata\":{{\"name\":\"p\"}},\"spec\":{{{spec}}}}}"
    )?;
    let pod = manifest::read(alloc, text.as_bytes())?;
    Ok(Play {
        alloc,
        state: PodState::new(alloc, pod, settings)?,
        now: 0,
        number: 0,
    })
}

fn container_text(alloc: Global, verb: &str, key: &Key) -> Result<String, AllocError> {
    let (name, attempt) = (key.container.name.as_str(), key.container.attempt);
    format!(in alloc; "{verb} {} {name} {attempt}", key.uid.as_str())
}

fn profile_text(alloc: Global, profile: &SeccompProfile) -> Result<String, AllocError> {
    match profile {
        SeccompProfile::RuntimeDefault => String::from_str(alloc, "default"),
        SeccompProfile::Localhost(path) => format!(in alloc; "file {}", path.as_str()),
        SeccompProfile::Unconfined => String::from_str(alloc, "unconfined"),
    }
}

fn call_text(alloc: Global, call: &Call) -> Result<String, AllocError> {
    match call {
        Call::RunPodSandbox { uid } => format!(in alloc; "run {}", uid.as_str()),
        Call::StopPodSandbox { uid, grace } => {
            format!(in alloc; "stop {} {grace}", uid.as_str())
        }
        Call::RemovePodSandbox { uid } => format!(in alloc; "remove {}", uid.as_str()),
        Call::CreateContainer {
            key,
            image,
            profile,
        } => {
            let text = container_text(alloc, "create", key)?;
            let profile = profile_text(alloc, profile)?;
            format!(in alloc; "{} {} {}", text.as_str(), image.as_str(), profile.as_str())
        }
        Call::StartContainer { key } => container_text(alloc, "start", key),
        Call::RemoveContainer { key } => container_text(alloc, "clear", key),
        Call::ContainerStatus { key } => container_text(alloc, "look", key),
        _ => String::from_str(alloc, "another call"),
    }
}

// By the letter: e and x for an exit with 0 or 1, else running.
fn status(letter: u8) -> Status {
    let state = match letter {
        b'e' => State::Exited(0),
        b'x' => State::Exited(1),
        _ => State::Running,
    };
    Status {
        state,
        performed: 0,
        denied: 0,
    }
}

fn listed(cells: Vec<ListedStatus>) -> Answer {
    if cells.len() <= MAX_LISTED {
        Answer::Statuses(Statuses::new(cells))
    } else {
        drop(cells);
        Answer::Done
    }
}

// A list of cells from a text: for each the container's name, the attempt and the status, a letter each.
fn listed_in(alloc: Global, text: &str) -> Result<Answer, AllocError> {
    let mut cells = Vec::new(alloc);
    for cell in text.split_whitespace() {
        let Some((name, rest)) = cell.split_at_checked(1) else {
            continue;
        };
        let (attempt, letter) = rest.split_at_checked(1).unwrap_or((rest, ""));
        if let Some(name) = Label::new(alloc, name)? {
            let attempt = attempt.parse::<u32>().unwrap_or(0);
            let letter = letter.as_bytes().first().copied().unwrap_or(b'r');
            cells.push(ListedStatus {
                container: ContainerMetadata { name, attempt },
                status: status(letter),
            })?;
        }
    }
    Ok(listed(cells))
}

fn another_kind(call: &Call) -> Answer {
    match call {
        Call::CreateContainer { .. } => Answer::Done,
        _ => Answer::Container(7),
    }
}

// How the claim ends: r a refusal, l a loss, a given up, k an answer of another kind, n a reply with another
// number, else answered.
fn outcome(request: &Request, answer: Answer, letter: u8) -> Outcome {
    let id = request.id;
    match letter {
        b'r' => Outcome::Replied(Reply {
            id,
            answer: Answer::Refused(Refusal::NotFound),
        }),
        b'l' => Outcome::Lost,
        b'a' => Outcome::Abandoned,
        b'k' => Outcome::Replied(Reply {
            id,
            answer: another_kind(&request.call),
        }),
        b'n' => Outcome::Replied(Reply {
            id: id.wrapping_add(1),
            answer,
        }),
        _ => Outcome::Replied(Reply { id, answer }),
    }
}

impl Play {
    // Claims the pod and ends the claim, and returns what was asked for. At h it is deleted while it is held,
    // at w it is held for two seconds.
    pub(crate) fn claim(&mut self, letter: u8) -> Result<String, AllocError> {
        self.number = self.number.saturating_add(1);
        let Some(request) = self.state.next(self.now, self.number)? else {
            return String::from_str(self.alloc, "none");
        };
        match letter {
            b'h' => self.state.delete(),
            b'w' => self.now = self.now.saturating_add(2),
            _ => {}
        }
        let text = self.call_text(&request.call)?;
        let answer = self.answer(&request.call, letter)?;
        self.state
            .ended(self.now, &request, outcome(&request, answer, letter))?;
        Ok(text)
    }

    // Claims the pod, and ends the claim with these cells.
    pub(crate) fn lists(&mut self, cells: &str) -> Result<String, AllocError> {
        self.number = self.number.saturating_add(1);
        let Some(request) = self.state.next(self.now, self.number)? else {
            return String::from_str(self.alloc, "none");
        };
        let text = self.call_text(&request.call)?;
        let answer = listed_in(self.alloc, cells)?;
        self.state
            .ended(self.now, &request, outcome(&request, answer, b'd'))?;
        let told = self.phase_and_due()?;
        format!(in self.alloc; "{}: {}; ", text.as_str(), told.as_str())
    }

    // The answer of the call's kind, each status by the letter.
    fn answer(&self, call: &Call, letter: u8) -> Result<Answer, AllocError> {
        match call {
            Call::ContainerStatus { .. } => Ok(Answer::Status(status(letter))),
            Call::ContainerStatuses { .. } => self.running(letter),
            Call::CreateContainer { .. } => Ok(Answer::Container(7)),
            _ => Ok(Answer::Done),
        }
    }

    // Lists what is running.
    fn running(&self, letter: u8) -> Result<Answer, AllocError> {
        let view = self.state.view();
        let mut cells = Vec::new(self.alloc);
        for (container, track) in view.pod.containers.as_slice().iter().zip(view.tracks) {
            if let Stage::Running { attempt, .. } = track.stage {
                let name = container.name.try_clone(self.alloc)?;
                cells.push(ListedStatus {
                    container: ContainerMetadata { name, attempt },
                    status: status(letter),
                })?;
            }
        }
        Ok(listed(cells))
    }

    // A call for all statuses is written with what is running.
    fn call_text(&self, call: &Call) -> Result<String, AllocError> {
        let Call::ContainerStatuses { uid } = call else {
            return call_text(self.alloc, call);
        };
        let view = self.state.view();
        let mut text = format!(in self.alloc; "look {}", uid.as_str())?;
        for (container, track) in view.pod.containers.as_slice().iter().zip(view.tracks) {
            if let Stage::Running { attempt, .. } = track.stage {
                write!(text, " {} {attempt}", container.name.as_str())?;
            }
        }
        Ok(text)
    }

    // Waits until a request is due.
    pub(crate) fn tick(&mut self) {
        if let Some(due) = self.state.due() {
            self.now = self.now.max(due);
        }
    }

    // The phase, and the moment from which a request is due.
    fn phase_and_due(&self) -> Result<String, AllocError> {
        let phase: Phase = self.state.view().phase;
        match self.state.due() {
            Some(due) => format!(in self.alloc; "{phase} {due}"),
            None if self.state.gone() => format!(in self.alloc; "{phase} gone"),
            None => format!(in self.alloc; "{phase} -"),
        }
    }

    // Plays the letters: D deletes the pod, t waits, any other is a claim and how it ends. Returns each
    // request, and the state after it.
    pub(crate) fn plays(&mut self, letters: &str) -> Result<String, AllocError> {
        let mut text = String::new(self.alloc);
        for letter in letters.as_bytes() {
            match *letter {
                b'D' => self.state.delete(),
                b't' => self.tick(),
                letter => {
                    let asked = self.claim(letter)?;
                    let told = self.phase_and_due()?;
                    write!(text, "{}: {}; ", asked.as_str(), told.as_str())?;
                }
            }
        }
        Ok(text)
    }
}
