use cri_msgs::{Call, Key, Refusal, Reply, Request, State, Status, Version};
use manifest::{Pod, PodFault, Uid};
use std::alloc::{AllocError, Global};
use worker_core::{AgentEvent, Answer, Node, Reported};
use worker_pod::Settings;

// A node, and the requests that its workers were given last.
#[derive(Drop)]
pub(crate) struct Play {
    alloc: Global,
    pub(crate) node: Node,
    given: Vec<(u32, Request)>,
}

pub(crate) const PLAIN: Settings = Settings {
    seccomp_default: false,
    poll: 0,
    version: Version::V1,
};

pub(crate) fn begun(alloc: Global) -> Play {
    Play {
        alloc,
        node: Node::new(alloc, PLAIN),
        given: Vec::new(alloc),
    }
}

// The pod of this name, whose spec is this one.
pub(crate) fn pod(alloc: Global, name: &str, spec: &str) -> Result<Pod, PodFault> {
    let text = format!(in alloc;
        "{{\"apiVersion\":\"v1\",\"kind\":\"Pod\",\"metadata\":{{\"name\":\"{name}\"}},\"spec\":{{{spec}}}}}"
    )?;
    manifest::read(alloc, text.as_bytes())
}

fn container_text(alloc: Global, verb: &str, key: &Key) -> Result<String, AllocError> {
    let (name, attempt) = (key.container.name.as_str(), key.container.attempt);
    format!(in alloc; "{verb} {} {name} {attempt}", key.uid.as_str())
}

fn call_text(alloc: Global, call: &Call) -> Result<String, AllocError> {
    match call {
        Call::RunPodSandbox { uid } => format!(in alloc; "run {}", uid.as_str()),
        Call::StopPodSandbox { uid, .. } => format!(in alloc; "stop {}", uid.as_str()),
        Call::RemovePodSandbox { uid } => format!(in alloc; "remove {}", uid.as_str()),
        Call::CreateContainer { key, .. } => container_text(alloc, "create", key),
        Call::StartContainer { key } => container_text(alloc, "start", key),
        Call::RemoveContainer { key } => container_text(alloc, "clear", key),
        Call::ContainerStatus { key } => container_text(alloc, "look", key),
        _ => String::from_str(alloc, "another call"),
    }
}

pub(crate) fn answer_text(alloc: Global, answer: &Answer) -> Result<String, AllocError> {
    match answer {
        Answer::Done => String::from_str(alloc, "done"),
        Answer::Claimed {
            uid,
            number,
            request,
        } => {
            let call = call_text(alloc, &request.call)?;
            format!(in alloc;
                "{} {number} {} {}",
                uid.as_str(),
                request.id,
                call.as_str()
            )
        }
        Answer::Nothing => String::from_str(alloc, "nothing"),
        Answer::Refused(refusal) => format!(in alloc; "{refusal}"),
    }
}

fn status(state: State) -> cri_msgs::Answer {
    cri_msgs::Answer::Status(Status {
        state,
        performed: 0,
        denied: 0,
    })
}

// The answer of the call's kind, a status by the letter: e for an exit with 0, else running.
fn said(call: &Call, letter: u8) -> cri_msgs::Answer {
    match (call, letter) {
        (_, b'r') => cri_msgs::Answer::Refused(Refusal::NotFound),
        (Call::ContainerStatus { .. }, b'e') => status(State::Exited(0)),
        (Call::ContainerStatus { .. }, _) => status(State::Running),
        (Call::CreateContainer { .. }, _) => cri_msgs::Answer::Container(7),
        _ => cri_msgs::Answer::Done,
    }
}

// The worker's report: l a loss, r a refusal, o a reply to request 1, e an exit with 0, else the wanted
// result.
fn reported(letter: u8, request: &Request) -> Reported {
    let id = if letter == b'o' { 1 } else { request.id };
    match letter {
        b'l' => Reported::Lost,
        _ => Reported::Replied(Reply {
            id,
            answer: said(&request.call, letter),
        }),
    }
}

fn copied_text(alloc: Global, answer: &Answer) -> Result<String, AllocError> {
    let copy = answer.try_clone(alloc)?;
    let text = answer_text(alloc, &copy);
    drop(copy);
    text
}

impl Play {
    fn foreseen(&self, event: &AgentEvent) -> Result<String, AllocError> {
        let answer = self.node.answer(event);
        let text = answer_text(self.alloc, &answer);
        drop(answer);
        text
    }

    fn keep(&mut self, worker: u32, answer: Answer) -> Result<(), AllocError> {
        match answer {
            Answer::Claimed { request, uid, .. } => {
                drop(uid);
                self.given.push((worker, request))?;
                Ok(())
            }
            other => {
                drop(other);
                Ok(())
            }
        }
    }

    fn taken(&mut self, event: &AgentEvent) -> Result<String, AllocError> {
        let worker = match event {
            AgentEvent::Claim(worker) => *worker,
            _ => 0,
        };
        let answer = self.node.apply(event.try_clone(self.alloc)?);
        let text = copied_text(self.alloc, &answer);
        let kept = self.keep(worker, answer);
        kept?;
        text
    }

    // Applies the event, after `answer` predicted the result, and returns the answer. Events and answers are
    // copied.
    pub(crate) fn take(&mut self, event: &AgentEvent) -> Result<String, AllocError> {
        let foreseen = self.foreseen(event)?;
        let text = self.taken(event)?;
        if foreseen == text {
            Ok(text)
        } else {
            format!(in self.alloc; "{} was foreseen, not {}", foreseen.as_str(), text.as_str())
        }
    }

    // What the worker reports of the request that it was given last.
    fn report(&self, letter: u8, worker: u32) -> AgentEvent {
        let given = self.given.as_slice().iter().rev().find(|g| g.0 == worker);
        match given {
            Some((_, request)) => AgentEvent::Report(worker, reported(letter, request)),
            None => AgentEvent::Report(worker, Reported::Lost),
        }
    }

    // The event of a word: A and D with a pod's name, t with a moment, c and a with a worker, and the letters
    // of a worker's report.
    fn event(&self, letter: u8, rest: &str, spec: &str) -> Result<Option<AgentEvent>, PodFault> {
        let number = rest.parse::<u64>().unwrap_or(0);
        let worker = rest.parse::<u32>().unwrap_or(0);
        Ok(match letter {
            b'A' => Some(AgentEvent::Admit(pod(self.alloc, rest, spec)?)),
            b'D' => {
                let text = format!(in self.alloc; "default.{rest}")?;
                Uid::new(self.alloc, text.as_str())?.map(AgentEvent::Delete)
            }
            b't' => Some(AgentEvent::Tick(number)),
            b'c' => Some(AgentEvent::Claim(worker)),
            b'a' => Some(AgentEvent::Abandon(worker)),
            letter => Some(self.report(letter, worker)),
        })
    }

    fn word(&mut self, word: &str, spec: &str) -> Result<Option<String>, PodFault> {
        let Some((letter, rest)) = word.split_at_checked(1) else {
            return Ok(None);
        };
        let letter = letter.as_bytes().first().copied().unwrap_or(b'?');
        match self.event(letter, rest, spec)? {
            Some(event) => {
                let answer = self.take(&event);
                drop(event);
                Ok(Some(answer?))
            }
            None => Ok(None),
        }
    }

    // Plays the words, and returns the answer to each.
    pub(crate) fn plays(&mut self, words: &str, spec: &str) -> Result<String, PodFault> {
        let mut text = String::new(self.alloc);
        for word in words.split_whitespace() {
            if let Some(answer) = self.word(word, spec)? {
                write!(text, "{word}: {}; ", answer.as_str())?;
            }
        }
        Ok(text)
    }

    // How many are held, the moment from which one is due, and the phases.
    pub(crate) fn held_and_phases(&self) -> Result<String, AllocError> {
        let mut text = match self.node.next_due() {
            Some(due) => format!(in self.alloc; "{} held, due {due}", self.node.held())?,
            None => format!(in self.alloc; "{} held", self.node.held())?,
        };
        for i in 0..worker_core::MAX_PODS {
            if let Some(view) = self.node.pod(i) {
                write!(text, ", {} {}", view.pod.uid.as_str(), view.phase)?;
            }
        }
        Ok(text)
    }
}
