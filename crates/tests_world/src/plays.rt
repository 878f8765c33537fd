use crate::pods::{files_of, no_files, pod_of};
use cri_msgs::{Answer, Call, Key, State, Statuses};
use manifest::Uid;
use node_io::FileFault;
use runtime_core::FileAnswers;
use std::alloc::{AllocError, Global};
use std::test::Fail;
use worker_pod::Settings;
use world::{Act, World, WorldEvent};

// A world that is played with lines of words, one event a line:
//   admit NAME, delete NAME, claim WORKER, tick MOMENT, abandon WORKER, report WORKER PLACE, lose WORKER,
//   step ID, kill ID CODE, and serve PLACE, followed by the faults of its files, the script's and the
//   profile's, if they can't be read.
// The result of a line is shown: for a claim the request that was sent, for a serving the answer, for a step
// the state of the cell, or the fault.
#[derive(Drop)]
pub(crate) struct Play {
    alloc: Global,
    pub(crate) world: World,
}

fn word(line: &str, at: usize) -> &str {
    line.split(' ').skip(at).next().unwrap_or("")
}

fn number(line: &str, at: usize) -> u64 {
    word(line, at).parse().unwrap_or(0)
}

fn fault_of(word: &str) -> Option<FileFault> {
    match word {
        "absent" => Some(FileFault::NotFound),
        "large" => Some(FileFault::TooLarge),
        "failed" => Some(FileFault::Failed),
        _ => None,
    }
}

fn key_text(alloc: Global, call: &str, key: &Key) -> Result<String, AllocError> {
    let (name, attempt) = (key.container.name.as_str(), key.container.attempt);
    format!(in alloc; "{call} {name} {attempt}")
}

pub(crate) fn call_text(alloc: Global, call: &Call) -> Result<String, AllocError> {
    match call {
        Call::RunPodSandbox { .. } => String::from_str(alloc, "RunPodSandbox"),
        Call::StopPodSandbox { grace, .. } => format!(in alloc; "StopPodSandbox {grace}"),
        Call::RemovePodSandbox { .. } => String::from_str(alloc, "RemovePodSandbox"),
        Call::CreateContainer { key, .. } => key_text(alloc, "CreateContainer", key),
        Call::StartContainer { key } => key_text(alloc, "StartContainer", key),
        Call::RemoveContainer { key } => key_text(alloc, "RemoveContainer", key),
        Call::ContainerStatus { key } => key_text(alloc, "ContainerStatus", key),
        Call::ContainerStatuses { .. } => String::from_str(alloc, "ContainerStatuses"),
        _ => String::from_str(alloc, "another call"),
    }
}

fn state_text(alloc: Global, state: State) -> Result<String, AllocError> {
    format!(in alloc; "{state:?}")
}

fn answer_text(alloc: Global, answer: &Answer) -> Result<String, AllocError> {
    match answer {
        Answer::Refused(refusal) => format!(in alloc; "{}", refusal.number()),
        Answer::Done => String::from_str(alloc, "ok"),
        Answer::Container(id) => format!(in alloc; "container {id}"),
        Answer::Status(status) => state_text(alloc, status.state),
        Answer::Statuses(list) => list_text(alloc, list),
        Answer::List(_) => String::from_str(alloc, "a list"),
    }
}

fn list_text(alloc: Global, list: &Statuses) -> Result<String, AllocError> {
    let mut text = String::new(alloc);
    for listed in list.as_slice() {
        let (container, state) = (&listed.container, listed.status.state);
        let before = if text.is_empty() { "" } else { ", " };
        let name = container.name.as_str();
        write!(text, "{before}{name} {} {state:?}", container.attempt)?;
    }
    Ok(text)
}

impl Play {
    pub(crate) fn new(alloc: Global, settings: Settings) -> Play {
        Play {
            alloc,
            world: World::new(alloc, settings, None),
        }
    }

    fn act(&self, line: &str, spec: &str) -> Result<Option<Act>, Fail> {
        let worker = word(line, 1).parse().unwrap_or(0);
        Ok(match word(line, 0) {
            "admit" => match pod_of(self.alloc, word(line, 1), spec) {
                Ok(pod) => Some(Act::Admit(pod)),
                Err(_) => Err("a pod")?,
            },
            "delete" => {
                let uid = format!(in self.alloc; "default.{}", word(line, 1))?;
                Some(Act::Delete(Uid::new(self.alloc, uid.as_str())?.ok_or("a uid")?))
            }
            "claim" => Some(Act::Claim(worker)),
            "tick" => Some(Act::Tick(number(line, 1))),
            "abandon" => Some(Act::Abandon(worker)),
            _ => None,
        })
    }

    // The results of the files of the request at this place, with the faults that the line names.
    fn files(&self, line: &str, which: usize) -> Result<FileAnswers, AllocError> {
        let mut files = match self.world.sent().get(which) {
            Some(request) => files_of(self.alloc, request)?,
            None => no_files(),
        };
        if let Some(fault) = fault_of(word(line, 2)) {
            files.script = Some(Err(fault));
        }
        if let Some(fault) = fault_of(word(line, 3)) {
            files.profile = Some(Err(fault));
        }
        Ok(files)
    }

    fn event(&self, line: &str, spec: &str) -> Result<WorldEvent, Fail> {
        if let Some(act) = self.act(line, spec)? {
            return Ok(WorldEvent::Agent(act));
        }
        let worker = word(line, 1).parse().unwrap_or(0);
        let which = word(line, 1).parse().unwrap_or(0);
        Ok(match word(line, 0) {
            "serve" => WorldEvent::Serve(which, self.files(line, which)?),
            "report" => WorldEvent::Report(worker, word(line, 2).parse().unwrap_or(0)),
            "lose" => WorldEvent::Lose(worker),
            "step" => WorldEvent::StepCell(number(line, 1)),
            "kill" => WorldEvent::KillCell(number(line, 1), word(line, 2).parse().unwrap_or(0)),
            _ => Err("an event")?,
        })
    }

    // The result of the event of a line.
    fn came_of(&self, line: &str, sent: usize) -> Result<String, AllocError> {
        let alloc = self.alloc;
        match word(line, 0) {
            "claim" => match self.world.sent().get(sent) {
                Some(request) => call_text(alloc, &request.call),
                None => String::from_str(alloc, "nothing"),
            },
            "serve" => match self.world.given().last() {
                Some(exchange) => answer_text(alloc, &exchange.reply.answer),
                None => String::from_str(alloc, "no reply"),
            },
            "step" | "kill" => match self.world.runtime().cell(number(line, 1)) {
                Some(cell) => format!(in alloc; "{:?}", cell.state()),
                None => String::from_str(alloc, "no cell"),
            },
            _ => String::from_str(alloc, "done"),
        }
    }

    // Carries out the line, and returns the result.
    pub(crate) fn does(&mut self, line: &str, spec: &str) -> Result<String, Fail> {
        match word(line, 0) {
            "cell" => {
                let is_there = self.world.runtime().cell(number(line, 1)).is_some();
                return Ok(format!(in self.alloc; "{is_there}")?);
            }
            "table" => return Ok(self.table()?),
            _ => {}
        }
        let sent = self.world.sent().len();
        let event = self.event(line, spec)?;
        match self.world.step(event) {
            Ok(()) => Ok(self.came_of(line, sent)?),
            Err(fault) => Ok(format!(in self.alloc; "{fault}")?),
        }
    }

    // The first pod's phase, and its containers.
    fn table(&self) -> Result<String, AllocError> {
        let Some(view) = self.world.node().pod(0) else {
            return String::from_str(self.alloc, "no pod");
        };
        let mut text = format!(in self.alloc; "{}", view.phase)?;
        for (container, track) in view.pod.containers.as_slice().iter().zip(view.tracks) {
            let name = container.name.as_str();
            match track.state(view.pod.policy) {
                lifecycle::ContainerState::Terminated(code) => write!(
                    text,
                    ", {name} Terminated {code}"
                )?,
                state => write!(text, ", {name} {state}")?,
            }
            write!(text, " {}", track.started())?;
        }
        Ok(text)
    }
}
