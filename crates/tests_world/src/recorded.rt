use cri_msgs::{Answer, Call};
use lifecycle::Runs;
use runtime_cell::State;
use std::alloc::{AllocError, Global};
use std::mem;
use world::{Exchange, World};

// A cell as it was seen: its attempt, whether it was started, and its exit code.
#[derive(Drop)]
pub(crate) struct Seen {
    id: u64,
    uid: String,
    name: String,
    attempt: u32,
    started: bool,
    code: Option<u8>,
    gone: bool,
}

// A sandbox that was removed, and whether a request for it was served since.
#[derive(Drop)]
struct Removed {
    uid: String,
    served: bool,
}

// How many runs of a container were seen.
#[derive(Drop)]
struct Counted {
    uid: String,
    name: String,
    runs: usize,
}

// All that was seen of a world, by plain code, and how often the rare cases occurred.
#[derive(Drop)]
pub(crate) struct Recorded {
    alloc: Global,
    cells: Vec<Seen>,
    removed: Vec<Removed>,
    counted: Vec<Counted>,
    // the greatest id of a cell
    last: u64,
    pub(crate) second_attempts: u32,
    pub(crate) refused_creations: u32,
    pub(crate) served_behind_removal: u32,
    pub(crate) installed: u32,
}

fn is_among(removed: &[Removed], uid: &str) -> bool {
    removed.iter().any(|r| r.uid.as_str() == uid)
}

fn uid_of(call: &Call) -> &str {
    match call {
        Call::RunPodSandbox { uid }
        | Call::StopPodSandbox { uid, .. }
        | Call::RemovePodSandbox { uid }
        | Call::ListContainers { uid }
        | Call::ContainerStatuses { uid } => uid.as_str(),
        Call::CreateContainer { key, .. }
        | Call::StartContainer { key }
        | Call::StopContainer { key, .. }
        | Call::RemoveContainer { key }
        | Call::ContainerStatus { key } => key.uid.as_str(),
    }
}

fn looks_at(seen: &mut Seen, world: &World, removed: &[Removed]) -> Option<&'static str> {
    let Some(cell) = world.runtime().cell(seen.id) else {
        seen.gone = true;
        return None;
    };
    if is_among(removed, seen.uid.as_str()) {
        return Some("a cell of a removed sandbox is there");
    }
    match (cell.state(), seen.code) {
        (State::Created, None) if !seen.started => {}
        (State::Running, None) => seen.started = true,
        (State::Exited { code, .. }, None) => seen.code = Some(code),
        (State::Exited { code, .. }, Some(known)) if code == known => {}
        _ => return Some("a cell went back"),
    }
    None
}

impl Recorded {
    pub(crate) fn new(alloc: Global) -> Recorded {
        Recorded {
            alloc,
            cells: Vec::new(alloc),
            removed: Vec::new(alloc),
            counted: Vec::new(alloc),
            last: 0,
            second_attempts: 0,
            refused_creations: 0,
            served_behind_removal: 0,
            installed: 0,
        }
    }

    // Notes a request that was served. Returns what is wrong.
    pub(crate) fn served(
        &mut self,
        exchange: &Exchange,
    ) -> Result<Option<&'static str>, AllocError> {
        let call = &exchange.request.call;
        self.serves_removed(uid_of(call));
        match (call, &exchange.reply.answer) {
            (Call::CreateContainer { key, .. }, Answer::Container(id)) => {
                let (name, attempt) = (key.container.name.as_str(), key.container.attempt);
                self.made(*id, key.uid.as_str(), name, attempt)
            }
            (Call::CreateContainer { .. }, Answer::Refused(_)) => {
                self.refused_creations = self.refused_creations.wrapping_add(1);
                Ok(None)
            }
            (Call::RemovePodSandbox { uid }, Answer::Done) => {
                if !is_among(self.removed.as_slice(), uid.as_str()) {
                    let uid = String::from_str(self.alloc, uid.as_str())?;
                    self.removed.push(Removed { uid, served: false })?;
                }
                Ok(None)
            }
            _ => Ok(None),
        }
    }

    // Counts the removed sandboxes for which a request was served afterwards.
    fn serves_removed(&mut self, uid: &str) {
        for removed in self.removed.as_mut_slice() {
            if !removed.served && removed.uid.as_str() == uid {
                removed.served = true;
                self.served_behind_removal = self.served_behind_removal.wrapping_add(1);
            }
        }
    }

    fn made(
        &mut self,
        id: u64,
        uid: &str,
        name: &str,
        attempt: u32,
    ) -> Result<Option<&'static str>, AllocError> {
        let known = self.cells.as_slice().iter().find(|c| c.id == id);
        if let Some(cell) = known {
            let same = cell.uid.as_str() == uid
                && cell.name.as_str() == name
                && cell.attempt == attempt;
            return Ok(if same {
                None
            } else {
                Some("an id is two attempts'")
            });
        }
        if is_among(self.removed.as_slice(), uid) {
            return Ok(Some("a container was made in a removed sandbox"));
        }
        let mut cells = self.cells.as_slice().iter();
        if cells.any(|c| c.uid.as_str() == uid && c.name.as_str() == name && c.attempt == attempt) {
            return Ok(Some("an attempt was made twice"));
        }
        if id <= self.last {
            return Ok(Some("ids do not rise"));
        }
        self.last = id;
        if attempt > 0 {
            self.second_attempts = self.second_attempts.wrapping_add(1);
        }
        let seen = Seen {
            id,
            uid: String::from_str(self.alloc, uid)?,
            name: String::from_str(self.alloc, name)?,
            attempt,
            started: false,
            code: None,
            gone: false,
        };
        self.cells.push(seen)?;
        Ok(None)
    }

    // Looks at all existing cells. Returns what is wrong.
    pub(crate) fn looks(&mut self, world: &World) -> Option<&'static str> {
        let removed = self.removed.as_slice();
        for seen in self.cells.as_mut_slice() {
            if !seen.gone {
                if let Some(wrong) = looks_at(seen, world, removed) {
                    return Some(wrong);
                }
            }
        }
        None
    }

    // Whether a cell that was gone exists again.
    pub(crate) fn came_back(&self, world: &World) -> bool {
        let mut cells = self.cells.as_slice().iter();
        cells.any(|seen| seen.gone && world.runtime().cell(seen.id).is_some())
    }

    // The exit code of the attempt's cell, as it was seen.
    pub(crate) fn code_of(&self, uid: &str, name: &str, attempt: usize) -> Option<u8> {
        let mut cells = self.cells.as_slice().iter();
        let found = cells.find(|c| {
            c.uid.as_str() == uid && c.name.as_str() == name && c.attempt as usize == attempt
        });
        found.and_then(|c| c.code)
    }

    // How many runs of the container were seen before, given how many there are now.
    fn counts(&mut self, uid: &str, name: &str, runs: usize) -> Result<usize, AllocError> {
        for counted in self.counted.as_mut_slice() {
            if counted.uid.as_str() == uid && counted.name.as_str() == name {
                return Ok(mem::replace(&mut counted.runs, runs));
            }
        }
        let counted = Counted {
            uid: String::from_str(self.alloc, uid)?,
            name: String::from_str(self.alloc, name)?,
            runs,
        };
        self.counted.push(counted)?;
        Ok(0)
    }

    // Whether the container has as many runs as were seen before, or one more, and the last one is of the
    // cell of the last attempt, counted from 0.
    fn is_of_cell(&mut self, uid: &str, name: &str, runs: &Runs) -> Result<bool, AllocError> {
        let count = runs.count();
        let before = self.counts(uid, name, count)?;
        let last = runs.last().map(|run| run.code());
        Ok(match count.checked_sub(1) {
            Some(attempt) => {
                let is_next = before == count || before == attempt;
                is_next && last.is_some() && last == self.code_of(uid, name, attempt)
            }
            None => before == 0 && last.is_none(),
        })
    }

    // Whether the runs that the node counts are those of the cells. Checked after each report, which records
    // at most one run of a container.
    pub(crate) fn runs_are_of_cells(&mut self, world: &World) -> Result<bool, AllocError> {
        for i in 0..worker_core::MAX_PODS {
            let Some(view) = world.node().pod(i) else {
                return Ok(true);
            };
            let containers = view.pod.containers.as_slice();
            for (container, track) in containers.iter().zip(view.tracks) {
                let (uid, name) = (view.pod.uid.as_str(), container.name.as_str());
                if !self.is_of_cell(uid, name, &track.runs)? {
                    return Ok(false);
                }
            }
        }
        Ok(true)
    }

    // Whether no two of these workers hold the same pod.
    pub(crate) fn are_apart(&self, world: &World, workers: u32) -> bool {
        for worker in 0..workers {
            let Some(request) = world.node().claim_of(worker) else {
                continue;
            };
            for other in 0..worker {
                if let Some(another) = world.node().claim_of(other) {
                    if uid_of(&request.call) == uid_of(&another.call) {
                        return false;
                    }
                }
            }
        }
        true
    }
}
