//! The pods that a former start of the agent left in the runtime, from the file of `--state`.

use crate::state::{KeptUids, Store};
use crate::stops::AgentStop;
use cri_msgs::{Answer, Call, Request};
use host_io::replace;
use manifest::Uid;
use node_io::{CausedFault, FileFault, MAX_FILE_BYTES, read_file};
use runtime_stops::file_stop;
use std::alloc::{AllocError, Global};
use std::str;
use worker_crew::Peer;

// The file at a path of the system.
#[derive(Clone, Copy)]
struct SystemStore<'a> {
    system: HostRuntime,
    path: &'a str,
}

impl Store for SystemStore<'_> {
    fn put(&mut self, text: &[u8]) -> Result<(), CausedFault> {
        replace(&self.system, self.path, text)
    }
}

/// The file, and its contents.
#[derive(Drop)]
pub struct StateFile<'a> {
    alloc: Global,
    store: SystemStore<'a>,
    kept: KeptUids,
}

// The uids of a text, one per line, or the number of the first line that is not a uid, from 1.
fn uids_of(alloc: Global, text: &[u8]) -> Result<Result<Vec<Uid>, usize>, AllocError> {
    let Ok(text) = str::from_utf8(text) else {
        return Ok(Err(1));
    };
    let mut uids = Vec::new(alloc);
    let mut number: usize = 0;
    for line in text.lines() {
        number = number.saturating_add(1);
        match Uid::new(alloc, line)? {
            Some(uid) => uids.push(uid)?,
            None => return Ok(Err(number)),
        }
    }
    Ok(Ok(uids))
}

// How the removal of a pod ended.
enum Removal {
    Removed,
    // No reply came.
    Lost,
    // The runtime refused it.
    Refused,
}

fn asked<P: Peer>(peer: &mut P, id: u64, call: Call) -> Removal {
    match peer.call(&Request { id, call }) {
        Ok(reply) => match reply.answer {
            Answer::Refused(_) => Removal::Refused,
            _ => Removal::Removed,
        },
        Err(_) => Removal::Lost,
    }
}

// Stops and removes a pod in the runtime. Out of memory, the runtime counts as not reached.
fn remove<P: Peer>(alloc: Global, peer: &mut P, uid: &Uid) -> Removal {
    let (Ok(stopped), Ok(removed)) = (uid.try_clone(alloc), uid.try_clone(alloc)) else {
        return Removal::Lost;
    };
    match asked(
        peer,
        1,
        Call::StopPodSandbox {
            uid: stopped,
            grace: 0,
        },
    ) {
        Removal::Removed => asked(peer, 2, Call::RemovePodSandbox { uid: removed }),
        other => other,
    }
}

impl<'a> StateFile<'a> {
    /// Reads the file at a path. A missing file counts as empty.
    pub fn read(system: &HostRuntime, path: &'a str) -> Result<StateFile<'a>, AgentStop<'a>> {
        let alloc = system.alloc();
        let former = match read_file(system, path, MAX_FILE_BYTES) {
            Ok(text) => match uids_of(alloc, text.as_slice())? {
                Ok(uids) => uids,
                Err(line) => return Err(AgentStop::State(path, line)),
            },
            Err(fault) if fault.fault == FileFault::NotFound => Vec::new(alloc),
            Err(fault) => return Err(AgentStop::from(file_stop(path, fault))),
        };
        Ok(StateFile {
            alloc,
            store: SystemStore {
                system: *system,
                path,
            },
            kept: KeptUids::new(alloc, former),
        })
    }

    /// The file's path.
    pub fn path(&self) -> &'a str {
        self.store.path
    }

    /// Keeps the uid of a pod that is about to be admitted. If it can't be kept, the pod must not be
    /// admitted.
    pub fn keep(&mut self, uid: &Uid) -> Result<(), CausedFault> {
        self.kept.keep(&mut self.store, uid)
    }

    /// Forgets the uids of pods that are not on the node, by this test.
    pub fn forget_all_but<F: Fn(&Uid) -> bool>(&mut self, is_on_node: F) -> Result<(), CausedFault>
        requires { F.IsAlwaysCallable is_on_node }
    {
        let mut own = Vec::new(self.alloc);
        for uid in self.kept.own() {
            if is_on_node(uid) {
                add(self.alloc, &mut own, uid)?;
            }
        }
        if own.len() == self.kept.own().len() {
            return Ok(());
        }
        let former = copies(self.alloc, self.kept.former())?;
        self.kept.forget(&mut self.store, former, own)
    }

    /// Whether the file lists no pod of a former start.
    pub fn is_swept(&self) -> bool {
        self.kept.former().is_empty()
    }

    /// Asks once for the removal of each pod of a former start. Returns whether each call was answered. A pod
    /// whose removal the runtime refuses stays in the file.
    pub fn sweep_once<P: Peer>(&mut self, peer: &mut P) -> Result<bool, CausedFault> {
        let mut left = Vec::new(self.alloc);
        let mut is_whole = true;
        for uid in self.kept.former() {
            match remove(self.alloc, peer, uid) {
                Removal::Removed => {}
                Removal::Refused => add(self.alloc, &mut left, uid)?,
                Removal::Lost => {
                    is_whole = false;
                    add(self.alloc, &mut left, uid)?;
                }
            }
        }
        if left.len() < self.kept.former().len() {
            let own = copies(self.alloc, self.kept.own())?;
            self.kept.forget(&mut self.store, left, own)?;
        }
        Ok(is_whole)
    }
}

// Adds a copy of a uid.
fn add(alloc: Global, uids: &mut Vec<Uid>, uid: &Uid) -> Result<(), AllocError> {
    uids.push(uid.try_clone(alloc)?)?;
    Ok(())
}

fn copies(alloc: Global, uids: &[Uid]) -> Result<Vec<Uid>, AllocError> {
    let mut copies = Vec::new(alloc);
    for uid in uids {
        add(alloc, &mut copies, uid)?;
    }
    Ok(copies)
}
