//! Reports what goes wrong with the calls of all workers.

use agent_parts::{CallTroubles, LostCall, LostPod, reach_line, refused_line};
use cri_msgs::{Reply, Request};
use runtime_server::LineWriter;
use std::alloc::{AllocError, Global};
use std::sync::{Mutex, Wait};

/// What went wrong with the calls of all workers.
#[derive(Drop)]
pub struct Troubles {
    alloc: Global,
    socket: String,
    // Whether anything but lost pods is reported.
    is_told: bool,
    state: Mutex<CallTroubles>,
}

impl Troubles {
    /// No call was made yet. `is_told` is false if each call is logged: then only lost pods are reported.
    pub fn new(alloc: Global, socket: &str, is_told: bool) -> Result<Troubles, AllocError> {
        let socket = String::from_str(alloc, socket)?;
        Ok(Troubles {
            alloc,
            socket,
            is_told,
            state: Mutex::new(CallTroubles::new(alloc)),
        })
    }

    /// Records the end of a call at this moment, and prints the reports due after it.
    pub fn note<R: Wait>(
        &self,
        rt: &R,
        writer: &LineWriter,
        moment: u64,
        request: &Request,
        came: &Result<Reply, LostCall>,
    ) {
        let report = self.state.lock(rt).note(request, came);
        if !self.is_told {
            return;
        }
        if let Some(line) = reach_line(self.alloc, self.socket.as_str(), report) {
            writer.tell(rt, line);
        }
        match refused_line(self.alloc, request, came) {
            Some(Ok(line)) => self.repeat(rt, writer, moment, line),
            Some(Err(_)) => writer.miss(rt, 1),
            None => {}
        }
    }

    // Reports a refused call the first time, and then once a minute with its count.
    fn repeat<R: Wait>(&self, rt: &R, writer: &LineWriter, moment: u64, line: String) {
        let mut state = self.state.lock(rt);
        let told = state.repeat(line, moment);
        drop(state);
        if let Some(line) = told {
            writer.tell(rt, line);
        }
    }

    /// Takes out the pods that the runtime has lost since the last call.
    pub fn take_lost<R: Wait>(&self, rt: &R) -> Vec<LostPod> {
        self.state.lock(rt).take_lost()
    }
}
