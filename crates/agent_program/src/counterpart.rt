use crate::limits::{LAST_CALLS, LOOKS};
use runner::Node;
use runtime_server::{Connections, RuntimeThreads};
use std::sync::Wait;
use std::thread;
use std::time::{Clock, Duration};
use worker_crew::Counterpart;

/// The runtime of a run of pods, with the open connections to it: in this process, with this number of
/// runners, or external, with nothing known about it.
#[derive(Clone, Copy)]
pub(crate) enum RuntimeBehind<'r, 'o, 'e, B: Node, R: Wait> {
    Own(&'r R, &'o Connections, &'e RuntimeThreads<B>, u32),
    Other(&'r R, &'o Connections),
}

// Waits up to a second for calls in progress to return, then cuts off their connections.
fn end_calls<R: Wait + Clock>(rt: &R, open: &Connections) {
    for _ in 0..LOOKS {
        if open.is_empty(rt) {
            break;
        }
        thread::sleep(rt, Duration::from_millis(LAST_CALLS / LOOKS));
    }
    open.close(rt);
}

impl<B: Node, R: Wait + Clock> Counterpart for RuntimeBehind<'_, '_, '_, B, R> {
    fn wait_idle(&self) {
        match self {
            RuntimeBehind::Own(rt, _, threads, runners) => threads.wait_idle(*rt, *runners),
            RuntimeBehind::Other(_, _) => {}
        }
    }

    fn end_calls(&self) {
        match self {
            RuntimeBehind::Own(rt, open, _, _) | RuntimeBehind::Other(rt, open) => {
                end_calls(*rt, open)
            }
        }
    }
}
