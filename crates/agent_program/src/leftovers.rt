//! Removing the pods that a former start of the agent left in the runtime.

use agent_parts::StateFile;
use std::sync::Wait;
use std::thread;
use std::time::{Clock, Duration, Instant};
use worker_crew::Peer;

// How many seconds pass between attempts to remove pods, if the runtime was not reached.
const REST: u64 = 1;

/// Removes the pods of a former start from the runtime, and retries each second while the runtime is not
/// reached, up to this moment. Returns whether the runtime was reached.
pub(crate) fn sweep<P: Peer, R: Wait + Clock>(
    rt: &R,
    state: &mut StateFile<'_>,
    peer: &mut P,
    until: Option<u64>,
) -> bool {
    let start = Instant::now(rt).ok();
    for _ in rt.forever() {
        if state.is_swept() || state.sweep_once(peer).unwrap_or(false) {
            return true;
        }
        let passed = match start.map(|start| start.elapsed(rt)) {
            Some(Ok(passed)) => passed,
            Some(Err(_)) | None => Duration::ZERO,
        };
        if until.is_some_and(|until| passed >= Duration::from_secs(until)) {
            return false;
        }
        thread::sleep(rt, Duration::from_secs(REST));
    }
    unreachable!()
}
