//! Reports on what goes wrong with an agent's calls: each thing once, or once a minute.

use crate::lost::LostCall;
use crate::reach::{ReachReport, is_unreached, reach_of, report_of};
use crate::repeats::Repeats;
use cri_msgs::{Answer, Reply, Request};
use fault_notes::{ShownPath, refusal_name};
use manifest::Uid;
use node_watch::{Loss, call_name, loss_of, uid_of};
use std::alloc::{AllocError, Global};
use std::mem;

/// How many different refusals are remembered. One more makes the agent forget the oldest.
const MAX_REFUSALS: usize = 1_024;

/// A pod that the runtime has lost.
#[derive(Drop)]
pub struct LostPod {
    pub uid: Uid,
    pub loss: Loss,
}

// A line that is reported again and again.
#[derive(Drop)]
struct Repeated {
    line: String,
    repeats: Repeats,
}

/// What went wrong with calls, as far as later reports depend on it.
#[derive(Drop)]
pub struct CallTroubles {
    alloc: Global,
    unreached: bool,
    refusals: Vec<Repeated>,
    lost: Vec<LostPod>,
}

impl CallTroubles {
    /// No call was made yet.
    pub fn new(alloc: Global) -> CallTroubles {
        CallTroubles {
            alloc,
            unreached: false,
            refusals: Vec::new(alloc),
            lost: Vec::new(alloc),
        }
    }

    /// Records the end of a call. Returns the report on whether the runtime can be reached.
    pub fn note(&mut self, request: &Request, came: &Result<Reply, LostCall>) -> ReachReport {
        let shown = reach_of(came);
        let report = report_of(self.unreached, shown);
        self.unreached = is_unreached(self.unreached, shown);
        if let Ok(reply) = came {
            if let Some(loss) = loss_of(&request.call, &reply.answer) {
                // Out of memory, the loss is noted when the next call shows it.
                let _ = add_loss(self.alloc, &mut self.lost, uid_of(&request.call), loss);
            }
        }
        report
    }

    /// The line to report at this moment, if one is due. A line that could not be kept, for lack of memory,
    /// counts as new the next time.
    pub fn repeat(&mut self, line: String, moment: u64) -> Option<Result<String, AllocError>> {
        let alloc = self.alloc;
        let place = self
            .refusals
            .iter()
            .position(|one| one.line.as_str() == line.as_str());
        if let Some(one) = place.and_then(|place| self.refusals.get_mut(place)) {
            return match one.repeats.note(moment)? {
                1 => Some(Ok(line)),
                times => Some(format!(in alloc; "{} ({times} times)", line.as_str())),
            };
        }
        if self.refusals.len() >= MAX_REFUSALS {
            drop(self.refusals.remove(0));
        }
        let mut repeats = Repeats::new();
        let _ = repeats.note(moment);
        let told = String::from_str(alloc, line.as_str());
        drop(self.refusals.push(Repeated { line, repeats }));
        Some(told)
    }

    /// Takes out the pods that the runtime has lost since the last call.
    pub fn take_lost(&mut self) -> Vec<LostPod> {
        mem::replace(&mut self.lost, Vec::new(self.alloc))
    }
}

fn add_loss(
    alloc: Global,
    lost: &mut Vec<LostPod>,
    uid: &Uid,
    loss: Loss,
) -> Result<(), AllocError> {
    if !lost.iter().any(|pod| pod.uid == *uid) {
        let uid = uid.try_clone(alloc)?;
        lost.push(LostPod { uid, loss })?;
    }
    Ok(())
}

/// The line that reports whether the runtime at a socket can be reached, if the report has a line.
pub fn reach_line(
    alloc: Global,
    socket: &str,
    report: ReachReport,
) -> Option<Result<String, AllocError>> {
    let socket = ShownPath(socket);
    match report {
        ReachReport::Nothing => None,
        ReachReport::Lost(why) => Some(format!(in alloc; "nodeagent: {socket}: {why}")),
        ReachReport::Again => Some(format!(in alloc; "nodeagent: {socket}: connected again")),
    }
}

/// The line that reports a refused call, if it was refused.
pub fn refused_line(
    alloc: Global,
    request: &Request,
    came: &Result<Reply, LostCall>,
) -> Option<Result<String, AllocError>> {
    let Ok(
        Reply {
            answer: Answer::Refused(refusal),
            ..
        },
    ) = came
    else {
        return None;
    };
    let (uid, call) = (uid_of(&request.call).as_str(), call_name(&request.call));
    let name = refusal_name(*refusal);
    Some(format!(in alloc; "nodeagent: {uid}: {call} refused {name}"))
}

/// The line that reports a lost pod, and whether it goes on under another uid.
pub fn loss_line(alloc: Global, lost: &LostPod, moves: bool) -> Result<String, AllocError> {
    let (uid, loss) = (lost.uid.as_str(), lost.loss);
    if moves {
        format!(in alloc; "nodeagent: {uid}: lost: {loss}; it goes on under its next uid")
    } else {
        format!(in alloc; "nodeagent: {uid}: lost: {loss}")
    }
}
