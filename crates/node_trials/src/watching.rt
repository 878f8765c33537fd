//! What an agent remembers and shows of its calls and pods.
use crate::counting::{Counting, Giving};
use crate::nodes::begun;
use cri_msgs::{Call, Refusal};
use lifecycle::{ContainerState, Phase};
use manifest::{Label, Uid};
use node_watch::{Counts, Form, PodSeen, Reasons, Trouble, gone_line, pod_changes};
use std::alloc::{AllocError, Global};
use trials::{CallResult, Trial, TrialResult, try_call};
use worker_core::Node;

/// Tries the call of this name, if it is one of this module's.
pub(crate) fn run_trial(rt: &HostRuntime, name: &str) -> Option<TrialResult> {
    let alloc = rt.alloc();
    match name {
        "Reasons::note" => Some(try_call(rt, Notes::new(alloc, Some(TROUBLE)))),
        "Reasons::note in no trouble" => Some(try_call(rt, Notes::new(alloc, None))),
        "Counts::note" => Some(try_call(rt, Counting::new(alloc))),
        "Causes::note" => Some(try_call(rt, Giving::new(alloc))),
        "PodSeen::of" => Some(try_call(rt, Sees::new(alloc))),
        "pod_changes" => Some(try_call(rt, Changes::new(alloc))),
        "gone_line" => Some(try_call(rt, Goes::new(alloc))),
        _ => None,
    }
}

const TROUBLE: Trouble = Trouble::Refused(Refusal::FailedPrecondition);

pub(crate) fn uid(alloc: Global, text: &str) -> Option<Uid> {
    Uid::new(alloc, text).ok()?
}

fn list_of(alloc: Global, text: &str) -> Option<Call> {
    let uid = uid(alloc, text)?;
    Some(Call::ListContainers { uid })
}

/// The reasons after a list of another pod that was lost at moment 3, and one of this pod that was lost at
/// moment 5.
fn reasons(alloc: Global) -> Option<Reasons> {
    let mut reasons = Reasons::new(alloc);
    for (moment, name) in [(3, "b"), (5, "a")] {
        reasons
            .note(moment, &list_of(alloc, name)?, Some(Trouble::Lost), None)
            .ok()?;
    }
    Some(reasons)
}

/// `Reasons::note`, of a call that failed in another way before.
#[derive(Drop)]
struct Notes {
    alloc: Global,
    reasons: Reasons,
    container: Label,
    call: Call,
    trouble: Option<Trouble>,
}

impl Notes {
    fn new(alloc: Global, trouble: Option<Trouble>) -> Option<Notes> {
        Some(Notes {
            alloc,
            reasons: reasons(alloc)?,
            container: Label::new(alloc, "main").ok()??,
            call: list_of(alloc, "a")?,
            trouble,
        })
    }

    /// Since when, and whether by a loss, the list of this pod fails.
    fn since(&self, name: &str) -> Option<(u64, bool)> {
        let uid = uid(self.alloc, name)?;
        let reason = self.reasons.reason_for(&uid, &self.container)?;
        Some((reason.since, matches!(reason.trouble, Trouble::Lost)))
    }
}

impl Trial for Notes {
    type Answer = Result<(), AllocError>;

    fn call(&mut self) -> Result<(), AllocError> {
        self.reasons.note(9, &self.call, self.trouble, None)
    }

    fn check(&mut self, answer: &Result<(), AllocError>) -> CallResult {
        let wanted = self.trouble.map(|_| (9, false));
        match answer {
            Ok(()) => CallResult::right_if(
                self.since("a") == wanted && self.since("b") == Some((3, true)),
            ),
            Err(AllocError) => CallResult::Memory,
        }
    }

    fn is_unchanged(&mut self) -> bool {
        self.since("a") == Some((5, true)) && self.since("b") == Some((3, true))
    }
}

/// What is seen of the first pod of a node whose container runs.
fn seen(alloc: Global) -> Option<PodSeen> {
    PodSeen::of(alloc, begun(alloc)?.pod(0)?, &Counts::new(alloc)).ok()
}

/// `PodSeen::of`, of a node's first pod.
#[derive(Drop)]
struct Sees {
    alloc: Global,
    node: Node,
    counts: Counts,
}

impl Sees {
    fn new(alloc: Global) -> Option<Sees> {
        let node = begun(alloc)?;
        let counts = Counts::new(alloc);
        Some(Sees {
            alloc,
            node,
            counts,
        })
    }
}

fn is_running(seen: &PodSeen) -> bool {
    match seen.containers.as_slice() {
        [container] => {
            container.name.as_str() == "main"
                && matches!(container.state, ContainerState::Running)
                && container.restarts == 0
                && seen.uid.as_str() == "default.a"
                && seen.phase == Phase::Running
        }
        _ => false,
    }
}

impl Trial for Sees {
    type Answer = Option<Result<PodSeen, AllocError>>;

    fn call(&mut self) -> Option<Result<PodSeen, AllocError>> {
        Some(PodSeen::of(self.alloc, self.node.pod(0)?, &self.counts))
    }

    fn check(&mut self, answer: &Option<Result<PodSeen, AllocError>>) -> CallResult {
        match answer {
            Some(Ok(seen)) => CallResult::right_if(is_running(seen)),
            Some(Err(AllocError)) => CallResult::Memory,
            None => CallResult::Wrong,
        }
    }
}

/// `pod_changes`, of a pod that was not seen before.
#[derive(Drop)]
struct Changes {
    alloc: Global,
    seen: PodSeen,
}

impl Changes {
    fn new(alloc: Global) -> Option<Changes> {
        let seen = seen(alloc)?;
        Some(Changes { alloc, seen })
    }
}

fn compare_text(answer: &Result<String, AllocError>, wanted: &str) -> CallResult {
    match answer {
        Ok(text) => CallResult::right_if(text.as_str() == wanted),
        Err(AllocError) => CallResult::Memory,
    }
}

impl Trial for Changes {
    type Answer = Result<String, AllocError>;

    fn call(&mut self) -> Result<String, AllocError> {
        pod_changes(self.alloc, Form::Text, 12, None, &self.seen)
    }

    fn check(&mut self, answer: &Result<String, AllocError>) -> CallResult {
        compare_text(
            answer,
            "12 default.a Running\n12 default.a main Running - 0\n",
        )
    }
}

/// `gone_line`.
#[derive(Drop)]
struct Goes {
    alloc: Global,
    uid: Uid,
}

impl Goes {
    fn new(alloc: Global) -> Option<Goes> {
        let uid = uid(alloc, "default.a")?;
        Some(Goes { alloc, uid })
    }
}

impl Trial for Goes {
    type Answer = Result<String, AllocError>;

    fn call(&mut self) -> Result<String, AllocError> {
        gone_line(self.alloc, Form::Text, 12, &self.uid)
    }

    fn check(&mut self, answer: &Result<String, AllocError>) -> CallResult {
        compare_text(answer, "12 default.a Deleted\n")
    }
}
