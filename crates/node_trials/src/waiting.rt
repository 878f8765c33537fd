//! Why containers wait, as an agent reports it.
use crate::nodes::begun;
use cri_msgs::Call;
use manifest::Uid;
use node_watch::{Form, PodWaits, Reasons, Trouble, WaitReason, wait_changes};
use std::alloc::{AllocError, Global};
use trials::{CallResult, Trial, TrialResult, try_call};
use worker_core::Node;

/// Tries the call of this name, if it is one of this module's.
pub(crate) fn run_trial(rt: &HostRuntime, name: &str) -> Option<TrialResult> {
    let alloc = rt.alloc();
    match name {
        "PodWaits::of" => Some(try_call(rt, Waits::new(alloc))),
        "wait_changes" => Some(try_call(rt, Tells::new(alloc))),
        _ => None,
    }
}

/// A list of the first pod's containers was lost at moment 5.
fn lost_list(alloc: Global) -> Option<Reasons> {
    let mut reasons = Reasons::new(alloc);
    let uid = Uid::new(alloc, "default.a").ok()??;
    reasons
        .note(5, &Call::ListContainers { uid }, Some(Trouble::Lost), None)
        .ok()?;
    Some(reasons)
}

/// `PodWaits::of`, of a node's first pod, whose container runs.
#[derive(Drop)]
struct Waits {
    alloc: Global,
    node: Node,
    reasons: Reasons,
}

impl Waits {
    fn new(alloc: Global) -> Option<Waits> {
        let node = begun(alloc)?;
        let reasons = lost_list(alloc)?;
        Some(Waits {
            alloc,
            node,
            reasons,
        })
    }
}

fn is_lost_list(waits: &PodWaits) -> bool {
    match waits.containers.as_slice() {
        [container] => match &container.reason {
            Some(WaitReason::Failed(failed)) => {
                container.name.as_str() == "main" && failed.since == 5 && failed.times == 1
            }
            _ => false,
        },
        _ => false,
    }
}

impl Trial for Waits {
    type Answer = Option<Result<PodWaits, AllocError>>;

    fn call(&mut self) -> Option<Result<PodWaits, AllocError>> {
        Some(PodWaits::of(self.alloc, self.node.pod(0)?, &self.reasons, 9))
    }

    fn check(&mut self, answer: &Option<Result<PodWaits, AllocError>>) -> CallResult {
        match answer {
            Some(Ok(waits)) => CallResult::right_if(is_lost_list(waits)),
            Some(Err(AllocError)) => CallResult::Memory,
            None => CallResult::Wrong,
        }
    }
}

/// `wait_changes`, of a pod that was not seen before.
#[derive(Drop)]
struct Tells {
    alloc: Global,
    waits: PodWaits,
}

impl Tells {
    fn new(alloc: Global) -> Option<Tells> {
        let node = begun(alloc)?;
        let reasons = lost_list(alloc)?;
        let waits = PodWaits::of(alloc, node.pod(0)?, &reasons, 9).ok()?;
        Some(Tells { alloc, waits })
    }
}

impl Trial for Tells {
    type Answer = Result<String, AllocError>;

    fn call(&mut self) -> Result<String, AllocError> {
        wait_changes(self.alloc, Form::Json, 12, None, &self.waits)
    }

    fn check(&mut self, answer: &Result<String, AllocError>) -> CallResult {
        let wanted =
            "{\"moment\":12,\"pod\":\"default.a\",\"container\":\"main\",\"waits\":\"ListContainers \
            lost, once since 5 s\"}\n";
        match answer {
            Ok(text) => CallResult::right_if(text.as_str() == wanted),
            Err(AllocError) => CallResult::Memory,
        }
    }
}
