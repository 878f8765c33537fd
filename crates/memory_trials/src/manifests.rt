//! Reading and copying manifests.
use crate::places::is_at;
use manifest::{Pod, PodFault, PodFaultAt};
use std::alloc::{AllocError, Global};
use trials::{CallResult, Trial, TrialResult, try_call};

/// Tries the call of this name, if it is one of this module's.
pub(crate) fn run_trial(rt: &HostRuntime, name: &str) -> Option<TrialResult> {
    let alloc = rt.alloc();
    match name {
        "manifest::read" => Some(try_call(rt, Reads::new(alloc))),
        "manifest::read_placed" => Some(try_call(rt, Some(Places { alloc }))),
        "Pod::try_clone" => Some(try_call(rt, Copies::new(alloc))),
        _ => None,
    }
}

/// A manifest with a field of each kind.
const POD: &str =
    r#"{"apiVersion":"v1","kind":"Pod","metadata":{"name":"web","namespace":"shop","uid":"u-1"},"spec":{
"restartPolicy":"OnFailure","terminationGracePeriodSeconds":7,
"securityContext":{"seccompProfile":{"type":"RuntimeDefault"}},
"initContainers":[{"name":"setup","image":"setup.json"}],
"containers":[{"name":"main","image":"main.json","securityContext":{"seccompProfile":{"type":"Localhost",
"localhostProfile":"main.profile.json"}}},
{"name":"side","image":"side.json","securityContext":{"privileged":true}}]}}"#;

/// `manifest::read`.
#[derive(Drop)]
struct Reads {
    alloc: Global,
    wanted: Pod,
}

impl Reads {
    fn new(alloc: Global) -> Option<Reads> {
        let wanted = manifest::read(alloc, POD.as_bytes()).ok()?;
        Some(Reads { alloc, wanted })
    }
}

impl Trial for Reads {
    type Answer = Result<Pod, PodFault>;

    fn call(&mut self) -> Result<Pod, PodFault> {
        manifest::read(self.alloc, POD.as_bytes())
    }

    fn check(&mut self, answer: &Result<Pod, PodFault>) -> CallResult {
        match answer {
            Ok(pod) => CallResult::right_if(pod.same(&self.wanted)),
            Err(PodFault::Memory) => CallResult::Memory,
            Err(_) => CallResult::Wrong,
        }
    }
}

/// `manifest::read_placed`, of a pod whose second container has no image.
#[derive(Drop)]
struct Places {
    alloc: Global,
}

const FAULTY: &str =
    r#"{"apiVersion":"v1","kind":"Pod","metadata":{"name":"web","namespace":"shop","uid":"u-1"},
"spec":{"containers":[{"name":"main","image":"main.json"},{"name":"side"}]}}"#;

impl Trial for Places {
    type Answer = Result<Pod, PodFaultAt>;

    fn call(&mut self) -> Result<Pod, PodFaultAt> {
        manifest::read_placed(self.alloc, FAULTY.as_bytes())
    }

    fn check(&mut self, answer: &Result<Pod, PodFaultAt>) -> CallResult {
        match answer {
            Ok(_) => CallResult::Wrong,
            Err(found) => match found.fault {
                PodFault::Memory => CallResult::Memory,
                PodFault::Missing => {
                    CallResult::right_if(is_at(
                        self.alloc,
                        &found.place,
                        "spec.containers[1].image",
                    ))
                },
                _ => CallResult::Wrong,
            },
        }
    }
}

/// `Pod::try_clone`.
#[derive(Drop)]
struct Copies {
    alloc: Global,
    pod: Pod,
}

impl Copies {
    fn new(alloc: Global) -> Option<Copies> {
        let pod = manifest::read(alloc, POD.as_bytes()).ok()?;
        Some(Copies { alloc, pod })
    }
}

impl Trial for Copies {
    type Answer = Result<Pod, AllocError>;

    fn call(&mut self) -> Result<Pod, AllocError> {
        self.pod.try_clone(self.alloc)
    }

    fn check(&mut self, answer: &Result<Pod, AllocError>) -> CallResult {
        match answer {
            Ok(copy) => CallResult::right_if(copy.same(&self.pod)),
            Err(AllocError) => CallResult::Memory,
        }
    }
}
