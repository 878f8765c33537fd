//! Reading, writing and copying requests.
use cri_msgs::{MessageFault, Request, Version};
use std::alloc::{AllocError, Global};
use trials::{CallResult, Trial, TrialResult, try_call};

/// Tries the call of this name, if it is one of this module's.
pub(crate) fn run_trial(rt: &HostRuntime, name: &str) -> Option<TrialResult> {
    let alloc = rt.alloc();
    match name {
        "Request::read" => Some(try_call(rt, Reads::new(alloc))),
        "Request::write" => Some(try_call(rt, Writes::new(alloc))),
        "Request::try_clone" => Some(try_call(rt, Copies::new(alloc))),
        _ => None,
    }
}

/// A request with members of every kind, as it is written.
const CREATE: &str =
    r#"{"attempt":3,"call":"CreateContainer","id":9,"image":"main.json","name":"main","profile":{"path":"main.profile.json","type":"Localhost"},"uid":"u1","v":2}"#;

/// The request of this text.
pub(crate) fn request_of(alloc: Global, text: &str) -> Option<Request> {
    Request::read(alloc, Version::V2, text.as_bytes()).ok()
}

/// `Request::read`.
#[derive(Drop)]
struct Reads {
    alloc: Global,
    wanted: Request,
}

impl Reads {
    fn new(alloc: Global) -> Option<Reads> {
        let wanted = request_of(alloc, CREATE)?;
        Some(Reads { alloc, wanted })
    }
}

impl Trial for Reads {
    type Answer = Result<Request, MessageFault>;

    fn call(&mut self) -> Result<Request, MessageFault> {
        Request::read(self.alloc, Version::V2, CREATE.as_bytes())
    }

    fn check(&mut self, answer: &Result<Request, MessageFault>) -> CallResult {
        match answer {
            Ok(request) => CallResult::right_if(request.same(&self.wanted)),
            Err(MessageFault::Memory) => CallResult::Memory,
            Err(_) => CallResult::Wrong,
        }
    }
}

/// `Request::write`.
#[derive(Drop)]
struct Writes {
    alloc: Global,
    request: Request,
}

impl Writes {
    fn new(alloc: Global) -> Option<Writes> {
        let request = request_of(alloc, CREATE)?;
        Some(Writes { alloc, request })
    }
}

impl Trial for Writes {
    type Answer = Result<Vec<u8>, AllocError>;

    fn call(&mut self) -> Result<Vec<u8>, AllocError> {
        self.request.write(self.alloc, Version::V2)
    }

    fn check(&mut self, answer: &Result<Vec<u8>, AllocError>) -> CallResult {
        match answer {
            Ok(bytes) => CallResult::right_if(bytes.as_slice() == CREATE.as_bytes()),
            Err(AllocError) => CallResult::Memory,
        }
    }
}

/// `Request::try_clone`.
#[derive(Drop)]
struct Copies {
    alloc: Global,
    request: Request,
}

impl Copies {
    fn new(alloc: Global) -> Option<Copies> {
        let request = request_of(alloc, CREATE)?;
        Some(Copies { alloc, request })
    }
}

impl Trial for Copies {
    type Answer = Result<Request, AllocError>;

    fn call(&mut self) -> Result<Request, AllocError> {
        self.request.try_clone(self.alloc)
    }

    fn check(&mut self, answer: &Result<Request, AllocError>) -> CallResult {
        match answer {
            Ok(copy) => CallResult::right_if(copy.same(&self.request)),
            Err(AllocError) => CallResult::Memory,
        }
    }
}
