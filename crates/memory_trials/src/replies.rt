//! Reading, writing and copying replies.
use cri_msgs::{MessageFault, Reply, Version};
use std::alloc::{AllocError, Global};
use trials::{CallResult, Trial, TrialResult, try_call};

/// Tries the call of this name, if it is one of this module's.
pub(crate) fn run_trial(rt: &HostRuntime, name: &str) -> Option<TrialResult> {
    let alloc = rt.alloc();
    match name {
        "Reply::read" => Some(try_call(rt, Reads::new(alloc))),
        "Reply::write" => Some(try_call(rt, Writes::new(alloc))),
        "Reply::try_clone" => Some(try_call(rt, Copies::new(alloc))),
        _ => None,
    }
}

/// A reply with the statuses of two containers, as it is written.
const STATUSES: &str =
    r#"{"id":9,"ok":{"statuses":[{"attempt":0,"denied":1,"exit":3,"name":"main","performed":2,"state":"EXITED"},{"attempt":1,"denied":0,"exit":null,"name":"main","performed":5,"state":"RUNNING"}]},"v":2}"#;

fn reply(alloc: Global) -> Option<Reply> {
    Reply::read(alloc, Version::V2, STATUSES.as_bytes()).ok()
}

/// `Reply::read`.
#[derive(Drop)]
struct Reads {
    alloc: Global,
    wanted: Reply,
}

impl Reads {
    fn new(alloc: Global) -> Option<Reads> {
        let wanted = reply(alloc)?;
        Some(Reads { alloc, wanted })
    }
}

impl Trial for Reads {
    type Answer = Result<Reply, MessageFault>;

    fn call(&mut self) -> Result<Reply, MessageFault> {
        Reply::read(self.alloc, Version::V2, STATUSES.as_bytes())
    }

    fn check(&mut self, answer: &Result<Reply, MessageFault>) -> CallResult {
        match answer {
            Ok(reply) => CallResult::right_if(reply.same(&self.wanted)),
            Err(MessageFault::Memory) => CallResult::Memory,
            Err(_) => CallResult::Wrong,
        }
    }
}

/// `Reply::write`.
#[derive(Drop)]
struct Writes {
    alloc: Global,
    reply: Reply,
}

impl Writes {
    fn new(alloc: Global) -> Option<Writes> {
        let reply = reply(alloc)?;
        Some(Writes { alloc, reply })
    }
}

impl Trial for Writes {
    type Answer = Result<Vec<u8>, AllocError>;

    fn call(&mut self) -> Result<Vec<u8>, AllocError> {
        self.reply.write(self.alloc, Version::V2)
    }

    fn check(&mut self, answer: &Result<Vec<u8>, AllocError>) -> CallResult {
        match answer {
            Ok(bytes) => CallResult::right_if(bytes.as_slice() == STATUSES.as_bytes()),
            Err(AllocError) => CallResult::Memory,
        }
    }
}

/// `Reply::try_clone`.
#[derive(Drop)]
struct Copies {
    alloc: Global,
    reply: Reply,
}

impl Copies {
    fn new(alloc: Global) -> Option<Copies> {
        let reply = reply(alloc)?;
        Some(Copies { alloc, reply })
    }
}

impl Trial for Copies {
    type Answer = Result<Reply, AllocError>;

    fn call(&mut self) -> Result<Reply, AllocError> {
        self.reply.try_clone(self.alloc)
    }

    fn check(&mut self, answer: &Result<Reply, AllocError>) -> CallResult {
        match answer {
            Ok(copy) => CallResult::right_if(copy.same(&self.reply)),
            Err(AllocError) => CallResult::Memory,
        }
    }
}
