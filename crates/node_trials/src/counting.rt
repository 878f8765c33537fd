//! What an agent keeps beside its node: the counts of calls, and the causes of refusals.
use crate::watching::uid;
use cri_msgs::{Answer, Call, ContainerMetadata, Key, State, Status};
use manifest::{Label, Uid};
use node_watch::{CallCounts, Counts};
use refusal_causes::{Cause, CauseText, Causes};
use std::alloc::{AllocError, Global};
use trials::{CallResult, Trial};

fn label(alloc: Global, text: &str) -> Option<Label> {
    Label::new(alloc, text).ok()?
}

/// A status with this many denied calls.
fn status(denied: u64) -> Answer {
    Answer::Status(Status {
        state: State::Running,
        performed: 5,
        denied,
    })
}

/// `Counts::note`, of a status after another one.
#[derive(Drop)]
pub(crate) struct Counting {
    uid: Uid,
    name: Label,
    call: Call,
    answer: Answer,
    counts: Counts,
}

impl Counting {
    pub(crate) fn new(alloc: Global) -> Option<Counting> {
        let call = Call::ContainerStatus {
            key: Key {
                uid: uid(alloc, "a")?,
                container: ContainerMetadata {
                    name: label(alloc, "main")?,
                    attempt: 0,
                },
            },
        };
        let mut counts = Counts::new(alloc);
        counts.note(&call, &status(8)).ok()?;
        Some(Counting {
            uid: uid(alloc, "a")?,
            name: label(alloc, "main")?,
            call,
            answer: status(2),
            counts,
        })
    }

    fn has(&self, denied: u64) -> bool {
        let performed = 5;
        self.counts.counts_of(&self.uid, &self.name) == Some(CallCounts { performed, denied })
    }
}

impl Trial for Counting {
    type Answer = Result<(), AllocError>;

    fn call(&mut self) -> Result<(), AllocError> {
        self.counts.note(&self.call, &self.answer)
    }

    fn check(&mut self, answer: &Result<(), AllocError>) -> CallResult {
        match answer {
            Ok(()) => CallResult::right_if(self.has(2)),
            Err(AllocError) => CallResult::Memory,
        }
    }

    fn is_unchanged(&mut self) -> bool {
        self.has(8)
    }
}

/// `Causes::note`. Each call makes the cause anew.
#[derive(Drop)]
pub(crate) struct Giving {
    alloc: Global,
    uid: Uid,
    name: Label,
    causes: Causes,
}

impl Giving {
    pub(crate) fn new(alloc: Global) -> Option<Giving> {
        Some(Giving {
            alloc,
            uid: uid(alloc, "a")?,
            name: label(alloc, "main")?,
            causes: Causes::new(alloc),
        })
    }

    fn cause(&self) -> Result<Cause, AllocError> {
        Ok(Cause {
            number: 7,
            uid: self.uid.try_clone(self.alloc)?,
            name: self.name.try_clone(self.alloc)?,
            text: CauseText::new(String::from_str(self.alloc, "script a: Missing")?),
        })
    }

    fn has_text(&mut self) -> bool {
        match self.causes.take(7, &self.uid, &self.name) {
            Some(text) => text.as_str() == "script a: Missing",
            None => false,
        }
    }
}

impl Trial for Giving {
    type Answer = Result<(), AllocError>;

    fn call(&mut self) -> Result<(), AllocError> {
        let cause = self.cause()?;
        self.causes.note(cause)
    }

    fn check(&mut self, answer: &Result<(), AllocError>) -> CallResult {
        match answer {
            Ok(()) => CallResult::right_if(self.has_text()),
            Err(AllocError) => CallResult::Memory,
        }
    }

    fn is_unchanged(&mut self) -> bool {
        !self.has_text()
    }
}
