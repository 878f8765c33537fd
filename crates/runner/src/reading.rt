//! Large texts: the request to read one, and the result.
ghost use Rattle.std.specs.Prelude.{◌≡◌, ◌≢◌, IfErr, IfOk, IfSome, IsTrue, Ok};
ghost use Rattle.std.proofs.Props.{props};
ghost use Rattle.cri_msgs.specs.Reading.{request_reading};
ghost use Rattle.cri_msgs.specs.declared.faults.MessageFault.TheVariants.{Memory};
ghost use Rattle.runner.specs.Readings.{IsOther, IsReading};

use cri_msgs::{MessageFault, Request, Version};
use std::alloc::Global;

/// A text to read, and the version of its frame.
#[derive(Drop)]
pub(crate) struct Job {
    pub(crate) version: Version,
    pub(crate) text: Vec<u8>,
}

/// The result of reading a text, with the text.
#[derive(Drop)]
pub(crate) struct Outcome {
    version: Version,
    text: Vec<u8>,
    given: Result<Request, MessageFault>,
    ghost found: { IfOk given (λ request. request_reading version text.items ≡ Ok request) } by { Prim.hlevel props },
    ghost other: { IfErr given (λ fault. fault ≢ Memory → IsOther version text.items fault) } by { Prim.hlevel props },
}

impl Outcome {
    pub(crate) fn of(alloc: Global, job: Job) -> Outcome {
        let Job { version, text } = job;
        let given = Request::read(alloc, version, text.as_slice());
        Outcome {
            version,
            text,
            given,
        }
    }

    /// The result, if it belongs to this text in a frame of this version.
    pub(crate) fn given_for(
        self,
        version: Version,
        text: &[u8],
    ) -> Option<Result<Request, MessageFault>>
        ensures { IfSome result (IsReading version text.now) }
    {
        if !self.is_of(version, text) {
            return None;
        }
        let Outcome { given, .. } = self;
        Some(given)
    }

    fn is_of(&self, version: Version, text: &[u8]) -> bool
        ensures version { IsTrue result → self.now.version ≡ version }
        ensures text { IsTrue result → self.now.text.items ≡ text.now }
    {
        self.version == version && self.text.as_slice() == text
    }
}
