//! What serves a connection.
ghost use Rattle.cri_msgs.specs.declared.calls.Request.{Request};
ghost use Rattle.cri_msgs.specs.declared.replies.Reply.{Reply};
ghost use Rattle.runner.specs.Readings.{IsReading};
ghost use Rattle.creation.specs.declared.files.FileAnswers.{FileAnswers};

use cri_msgs::{MessageFault, Reply, Request, Version};
use runtime_core::{FileAnswers, Runtime};
use std::alloc::Global;

/// Answers requests. Another caller may be answered between two calls.
pub trait Host {
    // The replies that a request may get, given the results of its files, and the host's state after it.
    ghost may: { Self → Request → FileAnswers → Reply → Self → Type 0 };

    /// Serves a request, given the results of reading its files.
    fn serve(&mut self, request: Request, files: FileAnswers) -> Reply
        ensures { may self.old request files result self.new };

    /// Reads the request in the text of a frame of this version, as [`Request::read`] does. Its tree may take
    /// many times the memory of the text, so a host may make it wait until others are read.
    fn read(&self, alloc: Global, version: Version, text: &[u8]) -> Result<Request, MessageFault>
        ensures { IsReading version text.now result }
    {
        Request::read(alloc, version, text)
    }
}

/// What serves a connection: the folders of its requests' files, and the host that answers.
#[derive(Drop)]
pub struct Service<S, P, H> {
    /// The folder of scripts.
    pub scripts: S,
    /// The folder of profiles.
    pub profiles: P,
    pub host: H,
}

/// A runtime that one thread owns. The requests that it gets, in order, are a run of it.
impl Host for Runtime {
    ghost use Rattle.std.specs.Prelude.{◌≡◌};
    ghost use Rattle.registry.specs.Serves.{Serves};
    ghost use Rattle.runtime_core.specs.Stands.{stands_for};

    ghost may = { λ old request files reply new. (reply.id ≡ request.id)
        × Serves (stands_for old) request.call files reply.answer (stands_for new) };

    fn serve(&mut self, request: Request, files: FileAnswers) -> Reply {
        Runtime::serve(self, request, files)
    }
}
