//! What is known of a uid.
ghost use Rattle.std.specs.Prelude.{◌≡◌, OnOk, OnErr};
ghost use Rattle.registry.specs.Kept.{dead, stopped, with_used};

use crate::used::Used;
use cri_msgs::ContainerMetadata;
use std::alloc::AllocError;

/// An existing sandbox.
#[derive(Drop)]
pub(crate) struct Live {
    pub(crate) ready: bool,
    pub(crate) used: Used,
}

/// What is known of a uid that was named.
#[derive(Drop)]
pub(crate) enum Known {
    Live(Live),
    Removed,
}

impl Known {
    /// Stops the sandbox: it takes no further containers.
    pub(crate) fn stop(&mut self)
        ensures { self.new ≡ stopped self.old }
    {
        match self {
            Known::Live(live) => live.ready = false,
            Known::Removed => {}
        }
    }

    /// Ends the sandbox, with all that was made in it.
    pub(crate) fn end(&mut self)
        ensures { self.new ≡ dead self.old }
    {
        *self = Known::Removed;
    }

    /// Records an attempt that is made in the sandbox.
    pub(crate) fn add(&mut self, container: ContainerMetadata) -> Result<(), AllocError>
        ensures ok { OnOk result (self.new ≡ with_used container self.old) }
        ensures err { OnErr result (self.new ≡ self.old) }
    {
        match self {
            Known::Live(live) => live.used.add(container),
            Known::Removed => Ok(()),
        }
    }
}
