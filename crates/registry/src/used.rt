//! The attempts that were made in a sandbox.
ghost use Rattle.std.specs.Prelude.{◌≡◌, ◌≤◌, [], OnOk, OnErr, IsTrue, ◌↔◌, length};
ghost use Rattle.std.specs.BTreeSet.{insert_key};
ghost use Rattle.std.specs.List.{list_any};
ghost use Rattle.cri_msgs.specs.Order.{container_cmp};
ghost use Rattle.registry.specs.declared.limits.TheConstants.{MAX_KEYS};
ghost use Rattle.registry.specs.Runtime.{is_same};

use crate::limits::MAX_KEYS;
use cri_msgs::ContainerMetadata;
use std::alloc::{AllocError, Global};
use std::collections::BTreeSet;
use std::marker::Model;

/// The attempts at containers that were ever made in a sandbox. Contracts see the list, in order.
#[derive(Drop)]
pub(crate) struct Used {
    set: BTreeSet<ContainerMetadata>,
}

impl Model for Used {
    ghost use Rattle.std.specs.Prelude.{List};
    ghost use Rattle.cri_msgs.specs.declared.keys.ContainerMetadata.{ContainerMetadata};

    ghost Value = { List ContainerMetadata };

    ghost view = { λ u. u.set.keys };
}

impl Used {
    pub(crate) fn new(alloc: Global) -> Used
        ensures { result ≡ [] }
    {
        Used {
            set: BTreeSet::new(alloc),
        }
    }

    /// Whether the attempt was made.
    pub(crate) fn has(&self, container: &ContainerMetadata) -> bool
        ensures { result ≡ list_any (is_same container.now) self.now }
    {
        self.set.contains(container)
    }

    /// Whether there is no room for a further attempt.
    pub(crate) fn is_full(&self) -> bool
        ensures { IsTrue result ↔ (MAX_KEYS ≤ length self.now) }
    {
        self.set.len() >= MAX_KEYS
    }

    pub(crate) fn add(&mut self, container: ContainerMetadata) -> Result<(), AllocError>
        ensures ok { OnOk result (self.new ≡ insert_key container_cmp self.old container) }
        ensures err { OnErr result (self.new ≡ self.old) }
    {
        match self.set.insert(container) {
            Ok(_) => Ok(()),
            Err(refused) => {
                drop(refused);
                Err(AllocError)
            }
        }
    }
}
