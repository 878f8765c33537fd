ghost use Rattle.std.specs.Prelude.{◌≡◌, ◌↔◌, IfOk, IsTrue};
ghost use Rattle.std.proofs.Common.{rules};
ghost use Rattle.std.specs.Cmp.Rules.{comparing};
ghost use Rattle.std.specs.Ordering.{as_partial_cmp, eq_by_cmp};

use manifest::{Label, Uid};
use std::alloc::{AllocError, Global};
use std::cmp::Ordering;

/// One attempt at running a container of a sandbox, as `ContainerMetadata` of CRI v1 names it.
#[derive(Debug, Drop)]
pub struct ContainerMetadata {
    pub name: Label,
    /// How many attempts there were before this one.
    pub attempt: u32,
}

impl ContainerMetadata {
    /// Whether both are the same attempt at the same container.
    pub fn same(&self, other: &ContainerMetadata) -> bool
        ensures { IsTrue result ↔ (self.now ≡ other.now) }
    {
        self.attempt == other.attempt && self.name.as_str() == other.name.as_str()
    }

    /// A copy of the metadata.
    pub fn try_clone(&self, alloc: Global) -> Result<ContainerMetadata, AllocError>
        ensures { IfOk result (λ copy. copy ≡ self.now) }
    {
        let name = self.name.try_clone(alloc)?;
        Ok(ContainerMetadata {
            name,
            attempt: self.attempt,
        })
    }
}

/// By name, then by attempt.
impl Ord for ContainerMetadata {
    ghost use Rattle.cri_msgs.specs.Order.{container_cmp};

    ghost cmp = { container_cmp };

    ghost total = { Prim.search (comparing, rules) };

    ghost matches_partial_cmp = { Prim.search (comparing, rules) };

    ghost matches_eq = { Prim.search (comparing, rules) };

    fn cmp(&self, other: &ContainerMetadata) -> Ordering {
        self.name
            .as_str()
            .cmp(other.name.as_str())
            .then(self.attempt.cmp(&other.attempt))
    }
}

impl PartialOrd for ContainerMetadata {
    ghost use Rattle.cri_msgs.specs.Order.{container_cmp};

    ghost partial_cmp = { as_partial_cmp container_cmp };

    ghost laws = { Prim.search (comparing, rules) };

    fn partial_cmp(&self, other: &ContainerMetadata) -> Option<Ordering> {
        Some(self.cmp(other))
    }
}

impl PartialEq for ContainerMetadata {
    ghost use Rattle.cri_msgs.specs.Order.{container_cmp};

    ghost eq = { eq_by_cmp container_cmp };

    ghost laws = { Prim.search (comparing, rules) };

    fn eq(&self, other: &ContainerMetadata) -> bool {
        self.cmp(other) == Ordering::Equal
    }
}

impl Eq for ContainerMetadata {
    ghost laws = { Prim.search (comparing, rules) };
}

/// The key of a container on a node: the uid of its pod's sandbox, and the attempt in it.
#[derive(Debug, Drop)]
pub struct Key {
    pub uid: Uid,
    pub container: ContainerMetadata,
}

impl Key {
    /// Whether both name the same container.
    pub fn same(&self, other: &Key) -> bool
        ensures { IsTrue result ↔ (self.now ≡ other.now) }
    {
        self.uid.as_str() == other.uid.as_str() && self.container.same(&other.container)
    }

    /// A copy of the key.
    pub fn try_clone(&self, alloc: Global) -> Result<Key, AllocError>
        ensures { IfOk result (λ copy. copy ≡ self.now) }
    {
        let uid = self.uid.try_clone(alloc)?;
        let container = self.container.try_clone(alloc)?;
        Ok(Key { uid, container })
    }
}
