ghost use Rattle.std.specs.Prelude.{◌≡◌, ◌↔◌, IfOk, IsTrue};

use crate::containers::Containers;
use crate::labels::Label;
use crate::pod_names::PodName;
use crate::profiles::{SeccompProfile, copied, is_same};
use crate::uids::Uid;
use lifecycle::RestartPolicy;
use std::alloc::{AllocError, Global};

/// A pod, as its manifest describes it.
#[derive(Debug, Drop)]
pub struct Pod {
    pub uid: Uid,
    pub namespace: Label,
    pub name: PodName,
    pub policy: RestartPolicy,
    /// The termination grace period of its containers, in seconds.
    pub grace: u64,
    /// The `seccompProfile` of the containers that have none.
    pub profile: Option<SeccompProfile>,
    pub containers: Containers,
}

impl Pod {
    /// Whether both are the same pod.
    pub fn same(&self, other: &Pod) -> bool
        ensures { IsTrue result ↔ (self.now ≡ other.now) }
    {
        self.uid.as_str() == other.uid.as_str()
            && self.namespace.as_str() == other.namespace.as_str()
            && self.name.as_str() == other.name.as_str()
            && self.policy == other.policy
            && self.grace == other.grace
            && is_same(&self.profile, &other.profile)
            && self.containers.same(&other.containers)
    }

    /// A copy of the pod.
    pub fn try_clone(&self, alloc: Global) -> Result<Pod, AllocError>
        ensures { IfOk result (λ copy. copy ≡ self.now) }
    {
        let uid = self.uid.try_clone(alloc)?;
        let namespace = self.namespace.try_clone(alloc)?;
        let name = self.name.try_clone(alloc)?;
        let profile = copied(alloc, &self.profile)?;
        let containers = self.containers.try_clone(alloc)?;
        Ok(Pod {
            uid,
            namespace,
            name,
            policy: self.policy,
            grace: self.grace,
            profile,
            containers,
        })
    }
}
