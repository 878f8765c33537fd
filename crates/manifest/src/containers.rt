ghost use Rattle.std.specs.Prelude.{◌≡◌, ◌↔◌, ◌<◌, IfOk, IsTrue, length};
ghost use Rattle.manifest.specs.Containers.{AreContainers, ContainerList};

use crate::labels::Label;
use crate::paths::DescendingPath;
use crate::profiles::{SeccompProfile, copied, is_same};
use std::alloc::{AllocError, Global};
use std::marker::Model;

/// How many containers a pod may have, init ones included.
pub const MAX_CONTAINERS: usize = 16;

/// A container of a pod.
#[derive(Debug, Drop)]
pub struct Container {
    pub name: Label,
    /// The file of its script, relative to the node's folder of scripts.
    pub image: DescendingPath,
    /// A privileged container runs without a profile.
    pub privileged: bool,
    /// Its own `seccompProfile`, which takes precedence over the pod's.
    pub profile: Option<SeccompProfile>,
}

impl Container {
    /// Whether both are the same container.
    pub fn same(&self, other: &Container) -> bool
        ensures { IsTrue result ↔ (self.now ≡ other.now) }
    {
        self.name.as_str() == other.name.as_str()
            && self.image.as_str() == other.image.as_str()
            && self.privileged == other.privileged
            && is_same(&self.profile, &other.profile)
    }

    /// A copy of the container.
    pub fn try_clone(&self, alloc: Global) -> Result<Container, AllocError>
        ensures { IfOk result (λ copy. copy ≡ self.now) }
    {
        let name = self.name.try_clone(alloc)?;
        let image = self.image.try_clone(alloc)?;
        let profile = copied(alloc, &self.profile)?;
        Ok(Container {
            name,
            image,
            privileged: self.privileged,
            profile,
        })
    }
}

/// The containers of a pod, init ones first: 1 to [`MAX_CONTAINERS`], no two with the same name, and at least
/// one that is not an init container.
#[derive(Debug, Drop)]
pub struct Containers {
    list: Vec<Container>,
    inits: usize,
}

impl Model for Containers {
    ghost use Rattle.manifest.specs.Containers.{AreContainers, ContainerList};

    ghost Value = { ContainerList };

    ghost view = { λ c. record { all = c.list.items; inits = c.inits } };

    ghost invariant = { λ c. AreContainers c.list.items c.inits };
}

impl Containers {
    /// The containers of a list, whose first `inits` are init containers.
    pub fn new(list: Vec<Container>, inits: usize) -> Containers
        requires { AreContainers list.items inits }
        ensures { result ≡ record { all = list.items; inits = inits } }
    {
        Containers { list, inits }
    }

    /// The containers, init ones first.
    pub fn as_slice(&self) -> &[Container]
        ensures value { result.now ≡ self.now.all }
        ensures fit { AreContainers self.now.all self.now.inits }
    {
        self.list.as_slice()
    }

    /// How many of them are init containers.
    pub fn inits(&self) -> usize
        ensures value { result ≡ self.now.inits }
        ensures fit { AreContainers self.now.all self.now.inits }
    {
        self.inits
    }

    /// Whether both are the same containers.
    pub fn same(&self, other: &Containers) -> bool
        ensures { IsTrue result ↔ (self.now ≡ other.now) }
    {
        self.inits == other.inits && same_list(self.list.as_slice(), other.list.as_slice())
    }

    /// A copy of the containers.
    pub fn try_clone(&self, alloc: Global) -> Result<Containers, AllocError>
        ensures { IfOk result (λ copy. copy ≡ self.now) }
    {
        let list = copies(alloc, self.list.as_slice())?;
        Ok(Containers {
            list,
            inits: self.inits,
        })
    }
}

fn copies(alloc: Global, containers: &[Container]) -> Result<Vec<Container>, AllocError>
    ensures { IfOk result (λ copies. copies.items ≡ containers.now) }
{
    let mut copies = Vec::new(alloc);
    for container in containers {
        let copy = container.try_clone(alloc)?;
        copies.push(copy)?;
    }
    Ok(copies)
}

#[tactic(auto, using(json_tree::proofs::Loops::same_more, json_tree::proofs::Loops::same_stops, json_tree::proofs::Loops::same_ends))]
fn same_list(containers: &[Container], others: &[Container]) -> bool
    ensures { IsTrue result ↔ (containers.now ≡ others.now) }
{
    if containers.len() != others.len() {
        return false;
    }
    for place in 0..containers.len() {
        if !containers[place].same(&others[place]) {
            return false;
        }
    }
    true
}
