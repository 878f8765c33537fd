ghost use Rattle.std.specs.Prelude.{◌≡◌, ◌↔◌, ◌≤◌, IfOk, IsTrue, length};
ghost use Rattle.cri_msgs.specs.declared.lists.TheConstants.{MAX_LISTED};

use crate::keys::ContainerMetadata;
use crate::states::{ContainerState, Status};
use std::alloc::{AllocError, Global};
use std::marker::Model;

/// How many containers a reply may list.
pub const MAX_LISTED: usize = 1_024;

/// A container of a sandbox and its state.
#[derive(Debug, Drop)]
pub struct ListedContainer {
    pub container: ContainerMetadata,
    pub state: ContainerState,
}

/// A container of a sandbox and its status.
#[derive(Debug, Drop)]
pub struct ListedStatus {
    pub container: ContainerMetadata,
    pub status: Status,
}

impl ListedContainer {
    /// Whether both are the same entry.
    pub fn same(&self, other: &ListedContainer) -> bool
        ensures { IsTrue result ↔ (self.now ≡ other.now) }
    {
        self.state == other.state && self.container.same(&other.container)
    }

    /// A copy of the entry.
    pub fn try_clone(&self, alloc: Global) -> Result<ListedContainer, AllocError>
        ensures { IfOk result (λ copy. copy ≡ self.now) }
    {
        let container = self.container.try_clone(alloc)?;
        Ok(ListedContainer {
            container,
            state: self.state,
        })
    }
}

impl ListedStatus {
    /// Whether both are the same entry.
    pub fn same(&self, other: &ListedStatus) -> bool
        ensures { IsTrue result ↔ (self.now ≡ other.now) }
    {
        self.status.same(&other.status) && self.container.same(&other.container)
    }

    /// A copy of the entry.
    pub fn try_clone(&self, alloc: Global) -> Result<ListedStatus, AllocError>
        ensures { IfOk result (λ copy. copy ≡ self.now) }
    {
        let container = self.container.try_clone(alloc)?;
        Ok(ListedStatus {
            container,
            status: self.status,
        })
    }
}

/// At most [`MAX_LISTED`] containers. Contracts see the list.
#[derive(Debug, Drop)]
pub struct Listing {
    list: Vec<ListedContainer>,
}

impl Model for Listing {
    ghost use Rattle.std.specs.Prelude.{◌≤◌, List, length};
    ghost use Rattle.cri_msgs.specs.declared.lists.ListedContainer.{ListedContainer};
    ghost use Rattle.cri_msgs.specs.declared.lists.TheConstants.{MAX_LISTED};

    ghost Value = { List ListedContainer };

    ghost view = { λ l. l.list.items };

    ghost invariant = { λ l. length l.list.items ≤ MAX_LISTED };
}

impl Listing {
    /// Whether both list the same.
    pub fn same(&self, other: &Listing) -> bool
        ensures { IsTrue result ↔ (self.now ≡ other.now) }
    {
        same_listed(self.list.as_slice(), other.list.as_slice())
    }

    /// The containers of a list.
    pub fn new(list: Vec<ListedContainer>) -> Listing
        requires { length list.items ≤ MAX_LISTED }
        ensures { result ≡ list.items }
    {
        Listing { list }
    }

    /// The containers.
    pub fn as_slice(&self) -> &[ListedContainer]
        ensures value { result.now ≡ self.now }
        ensures few { length self.now ≤ MAX_LISTED }
    {
        self.list.as_slice()
    }

    /// A copy of the list.
    pub fn try_clone(&self, alloc: Global) -> Result<Listing, AllocError>
        ensures { IfOk result (λ copy. copy ≡ self.now) }
    {
        let list = listed_copies(alloc, self.list.as_slice())?;
        Ok(Listing { list })
    }
}

/// The statuses of at most [`MAX_LISTED`] containers. Contracts see the list.
#[derive(Debug, Drop)]
pub struct Statuses {
    list: Vec<ListedStatus>,
}

impl Model for Statuses {
    ghost use Rattle.std.specs.Prelude.{◌≤◌, List, length};
    ghost use Rattle.cri_msgs.specs.declared.lists.ListedStatus.{ListedStatus};
    ghost use Rattle.cri_msgs.specs.declared.lists.TheConstants.{MAX_LISTED};

    ghost Value = { List ListedStatus };

    ghost view = { λ l. l.list.items };

    ghost invariant = { λ l. length l.list.items ≤ MAX_LISTED };
}

impl Statuses {
    /// Whether both list the same.
    pub fn same(&self, other: &Statuses) -> bool
        ensures { IsTrue result ↔ (self.now ≡ other.now) }
    {
        same_statuses(self.list.as_slice(), other.list.as_slice())
    }

    /// The statuses of a list.
    pub fn new(list: Vec<ListedStatus>) -> Statuses
        requires { length list.items ≤ MAX_LISTED }
        ensures { result ≡ list.items }
    {
        Statuses { list }
    }

    /// The statuses.
    pub fn as_slice(&self) -> &[ListedStatus]
        ensures value { result.now ≡ self.now }
        ensures few { length self.now ≤ MAX_LISTED }
    {
        self.list.as_slice()
    }

    /// A copy of the list.
    pub fn try_clone(&self, alloc: Global) -> Result<Statuses, AllocError>
        ensures { IfOk result (λ copy. copy ≡ self.now) }
    {
        let list = status_copies(alloc, self.list.as_slice())?;
        Ok(Statuses { list })
    }
}

fn listed_copies(
    alloc: Global,
    list: &[ListedContainer],
) -> Result<Vec<ListedContainer>, AllocError>
    ensures { IfOk result (λ copies. copies.items ≡ list.now) }
{
    let mut copies = Vec::new(alloc);
    for listed in list {
        let copy = listed.try_clone(alloc)?;
        copies.push(copy)?;
    }
    Ok(copies)
}

fn status_copies(alloc: Global, list: &[ListedStatus]) -> Result<Vec<ListedStatus>, AllocError>
    ensures { IfOk result (λ copies. copies.items ≡ list.now) }
{
    let mut copies = Vec::new(alloc);
    for listed in list {
        let copy = listed.try_clone(alloc)?;
        copies.push(copy)?;
    }
    Ok(copies)
}

#[tactic(auto, using(json_tree::proofs::Loops::same_more, json_tree::proofs::Loops::same_stops, json_tree::proofs::Loops::same_ends))]
fn same_listed(list: &[ListedContainer], others: &[ListedContainer]) -> bool
    ensures { IsTrue result ↔ (list.now ≡ others.now) }
{
    if list.len() != others.len() {
        return false;
    }
    for place in 0..list.len() {
        if !list[place].same(&others[place]) {
            return false;
        }
    }
    true
}

#[tactic(auto, using(json_tree::proofs::Loops::same_more, json_tree::proofs::Loops::same_stops, json_tree::proofs::Loops::same_ends))]
fn same_statuses(list: &[ListedStatus], others: &[ListedStatus]) -> bool
    ensures { IsTrue result ↔ (list.now ≡ others.now) }
{
    if list.len() != others.len() {
        return false;
    }
    for place in 0..list.len() {
        if !list[place].same(&others[place]) {
            return false;
        }
    }
    true
}
