//! How many calls of each container were performed, and how many were denied, by the statuses of a runtime.
ghost use Rattle.std.specs.Prelude.{◌≡◌, ◌<◌, ◌≤◌, ◌+◌, ◌++◌, ◌∷◌, [], IfOk, OnOk, OnErr};
ghost use Rattle.std.specs.Prelude.{string_bytes, vec_len, vec_capacity};
ghost use Rattle.node_watch.specs.Counts.{counted_by, counts_after, counts_of, counts_text, is_of};
ghost use Rattle.node_watch.specs.Counts.{is_same_counts, newest_first, without, without_pod};

use crate::forms::Form;
use cri_msgs::{Answer, Call, Key, ListedStatus, Status};
use manifest::{Label, Uid};
use std::alloc::{AllocError, Global};
use std::marker::Model;

/// How many calls of a container were performed, and how many were judged and not performed.
#[derive(Clone, Copy, Debug, PartialEq, Eq)]
pub struct CallCounts {
    pub performed: u64,
    pub denied: u64,
}

/// A container, and the counts of its calls.
#[derive(Debug, Drop)]
pub struct Counted {
    pub uid: Uid,
    pub name: Label,
    pub counts: CallCounts,
}

/// The counts of a node's containers, by the latest status of each. Contracts see the list.
#[derive(Drop)]
pub struct Counts {
    alloc: Global,
    list: Vec<Counted>,
}

impl Model for Counts {
    ghost use Rattle.std.specs.Prelude.{List};
    ghost use Rattle.node_watch.specs.declared.counts.Counted.{Counted};

    ghost Value = { List Counted };

    ghost view = { λ c. c.list.items };
}

/// Writes the counts of a container, if there are any: ` 12 performed 3 denied`, or members of an object.
pub fn add_counts(
    text: &mut String,
    form: Form,
    counts: Option<CallCounts>,
) -> Result<(), AllocError>
    ensures { OnOk result (string_bytes text.new ≡ string_bytes text.old ++ counts_text form counts) }
{
    let Some(counts) = counts else {
        return Ok(());
    };
    let (performed, denied) = (counts.performed, counts.denied);
    match form {
        Form::Text => write!(text, " {performed} performed {denied} denied")?,
        Form::Json => write!(text, ",\"performed\":{performed},\"denied\":{denied}")?,
    }
    Ok(())
}

pub(crate) fn is_same_counts(counts: Option<CallCounts>, other: Option<CallCounts>) -> bool
    ensures { result ≡ is_same_counts counts other }
{
    match (counts, other) {
        (None, None) => true,
        (Some(counts), Some(other)) => {
            counts.performed == other.performed && counts.denied == other.denied
        }
        (None, Some(_)) | (Some(_), None) => false,
    }
}

fn is_of(uid: &Uid, name: &Label, counted: &Counted) -> bool
    ensures { result ≡ is_of uid.now name.now counted.now }
{
    counted.uid.as_str() == uid.as_str() && counted.name.as_str() == name.as_str()
}

fn counted_by(alloc: Global, uid: &Uid, name: &Label, status: Status) -> Result<Counted, AllocError>
    ensures { IfOk result (λ made. made ≡ counted_by uid.now name.now status) }
{
    Ok(Counted {
        uid: uid.try_clone(alloc)?,
        name: name.try_clone(alloc)?,
        counts: CallCounts {
            performed: status.performed,
            denied: status.denied,
        },
    })
}

fn drop_container(list: &mut Vec<Counted>, uid: &Uid, name: &Label)
    ensures items { list.new.items ≡ without uid.now name.now list.old.items }
    ensures len { vec_len list.new ≤ vec_len list.old }
    ensures capacity { vec_capacity list.new ≡ vec_capacity list.old }
{
    list.retain(|counted| !is_of(uid, name, counted));
}

fn drop_pod(list: &mut Vec<Counted>, uid: &Uid)
    ensures items { list.new.items ≡ without_pod uid.now list.old.items }
    ensures len { vec_len list.new ≤ vec_len list.old }
    ensures capacity { vec_capacity list.new ≡ vec_capacity list.old }
{
    list.retain(|counted| counted.uid.as_str() != uid.as_str());
}

// Appends these, for which there is room.
fn append(list: &mut Vec<Counted>, mut more: Vec<Counted>)
    requires { vec_len list.old + vec_len more ≤ vec_capacity list.old }
    ensures { list.new.items ≡ list.old.items ++ more.items }
{
    let appended = list.append(&mut more);
    let is_there = appended.is_ok();
    prove!(is_there);
}

// Adds the containers of a list, newest first. The list has the newest attempt of each last.
fn add_listed(
    alloc: Global,
    uid: &Uid,
    listed: &[ListedStatus],
    more: &mut Vec<Counted>,
) -> Result<(), AllocError>
    ensures { OnOk result (more.new.items ≡ newest_first uid.now listed.now more.old.items) }
{
    let Some((one, others)) = listed.split_first() else {
        return Ok(());
    };
    more.insert(0, counted_by(alloc, uid, &one.container.name, one.status)?)?;
    add_listed(alloc, uid, others, more)
}

impl Counts {
    /// No status was seen yet.
    pub fn new(alloc: Global) -> Counts
        ensures { result ≡ [] }
    {
        Counts {
            alloc,
            list: Vec::new(alloc),
        }
    }

    /// Notes the counts of the answer to a call. A new attempt of a container has none until its first
    /// status. A failed allocation changes nothing.
    pub fn note(&mut self, call: &Call, answer: &Answer) -> Result<(), AllocError>
        ensures ok { OnOk result (self.new ≡ counts_after call.now answer.now self.old) }
        ensures err { OnErr result (self.new ≡ self.old) }
    {
        match (call, answer) {
            (Call::CreateContainer { key, .. }, Answer::Container(_)) => {
                drop_container(&mut self.list, &key.uid, &key.container.name);
                Ok(())
            }
            (Call::ContainerStatus { key }, Answer::Status(status)) => self.note_one(key, *status),
            (Call::ContainerStatuses { uid }, Answer::Statuses(listed)) => {
                self.note_listed(uid, listed.as_slice())
            }
            _ => Ok(()),
        }
    }

    // Allocates everything before the first change.
    fn note_one(&mut self, key: &Key, status: Status) -> Result<(), AllocError>
        ensures ok { OnOk result (self.new ≡ without key.now.uid key.now.container.name self.old
            ++ counted_by key.now.uid key.now.container.name status ∷ []) }
        ensures err { OnErr result (self.new ≡ self.old) }
    {
        let name = &key.container.name;
        let one = counted_by(self.alloc, &key.uid, name, status)?;
        let more = vec![in self.alloc; one]?;
        self.list.reserve(more.len())?;
        drop_container(&mut self.list, &key.uid, name);
        append(&mut self.list, more);
        Ok(())
    }

    // The same for a list.
    fn note_listed(&mut self, uid: &Uid, listed: &[ListedStatus]) -> Result<(), AllocError>
        ensures ok { OnOk result (self.new ≡ without_pod uid.now self.old
            ++ newest_first uid.now listed.now []) }
        ensures err { OnErr result (self.new ≡ self.old) }
    {
        let mut more = Vec::new(self.alloc);
        add_listed(self.alloc, uid, listed, &mut more)?;
        self.list.reserve(more.len())?;
        drop_pod(&mut self.list, uid);
        append(&mut self.list, more);
        Ok(())
    }

    /// Forgets the containers of a pod that has left the node.
    pub fn forget(&mut self, uid: &Uid)
        ensures { self.new ≡ without_pod uid.now self.old }
    {
        drop_pod(&mut self.list, uid);
    }

    /// The counts of a container, if a status of its latest attempt was seen.
    pub fn counts_of(&self, uid: &Uid, name: &Label) -> Option<CallCounts>
        ensures { result ≡ counts_of uid.now name.now self.now }
    {
        let found = self.list.iter().find(|c| is_of(uid, name, c))?;
        Some(found.counts)
    }
}
