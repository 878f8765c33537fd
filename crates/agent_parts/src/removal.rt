//! The pods that an agent removes before it ends by itself.
ghost use Rattle.std.specs.Prelude.{◌≡◌, ◌-◌, IfSome, None, Some, length, slice_get};
ghost use Rattle.agent_parts.specs.Removal.{IsWithoutLast, end_with, final_after, last_of, until_with};

use crate::limits::REMOVAL;
use crate::node_ends::TableEnd;
use manifest::Uid;
use std::alloc::Global;
use worker_crew::Ended;

/// What is left to do at the end of a run.
#[derive(Drop)]
pub struct Removal {
    alloc: Global,
    // Why the run ended, once it has.
    ended: Option<Ended>,
    // The last moment at which pods may leave.
    until: u64,
    // The pods still to delete.
    uids: Vec<Uid>,
    // The table of the pods as they were before.
    table: Option<TableEnd>,
}

impl Removal {
    /// The run has not ended.
    pub fn new(alloc: Global) -> Removal
        ensures { result.ended ≡ None }
    {
        Removal {
            alloc,
            ended: None,
            until: 0,
            uids: Vec::new(alloc),
            table: None,
        }
    }

    /// Records that the run has ended at this moment, with the pods to remove and their table. Returns how it
    /// finally ends, or `None` if pods must leave first.
    pub fn begin(
        &mut self,
        ended: Ended,
        now: u64,
        uids: Vec<Uid>,
        table: TableEnd,
    ) -> Option<Ended>
        ensures pods { self.new.uids.items ≡ uids.items }
        ensures table { self.new.table ≡ Some table }
        ensures ended { self.new.ended ≡ Some ended }
        ensures until { self.new.until ≡ last_of now }
        ensures ends { result ≡ end_with uids.items ended }
    {
        self.uids = uids;
        self.table = Some(table);
        self.ended = Some(ended);
        self.until = now.saturating_add(REMOVAL);
        if self.uids.is_empty() {
            Some(ended)
        } else {
            None
        }
    }

    /// How the run finally ends, with this end after an earlier one. `None` if there was no earlier one.
    pub fn ended(&self, ended: Ended) -> Option<Ended>
        ensures { result ≡ final_after self.now.ended ended }
    {
        let first = self.ended?;
        Some(if ended == Ended::Settled {
            first
        } else {
            ended
        })
    }

    /// The table of the pods as they were before they were removed, if they were.
    pub fn into_table(self) -> Option<TableEnd>
        ensures { result ≡ self.table }
    {
        let Removal { uids, table, .. } = self;
        drop(uids);
        table
    }

    /// The last moment of the virtual clock: the removal's, or `until` if the run has not ended.
    pub fn until(&self, until: u64) -> u64
        ensures { result ≡ until_with self.now.ended self.now.until until }
    {
        match self.ended {
            Some(_) => self.until,
            None => until,
        }
    }

    /// The pod to delete next.
    pub fn next(&self) -> Option<Uid>
        ensures { IfSome result (λ uid.
            slice_get self.now.uids.items (length self.now.uids.items - 1) ≡ Some uid) }
    {
        self.uids.last()?.try_clone(self.alloc).ok()
    }

    /// Records that the pod was deleted.
    pub fn recorded(&mut self)
        ensures pods { IsWithoutLast self.old.uids.items self.new.uids.items }
        ensures ended { self.new.ended ≡ self.old.ended }
        ensures until { self.new.until ≡ self.old.until }
        ensures table { self.new.table ≡ self.old.table }
    {
        drop(self.uids.pop());
    }
}
