//! What worker 0 of an agent does besides advancing the time, as far as the command line asks for it: it
//! admits and deletes the pods of a folder, prints changes, and removes the pods at the end of a run.
ghost use Rattle.std.specs.Prelude.{◌≡◌, IfSome};
ghost use Rattle.node_lock.specs.Books.{worker_of};

use crate::folders::PodsFolder;
use crate::limits::TASK_LOOK;
use crate::reader::is_gone;
use crate::removal::removed_at_end;
use crate::troubles::Troubles;
use agent_parts::{Removal, StateFile, TableEnd, TableWriter, loss_line};
use fault_notes::ShownPath;
use manifest::Uid;
use node_io::CausedFault;
use runtime_server::LineWriter;
use std::sync::Wait;
use std::sync::atomic::{AtomicU64, Ordering};
use std::sync::ledger::Ledger;
use std::time::Clock;
use worker_core::{AgentEvent, NodeRefusal};
use worker_crew::{Changes, CoordinatorTasks, Ended, Shared};

/// The tasks of an agent.
#[derive(Drop)]
pub struct AgentTasks<'s, 'a, L: Ledger, R: Wait> {
    pub rt: &'s R,
    pub system: HostRuntime,
    pub shared: &'s Shared<L>,
    pub table: TableWriter,
    /// The folder of manifests whose pods come and go with the files.
    pub folder: Option<PodsFolder<'s, 'a, L, R>>,
    /// What is left to do at the end, if pods are removed then.
    pub removal: Option<Removal>,
    /// The current moment, for the log of calls.
    pub moment: &'s AtomicU64,
    /// The file of the uids that must not stay in the runtime.
    pub state: Option<StateFile<'a>>,
    /// Why the last uid could not be kept, if it could not.
    pub unkept: Option<CausedFault>,
    /// What went wrong with calls.
    pub troubles: &'s Troubles,
    /// Where faults are reported.
    pub writer: &'s LineWriter,
    /// The pods whose loss was reported.
    pub told: Vec<Uid>,
    /// Whether the reader of the changes is gone.
    pub unread: bool,
    /// Where changes are printed.
    pub changes: Option<&'s LineWriter>,
}

impl<L: Ledger, R: Wait> AgentTasks<'_, '_, L, R> {
    /// The table of the pods as they were before they were removed, if they were, and whether the reader of
    /// the changes is gone.
    pub fn into_end(self) -> (Option<TableEnd>, bool) {
        let AgentTasks {
            folder,
            removal,
            told,
            state,
            unread,
            ..
        } = self;
        drop((folder, told, state));
        match removal {
            Some(removal) => (removal.into_table(), unread),
            None => (None, unread),
        }
    }
}

impl<L: Ledger, R: Wait + Clock> AgentTasks<'_, '_, L, R> {
    fn of_folder(&mut self) -> Option<AgentEvent>
        ensures { IfSome result (λ event. worker_of event ≡ 0) }
    {
        let folder = self.folder.as_mut()?;
        folder.look(&self.system);
        let event = folder.next()?;
        if let AgentEvent::Admit(pod) = &event {
            if !self.is_kept(&pod.uid) {
                return None;
            }
        }
        Some(event)
    }

    // Keeps the uid of a pod that is about to be admitted. A fault is reported once.
    fn is_kept(&mut self, uid: &Uid) -> bool {
        let Some(state) = &mut self.state else {
            return true;
        };
        match state.keep(uid) {
            Ok(()) => {
                self.unkept = None;
                true
            }
            Err(fault) => {
                let path = state.path();
                self.unkept(path, fault);
                false
            }
        }
    }

    fn unkept(&mut self, path: &str, fault: CausedFault) {
        if self.unkept != Some(fault) {
            let alloc = self.table.alloc;
            let line = format!(in alloc; "nodeagent: {}: {fault}", ShownPath(path));
            self.writer.tell(self.rt, line);
        }
        self.unkept = Some(fault);
    }

    // Forgets the uids of pods that have left the node.
    fn forget_left(&mut self) {
        let (rt, shared) = (self.rt, self.shared);
        let has_left = self
            .folder
            .as_mut()
            .is_some_and(|folder| folder.take_left());
        if let (true, Some(state)) = (has_left, &mut self.state) {
            // A uid kept for longer is removed once more, which does no harm.
            let _ = state.forget_all_but(|uid| shared.has_pod(rt, uid));
        }
    }

    /// Reports each pod that the runtime has lost once, and moves it to its next uid if its file is in the
    /// folder.
    pub fn report_losses(&mut self) {
        for lost in self.troubles.take_lost(self.rt) {
            let moves = match &mut self.folder {
                Some(folder) => folder.lost(&lost.uid),
                None => false,
            };
            if self.told.iter().any(|told| *told == lost.uid) {
                continue;
            }
            self.writer
                .tell(self.rt, loss_line(self.table.alloc, &lost, moves));
            drop(self.told.push(lost.uid));
        }
    }

    fn of_removal(&self) -> Option<AgentEvent>
        ensures { IfSome result (λ event. worker_of event ≡ 0) }
    {
        let uid = self.removal.as_ref()?.next()?;
        Some(AgentEvent::Delete(uid))
    }
}

impl<L: Ledger, R: Wait + Clock> CoordinatorTasks for AgentTasks<'_, '_, L, R> {
    fn next(&mut self) -> Option<AgentEvent> {
        self.report_losses();
        self.forget_left();
        self.unread = self.changes.is_some() && is_gone(&self.system);
        match self.of_folder() {
            Some(event) => Some(event),
            None => self.of_removal(),
        }
    }

    fn ticks(&mut self, moment: u64) {
        self.moment.store(moment, Ordering::SeqCst);
    }

    fn recorded(&mut self, refusal: Option<NodeRefusal>) {
        if let Some(folder) = &mut self.folder {
            folder.recorded(refusal, self.shared.moment());
        }
        if let Some(removal) = &mut self.removal {
            removal.recorded();
        }
    }

    fn pause(&self) -> Option<u64> {
        match &self.folder {
            Some(folder) if folder.is_looking() => Some(0),
            Some(_) => Some(TASK_LOOK),
            None => self.changes.map(|_| TASK_LOOK),
        }
    }

    fn tell(&mut self, changes: Changes) {
        let Some(writer) = self.changes else {
            return;
        };
        let Changes { lines, left_out } = changes;
        for line in lines {
            for one in line.as_str().lines() {
                writer.tell(self.rt, String::from_str(self.table.alloc, one));
            }
        }
        if left_out > 0 {
            writer.miss(self.rt, left_out);
        }
    }

    fn stops(&self) -> bool {
        self.unread
            || self
                .changes
                .is_some_and(|writer| writer.failure(self.rt).is_some())
    }

    fn until(&self, until: u64) -> u64 {
        match &self.removal {
            Some(removal) => removal.until(until),
            None => until,
        }
    }

    fn at_end(&mut self, ended: Ended, now: u64) -> Option<Ended> {
        match &mut self.removal {
            Some(removal) => removed_at_end(removal, self.rt, self.shared, &self.table, ended, now),
            None => Some(ended),
        }
    }
}
