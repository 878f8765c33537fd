//! What a run has outside of its node: connections, writers of lines, and reports of lost calls.

use crate::line_writers::LineWriters;
use crate::peers::{CallLog, Calls};
use agent_parts::{FolderLines, Removal, StateFile, TableWriter, form_of};
use agent_tasks::{AgentTasks, FolderReader, PodsFolder, Troubles};
use command_line::NodeagentLine;
use pod_folder::Naming;
use refusal_causes::Causes;
use runtime_server::{Connections, LineWriter};
use std::alloc::{AllocError, Global};
use std::sync::atomic::AtomicU64;
use std::sync::ledger::Ledger;
use std::sync::{Arc, Mutex, Wait};
use std::thread::Threads;
use std::time::Clock;
use worker_crew::Shared;

/// What a run has outside of its node.
#[derive(Drop)]
pub(crate) struct Outside {
    /// The open connections of calls.
    pub(crate) open: Connections,
    /// The writers of lines.
    pub(crate) writers: LineWriters,
    // Which calls were lost.
    troubles: Troubles,
    // The current moment, in seconds.
    moment: AtomicU64,
}

impl Outside {
    /// Starts the writers.
    pub(crate) fn start<R: Threads + Wait + Clock + Copy + Send + Sync + 'static>(
        rt: &R,
        system: &HostRuntime,
        line: &NodeagentLine<'_>,
        causes: Option<Arc<Mutex<Causes>, Global>>,
    ) -> Result<Outside, AllocError> {
        let open = Connections::new(system.alloc())?;
        let writers = LineWriters::start(rt, system, line, causes)?;
        let is_told = !line.verbose && !line.settle;
        let troubles = Troubles::new(system.alloc(), line.socket, is_told)?;
        Ok(Outside {
            open,
            writers,
            troubles,
            moment: AtomicU64::new(0),
        })
    }

    /// How calls are made and logged.
    pub(crate) fn calls<'s, R: Wait>(
        &'s self,
        rt: &'s R,
        line: &NodeagentLine<'_>,
    ) -> Calls<'s, R> {
        let log = CallLog {
            rt,
            writer: &self.writers.lines,
            moment: &self.moment,
            troubles: &self.troubles,
            each: line.verbose,
        };
        Calls {
            open: &self.open,
            log,
        }
    }

    /// The tasks of worker 0, besides advancing the time.
    pub(crate) fn tasks<'s, 'a, L: Ledger, R: Wait + Clock>(
        &'s self,
        rt: &'s R,
        system: &HostRuntime,
        line: &NodeagentLine<'a>,
        shared: &'s Shared<L>,
        naming: Naming<'a>,
        state: Option<StateFile<'a>>,
    ) -> AgentTasks<'s, 'a, L, R> {
        let alloc = system.alloc();
        let writer: &'s LineWriter = &self.writers.lines;
        let folder = match line.pods {
            Some(path) => {
                let reader = FolderReader {
                    rt,
                    shared,
                    writer,
                    lines: FolderLines {
                        alloc,
                        folder: path,
                    },
                };
                Some(PodsFolder::new(reader, naming))
            }
            None => None,
        };
        let changes: Option<&'s LineWriter> = match &self.writers.changes {
            Some(writer) => Some(writer),
            None => None,
        };
        AgentTasks {
            rt,
            system: *system,
            shared,
            table: TableWriter {
                alloc,
                form: form_of(line),
            },
            folder,
            removal: if line.remove {
                Some(Removal::new(alloc))
            } else {
                None
            },
            troubles: &self.troubles,
            writer,
            told: Vec::new(alloc),
            moment: &self.moment,
            state,
            unkept: None,
            unread: false,
            changes,
        }
    }
}
