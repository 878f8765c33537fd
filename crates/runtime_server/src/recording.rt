//! Records of containers: a line for each cell that ended or was removed, which a thread appends to a file.
ghost use Rattle.std.specs.Prelude.{◌≡◌, ◌↔◌, IsTrue};
ghost use Rattle.runtime_server.specs.Recording.{HasEndedAlone, calls_of};

use crate::line_writer::LineWriter;
use crate::records_file::RecordsFile;
use cell_records::{RecordCalls, record_line};
use cri_msgs::{Call, Request};
use node_io::CausedFault;
use registry::RemovedCells;
use runner::StepGate;
use runtime_cell::{Cell, State};
use runtime_core::uid_of;
use runtime_stops::{ServerStop, file_stop};
use std::alloc::{AllocError, Global};
use std::sync::{Arc, Wait};
use std::thread::Threads;
use std::time::Clock;
use sys_table::CallTable;

/// Takes the ended and removed cells, and has their records written. It never waits for the file.
#[derive(Drop)]
pub struct Recorder {
    alloc: Global,
    known: CallTable,
    calls: RecordCalls,
    lines: Arc<LineWriter, Global>,
}

/// Why no records can be written.
#[derive(Clone, Copy, Debug)]
pub enum RecordsFault {
    /// The file can't be opened for appending.
    File(CausedFault),
    /// An allocation failed, or the thread that writes could not be started.
    Memory,
}

impl From<AllocError> for RecordsFault {
    ghost use Rattle.std.specs.Prelude.{◌≡◌};
    ghost use Rattle.runtime_server.specs.declared.recording.RecordsFault.TheVariants.{Memory};

    ghost from_gives = { λ _ fault. fault ≡ Memory };

    fn from(_: AllocError) -> RecordsFault {
        RecordsFault::Memory
    }
}

impl Recorder {
    /// Starts the thread that appends records to this file, which is created if missing. Faults of the file
    /// are reported on standard error under the name `program`. The known calls are named.
    pub fn start<R: Threads + Wait + Copy + Send + 'static>(
        rt: R,
        system: HostRuntime,
        program: &'static str,
        path: &str,
        known: CallTable,
        calls: RecordCalls,
    ) -> Result<Recorder, RecordsFault> {
        let alloc = system.alloc();
        let file = RecordsFile::at(&system, program, path)?;
        let lines = LineWriter::start(rt, system, file)?;
        Ok(Recorder {
            alloc,
            known,
            calls,
            lines,
        })
    }

    /// Waits until all records are written, or until none has been for ten seconds.
    pub fn finish<R: Wait + Clock>(&self, rt: &R) {
        self.lines.finish(rt);
    }

    /// A copy of the uid whose cells a request may remove.
    pub(crate) fn removal(&self, request: &Request) -> Result<Option<String>, AllocError> {
        match &request.call {
            Call::RemovePodSandbox { .. } | Call::RemoveContainer { .. } => {
                let uid = uid_of(&request.call).as_str();
                Ok(Some(String::from_str(self.alloc, uid)?))
            }
            _ => Ok(None),
        }
    }

    fn record<R: Wait>(&self, rt: &R, uid: &str, cell: &Cell) {
        let line = record_line(self.alloc, self.known, uid, cell, self.calls);
        self.lines.tell(rt, line);
    }

    /// Records the cells that a request removed, except those that had ended by themselves: they were
    /// recorded then.
    pub(crate) fn record_removed<R: Wait>(
        &self,
        rt: &R,
        uid: &Result<Option<String>, AllocError>,
        gone: &RemovedCells,
    ) {
        let (one, cells) = gone.parts();
        if let Some(cell) = one {
            self.record_at_removal(rt, uid, cell);
        }
        for cell in cells {
            self.record_at_removal(rt, uid, cell);
        }
    }

    fn record_at_removal<R: Wait>(
        &self,
        rt: &R,
        uid: &Result<Option<String>, AllocError>,
        cell: &Cell,
    ) {
        if has_ended_alone(cell) {
            return;
        }
        match uid {
            Ok(Some(uid)) => self.record(rt, uid.as_str(), cell),
            Ok(None) => {}
            Err(AllocError) => self.lines.miss(rt, 1),
        }
    }
}

/// The recorder, if the command line asks for records. The known calls are named.
pub fn recorder_for<'a, R: Threads + Wait + Copy + Send + 'static>(
    rt: &R,
    system: &HostRuntime,
    program: &'static str,
    path: Option<&'a str>,
    known: CallTable,
    lists_all: bool,
) -> Result<Option<Recorder>, ServerStop<'a>> {
    let Some(path) = path else {
        return Ok(None);
    };
    let calls = calls_of(lists_all);
    match Recorder::start(*rt, *system, program, path, known, calls) {
        Ok(recorder) => Ok(Some(recorder)),
        Err(RecordsFault::File(fault)) => Err(file_stop(path, fault)),
        Err(RecordsFault::Memory) => Err(ServerStop::Memory),
    }
}

fn calls_of(lists_all: bool) -> RecordCalls
    ensures { result ≡ calls_of lists_all }
{
    if lists_all {
        RecordCalls::All
    } else {
        RecordCalls::Denied
    }
}

// Whether a cell's script ended by itself.
fn has_ended_alone(cell: &Cell) -> bool
    ensures { IsTrue result ↔ HasEndedAlone cell.now.state }
{
    match cell.state() {
        State::Exited { killed, .. } => !killed,
        State::Created | State::Running => false,
    }
}

/// Records each cell that a step ended, if records are written.
#[derive(Drop)]
pub(crate) struct EndGate<'a, R: Wait> {
    pub(crate) rt: &'a R,
    pub(crate) recorder: Option<&'a Recorder>,
}

impl<R: Wait> StepGate for EndGate<'_, R> {
    fn before(&self, _id: u64) {}

    fn after(&self, _id: u64) {}

    fn ended(&self, uid: &str, cell: &Cell) {
        if let Some(recorder) = self.recorder {
            recorder.record(self.rt, uid, cell);
        }
    }
}
