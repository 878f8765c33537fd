//! The writers of lines while an agent works, and the reports of its own runtime.
use command_line::NodeagentLine;
use node_io::Cause;
use refusal_causes::Causes;
use runtime_server::{LineWriter, Recorder, Reports, Stream};
use std::alloc::{AllocError, Global};
use std::sync::{Arc, Mutex, Wait};
use std::thread::Threads;
use std::time::Clock;

/// The writer of lines to standard error, and the writer of changes to standard output, if they are printed.
#[derive(Drop)]
pub(crate) struct LineWriters {
    pub(crate) lines: Arc<LineWriter, Global>,
    pub(crate) changes: Option<Arc<LineWriter, Global>>,
    causes: Option<Arc<Mutex<Causes>, Global>>,
}

/// Collects why a runtime in this process refuses requests, if the lines on why containers wait need it.
pub(crate) fn causes_for(
    alloc: Global,
    line: &NodeagentLine<'_>,
) -> Result<Option<Arc<Mutex<Causes>, Global>>, AllocError> {
    if line.with_runtime && line.watch && line.reasons {
        Ok(Some(Arc::new(alloc, Mutex::new(Causes::new(alloc)))?))
    } else {
        Ok(None)
    }
}

/// Another reference to the same causes.
pub(crate) fn shared_causes(
    causes: &Option<Arc<Mutex<Causes>, Global>>,
) -> Result<Option<Arc<Mutex<Causes>, Global>>, AllocError> {
    match causes {
        Some(causes) => Ok(Some(Arc::try_clone(causes)?)),
        None => Ok(None),
    }
}

impl LineWriters {
    /// Starts a thread for each.
    pub(crate) fn start<R: Threads + Wait + Clock + Copy + Send + Sync + 'static>(
        rt: &R,
        system: &HostRuntime,
        line: &NodeagentLine<'_>,
        causes: Option<Arc<Mutex<Causes>, Global>>,
    ) -> Result<LineWriters, AllocError> {
        let lines = LineWriter::start(*rt, *system, Stream::Error)?;
        let changes = if line.watch {
            Some(LineWriter::start(*rt, *system, Stream::Output)?)
        } else {
            None
        };
        Ok(LineWriters {
            lines,
            changes,
            causes,
        })
    }

    /// Where the reports of the runtime in this process go.
    pub(crate) fn reports(&self, recorder: Option<Recorder>) -> Result<Reports, AllocError> {
        Ok(Reports {
            writer: Some(Arc::try_clone(&self.lines)?),
            recorder,
            causes: shared_causes(&self.causes)?,
        })
    }

    /// Writes these lines to standard error.
    pub(crate) fn tell_all<R: Wait>(&self, rt: &R, lines: Vec<String>) {
        for line in lines {
            self.lines.tell(rt, Ok(line));
        }
    }

    /// Waits until all lines are written.
    pub(crate) fn finish<R: Wait + Clock>(&self, rt: &R) {
        if let Some(writer) = &self.changes {
            writer.finish(rt);
        }
        self.lines.finish(rt);
    }

    /// Why changes could not be written, if they could not.
    pub(crate) fn unwritten<R: Wait>(&self, rt: &R) -> Option<Cause> {
        match &self.changes {
            Some(writer) => writer.failure(rt),
            None => None,
        }
    }
}
