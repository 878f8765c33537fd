//! The lines that report on a folder of manifests and its files.
ghost use Rattle.std.specs.Prelude.{IfOk};
ghost use Rattle.agent_parts.specs.Looks.{IsManifest};
ghost use Rattle.pod_folder.specs.Looking.{ReadsAs};

use crate::inputs::pod_of;
use crate::stops::AgentStop;
use fault_notes::ShownPath;
use manifest::PodFault;
use node_io::CausedFault;
use pod_folder::{MAX_FILES, Manifest, Reading, Report, gives_uid};
use runtime_stops::ServerStop;
use std::alloc::{AllocError, Global};
use worker_core::NodeRefusal;

/// Makes the lines of a folder, without line ends.
#[derive(Clone, Copy)]
pub struct FolderLines<'a> {
    pub alloc: Global,
    /// The folder's path.
    pub folder: &'a str,
}

// The line of a stop, without its line end.
fn line_of(alloc: Global, stop: &AgentStop<'_>) -> Result<String, AllocError> {
    let text = format!(in alloc; "{stop}")?;
    let line = text.as_str();
    String::from_str(alloc, line.strip_suffix("\n").unwrap_or(line))
}

impl FolderLines<'_> {
    /// The path of the file of this name.
    pub fn path_of(&self, name: &str) -> Result<String, AllocError> {
        let slash = if self.folder.ends_with("/") { "" } else { "/" };
        format!(in self.alloc; "{}{slash}{name}", self.folder)
    }

    /// Reads the bytes of the file at this path.
    pub fn reading(&self, path: &str, bytes: &[u8]) -> Result<Reading, AllocError>
        ensures { IfOk result (ReadsAs IsManifest bytes.now) }
    {
        match pod_of(self.alloc, path, bytes) {
            Ok(pod) => {
                let gives_uid = gives_uid(self.alloc, bytes)?;
                Ok(Reading::Pod(Manifest { pod, gives_uid }))
            }
            Err(AgentStop::Server(ServerStop::Memory)) => Err(AllocError),
            Err(stop) => Ok(Reading::Refused(line_of(self.alloc, &stop)?)),
        }
    }

    fn unread(&self, path: &str, fault: CausedFault) -> Result<String, AllocError> {
        line_of(
            self.alloc,
            &AgentStop::Server(ServerStop::File(path, fault)),
        )
    }

    fn refused(&self, path: &str, refusal: NodeRefusal) -> Result<String, AllocError> {
        line_of(self.alloc, &AgentStop::Pod(path, refusal))
    }

    /// The report on the file of this name.
    pub fn report(&self, name: &str, report: Report) -> Result<String, AllocError> {
        let path = self.path_of(name)?;
        match report {
            Report::Refused(line) => Ok(line),
            Report::Unread(fault) => self.unread(path.as_str(), fault),
            Report::KnownUid => self.refused(path.as_str(), NodeRefusal::KnownUid),
        }
    }

    /// Reports that no uid can be made for the pod of the file of this name.
    pub fn unnamed(&self, name: &str) -> Result<String, AllocError> {
        let path = self.path_of(name)?;
        line_of(
            self.alloc,
            &AgentStop::Manifest(path.as_str(), PodFault::BadName),
        )
    }

    /// Reports that the node refused the pod of this file, this many times since the last report.
    pub fn refusal(
        &self,
        name: &str,
        refusal: NodeRefusal,
        times: u64,
    ) -> Result<String, AllocError> {
        let path = self.path_of(name)?;
        let line = self.refused(path.as_str(), refusal)?;
        if times == 1 {
            Ok(line)
        } else {
            format!(in self.alloc; "{} ({times} times)", line.as_str())
        }
    }

    /// Reports that the look left out this many files.
    pub fn left_out(&self, left_out: usize) -> Result<String, AllocError> {
        format!(in self.alloc;
            "nodeagent: {}: {left_out} files left out, at most {MAX_FILES} are read",
            ShownPath(self.folder)
        )
    }

    /// Reports that the folder could not be read, for this reason.
    pub fn missed(&self, fault: CausedFault) -> Result<String, AllocError> {
        self.unread(self.folder, fault)
    }

    /// Reports that the folder can be read again.
    pub fn seen(&self) -> Result<String, AllocError> {
        format!(in self.alloc; "nodeagent: {}: read again", ShownPath(self.folder))
    }
}
