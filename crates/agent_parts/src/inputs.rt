//! The manifests that the command line names, and those of a folder.

ghost use Rattle.std.specs.Prelude.{IfErr, IfOk, string_bytes};
ghost use Rattle.manifest.specs.Pod.{ReadsPod};
ghost use Rattle.agent_parts.specs.Stops.{IsManifestNote, IsOfText};

use crate::advice::advice_lines;
use crate::stops::AgentStop;
use fault_notes::manifest_note;
use manifest::{Pod, PodFault, PodFaultAt};
use pod_folder::{gives_uid, uid_for};
use runtime_server::bytes_at;
use runtime_stops::ServerStop;
use std::alloc::{AllocError, Global};
use std::rt;
use wrong_files::{HintAfter, Wanted, hint_of_text};

/// The pod of a manifest's bytes.
pub fn pod_of<'a>(alloc: Global, path: &'a str, bytes: &[u8]) -> Result<Pod, AgentStop<'a>>
    ensures read { IfOk result (ReadsPod bytes.now) }
    ensures fault { IfErr result (IsOfText path.now bytes.now) }
{
    match manifest::read_placed(alloc, bytes) {
        Ok(pod) => Ok(pod),
        Err(found) => match found.fault {
            PodFault::Memory => Err(AgentStop::Server(ServerStop::Memory)),
            _ => Err(AgentStop::Text(path, note_on(alloc, bytes, &found)?)),
        },
    }
}

/// The note on a refused manifest, with a hint if the bytes seem to be another file.
fn note_on(alloc: Global, bytes: &[u8], found: &PodFaultAt) -> Result<String, AllocError>
    ensures { IfOk result (λ note. IsManifestNote bytes.now found.now (string_bytes note)) }
{
    let note = manifest_note(alloc, bytes, found)?;
    let hint = hint_of_text(alloc, bytes, Wanted::Manifest)?;
    format!(in alloc; "{}{}", note.as_str(), HintAfter(hint))
}

/// A pod of a manifest that the command line names.
#[derive(Drop)]
pub struct NamedPod {
    pub pod: Pod,
    /// Whether the manifest sets its uid.
    pub gives_uid: bool,
    /// The lines on what of the manifest has no effect.
    pub advice: Vec<String>,
}

/// The pod of a manifest. A generated uid ends with the name of the run.
pub fn pod_at<'a, R: rt::Files + AllocGlobal>(
    rt: &R,
    path: &'a str,
    run: Option<&str>,
) -> Result<NamedPod, AgentStop<'a>> {
    let bytes = bytes_at(rt, path)?;
    let mut pod = pod_of(rt.alloc(), path, bytes.as_slice())?;
    let gives_uid = gives_uid(rt.alloc(), bytes.as_slice())?;
    if !gives_uid {
        match uid_for(rt.alloc(), &pod, 1, run)? {
            Some(uid) => pod.uid = uid,
            None => return Err(AgentStop::Manifest(path, PodFault::BadName)),
        }
    }
    let advice = advice_lines(rt.alloc(), path, bytes.as_slice())?;
    Ok(NamedPod {
        pod,
        gives_uid,
        advice,
    })
}
