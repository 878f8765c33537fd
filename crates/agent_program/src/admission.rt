//! The node of a run, and the admission of the pods of its manifests.
ghost use Rattle.std.specs.Prelude.{◌≡◌, IfOk};
ghost use Rattle.node_lock.specs.declared.limits.TheConstants.{PARTS};

use crate::line_writers::shared_causes;
use agent_parts::{AgentStop, NamedPod, StateFile, limit_of, observed_of, pod_at, settings_of};
use command_line::NodeagentLine;
use node_lock::{Book, BookFault, PARTS};
use pod_folder::Naming;
use refusal_causes::Causes;
use runtime_stops::{ServerStop, file_stop};
use std::alloc::{AllocError, Global};
use std::sync::ledger::{Blank, Ledger};
use std::sync::{Arc, Mutex, Wait};
use worker_core::AgentEvent;
use worker_crew::{BesideBook, Coordinator, Shared};

/// What admits pods: the coordinator, the names of pods without uids, and the file of kept uids. The advice is
/// the lines on what of the manifests has no effect.
#[derive(Drop)]
pub(crate) struct Admission<'a, L: Ledger> {
    pub(crate) coordinator: Coordinator<L>,
    pub(crate) naming: Naming<'a>,
    pub(crate) state: Option<StateFile<'a>>,
    pub(crate) advice: Vec<String>,
}

/// The node of the command line, and its coordinator.
pub(crate) fn node_of<L: Ledger>(
    system: &HostRuntime,
    line: &NodeagentLine<'_>,
    blank: Blank,
    causes: &Option<Arc<Mutex<Causes>, Global>>,
) -> Result<(Shared<L>, Coordinator<L>), AllocError>
    requires name { blank.name ≡ L.name }
    requires parts { blank.parts ≡ L.parts }
    requires all { blank.parts ≡ PARTS }
    ensures { IfOk result (λ made. made.1.parts ≡ PARTS) }
{
    let beside = BesideBook {
        observed: observed_of(line),
        counting: line.counts,
        causes: shared_causes(causes)?,
    };
    let (book, share) = Book::<L>::with_limit(
        system.alloc(),
        settings_of(line),
        limit_of(line),
        blank,
    );
    let shared = Shared::watching(system.alloc(), book, beside);
    Ok((shared, Coordinator::new(system.alloc(), share)))
}

/// Admits the pods of the line's manifests.
pub(crate) fn admission_of<'a, L: Ledger, R: Wait>(
    rt: &R,
    system: &HostRuntime,
    line: &NodeagentLine<'a>,
    shared: &Shared<L>,
    coordinator: Coordinator<L>,
) -> Result<Admission<'a, L>, AgentStop<'a>>
    requires { coordinator.parts ≡ PARTS }
    ensures { IfOk result (λ admission. admission.coordinator.parts ≡ PARTS) }
{
    let mut admission = Admission {
        coordinator,
        naming: Naming::new(system.alloc(), line.run),
        state: state_of(system, line)?,
        advice: Vec::new(system.alloc()),
    };
    for path in line.manifests.as_slice() {
        admit(rt, system, shared, &mut admission, path)?;
    }
    Ok(admission)
}

// The file of kept uids, if there is one.
fn state_of<'a>(
    system: &HostRuntime,
    line: &NodeagentLine<'a>,
) -> Result<Option<StateFile<'a>>, AgentStop<'a>> {
    match line.state {
        Some(path) => Ok(Some(StateFile::read(system, path)?)),
        None => Ok(None),
    }
}

// Admits the pod of a manifest.
fn admit<'a, L: Ledger, R: Wait>(
    rt: &R,
    system: &HostRuntime,
    shared: &Shared<L>,
    admission: &mut Admission<'a, L>,
    path: &'a str,
) -> Result<(), AgentStop<'a>>
    ensures { admission.new.coordinator.parts ≡ admission.old.coordinator.parts }
{
    let NamedPod {
        pod,
        gives_uid,
        mut advice,
    } = pod_at(system, path, admission.naming.run())?;
    admission.advice.append(&mut advice)?;
    if !gives_uid {
        admission.naming.reserve(&pod)?;
        admission.naming.count(&pod);
    }
    if let Some(state) = &mut admission.state {
        if let Err(fault) = state.keep(&pod.uid) {
            return Err(AgentStop::from(file_stop(state.path(), fault)));
        }
    }
    match admission
        .coordinator
        .record(rt, shared, AgentEvent::Admit(pod))
    {
        Ok(None) => Ok(()),
        Ok(Some(refusal)) => Err(AgentStop::Pod(path, refusal)),
        Err(BookFault::HistoryFull) => Err(AgentStop::HistoryFull),
        Err(BookFault::Memory) => Err(AgentStop::Server(ServerStop::Memory)),
    }
}
