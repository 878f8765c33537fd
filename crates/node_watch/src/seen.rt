ghost use Rattle.std.specs.Prelude.{◌≡◌, ◌++◌, IfOk, OnOk};
ghost use Rattle.node_watch.specs.Seen.{container_seen, containers_seen};

use crate::counts::{CallCounts, Counts};
use lifecycle::{ContainerState, Phase, Track};
use manifest::{Container, Label, Pod, Uid};
use std::alloc::{AllocError, Global};
use worker_pod::PodView;

/// What is seen of a container.
#[derive(Debug, Drop)]
pub struct ContainerSeen {
    pub name: Label,
    pub state: ContainerState,
    /// How many attempts were started after the first one.
    pub restarts: usize,
    /// The counts of its calls, if they are kept and a status had them.
    pub counts: Option<CallCounts>,
}

/// What is seen of a pod.
#[derive(Debug, Drop)]
pub struct PodSeen {
    pub uid: Uid,
    pub phase: Phase,
    /// Init containers first, in the order of the manifest.
    pub containers: Vec<ContainerSeen>,
}

fn container_seen(
    alloc: Global,
    pod: &Pod,
    counts: &Counts,
    container: &Container,
    track: &Track,
) -> Result<ContainerSeen, AllocError>
    ensures { IfOk result (λ seen. seen ≡ container_seen pod.now.policy pod.now.uid counts.now
        (container.now, track.now)) }
{
    Ok(ContainerSeen {
        name: container.name.try_clone(alloc)?,
        state: track.state(pod.policy),
        restarts: track.started().saturating_sub(1),
        counts: counts.counts_of(&pod.uid, &container.name),
    })
}

// Those of the other containers come after.
fn add_containers(
    alloc: Global,
    pod: &Pod,
    counts: &Counts,
    containers: &[Container],
    tracks: &[Track],
    seen: &mut Vec<ContainerSeen>,
) -> Result<(), AllocError>
    ensures { OnOk result (seen.new.items ≡ seen.old.items
        ++ containers_seen pod.now.policy pod.now.uid counts.now containers.now tracks.now) }
{
    let Some((container, containers)) = containers.split_first() else {
        return Ok(());
    };
    let Some((track, tracks)) = tracks.split_first() else {
        return Ok(());
    };
    seen.push(container_seen(alloc, pod, counts, container, track)?)?;
    add_containers(alloc, pod, counts, containers, tracks, seen)
}

impl PodSeen {
    /// What is seen of a pod now, with these counts of calls.
    pub fn of(alloc: Global, view: PodView<'_>, counts: &Counts) -> Result<PodSeen, AllocError>
        ensures uid { IfOk result (λ seen. seen.uid ≡ view.entry.pod.now.uid) }
        ensures phase { IfOk result (λ seen. seen.phase ≡ view.entry.phase) }
        ensures containers { IfOk result (λ seen. seen.containers.items
            ≡ containers_seen view.entry.pod.now.policy view.entry.pod.now.uid counts.now
            view.entry.pod.now.containers.all view.entry.tracks.now) }
    {
        let pod = view.pod;
        let mut containers = Vec::new(alloc);
        add_containers(
            alloc,
            pod,
            counts,
            pod.containers.as_slice(),
            view.tracks,
            &mut containers,
        )?;
        Ok(PodSeen {
            uid: pod.uid.try_clone(alloc)?,
            phase: view.phase,
            containers,
        })
    }
}
