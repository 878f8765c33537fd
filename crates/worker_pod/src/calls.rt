ghost use Rattle.std.specs.Prelude.{◌≡◌, IfOk, Ok, Some, None, slice_get};
ghost use Rattle.profile_pick.specs.Choice.{choice_of, choice_seen};
ghost use Rattle.worker_pod.specs.Next.{call_by, call_of, key_in, look_by};

use crate::container_actions::{Pick, Work};
use crate::settings::Settings;
use cri_msgs::{Call, ContainerMetadata, Key, Version};
use manifest::{Container, Pod, SeccompProfile};
use profile_pick::{Choice, pick};
use std::alloc::{AllocError, Global};

fn key_in(alloc: Global, pod: &Pod, container: &Container, attempt: u32) -> Result<Key, AllocError>
    ensures { IfOk result (λ key. key ≡ key_in pod.now container.now attempt) }
{
    let uid = pod.uid.try_clone(alloc)?;
    let name = container.name.try_clone(alloc)?;
    Ok(Key {
        uid,
        container: ContainerMetadata { name, attempt },
    })
}

// The choice with a path of its own.
fn owned(alloc: Global, choice: Choice<'_>) -> Result<SeccompProfile, AllocError>
    ensures { IfOk result (λ profile. profile ≡ choice_seen choice.entry) }
{
    match choice {
        Choice::RuntimeDefault => Ok(SeccompProfile::RuntimeDefault),
        Choice::Localhost(path) => Ok(SeccompProfile::Localhost(path.try_clone(alloc)?)),
        Choice::Unconfined => Ok(SeccompProfile::Unconfined),
    }
}

// The profile of the container at this place.
fn profile_of(
    alloc: Global,
    pod: &Pod,
    at: usize,
    container: &Container,
    settings: Settings,
) -> Result<SeccompProfile, AllocError>
    requires { slice_get pod.now.containers.all at ≡ Some container.now }
    ensures { IfOk result (λ profile. profile
        ≡ choice_of pod.now.profile container.now settings.seccomp_default) }
{
    owned(alloc, pick(pod, at, settings.seccomp_default))
}

// The call that asks for a container's status, and by version 2 for those of the whole pod.
fn look_by(
    alloc: Global,
    pod: &Pod,
    container: &Container,
    version: Version,
    attempt: u32,
) -> Result<Call, AllocError>
    ensures { IfOk result (λ call. call ≡ look_by version (key_in pod.now container.now attempt)) }
{
    match version {
        Version::V1 => Ok(Call::ContainerStatus {
            key: key_in(alloc, pod, container, attempt)?,
        }),
        Version::V2 => Ok(Call::ContainerStatuses {
            uid: pod.uid.try_clone(alloc)?,
        }),
    }
}

// The call that does the work on the container at this place.
fn call_of(
    alloc: Global,
    pod: &Pod,
    at: usize,
    container: &Container,
    settings: Settings,
    work: Work,
) -> Result<Call, AllocError>
    requires { slice_get pod.now.containers.all at ≡ Some container.now }
    ensures { IfOk result (λ call. call ≡ call_of pod.now settings container.now work) }
{
    match work {
        Work::Create(attempt) => Ok(Call::CreateContainer {
            key: key_in(alloc, pod, container, attempt)?,
            image: container.image.try_clone(alloc)?,
            profile: profile_of(alloc, pod, at, container, settings)?,
        }),
        Work::Start(attempt) => Ok(Call::StartContainer {
            key: key_in(alloc, pod, container, attempt)?,
        }),
        Work::Look(attempt) => look_by(alloc, pod, container, settings.version, attempt),
        Work::Clear(attempt) => Ok(Call::RemoveContainer {
            key: key_in(alloc, pod, container, attempt)?,
        }),
    }
}

// The call for the container that was chosen, if one was.
pub(crate) fn call_by(
    alloc: Global,
    pod: &Pod,
    settings: Settings,
    chosen: Option<Pick>,
) -> Result<Option<Call>, AllocError>
    ensures call { IfOk result (λ call. call ≡ call_by pod.now settings chosen) }

    // Without a choice no memory is taken.
    ensures none { call_by pod.now settings chosen ≡ None → result ≡ Ok None }
{
    let Some(chosen) = chosen else {
        return Ok(None);
    };
    match pod.containers.as_slice().get(chosen.at) {
        Some(container) => Ok(Some(call_of(
            alloc,
            pod,
            chosen.at,
            container,
            settings,
            chosen.work,
        )?)),
        None => Ok(None),
    }
}
