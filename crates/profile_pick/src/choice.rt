ghost use Rattle.std.specs.Prelude.{◌≡◌, ◌<◌, IfSome, length, slice_get};
ghost use Rattle.profile_pick.specs.Choice.{choice_of, choice_seen, node_default};

use manifest::{Container, DescendingPath, Pod, SeccompProfile};

/// The profile that a container gets.
#[derive(Clone, Copy, Debug, PartialEq, Eq)]
pub enum Choice<'p> {
    /// The profile of the runtime.
    RuntimeDefault,
    /// The profile in this file, relative to the node's folder of profiles.
    Localhost(&'p DescendingPath),
    /// No profile.
    Unconfined,
}

/// The profile of the container at this place, counting init containers first. If the node's seccomp default
/// is on, a container without a profile gets that of the runtime.
pub fn pick(pod: &Pod, at: usize, seccomp_default: bool) -> Choice<'_>
    requires { at < length pod.now.containers.all }
    ensures { IfSome (slice_get pod.now.containers.all at) (λ container.
        choice_seen result ≡ choice_of pod.now.profile container seccomp_default) }
{
    picked(
        &pod.profile,
        &pod.containers.as_slice()[at],
        seccomp_default,
    )
}

// The first of these that is set decides.
fn picked<'p>(
    of_pod: &'p Option<SeccompProfile>,
    container: &'p Container,
    seccomp_default: bool,
) -> Choice<'p>
    ensures { choice_seen result ≡ choice_of of_pod.now container.now seccomp_default }
{
    if container.privileged {
        return Choice::Unconfined;
    }
    match (&container.profile, of_pod) {
        (Some(profile), _) => lent(profile),
        (None, Some(profile)) => lent(profile),
        (None, None) => by_default(seccomp_default),
    }
}

fn by_default<'p>(seccomp_default: bool) -> Choice<'p>
    ensures { choice_seen result ≡ node_default seccomp_default }
{
    if seccomp_default {
        Choice::RuntimeDefault
    } else {
        Choice::Unconfined
    }
}

fn lent(profile: &SeccompProfile) -> Choice<'_>
    ensures { choice_seen result ≡ profile.now }
{
    match profile {
        SeccompProfile::RuntimeDefault => Choice::RuntimeDefault,
        SeccompProfile::Localhost(path) => Choice::Localhost(path),
        SeccompProfile::Unconfined => Choice::Unconfined,
    }
}
