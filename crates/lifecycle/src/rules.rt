ghost use Rattle.std.specs.Prelude.{◌≡◌};
ghost use Rattle.lifecycle.specs.Phases.{are_finished, are_succeeded, has_failed_init, is_pending, phase_of};

use crate::phases::Phase;
use crate::policy::RestartPolicy;
use crate::track::Track;

fn has_failed_init(policy: RestartPolicy, tracks: &[Track]) -> bool
    ensures { result ≡ has_failed_init policy tracks.now }
{
    tracks.iter().any(|t| t.init && t.is_failed(policy))
}

fn are_finished(policy: RestartPolicy, tracks: &[Track]) -> bool
    ensures { result ≡ are_finished policy tracks.now }
{
    tracks.iter().all(|t| t.init || t.is_finished(policy))
}

fn are_succeeded(policy: RestartPolicy, tracks: &[Track]) -> bool
    ensures { result ≡ are_succeeded policy tracks.now }
{
    tracks.iter().all(|t| t.init || t.is_succeeded(policy))
}

fn is_pending(policy: RestartPolicy, tracks: &[Track]) -> bool
    ensures { result ≡ is_pending policy tracks.now }
{
    tracks.iter().any(|t| {
        if t.init {
            !t.is_finished(policy)
        } else {
            !t.was_started()
        }
    })
}

/// The phase of the pod of these containers; `lost` is whether the last call for it was lost or abandoned.
/// The first rule that applies decides: an init container failed; all others are finished; the last call was
/// lost; an init container is not finished, or another was never started.
pub fn phase(tracks: &[Track], policy: RestartPolicy, lost: bool) -> Phase
    ensures { result ≡ phase_of policy lost tracks.now }
{
    if has_failed_init(policy, tracks) {
        Phase::Failed
    } else if are_finished(policy, tracks) {
        if are_succeeded(policy, tracks) {
            Phase::Succeeded
        } else {
            Phase::Failed
        }
    } else if lost {
        Phase::Unknown
    } else if is_pending(policy, tracks) {
        Phase::Pending
    } else {
        Phase::Running
    }
}
