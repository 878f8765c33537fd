//! Laws of every run of a node, for the crates above.
ghost use Rattle.std.specs.Prelude.{◌≡◌, ◌+◌, ◌^◌, true, false, List, ◌∷◌, length, None, Some};
ghost use Rattle.manifest.specs.declared.pods.Pod.{Pod};
ghost use Rattle.worker_pod.specs.declared.settings.Settings.{Settings};
ghost use Rattle.worker_core.specs.declared.answers.NodeRefusal.{NodeRefusal};
ghost use Rattle.worker_core.specs.declared.limits.TheConstants.{LAST_NUMBER, MAX_PODS, MAX_UIDS};
ghost use Rattle.worker_core.specs.Kept.{KeptNode, grant_of, refusal_of};
ghost use Rattle.worker_core.specs.Known.{is_known};
ghost use Rattle.worker_core.specs.Laws.{IsNodeRun, NodeLaws, NodeLink, NodeLinkLaws};

use worker_pod::{
    calls_are_of_the_pod, containers_have_tracks, creations_are_numbered, creations_follow,
    due_is_when_next_is, runs_are_numbered, runs_were_told,
};

/// In every run a pod is held by at most one worker and a worker holds at most one pod, a uid is admitted
/// once and a number used once, and an attempt at a container follows the manifest, the order of the init
/// containers, and the back-off of a run that was reported.
pub fn every_run()
    ensures run { (settings : Settings) (ls : List NodeLink) → IsNodeRun settings ls → NodeLaws settings ls }
    ensures link { (settings : Settings) (l : NodeLink) (before : List NodeLink)
        → IsNodeRun settings (l ∷ before) → NodeLinkLaws l before }
{
    calls_are_of_the_pod();
    creations_follow();
    due_is_when_next_is();
    runs_were_told();
    creations_are_numbered();
    runs_are_numbered();
    containers_have_tracks();
}

/// Once the maximum number of uids has been admitted, each of them is refused as known, and any other because
/// the node is full, whatever pods are there.
pub fn uids_end()
    ensures known { (kept : KeptNode) (pod : Pod) → length kept.known ≡ MAX_UIDS
        → is_known pod.uid kept.known ≡ true
        → refusal_of kept pod ≡ Some NodeRefusal.KnownUid }
    ensures new { (kept : KeptNode) (pod : Pod) → length kept.known ≡ MAX_UIDS
        → is_known pod.uid kept.known ≡ false
        → refusal_of kept pod ≡ Some NodeRefusal.Full }
{}

/// After the last number no request is given.
pub fn numbers_end()
    ensures { (kept : KeptNode) → kept.number ≡ LAST_NUMBER → grant_of kept ≡ None }
{}

/// The values of this crate's constants.
pub fn constants_are_as_stated()
    ensures pods { MAX_PODS ≡ 110 }
    ensures uids { MAX_UIDS ≡ 65536 }
    ensures last_number { LAST_NUMBER + 1 ≡ 2 ^ 64 }
{}
