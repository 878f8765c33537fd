ghost use Rattle.std.specs.Prelude.{◌≡◌, ◌+◌, ◌^◌, ℕ, false, List, [], ◌∷◌, Some, None, slice_get, length};
ghost use Rattle.std.specs.Prelude.{nat_lt};
ghost use Rattle.std.specs.Option.{is_some};
ghost use Rattle.lifecycle.specs.BackOff.{Run};
ghost use Rattle.lifecycle.specs.declared.policy.RestartPolicy.{RestartPolicy};
ghost use Rattle.lifecycle.specs.declared.track.Stage.TheVariants as stage;
ghost use Rattle.lifecycle.specs.declared.track.Track.{Track};
ghost use Rattle.manifest.specs.declared.containers.Container.{Container};
ghost use Rattle.manifest.specs.declared.pods.Pod.{Pod};
ghost use Rattle.manifest.specs.declared.profiles.SeccompProfile.{SeccompProfile};
ghost use Rattle.cri_msgs.specs.declared.calls.Call.{Call};
ghost use Rattle.cri_msgs.specs.declared.keys.Key.{Key};
ghost use Rattle.worker_pod.specs.declared.settings.Settings.{Settings};
ghost use Rattle.worker_pod.specs.declared.settings.TheConstants.{LAST_ATTEMPT, REST};
ghost use Rattle.worker_pod.specs.declared.container_actions.Pick.{Pick};
ghost use Rattle.worker_pod.specs.declared.container_actions.Work.TheVariants.{Create};
ghost use Rattle.cri_msgs.specs.Calls.{uid_of};
ghost use Rattle.worker_pod.specs.Laws.{AreNumbered, AreOf, Creation, IsNumberedIn, RunReported, WaitedLongest};
ghost use Rattle.worker_pod.specs.Laws.{RunsReported};
ghost use Rattle.worker_pod.specs.Next.{due_of, has_come, next_of};
ghost use Rattle.worker_pod.specs.Past.{Claimed, Kept, Past, held_of, read_off};
ghost use Rattle.worker_pod.specs.ContainerActions.{chosen, step_of};

/// An attempt at a container follows the manifest, and is made once the init containers before it have
/// succeeded; after an attempt that ended, only if another is allowed, and not before its back-off is over.
pub fn creations_follow()
    ensures { (kept : Kept) (now : ℕ) (key : Key) (image : List ℕ) (profile : SeccompProfile)
        → next_of kept now ≡ Some (Call.CreateContainer key image profile)
        → Creation kept now key image profile }
{}

/// Each kept run was reported by a reply to a claim of that container's attempt.
pub fn runs_were_told()
    ensures { (settings : Settings) (pod : Pod) (claims : List Claimed) → AreOf pod.uid claims
        → (at : ℕ) (track : Track) (container : Container)
        → slice_get (read_off pod settings claims).tracks at ≡ Some track
        → slice_get pod.containers.all at ≡ Some container → RunsReported pod.uid claims container.name track }
{}

/// A pod's creations are numbered by the runs of their containers.
pub fn creations_are_numbered()
    ensures { (settings : Settings) (past : Past) (now : ℕ) (call : Call) → AreOf past.pod.uid past.claims
        → AreNumbered settings past.pod past.claims
        → next_of (held_of settings past) now ≡ Some call
        → IsNumberedIn past.pod.containers.all (read_off past.pod settings past.claims).tracks call }
{}

/// If creations are numbered so, the run at each place, from 0, was reported for the attempt of that number.
pub fn runs_are_numbered()
    ensures { (settings : Settings) (pod : Pod) (claims : List Claimed) → AreOf pod.uid claims
        → AreNumbered settings pod claims
        → (at : ℕ) (track : Track) (container : Container)
        → slice_get (read_off pod settings claims).tracks at ≡ Some track
        → slice_get pod.containers.all at ≡ Some container
        → (k : ℕ) (run : Run) → slice_get track.runs k ≡ Some run → RunReported pod.uid claims container.name k run }
{}

/// Each container of the manifest has its track, at its place.
pub fn containers_have_tracks()
    ensures count { (settings : Settings) (pod : Pod) (claims : List Claimed)
        → length (read_off pod settings claims).tracks ≡ length pod.containers.all }
    ensures inits { (settings : Settings) (pod : Pod) (claims : List Claimed) (at : ℕ) (track : Track)
        → slice_get (read_off pod settings claims).tracks at ≡ Some track
        → track.init ≡ nat_lt at pod.containers.inits }
{}

/// After the last attempt at a container there is no other; after the one before it there is.
pub fn attempts_end_at_the_last()
    ensures exited { (policy : RestartPolicy) (poll : ℕ) (track : Track)
        → track.stage ≡ stage.Exited LAST_ATTEMPT → step_of policy poll track ≡ None }
    ensures removed { (policy : RestartPolicy) (poll : ℕ) (track : Track)
        → track.stage ≡ stage.Removed LAST_ATTEMPT → step_of policy poll track ≡ None }
    ensures one_more { (poll worked : ℕ) → step_of RestartPolicy.Always poll (record {
      init = false;
      stage = stage.Removed 4294967294;
      runs = record { started = 0; code = 1; recorded = 5 } ∷ [];
      worked = worked;
    }) ≡ Some (record { from = 15; work = Create LAST_ATTEMPT }) }
{}

/// A request is due exactly from the reported moment.
pub fn due_is_when_next_is()
    ensures { (settings : Settings) (past : Past) (now : ℕ)
        → is_some (next_of (held_of settings past) now) ≡ has_come (due_of (held_of settings past)) now }
{}

/// Of the containers that are due, the one that was worked on longest ago is next.
pub fn longest_waits_first()
    ensures { (policy : RestartPolicy) (poll now : ℕ) (tracks : List Track) (pick : Pick)
        → chosen policy poll now tracks ≡ Some pick → WaitedLongest policy poll now tracks pick }
{}

/// A pod's requests are about the pod.
pub fn calls_are_of_the_pod()
    ensures { (kept : Kept) (now : ℕ) (call : Call) → next_of kept now ≡ Some call
        → uid_of call ≡ kept.pod.uid }
{}

/// The values of this crate's constants.
pub fn constants_are_as_stated()
    // ten seconds
    ensures rest { REST ≡ 10 }
    ensures last_attempt { LAST_ATTEMPT + 1 ≡ 2 ^ 32 }
{}
