//! Laws of every history of a book, for the crates above.
ghost use Rattle.std.specs.Prelude.{◌≡◌, List};
ghost use Rattle.worker_pod.specs.declared.settings.Settings.{Settings};
ghost use Rattle.worker_core.specs.Laws.{IsNodeRun};
ghost use Rattle.node_lock.specs.declared.entries.Entry.{Entry};
ghost use Rattle.node_lock.specs.declared.limits.TheConstants.{MAX_ENTRIES, PARTS};
ghost use Rattle.node_lock.specs.Histories.{IsLegal, IsRunOf};

/// A legal history is a run of the node, so the laws of every run apply to it.
pub fn histories_are_runs()
    ensures { (settings : Settings) (history : List Entry) → IsLegal settings history
        → IsRunOf settings history }
{}

/// The values of this crate's constants.
pub fn constants_are_as_stated()
    ensures entries { MAX_ENTRIES ≡ 1048576 }
    ensures parts { PARTS ≡ 65 }
{}
