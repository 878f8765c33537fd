//! Laws of every run of the world.
ghost use Rattle.std.specs.Prelude.{List, ◌∷◌, Option};
ghost use Rattle.bpf_code.specs.declared.insn.Insn.{Insn};
ghost use Rattle.worker_pod.specs.declared.settings.Settings.{Settings};
ghost use Rattle.world.specs.Laws.{WorldLaws, WorldLinkLaws};
ghost use Rattle.world.specs.World.{IsWorldRun, WorldLink};

/// The laws of every run of the world: for all that happened, and for each link given those before it.
///
/// A container's call is performed exactly when a step attempts it and the filters installed at its start,
/// and those that it added before, together allow it. The filters of its start are the node's own and that of
/// the profile which is chosen by the manifest admitted under its uid.
pub fn every_run()
    ensures run { (settings : Settings) (baseline : Option (List Insn)) (ls : List WorldLink)
        → IsWorldRun settings baseline ls → WorldLaws settings baseline ls }
    ensures link { (settings : Settings) (baseline : Option (List Insn)) (l : WorldLink)
        (before : List WorldLink)
        → IsWorldRun settings baseline (l ∷ before) → WorldLinkLaws l before }
{
    runtime_laws::every_run();
    worker_core::laws::every_run();
}
