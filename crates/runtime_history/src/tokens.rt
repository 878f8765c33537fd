//! Steps of tokens: the lent parts, the additions to the history, and the returned parts.
ghost use Rattle.std.specs.Prelude.{◌≡◌, ◌<◌, ℕ, [], List, map, Some, None};
ghost use Rattle.runtime_cell.specs.Cell.{Cell};
ghost use Rattle.cri_msgs.specs.Calls.{uid_of};
ghost use Rattle.registry.specs.declared.registry.Registry.{Registry};
ghost use Rattle.registry.specs.declared.stage.Stage.TheVariants.{Unknown};
ghost use Rattle.registry.specs.Kept.{MayStepIn};
ghost use Rattle.registry.specs.Runtime.{id_of};
ghost use Rattle.registry.specs.Serves.{TellsCells};
ghost use Rattle.registry.specs.Stands.{stages_in};
ghost use Rattle.runtime_core.specs.Stands.{LendsTo};
ghost use Rattle.runtime_history.specs.declared.event.Event.TheVariants.{Served, Stepped};
ghost use Rattle.runtime_history.specs.History.{unseen};
ghost use Rattle.runtime_history.specs.Sandboxes.{IsLive, started_by};
ghost use Rattle.runtime_history.specs.Agreed.{IsOver, Looked, MayRunIn, HasAdded, cells_of, forgetting, nobody};
ghost use Rattle.runtime_history.specs.Agreed.{registry_of, started_in, uid_by, view, with_cells};
ghost use Rattle.runtime_history.specs.Agreed.{with_registry, with_started, without_cells};
ghost use Rattle.runtime_history.specs.Agreed.{without_registry};

use crate::room::{
    Asked, Forgets, Happens, Node, Notes, OfCells, OfRegistry, Over, Sees, Tells, Token, Whole,
};
use cri_msgs::Answer;
use registry::{Cells, Registry};
use runtime_cell::Did;

/// Lends the registry's part to a caller's token.
#[tactic(auto, using(crate::proofs::Moves::whole_splits, crate::proofs::Moves::registry_joins))]
pub(crate) fn lend_registry(notes: &Notes, me: &mut Token, from: &mut Token)
    requires table { 0 < notes.now.table_id.words }
    requires me { me.old.table_id ≡ notes.now.table_id }
    requires from { (from.old.table_id ≡ notes.now.table_id) × (from.old.me.1 ≡ []) }
    ensures me { (me.new.table_id ≡ me.old.table_id)
        × (me.new.me ≡ (with_registry me.old.me.0 from.old.me.0, me.old.me.1)) }
    ensures from { (from.new.table_id ≡ from.old.table_id) × (from.new.me ≡ (nobody, from.old.me.1)) }
{
    let part = notes.split_seat::<Whole>(from);
    notes.join_seat::<OfRegistry>(me, part);
}

/// Lends the part of a sandbox's cells to a caller's token.
#[tactic(auto, using(crate::proofs::Moves::whole_splits, crate::proofs::Moves::cells_join))]
pub(crate) fn lend_cells(notes: &Notes, me: &mut Token, from: &mut Token)
    requires table { 0 < notes.now.table_id.words }
    requires me { me.old.table_id ≡ notes.now.table_id }
    requires from { (from.old.table_id ≡ notes.now.table_id) × (from.old.me.1 ≡ []) }
    ensures me { (me.new.table_id ≡ me.old.table_id)
        × (me.new.me ≡ (with_cells me.old.me.0 from.old.me.0, me.old.me.1)) }
    ensures from { (from.new.table_id ≡ from.old.table_id) × (from.new.me ≡ (nobody, from.old.me.1)) }
{
    let part = notes.split_seat::<Whole>(from);
    notes.join_seat::<OfCells>(me, part);
}

/// The registry's part of a caller's token, as a token of its own.
#[tactic(auto, using(crate::proofs::Moves::registry_splits))]
pub(crate) fn registry_part(notes: &Notes, me: &mut Token) -> Token
    requires table { 0 < notes.now.table_id.words }
    requires me { me.old.table_id ≡ notes.now.table_id }
    ensures me { (me.new.table_id ≡ me.old.table_id)
        × (me.new.me ≡ (without_registry me.old.me.0, me.old.me.1)) }
    ensures part { (result.table_id ≡ me.old.table_id) × (result.me ≡ (registry_of me.old.me.0, [])) }
{
    notes.split_seat::<OfRegistry>(me)
}

/// The part of a sandbox's cells of a caller's token, as a token of its own.
#[tactic(auto, using(crate::proofs::Moves::cells_split))]
pub(crate) fn cells_part(notes: &Notes, me: &mut Token) -> Token
    requires table { 0 < notes.now.table_id.words }
    requires me { me.old.table_id ≡ notes.now.table_id }
    ensures me { (me.new.table_id ≡ me.old.table_id)
        × (me.new.me ≡ (without_cells me.old.me.0, me.old.me.1)) }
    ensures part { (result.table_id ≡ me.old.table_id) × (result.me ≡ (cells_of me.old.me.0, [])) }
{
    notes.split_seat::<OfCells>(me)
}

/// Adds that a request was served with the cells of its sandbox, and which of them it started.
pub(crate) fn note_served<E: Happens, Q: Asked>(
    notes: &Notes,
    me: &mut Token,
    registry: &Registry,
    started: Option<u64>,
    cells: &Cells,
    answer: &Answer,
)
    requires event { (E.baseline ≡ notes.now.key.baseline) × (E.event ≡ Served Q.call Q.files answer.now)
        × (E.after ≡ view (Some (registry.now, with_started started (started_in me.old.me.0.registry)))
        (Some (uid_of Q.call, cells.now)) unseen) }
    requires table { 0 < notes.now.table_id.words }
    requires me { me.old.table_id ≡ notes.now.table_id }
    requires lent { (old : Registry) × (ids : List ℕ) × (before : List Cell)
        × (me.old.me ≡ (view (Some (old, ids)) (Some (uid_of Q.call, before)) me.old.me.0.seen, []))
        × LendsTo old registry.now Q.call Q.files answer.now before cells.now
        × (started ≡ started_by Q.call answer.now before) }
    ensures table { me.new.table_id ≡ me.old.table_id }
    ensures told { HasAdded notes.now.key.baseline (Served Q.call Q.files answer.now)
        (view (Some (registry.now, with_started started (started_in me.old.me.0.registry)))
        (Some (uid_of Q.call, cells.now)) unseen) me.old.me me.new.me }
{
    notes.load::<Tells<E>>(me, 0);
}

/// Adds that a request was served that names no existing sandbox.
pub(crate) fn note_absent<E: Happens, Q: Asked>(
    notes: &Notes,
    me: &mut Token,
    registry: &Registry,
    answer: &Answer,
)
    requires event { (E.baseline ≡ notes.now.key.baseline) × (E.event ≡ Served Q.call Q.files answer.now)
        × (E.after ≡ view (Some (registry.now, started_in me.old.me.0.registry)) None unseen) }
    requires table { 0 < notes.now.table_id.words }
    requires me { me.old.table_id ≡ notes.now.table_id }
    requires lent { (old : Registry) × (ids : List ℕ) × (behind : List Cell)
        × (me.old.me ≡ (view (Some (old, ids)) None me.old.me.0.seen, []))
        × LendsTo old registry.now Q.call Q.files answer.now [] behind
        × (IsLive (stages_in old (uid_of Q.call)) → ⊥)
        × (IsLive (stages_in registry.now (uid_of Q.call)) → ⊥) }
    ensures table { me.new.table_id ≡ me.old.table_id }
    ensures told { HasAdded notes.now.key.baseline (Served Q.call Q.files answer.now)
        (view (Some (registry.now, started_in me.old.me.0.registry)) None unseen) me.old.me me.new.me }
{
    notes.load::<Tells<E>>(me, 0);
}

/// Adds that a request was served that made its sandbox. The caller's token then has the part of its cells.
pub(crate) fn note_new<E: Happens, Q: Asked>(
    notes: &Notes,
    me: &mut Token,
    registry: &Registry,
    cells: &Cells,
    answer: &Answer,
)
    requires event { (E.baseline ≡ notes.now.key.baseline) × (E.event ≡ Served Q.call Q.files answer.now)
        × (E.after ≡ view (Some (registry.now, started_in me.old.me.0.registry))
        (Some (uid_of Q.call, cells.now)) unseen) }
    requires table { 0 < notes.now.table_id.words }
    requires me { me.old.table_id ≡ notes.now.table_id }
    requires lent { (old : Registry) × (ids : List ℕ)
        × (me.old.me ≡ (view (Some (old, ids)) None me.old.me.0.seen, []))
        × LendsTo old registry.now Q.call Q.files answer.now [] cells.now
        × (stages_in old (uid_of Q.call) ≡ Unknown)
        × IsLive (stages_in registry.now (uid_of Q.call)) }
    ensures table { me.new.table_id ≡ me.old.table_id }
    ensures told { HasAdded notes.now.key.baseline (Served Q.call Q.files answer.now)
        (view (Some (registry.now, started_in me.old.me.0.registry)) (Some (uid_of Q.call, cells.now)) unseen)
        me.old.me me.new.me }
{
    notes.load::<Tells<E>>(me, 0);
}

/// Adds that the cells of a sandbox were listed.
pub(crate) fn note_told<E: Happens, Q: Asked>(
    notes: &Notes,
    me: &mut Token,
    cells: &Cells,
    answer: &Answer,
)
    requires event { (E.baseline ≡ notes.now.key.baseline) × (E.event ≡ Served Q.call Q.files answer.now)
        × (E.after ≡ view None (Some (uid_of Q.call, cells.now)) unseen) }
    requires table { 0 < notes.now.table_id.words }
    requires me { (me.old.table_id ≡ notes.now.table_id)
        × (me.old.me ≡ (view None (Some (uid_of Q.call, cells.now)) me.old.me.0.seen, [])) }
    requires told { TellsCells Q.call cells.now answer.now }
    ensures table { me.new.table_id ≡ me.old.table_id }
    ensures told { HasAdded notes.now.key.baseline (Served Q.call Q.files answer.now)
        (view None (Some (uid_of Q.call, cells.now)) unseen) me.old.me me.new.me }
{
    notes.load::<Tells<E>>(me, 0);
}

/// Adds that the cell with this id did a step.
pub(crate) fn note_stepped<E: Happens>(
    notes: &Notes,
    me: &mut Token,
    id: u64,
    did: Did,
    cells: &Cells,
)
    requires event { (E.baseline ≡ notes.now.key.baseline) × (E.event ≡ Stepped id did)
        × (E.after ≡ view None (Some (uid_by me.old.me.0.cells, cells.now)) unseen) }
    requires table { 0 < notes.now.table_id.words }
    requires me { me.old.table_id ≡ notes.now.table_id }
    requires lent { (before : List Cell)
        × (me.old.me ≡ (view None (Some (uid_by me.old.me.0.cells, before)) me.old.me.0.seen, []))
        × MayStepIn before id (Some did) cells.now × (map id_of cells.now ≡ map id_of before) }
    ensures table { me.new.table_id ≡ me.old.table_id }
    ensures told { HasAdded notes.now.key.baseline (Stepped id did)
        (view None (Some (uid_by me.old.me.0.cells, cells.now)) unseen) me.old.me me.new.me }
{
    notes.load::<Tells<E>>(me, 0);
}

/// Sees all of the history, as the owner of the registry's part.
pub(crate) fn see<B: Node>(notes: &Notes, me: &mut Token)
    requires baseline { B.filter ≡ notes.now.key.baseline }
    requires table { 0 < notes.now.table_id.words }
    requires me { me.old.table_id ≡ notes.now.table_id }
    requires lent { (old : Registry) × (ids : List ℕ)
        × (me.old.me ≡ (view (Some (old, ids)) None me.old.me.0.seen, [])) }
    ensures table { me.new.table_id ≡ me.old.table_id }
    ensures looked { Looked B.filter (MayRunIn me.old.me.0.registry) me.old.me me.new.me }
{
    notes.load::<Sees<B>>(me, 0);
}

/// Takes a cell out of those that may still run, as the owner of the registry's part and that of its sandbox.
pub(crate) fn forget<E: Over>(
    notes: &Notes,
    me: &mut Token,
    registry: &Registry,
    cells: &Cells,
    id: u64,
)
    requires id { E.id ≡ id }
    requires table { 0 < notes.now.table_id.words }
    requires me { me.old.table_id ≡ notes.now.table_id }
    requires lent { (uid : List ℕ) × (ids : List ℕ)
        × (me.old.me ≡ (view (Some (registry.now, ids)) (Some (uid, cells.now)) me.old.me.0.seen, []))
        × IsOver registry.now uid cells.now id }
    ensures table { me.new.table_id ≡ me.old.table_id }
    ensures forgets { me.new.me ≡ (
      view (forgetting id me.old.me.0.registry) me.old.me.0.cells
          me.old.me.0.seen,
      me.old.me.1,
    ) }
{
    notes.load::<Forgets<E>>(me, 0);
}
