//! The table that ties a registry, the cells of sandboxes and their callers to one history.
use crate::event::{Event, Seen};
use atomic_table::{Join, Play, Seat, Shared, Split, TableRule};
use creation::FileAnswers;
use cri_msgs::Call;
use manifest::Uid;
use registry::{Cells, Registry};
use std::collections::LinkedList;
use std::marker::{Brand, PhantomData};

/// A node as a type: its own filter, which confines each of its containers, and the table of its history. The
/// maker of a runtime picks it, so that the contents of the runtime's locks have this filter and this table.
pub trait Node {
    ghost use Rattle.std.specs.Prelude.{List, Option};
    ghost use Rattle.bpf_code.specs.declared.insn.Insn.{Insn};
    ghost use Rattle.atomic_table.specs.Seated.{TableId};

    ghost filter: { Option (List Insn) };

    ghost table: { TableId };
}

/// No filter and no table, if none is picked.
impl Node for Brand {
    ghost use Rattle.std.specs.Prelude.{None};
    ghost use Rattle.runtime_history.specs.Agreed.{no_table};

    ghost filter = { None };

    ghost table = { no_table };
}

/// What a token knows: the registry, with the ids of the cells that were started and may still run; the cells
/// of one sandbox; and a prefix of the history. No value of it is made.
pub struct View {
    pub registry: Option<(Registry, LinkedList<u64>)>,
    pub cells: Option<(Uid, Cells)>,
    pub seen: Seen,
}

/// There is one history, and each part of the runtime that it led to is known by at most one token.
pub struct Agreed;

impl TableRule<(), View, Registry> for Agreed {
    ghost use Rattle.std.specs.Prelude.{[]};
    ghost use Rattle.runtime_history.specs.Agreed.{Kept, keeper};

    ghost holds = { λ registry s. Kept registry.baseline s.views };

    ghost first = { λ registry. keeper registry [] };
}

/// One event, and what its token knows after it except for the history. Each call picks it.
pub trait Happens {
    ghost use Rattle.std.specs.Prelude.{List, Option};
    ghost use Rattle.bpf_code.specs.declared.insn.Insn.{Insn};
    ghost use Rattle.runtime_history.specs.declared.event.Event.{Event};
    ghost use Rattle.runtime_history.specs.declared.room.View.{View};

    ghost baseline: { Option (List Insn) };

    ghost event: { Event };

    ghost after: { View };
}

impl Happens for Brand {
    ghost use Rattle.std.specs.Prelude.{None};
    ghost use Rattle.runtime_cell.specs.declared.cell.Did.TheVariants.{Idle};
    ghost use Rattle.runtime_history.specs.declared.event.Event.TheVariants.{Stepped};
    ghost use Rattle.runtime_history.specs.Agreed.{nobody};

    ghost baseline = { None };

    ghost event = { Stepped 0 Idle };

    ghost after = { nobody };
}

/// A call and the results of its files, as a type: both are passed on before the answer is known. Each call
/// picks it.
pub trait Asked {
    ghost use Rattle.cri_msgs.specs.declared.calls.Call.{Call};
    ghost use Rattle.creation.specs.declared.files.FileAnswers.{FileAnswers};

    ghost call: { Call };

    ghost files: { FileAnswers };
}

impl Asked for Brand {
    ghost use Rattle.std.specs.Prelude.{[], None};
    ghost use Rattle.cri_msgs.specs.declared.calls.Call.TheVariants.{ListContainers};

    ghost call = { ListContainers [] };

    ghost files = { record { script = None; profile = None } };
}

/// A step that adds the event to the history.
pub struct Tells<E> {
    event: PhantomData<E>,
}

impl<E: Happens> Play<(), View> for Tells<E> {
    ghost use Rattle.runtime_history.specs.Agreed.{HasAdded};

    ghost then = { λ _ me _ me'. HasAdded E.baseline E.event E.after me me' };
}

/// A step that sees all of the history, and adds nothing to it.
pub struct Sees<B> {
    node: PhantomData<B>,
}

impl<B: Node> Play<(), View> for Sees<B> {
    ghost use Rattle.runtime_history.specs.Agreed.{Looked, MayRunIn};

    ghost then = { λ _ me _ me'. Looked B.filter (MayRunIn me.0.registry) me me' };
}

/// A cell that does not run, by its id. Each call picks it.
pub trait Over {
    ghost use Rattle.std.specs.Prelude.{ℕ};

    ghost id: { ℕ };
}

impl Over for Brand {
    ghost id = { 0 };
}

/// A step that takes the cell out of those that may still run.
pub struct Forgets<E> {
    over: PhantomData<E>,
}

impl<E: Over> Play<(), View> for Forgets<E> {
    ghost use Rattle.std.specs.Prelude.{◌≡◌};
    ghost use Rattle.runtime_history.specs.Agreed.{forgetting, view};

    ghost then = { λ _ me _ me'. me' ≡ (view (forgetting E.id me.0.registry) me.0.cells me.0.seen, me.1) };
}

/// All that a token knows goes to another.
pub struct Whole;

impl Split<View> for Whole {
    ghost use Rattle.runtime_history.specs.Agreed.{nobody};

    ghost left = { λ _. nobody };

    ghost right = { λ v. v };
}

/// The registry's part.
pub struct OfRegistry;

impl Split<View> for OfRegistry {
    ghost use Rattle.runtime_history.specs.Agreed.{without_registry, registry_of};

    ghost left = { without_registry };

    ghost right = { registry_of };
}

impl Join<View> for OfRegistry {
    ghost use Rattle.runtime_history.specs.Agreed.{with_registry, nobody};

    ghost both = { with_registry };

    ghost spent = { nobody };
}

/// The part of a sandbox's cells.
pub struct OfCells;

impl Split<View> for OfCells {
    ghost use Rattle.runtime_history.specs.Agreed.{without_cells, cells_of};

    ghost left = { without_cells };

    ghost right = { cells_of };
}

impl Join<View> for OfCells {
    ghost use Rattle.runtime_history.specs.Agreed.{with_cells, nobody};

    ghost both = { with_cells };

    ghost spent = { nobody };
}

pub type Notes = Shared<(), View, Registry, Agreed>;

/// A token of no bytes: the registry's, that of a sandbox's cells, or a caller's.
pub type Token = Seat<(), View>;
