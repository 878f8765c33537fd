//! The beginning of a runtime, and the maker of its callers. `Comes` is named in this file alone, so nobody
//! else makes callers.
ghost use Rattle.std.specs.Prelude.{◌≡◌, ◌<◌, ℕ, List, [], IfOk};
ghost use Rattle.atomic_table.specs.Seated.{TableId};
ghost use Rattle.registry.specs.declared.stage.Stage.TheVariants.{Unknown};
ghost use Rattle.registry.specs.Stands.{stages_in};
ghost use Rattle.runtime_history.specs.History.{unseen};

use crate::parts::{Client, History, Registered};
use crate::room::{Agreed, Node, Token, View};
use atomic_table::{Play, Table};
use bpf_verify::Filter;
use registry::Registry;
use std::alloc::{AllocError, Global};
use std::marker::{Model, PhantomData};

/// A runtime that has served nothing, on a node with a filter of its own. Contracts see the filter, and the
/// table of the history.
#[derive(Drop)]
pub struct Begun {
    table: Table<(), View, Registry, Agreed, Global>,
    token: Token,
    registry: Registry,
}

impl Model for Begun {
    ghost use Rattle.std.specs.Prelude.{◌≡◌, ◌<◌, ℕ, List, [], Option};
    ghost use Rattle.atomic_table.specs.Seated.{TableId};
    ghost use Rattle.bpf_code.specs.declared.insn.Insn.{Insn};
    ghost use Rattle.registry.specs.declared.stage.Stage.TheVariants.{Unknown};
    ghost use Rattle.registry.specs.Stands.{stages_in};
    ghost use Rattle.runtime_history.specs.Agreed.{keeper};

    ghost Value = { Option (List Insn) × TableId };

    ghost view = { λ b. (b.table.shared.key.baseline, b.table.shared.table_id) };

    ghost invariant = { λ b. (b.token.table_id ≡ b.table.shared.table_id)
        × (b.token.me ≡ (keeper b.registry [], [])) × (0 < b.table.shared.table_id.words)
        × (b.registry.baseline ≡ b.table.shared.key.baseline)
        × ((uid : List ℕ) → stages_in b.registry uid ≡ Unknown) };
}

/// Makes the callers of a runtime. There is one for each runtime, and only a holder of a reference to it can
/// make a caller: a served request, or a step, has only its own caller.
#[derive(Drop)]
pub struct Callers<B: Node> {
    node: PhantomData<B>,
}

/// A step that adds a new caller, who has seen nothing.
struct Comes;

impl Play<(), View> for Comes {
    ghost use Rattle.std.specs.Prelude.{◌≡◌};
    ghost use Rattle.runtime_history.specs.Agreed.{nobody};

    ghost then = { λ _ _ _ me'. me'.0 ≡ nobody };
}

impl Begun {
    /// A runtime of a node with this filter. RuntimeDefault is compiled once.
    pub fn new(alloc: Global, baseline: Option<Filter>) -> Result<Begun, AllocError>
        ensures { IfOk result (λ begun. begun.0 ≡ baseline) }
    {
        let mut registry = Registry::new(alloc, baseline);
        registry.make_ready();
        let (table, token) = Table::of_words(alloc, &[0], &registry)?;
        Ok(Begun {
            table,
            token,
            registry,
        })
    }

    /// The history, the contents of the registry's lock, and the maker of callers.
    pub fn of_node<B: Node>(self) -> (History<B>, Registered<B>, Callers<B>)
        requires { self ≡ (B.filter, B.table) }
        ensures stages { (uid : List ℕ) → stages_in result.1.0 uid ≡ Unknown }
        ensures started { result.1.1 ≡ [] }
    {
        let Begun {
            table,
            token,
            registry,
        } = self;
        let history = History {
            table,
            node: PhantomData,
        };
        let registered = Registered {
            token,
            registry,
            node: PhantomData,
        };
        (history, registered, Callers { node: PhantomData })
    }
}

impl<B: Node> Callers<B> {
    /// A caller that has seen nothing.
    #[tactic(auto, using(crate::proofs::Moves::comes))]
    pub fn client(&self, history: &History<B>) -> Client<B>
        ensures { result ≡ unseen }
    {
        let (_, token) = history.notes().load_new_seat::<Comes>(0);
        Client {
            token,
            node: PhantomData,
        }
    }
}
