//! The file in which an agent keeps the uids of the pods that it has to remove from the runtime. The agent
//! writes it before it admits a pod.
ghost use Rattle.std.specs.Prelude.{◌≡◌, ◌++◌, ◌∷◌, [], IfOk, None, OnErr, OnOk, Option, List, ℕ, ◌<◌};
ghost use Rattle.std.specs.Prelude.{vec_len, vec_capacity};
ghost use Rattle.std.specs.String.{string_bytes};
ghost use Rattle.agent_parts.specs.State.{Stores, lines_of, state_text, with_own};

use manifest::Uid;
use node_io::CausedFault;
use std::alloc::{AllocError, Global};
use std::marker::Model;

/// A store for the text, which is replaced as a whole or not at all.
pub trait Store {
    // The stored text, if it is known.
    ghost stored: { Self → Option (List ℕ) } = { λ _. None };

    /// Replaces the stored text.
    fn put(&mut self, text: &[u8]) -> Result<(), CausedFault>
        ensures put { OnOk result (Stores (stored self.new) text.now) }
        ensures kept { OnErr result (stored self.new ≡ stored self.old) };
}

/// The uids of the pods that may be left in the runtime.
#[derive(Drop)]
pub struct KeptUids {
    alloc: Global,
    // Those of a former start.
    former: Vec<Uid>,
    // Those that were admitted since.
    own: Vec<Uid>,
}

impl Model for KeptUids {
    ghost use Rattle.agent_parts.specs.State.{Kept};

    ghost Value = { Kept };

    ghost view = { λ k. record { former = k.former.items; own = k.own.items } };
}

// Adds a line for each uid.
fn add_lines(text: &mut String, uids: &[Uid]) -> Result<(), AllocError>
    ensures { OnOk result (string_bytes text.new ≡ string_bytes text.old ++ lines_of uids.now) }
{
    for uid in uids {
        text.push_str(uid.as_str())?;
        text.push_str("\n")?;
    }
    Ok(())
}

// The text of these uids.
fn text_of(alloc: Global, former: &[Uid], own: &[Uid]) -> Result<String, AllocError>
    ensures { IfOk result (λ text. string_bytes text ≡ lines_of former.now ++ lines_of own.now) }
{
    let mut text = String::new(alloc);
    add_lines(&mut text, former)?;
    add_lines(&mut text, own)?;
    Ok(text)
}

impl KeptUids {
    /// The uids that a former start left.
    pub fn new(alloc: Global, former: Vec<Uid>) -> KeptUids
        ensures { result ≡ record { former = former.items; own = [] } }
    {
        KeptUids {
            alloc,
            former,
            own: Vec::new(alloc),
        }
    }

    /// The uids that a former start left.
    pub fn former(&self) -> &[Uid]
        ensures { result.now ≡ self.now.former }
    {
        self.former.as_slice()
    }

    /// Keeps the uid of a pod that is about to be admitted. If the text can't be kept, nothing changes, and
    /// the pod must not be admitted.
    pub fn keep<S: Store>(&mut self, store: &mut S, uid: &Uid) -> Result<(), CausedFault>
        ensures kept { OnOk result (self.new ≡ with_own self.old uid.now) }
        ensures stored { OnOk result (Stores (S.stored store.new) (state_text self.new)) }
        ensures err { OnErr result (self.new ≡ self.old) }
        ensures unstored { OnErr result (S.stored store.new ≡ S.stored store.old) }
    {
        let mut text = text_of(self.alloc, &self.former, &self.own)?;
        text.push_str(uid.as_str())?;
        text.push_str("\n")?;
        let copy = uid.try_clone(self.alloc)?;
        self.own.reserve(1)?;
        store.put(text.as_bytes())?;
        push(&mut self.own, copy);
        Ok(())
    }

    /// Forgets the pod of a former start that was removed, and the pods that are gone, and keeps the others.
    /// If the text can't be kept, nothing changes.
    pub fn forget<S: Store>(
        &mut self,
        store: &mut S,
        former: Vec<Uid>,
        own: Vec<Uid>,
    ) -> Result<(), CausedFault>
        ensures kept { OnOk result (self.new ≡ record { former = former.items; own = own.items }) }
        ensures stored { OnOk result (Stores (S.stored store.new) (state_text self.new)) }
        ensures err { OnErr result (self.new ≡ self.old) }
        ensures unstored { OnErr result (S.stored store.new ≡ S.stored store.old) }
    {
        let text = text_of(self.alloc, &former, &own)?;
        store.put(text.as_bytes())?;
        self.former = former;
        self.own = own;
        Ok(())
    }

    /// The uids of the pods that were admitted.
    pub fn own(&self) -> &[Uid]
        ensures { result.now ≡ self.now.own }
    {
        self.own.as_slice()
    }
}

// Appends the uid, for which there is room.
fn push(uids: &mut Vec<Uid>, uid: Uid)
    requires { vec_len uids.old < vec_capacity uids.old }
    ensures { uids.new.items ≡ uids.old.items ++ uid ∷ [] }
{
    let pushed = uids.push(uid);
    let added = pushed.is_ok();
    prove!(added);
    drop(pushed);
}
