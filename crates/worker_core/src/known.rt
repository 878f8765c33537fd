ghost use Rattle.std.specs.Prelude.{◌≡◌, [], length, OnOk, OnErr};
ghost use Rattle.std.specs.String.{string_bytes};
ghost use Rattle.worker_core.specs.Known.{is_known, with_uid};

use manifest::Uid;
use std::alloc::{AllocError, Global};
use std::collections::BTreeSet;
use std::marker::Model;

// The uids that were ever admitted. Contracts see their bytes, in the order of bytes.
#[derive(Drop)]
pub(crate) struct KnownUids {
    texts: BTreeSet<String>,
}

impl Model for KnownUids {
    ghost use Rattle.std.specs.Prelude.{ℕ, List, map};
    ghost use Rattle.std.specs.String.{string_bytes};

    ghost Value = { List (List ℕ) };

    ghost view = { λ u. map string_bytes u.texts.keys };
}

impl KnownUids {
    pub(crate) fn new(alloc: Global) -> KnownUids
        ensures { result ≡ [] }
    {
        KnownUids {
            texts: BTreeSet::new(alloc),
        }
    }

    pub(crate) fn has(&self, uid: &Uid) -> bool
        ensures { result ≡ is_known uid.now self.now }
    {
        self.texts.contains(uid.as_str())
    }

    pub(crate) fn count(&self) -> usize
        ensures { result ≡ length self.now }
    {
        self.texts.len()
    }

    pub(crate) fn add(&mut self, text: String) -> Result<(), AllocError>
        ensures ok { OnOk result (self.new ≡ with_uid (string_bytes text) self.old) }
        ensures err { OnErr result (self.new ≡ self.old) }
    {
        self.texts.insert(text)?;
        Ok(())
    }
}
