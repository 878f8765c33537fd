ghost use Rattle.std.specs.Prelude.{◌≡◌, IfOk, Some, None, Ok, IsTrue, false, nat_eq, if◌then◌else◌};
ghost use Rattle.std.specs.Cmp.{partial_equiv_from_equiv};
ghost use Rattle.std.specs.Cmp.Lexicographic.{pointwise, nat_list_eq_equiv};
ghost use Rattle.std.specs.String.{string_bytes};
ghost use Rattle.manifest.specs.Texts as rule;

use crate::rules::is_uid;
use std::alloc::{AllocError, Global};
use std::marker::Model;

/// The uid of a pod: 1 to 317 bytes, each a letter, a digit, `-` or `.`. Contracts see its bytes.
#[derive(Debug, Drop)]
pub struct Uid {
    text: String,
}

impl Model for Uid {
    ghost use Rattle.std.specs.Prelude.{ℕ, List, IsTrue};
    ghost use Rattle.std.specs.String.{string_bytes};
    ghost use Rattle.manifest.specs.Texts.{is_uid};

    ghost Value = { List ℕ };

    ghost view = { λ t. string_bytes t.text };

    ghost invariant = { λ t. IsTrue (is_uid (string_bytes t.text)) };
}

impl Uid {
    /// The uid with this text, if the text is valid.
    pub fn new(alloc: Global, text: &str) -> Result<Option<Uid>, AllocError>
        ensures value { IfOk result (λ uid. uid ≡ (if rule.is_uid text.now then Some text.now else None)) }

        // An invalid text is reported even if memory runs out.
        ensures told { rule.is_uid text.now ≡ false → result ≡ Ok None }
    {
        if is_uid(text) {
            Ok(Some(Uid::copied(alloc, text)?))
        } else {
            Ok(None)
        }
    }

    pub(crate) fn copied(alloc: Global, text: &str) -> Result<Uid, AllocError>
        requires { IsTrue (rule.is_uid text.now) }
        ensures { IfOk result (λ uid. uid ≡ text.now) }
    {
        Ok(Uid::owned(String::from_str(alloc, text)?))
    }

    pub(crate) fn owned(text: String) -> Uid
        requires { IsTrue (rule.is_uid (string_bytes text)) }
        ensures { result ≡ string_bytes text }
    {
        Uid { text }
    }

    /// The text.
    pub fn as_str(&self) -> &str
        ensures value { result.now ≡ self.now }
        ensures fit { IsTrue (rule.is_uid self.now) }
    {
        self.text.as_str()
    }

    /// A copy of the uid.
    pub fn try_clone(&self, alloc: Global) -> Result<Uid, AllocError>
        ensures { IfOk result (λ uid. uid ≡ self.now) }
    {
        Uid::copied(alloc, self.as_str())
    }
}

impl PartialEq for Uid {
    ghost eq = { pointwise nat_eq };

    ghost laws = { partial_equiv_from_equiv nat_list_eq_equiv };

    fn eq(&self, other: &Uid) -> bool {
        self.text == other.text
    }
}

impl Eq for Uid {
    ghost laws = { nat_list_eq_equiv };
}
