ghost use Rattle.std.specs.Prelude.{◌≡◌, IfOk, Some, None, Ok, IsTrue, false, nat_eq, if◌then◌else◌};
ghost use Rattle.std.specs.Cmp.{partial_equiv_from_equiv};
ghost use Rattle.std.specs.Cmp.Lexicographic.{pointwise, nat_list_eq_equiv};
ghost use Rattle.manifest.specs.Texts as rule;

use crate::rules::is_pod_name;
use std::alloc::{AllocError, Global};
use std::marker::Model;

/// The name of a pod: 1 to 253 bytes, each a lower-case letter, a digit, `-` or `.`, the first and the last
/// a letter or a digit. Contracts see its bytes.
#[derive(Debug, Drop)]
pub struct PodName {
    text: String,
}

impl Model for PodName {
    ghost use Rattle.std.specs.Prelude.{ℕ, List, IsTrue};
    ghost use Rattle.std.specs.String.{string_bytes};
    ghost use Rattle.manifest.specs.Texts.{is_pod_name};

    ghost Value = { List ℕ };

    ghost view = { λ t. string_bytes t.text };

    ghost invariant = { λ t. IsTrue (is_pod_name (string_bytes t.text)) };
}

impl PodName {
    /// The name with this text, if the text is valid.
    pub fn new(alloc: Global, text: &str) -> Result<Option<PodName>, AllocError>
        ensures value { IfOk result (λ name.
            name ≡ (if rule.is_pod_name text.now then Some text.now else None)) }

        // An invalid text is reported even if memory runs out.
        ensures told { rule.is_pod_name text.now ≡ false → result ≡ Ok None }
    {
        if is_pod_name(text) {
            Ok(Some(PodName::copied(alloc, text)?))
        } else {
            Ok(None)
        }
    }

    pub(crate) fn copied(alloc: Global, text: &str) -> Result<PodName, AllocError>
        requires { IsTrue (rule.is_pod_name text.now) }
        ensures { IfOk result (λ name. name ≡ text.now) }
    {
        let text = String::from_str(alloc, text)?;
        Ok(PodName { text })
    }

    /// The text.
    pub fn as_str(&self) -> &str
        ensures value { result.now ≡ self.now }
        ensures fit { IsTrue (rule.is_pod_name self.now) }
    {
        self.text.as_str()
    }

    /// A copy of the name.
    pub fn try_clone(&self, alloc: Global) -> Result<PodName, AllocError>
        ensures { IfOk result (λ name. name ≡ self.now) }
    {
        PodName::copied(alloc, self.as_str())
    }
}

impl PartialEq for PodName {
    ghost eq = { pointwise nat_eq };

    ghost laws = { partial_equiv_from_equiv nat_list_eq_equiv };

    fn eq(&self, other: &PodName) -> bool {
        self.text == other.text
    }
}

impl Eq for PodName {
    ghost laws = { nat_list_eq_equiv };
}
