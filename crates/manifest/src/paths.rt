ghost use Rattle.std.specs.Prelude.{◌≡◌, IfOk, Some, None, Ok, IsTrue, false, nat_eq, if◌then◌else◌};
ghost use Rattle.std.specs.Cmp.{partial_equiv_from_equiv};
ghost use Rattle.std.specs.Cmp.Lexicographic.{pointwise, nat_list_eq_equiv};
ghost use Rattle.manifest.specs.Texts as rule;

use crate::rules::is_descending;
use std::alloc::{AllocError, Global};
use std::marker::Model;

/// A path that stays below the folder that it is relative to: 1 to 1,024 bytes of UTF-8, none of them zero,
/// which do not begin with `/` and have no part `..` between slashes. Contracts see its bytes.
#[derive(Debug, Drop)]
pub struct DescendingPath {
    text: String,
}

impl Model for DescendingPath {
    ghost use Rattle.std.specs.Prelude.{ℕ, List, IsTrue};
    ghost use Rattle.std.specs.String.{string_bytes};
    ghost use Rattle.manifest.specs.Texts.{is_descending};

    ghost Value = { List ℕ };

    ghost view = { λ t. string_bytes t.text };

    ghost invariant = { λ t. IsTrue (is_descending (string_bytes t.text)) };
}

impl DescendingPath {
    /// The path with this text, if the text is valid.
    pub fn new(alloc: Global, text: &str) -> Result<Option<DescendingPath>, AllocError>
        ensures value { IfOk result (λ path.
            path ≡ (if rule.is_descending text.now then Some text.now else None)) }

        // An invalid text is reported even if memory runs out.
        ensures told { rule.is_descending text.now ≡ false → result ≡ Ok None }
    {
        if is_descending(text) {
            Ok(Some(DescendingPath::copied(alloc, text)?))
        } else {
            Ok(None)
        }
    }

    pub(crate) fn copied(alloc: Global, text: &str) -> Result<DescendingPath, AllocError>
        requires { IsTrue (rule.is_descending text.now) }
        ensures { IfOk result (λ path. path ≡ text.now) }
    {
        let text = String::from_str(alloc, text)?;
        Ok(DescendingPath { text })
    }

    /// The text.
    pub fn as_str(&self) -> &str
        ensures value { result.now ≡ self.now }
        ensures fit { IsTrue (rule.is_descending self.now) }
    {
        self.text.as_str()
    }

    /// A copy of the path.
    pub fn try_clone(&self, alloc: Global) -> Result<DescendingPath, AllocError>
        ensures { IfOk result (λ path. path ≡ self.now) }
    {
        DescendingPath::copied(alloc, self.as_str())
    }
}

impl PartialEq for DescendingPath {
    ghost eq = { pointwise nat_eq };

    ghost laws = { partial_equiv_from_equiv nat_list_eq_equiv };

    fn eq(&self, other: &DescendingPath) -> bool {
        self.text == other.text
    }
}

impl Eq for DescendingPath {
    ghost laws = { nat_list_eq_equiv };
}
