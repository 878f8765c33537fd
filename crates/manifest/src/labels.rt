ghost use Rattle.std.specs.Prelude.{◌≡◌, IfOk, Some, None, Ok, IsTrue, false, nat_eq, if◌then◌else◌};
ghost use Rattle.std.specs.Cmp.{partial_equiv_from_equiv};
ghost use Rattle.std.specs.Cmp.Lexicographic.{pointwise, nat_list_eq_equiv};
ghost use Rattle.manifest.specs.Texts as rule;

use crate::rules::is_label;
use std::alloc::{AllocError, Global};
use std::marker::Model;

/// The name of a namespace or of a container, an RFC 1123 label: 1 to 63 bytes, each a lower-case letter, a
/// digit or `-`, the first and the last a letter or a digit. Contracts see its bytes.
#[derive(Debug, Drop)]
pub struct Label {
    text: String,
}

impl Model for Label {
    ghost use Rattle.std.specs.Prelude.{ℕ, List, IsTrue};
    ghost use Rattle.std.specs.String.{string_bytes};
    ghost use Rattle.manifest.specs.Texts.{is_label};

    ghost Value = { List ℕ };

    ghost view = { λ t. string_bytes t.text };

    ghost invariant = { λ t. IsTrue (is_label (string_bytes t.text)) };
}

impl Label {
    /// The label with this text, if the text is valid.
    pub fn new(alloc: Global, text: &str) -> Result<Option<Label>, AllocError>
        ensures value { IfOk result (λ label.
            label ≡ (if rule.is_label text.now then Some text.now else None)) }

        // An invalid text is reported even if memory runs out.
        ensures told { rule.is_label text.now ≡ false → result ≡ Ok None }
    {
        if is_label(text) {
            Ok(Some(Label::copied(alloc, text)?))
        } else {
            Ok(None)
        }
    }

    pub(crate) fn copied(alloc: Global, text: &str) -> Result<Label, AllocError>
        requires { IsTrue (rule.is_label text.now) }
        ensures { IfOk result (λ label. label ≡ text.now) }
    {
        let text = String::from_str(alloc, text)?;
        Ok(Label { text })
    }

    /// The text.
    pub fn as_str(&self) -> &str
        ensures value { result.now ≡ self.now }
        ensures fit { IsTrue (rule.is_label self.now) }
    {
        self.text.as_str()
    }

    /// A copy of the label.
    pub fn try_clone(&self, alloc: Global) -> Result<Label, AllocError>
        ensures { IfOk result (λ label. label ≡ self.now) }
    {
        Label::copied(alloc, self.as_str())
    }
}

impl PartialEq for Label {
    ghost eq = { pointwise nat_eq };

    ghost laws = { partial_equiv_from_equiv nat_list_eq_equiv };

    fn eq(&self, other: &Label) -> bool {
        self.text == other.text
    }
}

impl Eq for Label {
    ghost laws = { nat_list_eq_equiv };
}
