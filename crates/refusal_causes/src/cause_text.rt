use std::alloc::{AllocError, Global};
use std::marker::Model;

/// Which file was the cause of a refusal, where in it, and the value there: `script s.json: steps: Missing`.
#[derive(Debug, Drop)]
pub struct CauseText {
    text: String,
}

impl Model for CauseText {
    ghost use Rattle.std.specs.Prelude.{ℕ, List};
    ghost use Rattle.std.specs.String.{string_bytes};

    ghost Value = { List ℕ };

    ghost view = { λ t. string_bytes t.text };
}

impl CauseText {
    ghost use Rattle.std.specs.Prelude.{◌≡◌, IfOk};
    ghost use Rattle.std.specs.String.{string_bytes};

    /// A cause with this text.
    pub fn new(text: String) -> CauseText
        ensures { result ≡ string_bytes text }
    {
        CauseText { text }
    }

    /// The text.
    pub fn as_str(&self) -> &str
        ensures { result.now ≡ self.now }
    {
        self.text.as_str()
    }

    /// A copy of the text.
    pub fn try_clone(&self, alloc: Global) -> Result<CauseText, AllocError>
        ensures { IfOk result (λ copy. copy ≡ self.now) }
    {
        Ok(CauseText {
            text: String::from_str(alloc, self.text.as_str())?,
        })
    }
}
