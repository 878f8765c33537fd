ghost use Rattle.std.specs.Prelude.{◌≡◌};

use std::marker::Model;

/// Texts in order. Contracts see their bytes.
#[derive(Drop)]
pub struct Texts {
    texts: Vec<String>,
}

impl Model for Texts {
    ghost use Rattle.std.specs.Prelude.{ℕ, List, map, string_bytes};

    ghost Value = { List (List ℕ) };

    ghost view = { λ t. map string_bytes t.texts.items };
}

impl Texts {
    ghost use Rattle.std.specs.Prelude.{◌≡◌, map, string_bytes};

    /// The texts of this list, in order.
    pub fn new(texts: Vec<String>) -> Texts
        ensures { result ≡ map string_bytes texts.items }
    {
        Texts { texts }
    }

    /// The texts in order.
    pub fn as_slice(&self) -> &[String]
        ensures { map string_bytes result.now ≡ self.now }
    {
        self.texts.as_slice()
    }
}
