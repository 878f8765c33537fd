ghost use Rattle.std.specs.Prelude.{◌≡◌, string_bytes};

use std::marker::Model;

/// A text of a label.
#[derive(Drop)]
pub struct Text {
    text: String,
}

impl Model for Text {
    ghost use Rattle.std.specs.Prelude.{ℕ, List, string_bytes};

    ghost Value = { List ℕ };

    ghost view = { λ t. string_bytes t.text };
}

impl Text {
    /// The text of a string.
    pub fn new(text: String) -> Text
        ensures { result ≡ string_bytes text }
    {
        Text { text }
    }

    /// The text.
    pub fn as_str(&self) -> &str
        ensures { result.now ≡ self.now }
    {
        self.text.as_str()
    }
}

/// The container of a cell.
#[derive(Drop)]
pub struct Label {
    /// The container's id, from 1 in order of creation. 0 means none.
    pub id: u64,
    pub name: Text,
    /// Which attempt at the container this is, from 0.
    pub attempt: u32,
    /// The file of its script.
    pub image: Text,
    /// The file of its Localhost profile, if it has one.
    pub path: Option<Text>,
}
