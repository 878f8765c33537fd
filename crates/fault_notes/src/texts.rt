ghost use Rattle.std.specs.Prelude.{◌≡◌};
ghost use Rattle.fault_notes.specs.Starts.{begins_yaml};

use crate::named::Named;
use crate::starts::begins_yaml;
use serde_json::Value;
use std::alloc::Global;
use std::fmt;

/// Where a text stops being JSON.
#[derive(Clone, Copy, Debug, PartialEq, Eq)]
pub(crate) enum Spot {
    /// The parser has no position.
    Whole,
    /// At this line and this column, from 1.
    At(usize, usize),
}

impl fmt::Display for Spot {
    ghost use Rattle.std.specs.Prelude.{Some};
    ghost use Rattle.fault_notes.specs.Notes.{spot_text};

    ghost output = { λ spot. Some (spot_text spot) };

    fn fmt<W: fmt::Write>(&self, f: &mut fmt::Formatter<W>) -> fmt::Result {
        match self {
            Spot::Whole => Ok(()),
            Spot::At(line, column) => write!(f, ": line {line}, column {column}"),
        }
    }
}

/// A hint on a text that is not JSON: that it begins like YAML, if it does.
#[derive(Clone, Copy)]
pub(crate) struct Hint {
    pub(crate) is_yaml: bool,
}

impl fmt::Display for Hint {
    ghost use Rattle.std.specs.Prelude.{Some};
    ghost use Rattle.fault_notes.specs.Notes.{yaml_text};

    ghost output = { λ hint. Some (yaml_text hint.is_yaml) };

    fn fmt<W: fmt::Write>(&self, f: &mut fmt::Formatter<W>) -> fmt::Result {
        if self.is_yaml {
            f.write_str(" (YAML? yq -o=json makes JSON of it)")
        } else {
            Ok(())
        }
    }
}

/// The note on a text that is not JSON: `: line 1, column 9: NotJson`.
#[derive(Clone, Copy)]
pub(crate) struct TextNote {
    spot: Spot,
    fault: Named,
    hint: Hint,
}

impl TextNote {
    ghost use Rattle.std.specs.Prelude.{◌≡◌};
    ghost use Rattle.fault_notes.specs.Starts.{begins_yaml};

    /// The note on these bytes.
    pub(crate) fn of(alloc: Global, bytes: &[u8], fault: Named) -> TextNote
        ensures fault { result.fault ≡ fault }
        ensures hint { result.hint.is_yaml ≡ begins_yaml bytes.now }
    {
        let is_yaml = begins_yaml(bytes);
        TextNote {
            spot: spot_in(alloc, bytes),
            fault,
            hint: Hint { is_yaml },
        }
    }
}

impl fmt::Display for TextNote {
    ghost use Rattle.std.specs.Prelude.{Some};
    ghost use Rattle.fault_notes.specs.Notes.{text_note};

    ghost output = { λ note. Some (text_note note) };

    fn fmt<W: fmt::Write>(&self, f: &mut fmt::Formatter<W>) -> fmt::Result {
        write!(f, "{}: {}{}", self.spot, self.fault, self.hint)
    }
}

// Where a text stops being JSON, by its parser.
pub(crate) fn spot_in(alloc: Global, bytes: &[u8]) -> Spot {
    match Value::from_slice(alloc, bytes) {
        Err(error) if error.line() > 0 => Spot::At(error.line(), error.column()),
        _ => Spot::Whole,
    }
}
