//! The names of files, as they are shown to a person.

use json_place::Escaped;
use std::fmt;

/// The name of a file as it is shown to a person: `"`, `\` and control characters escaped as JSON escapes
/// them (RFC 8259), so that the name stays on its line and writes nothing else to a terminal. No quotes are
/// added, and nothing is cut.
#[derive(Clone, Copy)]
pub struct ShownPath<'a>(pub &'a str);

impl fmt::Display for ShownPath<'_> {
    ghost use Rattle.std.specs.Prelude.{Some};
    ghost use Rattle.fault_notes.specs.Paths.{shown_path};

    ghost output = { λ path. Some (shown_path path.0.now) };

    fn fmt<W: fmt::Write>(&self, f: &mut fmt::Formatter<W>) -> fmt::Result {
        for c in self.0.chars() {
            write!(f, "{}", Escaped(c))?;
        }
        Ok(())
    }
}
