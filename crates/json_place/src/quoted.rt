use std::fmt;

/// How many bytes of a text are shown at most.
pub const MAX_SHOWN: usize = 64;

/// A text as shown to a person: in quotes, with `"`, `\` and control characters escaped as in JSON (RFC
/// 8259). If it is longer than [`MAX_SHOWN`] bytes, only the characters that fit are shown, and the cut is
/// marked: `"aaaa"..`.
#[derive(Clone, Copy)]
pub struct Quoted<'a>(pub &'a str);

impl fmt::Display for Quoted<'_> {
    ghost use Rattle.std.specs.Prelude.{Some};
    ghost use Rattle.json_place.specs.Quoted.{quoted_text};

    ghost output = { λ quoted. Some (quoted_text quoted.0.now) };

    fn fmt<W: fmt::Write>(&self, f: &mut fmt::Formatter<W>) -> fmt::Result {
        f.write_str("\"")?;
        let mut room = MAX_SHOWN;
        for c in self.0.chars() {
            let Some(left) = room.checked_sub(c.len_utf8()) else {
                return f.write_str("\"..");
            };
            write!(f, "{}", Escaped(c))?;
            room = left;
        }
        f.write_str("\"")
    }
}

/// One character between quotes, as JSON escapes it.
#[derive(Clone, Copy)]
pub struct Escaped(pub char);

impl fmt::Display for Escaped {
    ghost use Rattle.std.specs.Prelude.{Some};
    ghost use Rattle.json_place.specs.Quoted.{escaped};

    ghost output = { λ c. Some (escaped c.0) };

    fn fmt<W: fmt::Write>(&self, f: &mut fmt::Formatter<W>) -> fmt::Result {
        match self.0 {
            '"' => f.write_str("\\\""),
            '\\' => f.write_str("\\\\"),
            '\n' => f.write_str("\\n"),
            '\r' => f.write_str("\\r"),
            '\t' => f.write_str("\\t"),
            c if c.is_control() => write!(f, "{}", Coded(c)),
            c => f.write_char(c),
        }
    }
}

/// A character as an escaped number: `\u001b`.
#[derive(Clone, Copy)]
struct Coded(char);

impl fmt::Display for Coded {
    ghost use Rattle.std.specs.Prelude.{Some};
    ghost use Rattle.json_place.specs.Quoted.{coded};

    ghost output = { λ c. Some (coded c.0) };

    fn fmt<W: fmt::Write>(&self, f: &mut fmt::Formatter<W>) -> fmt::Result {
        let number = u32::from(self.0);
        write!(f, "\\u{number:04x}")
    }
}
