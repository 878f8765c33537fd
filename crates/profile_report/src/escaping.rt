use json_place::Escaped;
use std::fmt;

/// One character as a page shows it: HTML Living Standard, "Character references". A control character is
/// shown as JSON (RFC 8259) escapes it.
#[derive(Clone, Copy)]
struct HtmlChar(char);

impl fmt::Display for HtmlChar {
    ghost use Rattle.std.specs.Prelude.{Some};
    ghost use Rattle.profile_report.specs.Escaped.{html_char};

    ghost output = { λ c. Some (html_char c.0) };

    #[tactic(auto, unfolding(crate::specs::Escaped::html_char))]
    fn fmt<W: fmt::Write>(&self, f: &mut fmt::Formatter<W>) -> fmt::Result {
        match self.0 {
            '&' => f.write_str("&amp;"),
            '<' => f.write_str("&lt;"),
            '>' => f.write_str("&gt;"),
            '"' => f.write_str("&quot;"),
            '\'' => f.write_str("&#39;"),
            c if c.is_control() => write!(f, "{}", Escaped(c)),
            c => f.write_char(c),
        }
    }
}

/// A text as a page shows it, between tags or in a quoted attribute: no byte of it is markup. If the text has
/// more than `room` bytes, only the characters that fit are shown, and the cut is marked by `..`.
#[derive(Clone, Copy)]
pub struct Html<'a> {
    pub text: &'a str,
    pub room: usize,
}

impl fmt::Display for Html<'_> {
    ghost use Rattle.std.specs.Prelude.{Some};
    ghost use Rattle.profile_report.specs.Escaped.{html_text};

    ghost output = { λ html. Some (html_text html.room html.text.now) };

    fn fmt<W: fmt::Write>(&self, f: &mut fmt::Formatter<W>) -> fmt::Result {
        let mut room = self.room;
        for c in self.text.chars() {
            let Some(left) = room.checked_sub(c.len_utf8()) else {
                return f.write_str("..");
            };
            write!(f, "{}", HtmlChar(c))?;
            room = left;
        }
        Ok(())
    }
}
