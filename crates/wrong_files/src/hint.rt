ghost use Rattle.std.specs.Prelude.{◌≡◌};
ghost use Rattle.wrong_files.specs.HintText.{hint_text};

use std::fmt;

/// What was wanted in the place of a refused text.
#[derive(Clone, Copy, Debug, PartialEq, Eq)]
pub enum Wanted {
    Profile,
    Template,
    Manifest,
    Script,
}

/// What a refused file seems to be, and what to do about it.
#[derive(Clone, Copy, Debug, PartialEq, Eq)]
pub enum Hint {
    /// A text that begins with the byte order mark of UTF-8.
    ByteOrderMark,
    /// A filter.
    Filter,
    /// The `config.json` of a container, OCI runtime-spec 1.1.
    Config,
    /// One document of JSON after another.
    Documents,
    /// The manifest of a pod.
    Manifest,
    /// A profile.
    Profile,
    /// A script.
    Script,
    /// An object of JSON, where a filter is wanted.
    Uncompiled,
    /// The Base64 (RFC 4648) of a filter.
    Base64,
}

/// Its text in parentheses.
impl fmt::Display for Hint {
    ghost use Rattle.std.specs.Prelude.{Some};
    ghost use Rattle.wrong_files.specs.HintText.{hint_text};

    ghost output = { λ hint. Some (hint_text hint) };

    fn fmt<W: fmt::Write>(&self, f: &mut fmt::Formatter<W>) -> fmt::Result {
        f.write_str(text_of(*self))
    }
}

/// A hint after a line's text, if there is one.
#[derive(Clone, Copy, Debug)]
pub struct HintAfter(pub Option<Hint>);

impl fmt::Display for HintAfter {
    ghost use Rattle.std.specs.Prelude.{Some};
    ghost use Rattle.wrong_files.specs.HintText.{hint_after};

    ghost output = { λ after. Some (hint_after after.0) };

    fn fmt<W: fmt::Write>(&self, f: &mut fmt::Formatter<W>) -> fmt::Result {
        match self.0 {
            Some(hint) => write!(f, " {hint}"),
            None => Ok(()),
        }
    }
}

fn text_of(hint: Hint) -> &'static str
    ensures { result.now ≡ hint_text hint }
{
    match hint {
        Hint::ByteOrderMark => "(begins with a byte order mark: remove it)",
        Hint::Filter => "(a filter? see seccheck show)",
        Hint::Config => "(an OCI config.json? give linux.seccomp of it: jq .linux.seccomp)",
        Hint::Documents => "(several documents? give one)",
        Hint::Manifest => "(a manifest?)",
        Hint::Profile => "(a profile?)",
        Hint::Script => "(a script?)",
        Hint::Uncompiled => "(a profile? see seccheck compile)",
        Hint::Base64 => "(Base64? decode it: base64 -d)",
    }
}
