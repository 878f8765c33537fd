//! Findings in words.
ghost use Rattle.std.specs.Prelude.{◌≡◌};
ghost use Rattle.std.specs.List.{list_all};
ghost use Rattle.profile_lint.specs.Text.{is_plain, is_plain_byte, words_of};

use crate::advised::{AdvicePlace, AdviceWords};
use crate::finding::Finding;
use crate::kinds::{kind_of_found, kind_of_passed};
use crate::members::is_recased;
use crate::passed::{Holder, Passed};
use absent_names::{AbsentName, kind_of, suggestion};
use action::{ShownErrno, ValueText};
use call_names::CallWords;
use json_place::{MAX_SHOWN, Quoted};
use std::fmt;
use sys_table::CallTable;

/// The prefix of a member's key: nothing, `syscalls[3].`, `syscalls[3].args[1].`
impl fmt::Display for Holder {
    ghost use Rattle.std.specs.Prelude.{Some};
    ghost use Rattle.profile_lint.specs.Text.{holder_text};

    ghost output = { λ holder. Some (holder_text holder) };

    fn fmt<W: fmt::Write>(&self, f: &mut fmt::Formatter<W>) -> fmt::Result {
        match self {
            Holder::Profile => Ok(()),
            Holder::Entry(entry) => write!(f, "syscalls[{entry}]."),
            Holder::Arg(entry, arg) => write!(f, "syscalls[{entry}].args[{arg}]."),
        }
    }
}

/// A member's key: as it is, or in quotes.
#[derive(Clone, Copy)]
pub(crate) struct Key<'v>(pub(crate) &'v str);

impl fmt::Display for Key<'_> {
    ghost use Rattle.std.specs.Prelude.{Some};
    ghost use Rattle.profile_lint.specs.Text.{key_text};

    ghost output = { λ key. Some (key_text key.0.now) };

    fn fmt<W: fmt::Write>(&self, f: &mut fmt::Formatter<W>) -> fmt::Result {
        if is_plain(self.0) {
            f.write_str(self.0)
        } else {
            write!(f, "{}", Quoted(self.0))
        }
    }
}

/// Whether it has only ASCII letters, digits and `_`, and not too many.
#[tactic(auto, unfolding(crate::specs::Text::is_plain))]
fn is_plain(key: &str) -> bool
    ensures { result ≡ is_plain key.now }
{
    !key.is_empty() && key.len() <= MAX_SHOWN && are_plain(key.as_bytes())
}

fn are_plain(bytes: &[u8]) -> bool
    ensures { result ≡ list_all is_plain_byte bytes.now }
{
    bytes.iter().all(|byte| is_plain_byte(*byte))
}

fn is_plain_byte(byte: u8) -> bool
    ensures { result ≡ is_plain_byte byte }
{
    (97 <= byte && byte <= 122)
        || (65 <= byte && byte <= 90)
        || (48 <= byte && byte <= 57)
        || byte == 95
}

/// What a member that decides nothing would have meant.
#[tactic(auto, unfolding(crate::specs::Text::words_of))]
pub(crate) fn words_of(key: &str) -> &'static str
    ensures { result.now ≡ words_of key.now }
{
    match key {
        "includes" => "a template takes the entry under these conditions alone",
        "excludes" => "a template leaves the entry out under these conditions",
        "minKernel" => "a template takes the entry from this kernel on",
        "archMap" => "a template has its architectures from here",
        "name" => "a template has the entry's one call here",
        "errno" => "a template has the errno by name here",
        "defaultErrno" => "a template has the errno by name here",
        "syscall" => "calls stand in names",
        "flags" => "engines hand them to seccomp(2)",
        "listenerPath" => "engines send calls to this socket",
        "listenerMetadata" => "engines send this with calls",
        _ => "linux.seccomp has no such field",
    }
}

/// A name that is none of these calls, and what it is.
#[derive(Clone, Copy)]
struct NameWords<'v>(CallTable, &'v str);

impl fmt::Display for NameWords<'_> {
    ghost use Rattle.std.specs.Prelude.{Some};
    ghost use Rattle.profile_lint.specs.Text.{name_words};

    ghost output = { λ words. Some (name_words words.0 words.1.now) };

    fn fmt<W: fmt::Write>(&self, f: &mut fmt::Formatter<W>) -> fmt::Result {
        let name = Quoted(self.1);
        match kind_of(self.1) {
            AbsentName::Newer(number) => write!(f, "{name} is call {number}, newer than the table"),
            AbsentName::NotImplemented => write!(f, "{name} is not implemented on x86-64"),
            AbsentName::OtherArchitecture => write!(f, "{name} is a call of other architectures"),
            AbsentName::Unknown => match suggestion(self.0, self.1) {
                Some(call) => write!(f, "{name} is no call (did you mean {call}?)"),
                None => write!(f, "{name} is no call"),
            },
        }
    }
}

/// The place of a finding about the text.
#[derive(Clone, Copy)]
pub(crate) struct PassedPlace<'p>(pub(crate) &'p Passed<'p>);

impl fmt::Display for PassedPlace<'_> {
    ghost use Rattle.std.specs.Prelude.{Some};
    ghost use Rattle.profile_lint.specs.Passed.{told};
    ghost use Rattle.profile_lint.specs.Text.{told_place};

    ghost output = { λ place. Some (told_place (told place.0.now)) };

    fn fmt<W: fmt::Write>(&self, f: &mut fmt::Formatter<W>) -> fmt::Result {
        match self.0 {
            Passed::Ignored(holder, key) => write!(f, "{holder}{}", Key(key)),
            Passed::OtherArchitectures => f.write_str("architectures"),
            Passed::UnknownArchitecture(index, _) => write!(f, "architectures[{index}]"),
            Passed::UnknownName(entry, index, _) => write!(f, "syscalls[{entry}].names[{index}]"),
            Passed::RepeatedName(entry, index, _) => write!(f, "syscalls[{entry}].names[{index}]"),
        }
    }
}

/// What is found in the text, if these are the known calls.
#[derive(Clone, Copy)]
pub(crate) struct PassedWords<'p>(pub(crate) CallTable, pub(crate) &'p Passed<'p>);

impl fmt::Display for PassedWords<'_> {
    ghost use Rattle.std.specs.Prelude.{Some};
    ghost use Rattle.profile_lint.specs.Passed.{told};
    ghost use Rattle.profile_lint.specs.Text.{told_words};

    ghost output = { λ words. Some (told_words words.0 (told words.1.now)) };

    fn fmt<W: fmt::Write>(&self, f: &mut fmt::Formatter<W>) -> fmt::Result {
        match self.1 {
            Passed::Ignored(holder, key) if is_recased(*holder, key) => {
                f.write_str("runc reads it in any case, and crun does not")
            }
            Passed::Ignored(_, key) => f.write_str(words_of(key)),
            Passed::OtherArchitectures => f.write_str(
                "x86-64 is not among them, and only its calls are decided",
            ),
            Passed::UnknownArchitecture(_, name) => write!(
                f,
                "{} is no architecture",
                Quoted(name)
            ),
            Passed::UnknownName(_, _, name) => write!(f, "{}", NameWords(self.0, name)),
            Passed::RepeatedName(_, _, name) => write!(f, "{} is repeated", Quoted(name)),
        }
    }
}

/// A finding about the text as it is printed, if these are the known calls: `PLACE: KIND: WORDS`.
#[derive(Clone, Copy)]
pub struct ShownPassed<'p>(pub CallTable, pub &'p Passed<'p>);

impl fmt::Display for ShownPassed<'_> {
    ghost use Rattle.std.specs.Prelude.{Some};
    ghost use Rattle.profile_lint.specs.Passed.{told};
    ghost use Rattle.profile_lint.specs.Text.{told_text};

    ghost output = { λ shown. Some (told_text shown.0 (told shown.1.now)) };

    fn fmt<W: fmt::Write>(&self, f: &mut fmt::Formatter<W>) -> fmt::Result {
        let kind = kind_of_passed(self.1);
        let (place, words) = (PassedPlace(self.1), PassedWords(self.0, self.1));
        write!(f, "{place}: {kind}: {words}")
    }
}

/// The place of a finding about the profile.
#[derive(Clone, Copy)]
pub(crate) struct FoundPlace(pub(crate) Finding);

impl fmt::Display for FoundPlace {
    ghost use Rattle.std.specs.Prelude.{Some};
    ghost use Rattle.profile_lint.specs.Text.{found_place};

    ghost output = { λ place. Some (found_place place.0) };

    fn fmt<W: fmt::Write>(&self, f: &mut fmt::Formatter<W>) -> fmt::Result {
        match self.0 {
            Finding::NeverDecides(place)
            | Finding::Redundant(place)
            | Finding::NotFoundOut(place)
            | Finding::NotLookedAt(place)
            | Finding::NotCompared(place)
            | Finding::EnginesDiffer(place, _, _)
            | Finding::Overlap(place, _, _) => write!(f, "syscalls[{place}]"),
            Finding::NewerCalls(_) => f.write_str("defaultAction"),
            Finding::Advised(advice) => write!(f, "{}", AdvicePlace(advice)),
        }
    }
}

/// The value that runc may have in place of that of the order of entries.
#[derive(Clone, Copy)]
struct InsteadWords(Option<u32>);

impl fmt::Display for InsteadWords {
    ghost use Rattle.std.specs.Prelude.{Some};
    ghost use Rattle.profile_lint.specs.Text.{instead_words};

    ghost output = { λ instead. Some (instead_words instead.0) };

    fn fmt<W: fmt::Write>(&self, f: &mut fmt::Formatter<W>) -> fmt::Result {
        match self.0 {
            Some(value) => {
                let value = ValueText(value);
                write!(
                    f,
                    ", or {value}: libseccomp does not keep the order of entries"
                )
            }
            None => Ok(()),
        }
    }
}

/// What is found in the profile, if these are the known calls.
#[derive(Clone, Copy)]
pub(crate) struct FoundWords(pub(crate) CallTable, pub(crate) Finding);

impl fmt::Display for FoundWords {
    ghost use Rattle.std.specs.Prelude.{Some};
    ghost use Rattle.profile_lint.specs.Text.{found_words};

    ghost output = { λ words. Some (found_words words.0 words.1) };

    fn fmt<W: fmt::Write>(&self, f: &mut fmt::Formatter<W>) -> fmt::Result {
        match self.1 {
            Finding::NeverDecides(_) => f.write_str("it decides no call"),
            Finding::Redundant(_) => f.write_str("what follows decides its calls the same way"),
            Finding::NotFoundOut(_) => f.write_str("it may decide no call, or be redundant"),
            Finding::NotLookedAt(_) => f.write_str(
                "from here on entries may decide no call, or be redundant",
            ),
            Finding::NotCompared(_) => f.write_str(
                "from here on engines may read entries differently",
            ),
            Finding::EnginesDiffer(_, call, values) => {
                let (here, there) = (ValueText(values.here), ValueText(values.there));
                let (call, instead) = (CallWords(self.0, call), InsteadWords(values.instead));
                write!(f, "at {call}: {here} here, {there} by runc{instead}")
            }
            Finding::Overlap(_, other, call) => {
                let call = CallWords(self.0, call);
                write!(
                    f,
                    "at {call}: syscalls[{other}] decides otherwise, \
                     and libseccomp does not keep their order"
                )
            }
            Finding::NewerCalls(errno) => {
                let (last, errno) = (self.0.limit() - 1, ShownErrno(errno));
                write!(
                    f,
                    "calls newer than {last} return errno {errno}, \
                     and programs fall back to older calls only on errno 38 (ENOSYS)"
                )
            }
            Finding::Advised(advice) => write!(f, "{}", AdviceWords(self.0, advice)),
        }
    }
}

/// A finding about the profile as it is printed, if these are the known calls: `PLACE: KIND: WORDS`.
#[derive(Clone, Copy, Debug)]
pub struct ShownFinding(pub CallTable, pub Finding);

impl fmt::Display for ShownFinding {
    ghost use Rattle.std.specs.Prelude.{Some};
    ghost use Rattle.profile_lint.specs.Text.{found_text};

    ghost output = { λ shown. Some (found_text shown.0 shown.1) };

    fn fmt<W: fmt::Write>(&self, f: &mut fmt::Formatter<W>) -> fmt::Result {
        let kind = kind_of_found(&self.1);
        write!(
            f,
            "{}: {kind}: {}",
            FoundPlace(self.1),
            FoundWords(self.0, self.1)
        )
    }
}
