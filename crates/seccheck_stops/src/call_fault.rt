ghost use Rattle.std.specs.Prelude.{◌≡◌, ◌||◌, ◌==◌};
ghost use Rattle.std.specs.List.{list_any};
ghost use Rattle.seccheck_stops.specs.CallFaults.{begins_name, is_file, is_file_byte, is_name_byte};
ghost use Rattle.seccheck_stops.specs.CallFaults.{unknown_fault};

use absent_names::{AbsentName, kind_of, suggestion};
use std::fmt;
use sys_table::CallTable;

/// The fault's name of a word that is none of these calls, and what the word is, if it is no number.
#[derive(Clone, Copy)]
pub(crate) struct CallFault<'a>(pub(crate) CallTable, pub(crate) &'a str);

impl fmt::Display for CallFault<'_> {
    ghost use Rattle.std.specs.Prelude.{Some};
    ghost use Rattle.seccheck_stops.specs.CallFaults.{call_fault};

    ghost output = { λ fault. Some (call_fault fault.0 fault.1.now) };

    #[tactic(auto, unfolding(crate::specs::CallFaults::call_fault))]
    fn fmt<W: fmt::Write>(&self, f: &mut fmt::Formatter<W>) -> fmt::Result {
        if is_file(self.1) {
            return f.write_str("BadNumber (a file? it comes first)");
        }
        match kind_of(self.1) {
            AbsentName::Newer(number) => write!(
                f,
                "BadNumber (call {number}, newer than the table: give the number)"
            ),
            AbsentName::NotImplemented => f.write_str("BadNumber (not implemented on x86-64)"),
            AbsentName::OtherArchitecture => f.write_str(
                "BadNumber (a call of other architectures)",
            ),
            AbsentName::Unknown => match suggestion(self.0, self.1) {
                Some(call) => write!(f, "BadNumber (no call of that name; near: {call})"),
                None => f.write_str(unknown_fault(self.1)),
            },
        }
    }
}

/// The fault of a word that is like no name of a call.
fn unknown_fault(word: &str) -> &'static str
    ensures { result.now ≡ unknown_fault word.now }
{
    if begins_name(word.as_bytes()) {
        "BadNumber (no call of that name)"
    } else {
        "BadNumber"
    }
}

/// Whether it begins as names of calls do.
fn begins_name(word: &[u8]) -> bool
    ensures { result ≡ begins_name word.now }
{
    match word {
        [first, ..] => is_name_byte(*first),
        _ => false,
    }
}

fn is_name_byte(byte: u8) -> bool
    ensures { result ≡ is_name_byte byte }
{
    byte.is_ascii_alphabetic() || byte == b'_'
}

/// Whether it is a path, or has an extension. No call has such a name.
fn is_file(word: &str) -> bool
    ensures { result ≡ is_file word.now }
{
    has_file_byte(word.as_bytes())
}

fn has_file_byte(bytes: &[u8]) -> bool
    ensures { result ≡ list_any is_file_byte bytes.now }
{
    bytes.iter().any(|byte| is_file_byte(*byte))
}

fn is_file_byte(byte: u8) -> bool
    ensures { result ≡ is_file_byte byte }
{
    byte == b'/' || byte == b'.'
}
