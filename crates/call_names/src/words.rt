//! A call in the words of a command line.
ghost use Rattle.std.specs.Prelude.{◌≡◌, ◌≤◌, length};
ghost use Rattle.call_names.specs.Words.{given, naming_of};

use crate::naming::{CallWord, Naming};
use call_data::{NATIVE_ARCH, SysCall};
use std::fmt;
use sys_table::CallTable;

/// The number of a call, or its name if it is one of these calls of x86-64.
#[derive(Clone, Copy)]
struct NumberWord(CallTable, SysCall);

impl fmt::Display for NumberWord {
    ghost use Rattle.std.specs.Prelude.{Some};
    ghost use Rattle.call_names.specs.Words.{number_text};

    ghost output = { λ word. Some (number_text word.0 word.1) };

    #[tactic(auto, unfolding(crate::specs::Words::number_text))]
    fn fmt<W: fmt::Write>(&self, f: &mut fmt::Formatter<W>) -> fmt::Result {
        let nr = self.1.nr;
        let naming = naming_of(self.0, self.1.arch);
        let word = CallWord { nr, naming };
        write!(f, "{word}")
    }
}

fn naming_of(known: CallTable, arch: u32) -> Naming
    ensures { result ≡ naming_of known arch }
{
    if arch == NATIVE_ARCH {
        Naming::Name(known)
    } else {
        Naming::Number
    }
}

/// The option for an architecture that is not x86-64.
#[derive(Clone, Copy)]
struct ArchWord(u32);

impl fmt::Display for ArchWord {
    ghost use Rattle.std.specs.Prelude.{Some};
    ghost use Rattle.call_names.specs.Words.{arch_text};

    ghost output = { λ word. Some (arch_text word.0) };

    #[tactic(auto, unfolding(crate::specs::Words::arch_text))]
    fn fmt<W: fmt::Write>(&self, f: &mut fmt::Formatter<W>) -> fmt::Result {
        let arch = self.0;
        if arch == NATIVE_ARCH {
            Ok(())
        } else {
            write!(f, " --arch 0x{arch:x}")
        }
    }
}

/// The option for an address that is not 0.
#[derive(Clone, Copy)]
struct AddressWord(u64);

impl fmt::Display for AddressWord {
    ghost use Rattle.std.specs.Prelude.{Some};
    ghost use Rattle.call_names.specs.Words.{ip_text};

    ghost output = { λ word. Some (ip_text word.0) };

    #[tactic(auto, unfolding(crate::specs::Words::ip_text))]
    fn fmt<W: fmt::Write>(&self, f: &mut fmt::Formatter<W>) -> fmt::Result {
        let ip = self.0;
        if ip == 0 {
            Ok(())
        } else {
            write!(f, " --ip 0x{ip:x}")
        }
    }
}

/// An argument of a call, or a number that is compared with one: a digit, or from 10 on hexadecimal, `0x28`.
#[derive(Clone, Copy)]
pub struct Argument(pub u64);

impl fmt::Display for Argument {
    ghost use Rattle.std.specs.Prelude.{Some};
    ghost use Rattle.call_names.specs.Words.{argument_text};

    ghost output = { λ argument. Some (argument_text argument.0) };

    #[tactic(auto, unfolding(crate::specs::Words::argument_text))]
    fn fmt<W: fmt::Write>(&self, f: &mut fmt::Formatter<W>) -> fmt::Result {
        let number = self.0;
        if number < 10 {
            write!(f, "{number}")
        } else {
            write!(f, "0x{number:x}")
        }
    }
}

/// How many arguments there are up to the last one that is not 0.
fn given(args: &[u64]) -> usize
    ensures result { result ≡ given args.now }
    ensures few { result ≤ length args.now }
{
    let Some((arg, later)) = args.split_first() else {
        return 0;
    };
    let count = given(later);
    if *arg == 0 && count == 0 {
        0
    } else {
        count + 1
    }
}

/// An argument after a space, or no text if the argument is not shown.
#[derive(Clone, Copy)]
struct ArgumentWord(bool, u64);

impl fmt::Display for ArgumentWord {
    ghost use Rattle.std.specs.Prelude.{Some};
    ghost use Rattle.call_names.specs.Words.{argument_word};

    ghost output = { λ word. Some (argument_word word.0 word.1) };

    #[tactic(auto, unfolding(crate::specs::Words::argument_word))]
    fn fmt<W: fmt::Write>(&self, f: &mut fmt::Formatter<W>) -> fmt::Result {
        let argument = Argument(self.1);
        if self.0 {
            write!(f, " {argument}")
        } else {
            Ok(())
        }
    }
}

/// A call in the words in which `seccheck run` takes it, if it knows these calls: `socket 0x28`.
#[derive(Clone, Copy)]
pub struct CallWords(pub CallTable, pub SysCall);

impl fmt::Display for CallWords {
    ghost use Rattle.std.specs.Prelude.{Some};
    ghost use Rattle.call_names.specs.Words.{words_text};

    ghost output = { λ words. Some (words_text words.0 words.1) };

    fn fmt<W: fmt::Write>(&self, f: &mut fmt::Formatter<W>) -> fmt::Result {
        let (number, args) = (NumberWord(self.0, self.1), self.1.args);
        let (arch, ip) = (ArchWord(self.1.arch), AddressWord(self.1.ip));
        let count = given(self.1.args.as_slice());
        write!(
            f,
            "{number}{}{}{}{}{}{}{arch}{ip}",
            ArgumentWord(0 < count, args[0]),
            ArgumentWord(1 < count, args[1]),
            ArgumentWord(2 < count, args[2]),
            ArgumentWord(3 < count, args[3]),
            ArgumentWord(4 < count, args[4]),
            ArgumentWord(5 < count, args[5])
        )
    }
}

/// A call, as members of a JSON object (RFC 8259): `"call":41,"args":[40,0,0,0,0,0],"arch":3221225534,"ip":0`.
#[derive(Clone, Copy)]
pub struct CallMembers(pub SysCall);

impl fmt::Display for CallMembers {
    ghost use Rattle.std.specs.Prelude.{Some};
    ghost use Rattle.call_names.specs.Words.{call_members};

    ghost output = { λ call. Some (call_members call.0) };

    fn fmt<W: fmt::Write>(&self, f: &mut fmt::Formatter<W>) -> fmt::Result {
        let (nr, args) = (self.0.nr, self.0.args);
        let (arch, ip) = (self.0.arch, self.0.ip);
        write!(
            f,
            "\"call\":{nr},\"args\":[{},{},{},{},{},{}],\"arch\":{arch},\"ip\":{ip}",
            args[0], args[1], args[2], args[3], args[4], args[5]
        )
    }
}
