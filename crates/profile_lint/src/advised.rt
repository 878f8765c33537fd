//! The words for advice.
ghost use Rattle.std.specs.Prelude.{◌≡◌, ◌==◌};
ghost use Rattle.std.specs.List.{list_any};
ghost use Rattle.profile_lint.specs.Advised.{call_name, is_among, reason_of};

use action::{ValueObject, ValueText};
use call_data::SysCall;
use call_names::{CallMembers, CallWords};
use profile_advice::Advice;
use std::fmt;
use sys_table::CallTable;

/// The name of a call of Linux 6.12, and nothing if there is none.
#[tactic(auto, unfolding(crate::specs::Advised::call_name))]
fn call_name(number: u32) -> &'static str
    ensures { result.now ≡ call_name number }
{
    CallTable::Linux6_12.name(number).unwrap_or("")
}

fn is_among(number: u32, numbers: &[u32]) -> bool
    ensures { result ≡ is_among numbers.now number }
{
    numbers.iter().any(|one| *one == number)
}

/// What a powerful call can do.
#[tactic(auto, unfolding(crate::specs::Advised::reason_of))]
fn reason_of(number: u32) -> &'static str
    ensures { result.now ≡ reason_of number }
{
    if is_among(number, &[101, 310, 311, 438]) {
        "reaches into other processes"
    } else if is_among(number, &[155, 165, 166, 428, 429, 430, 432]) {
        "changes mounts"
    } else if is_among(number, &[272, 308]) {
        "makes or enters namespaces"
    } else if is_among(number, &[175, 176, 313, 321]) {
        "changes the code of the kernel"
    } else if is_among(number, &[248, 249, 250]) {
        "reaches keys that containers share"
    } else if is_among(number, &[425]) {
        "makes calls that no filter sees"
    } else if is_among(number, &[323]) {
        "holds up the kernel in the middle of a call"
    } else if is_among(number, &[304]) {
        "opens files outside of the container"
    } else if is_among(number, &[103, 298]) {
        "watches the kernel"
    } else {
        "changes the machine"
    }
}

/// The place of a piece of advice.
#[derive(Clone, Copy)]
pub(crate) struct AdvicePlace(pub(crate) Advice);

impl fmt::Display for AdvicePlace {
    ghost use Rattle.std.specs.Prelude.{Some};
    ghost use Rattle.profile_lint.specs.Advised.{advice_place};

    ghost output = { λ place. Some (advice_place place.0) };

    #[tactic(auto, unfolding(crate::specs::Advised::advice_place))]
    fn fmt<W: fmt::Write>(&self, f: &mut fmt::Formatter<W>) -> fmt::Result {
        match self.0 {
            Advice::AlwaysHolds(place, at)
            | Advice::UnusedValue(place, at)
            | Advice::NoArgument(place, at, _)
            | Advice::WideArgument(place, at, _, _, _) => write!(f, "syscalls[{place}].args[{at}]"),
            Advice::UnknownErrno(place, _)
            | Advice::ShadowedName(place, _, _)
            | Advice::RepeatedName(place, _, _) => write!(f, "syscalls[{place}]"),
            Advice::UnknownDefaultErrno(_) => f.write_str("defaultErrnoRet"),
            Advice::Bypass(_, _) | Advice::Powerful(_) => f.write_str("syscalls"),
        }
    }
}

/// The place of an entry.
#[derive(Clone, Copy)]
struct EntryPlace(usize);

impl fmt::Display for EntryPlace {
    ghost use Rattle.std.specs.Prelude.{Some};
    ghost use Rattle.profile_lint.specs.Advised.{entry_place};

    ghost output = { λ place. Some (entry_place place.0) };

    fn fmt<W: fmt::Write>(&self, f: &mut fmt::Formatter<W>) -> fmt::Result {
        write!(f, "syscalls[{}]", self.0)
    }
}

/// The name of a call.
#[derive(Clone, Copy)]
struct CallName(u32);

impl fmt::Display for CallName {
    ghost use Rattle.std.specs.Prelude.{Some};
    ghost use Rattle.profile_lint.specs.Advised.{call_name};

    ghost output = { λ name. Some (call_name name.0) };

    fn fmt<W: fmt::Write>(&self, f: &mut fmt::Formatter<W>) -> fmt::Result {
        f.write_str(call_name(self.0))
    }
}

/// A call that can do what another one does.
#[derive(Clone, Copy)]
struct OtherCall(CallTable, SysCall);

impl fmt::Display for OtherCall {
    ghost use Rattle.std.specs.Prelude.{Some};
    ghost use Rattle.profile_lint.specs.Advised.{other_words};

    ghost output = { λ other. Some (other_words other.0 other.1) };

    #[tactic(auto, unfolding(crate::specs::Advised::other_words))]
    fn fmt<W: fmt::Write>(&self, f: &mut fmt::Formatter<W>) -> fmt::Result {
        let call = CallWords(self.0, self.1);
        write!(f, "{call}, which can do the same, is allowed")
    }
}

/// What is advised, if these are the known calls.
#[derive(Clone, Copy)]
pub(crate) struct AdviceWords(pub(crate) CallTable, pub(crate) Advice);

impl fmt::Display for AdviceWords {
    ghost use Rattle.std.specs.Prelude.{Some};
    ghost use Rattle.profile_lint.specs.Advised.{advice_words};

    ghost output = { λ words. Some (advice_words words.0 words.1) };

    #[tactic(auto, unfolding(crate::specs::Advised::advice_words))]
    fn fmt<W: fmt::Write>(&self, f: &mut fmt::Formatter<W>) -> fmt::Result {
        match self.1 {
            Advice::AlwaysHolds(_, _) => f.write_str("it holds for every argument"),
            Advice::UnusedValue(_, _) => f.write_str("only SCMP_CMP_MASKED_EQ reads valueTwo"),
            Advice::NoArgument(_, _, number) => {
                write!(f, "{} has no such argument", CallName(number))
            }
            Advice::WideArgument(_, _, call, here, cut) => {
                let (call, here, cut) = (CallWords(self.0, call), ValueText(here), ValueText(cut));
                write!(
                    f,
                    "at {call}: {here}, but {cut} without the upper 32 bits, which the kernel does not read"
                )
            }
            Advice::UnknownErrno(_, errno) | Advice::UnknownDefaultErrno(errno) => {
                write!(f, "Linux has no errno {errno}")
            }
            Advice::ShadowedName(_, number, earlier) => {
                let (place, name) = (EntryPlace(earlier), CallName(number));
                write!(f, "{place} decides {name} differently")
            }
            Advice::RepeatedName(_, number, earlier) => {
                let (place, name) = (EntryPlace(earlier), CallName(number));
                write!(f, "{place} decides {name} the same way")
            }
            Advice::Bypass(number, call) => {
                let (name, other) = (CallName(number), OtherCall(self.0, call));
                write!(f, "{name} is denied, but {other}")
            }
            Advice::Powerful(number) => {
                let (name, reason) = (CallName(number), reason_of(number));
                write!(f, "{name} is allowed, and {reason}")
            }
        }
    }
}

/// A call, and the entry that decides it.
#[derive(Clone, Copy)]
struct EarlierMembers(u32, usize);

impl fmt::Display for EarlierMembers {
    ghost use Rattle.std.specs.Prelude.{Some};
    ghost use Rattle.profile_lint.specs.Advised.{earlier_members};

    ghost output = { λ members. Some (earlier_members members.0 members.1) };

    fn fmt<W: fmt::Write>(&self, f: &mut fmt::Formatter<W>) -> fmt::Result {
        let (number, earlier) = (self.0, self.1);
        write!(f, ",\"call\":{number},\"other\":\"syscalls[{earlier}]\"")
    }
}

/// The members of the JSON object.
#[derive(Clone, Copy)]
pub(crate) struct AdviceMembers(pub(crate) Advice);

impl fmt::Display for AdviceMembers {
    ghost use Rattle.std.specs.Prelude.{Some};
    ghost use Rattle.profile_lint.specs.Advised.{advice_members};

    ghost output = { λ members. Some (advice_members members.0) };

    #[tactic(auto, unfolding(crate::specs::Advised::advice_members))]
    fn fmt<W: fmt::Write>(&self, f: &mut fmt::Formatter<W>) -> fmt::Result {
        match self.0 {
            Advice::AlwaysHolds(_, _) | Advice::UnusedValue(_, _) => Ok(()),
            Advice::NoArgument(_, _, number) | Advice::Powerful(number) => {
                write!(f, ",\"call\":{number}")
            }
            Advice::WideArgument(_, _, call, here, cut) => {
                let call = CallMembers(call);
                let (here, cut) = (ValueObject(here), ValueObject(cut));
                write!(f, ",{call},\"here\":{here},\"cut\":{cut}")
            }
            Advice::UnknownErrno(_, errno) | Advice::UnknownDefaultErrno(errno) => {
                write!(f, ",\"errno\":{errno}")
            }
            Advice::ShadowedName(_, number, earlier) => {
                write!(f, "{}", EarlierMembers(number, earlier))
            }
            Advice::RepeatedName(_, number, earlier) => {
                write!(f, "{}", EarlierMembers(number, earlier))
            }
            Advice::Bypass(number, call) => {
                write!(f, ",\"denied\":{number},{}", CallMembers(call))
            }
        }
    }
}
