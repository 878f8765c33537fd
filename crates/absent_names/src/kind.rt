ghost use Rattle.std.specs.Prelude.{◌≡◌, ◌≤◌, ◌+◌, length, map};
ghost use Rattle.absent_names.specs.Kinds.{kind_of, left_out, newer, numbered_from, others, probes};

use crate::table::{LEFT_OUT, NEWER, OTHERS, PROBES};
use sys_table::CallTable;

/// What a name is that the call table lacks.
#[derive(Clone, Copy, Debug, PartialEq, Eq)]
pub enum AbsentName {
    /// A call of x86-64 with this number, newer than the known calls: asm/unistd_64.h.
    Newer(u32),
    /// A call with a number of x86-64 that Linux implements no call for.
    NotImplemented,
    /// A call of other architectures: seccomp-syscalls.h of libseccomp.
    OtherArchitecture,
    /// No call is known by this name.
    Unknown,
}

#[tactic(auto, unfolding(crate::specs::Kinds::newer))]
fn newer() -> &'static [&'static str]
    ensures names { map (λ name. name.now) result.now ≡ newer }
    ensures few { length result.now ≤ 200 }
{
    &NEWER
}

#[tactic(auto, unfolding(crate::specs::Kinds::probes))]
fn probes() -> &'static [&'static str]
    ensures names { map (λ name. name.now) result.now ≡ probes }
    ensures few { length result.now ≤ 200 }
{
    &PROBES
}

#[tactic(auto, unfolding(crate::specs::Kinds::left_out))]
fn left_out() -> &'static [&'static str]
    ensures names { map (λ name. name.now) result.now ≡ left_out }
    ensures few { length result.now ≤ 200 }
{
    &LEFT_OUT
}

#[tactic(auto, unfolding(crate::specs::Kinds::others))]
fn others() -> &'static [&'static str]
    ensures names { map (λ name. name.now) result.now ≡ others }
    ensures few { length result.now ≤ 200 }
{
    &OTHERS
}

/// The number of the wanted name, if the first name has this number and the others follow it.
fn numbered_from(names: &[&str], first: u32, wanted: &str) -> Option<u32>
    requires { first + length names.now ≤ 1000 }
    ensures { result ≡ numbered_from (map (λ name. name.now) names.now) first wanted.now }
{
    let (name, others) = names.split_first()?;
    if *name == wanted {
        Some(first)
    } else {
        numbered_from(others, first + 1, wanted)
    }
}

/// What the name is, if it is of no known call.
#[tactic(auto, unfolding(crate::specs::Kinds::kind_of))]
pub fn kind_of(name: &str) -> AbsentName
    ensures { result ≡ kind_of name.now }
{
    if let Some(number) = CallTable::Linux6_12.number(name) {
        AbsentName::Newer(number)
    } else if let Some(number) = numbered_from(newer(), 463, name) {
        AbsentName::Newer(number)
    } else if let Some(number) = numbered_from(probes(), 336, name) {
        AbsentName::Newer(number)
    } else if numbered_from(left_out(), 0, name).is_some() {
        AbsentName::NotImplemented
    } else if numbered_from(others(), 0, name).is_some() {
        AbsentName::OtherArchitecture
    } else {
        AbsentName::Unknown
    }
}
