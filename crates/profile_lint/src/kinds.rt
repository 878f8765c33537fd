ghost use Rattle.std.specs.Prelude.{◌≡◌, ◌==◌, ◌++◌, IfOk, length, not};
ghost use Rattle.profile_lint.specs.Passed.{told};
ghost use Rattle.profile_lint.specs.Kinds.{kind_named, kind_of_advice, kind_of_found, kind_of_member, kinds_named};
ghost use Rattle.profile_lint.specs.Kinds.{kind_of_name, kind_of_told, rank_of, severity_of};

use crate::finding::Finding;
use crate::members::{is_for_engines, is_recased};
use crate::passed::{Holder, Passed};
use absent_names::{AbsentName, kind_of};
use profile_advice::Advice;
use std::alloc::AllocError;
use std::fmt;

/// How much a finding matters.
#[derive(Clone, Copy, Debug, PartialEq, Eq)]
pub enum Severity {
    /// The profile does what its author meant.
    Note,
    /// The profile may not do what its author meant.
    Warning,
    /// The profile can't do what its author meant.
    Error,
}

impl fmt::Display for Severity {
    ghost use Rattle.std.specs.Prelude.{Some};
    ghost use Rattle.profile_lint.specs.Kinds.{severity_text};

    ghost output = { λ severity. Some (severity_text severity) };

    fn fmt<W: fmt::Write>(&self, f: &mut fmt::Formatter<W>) -> fmt::Result {
        f.write_str(match self {
            Severity::Note => "note",
            Severity::Warning => "warning",
            Severity::Error => "error",
        })
    }
}

/// What a finding is about.
#[derive(Clone, Copy, Debug, PartialEq, Eq)]
pub enum FindingKind {
    /// A member of the profile decides nothing.
    Ignored,
    /// A name is that of a call of other architectures.
    OtherArchitecture,
    /// Linux implements no call by this name on x86-64.
    NotImplemented,
    /// A name is that of a call newer than the table.
    NewerName,
    /// No call is known by a name.
    UnknownName,
    /// An entry has a name twice.
    RepeatedName,
    /// An entry decides no call.
    NeverDecides,
    /// Without an entry the profile means the same.
    Redundant,
    /// It is not known whether an entry is needed.
    NotFoundOut,
    /// It was not checked whether entries are needed.
    NotLookedAt,
    /// It is not known whether engines read an entry differently.
    NotCompared,
    /// Engines read an entry differently.
    EnginesDiffer,
    /// Engines don't keep the order of two entries.
    Overlap,
    /// Newer calls don't fail with ENOSYS.
    NewerCalls,
    /// A member is for engines, and a filter does not depend on it.
    ForEngines,
    /// A member is known in another case.
    OtherCase,
    /// No architecture has a name.
    UnknownArchitecture,
    /// A condition holds for every argument.
    AlwaysHolds,
    /// A second value is not read.
    UnusedValue,
    /// A condition is about an argument that the call does not have.
    NoArgument,
    /// A condition compares more bits of an argument than the kernel reads.
    WideArgument,
    /// Linux does not have an errno.
    UnknownErrno,
    /// An earlier entry decides a name differently.
    ShadowedName,
    /// A call is denied, and another one that can do the same is allowed.
    Bypass,
    /// A call is allowed that can undo what confines a program.
    Powerful,
    /// An annotation of a manifest named a profile up to Kubernetes 1.26.
    OldAnnotation,
}

impl fmt::Display for FindingKind {
    ghost use Rattle.std.specs.Prelude.{Some};
    ghost use Rattle.profile_lint.specs.Kinds.{kind_text};

    ghost output = { λ kind. Some (kind_text kind) };

    fn fmt<W: fmt::Write>(&self, f: &mut fmt::Formatter<W>) -> fmt::Result {
        f.write_str(match self {
            FindingKind::Ignored => "Ignored",
            FindingKind::OtherArchitecture => "OtherArchitecture",
            FindingKind::NotImplemented => "NotImplemented",
            FindingKind::NewerName => "NewerName",
            FindingKind::UnknownName => "UnknownName",
            FindingKind::RepeatedName => "RepeatedName",
            FindingKind::NeverDecides => "NeverDecides",
            FindingKind::Redundant => "Redundant",
            FindingKind::NotFoundOut => "NotFoundOut",
            FindingKind::NotLookedAt => "NotLookedAt",
            FindingKind::NotCompared => "NotCompared",
            FindingKind::EnginesDiffer => "EnginesDiffer",
            FindingKind::Overlap => "Overlap",
            FindingKind::NewerCalls => "NewerCalls",
            FindingKind::ForEngines => "ForEngines",
            FindingKind::OtherCase => "OtherCase",
            FindingKind::UnknownArchitecture => "UnknownArchitecture",
            FindingKind::AlwaysHolds => "AlwaysHolds",
            FindingKind::UnusedValue => "UnusedValue",
            FindingKind::NoArgument => "NoArgument",
            FindingKind::WideArgument => "WideArgument",
            FindingKind::UnknownErrno => "UnknownErrno",
            FindingKind::ShadowedName => "ShadowedName",
            FindingKind::Bypass => "Bypass",
            FindingKind::Powerful => "Powerful",
            FindingKind::OldAnnotation => "OldAnnotation",
        })
    }
}

/// The kind with this name.
fn kind_named(name: &str) -> Option<FindingKind>
    ensures { result ≡ kind_named name.now }
{
    match name {
        "Ignored" => Some(FindingKind::Ignored),
        "OtherArchitecture" => Some(FindingKind::OtherArchitecture),
        "NotImplemented" => Some(FindingKind::NotImplemented),
        "NewerName" => Some(FindingKind::NewerName),
        "UnknownName" => Some(FindingKind::UnknownName),
        "RepeatedName" => Some(FindingKind::RepeatedName),
        "NeverDecides" => Some(FindingKind::NeverDecides),
        "Redundant" => Some(FindingKind::Redundant),
        "NotFoundOut" => Some(FindingKind::NotFoundOut),
        "NotLookedAt" => Some(FindingKind::NotLookedAt),
        "NotCompared" => Some(FindingKind::NotCompared),
        "EnginesDiffer" => Some(FindingKind::EnginesDiffer),
        "Overlap" => Some(FindingKind::Overlap),
        "NewerCalls" => Some(FindingKind::NewerCalls),
        "ForEngines" => Some(FindingKind::ForEngines),
        "OtherCase" => Some(FindingKind::OtherCase),
        "UnknownArchitecture" => Some(FindingKind::UnknownArchitecture),
        "AlwaysHolds" => Some(FindingKind::AlwaysHolds),
        "UnusedValue" => Some(FindingKind::UnusedValue),
        "NoArgument" => Some(FindingKind::NoArgument),
        "WideArgument" => Some(FindingKind::WideArgument),
        "UnknownErrno" => Some(FindingKind::UnknownErrno),
        "ShadowedName" => Some(FindingKind::ShadowedName),
        "Bypass" => Some(FindingKind::Bypass),
        "Powerful" => Some(FindingKind::Powerful),
        "OldAnnotation" => Some(FindingKind::OldAnnotation),
        _ => None,
    }
}

/// Adds the kinds that a word names: a kind, or the name of a line that counts the names of a kind. Returns
/// whether it names some.
pub fn add_kinds(kinds: &mut Vec<FindingKind>, word: &str) -> Result<bool, AllocError>
    ensures added { IfOk result (λ _. kinds.new.items ≡ kinds.old.items ++ kinds_named word.now) }
    ensures names { IfOk result (λ is_named. is_named ≡ not (length (kinds_named word.now) == 0)) }
{
    match word {
        "OtherNames" => {
            kinds.push(FindingKind::OtherArchitecture)?;
            kinds.push(FindingKind::NotImplemented)?;
            Ok(true)
        }
        "NewerNames" => {
            kinds.push(FindingKind::NewerName)?;
            Ok(true)
        }
        _ => match kind_named(word) {
            Some(kind) => {
                kinds.push(kind)?;
                Ok(true)
            }
            None => Ok(false),
        },
    }
}

/// The place of a kind in their order.
pub(crate) fn rank_of(kind: FindingKind) -> u8
    ensures { result ≡ rank_of kind }
{
    match kind {
        FindingKind::Ignored => 0,
        FindingKind::OtherArchitecture => 1,
        FindingKind::NotImplemented => 2,
        FindingKind::NewerName => 3,
        FindingKind::UnknownName => 4,
        FindingKind::RepeatedName => 5,
        FindingKind::NeverDecides => 6,
        FindingKind::Redundant => 7,
        FindingKind::NotFoundOut => 8,
        FindingKind::NotLookedAt => 9,
        FindingKind::NotCompared => 10,
        FindingKind::EnginesDiffer => 11,
        FindingKind::Overlap => 12,
        FindingKind::NewerCalls => 13,
        FindingKind::ForEngines => 14,
        FindingKind::OtherCase => 15,
        FindingKind::UnknownArchitecture => 16,
        FindingKind::AlwaysHolds => 17,
        FindingKind::UnusedValue => 18,
        FindingKind::NoArgument => 19,
        FindingKind::WideArgument => 20,
        FindingKind::UnknownErrno => 21,
        FindingKind::ShadowedName => 22,
        FindingKind::Bypass => 23,
        FindingKind::Powerful => 24,
        FindingKind::OldAnnotation => 25,
    }
}

/// The severity of a kind.
pub fn severity_of(kind: FindingKind) -> Severity
    ensures { result ≡ severity_of kind }
{
    match kind {
        FindingKind::UnknownName | FindingKind::UnknownArchitecture => Severity::Error,
        FindingKind::Ignored
        | FindingKind::NewerName
        | FindingKind::NeverDecides
        | FindingKind::EnginesDiffer
        | FindingKind::Overlap
        | FindingKind::NewerCalls
        | FindingKind::OtherCase
        | FindingKind::AlwaysHolds
        | FindingKind::UnusedValue
        | FindingKind::NoArgument
        | FindingKind::WideArgument
        | FindingKind::UnknownErrno
        | FindingKind::ShadowedName
        | FindingKind::Bypass
        | FindingKind::OldAnnotation => Severity::Warning,
        FindingKind::OtherArchitecture
        | FindingKind::NotImplemented
        | FindingKind::RepeatedName
        | FindingKind::Redundant
        | FindingKind::NotFoundOut
        | FindingKind::NotLookedAt
        | FindingKind::NotCompared
        | FindingKind::ForEngines
        | FindingKind::Powerful => Severity::Note,
    }
}

fn kind_of_name(name: AbsentName) -> FindingKind
    ensures { result ≡ kind_of_name name }
{
    match name {
        AbsentName::Newer(_) => FindingKind::NewerName,
        AbsentName::NotImplemented => FindingKind::NotImplemented,
        AbsentName::OtherArchitecture => FindingKind::OtherArchitecture,
        AbsentName::Unknown => FindingKind::UnknownName,
    }
}

/// The kind of a member that decides nothing.
fn kind_of_member(holder: Holder, key: &str) -> FindingKind
    ensures { result ≡ kind_of_member holder key.now }
{
    if is_recased(holder, key) {
        FindingKind::OtherCase
    } else if is_for_engines(holder, key) {
        FindingKind::ForEngines
    } else {
        FindingKind::Ignored
    }
}

/// The kind of a finding about the text.
pub fn kind_of_passed(passed: &Passed<'_>) -> FindingKind
    ensures { result ≡ kind_of_told (told passed.now) }
{
    match passed {
        Passed::Ignored(holder, key) => kind_of_member(*holder, key),
        Passed::OtherArchitectures => FindingKind::Ignored,
        Passed::UnknownArchitecture(_, _) => FindingKind::UnknownArchitecture,
        Passed::UnknownName(_, _, name) => kind_of_name(kind_of(name)),
        Passed::RepeatedName(_, _, _) => FindingKind::RepeatedName,
    }
}

/// The kind of a piece of advice.
#[tactic(auto, unfolding(crate::specs::Kinds::kind_of_advice))]
fn kind_of_advice(advice: Advice) -> FindingKind
    ensures { result ≡ kind_of_advice advice }
{
    match advice {
        Advice::AlwaysHolds(_, _) => FindingKind::AlwaysHolds,
        Advice::UnusedValue(_, _) => FindingKind::UnusedValue,
        Advice::NoArgument(_, _, _) => FindingKind::NoArgument,
        Advice::WideArgument(_, _, _, _, _) => FindingKind::WideArgument,
        Advice::UnknownErrno(_, _) => FindingKind::UnknownErrno,
        Advice::UnknownDefaultErrno(_) => FindingKind::UnknownErrno,
        Advice::ShadowedName(_, _, _) => FindingKind::ShadowedName,
        Advice::RepeatedName(_, _, _) => FindingKind::RepeatedName,
        Advice::Bypass(_, _) => FindingKind::Bypass,
        Advice::Powerful(_) => FindingKind::Powerful,
    }
}

/// The kind of a finding about the profile.
pub fn kind_of_found(finding: &Finding) -> FindingKind
    ensures { result ≡ kind_of_found finding.now }
{
    match finding {
        Finding::NeverDecides(_) => FindingKind::NeverDecides,
        Finding::Redundant(_) => FindingKind::Redundant,
        Finding::NotFoundOut(_) => FindingKind::NotFoundOut,
        Finding::NotLookedAt(_) => FindingKind::NotLookedAt,
        Finding::NotCompared(_) => FindingKind::NotCompared,
        Finding::EnginesDiffer(_, _, _) => FindingKind::EnginesDiffer,
        Finding::Overlap(_, _, _) => FindingKind::Overlap,
        Finding::NewerCalls(_) => FindingKind::NewerCalls,
        Finding::Advised(advice) => kind_of_advice(*advice),
    }
}
