ghost use Rattle.std.specs.Prelude.{◌≡◌, ◌||◌, map};
ghost use Rattle.std.specs.List.{list_any};
ghost use Rattle.profile_lint.specs.Passed.{told};
ghost use Rattle.profile_lint.specs.Choice.{counted, is_allowed, is_bad, is_bad_kind, is_counted, is_in_count};
ghost use Rattle.profile_lint.specs.Choice.{grave_count, has_newer_names, is_of, is_same, is_shown};
ghost use Rattle.profile_lint.specs.Kinds.{kind_of_found, kind_of_told};

use crate::finding::Finding;
use crate::kinds::{FindingKind, Severity, kind_of_found, kind_of_passed, rank_of, severity_of};
use crate::passed::Passed;

/// Which findings are printed.
#[derive(Clone, Copy, Debug)]
pub struct Choice<'a> {
    /// Prints each name, in place of how many there are.
    pub is_all: bool,
    /// The kinds that are left out.
    pub allowed: &'a [FindingKind],
}

/// Findings about a text that are counted.
#[derive(Clone, Copy, Debug, PartialEq, Eq)]
pub(crate) enum Tally {
    /// Names that are no calls of x86-64.
    Others,
    /// Names of calls newer than the table.
    Newer,
    /// Other warnings and errors.
    Grave,
}

fn is_same(kind: FindingKind, other: FindingKind) -> bool
    ensures { result ≡ is_same kind other }
{
    rank_of(kind) == rank_of(other)
}

/// Whether the kind is one of these.
pub fn is_allowed(kind: FindingKind, allowed: &[FindingKind]) -> bool
    ensures { result ≡ is_allowed allowed.now kind }
{
    allowed.iter().any(|other| is_same(kind, *other))
}

/// Whether there may be hundreds of this kind, so that only their number is printed.
fn is_counted(kind: FindingKind) -> bool
    ensures { result ≡ is_counted kind }
{
    matches!(
        kind,
        FindingKind::OtherArchitecture | FindingKind::NotImplemented | FindingKind::NewerName
    )
}

/// Whether a finding of this kind has a line of its own.
pub fn is_shown(kind: FindingKind, choice: Choice<'_>) -> bool
    ensures { result ≡ is_shown choice.entry.is_all choice.entry.allowed.now kind }
{
    !is_allowed(kind, choice.allowed) && (choice.is_all || !is_counted(kind))
}

/// Whether findings of this kind are warnings or errors, and it is not allowed.
pub fn is_bad_kind(kind: FindingKind, allowed: &[FindingKind]) -> bool
    ensures { result ≡ is_bad_kind allowed.now kind }
{
    !is_allowed(kind, allowed) && severity_of(kind) != Severity::Note
}

fn is_text_bad(passed: &[Passed<'_>], allowed: &[FindingKind]) -> bool
    ensures { result ≡ list_any (λ p. is_bad_kind allowed.now (kind_of_told (told p))) passed.now }
{
    passed
        .iter()
        .any(|item| is_bad_kind(kind_of_passed(item), allowed))
}

fn is_profile_bad(found: &[Finding], allowed: &[FindingKind]) -> bool
    ensures { result ≡ list_any (λ f. is_bad_kind allowed.now (kind_of_found f)) found.now }
{
    found
        .iter()
        .any(|item| is_bad_kind(kind_of_found(item), allowed))
}

/// Whether there is a warning or an error of a kind that is not allowed.
pub fn is_bad(passed: &[Passed<'_>], found: &[Finding], allowed: &[FindingKind]) -> bool
    ensures { result ≡ is_bad allowed.now passed.now found.now }
{
    is_text_bad(passed, allowed) || is_profile_bad(found, allowed)
}

/// Whether a name of this kind is counted among these.
fn is_in_count(kind: FindingKind, wanted: Tally, choice: Choice<'_>) -> bool
    ensures { result ≡ is_in_count wanted choice.entry.is_all choice.entry.allowed.now kind }
{
    !choice.is_all && !is_allowed(kind, choice.allowed) && is_of(kind, wanted)
}

fn is_of(kind: FindingKind, wanted: Tally) -> bool
    ensures { result ≡ is_of wanted kind }
{
    match wanted {
        Tally::Others => matches!(
            kind,
            FindingKind::OtherArchitecture | FindingKind::NotImplemented
        ),
        Tally::Newer => matches!(kind, FindingKind::NewerName),
        Tally::Grave => severity_of(kind) != Severity::Note && !is_counted(kind),
    }
}

/// How many findings about the text are only counted, of these.
pub(crate) fn counted(passed: &[Passed<'_>], wanted: Tally, choice: Choice<'_>) -> usize
    ensures { result ≡ counted wanted choice.entry.is_all choice.entry.allowed.now (map told passed.now) }
{
    let mut count = 0;
    for item in passed {
        if is_in_count(kind_of_passed(item), wanted, choice) {
            count += 1;
        }
    }
    count
}

/// How many warnings and errors have a line each in what `lint` prints about a text.
pub fn grave_count(passed: &[Passed<'_>]) -> usize
    ensures { result ≡ grave_count (map told passed.now) }
{
    let choice = Choice {
        is_all: false,
        allowed: &[],
    };
    counted(passed, Tally::Grave, choice)
}

/// Whether a text names a call newer than the table.
pub fn has_newer_names(passed: &[Passed<'_>]) -> bool
    ensures { result ≡ has_newer_names (map told passed.now) }
{
    let choice = Choice {
        is_all: false,
        allowed: &[],
    };
    counted(passed, Tally::Newer, choice) > 0
}
