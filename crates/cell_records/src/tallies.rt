ghost use Rattle.std.specs.Prelude.{◌≡◌, IfOk, count_by};
ghost use Rattle.cell_records.specs.Steps.{is_new, is_told};
ghost use Rattle.cell_records.specs.Summary.{is_listed, is_of, kind_of, same_kind, summary};

use action::Verdict;
use runtime_cell::JudgedCall;
use std::alloc::{AllocError, Global};

/// Which calls the line of a record lists.
#[derive(Clone, Copy, Debug, PartialEq, Eq)]
pub enum RecordCalls {
    /// The calls that were not performed.
    Denied,
    /// All calls.
    All,
}

/// A call without its arguments, with its verdict.
#[derive(Clone, Copy, Debug, PartialEq, Eq)]
pub struct CallKind {
    /// The number of the call in the table of its architecture.
    pub nr: u32,
    /// The architecture, an `AUDIT_ARCH_` value of `linux/audit.h`.
    pub arch: u32,
    /// The joint verdict of the filters on it.
    pub verdict: Verdict,
}

/// How often a call had a verdict in a record, and where it first had it.
#[derive(Clone, Copy, Debug, PartialEq, Eq)]
pub struct Tally {
    pub kind: CallKind,
    pub count: usize,
    /// The place of the first such call among all calls of the record, from 0.
    pub first: usize,
}

/// The listed calls of a record with their verdicts: each once, in the order of their first occurrence.
pub fn summary(
    alloc: Global,
    entries: &[JudgedCall],
    calls: RecordCalls,
) -> Result<Vec<Tally>, AllocError>
    ensures { IfOk result (λ v. v.items ≡ summary calls entries.now) }
{
    let mut tallies = Vec::new(alloc);
    for (place, entry) in entries.iter().enumerate() {
        if is_new(tallies.as_slice(), entry, calls) {
            let kind = kind_of(entry);
            tallies.push(Tally {
                kind,
                count: count(entries, calls, kind),
                first: place,
            })?;
        }
    }
    Ok(tallies)
}

fn kind_of(entry: &JudgedCall) -> CallKind
    ensures { result ≡ kind_of entry.now }
{
    CallKind {
        nr: entry.call.nr,
        arch: entry.call.arch,
        verdict: entry.verdict,
    }
}

/// Whether both calls have the same number, architecture and verdict.
fn is_same(a: CallKind, b: CallKind) -> bool
    ensures { result ≡ same_kind a b }
{
    a.nr == b.nr && a.arch == b.arch && a.verdict.value() == b.verdict.value()
}

fn is_listed(entry: &JudgedCall, calls: RecordCalls) -> bool
    ensures { result ≡ is_listed calls entry.now }
{
    match calls {
        RecordCalls::Denied => !entry.performed,
        RecordCalls::All => true,
    }
}

fn is_of(entry: &JudgedCall, calls: RecordCalls, kind: CallKind) -> bool
    ensures { result ≡ is_of calls kind entry.now }
{
    is_listed(entry, calls) && is_same(kind_of(entry), kind)
}

/// Whether the entry is listed, and none of the tallies is of its kind.
fn is_new(tallies: &[Tally], entry: &JudgedCall, calls: RecordCalls) -> bool
    ensures { result ≡ is_new calls tallies.now entry.now }
{
    is_listed(entry, calls) && !is_told(tallies, kind_of(entry))
}

/// Whether one of the tallies is of this kind.
fn is_told(tallies: &[Tally], kind: CallKind) -> bool
    ensures { result ≡ is_told kind tallies.now }
{
    tallies.iter().any(|tally| is_same(tally.kind, kind))
}

/// How many of the listed calls are of this kind.
fn count(entries: &[JudgedCall], calls: RecordCalls, kind: CallKind) -> usize
    ensures { result ≡ count_by (is_of calls kind) entries.now }
{
    let mut count = 0;
    for entry in entries {
        if is_of(entry, calls, kind) {
            count += 1;
        }
    }
    count
}
