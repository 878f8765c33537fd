//! The calls that an audit reports, counted.
ghost use Rattle.std.specs.Prelude.{◌≡◌, [], ◌∷◌, IfOk, OnErr, OnOk, codes, map, string_bytes};
ghost use Rattle.std.specs.List.Sorted.{IsPermutation, IsSortedBy};
ghost use Rattle.std.specs.Ordering.{is_lt};
ghost use Rattle.denied_calls.specs.Audited.{audited_cells, audited_object, audited_order, counted};
ghost use Rattle.denied_calls.specs.Audited.{row_of};

use crate::shown::{ActionText, CallText};
use action::Verdict;
use cell_records::{CallKind, CallMembers};
use std::alloc::{AllocError, Global};
use std::cmp::Reverse;
use std::collections::BTreeMap;
use std::marker::Model;
use sys_table::CallTable;

/// A call and what a filter did about it. An audit has neither the call's arguments nor the data of the
/// filter's value.
#[derive(Clone, Copy, Debug, PartialEq, Eq, PartialOrd, Ord)]
pub struct AuditedKind {
    /// The number of the call in the table of its architecture.
    pub nr: u32,
    /// The architecture, an `AUDIT_ARCH_` value of `linux/audit.h`.
    pub arch: u32,
    /// The action, as the value of a filter whose data is 0.
    pub value: u32,
}

/// A kind of call, and how often it was reported. The greatest count comes first, and of rows with one count
/// the one with the lower number.
#[derive(Clone, Copy, Debug, PartialEq, Eq, PartialOrd, Ord)]
pub struct AuditedRow {
    pub count: Reverse<usize>,
    pub kind: AuditedKind,
}

/// How often each kind of call was reported.
#[derive(Drop)]
pub struct AuditedCounts {
    counts: BTreeMap<AuditedKind, usize>,
}

impl Model for AuditedCounts {
    ghost use Rattle.std.specs.Prelude.{ℕ, List};
    ghost use Rattle.denied_calls.specs.declared.audited.AuditedKind.{AuditedKind};

    ghost Value = { List (AuditedKind × ℕ) };

    ghost view = { λ c. c.counts.entries };
}

impl AuditedCounts {
    /// No call was reported yet.
    pub fn new(alloc: Global) -> AuditedCounts
        ensures { result ≡ [] }
    {
        AuditedCounts {
            counts: BTreeMap::new(alloc),
        }
    }

    /// Counts one more call of this kind.
    pub fn add(&mut self, kind: AuditedKind) -> Result<(), AllocError>
        ensures counted { OnOk result (self.new ≡ counted self.old kind) }
        ensures kept { OnErr result (self.new ≡ self.old) }
    {
        let count = match self.counts.get(&kind) {
            Some(count) => count.saturating_add(1),
            None => 1,
        };
        self.counts.insert(kind, count)?;
        Ok(())
    }

    /// A row for each kind, the most frequent first.
    pub fn rows(&self, alloc: Global) -> Result<Vec<AuditedRow>, AllocError>
        ensures each { IfOk result (λ v. IsPermutation (map row_of self.now) v.items) }
        ensures sorted { IfOk result (λ v. IsSortedBy (λ a b. is_lt (audited_order a b)) v.items) }
    {
        let mut rows = each_row(alloc, &self.counts)?;
        rows.sort()?;
        Ok(rows)
    }
}

fn each_row(
    alloc: Global,
    counts: &BTreeMap<AuditedKind, usize>,
) -> Result<Vec<AuditedRow>, AllocError>
    ensures { IfOk result (λ v. v.items ≡ map row_of counts.now.entries) }
{
    counts
        .iter()
        .map(|(kind, count)| row_of(*kind, *count))
        .collect(alloc)
}

fn row_of(kind: AuditedKind, count: usize) -> AuditedRow
    ensures { result ≡ row_of (kind, count) }
{
    let count = Reverse(count);
    AuditedRow { count, kind }
}

/// The head of the table of an audit's calls.
pub fn audited_head(alloc: Global) -> Result<Vec<String>, AllocError>
    ensures { IfOk result (λ v. map string_bytes v.items ≡ codes "CALL" ∷ codes "ACTION" ∷ codes "TIMES" ∷ []) }
{
    let call = String::from_str(alloc, "CALL")?;
    let action = String::from_str(alloc, "ACTION")?;
    let times = String::from_str(alloc, "TIMES")?;
    Ok(vec![in alloc; call, action, times]?)
}

/// The line of a kind of call. It is named if it is one of these calls.
pub fn audited_line(
    alloc: Global,
    calls: CallTable,
    row: AuditedRow,
) -> Result<Vec<String>, AllocError>
    ensures { IfOk result (λ v. map string_bytes v.items ≡ audited_cells calls row) }
{
    let (nr, arch) = (row.kind.nr, row.kind.arch);
    let (call, action) = (CallText { calls, nr, arch }, ActionText(row.kind.value));
    let count = row.count.0;
    let call = format!(in alloc; "{call}")?;
    let action = format!(in alloc; "{action}")?;
    let times = format!(in alloc; "{count}")?;
    Ok(vec![in alloc; call, action, times]?)
}

/// The object of a kind of call, with its name if it is one of these calls. `by` follows its other members.
pub fn audited_object(
    alloc: Global,
    calls: CallTable,
    row: AuditedRow,
    by: &str,
) -> Result<String, AllocError>
    ensures { IfOk result (λ t. string_bytes t ≡ audited_object calls row by.now) }
{
    let kind = CallKind {
        nr: row.kind.nr,
        arch: row.kind.arch,
        verdict: Verdict::of_value(row.kind.value),
    };
    let call = CallMembers(calls, kind);
    let (action, count) = (ActionText(row.kind.value), row.count.0);
    format!(in alloc; "{{{call},\"action\":\"{action}\",\"count\":{count}{by}}}\n")
}
