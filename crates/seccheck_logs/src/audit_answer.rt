//! The answer of `seccheck explain --audit`: the calls that a kernel's log reports as denied, each with the
//! entries of a profile that may have denied it.
use crate::lines::FoundLine;
use crate::log_file::{LineSink, Position, add_file};
use crate::reports::Reports;
use denied_calls::{
    AuditedCounts, AuditedKind, AuditedRow, DeniedCall, Returned, aligned, audited_head,
    audited_line, audited_object, by_cell, by_member, deciders,
};
use oci_profile::Profile;
use seccheck_stops::{Form, Output, ProfileFile, Stop, profile_at};
use seen_calls::{LineFault, audited_call};
use std::alloc::{AllocError, Global};
use std::rt;
use sys_table::CallTable;

/// The calls of the log, the most frequent first. A broken line of an audit is reported on standard error, and
/// the status is 1.
pub fn audit_output<'a, R: rt::Files + AllocGlobal>(
    rt: &R,
    calls: CallTable,
    profile: &'a str,
    log: &'a str,
    form: Form,
) -> Result<Output, Stop<'a>> {
    let alloc = rt.alloc();
    let ProfileFile {
        profile,
        aside: sign,
        ..
    } = profile_at(rt, calls, profile)?;
    let mut audited = Audited {
        calls,
        counts: AuditedCounts::new(alloc),
        reports: Reports::new(alloc),
    };
    add_file(rt, log, &mut audited)?;
    let Audited {
        calls: _,
        counts,
        mut reports,
    } = audited;
    reports.add_count()?;
    let rows = counts.rows(alloc)?;
    let text = match form {
        Form::Text => table(alloc, calls, &profile, rows.as_slice())?,
        Form::Json => objects(alloc, calls, &profile, rows.as_slice())?,
    };
    Ok(Output::with_faults(text, reports.text).after(sign)?)
}

/// The calls of an audit so far.
#[derive(Drop)]
struct Audited {
    /// The known calls.
    calls: CallTable,
    counts: AuditedCounts,
    reports: Reports,
}

impl LineSink for Audited {
    fn is_done(&self) -> bool {
        false
    }

    fn add_line(
        &mut self,
        _: Global,
        at: &Position<'_>,
        line: FoundLine<'_>,
    ) -> Result<(), AllocError> {
        let line = match line {
            FoundLine::Whole(line) => line,
            FoundLine::TooLong(line) => {
                return self
                    .reports
                    .add(at.path, at.number, line, LineFault::TooLong);
            }
        };
        match audited_call(self.calls, line) {
            Ok(Some(call)) => self.counts.add(AuditedKind {
                nr: call.nr,
                arch: call.arch,
                value: call.value,
            }),
            Ok(None) => Ok(()),
            Err(fault) => self.reports.add(at.path, at.number, line, fault),
        }
    }
}

/// A line for each kind of call. It is named if it is one of these calls.
fn table(
    alloc: Global,
    calls: CallTable,
    profile: &Profile,
    rows: &[AuditedRow],
) -> Result<String, AllocError> {
    if rows.is_empty() {
        return String::from_str(alloc, "no call was denied\n");
    }
    let mut head = audited_head(alloc)?;
    head.push(String::from_str(alloc, "BY")?)?;
    let mut lines = vec![in alloc; head]?;
    for row in rows {
        let mut line = audited_line(alloc, calls, *row)?;
        let by = deciders(alloc, profile, &denied(row))?;
        line.push(by_cell(alloc, by.as_slice())?)?;
        lines.push(line)?;
    }
    aligned(alloc, lines.as_slice())
}

/// An object for each kind of call, with its name if it is one of these calls.
fn objects(
    alloc: Global,
    calls: CallTable,
    profile: &Profile,
    rows: &[AuditedRow],
) -> Result<String, AllocError> {
    let mut text = String::new(alloc);
    for row in rows {
        let by = deciders(alloc, profile, &denied(row))?;
        let by = by_member(alloc, by.as_slice())?;
        let object = audited_object(alloc, calls, *row, by.as_str())?;
        text.push_str(object.as_str())?;
    }
    Ok(text)
}

fn denied(row: &AuditedRow) -> DeniedCall {
    DeniedCall {
        nr: row.kind.nr,
        arch: row.kind.arch,
        returned: Returned::ActionOf(row.kind.value),
    }
}
