//! The page of `seccheck report`.
use crate::compared::{PART_BUDGET, side_at, side_of};
use bpf_compare::{Calls, Unwatched};
use compile::{CompileFault, compile};
use filter_differences::differences;
use oci_profile::Profile;
use profile_lint::{all_findings, once, passed_in};
use profile_report::{
    Parts, Report, STYLE, changes_html, denials_html, no_tree_html, page, tree_html,
};
use seccheck_containers::denied_lines;
use seccheck_differences::{Line, lines};
use seccheck_stops::{Output, ProfileFile, Stop, profile_at};
use std::alloc::{AllocError, Global};
use std::rt;
use sys_table::CallTable;

/// The words of `report`.
#[derive(Clone, Copy)]
pub(crate) struct ReportOptions<'a> {
    pub profile: &'a str,
    /// The profile or filter with which it is compared, if one is given.
    pub old: Option<&'a str>,
    /// The file of records whose denied calls are shown, if one is given.
    pub records: Option<&'a str>,
    /// The known calls.
    pub calls: CallTable,
}

/// The page of a profile. A line of the records that is none is reported on standard error, and the status is 1.
pub(crate) fn report_output<'a, R: rt::Files + AllocGlobal>(
    rt: &R,
    options: ReportOptions<'a>,
) -> Result<Output, Stop<'a>> {
    let alloc = rt.alloc();
    let path = options.profile;
    let ProfileFile {
        bytes,
        profile,
        aside: sign,
    } = profile_at(rt, options.calls, path)?;
    let compared = compared_with_old(rt, options, &bytes)?;
    let (denied, faults) = denied(rt, options.calls, options.records)?;
    let tree = filter_part(alloc, options.calls, &profile)?;
    let parts = Parts {
        changes: compared.html.as_str(),
        tree: tree.as_str(),
        denied: denied.as_str(),
    };
    let lines = compared.lines.as_slice();
    let text = page_text(alloc, options, &bytes, &profile, lines, &parts)?;
    let output = Output::with_faults(text, faults).after(compared.aside)?;
    Ok(output.after(sign)?)
}

/// The part of the page for the profile's filter. A profile that is too long for a filter has a page all the same.
fn filter_part(alloc: Global, calls: CallTable, profile: &Profile) -> Result<String, AllocError> {
    match compile(alloc, profile) {
        Ok(filter) => tree_html(alloc, calls, &filter),
        Err(CompileFault::TooLong) => no_tree_html(alloc),
        Err(CompileFault::Memory) => Err(AllocError),
    }
}

/// The page, with what `lint` finds.
fn page_text(
    alloc: Global,
    options: ReportOptions<'_>,
    bytes: &[u8],
    profile: &Profile,
    lines: &[Line],
    parts: &Parts<'_>,
) -> Result<String, AllocError> {
    // The bytes were read before, so that this fails only if memory runs out.
    let tree = json_tree::read(alloc, bytes).map_err(|_| AllocError)?;
    let passed = passed_in(alloc, options.calls, profile, &tree)?;
    let found = once(alloc, all_findings(alloc, profile)?.as_slice())?;
    let report = Report {
        calls: options.calls,
        name: options.profile,
        profile,
        passed: passed.as_slice(),
        found: found.as_slice(),
        lines,
    };
    page(alloc, STYLE, &report, parts)
}

/// The calls on which the profile differs from an old one, their part of the page, and a line on standard error
/// if the old one's file is a template.
#[derive(Drop)]
struct Compared {
    lines: Vec<Line>,
    html: String,
    aside: String,
}

fn compared_with_old<'a, R: rt::Files + AllocGlobal>(
    rt: &R,
    options: ReportOptions<'a>,
    bytes: &[u8],
) -> Result<Compared, Stop<'a>> {
    let alloc = rt.alloc();
    let Some(path) = options.old else {
        return Ok(Compared {
            lines: Vec::new(alloc),
            html: String::new(alloc),
            aside: String::new(alloc),
        });
    };
    let old = side_at(rt, options.calls, path)?;
    let new = side_of(
        alloc,
        options.calls,
        options.profile,
        Vec::from_slice(alloc, bytes)?,
    )?;
    let found = differences(
        alloc,
        options.calls,
        old.side.filter(),
        new.side.filter(),
        Calls::Native,
        PART_BUDGET,
        &mut Unwatched,
    )?;
    let lines = lines(alloc, &old.side, &new.side, found.as_slice())?;
    let html = changes_html(alloc, options.calls, path, lines.as_slice())?;
    Ok(Compared {
        lines,
        html,
        aside: old.aside,
    })
}

/// The part of the page for the denied calls of a file of records, and the reports on its lines.
fn denied<'a, R: rt::Files + AllocGlobal>(
    rt: &R,
    calls: CallTable,
    records: Option<&'a str>,
) -> Result<(String, String), Stop<'a>> {
    let alloc = rt.alloc();
    let Some(path) = records else {
        return Ok((String::new(alloc), String::new(alloc)));
    };
    let (lines, aside) = denied_lines(rt, calls, path)?;
    let html = denials_html(alloc, lines.as_slice())?;
    Ok((html, aside))
}
