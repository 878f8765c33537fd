//! The answer of `seccheck denied`: the calls that containers were denied, from files of records.
use crate::used_profiles::UsedProfiles;
use denied_calls::{
    LineFault, Row, Sighting, aligned, by_cell, by_member, in_order, read_line, row_head, row_line,
    row_object, rows, total_head, total_line, total_object, totals,
};
use explain::Decider;
use fault_notes::ShownPath;
use node_io::{look_at_folder, read_stream};
use seccheck_stops::{Form, Output, Stop, opened, stop_at};
use std::alloc::{AllocError, Global};
use std::rt;
use sys_table::CallTable;

// How many bytes a file of records may have.
const MAX_RECORDS_BYTES: u64 = 268_435_456;

/// The options of `seccheck denied`.
#[derive(Clone, Copy)]
pub struct DeniedOptions<'a> {
    /// The calls that are named, and that profiles may name.
    pub calls: CallTable,
    /// Whether the calls are added up over all containers.
    pub by_call: bool,
    /// The folder of the profiles, if each call's deciding entry is wanted.
    pub profiles: Option<&'a str>,
    pub form: Form,
}

/// The denied calls of the records in these files, the most denied first. A line other than a record is
/// reported on standard error, and the status is 1.
pub fn denied_output<'a, R: rt::Files + AllocGlobal>(
    rt: &R,
    paths: &[&'a str],
    options: DeniedOptions<'a>,
) -> Result<Output, Stop<'a>> {
    let alloc = rt.alloc();
    if let Some(folder) = options.profiles {
        look_at_folder(rt, folder).map_err(|fault| Stop::File(folder, fault))?;
    }
    let mut found = Found {
        sightings: Vec::new(alloc),
        aside: String::new(alloc),
    };
    for path in paths {
        let bytes = records_at(rt, path)?;
        add_file(alloc, &mut found, path, &bytes)?;
    }
    let Found {
        sightings,
        mut aside,
    } = found;
    let sightings = in_order(sightings)?;
    let text = if options.by_call {
        totals_text(alloc, sightings.as_slice(), options)?
    } else {
        rows_text(rt, sightings.as_slice(), options, &mut aside)?
    };
    Ok(Output::with_faults(text, aside))
}

/// The bytes of a file of records.
fn records_at<'a, R: rt::Files + AllocGlobal>(rt: &R, path: &'a str) -> Result<Vec<u8>, Stop<'a>> {
    read_stream(rt, opened(path), MAX_RECORDS_BYTES).map_err(|fault| stop_at(path, fault))
}

/// The denied calls of the records in a file as lines of six cells, the most denied first, and the reports on
/// lines other than records. A call is named if it is one of these calls.
pub fn denied_lines<'a, R: rt::Files + AllocGlobal>(
    rt: &R,
    calls: CallTable,
    path: &'a str,
) -> Result<(Vec<Vec<String>>, String), Stop<'a>> {
    let alloc = rt.alloc();
    let mut found = Found {
        sightings: Vec::new(alloc),
        aside: String::new(alloc),
    };
    let bytes = records_at(rt, path)?;
    add_file(alloc, &mut found, path, &bytes)?;
    let Found { sightings, aside } = found;
    let sightings = in_order(sightings)?;
    Ok((lines_of(alloc, calls, sightings.as_slice())?, aside))
}

/// A line for each container and denied call.
fn lines_of(
    alloc: Global,
    calls: CallTable,
    sightings: &[Sighting],
) -> Result<Vec<Vec<String>>, AllocError> {
    let mut lines = Vec::new(alloc);
    for row in rows(alloc, sightings)?.as_slice() {
        // Each place is one of the sightings.
        if let Some(sighting) = sightings.get(row.place) {
            lines.push(row_line(alloc, calls, sighting, row.count.0)?)?;
        }
    }
    Ok(lines)
}

/// The denied calls in the files, and the reports on lines other than records.
#[derive(Drop)]
struct Found {
    sightings: Vec<Sighting>,
    aside: String,
}

/// Adds the records of a file, a line each. Empty lines are skipped.
fn add_file(alloc: Global, found: &mut Found, path: &str, bytes: &[u8]) -> Result<(), AllocError> {
    let mut number: u64 = 0;
    for line in bytes.split(|byte| *byte == b'\n') {
        number = number.saturating_add(1);
        if !line.is_empty() {
            add_line(alloc, found, path, number, line)?;
        }
    }
    Ok(())
}

fn add_line(
    alloc: Global,
    found: &mut Found,
    path: &str,
    number: u64,
    line: &[u8],
) -> Result<(), AllocError> {
    match read_line(alloc, line) {
        Ok(mut more) => found.sightings.append(&mut more),
        Err(LineFault::Memory) => Err(AllocError),
        Err(fault) => {
            let path = ShownPath(path);
            writeln!(found.aside, "seccheck: {path}: line {number}: {fault}")
        }
    }
}

/// The calls, added up over all containers.
fn totals_text(
    alloc: Global,
    sightings: &[Sighting],
    options: DeniedOptions<'_>,
) -> Result<String, AllocError> {
    let totals = totals(alloc, sightings)?;
    match options.form {
        Form::Text => {
            let mut lines = vec![in alloc; total_head(alloc)?]?;
            for total in totals.as_slice() {
                lines.push(total_line(alloc, options.calls, *total)?)?;
            }
            table(alloc, lines.as_slice())
        }
        Form::Json => {
            let mut text = String::new(alloc);
            for total in totals.as_slice() {
                text.push_str(total_object(alloc, options.calls, *total)?.as_str())?;
            }
            Ok(text)
        }
    }
}

/// The denied calls of each container, with the entries that denied them if those are asked for.
fn rows_text<'a, R: rt::Files + AllocGlobal>(
    rt: &R,
    sightings: &[Sighting],
    options: DeniedOptions<'a>,
    aside: &mut String,
) -> Result<String, AllocError> {
    let alloc = rt.alloc();
    let mut used = UsedProfiles::new(alloc, options.calls, options.profiles);
    let mut text = Rows::new(alloc, options)?;
    for row in rows(alloc, sightings)?.as_slice() {
        // Each place is one of the sightings.
        if let Some(sighting) = sightings.get(row.place) {
            let by = used.deciders(rt, sighting, aside)?;
            text.add(alloc, options.calls, sighting, *row, by.as_ref())?;
        }
    }
    text.text(alloc)
}

/// The rows so far.
#[derive(Drop)]
enum Rows {
    Lines(Vec<Vec<String>>),
    Objects(String),
}

impl Rows {
    fn new(alloc: Global, options: DeniedOptions<'_>) -> Result<Rows, AllocError> {
        match options.form {
            Form::Text => {
                let mut head = row_head(alloc)?;
                if options.profiles.is_some() {
                    head.push(String::from_str(alloc, "BY")?)?;
                }
                Ok(Rows::Lines(vec![in alloc; head]?))
            }
            Form::Json => Ok(Rows::Objects(String::new(alloc))),
        }
    }

    fn add(
        &mut self,
        alloc: Global,
        calls: CallTable,
        sighting: &Sighting,
        row: Row,
        by: Option<&Vec<Decider>>,
    ) -> Result<(), AllocError> {
        match self {
            Rows::Lines(lines) => {
                let mut line = row_line(alloc, calls, sighting, row.count.0)?;
                if let Some(by) = by {
                    line.push(by_cell(alloc, by.as_slice())?)?;
                }
                lines.push(line)?;
                Ok(())
            }
            Rows::Objects(text) => {
                let by = match by {
                    Some(by) => by_member(alloc, by.as_slice())?,
                    None => String::new(alloc),
                };
                let object = row_object(alloc, calls, sighting, row.count.0, by.as_str())?;
                text.push_str(object.as_str())
            }
        }
    }

    fn text(self, alloc: Global) -> Result<String, AllocError> {
        match self {
            Rows::Lines(lines) => table(alloc, lines.as_slice()),
            Rows::Objects(text) => Ok(text),
        }
    }
}

/// The table of these lines. The first line is its head.
fn table(alloc: Global, lines: &[Vec<String>]) -> Result<String, AllocError> {
    if lines.len() < 2 {
        return String::from_str(alloc, "no call was denied\n");
    }
    aligned(alloc, lines)
}
