//! What `seccheck compare` reads and prints, and where it ends.
ghost use Rattle.std.specs.Prelude.{◌≡◌, ◌==◌, ◌++◌, if◌then◌else◌, IfOk, None, Ok, length, string_bytes};
ghost use Rattle.std.specs.List.{list_any};
ghost use Rattle.clap.specs.Matches.{found_of};
ghost use Rattle.fault_notes.specs.Starts.{begins_object};
ghost use Rattle.seccheck_words.specs.Words.{budget_in};
ghost use Rattle.seccheck_cli.specs.Compared.{budget_note, default_budget, is_beyond, lines_note, told_of};

use crate::seccheck::calls_stop;
use bpf_compare::{Calls, Comparison, Doubt, Watch, compare_watched};
use bpf_verify::filter_of;
use clap::ArgMatches;
use fault_notes::begins_object;
use filter_differences::differences;
use seccheck_differences::{Compiled, Line, Side, all_lines, all_objects, lines};
use seccheck_output::{Difference, same_line, same_object};
use seccheck_stops::{
    Form, Output, ProfileFile, Refused, Stop, bytes_at, profile_of, refused_stop,
};
use seccheck_words::{budget_at, calls_at as known_at, word_at};
use std::alloc::{AllocError, Global};
use std::rt;
use sys_table::CallTable;

/// The budget of `compare` in instructions, if the command line has none. It takes seconds.
const BUDGET: u64 = 100_000_000;

/// The budget of each part of `--all` in instructions, if the command line has none. There are about 350
/// parts, so together they take at most about [`BUDGET`] instructions.
pub(crate) const PART_BUDGET: u64 = 300_000;

/// The line on standard error if the comparison would have to follow more instructions.
const BUDGET_NOTE: &str = "seccheck: the budget is used up; --budget N follows more instructions\n";

/// The words of `compare`, or of `table --against`.
#[derive(Clone, Copy)]
pub(crate) struct CompareOptions<'a> {
    /// The file of the first filter or profile.
    pub(crate) first: &'a str,
    /// The file of the second one.
    pub(crate) second: &'a str,
    /// The calls that profiles may name, and by whose names differences are printed.
    pub(crate) known: CallTable,
    /// The calls on which they are compared.
    pub(crate) calls: Calls,
    /// How many instructions are followed at most, in all or for each part.
    pub(crate) budget: u64,
    /// Whether the command has `--budget`.
    pub(crate) takes_budget: bool,
    pub(crate) form: Form,
}

/// The words of `compare`, with `--all` or without it.
pub(crate) fn compare_options<'a>(
    matches: &ArgMatches<'a>,
    is_all: bool,
    form: Form,
) -> Result<CompareOptions<'a>, Stop<'a>>
    ensures budget { IfOk result (λ options.
        budget_in (default_budget is_all) (found_of matches.now) ≡ Ok options.budget) }
{
    let known = known_at(matches).map_err(calls_stop)?;
    let budget = budget_at(default_budget(is_all), matches).map_err(Stop::BadNumber)?;
    Ok(CompareOptions {
        first: word_at(matches, "A"),
        second: word_at(matches, "B"),
        known,
        calls: calls_at(matches),
        budget,
        takes_budget: true,
        form,
    })
}

/// The words of `table --against`. OLD comes first.
pub(crate) fn against_options<'a>(
    matches: &ArgMatches<'a>,
    form: Form,
) -> Result<CompareOptions<'a>, Stop<'a>> {
    Ok(CompareOptions {
        first: matches.get_str("against").unwrap_or(""),
        second: word_at(matches, "PROFILE"),
        known: known_at(matches).map_err(calls_stop)?,
        calls: Calls::Native,
        budget: PART_BUDGET,
        takes_budget: false,
        form,
    })
}

fn default_budget(is_all: bool) -> u64
    ensures { result ≡ default_budget is_all }
{
    if is_all { PART_BUDGET } else { BUDGET }
}

/// The calls on which two filters are compared.
fn calls_at(matches: &ArgMatches<'_>) -> Calls {
    if matches.get_flag("native") {
        Calls::Native
    } else {
        Calls::Every
    }
}

/// Whether the bytes are a profile's text and no filter: their first one that is no white space of JSON
/// (RFC 8259) begins an object.
pub(crate) fn is_profile(bytes: &[u8]) -> bool
    ensures { result ≡ begins_object bytes.now }
{
    begins_object(bytes)
}

/// What stops the program where the filters were not found to be the same.
pub(crate) fn same_or_stop<'a>(known: CallTable, found: Comparison) -> Result<(), Stop<'a>>
    ensures { result ≡ told_of known found }
{
    match found {
        Comparison::Same => Ok(()),
        Comparison::Differs(call, first, second) => Err(Stop::Differ(Difference {
            known,
            call,
            first,
            second,
        })),
        Comparison::Undecided(doubt) => Err(Stop::Undecided(doubt)),
    }
}

/// Whether the filters of two files are the same on these calls.
pub(crate) fn compare_output<'a, R: rt::Files + AllocGlobal, W: Watch>(
    rt: &R,
    options: CompareOptions<'a>,
    watch: &mut W,
) -> Result<Output, Stop<'a>> {
    let alloc = rt.alloc();
    let first = side_at(rt, options.known, options.first)?;
    let second = side_at(rt, options.known, options.second)?;
    let found = compare_watched(
        alloc,
        first.side.filter(),
        second.side.filter(),
        options.calls.scope(),
        options.budget,
        watch,
    )?;
    let aside = joined(first.aside, second.aside.as_str())?;
    let Err(stop) = same_or_stop(options.known, found) else {
        return Ok(Output::with_aside(same_text(alloc, options)?, aside));
    };
    let aside = joined(aside, budget_note(&stop))?;
    Ok(Output::of_stop(alloc, &stop, options.form, aside)?)
}

fn same_text(alloc: Global, options: CompareOptions<'_>) -> Result<String, AllocError> {
    match options.form {
        Form::Text => same_line(alloc, options.calls),
        Form::Json => same_object(alloc, options.calls),
    }
}

/// One text after the other.
fn joined(first: String, second: &str) -> Result<String, AllocError>
    ensures { IfOk result (λ text. string_bytes text ≡ string_bytes first ++ second.now) }
{
    let mut text = first;
    text.push_str(second)?;
    Ok(text)
}

/// The text on standard error for this answer.
pub(crate) fn budget_note(stop: &Stop<'_>) -> &'static str
    ensures { result.now ≡ budget_note stop.now }
{
    match stop {
        Stop::Undecided(Doubt::Budget) => BUDGET_NOTE,
        _ => "",
    }
}

/// Every call on which the filters of two files differ, with status 1 if there is one.
pub(crate) fn differences_output<'a, R: rt::Files + AllocGlobal, W: Watch>(
    rt: &R,
    options: CompareOptions<'a>,
    watch: &mut W,
) -> Result<Output, Stop<'a>> {
    let alloc = rt.alloc();
    let first = side_at(rt, options.known, options.first)?;
    let second = side_at(rt, options.known, options.second)?;
    let found = differences(
        alloc,
        options.known,
        first.side.filter(),
        second.side.filter(),
        options.calls,
        options.budget,
        watch,
    )?;
    let lines = lines(alloc, &first.side, &second.side, found.as_slice())?;
    let text = match options.form {
        Form::Text => all_lines(alloc, options.known, options.calls, lines.as_slice())?,
        Form::Json => all_objects(alloc, options.known, options.calls, lines.as_slice())?,
    };
    let aside = joined(first.aside, second.aside.as_str())?;
    let aside = joined(aside, lines_note(options.takes_budget, lines.as_slice()))?;
    Ok(output_of(text, aside, lines.as_slice()))
}

/// The text on standard error for these lines.
fn lines_note(takes_budget: bool, lines: &[Line]) -> &'static str
    ensures { result.now ≡ lines_note takes_budget lines.now }
{
    if !takes_budget {
        return "";
    }
    if any_beyond(lines) { BUDGET_NOTE } else { "" }
}

fn any_beyond(lines: &[Line]) -> bool
    ensures { result ≡ list_any is_beyond lines.now }
{
    lines.iter().any(|line| is_beyond(line))
}

fn is_beyond(line: &Line) -> bool
    ensures { result ≡ is_beyond line.now }
{
    matches!(line, Line::Undecided(_, Doubt::Budget))
}

/// The text for these lines, with status 1 if there are some.
fn output_of(text: String, aside: String, lines: &[Line]) -> Output
    ensures text { result.text ≡ text }
    ensures aside { result.aside ≡ aside }
    ensures code { result.code ≡ None }
    ensures status { result.status ≡ (if length lines.now == 0 then 0 else 1) }
{
    let status = if lines.is_empty() { 0 } else { 1 };
    Output {
        text,
        code: None,
        aside,
        status,
    }
}

/// A filter or a profile that is compared, and a line on standard error if its file is a template.
#[derive(Drop)]
pub(crate) struct SideFile {
    pub(crate) side: Side,
    pub(crate) aside: String,
}

/// The filter in a file, or the profile in it with its filter.
pub(crate) fn side_at<'a, R: rt::Files + AllocGlobal>(
    rt: &R,
    calls: CallTable,
    path: &'a str,
) -> Result<SideFile, Stop<'a>> {
    let bytes = bytes_at(rt, path)?;
    side_of(rt.alloc(), calls, path, bytes)
}

/// The filter that these bytes of a file are, or the profile with its filter.
pub(crate) fn side_of<'a>(
    alloc: Global,
    calls: CallTable,
    path: &'a str,
    bytes: Vec<u8>,
) -> Result<SideFile, Stop<'a>> {
    if is_profile(&bytes) {
        let ProfileFile {
            bytes,
            profile,
            aside,
        } = profile_of(alloc, calls, path, bytes)?;
        match Compiled::new(alloc, profile) {
            Ok(compiled) => Ok(SideFile {
                side: Side::Profile(compiled),
                aside,
            }),
            Err(fault) => Err(refused_stop(path, bytes, Refused::Compile(fault))),
        }
    } else {
        match filter_of(alloc, &bytes) {
            Ok(filter) => Ok(SideFile {
                side: Side::Filter(filter),
                aside: String::new(alloc),
            }),
            Err(refusal) => Err(refused_stop(path, bytes, Refused::Filter(refusal))),
        }
    }
}
