//! The findings of `lint` about profiles and manifests that are read all the same.
ghost use Rattle.std.specs.Prelude.{◌≡◌, IfOk, string_bytes, true};
ghost use Rattle.wrong_files.specs.Trees.{is_manifest};
ghost use Rattle.seccheck_cli.specs.LintText.{count_text};

use crate::manifests::manifest_output;
use fault_notes::ShownPath;
use profile_lint::{
    Choice, FindingKind, add_kinds, all_findings, grave_count, has_newer_names, is_bad, lint_lines,
    lint_objects, newer_calls, once, passed_in,
};
use seccheck_stops::{
    Form, Output, ProfileFile, Refused, RefusedFile, Stop, WordFault, profile_at, refused_stop,
};
use std::alloc::{AllocError, Global};
use std::rt;
use sys_table::CallTable;
use wrong_files::{Hint, Wanted, hint_of_text};

/// The kinds of findings that these words name.
fn kinds_of<'a>(alloc: Global, words: &[&'a str]) -> Result<Vec<FindingKind>, Stop<'a>> {
    let mut kinds = Vec::new(alloc);
    for word in words {
        if !add_kinds(&mut kinds, word)? {
            return Err(Stop::BadWord(*word, WordFault::BadKind));
        }
    }
    Ok(kinds)
}

/// The findings about the profile or the manifest in a file but those of the allowed kinds, with status 1 if a
/// warning or an error is among them. A file that is refused as a profile may be a manifest.
pub(crate) fn lint_output<'a, R: rt::Files + AllocGlobal>(
    rt: &R,
    calls: CallTable,
    path: &'a str,
    is_all: bool,
    allowed: &[&'a str],
    form: Form,
) -> Result<Output, Stop<'a>> {
    let alloc = rt.alloc();
    let kinds = kinds_of(alloc, allowed)?;
    let choice = Choice {
        is_all,
        allowed: kinds.as_slice(),
    };
    match profile_at(rt, calls, path) {
        Ok(file) => profile_output(alloc, calls, file, choice, form),
        Err(Stop::Refused(file)) => refused_output(alloc, file, choice.allowed, form),
        Err(stop) => Err(stop),
    }
}

/// The findings about a file that is refused as a profile, if it is a manifest.
fn refused_output<'a>(
    alloc: Global,
    file: RefusedFile<'a>,
    allowed: &[FindingKind],
    form: Form,
) -> Result<Output, Stop<'a>>
    ensures { IfOk result (λ output. is_manifest file.entry.bytes.items ≡ true) }
{
    match hint_of_text(alloc, &file.bytes, Wanted::Profile)? {
        Some(Hint::Manifest) => manifest_lint(alloc, file.path, file.bytes, allowed, form),
        _ => Err(Stop::Refused(file)),
    }
}

/// The findings about the manifest in these bytes of a file.
fn manifest_lint<'a>(
    alloc: Global,
    path: &'a str,
    bytes: Vec<u8>,
    allowed: &[FindingKind],
    form: Form,
) -> Result<Output, Stop<'a>> {
    if let Err(found) = manifest::read_placed(alloc, &bytes) {
        return Err(refused_stop(path, bytes, Refused::Manifest(found)));
    }
    // The bytes were read before, so that this fails only if memory runs out.
    let tree = json_tree::read(alloc, &bytes).map_err(|_| AllocError)?;
    Ok(manifest_output(alloc, &tree, allowed, form)?)
}

/// The findings about a profile.
fn profile_output<'a>(
    alloc: Global,
    calls: CallTable,
    file: ProfileFile,
    choice: Choice<'_>,
    form: Form,
) -> Result<Output, Stop<'a>> {
    let ProfileFile {
        bytes,
        profile,
        aside,
    } = file;
    // The bytes were read before, so that this fails only if memory runs out.
    let tree = json_tree::read(alloc, &bytes).map_err(|_| AllocError)?;
    let passed = passed_in(alloc, calls, &profile, &tree)?;
    let found = once(alloc, all_findings(alloc, &profile)?.as_slice())?;
    let (passed, found) = (passed.as_slice(), found.as_slice());
    let default = profile.default.value();
    let text = match form {
        Form::Text => lint_lines(alloc, calls, passed, found, choice, default)?,
        Form::Json => lint_objects(alloc, calls, passed, found, choice, default)?,
    };
    let output = graded(alloc, text, is_bad(passed, found, choice.allowed));
    Ok(output.after(aside)?)
}

/// The lines of findings, with status 1 if a warning or an error is among them.
fn graded(alloc: Global, text: String, is_bad: bool) -> Output {
    let status = if is_bad { 1 } else { 0 };
    Output {
        text,
        code: None,
        aside: String::new(alloc),
        status,
    }
}

/// The text on standard error for the compiled profile in this file: that it is a template, if it is one, and
/// how many warnings and errors its text has, and its default.
pub(crate) fn beside(
    alloc: Global,
    calls: CallTable,
    path: &str,
    file: ProfileFile,
) -> Result<String, AllocError> {
    let ProfileFile {
        bytes,
        profile,
        mut aside,
    } = file;
    // The bytes were read before, so that this fails only if memory runs out.
    let tree = json_tree::read(alloc, &bytes).map_err(|_| AllocError)?;
    let passed = passed_in(alloc, calls, &profile, &tree)?;
    let others = [
        has_newer_names(passed.as_slice()),
        newer_calls(&profile).is_some(),
    ];
    let count = count_of(grave_count(passed.as_slice()), others);
    aside.push_str(count_line(alloc, path, count)?.as_str())?;
    Ok(aside)
}

/// This number of findings, plus one for each of these that is true.
fn count_of(count: usize, others: [bool; 2]) -> usize {
    let mut sum = count;
    for is in others {
        if is {
            sum = sum.saturating_add(1);
        }
    }
    sum
}

/// The line on this number of findings, if there are any.
fn count_line(alloc: Global, path: &str, count: usize) -> Result<String, AllocError>
    ensures { IfOk result (λ text. string_bytes text ≡ count_text path.now count) }
{
    let path = ShownPath(path);
    match count {
        0 => Ok(String::new(alloc)),
        1 => format!(in alloc; "seccheck: {path}: 1 finding, see seccheck lint\n"),
        _ => format!(in alloc; "seccheck: {path}: {count} findings, see seccheck lint\n"),
    }
}
