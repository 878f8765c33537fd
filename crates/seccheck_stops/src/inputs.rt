//! The files that commands read.
ghost use Rattle.std.specs.Prelude.{◌≡◌, ◌≤◌, IfOk, flat_map, length, map, string_bytes};
ghost use Rattle.oci_profile.specs.Profile.{ReadsProfileWith};
ghost use Rattle.seccheck_stops.specs.Inputs.{manifest_line, manifest_lines, opened, template_line};

use crate::notes::FileLine;
use crate::refused::{Refused, refused_stop};
use crate::stop::{Stop, stop_at};
use bpf_verify::{Filter, filter_of};
use manifest_advice::advice_texts;
use node_io::{MAX_FILE_BYTES, read_stream};
use oci_profile::Profile;
use profile_template::template_sign;
use std::alloc::{AllocError, Global};
use std::rt;
use sys_table::CallTable;

/// The path that is opened for a file's name: `-` is standard input.
pub fn opened(name: &str) -> &str
    ensures { result.now ≡ opened name.now }
{
    match name {
        "-" => "/dev/stdin",
        _ => name,
    }
}

/// The bytes of a file, at most `MAX_FILE_BYTES`.
pub fn bytes_at<'a, R: rt::Files + AllocGlobal>(rt: &R, path: &'a str) -> Result<Vec<u8>, Stop<'a>>
    ensures within { IfOk result (λ bytes. length bytes.items ≤ MAX_FILE_BYTES) }
{
    read_stream(rt, opened(path), MAX_FILE_BYTES).map_err(|fault| stop_at(path, fault))
}

/// The filter in a file.
pub fn filter_at<'a, R: rt::Files + AllocGlobal>(
    rt: &R,
    path: &'a str,
) -> Result<Filter, Stop<'a>> {
    let bytes = bytes_at(rt, path)?;
    match filter_of(rt.alloc(), &bytes) {
        Ok(filter) => Ok(filter),
        Err(refusal) => Err(refused_stop(path, bytes, Refused::Filter(refusal))),
    }
}

/// A profile, the bytes of its file, and a line on standard error if the file is a template of a profile.
#[derive(Drop)]
pub struct ProfileFile {
    pub bytes: Vec<u8>,
    pub profile: Profile,
    pub aside: String,
}

/// The profile in a file, if these are the known calls.
pub fn profile_at<'a, R: rt::Files + AllocGlobal>(
    rt: &R,
    calls: CallTable,
    path: &'a str,
) -> Result<ProfileFile, Stop<'a>>
    ensures profile { IfOk result (λ file. ReadsProfileWith calls file.bytes.items file.profile) }
    ensures aside { IfOk result (λ file. string_bytes file.aside ≡ template_line path.now file.bytes.items) }
{
    let bytes = bytes_at(rt, path)?;
    profile_of(rt.alloc(), calls, path, bytes)
}

/// The profile that these bytes of a file are, if these are the known calls.
pub fn profile_of<'a>(
    alloc: Global,
    calls: CallTable,
    path: &'a str,
    bytes: Vec<u8>,
) -> Result<ProfileFile, Stop<'a>>
    ensures profile { IfOk result (λ file. ReadsProfileWith calls file.bytes.items file.profile) }
    ensures aside { IfOk result (λ file. string_bytes file.aside ≡ template_line path.now file.bytes.items) }
{
    match oci_profile::read_placed_with(alloc, calls, &bytes) {
        Ok(profile) => {
            let aside = template_line(alloc, path, &bytes)?;
            Ok(ProfileFile {
                bytes,
                profile,
                aside,
            })
        }
        Err(found) => Err(refused_stop(path, bytes, Refused::Profile(found))),
    }
}

/// The line on standard error about the text of a profile, if the text is a template.
pub fn template_line(alloc: Global, path: &str, bytes: &[u8]) -> Result<String, AllocError>
    ensures { IfOk result (λ line. string_bytes line ≡ template_line path.now bytes.now) }
{
    match template_sign(alloc, bytes)? {
        Some(sign) => {
            let note = format!(in alloc; ": {sign}")?;
            let note = note.as_str();
            format!(in alloc; "{}", FileLine { path, note })
        }
        None => Ok(String::new(alloc)),
    }
}

/// The lines on standard error about what of a manifest has no effect, although it was probably meant to have
/// one.
pub fn manifest_lines(alloc: Global, path: &str, bytes: &[u8]) -> Result<String, AllocError>
    ensures { IfOk result (λ lines. string_bytes lines ≡ manifest_lines path.now bytes.now) }
{
    lines_on(alloc, path, advice_texts(alloc, bytes)?.as_slice())
}

fn lines_on(alloc: Global, path: &str, texts: &[String]) -> Result<String, AllocError>
    ensures { IfOk result (λ lines. string_bytes lines
        ≡ flat_map (manifest_line path.now) (map string_bytes texts.now)) }
{
    let mut lines = String::new(alloc);
    for text in texts {
        let note = format!(in alloc; ": {}", text.as_str())?;
        let note = note.as_str();
        write!(lines, "{}", FileLine { path, note })?;
    }
    Ok(lines)
}
