use crate::defaults::default_of;
use crate::found::Found;
use crate::log_file::add_file;
use crate::printed::profile_line;
use oci_profile::{Decision, Entries, Errno, Profile};
use profile_learn::{Learned, Wanted, small_argument};
use profile_text::WriteFault;
use seccheck_stops::{Output, ProfileFile, Stop, profile_at};
use std::alloc::{AllocError, Global};
use std::rt;
use sys_table::CallTable;

/// What the command line asks for, without its files.
#[derive(Clone, Copy)]
pub struct LearnOptions<'a> {
    /// The known calls.
    pub calls: CallTable,
    /// The profile to which the calls are added, if one is given.
    pub base: Option<&'a str>,
    /// The decision on calls that were not seen, if no profile is given.
    pub default: Option<&'a str>,
    pub wanted: Wanted,
    /// Whether a broken line is refused.
    pub is_strict: bool,
}

/// The profile that allows the calls of these logs. A line that is left out is reported beside it.
pub fn learn_output<'a, R: rt::Files + AllocGlobal>(
    rt: &R,
    paths: &[&'a str],
    options: LearnOptions<'a>,
) -> Result<Output, Stop<'a>> {
    let alloc = rt.alloc();
    let base = base_of(rt, options)?;
    let mut found = Found::new(alloc, options.calls, options.is_strict);
    for path in paths {
        add_file(rt, path, &mut found)?;
        if found.is_refused() {
            return Ok(refused_line(alloc, found)?.after(base.aside)?);
        }
    }
    let output = output_of(alloc, found, &base.profile, options.wanted)?;
    Ok(output.after(base.aside)?)
}

/// A profile, and a line on standard error if its file is a template.
#[derive(Drop)]
struct Base {
    profile: Profile,
    aside: String,
}

/// The profile that decides calls that were not seen.
fn base_of<'a, R: rt::Files + AllocGlobal>(
    rt: &R,
    options: LearnOptions<'a>,
) -> Result<Base, Stop<'a>> {
    let alloc = rt.alloc();
    if let Some(path) = options.base {
        let ProfileFile { profile, aside, .. } = profile_at(rt, options.calls, path)?;
        return Ok(Base { profile, aside });
    }
    let default = match options.default {
        Some(word) => default_of(alloc, word)?.map_err(|fault| Stop::BadWord(word, fault))?,
        None => Decision::Errno(Errno::eperm()),
    };
    let profile = Profile {
        default,
        entries: Entries::new(Vec::new(alloc)),
    };
    Ok(Base {
        profile,
        aside: String::new(alloc),
    })
}

/// The refusal of the first broken line.
fn refused_line(alloc: Global, found: Found) -> Result<Output, AllocError> {
    let mut text = String::new(alloc);
    if let Some(fault) = found.reports.first {
        writeln!(text, "refused {}", fault.name())?;
    }
    Ok(Output {
        text,
        code: None,
        aside: found.reports.text,
        status: 1,
    })
}

/// The profile of what was found, with the reports beside it.
fn output_of(
    alloc: Global,
    found: Found,
    base: &Profile,
    wanted: Wanted,
) -> Result<Output, AllocError> {
    let Found {
        learned,
        has_call,
        mut reports,
        calls,
        is_strict: _,
    } = found;
    reports.add_count()?;
    if !has_call {
        return refused(alloc, "NoCalls", "no file has a call", reports.text);
    }
    if wanted.args {
        add_unclear(&learned, &mut reports.text)?;
    }
    match profile_line(alloc, calls, &learned, base, wanted) {
        Ok(line) => Ok(Output::with_aside(line, reports.text)),
        Err(WriteFault::Memory) => Err(AllocError),
        Err(WriteFault::NoName) => {
            refused(
                alloc,
                "NoName",
                "the base names a call that the table lacks",
                reports.text,
            )
        }
        Err(WriteFault::TooLarge) => {
            refused(
                alloc,
                "TooLarge",
                "a profile has at most 262,144 bytes",
                reports.text,
            )
        }
    }
}

fn refused(alloc: Global, name: &str, why: &str, reports: String) -> Result<Output, AllocError> {
    let text = format!(in alloc; "refused {name}\n")?;
    let mut aside = reports;
    writeln!(aside, "seccheck: {name} ({why})")?;
    Ok(Output {
        text,
        code: None,
        aside,
        status: 1,
    })
}

// The calls with a small argument.
#[rattlefmt::skip]
static NARROW: [&str; 5] = ["socket", "ioctl", "fcntl", "personality", "prctl"];

/// Reports each call whose small argument was not always a number.
fn add_unclear(learned: &Learned, text: &mut String) -> Result<(), AllocError> {
    for name in &NARROW {
        let Some(number) = sys_table::number(name) else {
            continue;
        };
        if learned.is_unclear(number) {
            let place = small_argument(number).unwrap_or(0);
            writeln!(
                text,
                "seccheck: {name}: any arguments (args[{place}] is not always a number: trace with strace -X raw)"
            )?;
        }
    }
    Ok(())
}
