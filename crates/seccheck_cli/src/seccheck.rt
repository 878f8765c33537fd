ghost use Rattle.std.specs.Prelude.{◌≡◌, ◌==◌, count_by, map, string_bytes};
ghost use Rattle.std.specs.Str.{bytes_eq};
ghost use Rattle.seccheck_cli.specs.Ends.{call_stop, calls_stop, is_dash, is_silent, reads_twice};

use crate::compared::{against_options, compare_options, compare_output, differences_output};
use crate::file::is_same_file;
use crate::linting::{beside, lint_output};
use crate::profiles::{default_line, explain_output, table_output};
use crate::progress::Progress;
use crate::reporting::{ReportOptions, report_output};
use crate::resolving::resolve_output;
use crate::settings::{caps_of, settings_of};
use crate::written::{file_bytes, unit_output};
use bpf_compare::Watch;
use bpf_verify::{Refusal, filter_of};
use call_data::SysCall;
use call_names::{Naming, number_tests};
use clap::ArgMatches;
use clap::error::ErrorKind;
use compile::compile;
use host_io::replace;
use node_io::Cause;
use profile_learn::Wanted;
use seccheck_containers::{DeniedOptions, PodOptions, denied_output, pod_output};
use seccheck_logs::{LearnOptions, audit_output, learn_output};
use seccheck_output::{
    Outcome, accepted_line, accepted_object, code_lines, code_objects, compiled_line,
    compiled_object, judge, judged_line, judged_object, longest_line, longest_object,
    outcome_lines, picked_lines, picked_objects, play, record_objects,
};
use seccheck_stops::{
    Form, Output, Refused, Stop, WordFault, bytes_at, filter_at, manifest_lines, opened,
    print_note, profile_at, refused_stop, stop_at, write_object,
};
use seccheck_words::{BadCallWord, attempt_at, call_at, calls_at, command, word_at};
use std::alloc::{AllocError, Global};
use std::io::{self, Write};
use std::rt;
use std::time::Clock;
use sys_table::CallTable;
use verdict::Stack;

/// The program `seccheck`. `words` are those of the command line, the program's name first. Returns the
/// program's status: 0 done, 1 input refused, 2 command line refused, 3 file fault, 4 out of memory. Output that
/// can't be written is a file fault.
pub fn seccheck_run<R: rt::Files + AllocGlobal + Clock, O: Write, E: Write>(
    rt: &R,
    words: &[String],
    out: &mut O,
    err: &mut E,
) -> u8 {
    seccheck_run_on(rt, words, out, err, false)
}

/// The program `seccheck`. If standard error is a terminal, a long comparison prints how far it has come.
pub fn seccheck_run_on<R: rt::Files + AllocGlobal + Clock, O: Write, E: Write>(
    rt: &R,
    words: &[String],
    out: &mut O,
    err: &mut E,
    is_terminal: bool,
) -> u8 {
    let (name, matches) = match command_of(rt, words) {
        Ok(command) => command,
        Err(stop) => return report(&stop, err),
    };
    let form = if matches.get_flag("json") {
        Form::Json
    } else {
        Form::Text
    };
    let found = {
        let mut progress = Progress::new(rt, err, is_terminal);
        output_of(rt, name, &matches, form, &mut progress)
    };
    let stop = match found {
        Ok(output) => match print(&output, out) {
            Ok(()) => {
                let _ = err.write_all(output.aside.as_bytes());
                return output.status;
            }
            Err(error) => Stop::Unwritten(Cause::of(&error)),
        },
        Err(stop) => stop,
    };
    if !stop.is_answer() {
        return report(&stop, err);
    }
    let written = match form {
        Form::Text => write!(out, "{stop}"),
        Form::Json => write_object(rt.alloc(), &stop, out),
    };
    if let Err(error) = written {
        return report(&Stop::Unwritten(Cause::of(&error)), err);
    }
    print_note(rt.alloc(), &stop, err);
    stop.status()
}

/// Writes what standard output gets.
fn print<O: Write>(output: &Output, out: &mut O) -> io::Result<()> {
    out.write_all(output.text.as_bytes())?;
    match &output.code {
        Some(code) => out.write_all(code.as_slice()),
        None => Ok(()),
    }
}

/// Prints the reason to standard error (best effort), and returns the exit status.
fn report<E: Write>(stop: &Stop, err: &mut E) -> u8 {
    if !is_silent(stop) {
        let _ = write!(err, "{stop}");
    }
    stop.status()
}

/// Why a word of a call ends the program.
fn call_stop(known: CallTable, word: BadCallWord<'_>) -> Stop<'_>
    ensures { result ≡ call_stop known word.entry }
{
    match word {
        BadCallWord::Call(word) => Stop::BadCall(known, word),
        BadCallWord::Arch(word) => Stop::BadWord(word, WordFault::NoArch),
        BadCallWord::Number(word) => Stop::BadNumber(word),
    }
}

/// Why a word that is no version of Linux with a table ends the program.
pub(crate) fn calls_stop(word: &str) -> Stop<'_>
    ensures { result ≡ calls_stop word.entry }
{
    Stop::BadWord(word, WordFault::BadCalls)
}

/// Whether the program ends without a word: nobody reads standard output any more, as after `| head`.
fn is_silent(stop: &Stop) -> bool
    ensures { result ≡ is_silent stop.now }
{
    matches!(stop, Stop::Unwritten(Cause::Gone))
}

/// The command that the words name, and its own words.
fn command_of<'a, R: rt::Files + AllocGlobal>(
    rt: &R,
    words: &'a [String],
) -> Result<(&'a str, ArgMatches<'a>), Stop<'a>> {
    let mut command = command(rt.alloc())?;
    let mut matches = command.try_get_matches_from_mut(words)?;
    match matches.remove_subcommand() {
        Some((name, matches)) => {
            if reads_twice(words, matches.get_str("OUT") == Some("-")) {
                return Err(Stop::BadWord("-", WordFault::ReadTwice));
            }
            Ok((name, matches))
        }
        None => Err(
            command
                .error(ErrorKind::MissingSubcommand, "a subcommand is required")?
                .into(),
        ),
    }
}

/// Whether more than one file is standard input, which has to be read at once.
fn reads_twice(words: &[String], is_written: bool) -> bool
    ensures { result ≡ reads_twice is_written (map string_bytes words.now) }
{
    let most = if is_written { 2 } else { 1 };
    dashes(words) > most
}

/// How many words are `-`.
fn dashes(words: &[String]) -> usize
    ensures { result ≡ count_by (λ word. is_dash (string_bytes word)) words.now }
{
    words.iter().filter(|word| word.as_str() == "-").count()
}

/// What the program prints if nothing stops it.
fn output_of<'a, R: rt::Files + AllocGlobal, W: Watch>(
    rt: &R,
    name: &str,
    matches: &ArgMatches<'a>,
    form: Form,
    watch: &mut W,
) -> Result<Output, Stop<'a>> {
    match name {
        "resolve" => {
            let calls = calls_at(matches).map_err(calls_stop)?;
            let caps = caps_of(rt.alloc(), matches.get_strs("cap").unwrap_or(&[]))?;
            let (arch, kernel) = (matches.get_str("arch"), matches.get_str("kernel"));
            let settings = settings_of(caps.as_slice(), arch, kernel).map_err(|(
                word,
                fault,
            )| Stop::BadWord(word, fault))?;
            let drops_newer = matches.get_flag("drop-newer");
            resolve_output(
                rt,
                calls,
                word_at(matches, "TEMPLATE"),
                &settings,
                drops_newer,
            )
        }
        "compile" => {
            let calls = calls_at(matches).map_err(calls_stop)?;
            let (path, out) = (word_at(matches, "PROFILE"), word_at(matches, "OUT"));
            compile_output(rt, calls, path, out, matches.get_flag("base64"), form)
        }
        "write" => {
            let calls = calls_at(matches).map_err(calls_stop)?;
            unit_output(rt, calls, word_at(matches, "PROFILE"))
        }
        "explain" if matches.get_str("audit").is_some() => {
            let log = matches.get_str("audit").unwrap_or("");
            let calls = calls_at(matches).map_err(calls_stop)?;
            audit_output(rt, calls, word_at(matches, "PROFILE"), log, form)
        }
        "explain" => {
            let calls = calls_at(matches).map_err(calls_stop)?;
            let call = call_at(calls, matches).map_err(|word| call_stop(calls, word))?;
            explain_output(rt, calls, word_at(matches, "PROFILE"), call, form)
        }
        "lint" => {
            let allowed = matches.get_strs("allow").unwrap_or(&[]);
            let calls = calls_at(matches).map_err(calls_stop)?;
            let path = word_at(matches, "PROFILE");
            lint_output(rt, calls, path, matches.get_flag("all"), allowed, form)
        }
        "table" if matches.get_str("against").is_some() => {
            differences_output(rt, against_options(matches, form)?, watch)
        }
        "table" => {
            let calls = calls_at(matches).map_err(calls_stop)?;
            table_output(rt, calls, word_at(matches, "PROFILE"), form)
        }
        "report" => {
            let options = ReportOptions {
                profile: word_at(matches, "PROFILE"),
                old: matches.get_str("against"),
                records: matches.get_str("records"),
                calls: calls_at(matches).map_err(calls_stop)?,
            };
            report_output(rt, options)
        }
        "compare" if matches.get_flag("all") => {
            differences_output(rt, compare_options(matches, true, form)?, watch)
        }
        "compare" => compare_output(rt, compare_options(matches, false, form)?, watch),
        "pick" => {
            let seccomp_default = matches.get_flag("seccomp-default");
            pick_output(rt, word_at(matches, "MANIFEST"), seccomp_default, form)
        }
        "play" if matches.get_str("pod").is_some() => pod_output(rt, pod_options(matches, form)?),
        "denied" => {
            let options = DeniedOptions {
                calls: calls_at(matches).map_err(calls_stop)?,
                by_call: matches.get_flag("by-call"),
                profiles: matches.get_str("profiles"),
                form,
            };
            denied_output(rt, matches.get_strs("FILE").unwrap_or(&[]), options)
        }
        "learn" => {
            let files = matches.get_strs("FILE").unwrap_or(&[]);
            learn_output(rt, files, learn_options(matches)?)
        }
        _ => Ok(Output::plain(rt.alloc(), text_of(rt, name, matches, form)?)),
    }
}

/// The options of `learn`.
fn learn_options<'a>(matches: &ArgMatches<'a>) -> Result<LearnOptions<'a>, Stop<'a>> {
    Ok(LearnOptions {
        calls: calls_at(matches).map_err(calls_stop)?,
        base: matches.get_str("base"),
        default: matches.get_str("default"),
        wanted: Wanted {
            args: matches.get_flag("args"),
            needed: matches.get_flag("needed"),
        },
        is_strict: matches.get_flag("strict"),
    })
}

/// The options of `play --pod`.
fn pod_options<'a>(matches: &ArgMatches<'a>, form: Form) -> Result<PodOptions<'a>, Stop<'a>> {
    let calls = calls_at(matches).map_err(calls_stop)?;
    Ok(PodOptions {
        manifest: matches.get_str("pod").unwrap_or(""),
        scripts: matches.get_str("scripts").unwrap_or("."),
        profiles: matches.get_str("profiles").unwrap_or("."),
        baseline: matches.get_str("baseline"),
        seccomp_default: matches.get_flag("seccomp-default"),
        attempt: attempt_at(matches).map_err(Stop::BadNumber)?,
        calls,
        naming: naming_at(calls, matches),
        form,
    })
}

/// Whether calls are printed by their names, if they are of these calls.
fn naming_at(calls: CallTable, matches: &ArgMatches<'_>) -> Naming {
    if matches.get_flag("names") {
        Naming::Name(calls)
    } else {
        Naming::Number
    }
}

/// The text of a command that prints nothing on standard error.
fn text_of<'a, R: rt::Files + AllocGlobal>(
    rt: &R,
    name: &str,
    matches: &ArgMatches<'a>,
    form: Form,
) -> Result<String, Stop<'a>> {
    match name {
        "run" => {
            let calls = calls_at(matches).map_err(calls_stop)?;
            let call = call_at(calls, matches).map_err(|word| call_stop(calls, word))?;
            run_text(rt, word_at(matches, "FILTER"), call, form)
        }
        "default" => Ok(default_line(rt.alloc())?),
        "verify" => verify_text(rt, word_at(matches, "FILTER"), form),
        "budget" => budget_text(rt, word_at(matches, "FILTER"), form),
        "show" => {
            let calls = calls_at(matches).map_err(calls_stop)?;
            show_text(rt, calls, word_at(matches, "FILTER"), form)
        }
        _ => {
            let calls = calls_at(matches).map_err(calls_stop)?;
            let attempt = attempt_at(matches).map_err(Stop::BadNumber)?;
            let filters = matches.get_strs("FILTER").unwrap_or(&[]);
            let naming = naming_at(calls, matches);
            let played = played_at(rt, calls, word_at(matches, "SCRIPT"), filters, attempt)?;
            Ok(record_text(rt.alloc(), &played, naming, form)?)
        }
    }
}

/// Compiles a profile, and replaces the old file of the filter as a whole. Beside the answer is the number of
/// `lint`'s findings. If the file is `-`, standard output gets the filter, and standard error the answer.
fn compile_output<'a, R: rt::Files + AllocGlobal>(
    rt: &R,
    calls: CallTable,
    path: &'a str,
    out: &'a str,
    is_base64: bool,
    form: Form,
) -> Result<Output, Stop<'a>> {
    let alloc = rt.alloc();
    let file = profile_at(rt, calls, path)?;
    let filter = match compile(alloc, &file.profile) {
        Ok(filter) => filter,
        Err(fault) => return Err(refused_stop(path, file.bytes, Refused::Compile(fault))),
    };
    let aside = beside(alloc, calls, path, file)?;
    let code = bpf_code::write(alloc, filter.insns())?;
    let code = file_bytes(alloc, code, is_base64)?;
    let text = match form {
        Form::Text => compiled_line(alloc, filter.len())?,
        Form::Json => compiled_object(alloc, filter.len())?,
    };
    if out == "-" {
        return Ok(streamed(alloc, code, text, aside.as_str())?);
    }
    if is_same_file(rt, opened(path), out) {
        return Err(Stop::SameFile(out));
    }
    replace(rt, out, &code).map_err(|fault| stop_at(out, fault))?;
    Ok(Output::with_aside(text, aside))
}

/// A filter on standard output, and on standard error the answer before these lines.
fn streamed(
    alloc: Global,
    code: Vec<u8>,
    answer: String,
    lines: &str,
) -> Result<Output, AllocError> {
    let mut aside = answer;
    aside.push_str(lines)?;
    Ok(Output {
        text: String::new(alloc),
        code: Some(code),
        aside,
        status: 0,
    })
}

/// How many instructions a run of the filter takes at most.
fn budget_text<'a, R: rt::Files + AllocGlobal>(
    rt: &R,
    path: &'a str,
    form: Form,
) -> Result<String, Stop<'a>> {
    let filter = filter_at(rt, path)?;
    Ok(match form {
        Form::Text => longest_line(rt.alloc(), filter.longest())?,
        Form::Json => longest_object(rt.alloc(), filter.longest())?,
    })
}

/// That the filter is accepted.
fn verify_text<'a, R: rt::Files + AllocGlobal>(
    rt: &R,
    path: &'a str,
    form: Form,
) -> Result<String, Stop<'a>> {
    let filter = filter_at(rt, path)?;
    Ok(match form {
        Form::Text => accepted_line(rt.alloc(), filter.len())?,
        Form::Json => accepted_object(rt.alloc(), filter.len())?,
    })
}

/// The instructions of a file that is a list of them, with the names of these calls.
fn show_text<'a, R: rt::Files + AllocGlobal>(
    rt: &R,
    calls: CallTable,
    path: &'a str,
    form: Form,
) -> Result<String, Stop<'a>> {
    let bytes = bytes_at(rt, path)?;
    let code = match bpf_code::read(rt.alloc(), &bytes) {
        Ok(code) => code,
        Err(fault) => {
            let refused = Refused::Filter(Refusal::Code(fault));
            return Err(refused_stop(path, bytes, refused));
        }
    };
    let number_tests = number_tests(rt.alloc(), &code)?;
    Ok(match form {
        Form::Text => code_lines(rt.alloc(), calls, &code, number_tests.as_slice())?,
        Form::Json => code_objects(rt.alloc(), calls, &code, number_tests.as_slice())?,
    })
}

/// The value that the filter returns on the call, and the steps of its run.
fn run_text<'a, R: rt::Files + AllocGlobal>(
    rt: &R,
    path: &'a str,
    call: SysCall,
    form: Form,
) -> Result<String, Stop<'a>> {
    let filter = filter_at(rt, path)?;
    let judged = judge(&filter, &call);
    Ok(match form {
        Form::Text => judged_line(rt.alloc(), &judged)?,
        Form::Json => judged_object(rt.alloc(), &judged)?,
    })
}

/// The result of a script that is played under the filters. It may name these calls.
fn played_at<'a, R: rt::Files + AllocGlobal>(
    rt: &R,
    calls: CallTable,
    path: &'a str,
    filters: &[&'a str],
    attempt: u32,
) -> Result<Outcome, Stop<'a>> {
    let bytes = bytes_at(rt, path)?;
    let script = match script::read_placed_with(rt.alloc(), calls, &bytes) {
        Ok(script) => script,
        Err(found) => return Err(refused_stop(path, bytes, Refused::Script(found))),
    };
    let stack = stack_at(rt, filters)?;
    Ok(play(rt.alloc(), script, stack, attempt)?)
}

/// The record of a script that was played, and the code with which it ended.
fn record_text(
    alloc: Global,
    outcome: &Outcome,
    naming: Naming,
    form: Form,
) -> Result<String, AllocError> {
    match form {
        Form::Text => outcome_lines(alloc, outcome, naming),
        Form::Json => record_objects(alloc, outcome, naming),
    }
}

/// The profile of each container of a pod, and on standard error the parts of the manifest without effect.
fn pick_output<'a, R: rt::Files + AllocGlobal>(
    rt: &R,
    path: &'a str,
    seccomp_default: bool,
    form: Form,
) -> Result<Output, Stop<'a>> {
    let bytes = bytes_at(rt, path)?;
    let pod = match manifest::read_placed(rt.alloc(), &bytes) {
        Ok(pod) => pod,
        Err(found) => return Err(refused_stop(path, bytes, Refused::Manifest(found))),
    };
    let text = match form {
        Form::Text => picked_lines(rt.alloc(), &pod, seccomp_default)?,
        Form::Json => picked_objects(rt.alloc(), &pod, seccomp_default)?,
    };
    let aside = manifest_lines(rt.alloc(), path, &bytes)?;
    Ok(Output::with_aside(text, aside))
}

/// The stack of the filters in these files, the oldest one first. Each is read, judged and added before
/// the next one is read.
fn stack_at<'a, R: rt::Files + AllocGlobal>(rt: &R, paths: &[&'a str]) -> Result<Stack, Stop<'a>> {
    let mut stack = Stack::new(rt.alloc());
    for path in paths {
        let bytes = bytes_at(rt, path)?;
        let filter = match filter_of(rt.alloc(), &bytes) {
            Ok(filter) => filter,
            Err(refusal) => return Err(refused_stop(path, bytes, Refused::StackFilter(refusal))),
        };
        if let Err((_, fault)) = stack.push(filter) {
            return Err(refused_stop(path, bytes, Refused::Stack(fault)));
        }
    }
    Ok(stack)
}
