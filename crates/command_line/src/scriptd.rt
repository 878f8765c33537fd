ghost use Rattle.std.specs.Prelude.{◌≡◌, [], true, None, IfErr, IfOk, Ok, map, option_map};
ghost use Rattle.std.specs.Result.{result_map_both};
ghost use Rattle.std.specs.String.{string_bytes};
ghost use Rattle.clap.specs.Matches.{found_of};
ghost use Rattle.clap.specs.Faults.{fault_of, is_simple_and_free};
ghost use Rattle.clap.specs.Simple.{app_of, is_simple, matches_of};
ghost use Rattle.clap.specs.Walk.{rows_of};
ghost use Rattle.command_line.specs.Faults.{IsRefusal, TellsFault};
ghost use Rattle.command_line.specs.Scriptd.{folders, misfit_of_calls, misfit_of_records, misfit_of_scriptd};
ghost use Rattle.command_line.specs.Scriptd.{recording, scriptd, scriptd_in, scriptd_of, serving, stepping};

use crate::arguments::{versioned, with_flag, with_option, with_required};
use crate::fault::{LineFault, Misfit};
use crate::matched::{calls_at, folder_at, has_calls, is_set, is_there, required_at, word_at};
use crate::written::number_within;
use clap::{ArgMatches, Command};
use std::alloc::{AllocError, Global};
use sys_table::CallTable;

/// The values on the command line of `scriptd`.
#[derive(Clone, Copy, Debug)]
pub struct ScriptdLine<'a> {
    /// The path of the socket.
    pub socket: &'a str,
    /// The folder of the containers' scripts.
    pub scripts: &'a str,
    /// The folder of the profiles.
    pub profiles: &'a str,
    /// The calls that scripts and profiles can name.
    pub calls: CallTable,
    /// The file of the node's own filter.
    pub baseline: Option<&'a str>,
    /// How many threads step the containers, from 1 to 64.
    pub runners: u32,
    /// The file to which the records of containers are appended.
    pub records: Option<&'a str>,
    /// Whether a record lists performed calls too.
    pub records_all: bool,
    /// Whether each event is logged on standard error.
    pub verbose: bool,
}

/// Reads the words of a command line, the program's name first.
#[tactic(auto, using(crate::proofs::Simple::scriptd_is_simple, crate::proofs::Simple::scriptd_is_free))]
pub fn scriptd_line<'a>(
    alloc: Global,
    words: &'a [String],
) -> Result<ScriptdLine<'a>, LineFault<'a>>
    // A line is returned exactly if clap takes the words and all of their numbers are in range, memory aside.
    ensures taken { IfOk result (λ _. fault_of scriptd (map string_bytes words.now) ≡ []) }
    ensures line { IfOk result (λ line. scriptd_in (matches_of scriptd (map string_bytes words.now))
        ≡ Ok (scriptd_of line)) }
    ensures fault { IfErr result (TellsFault (fault_of scriptd (map string_bytes words.now))
        (misfit_of_scriptd (matches_of scriptd (map string_bytes words.now)))
        (scriptd_in (matches_of scriptd (map string_bytes words.now)))) }

    // A word that does not go with the others is refused.
    ensures used { IfOk result (λ _. misfit_of_scriptd (matches_of scriptd (map string_bytes words.now))
        ≡ None) }
{
    let matches = matches_in(scriptd(alloc)?, words)?;
    if let Some((word, why)) = misfit_of_scriptd(&matches) {
        return Err(LineFault::Misfit(word, why));
    }
    match said(&matches) {
        Ok(line) => Ok(line),
        Err(word) => Err(LineFault::BadNumber(word)),
    }
}

#[tactic(auto, unfolding(crate::specs::Scriptd::scriptd))]
fn scriptd<'a>(alloc: Global) -> Result<Command<'a>, AllocError>
    ensures { IfOk result (λ c. app_of c ≡ scriptd) }
{
    let command = versioned(alloc, "scriptd").about(
        "Run a simulated container runtime: serve CRI calls on a Unix socket, and play scripts as containers",
    );
    stepping(alloc, serving(alloc, command)?)
}

fn stepping<'a>(alloc: Global, command: Command<'a>) -> Result<Command<'a>, AllocError>
    ensures { IfOk result (λ c. app_of c ≡ stepping (app_of command.entry)) }
{
    let command = with_option(
        alloc,
        command,
        "runners",
        "N",
        "Number of threads that step containers, 1 to 64 [default: 4]",
    )?;
    let command = recording(alloc, command)?;
    with_flag(
        alloc,
        command,
        "verbose",
        "Log each event on standard error",
    )
}

/// The options of records.
pub(crate) fn recording<'a>(alloc: Global, command: Command<'a>) -> Result<Command<'a>, AllocError>
    ensures { IfOk result (λ c. app_of c ≡ recording (app_of command.entry)) }
{
    let command = with_option(
        alloc,
        command,
        "records",
        "FILE",
        "Append a record of each container to FILE: the calls that it was denied",
    )?;
    with_flag(
        alloc,
        command,
        "records-all",
        "List performed calls in the records too",
    )
}

/// The option of records that does not go with the others.
fn misfit_of_records(matches: &ArgMatches) -> Option<(&'static str, Misfit)>
    ensures { option_map (λ m. (m.0.now, m.1)) result ≡ misfit_of_records (rows_of (found_of matches.now)) }
{
    if is_set(matches, "records-all") && !is_there(matches, "records") {
        Some(("--records-all", Misfit::WithoutRecords))
    } else {
        None
    }
}

fn misfit_of_calls(matches: &ArgMatches) -> Option<(&'static str, Misfit)>
    ensures { option_map (λ m. (m.0.now, m.1)) result ≡ misfit_of_calls (rows_of (found_of matches.now)) }
{
    if has_calls(matches) {
        None
    } else {
        Some(("--calls", Misfit::BadCalls))
    }
}

/// The first option of a program that runs containers that does not go with the others.
pub(crate) fn misfit_of_scriptd(matches: &ArgMatches) -> Option<(&'static str, Misfit)>
    ensures { option_map (λ m. (m.0.now, m.1)) result ≡ misfit_of_scriptd (rows_of (found_of matches.now)) }
{
    match misfit_of_calls(matches) {
        Some(misfit) => Some(misfit),
        None => misfit_of_records(matches),
    }
}

/// The options of a program that runs containers.
pub(crate) fn serving<'a>(alloc: Global, command: Command<'a>) -> Result<Command<'a>, AllocError>
    ensures { IfOk result (λ c. app_of c ≡ serving (app_of command.entry)) }
{
    let command = with_required(alloc, command, "socket", "PATH", "Path of the socket")?;
    let command = folders(alloc, command)?;
    with_option(
        alloc,
        command,
        "baseline",
        "FILTER",
        "Filter file that confines every container of the node",
    )
}

fn folders<'a>(alloc: Global, command: Command<'a>) -> Result<Command<'a>, AllocError>
    ensures { IfOk result (λ c. app_of c ≡ folders (app_of command.entry)) }
{
    let command = with_option(
        alloc,
        command,
        "scripts",
        "DIR",
        "Folder of the containers' scripts [default: .]",
    )?;
    let command = with_option(
        alloc,
        command,
        "profiles",
        "DIR",
        "Folder of the seccomp profiles [default: .]",
    )?;
    with_option(
        alloc,
        command,
        "calls",
        "V",
        "Version of Linux whose calls are known by name, 5.8 or 6.12 [default: 5.8]",
    )
}

/// The matches of the words of a simple command.
pub(crate) fn matches_in<'a>(
    mut command: Command<'a>,
    words: &'a [String],
) -> Result<ArgMatches<'a>, LineFault<'a>>
    requires simple { is_simple (app_of command) ≡ true }
    requires free { is_simple_and_free (app_of command) ≡ true }
    ensures taken { IfOk result (λ _. fault_of (app_of command.entry) (map string_bytes words.now) ≡ []) }
    ensures rows { IfOk result (λ m. rows_of (found_of m)
        ≡ matches_of (app_of command.entry) (map string_bytes words.now)) }
    ensures fault { IfErr result (IsRefusal (fault_of (app_of command.entry) (map string_bytes words.now))) }
{
    Ok(command.try_get_matches_from_mut(words)?)
}

fn said<'a>(matches: &ArgMatches<'a>) -> Result<ScriptdLine<'a>, &'a str>
    ensures { result_map_both scriptd_of (λ w. w.now) result ≡ scriptd_in (rows_of (found_of matches.now)) }
{
    let runners = number_within(1, 64, 4, word_at(matches, "runners"))?;
    Ok(ScriptdLine {
        socket: required_at(matches, "socket"),
        scripts: folder_at(matches, "scripts"),
        profiles: folder_at(matches, "profiles"),
        calls: calls_at(matches),
        baseline: word_at(matches, "baseline"),
        runners,
        records: word_at(matches, "records"),
        records_all: is_set(matches, "records-all"),
        verbose: is_set(matches, "verbose"),
    })
}
