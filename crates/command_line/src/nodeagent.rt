ghost use Rattle.std.specs.Prelude.{◌≡◌, [], None, IfErr, IfOk, Ok, map, option_map, unwrap_or};
ghost use Rattle.std.specs.String.{string_bytes};
ghost use Rattle.clap.specs.Matches.{found_of};
ghost use Rattle.clap.specs.Faults.{fault_of};
ghost use Rattle.clap.specs.Simple.{app_of, matches_of};
ghost use Rattle.clap.specs.Walk.{rows_of};
ghost use Rattle.command_line.specs.Faults.{TellsFault};
ghost use Rattle.command_line.specs.Scriptd.{misfit_of_scriptd, or_else};
ghost use Rattle.command_line.specs.Words.{told};
ghost use Rattle.command_line.specs.Nodeagent.{choosing, coming, ending, misfit_in, misfit_of_end};
ghost use Rattle.command_line.specs.Nodeagent.{misfit_of_folder, misfit_of_pods, misfit_of_rest, naming};
ghost use Rattle.command_line.specs.Nodeagent.{misfit_of_runtime, nodeagent, nodeagent_in, nodeagent_of};
ghost use Rattle.command_line.specs.Nodeagent.{nodeagent_with, numbers_in, reads_nothing, running, settling};
ghost use Rattle.command_line.specs.Nodeagent.{speaking, telling, working};

use crate::arguments::{versioned, with_flag, with_option, with_words};
use crate::fault::{LineFault, Misfit};
use crate::matched::{
    calls_at, folder_at, has_words, is_set, is_there, required_at, word_at, words_at,
};
use crate::scriptd::{matches_in, misfit_of_scriptd, recording, serving};
use crate::written::{number_if_there, number_within};
use clap::{ArgMatches, Command};
use std::alloc::{AllocError, Global};
use sys_table::CallTable;

/// The numeric options of a line.
#[derive(Clone, Copy, Debug)]
pub struct Numbers {
    /// How many threads make the pods' requests, from 1 to 64.
    pub workers: u32,
    /// The last moment, in seconds from the start.
    pub until: Option<u64>,
    /// The version of the messages to the runtime, 1 or 2.
    pub cri: u32,
    /// How many entries a part of the history may have, from 1,024 to 1,048,576.
    pub history: u32,
}

/// The values on the command line of `nodeagent`.
#[derive(Debug, Drop)]
pub struct NodeagentLine<'a> {
    /// The path of the runtime's socket.
    pub socket: &'a str,
    /// Whether the runtime runs in this process too.
    pub with_runtime: bool,
    /// The folder of the containers' scripts.
    pub scripts: &'a str,
    /// The folder of the profiles.
    pub profiles: &'a str,
    /// The calls that scripts and profiles can name.
    pub calls: CallTable,
    /// The file of the node's own filter.
    pub baseline: Option<&'a str>,
    /// Whether a container without a seccomp profile gets RuntimeDefault.
    pub seccomp_default: bool,
    /// The file to which the records of containers are appended.
    pub records: Option<&'a str>,
    /// Whether a record lists performed calls too.
    pub records_all: bool,
    pub numbers: Numbers,
    /// Whether the clock is virtual, and the program ends once every pod is over.
    pub settle: bool,
    /// The folder of manifests whose pods come and go with the files.
    pub pods: Option<&'a str>,
    /// The suffix of uids that no manifest sets.
    pub run: Option<&'a str>,
    /// The file that keeps the uids of admitted pods, so that the next start can remove them.
    pub state: Option<&'a str>,
    /// Whether the pods are removed from the runtime at the end.
    pub remove: bool,
    /// Whether the table, or the changes, show why containers wait.
    pub reasons: bool,
    /// Whether the table, or the changes, show how many calls of each container were performed and denied.
    pub counts: bool,
    /// Whether a pod of the table that is Failed makes the status 1.
    pub fail: bool,
    /// Whether each change of a pod or a container is printed.
    pub watch: bool,
    /// Whether the table and the changes are printed as JSON.
    pub json: bool,
    /// Whether each event is logged on standard error.
    pub verbose: bool,
    /// The files of the pods' manifests: at least one, unless there is a folder of them.
    pub manifests: Vec<&'a str>,
}

/// Reads the words of a command line, the program's name first.
#[tactic(auto, using(crate::proofs::Simple::nodeagent_is_simple, crate::proofs::Simple::nodeagent_is_free))]
pub fn nodeagent_line<'a>(
    alloc: Global,
    words: &'a [String],
) -> Result<NodeagentLine<'a>, LineFault<'a>>
    // A line is returned exactly if clap takes the words and all of their numbers are in range, memory aside.
    ensures taken { IfOk result (λ _. fault_of nodeagent (map string_bytes words.now) ≡ []) }
    ensures line { IfOk result (λ line. nodeagent_in (matches_of nodeagent (map string_bytes words.now))
        ≡ Ok (nodeagent_of line)) }
    ensures fault { IfErr result (TellsFault (fault_of nodeagent (map string_bytes words.now))
        (misfit_in (matches_of nodeagent (map string_bytes words.now)))
        (nodeagent_in (matches_of nodeagent (map string_bytes words.now)))) }

    // A word that does not go with the others is refused.
    ensures used { IfOk result (λ _. misfit_in (matches_of nodeagent (map string_bytes words.now)) ≡ None) }
{
    let matches = matches_in(nodeagent(alloc)?, words)?;
    if let Some((word, why)) = misfit(&matches) {
        return Err(LineFault::Misfit(word, why));
    }
    match line_numbers(&matches) {
        Ok(numbers) => Ok(said(alloc, &matches, numbers)?),
        Err(word) => Err(LineFault::BadNumber(word)),
    }
}

#[tactic(auto, unfolding(crate::specs::Nodeagent::nodeagent))]
fn nodeagent<'a>(alloc: Global) -> Result<Command<'a>, AllocError>
    ensures { IfOk result (λ c. app_of c ≡ nodeagent) }
{
    let command = versioned(alloc, "nodeagent").about(
        "Run pods on a runtime behind a Unix socket, and print their states",
    );
    running(alloc, command)
}

fn running<'a>(alloc: Global, command: Command<'a>) -> Result<Command<'a>, AllocError>
    ensures { IfOk result (λ c. app_of c ≡ running (app_of command.entry)) }
{
    let command = coming(alloc, working(alloc, command)?)?;
    let command = telling(alloc, ending(alloc, command)?)?;
    naming(alloc, command)
}

fn working<'a>(alloc: Global, command: Command<'a>) -> Result<Command<'a>, AllocError>
    ensures { IfOk result (λ c. app_of c ≡ working (app_of command.entry)) }
{
    let command = choosing(alloc, serving(alloc, command)?)?;
    let command = recording(alloc, command)?;
    speaking(alloc, settling(alloc, command)?)
}

fn choosing<'a>(alloc: Global, command: Command<'a>) -> Result<Command<'a>, AllocError>
    ensures { IfOk result (λ c. app_of c ≡ choosing (app_of command.entry)) }
{
    let command = with_flag(
        alloc,
        command,
        "with-runtime",
        "Run the runtime in this process too, with four runners",
    )?;
    with_flag(
        alloc,
        command,
        "seccomp-default",
        "Use RuntimeDefault for containers that name no profile",
    )
}

fn naming<'a>(alloc: Global, command: Command<'a>) -> Result<Command<'a>, AllocError>
    ensures { IfOk result (λ c. app_of c ≡ naming (app_of command.entry)) }
{
    let command = with_flag(
        alloc,
        command,
        "verbose",
        "Log each event on standard error",
    )?;
    with_words(alloc, command, "MANIFEST", "Manifests of pods, as JSON")
}

fn settling<'a>(alloc: Global, command: Command<'a>) -> Result<Command<'a>, AllocError>
    ensures { IfOk result (λ c. app_of c ≡ settling (app_of command.entry)) }
{
    let command = with_option(
        alloc,
        command,
        "workers",
        "N",
        "Number of threads that make the pods' requests, 1 to 64 [default: 4]",
    )?;
    let command = with_flag(
        alloc,
        command,
        "settle",
        "Use a virtual clock instead of waiting, and end once every pod is over",
    )?;
    with_option(
        alloc,
        command,
        "until",
        "S",
        "End after this many seconds [default with --settle: 3600]",
    )
}

fn speaking<'a>(alloc: Global, command: Command<'a>) -> Result<Command<'a>, AllocError>
    ensures { IfOk result (λ c. app_of c ≡ speaking (app_of command.entry)) }
{
    let command = with_option(
        alloc,
        command,
        "cri",
        "N",
        "Version of the messages to the runtime, 1 or 2 [default: 2]",
    )?;
    with_option(
        alloc,
        command,
        "history",
        "N",
        "Number of entries in a part of the history, 1024 to 1048576 [default: 65536]",
    )
}

fn coming<'a>(alloc: Global, command: Command<'a>) -> Result<Command<'a>, AllocError>
    ensures { IfOk result (λ c. app_of c ≡ coming (app_of command.entry)) }
{
    let command = with_option(
        alloc,
        command,
        "pods",
        "DIR",
        "Run the pods of this folder: manifests, *.json, may come and go while the agent runs",
    )?;
    let command = with_option(
        alloc,
        command,
        "run",
        "NAME",
        "Suffix of generated pod uids, after a dot",
    )?;
    with_option(
        alloc,
        command,
        "state",
        "FILE",
        "Keep the uids of admitted pods in FILE, and remove those of a former start first",
    )
}

fn ending<'a>(alloc: Global, command: Command<'a>) -> Result<Command<'a>, AllocError>
    ensures { IfOk result (λ c. app_of c ≡ ending (app_of command.entry)) }
{
    let command = with_flag(
        alloc,
        command,
        "remove",
        "Remove the pods from the runtime at the end (with --settle)",
    )?;
    let command = with_flag(
        alloc,
        command,
        "reasons",
        "Print why each unfinished container waits (with --settle or --watch)",
    )?;
    let command = with_flag(
        alloc,
        command,
        "counts",
        "Print how many calls of each container were performed and denied (with --settle or --watch)",
    )?;
    with_flag(
        alloc,
        command,
        "fail",
        "Exit with 1 if a pod is Failed (with --settle)",
    )
}

fn telling<'a>(alloc: Global, command: Command<'a>) -> Result<Command<'a>, AllocError>
    ensures { IfOk result (λ c. app_of c ≡ telling (app_of command.entry)) }
{
    let command = with_flag(
        alloc,
        command,
        "watch",
        "Print each change of a pod or container (without --settle)",
    )?;
    with_flag(
        alloc,
        command,
        "json",
        "Print the table, or the changes, as JSON, one object per line",
    )
}

// The first word that does not go with the others.
fn misfit(matches: &ArgMatches) -> Option<(&'static str, Misfit)>
    ensures { option_map (λ m. (m.0.now, m.1)) result ≡ misfit_in (rows_of (found_of matches.now)) }
{
    match misfit_of_runtime(matches) {
        Some(misfit) => Some(misfit),
        None => misfit_beside(matches),
    }
}

fn misfit_beside(matches: &ArgMatches) -> Option<(&'static str, Misfit)>
    ensures { option_map (λ m. (m.0.now, m.1)) result ≡ or_else
        (misfit_of_scriptd (rows_of (found_of matches.now)))
        (or_else (misfit_of_folder (rows_of (found_of matches.now))) (misfit_of_rest (rows_of (found_of matches.now)))) }
{
    match misfit_of_scriptd(matches) {
        Some(misfit) => Some(misfit),
        None => misfit_of_folder_and_rest(matches),
    }
}

// The first option for a runtime in the same process, if the line does not ask for one.
fn misfit_of_runtime(matches: &ArgMatches) -> Option<(&'static str, Misfit)>
    ensures { option_map (λ m. (m.0.now, m.1)) result ≡ misfit_of_runtime (rows_of (found_of matches.now)) }
{
    if reads_nothing(matches, "scripts") {
        Some(("--scripts", Misfit::WithoutRuntime))
    } else if reads_nothing(matches, "profiles") {
        Some(("--profiles", Misfit::WithoutRuntime))
    } else if reads_nothing(matches, "calls") {
        Some(("--calls", Misfit::WithoutRuntime))
    } else if reads_nothing(matches, "records") {
        Some(("--records", Misfit::WithoutRuntime))
    } else {
        None
    }
}

fn misfit_of_folder_and_rest(matches: &ArgMatches) -> Option<(&'static str, Misfit)>
    ensures { option_map (λ m. (m.0.now, m.1)) result ≡ or_else
        (misfit_of_folder (rows_of (found_of matches.now))) (misfit_of_rest (rows_of (found_of matches.now))) }
{
    match misfit_of_folder(matches) {
        Some(misfit) => Some(misfit),
        None => misfit_of_rest(matches),
    }
}

fn misfit_of_rest(matches: &ArgMatches) -> Option<(&'static str, Misfit)>
    ensures { option_map (λ m. (m.0.now, m.1)) result ≡ misfit_of_rest (rows_of (found_of matches.now)) }
{
    match misfit_of_end(matches) {
        Some(misfit) => Some(misfit),
        None => misfit_of_pods(matches),
    }
}

// Whether the option is given although no runtime would use it.
fn reads_nothing(matches: &ArgMatches, option: &str) -> bool
    ensures { result ≡ reads_nothing option.now (rows_of (found_of matches.now)) }
{
    !is_set(matches, "with-runtime") && is_there(matches, option)
}

fn misfit_of_folder(matches: &ArgMatches) -> Option<(&'static str, Misfit)>
    ensures { option_map (λ m. (m.0.now, m.1)) result ≡ misfit_of_folder (rows_of (found_of matches.now)) }
{
    let settles = is_set(matches, "settle");
    if settles && is_there(matches, "pods") {
        Some(("--pods", Misfit::WithSettle))
    } else if settles && is_there(matches, "state") {
        Some(("--state", Misfit::WithSettle))
    } else if !is_there(matches, "pods") && is_there(matches, "state") {
        Some(("--state", Misfit::WithoutPods))
    } else {
        None
    }
}

fn misfit_of_end(matches: &ArgMatches) -> Option<(&'static str, Misfit)>
    ensures { option_map (λ m. (m.0.now, m.1)) result ≡ misfit_of_end (rows_of (found_of matches.now)) }
{
    let settles = is_set(matches, "settle");
    if !settles && is_set(matches, "remove") {
        Some(("--remove", Misfit::WithoutSettle))
    } else if !settles && !is_set(matches, "watch") && is_set(matches, "reasons") {
        Some(("--reasons", Misfit::WithoutSettle))
    } else if !settles && !is_set(matches, "watch") && is_set(matches, "counts") {
        Some(("--counts", Misfit::WithoutSettle))
    } else if !settles && is_set(matches, "fail") {
        Some(("--fail", Misfit::WithoutSettle))
    } else if settles && is_set(matches, "watch") {
        Some(("--watch", Misfit::WithSettle))
    } else if !settles && !is_set(matches, "watch") && is_set(matches, "json") {
        Some(("--json", Misfit::NothingToTell))
    } else {
        None
    }
}

fn misfit_of_pods(matches: &ArgMatches) -> Option<(&'static str, Misfit)>
    ensures { option_map (λ m. (m.0.now, m.1)) result ≡ misfit_of_pods (rows_of (found_of matches.now)) }
{
    if !is_there(matches, "pods") && !has_words(matches, "MANIFEST") {
        Some(("MANIFEST", Misfit::Missing))
    } else {
        None
    }
}

fn line_numbers<'a>(matches: &ArgMatches<'a>) -> Result<Numbers, &'a str>
    ensures { told result ≡ numbers_in (rows_of (found_of matches.now)) }
{
    let workers = number_within(1, 64, 4, word_at(matches, "workers"))?;
    let until = number_if_there(word_at(matches, "until"))?;
    let cri = number_within(1, 2, 2, word_at(matches, "cri"))?;
    let history = number_within(1_024, 1_048_576, 65_536, word_at(matches, "history"))?;
    Ok(Numbers {
        workers,
        until,
        cri,
        history,
    })
}

fn said<'a>(
    alloc: Global,
    matches: &ArgMatches<'a>,
    numbers: Numbers,
) -> Result<NodeagentLine<'a>, AllocError>
    ensures { IfOk result (λ line. nodeagent_with (rows_of (found_of matches.now)) (Ok numbers)
        ≡ Ok (nodeagent_of line)) }
{
    Ok(NodeagentLine {
        socket: required_at(matches, "socket"),
        with_runtime: is_set(matches, "with-runtime"),
        scripts: folder_at(matches, "scripts"),
        profiles: folder_at(matches, "profiles"),
        calls: calls_at(matches),
        baseline: word_at(matches, "baseline"),
        seccomp_default: is_set(matches, "seccomp-default"),
        records: word_at(matches, "records"),
        records_all: is_set(matches, "records-all"),
        numbers,
        settle: is_set(matches, "settle"),
        pods: word_at(matches, "pods"),
        run: word_at(matches, "run"),
        state: word_at(matches, "state"),
        remove: is_set(matches, "remove"),
        reasons: is_set(matches, "reasons"),
        counts: is_set(matches, "counts"),
        fail: is_set(matches, "fail"),
        watch: is_set(matches, "watch"),
        json: is_set(matches, "json"),
        verbose: is_set(matches, "verbose"),
        manifests: listed(alloc, words_at(matches, "MANIFEST"))?,
    })
}

/// A list of the borrowed words.
fn listed<'a>(alloc: Global, words: Option<&[&'a str]>) -> Result<Vec<&'a str>, AllocError>
    ensures { IfOk result (λ list. map (λ w. w.now) list.items
        ≡ unwrap_or (option_map (λ s. map (λ w. w.now) s.now) words.entry) []) }
{
    let mut list = Vec::new(alloc);
    if let Some(words) = words {
        list.extend_from_slice(words)?;
    }
    Ok(list)
}
