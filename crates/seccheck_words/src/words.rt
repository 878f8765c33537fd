ghost use Rattle.std.specs.Prelude.{◌≡◌, option_map};
ghost use Rattle.clap.specs.Matches.{found_of};
ghost use Rattle.seccheck_words.specs.Words.{attempt_in, budget_in, call_in, calls_in, calls_or, word_in};
ghost use Rattle.seccheck_words.specs.CallWords.{told_word};
ghost use Rattle.command_line.specs.Words.{told};

use crate::call_words::{BadCallWord, call};
use call_data::SysCall;
use clap::{Arg, ArgAction, ArgMatches, Command};
use command_line::{VERSION, number_or, word_or};
use std::alloc::{AllocError, Global};
use sys_table::CallTable;

/// The program's name.
pub(crate) const PROGRAM: &str = "seccheck";

/// The command line of `seccheck`.
pub fn command<'a>(alloc: Global) -> Result<Command<'a>, AllocError> {
    Command::new(alloc, PROGRAM)
        .version(VERSION)
        .about(
            "Compile, check and explain seccomp profiles, and verify, compare and run their filters",
        )
        .subcommand_required(true)
        .subcommand(compile(alloc)?)?
        .subcommand(Command::new(alloc, "default").about(
            "Print the RuntimeDefault profile as JSON",
        ))?
        .subcommand(lint(alloc)?)?
        .subcommand(table(alloc)?)?
        .subcommand(report(alloc)?)?
        .subcommand(resolve(alloc)?)?
        .subcommand(of_filter(alloc, "verify", "Check whether a filter is sound")?)?
        .subcommand(of_filter(
            alloc,
            "budget",
            "Print how many instructions a run of a filter executes at most",
        )?)?
        .subcommand(show(alloc)?)?
        .subcommand(run(alloc)?)?
        .subcommand(explain(alloc)?)?
        .subcommand(compare(alloc)?)?
        .subcommand(play(alloc)?)?
        .subcommand(pick(alloc)?)?
        .subcommand(denied(alloc)?)?
        .subcommand(learn(alloc)?)?
        .subcommand(write(alloc)?)
}

fn compile<'a>(alloc: Global) -> Result<Command<'a>, AllocError> {
    Command::new(alloc, "compile")
        .about("Compile a seccomp profile to a filter")
        .arg(given(alloc, "PROFILE", "Profile, the JSON of OCI's linux.seccomp"))?
        .arg(given(alloc, "OUT", "Filter file to write"))?
        .arg(flag(
            alloc,
            "base64",
            "Write the filter in Base64, as an annotation of crun takes it",
        ))?
        .arg(calls(alloc))?
        .arg(json(alloc))
}

fn lint<'a>(alloc: Global) -> Result<Command<'a>, AllocError> {
    Command::new(alloc, "lint")
        .about("Report entries of a profile that have no effect or are probably mistakes")
        .arg(given(alloc, "PROFILE", "Profile, or the manifest of a pod"))?
        .arg(flag(
            alloc,
            "all",
            "Print each name that is not a call of x86-64, or is newer than the table",
        ))?
        .arg(option(
            alloc,
            "allow",
            "KIND",
            "Kind of findings to leave out, such as Redundant; may be repeated",
        )
        .action(ArgAction::Append))?
        .arg(calls(alloc))?
        .arg(json(alloc))
}

fn table<'a>(alloc: Global) -> Result<Command<'a>, AllocError> {
    Command::new(alloc, "table")
        .about("Print how a profile treats each call")
        .arg(given(alloc, "PROFILE", "Profile"))?
        .arg(option(
            alloc,
            "against",
            "OLD",
            "Print only the calls on which the profile differs from OLD",
        ))?
        .arg(calls(alloc))?
        .arg(json(alloc))
}

fn report<'a>(alloc: Global) -> Result<Command<'a>, AllocError> {
    Command::new(alloc, "report")
        .about("Print a page of HTML about a profile: each call, what decides it, and the filter")
        .arg(given(alloc, "PROFILE", "Profile"))?
        .arg(option(
            alloc,
            "against",
            "OLD",
            "Frame the calls on which the profile differs from OLD",
        ))?
        .arg(option(
            alloc,
            "records",
            "FILE",
            "Add the calls that the records of containers in FILE show as denied",
        ))?
        .arg(calls(alloc))
}

fn resolve<'a>(alloc: Global) -> Result<Command<'a>, AllocError> {
    Command::new(alloc, "resolve")
        .about("Turn a template of Docker or podman into a plain profile")
        .arg(given(
            alloc,
            "TEMPLATE",
            "Template, such as Docker's or podman's default profile",
        ))?
        .arg(option(
            alloc,
            "cap",
            "CAP",
            "Capability of the container, such as SYS_ADMIN; may be repeated",
        )
        .action(ArgAction::Append))?
        .arg(option(
            alloc,
            "arch",
            "ARCH",
            "Architecture of the container, by name or number; amd64 if absent",
        ))?
        .arg(option(
            alloc,
            "kernel",
            "V",
            "Version of the kernel, as `uname -r` prints it; the newest if absent",
        ))?
        .arg(calls(alloc))?
        .arg(flag(
            alloc,
            "drop-newer",
            "Leave calls newer than the table out of entries stricter than the default",
        ))
}

/// A command on one filter.
fn of_filter<'a>(
    alloc: Global,
    name: &'static str,
    about: &'static str,
) -> Result<Command<'a>, AllocError> {
    Command::new(alloc, name)
        .about(about)
        .arg(given(alloc, "FILTER", "Filter file"))?
        .arg(json(alloc))
}

fn show<'a>(alloc: Global) -> Result<Command<'a>, AllocError> {
    Command::new(alloc, "show")
        .about("Print the instructions of a filter, sound or not")
        .arg(given(alloc, "FILTER", "Filter file"))?
        .arg(calls(alloc))?
        .arg(json(alloc))
}

fn run<'a>(alloc: Global) -> Result<Command<'a>, AllocError> {
    of_call(
        alloc,
        Command::new(alloc, "run")
            .about("Run a filter on a call")
            .arg(given(alloc, "FILTER", "Filter file"))?
            .arg(given(alloc, "CALL", CALL_HELP))?,
    )
}

fn explain<'a>(alloc: Global) -> Result<Command<'a>, AllocError> {
    let audit = option(
        alloc,
        "audit",
        "LOG",
        "Explain the calls that the kernel's log reports as denied",
    )
    .conflicts_with("CALL")?
    .conflicts_with("arch")?
    .conflicts_with("ip")?;
    let command = Command::new(alloc, "explain")
        .about("Print the entry of a profile that decides a call, and why no earlier one does")
        .arg(given(alloc, "PROFILE", "Profile"))?
        .arg(
            Arg::new(alloc, "CALL")
                .required_unless_present("audit")?
                .help(CALL_HELP),
        )?;
    of_call(alloc, command)?.arg(audit)
}

const CALL_HELP: &str = "Number or name of the call";

/// The words of a call after its number or name.
fn of_call<'a>(alloc: Global, command: Command<'a>) -> Result<Command<'a>, AllocError> {
    command
        .arg(
            Arg::new(alloc, "ARG")
                .num_args(0..=6)
                .help("Arguments of the call; missing ones are 0"),
        )?
        .arg(option(
            alloc,
            "arch",
            "A",
            "Architecture of the call, by name or number; x86_64 if absent",
        ))?
        .arg(option(alloc, "ip", "I", "Instruction pointer of the call"))?
        .arg(calls(alloc))?
        .arg(json(alloc))
}

fn compare<'a>(alloc: Global) -> Result<Command<'a>, AllocError> {
    Command::new(alloc, "compare")
        .about("Check whether two filters or profiles return the same on every call")
        .arg(given(alloc, "A", "Filter file or profile"))?
        .arg(given(alloc, "B", "Filter file or profile to compare with"))?
        .arg(
            Arg::new(alloc, "native")
                .long("native")
                .action(ArgAction::SetTrue)
                .help("Compare the calls of x86-64 only, without those of x32"),
        )?
        .arg(flag(
            alloc,
            "all",
            "Print each call on which they differ, by name",
        ))?
        .arg(option(
            alloc,
            "budget",
            "N",
            "Instructions to follow at most, with --all for each part",
        ))?
        .arg(calls(alloc))?
        .arg(json(alloc))
}

fn play<'a>(alloc: Global) -> Result<Command<'a>, AllocError> {
    let command = Command::new(alloc, "play")
        .about("Play a container's script under filters and print its record")
        .arg(
            Arg::new(alloc, "SCRIPT")
                .required_unless_present("pod")?
                .help("Script file"),
        )?
        .arg(
            Arg::new(alloc, "FILTER")
                .num_args(0..)
                .help("Filter files, the oldest first"),
        )?
        .arg(option(alloc, "attempt", "K", "Attempt of the container, from 0"))?
        .arg(
            Arg::new(alloc, "names")
                .long("names")
                .action(ArgAction::SetTrue)
                .help("Print the names of calls, not their numbers"),
        )?;
    of_pod(alloc, command)?.arg(calls(alloc))?.arg(json(alloc))
}

/// The words of a pod that is played.
fn of_pod<'a>(alloc: Global, command: Command<'a>) -> Result<Command<'a>, AllocError> {
    command
        .arg(option(
            alloc,
            "pod",
            "MANIFEST",
            "Play the containers of a pod, each under its own profile",
        )
        .conflicts_with("SCRIPT")?)?
        .arg(
            option(
                alloc,
                "scripts",
                "DIR",
                "Folder of the containers' scripts [default: .]",
            )
            .requires_arg("pod")?
            .conflicts_with("SCRIPT")?,
        )?
        .arg(
            option(
                alloc,
                "profiles",
                "DIR",
                "Folder of the seccomp profiles [default: .]",
            )
            .requires_arg("pod")?
            .conflicts_with("SCRIPT")?,
        )?
        .arg(
            option(
                alloc,
                "baseline",
                "FILTER",
                "Filter file that confines every container of the node",
            )
            .requires_arg("pod")?
            .conflicts_with("SCRIPT")?,
        )?
        .arg(
            Arg::new(alloc, "seccomp-default")
                .long("seccomp-default")
                .action(ArgAction::SetTrue)
                .requires_arg("pod")?
                .conflicts_with("SCRIPT")?
                .help("Assume a node whose seccomp default is on"),
        )
}

fn pick<'a>(alloc: Global) -> Result<Command<'a>, AllocError> {
    Command::new(alloc, "pick")
        .about("Print the seccomp profile of each container of a pod")
        .arg(given(alloc, "MANIFEST", "Manifest of a pod, as JSON"))?
        .arg(
            Arg::new(alloc, "seccomp-default")
                .long("seccomp-default")
                .action(ArgAction::SetTrue)
                .help("Assume a node whose seccomp default is on"),
        )?
        .arg(json(alloc))
}

fn denied<'a>(alloc: Global) -> Result<Command<'a>, AllocError> {
    Command::new(alloc, "denied")
        .about("Add up the calls that containers were denied, the most denied first")
        .arg(
            Arg::new(alloc, "FILE")
                .num_args(1..)
                .required(true)
                .help("Files of records of containers, one per line"),
        )?
        .arg(
            Arg::new(alloc, "by-call")
                .long("by-call")
                .action(ArgAction::SetTrue)
                .conflicts_with("profiles")?
                .help("Add up the calls of all containers"),
        )?
        .arg(option(
            alloc,
            "profiles",
            "DIR",
            "Folder of the profiles: print what of a profile denied each call",
        ))?
        .arg(calls(alloc))?
        .arg(json(alloc))
}

fn learn<'a>(alloc: Global) -> Result<Command<'a>, AllocError> {
    Command::new(alloc, "learn")
        .about("Print a profile that allows the calls seen in logs")
        .arg(
            Arg::new(alloc, "FILE").num_args(1..).required(true).help(
                "Logs of strace, audit lines, records of containers, or lists of names",
            ),
        )?
        .arg(option(
            alloc,
            "default",
            "ACTION",
            "Action of other calls, such as 'ERRNO 38' [default: ERRNO 1]",
        )
        .conflicts_with("base")?)?
        .arg(option(
            alloc,
            "base",
            "PROFILE",
            "Profile to which the calls are added",
        ))?
        .arg(flag(
            alloc,
            "args",
            "Compare socket's domain and the like, if at most four numbers were seen",
        ))?
        .arg(flag(
            alloc,
            "needed",
            "Also allow calls that any program may need, such as exit_group",
        ))?
        .arg(flag(
            alloc,
            "strict",
            "Refuse the first broken line instead of leaving it out",
        ))?
        .arg(calls(alloc))
}

fn write<'a>(alloc: Global) -> Result<Command<'a>, AllocError> {
    Command::new(alloc, "write")
        .about("Print a profile in the form of another program")
        .arg(given(alloc, "PROFILE", "Profile without conditions"))?
        .arg(flag(
            alloc,
            "systemd",
            "Print the lines of a unit of systemd, with SystemCallFilter=",
        )
        .required(true))?
        .arg(calls(alloc))
}

/// A word without a value.
fn flag<'a>(alloc: Global, id: &'static str, help: &'static str) -> Arg<'a> {
    Arg::new(alloc, id)
        .long(id)
        .action(ArgAction::SetTrue)
        .help(help)
}

/// The calls that are known by name.
fn calls<'a>(alloc: Global) -> Arg<'a> {
    option(
        alloc,
        "calls",
        "V",
        "Version of Linux whose calls are known by name, 5.8 or 6.12 [default: 5.8]",
    )
}

/// Has the answer written as JSON.
fn json<'a>(alloc: Global) -> Arg<'a> {
    Arg::new(alloc, "json")
        .long("json")
        .action(ArgAction::SetTrue)
        .help("Print the answer as JSON, one object per line")
}

/// A word that has to be there.
fn given<'a>(alloc: Global, id: &'static str, help: &'static str) -> Arg<'a> {
    Arg::new(alloc, id).required(true).help(help)
}

/// An option with a value.
fn option<'a>(alloc: Global, id: &'static str, value: &'static str, help: &'static str) -> Arg<'a> {
    Arg::new(alloc, id).long(id).value_name(value).help(help)
}

/// The calls that are known by name, or the word that is no version of Linux with a table.
pub fn calls_at<'a>(matches: &ArgMatches<'a>) -> Result<CallTable, &'a str>
    ensures { told result ≡ calls_in (found_of matches.now) }
{
    calls_or(matches.get_str("calls"))
}

fn calls_or(word: Option<&str>) -> Result<CallTable, &str>
    ensures { told result ≡ calls_or (option_map (λ w. w.now) word.entry) }
{
    match word {
        Some(word) => CallTable::of_linux(word).ok_or(word),
        None => Ok(CallTable::Linux5_8),
    }
}

/// The call that the command line of `run` or `explain` writes, if these are the known calls.
pub fn call_at<'a>(calls: CallTable, matches: &ArgMatches<'a>) -> Result<SysCall, BadCallWord<'a>>
    ensures { told_word result ≡ call_in calls (found_of matches.now) }
{
    call(
        calls,
        word_at(matches, "CALL"),
        matches.get_strs("ARG").unwrap_or(&[]),
        matches.get_str("arch"),
        matches.get_str("ip"),
    )
}

/// Which attempt the command line of `play` writes.
pub fn attempt_at<'a>(matches: &ArgMatches<'a>) -> Result<u32, &'a str>
    ensures { told result ≡ attempt_in (found_of matches.now) }
{
    word_or(0, matches.get_str("attempt"))
}

/// How many instructions the command line of `compare` has followed at most.
pub fn budget_at<'a>(default: u64, matches: &ArgMatches<'a>) -> Result<u64, &'a str>
    ensures { told result ≡ budget_in default (found_of matches.now) }
{
    number_or(default, matches.get_str("budget"))
}

/// The word of a required argument.
pub fn word_at<'a>(matches: &ArgMatches<'a>, id: &str) -> &'a str
    ensures { result.now ≡ word_in id.now (found_of matches.now) }
{
    // clap ensures that a required argument has a value.
    matches.get_str(id).unwrap_or("")
}
