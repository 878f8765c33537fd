ghost use Rattle.std.specs.Prelude.{◌≡◌, ◌∷◌, IfErr, IfOk, OnOk, map, option_map, unwrap_or, []};
ghost use Rattle.std.specs.String.{string_bytes};
ghost use Rattle.clap.specs.Faults.{fault_of};
ghost use Rattle.clap.specs.Matches.{found_of};
ghost use Rattle.clap.specs.Simple.{app_of, matches_of};
ghost use Rattle.clap.specs.Walk.{rows_of};
ghost use Rattle.command_line.specs.Scriptctl.{IsScriptctl, TellsSpoken, asking, command_named, scriptctl};
ghost use Rattle.command_line.specs.Scriptctl.{reaching, spoken, spoken_in};
ghost use Rattle.command_line.specs.Scriptctl.Spoken.{Asks};

use crate::arguments::{versioned, with_flag, with_required, with_words};
use crate::fault::{LineFault, Misfit};
use crate::matched::{is_set, required_at, words_at};
use crate::scriptd::matches_in;
use clap::{ArgMatches, Command};
use std::alloc::{AllocError, Global};

/// A command to a runtime about pods.
#[derive(Clone, Copy, Debug, PartialEq, Eq)]
pub enum PodCommand {
    /// The statuses of their containers.
    Ps,
    /// To stop their sandboxes.
    Stop,
    /// To remove their sandboxes.
    Rm,
}

/// The values on the command line of `scriptctl`.
#[derive(Debug, Drop)]
pub struct ScriptctlLine<'a> {
    /// The path of the runtime's socket.
    pub socket: &'a str,
    /// Whether statuses are printed as JSON.
    pub json: bool,
    pub command: PodCommand,
    /// The uids of the pods, at least one.
    pub uids: Vec<&'a str>,
}

/// Reads the words of a command line, the program's name first.
#[tactic(auto, using(crate::proofs::Simple::scriptctl_is_simple, crate::proofs::Simple::scriptctl_is_free))]
pub fn scriptctl_line<'a>(
    alloc: Global,
    words: &'a [String],
) -> Result<ScriptctlLine<'a>, LineFault<'a>>
    // A line is returned exactly if clap takes the words, and they name a command and a pod, memory aside.
    ensures taken { IfOk result (λ _. fault_of scriptctl (map string_bytes words.now) ≡ []) }
    ensures line { IfOk result (IsScriptctl (matches_of scriptctl (map string_bytes words.now))) }
    ensures fault { IfErr result (TellsSpoken (fault_of scriptctl (map string_bytes words.now))
        (spoken_in (matches_of scriptctl (map string_bytes words.now)))) }
{
    let matches = matches_in(scriptctl(alloc)?, words)?;
    said(alloc, &matches)
}

#[tactic(auto, unfolding(crate::specs::Scriptctl::scriptctl))]
fn scriptctl<'a>(alloc: Global) -> Result<Command<'a>, AllocError>
    ensures { IfOk result (λ c. app_of c ≡ scriptctl) }
{
    let command = versioned(alloc, "scriptctl").about(
        "Ask a simulated container runtime about pods, by its own frames (crictl does not speak them)",
    );
    asking(alloc, command)
}

fn asking<'a>(alloc: Global, command: Command<'a>) -> Result<Command<'a>, AllocError>
    ensures { IfOk result (λ c. app_of c ≡ asking (app_of command.entry)) }
{
    let command = reaching(alloc, command)?;
    with_words(
        alloc,
        command,
        "COMMAND",
        "ps (print the containers' statuses), stop or rm, and then the uids of the pods",
    )
}

fn reaching<'a>(alloc: Global, command: Command<'a>) -> Result<Command<'a>, AllocError>
    ensures { IfOk result (λ c. app_of c ≡ reaching (app_of command.entry)) }
{
    let command = with_required(alloc, command, "socket", "PATH", "Path of the socket")?;
    with_flag(
        alloc,
        command,
        "json",
        "Print statuses as JSON, one object per line",
    )
}

fn said<'a>(alloc: Global, matches: &ArgMatches<'a>) -> Result<ScriptctlLine<'a>, LineFault<'a>>
    ensures line { IfOk result (IsScriptctl (rows_of (found_of matches.now))) }
    ensures fault { IfErr result (TellsSpoken [] (spoken_in (rows_of (found_of matches.now)))) }
{
    let asked = asked(alloc, words_at(matches, "COMMAND"))?;
    Ok(ScriptctlLine {
        socket: required_at(matches, "socket"),
        json: is_set(matches, "json"),
        command: asked.command,
        uids: asked.uids,
    })
}

// The command, and its pods.
#[derive(Drop)]
struct AskedPods<'a> {
    command: PodCommand,
    uids: Vec<&'a str>,
}

fn asked<'a>(alloc: Global, words: Option<&[&'a str]>) -> Result<AskedPods<'a>, LineFault<'a>>
    ensures asks { IfOk result (λ asked. spoken
        (unwrap_or (option_map (λ s. map (λ w. w.now) s.now) words.entry) [])
        ≡ Asks asked.command (map (λ w. w.now) asked.uids.items)) }
    ensures fault { IfErr result (TellsSpoken []
        (spoken (unwrap_or (option_map (λ s. map (λ w. w.now) s.now) words.entry) []))) }
{
    match words {
        Some(words) => asked_by(alloc, words),
        None => Err(LineFault::Misfit("COMMAND", Misfit::Missing)),
    }
}

fn asked_by<'a>(alloc: Global, words: &[&'a str]) -> Result<AskedPods<'a>, LineFault<'a>>
    ensures asks { IfOk result (λ asked. spoken (map (λ w. w.now) words.now)
        ≡ Asks asked.command (map (λ w. w.now) asked.uids.items)) }
    ensures fault { IfErr result (TellsSpoken [] (spoken (map (λ w. w.now) words.now))) }
{
    if words.is_empty() {
        return Err(LineFault::Misfit("COMMAND", Misfit::Missing));
    }
    let word = words[0];
    let Some(command) = command_named(word) else {
        return Err(LineFault::UnknownCommand(word));
    };
    if words.len() == 1 {
        return Err(LineFault::Misfit("UID", Misfit::Missing));
    }
    let mut uids = Vec::new(alloc);
    uids.extend_from_slice(&words[1..])?;
    Ok(AskedPods { command, uids })
}

fn command_named(word: &str) -> Option<PodCommand>
    ensures { result ≡ command_named word.now }
{
    match word {
        "ps" => Some(PodCommand::Ps),
        "stop" => Some(PodCommand::Stop),
        "rm" => Some(PodCommand::Rm),
        _ => None,
    }
}
