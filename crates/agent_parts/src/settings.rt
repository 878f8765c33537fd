//! The settings of a run of `nodeagent`, from its command line.
ghost use Rattle.std.specs.Prelude.{◌≡◌, ◌≤◌, min, option_copied};
ghost use Rattle.agent_parts.specs.CommandLine.{form_for, observed_for, pace_for, run_name, settings_for};
ghost use Rattle.agent_parts.specs.CommandLine.{told_beside, version_for};
ghost use Rattle.node_lock.specs.declared.limits.TheConstants.{MAX_ENTRIES};

use crate::limits::{POLL, SETTLE_UNTIL};
use command_line::NodeagentLine;
use cri_msgs::Version;
use node_lock::MAX_ENTRIES;
use node_watch::Form;
use runtime_server::{ServerConfig, Tells};
use worker_crew::{Observed, Pace};
use worker_pod::Settings;

/// The name of this run: with a folder of pods each start has its own, unless the line names one.
pub fn run_name<'a>(run: Option<&'a str>, pods: Option<&'a str>, made: &'a str) -> Option<&'a str>
    ensures { option_copied result ≡ run_name (option_copied run.entry) (option_copied pods.entry) made.now }
{
    match (run, pods) {
        (Some(run), _) => Some(run),
        (None, Some(_)) => Some(made),
        (None, None) => None,
    }
}

/// The settings of the pods.
pub fn settings_of(line: &NodeagentLine<'_>) -> Settings
    ensures { result ≡ settings_for line.now }
{
    Settings {
        seccomp_default: line.seccomp_default,
        poll: if line.settle { 0 } else { POLL },
        version: version_of(line),
    }
}

/// The version of the messages.
pub fn version_of(line: &NodeagentLine<'_>) -> Version
    ensures { result ≡ version_for line.now }
{
    match line.numbers.cri {
        1 => Version::V1,
        _ => Version::V2,
    }
}

/// The clock, and the last moment.
pub fn pace_of(line: &NodeagentLine<'_>) -> Pace
    ensures { result ≡ pace_for line.now }
{
    let until = line.numbers.until;
    if line.settle {
        Pace::Virtual(until.unwrap_or(SETTLE_UNTIL))
    } else {
        Pace::Real(until)
    }
}

/// The form of what is printed.
pub fn form_of(line: &NodeagentLine<'_>) -> Form
    ensures { result ≡ form_for line.now }
{
    if line.json { Form::Json } else { Form::Text }
}

/// What is kept beside the history.
pub fn observed_of(line: &NodeagentLine<'_>) -> Observed
    ensures { result ≡ observed_for line.now }
{
    if line.watch && line.reasons {
        Observed::ChangesAndReasons(form_of(line))
    } else if line.watch {
        Observed::Changes(form_of(line))
    } else if line.reasons {
        Observed::Reasons
    } else {
        Observed::Nothing
    }
}

/// How many entries a part of the history may have.
pub fn limit_of(line: &NodeagentLine<'_>) -> usize
    ensures value { result ≡ min line.now.numbers.history MAX_ENTRIES }
    ensures most { result ≤ MAX_ENTRIES }
{
    (line.numbers.history as usize).min(MAX_ENTRIES)
}

/// If the runtime is in this process, the agent logs the calls. The runtime only reports which file is wrong.
pub fn config_of<'a>(line: &NodeagentLine<'a>) -> ServerConfig<'a>
    ensures socket { result.socket ≡ line.now.socket }
    ensures scripts { result.scripts ≡ line.now.scripts }
    ensures profiles { result.profiles ≡ line.now.profiles }
    ensures calls { result.calls ≡ line.now.calls }
    ensures tells { result.tells ≡ told_beside line.now.verbose }
{
    ServerConfig {
        socket: line.socket,
        scripts: line.scripts,
        profiles: line.profiles,
        calls: line.calls,
        tells: if line.verbose {
            Tells::WrongFiles
        } else {
            Tells::Nothing
        },
    }
}
