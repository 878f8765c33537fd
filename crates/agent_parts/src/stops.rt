use command_line::LineFault;
use fault_notes::ShownPath;
use manifest::PodFault;
use runtime_stops::{ServerStop, StopLine};
use std::alloc::{AllocError, AllocFailed};
use std::fmt;

/// Why `nodeagent` ends before its work is done.
#[derive(Debug, Drop)]
pub enum AgentStop<'a> {
    /// What may also stop a program that serves a runtime: its command line, its baseline, a file, the
    /// socket, output that can't be written, or memory.
    Server(ServerStop<'a>),
    /// A manifest is refused for its text: where, and why.
    Text(&'a str, String),
    /// A manifest is refused.
    Manifest(&'a str, PodFault),
    /// The node does not admit the pod of a manifest.
    Pod(&'a str, worker_core::NodeRefusal),
    /// A line of the file of uids that a former start left, from 1, is not a uid.
    State(&'a str, usize),
    /// The name of the run can't be a part of a uid.
    RunName(&'a str),
    /// The history of the node has no room for a claim.
    HistoryFull,
}

impl AgentStop<'_> {
    ghost use Rattle.std.specs.Prelude.{◌≡◌};
    ghost use Rattle.agent_parts.specs.Stops.{status_of};

    /// The program's exit status.
    pub fn status(&self) -> u8
        ensures { result ≡ status_of self.now }
    {
        match self {
            AgentStop::Server(stop) => stop.status(),
            AgentStop::Text(_, _)
            | AgentStop::Manifest(_, _)
            | AgentStop::Pod(_, _)
            | AgentStop::State(_, _) => 1,
            AgentStop::RunName(_) => 2,
            AgentStop::HistoryFull => 4,
        }
    }
}

/// A refused command line is reported with clap's own message.
impl fmt::Display for AgentStop<'_> {
    ghost use Rattle.agent_parts.specs.StopText.{stop_text};

    ghost output = { λ stop. stop_text stop };

    fn fmt<W: fmt::Write>(&self, f: &mut fmt::Formatter<W>) -> fmt::Result {
        match self {
            AgentStop::Server(stop) => fmt::Display::fmt(
                &StopLine {
                    program: "nodeagent",
                    stop,
                },
                f,
            ),
            AgentStop::Manifest(path, fault) => {
                writeln!(f, "nodeagent: {}: {fault}", ShownPath(path))
            }
            AgentStop::Text(path, told) => writeln!(f, "nodeagent: {}{told}", ShownPath(path)),
            AgentStop::Pod(path, refusal) => {
                writeln!(f, "nodeagent: {}: {refusal}", ShownPath(path))
            }
            AgentStop::State(path, line) => {
                writeln!(f, "nodeagent: {}: line {line}: BadUid", ShownPath(path))
            }
            AgentStop::RunName(name) => { writeln!(f, "nodeagent: {}: BadName", ShownPath(name)) }
            AgentStop::HistoryFull => writeln!(f, "nodeagent: HistoryFull"),
        }
    }
}

impl<'a> From<ServerStop<'a>> for AgentStop<'a> {
    ghost use Rattle.std.specs.Prelude.{◌≡◌};
    ghost use Rattle.agent_parts.specs.declared.stops.AgentStop.TheVariants.{Server};

    ghost from_gives = { λ given stop. stop ≡ Server given };

    fn from(stop: ServerStop<'a>) -> AgentStop<'a> {
        AgentStop::Server(stop)
    }
}

impl<'a> From<AllocError> for AgentStop<'a> {
    ghost use Rattle.std.specs.Prelude.{◌≡◌};
    ghost use Rattle.agent_parts.specs.declared.stops.AgentStop.TheVariants.{Server};
    ghost use Rattle.runtime_stops.specs.declared.stops.ServerStop.TheVariants.{Memory};

    ghost from_gives = { λ _ stop. stop ≡ Server Memory };

    fn from(_: AllocError) -> AgentStop<'a> {
        AgentStop::Server(ServerStop::Memory)
    }
}

impl<'a, T: Drop> From<AllocFailed<T>> for AgentStop<'a> {
    ghost use Rattle.std.specs.Prelude.{◌≡◌};
    ghost use Rattle.agent_parts.specs.declared.stops.AgentStop.TheVariants.{Server};
    ghost use Rattle.runtime_stops.specs.declared.stops.ServerStop.TheVariants.{Memory};

    ghost from_gives = { λ _ stop. stop ≡ Server Memory };

    fn from(_: AllocFailed<T>) -> AgentStop<'a> {
        AgentStop::Server(ServerStop::Memory)
    }
}

impl<'a> From<LineFault<'a>> for AgentStop<'a> {
    ghost use Rattle.std.specs.Prelude.{◌≡◌};
    ghost use Rattle.agent_parts.specs.declared.stops.AgentStop.TheVariants.{Server};
    ghost use Rattle.runtime_stops.specs.Stops.{of_line_fault};

    ghost from_gives = { λ fault stop. stop ≡ Server (of_line_fault fault) };

    fn from(fault: LineFault<'a>) -> AgentStop<'a> {
        AgentStop::Server(ServerStop::from(fault))
    }
}
