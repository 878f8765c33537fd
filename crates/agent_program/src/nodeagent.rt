ghost use Rattle.std.specs.Prelude.{◌≡◌};
ghost use Rattle.node_lock.specs.declared.limits.TheConstants.{PARTS};

use crate::admission::{admission_of, node_of};
use crate::line_writers::{LineWriters, causes_for};
use crate::outside::Outside;
use crate::working::{Left, run_admitted};
use agent_parts::{AgentStop, RunEnd, note_of, run_end, run_name};
use command_line::{NodeagentLine, nodeagent_line};
use manifest::is_uid;
use node_io::Cause;
use node_lock::PARTS;
use runtime_server::{baseline_at, look_at_folders, look_at_path};
use runtime_stops::{ServerStop, socket_stop};
use std::alloc::{AllocError, Global};
use std::io::{Print, Write};
use std::marker::Brand;
use std::mem;
use std::sync::Wait;
use std::sync::ledger::{Blank, Ledger};
use std::thread::Threads;
use std::time::{Clock, Duration, SystemTime, UNIX_EPOCH};
use worker_crew::Shared;

/// The program `nodeagent`: runs pods in the containers of a runtime, over a socket. `words` is the command
/// line, with the program's name first. Returns the exit status: 0 done, 1 input refused, 2 command line
/// refused, 3 file or socket fault, 4 out of memory or of history, 5 the last moment was reached. Writes the
/// table of the pods to `out`, and the reason for the end to `err`.
pub fn nodeagent_run<R: Threads + Wait + Clock + Copy + Send + Sync + 'static, O: Write, E: Write>(
    rt: &R,
    system: &HostRuntime,
    words: &[String],
    out: &mut O,
    err: &mut E,
) -> u8 {
    let name = match clock_name(rt, system.alloc()) {
        Ok(name) => name,
        Err(error) => return tell_stop(&AgentStop::from(error), err),
    };
    match run(rt, system, words, name.as_str()) {
        Ok(end) => match out.write_all(end.text.as_bytes()) {
            Ok(()) => {
                let _ = err.write_all(end.note.as_bytes());
                end.status
            }
            Err(error) => {
                let unwritten = ServerStop::Unwritten(Cause::of(&error));
                tell_stop(&AgentStop::Server(unwritten), err)
            }
        },
        Err(stop) => tell_stop(&stop, err),
    }
}

// A name that no other start has: the time, in milliseconds.
fn clock_name<R: Clock>(rt: &R, alloc: Global) -> Result<String, AllocError> {
    let since = match SystemTime::now(rt) {
        Ok(now) => now.duration_since(UNIX_EPOCH).unwrap_or(Duration::ZERO),
        Err(_) => Duration::ZERO,
    };
    format!(in alloc; "{}", since.as_millis())
}

// Reports why the program ends, and returns its status, even if the report can't be written.
fn tell_stop<E: Write>(stop: &AgentStop<'_>, err: &mut E) -> u8 {
    let _ = write!(err, "{stop}");
    stop.status()
}

fn run<'a, R: Threads + Wait + Clock + Copy + Send + Sync + 'static>(
    rt: &R,
    system: &HostRuntime,
    words: &'a [String],
    made: &'a str,
) -> Result<RunEnd, AgentStop<'a>> {
    let mut line = nodeagent_line(system.alloc(), words)?;
    if let Some(name) = line.run {
        if !is_uid(name) {
            return Err(AgentStop::RunName(name));
        }
    }
    if let Err(fault) = look_at_path(line.socket) {
        return Err(AgentStop::Server(socket_stop(line.socket, fault)));
    }
    if line.watch {
        look_at_output(system)?;
    }
    if line.with_runtime {
        look_at_folders(system, [line.scripts, line.profiles])?;
    }
    if let Some(folder) = line.pods {
        look_at_folders(system, [folder, folder])?;
    }
    line.run = run_name(line.run, line.pods, made);
    run_line::<Brand, R>(rt, system, &line, Blank::new(PARTS))
}

// Checks that standard output is open. If it were closed, a file that is opened later would get its
// descriptor.
fn look_at_output<'a>(system: &HostRuntime) -> Result<(), AgentStop<'a>> {
    match system.write_some("".as_bytes()) {
        Ok(_) => Ok(()),
        Err(error) => Err(AgentStop::Server(ServerStop::Unwritten(Cause::of(&error)))),
    }
}

// Carries out the command line, with the count of a new ledger.
fn run_line<'a, L: Ledger + Send + Sync, R: Threads + Wait + Clock + Copy + Send + Sync + 'static>(
    rt: &R,
    system: &HostRuntime,
    line: &NodeagentLine<'a>,
    blank: Blank,
) -> Result<RunEnd, AgentStop<'a>>
    requires name { blank.name ≡ L.name }
    requires parts { blank.parts ≡ L.parts }
    requires all { blank.parts ≡ PARTS }
{
    let baseline = baseline_at(system, line.baseline)?;
    let causes = causes_for(system.alloc(), line)?;
    let (shared, coordinator) = node_of::<L>(system, line, blank, &causes)?;
    let mut admission = admission_of(rt, system, line, &shared, coordinator)?;
    let outside = Outside::start(rt, system, line, causes)?;
    let advice = mem::replace(&mut admission.advice, Vec::new(system.alloc()));
    outside.writers.tell_all(rt, advice);
    let left = run_admitted(rt, system, line, baseline, &shared, &outside, admission);
    outside.writers.finish(rt);
    ended_by(rt, system, line, shared, &outside.writers, left?)
}

// The end of the program after a run that ended like this.
fn ended_by<'a, L: Ledger, R: Wait>(
    rt: &R,
    system: &HostRuntime,
    line: &NodeagentLine<'a>,
    shared: Shared<L>,
    writers: &LineWriters,
    left: Left,
) -> Result<RunEnd, AgentStop<'a>> {
    let cause = if left.unread {
        Some(Cause::Gone)
    } else {
        writers.unwritten(rt)
    };
    if let Some(cause) = cause {
        return Err(AgentStop::Server(ServerStop::Unwritten(cause)));
    }
    let Left { ended, table, .. } = left;
    let moment = shared.moment();
    let (book, reasons, counts) = shared.into_parts();
    let note = note_of(system, line, &ended, moment, book.node())?;
    run_end(system, line, ended, &book, &reasons, &counts, table, note)
}
