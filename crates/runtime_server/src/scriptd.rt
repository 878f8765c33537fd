ghost use Rattle.std.specs.Prelude.{◌≡◌};
ghost use Rattle.runtime_server.specs.Telling.{told_where};

use crate::inputs::{baseline_at, look_at_folders};
use crate::line_writer::{LineWriter, Stream};
use crate::recording::recorder_for;
use crate::server::{Reports, RuntimeServer, ServerConfig, Tells, accept_all};
use crate::threads::start_runners;
use command_line::{ScriptdLine, scriptd_line};
use runner::{Begun, Node};
use runtime_stops::{ServerStop, StopLine, socket_stop};
use std::alloc::AllocError;
use std::io::Write;
use std::marker::Brand;
use std::sync::Wait;
use std::thread::{Scope, Threads, scope, scope_env};
use std::time::Clock;

/// The program `scriptd`: runs containers, which are scripts, and serves CRI calls over a socket. `words`
/// is the command line, with the program's name first. It ends only if something stops it, and returns its
/// exit status: 1 input refused, 2 command line refused, 3 file or socket fault, 4 out of memory. Writes the
/// reason to `err`, and nothing to `_out`.
pub fn scriptd_run<R: Threads + Wait + Clock + Copy + Send + Sync + 'static, O: Write, E: Write>(
    rt: &R,
    system: &HostRuntime,
    words: &[String],
    _out: &mut O,
    err: &mut E,
) -> u8 {
    match run(rt, system, words) {
        Ok(()) => 0,
        Err(stop) => tell_stop(&stop, err),
    }
}

// Reports why the program ends, and returns its status, even if the report can't be written.
fn tell_stop<E: Write>(stop: &ServerStop<'_>, err: &mut E) -> u8 {
    let told = StopLine {
        program: "scriptd",
        stop,
    };
    let _ = write!(err, "{told}");
    stop.status()
}

fn run<'a, R: Threads + Wait + Clock + Copy + Send + Sync + 'static>(
    rt: &R,
    system: &HostRuntime,
    words: &'a [String],
) -> Result<(), ServerStop<'a>> {
    let line = scriptd_line(system.alloc(), words)?;
    look_at_folders(system, [line.scripts, line.profiles])?;
    let baseline = baseline_at(system, line.baseline)?;
    let begun = Begun::new(system.alloc(), baseline)?;
    run_line::<Brand, R>(rt, system, &line, begun)
}

// Carries out the command line with this runtime.
fn run_line<'a, B: Node + Send + Sync, R: Threads + Wait + Clock + Copy + Send + Sync + 'static>(
    rt: &R,
    system: &HostRuntime,
    line: &ScriptdLine<'a>,
    begun: Begun,
) -> Result<(), ServerStop<'a>>
    requires { begun ≡ (B.filter, B.table) }
{
    let writer = LineWriter::start(*rt, *system, Stream::Error)?;
    let (path, calls) = (line.records, line.calls);
    let recorder = recorder_for(rt, system, "scriptd", path, calls, line.records_all)?;
    let reports = Reports {
        writer: Some(writer),
        recorder,
        causes: None,
    };
    let server = match RuntimeServer::<B>::open(rt, system, config_of(line), begun, reports) {
        Ok(server) => server,
        Err(fault) => return Err(socket_stop(line.socket, fault)),
    };
    Ok(serve(rt, system, &server, line.runners)?)
}

fn config_of<'a>(line: &ScriptdLine<'a>) -> ServerConfig<'a>
    ensures socket { result.socket ≡ line.now.socket }
    ensures scripts { result.scripts ≡ line.now.scripts }
    ensures profiles { result.profiles ≡ line.now.profiles }
    ensures calls { result.calls ≡ line.now.calls }
    ensures tells { result.tells ≡ told_where line.now.verbose }
{
    ServerConfig {
        socket: line.socket,
        scripts: line.scripts,
        profiles: line.profiles,
        calls: line.calls,
        tells: if line.verbose {
            Tells::Each
        } else {
            Tells::Nothing
        },
    }
}

// Serves until the server is closed. If a thread for a runner can't be started, it is closed immediately.
fn serve<B: Node + Send + Sync, R: Threads + Wait + Clock + Sync>(
    rt: &R,
    system: &HostRuntime,
    server: &RuntimeServer<'_, B>,
    runners: u32,
) -> Result<(), AllocError> {
    scope(scope_env(), rt, move |scope| {
        let served = serve_in(scope, rt, system, server, runners);
        server.close(rt, system);
        served
    })
}

fn serve_in<'s, 'e, B: Node + Send + Sync, R: Threads + Wait + Clock + Sync>(
    scope: &'s Scope<'s, &'e ()>,
    rt: &'e R,
    system: &'e HostRuntime,
    server: &'e RuntimeServer<'e, B>,
    runners: u32,
) -> Result<(), AllocError> {
    start_runners(scope, rt, &server.threads, runners)?;
    accept_all(scope, rt, system, server);
    Ok(())
}
