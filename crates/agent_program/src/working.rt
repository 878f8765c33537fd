//! Runs the crew of an agent over its socket, with the runtime in this process if the line asks for it.
ghost use Rattle.std.specs.Prelude.{◌≡◌, ◌<◌, IfOk, min, vec_len};
ghost use Rattle.std.specs.List.{AllByRecursion};
ghost use Rattle.agent_parts.specs.CommandLine.{version_for};
ghost use Rattle.node_lock.specs.declared.limits.TheConstants.{PARTS};

use crate::admission::Admission;
use crate::counterpart::RuntimeBehind;
use crate::leftovers::sweep;
use crate::limits::{MAX_WORKERS, RUNNERS};
use crate::line_writers::LineWriters;
use crate::outside::Outside;
use crate::peers::{Calls, SocketPeer};
use agent_parts::{AgentStop, TableEnd, config_of, pace_of, version_of, working_line};
use agent_tasks::AgentTasks;
use bpf_verify::Filter;
use command_line::NodeagentLine;
use node_lock::PARTS;
use runner::{Begun, Node};
use runtime_server::{RuntimeServer, accept_all, recorder_for, start_runners};
use runtime_stops::socket_stop;
use std::alloc::AllocError;
use std::marker::Brand;
use std::sync::Wait;
use std::sync::ledger::Ledger;
use std::thread::{Scope, Threads, scope, scope_env};
use std::time::Clock;
use worker_crew::{Always, Coordinator, CrewEnd, Ended, Shared, crew};

/// The end of a run: why it ended, and the table of the pods before they were removed.
#[derive(Drop)]
pub(crate) struct Left {
    pub(crate) ended: Ended,
    pub(crate) table: Option<TableEnd>,
    /// Whether the reader of the changes is gone.
    pub(crate) unread: bool,
}

// What each part of a run reads: the command line, the pods that the workers share, and how calls are made.
#[derive(Drop)]
struct Run<'r, 'c, 'a, L: Ledger, R: Wait> {
    rt: &'r R,
    system: &'r HostRuntime,
    line: &'r NodeagentLine<'a>,
    shared: &'r Shared<L>,
    calls: &'r Calls<'c, R>,
}

// A peer for each worker.
fn peers<'r, 'p, 'c, 'a, R: Wait>(
    rt: &'r R,
    system: &HostRuntime,
    line: &NodeagentLine<'a>,
    calls: &'p Calls<'c, R>,
) -> Result<Vec<SocketPeer<'r, 'p, 'c, 'a, R>>, AllocError>
    ensures few { IfOk result (λ peers. vec_len peers < PARTS) }
    ensures count { IfOk result (λ peers. vec_len peers ≡ min line.now.numbers.workers 64) }
    ensures each { IfOk result (λ peers. AllByRecursion (λ peer. (peer.path.now ≡ line.now.socket.now)
        × (peer.version ≡ version_for line.now)) peers.items) }
{
    let mut peers = Vec::new(system.alloc());
    for _ in 0..line.numbers.workers.min(MAX_WORKERS) {
        peers.push(peer_of(rt, system, line, calls))?;
    }
    Ok(peers)
}

// A peer at the line's socket.
fn peer_of<'r, 'p, 'c, 'a, R: Wait>(
    rt: &'r R,
    system: &HostRuntime,
    line: &NodeagentLine<'a>,
    calls: &'p Calls<'c, R>,
) -> SocketPeer<'r, 'p, 'c, 'a, R>
    ensures path { result.path.now ≡ line.now.socket.now }
    ensures version { result.version ≡ version_for line.now }
{
    SocketPeer {
        rt,
        system: *system,
        alloc: system.alloc(),
        path: line.socket,
        version: version_of(line),
        calls,
    }
}

fn left_by<L: Ledger, R: Wait + Clock>(ended: Ended, mut tasks: AgentTasks<'_, '_, L, R>) -> Left {
    tasks.report_losses();
    let (table, unread) = tasks.into_end();
    Left {
        ended,
        table,
        unread,
    }
}

// Works until there is nothing left to wait for.
fn run_crew<L: Ledger + Send + Sync, B: Node + Send + Sync, R: Threads + Wait + Clock + Sync>(
    run: &Run<'_, '_, '_, L, R>,
    behind: &RuntimeBehind<'_, '_, '_, B, R>,
    coordinator: Coordinator<L>,
    mut tasks: AgentTasks<'_, '_, L, R>,
) -> Result<Left, AllocError>
    requires parts { coordinator.parts ≡ PARTS }
    requires whole { L.parts ≡ PARTS }
{
    let Run {
        rt,
        system,
        line,
        shared,
        calls,
    } = *run;
    let peers = peers(rt, system, line, calls)?;
    if line.verbose {
        let working = working_line(system.alloc(), line.socket, line.manifests.len());
        calls.log.writer.tell(rt, working);
    }
    if !swept(rt, system, line, calls, &mut tasks) {
        drop(coordinator);
        return Ok(left_by(Ended::TimeUp, tasks));
    }
    let CrewEnd {
        ended,
        tally,
        tasks,
    } = crew(
        rt,
        system.alloc(),
        shared,
        &Always,
        behind,
        coordinator,
        peers,
        tasks,
        pace_of(line),
    );
    drop(tally);
    Ok(left_by(ended, tasks))
}

// Removes the pods that a former start left in the runtime. False if the last moment came first.
fn swept<L: Ledger, R: Wait + Clock>(
    rt: &R,
    system: &HostRuntime,
    line: &NodeagentLine<'_>,
    calls: &Calls<'_, R>,
    tasks: &mut AgentTasks<'_, '_, L, R>,
) -> bool {
    let Some(state) = &mut tasks.state else {
        return true;
    };
    let mut peer = peer_of(rt, system, line, calls);
    sweep(rt, state, &mut peer, line.numbers.until)
}

/// Runs a crew for the admitted pods, with a runtime of a node with this filter in this process if the line
/// asks for it.
pub(crate) fn run_admitted<
    'a,
    L: Ledger + Send + Sync,
    R: Threads + Wait + Clock + Copy + Send + Sync + 'static,
>(
    rt: &R,
    system: &HostRuntime,
    line: &NodeagentLine<'a>,
    baseline: Option<Filter>,
    shared: &Shared<L>,
    outside: &Outside,
    admission: Admission<'a, L>,
) -> Result<Left, AgentStop<'a>>
    requires parts { admission.coordinator.parts ≡ PARTS }
    requires whole { L.parts ≡ PARTS }
{
    let Admission {
        coordinator,
        naming,
        state,
        advice: _,
    } = admission;
    let calls = outside.calls(rt, line);
    let tasks = outside.tasks(rt, system, line, shared, naming, state);
    let run = Run {
        rt,
        system,
        line,
        shared,
        calls: &calls,
    };
    if line.with_runtime {
        run_own(&run, baseline, &outside.writers, coordinator, tasks)
    } else {
        let other: RuntimeBehind<'_, '_, '_, Brand, R> = RuntimeBehind::Other(rt, &outside.open);
        Ok(run_crew(&run, &other, coordinator, tasks)?)
    }
}

// Runs the crew with a runtime of a node with this filter, in threads beside the workers.
fn run_own<'a, L: Ledger + Send + Sync, R: Threads + Wait + Clock + Copy + Send + Sync + 'static>(
    run: &Run<'_, '_, 'a, L, R>,
    baseline: Option<Filter>,
    writers: &LineWriters,
    coordinator: Coordinator<L>,
    tasks: AgentTasks<'_, '_, L, R>,
) -> Result<Left, AgentStop<'a>>
    requires parts { coordinator.parts ≡ PARTS }
    requires whole { L.parts ≡ PARTS }
{
    let begun = Begun::new(run.system.alloc(), baseline)?;
    run_beside::<L, Brand, R>(run, begun, writers, coordinator, tasks)
}

// Runs the crew with this runtime in threads beside the workers.
fn run_beside<
    'a,
    L: Ledger + Send + Sync,
    B: Node + Send + Sync,
    R: Threads + Wait + Clock + Copy + Send + Sync + 'static,
>(
    run: &Run<'_, '_, 'a, L, R>,
    begun: Begun,
    writers: &LineWriters,
    coordinator: Coordinator<L>,
    tasks: AgentTasks<'_, '_, L, R>,
) -> Result<Left, AgentStop<'a>>
    requires parts { coordinator.parts ≡ PARTS }
    requires whole { L.parts ≡ PARTS }
    requires own { begun ≡ (B.filter, B.table) }
{
    let rt = run.rt;
    let server = server_of::<B, R>(rt, run.system, run.line, begun, writers)?;
    let left = run_at(run, &server, coordinator, tasks);
    server.threads.finish(rt);
    Ok(left?)
}

// The runtime at the line's socket.
fn server_of<'a, B: Node + Send + Sync, R: Threads + Wait + Clock + Copy + Send + Sync + 'static>(
    rt: &R,
    system: &HostRuntime,
    line: &NodeagentLine<'a>,
    begun: Begun,
    writers: &LineWriters,
) -> Result<RuntimeServer<'a, B>, AgentStop<'a>>
    requires own { begun ≡ (B.filter, B.table) }
{
    let (path, calls) = (line.records, line.calls);
    let recorder = match recorder_for(rt, system, "nodeagent", path, calls, line.records_all) {
        Ok(recorder) => recorder,
        Err(stop) => return Err(AgentStop::Server(stop)),
    };
    let reports = writers.reports(recorder)?;
    match RuntimeServer::<B>::open(rt, system, config_of(line), begun, reports) {
        Ok(server) => Ok(server),
        Err(fault) => Err(AgentStop::Server(socket_stop(line.socket, fault))),
    }
}

fn run_at<L: Ledger + Send + Sync, B: Node + Send + Sync, R: Threads + Wait + Clock + Sync>(
    run: &Run<'_, '_, '_, L, R>,
    server: &RuntimeServer<'_, B>,
    coordinator: Coordinator<L>,
    tasks: AgentTasks<'_, '_, L, R>,
) -> Result<Left, AllocError>
    requires parts { coordinator.parts ≡ PARTS }
    requires whole { L.parts ≡ PARTS }
{
    let (rt, system) = (run.rt, run.system);
    let behind = RuntimeBehind::Own(rt, run.calls.open, &server.threads, RUNNERS);
    scope(
        scope_env(),
        rt,
        move |scope| -> Result<Left, AllocError>
            requires parts { coordinator.parts ≡ PARTS }
            requires whole { L.parts ≡ PARTS }
        {
            let left = match start_server(scope, rt, system, server) {
                Ok(()) => run_crew(run, &behind, coordinator, tasks),
                Err(error) => {
                    drop((coordinator, tasks));
                    Err(error)
                }
            };
            server.close(rt, system);
            left
        },
    )
}

// Starts the runners, and the thread that accepts connections.
fn start_server<'s, 'e, B: Node + Send + Sync, R: Threads + Wait + Clock + Sync>(
    scope: &'s Scope<'s, &'e ()>,
    rt: &'e R,
    system: &'e HostRuntime,
    server: &'e RuntimeServer<'e, B>,
) -> Result<(), AllocError> {
    start_runners(scope, rt, &server.threads, RUNNERS)?;
    scope.spawn(move || accept_all(scope, rt, system, server))?;
    Ok(())
}
