//! Workers in threads of their own.
ghost use Rattle.std.specs.Prelude.{◌≡◌, ◌+◌, ◌<◌, ◌≤◌, IfSome, IsSome, IsTrue, vec_len};
ghost use Rattle.node_lock.specs.declared.limits.TheConstants.{PARTS};

use crate::coordinator::Coordinator;
use crate::pace::{Counterpart, Ended, Pace, TimeKeeper};
use crate::shared::Shared;
use crate::tasks::CoordinatorTasks;
use crate::worker::{Gate, Peer, work};
use crate::worker_share::WorkerShare;
use node_lock::Tally;
use std::alloc::Global;
use std::sync::Wait;
use std::sync::ledger::Ledger;
use std::thread::{Promise, PromisedHandle, Scope, Threads, scope, scope_env};
use std::time::Clock;

// What a worker returns at its end.
#[derive(Drop)]
struct WorkerEnd<L: Ledger, P> {
    tally: Tally<L>,
    peer: P,
}

// The worker returns its part.
#[derive(Clone, Copy)]
struct OnePart;

impl<L: Ledger, P> Promise<WorkerEnd<L, P>> for OnePart {
    ghost use Rattle.std.specs.Prelude.{◌≡◌};

    ghost kept_by = { λ _ end. end.tally.parts ≡ 1 };
}

// The threads that were started, and whether each worker got one.
#[derive(Drop)]
struct WorkerPool<L: Ledger, P: Drop> {
    threads: Vec<PromisedHandle<WorkerEnd<L, P>, OnePart>>,
    complete: bool,
}

// The body of a worker's thread.
fn serve<L: Ledger, P: Peer + Drop, G: Gate, R: Wait>(
    rt: &R,
    alloc: Global,
    shared: &Shared<L>,
    gate: &G,
    own: WorkerShare<L>,
    peer: P,
) -> WorkerEnd<L, P>
    ensures { result.tally.parts ≡ 1 }
{
    let mut peer = peer;
    let WorkerShare { worker, share } = own;
    let tally = work(rt, alloc, shared, worker, share, &mut peer, gate);
    shared.end(rt);
    WorkerEnd { tally, peer }
}

// Starts a worker for each peer, numbered from 1, in a thread of its own.
fn start_workers<
    's,
    'e,
    L: Ledger + Send + Sync + 's,
    P: Peer + Send + Drop + 's,
    G: Gate + Sync,
    R: Threads + Wait + Sync,
>(
    scope: &'s Scope<'s, &'e ()>,
    rt: &'e R,
    alloc: Global,
    shared: &'e Shared<L>,
    gate: &'e G,
    coordinator: &mut Coordinator<L>,
    peers: Vec<P>,
) -> WorkerPool<L, P>
    requires few { vec_len peers < PARTS }
    requires parts { vec_len peers < coordinator.old.parts }
    ensures parts { IsTrue result.complete → coordinator.new.parts + vec_len result.threads
        ≡ coordinator.old.parts }
    ensures few { vec_len result.threads < PARTS }
{
    let mut threads = Vec::new(alloc);
    let mut worker = 0;
    for peer in peers {
        worker += 1;
        let own = coordinator.share_for(worker);
        shared.begin(rt);
        let started = scope.spawn_with(
            OnePart,
            move || -> WorkerEnd<L, P>
                ensures { result.tally.parts ≡ 1 }
            { serve(rt, alloc, shared, gate, own, peer) },
        );
        let Ok(thread) = started else {
            shared.end(rt);
            return WorkerPool {
                threads,
                complete: false,
            };
        };
        if threads.push(thread).is_err() {
            return WorkerPool {
                threads,
                complete: false,
            };
        }
    }
    WorkerPool {
        threads,
        complete: true,
    }
}

// Waits for each worker, joins its receipts to these, and keeps its peer.
fn join_workers<L: Ledger, P: Drop, R: Threads>(
    rt: &R,
    all: &mut Tally<L>,
    peers: &mut Vec<P>,
    pool: WorkerPool<L, P>,
) -> bool
    ensures whole { IsTrue result → IsTrue pool.complete
        × (all.new.parts ≡ all.old.parts + vec_len pool.threads) }
    ensures few { vec_len peers.new ≤ vec_len peers.old + vec_len pool.threads }
{
    let WorkerPool { threads, complete } = pool;
    let mut whole = complete;
    for thread in threads {
        let WorkerEnd { tally, peer } = thread.join(rt);
        if all.join(tally).is_err() || peers.push(peer).is_err() {
            whole = false;
        }
    }
    whole
}

// Who works at a part of a history, and the tasks of worker 0.
#[derive(Drop)]
struct WorkGroup<L: Ledger, P: Drop, E: Drop> {
    coordinator: Coordinator<L>,
    peers: Vec<P>,
    tasks: E,
}

// The end of a part: the receipts for all that was done in it, if they could be joined, the peers, and the
// tasks of worker 0.
#[derive(Drop)]
struct PartEnd<L: Ledger, P: Drop, E: Drop> {
    ended: Ended,
    tally: Option<Tally<L>>,
    peers: Vec<P>,
    tasks: E,
}

/// The end of a crew.
#[derive(Drop)]
pub struct CrewEnd<L: Ledger, E: Drop> {
    /// Why it ended.
    pub ended: Ended,
    /// The receipts for all that was done in the last part of the history. `None` if they could not be
    /// joined.
    pub tally: Option<Tally<L>>,
    pub tasks: E,
}

// Works in a scope of threads until the part of the history is full, or there is nothing left to wait for.
fn work_part<
    's,
    'e,
    L: Ledger + Send + Sync + 's,
    P: Peer + Send + Drop + 's,
    G: Gate + Sync,
    C: Counterpart + Sync,
    E: CoordinatorTasks + Drop,
    R: Threads + Wait + Clock + Sync,
>(
    scope: &'s Scope<'s, &'e ()>,
    rt: &'e R,
    alloc: Global,
    shared: &'e Shared<L>,
    gate: &'e G,
    counterpart: &'e C,
    crew: WorkGroup<L, P, E>,
    keeper: TimeKeeper,
) -> PartEnd<L, P, E>
    requires few { vec_len crew.peers < PARTS }
    requires parts { crew.coordinator.parts ≡ PARTS }
    ensures parts { IfSome result.tally (λ tally. tally.parts ≡ PARTS) }
    ensures few { IsSome result.tally → vec_len result.peers < PARTS }
{
    let WorkGroup {
        mut coordinator,
        peers,
        mut tasks,
    } = crew;
    let pool = start_workers(scope, rt, alloc, shared, gate, &mut coordinator, peers);
    let mut ended = if pool.complete {
        keeper.keep(rt, shared, counterpart, &mut coordinator, &mut tasks)
    } else {
        Ended::Memory
    };
    shared.close(rt);
    if ended == Ended::HistoryFull {
        ended = keeper.rest(rt, shared);
    }
    if ended != Ended::HistoryFull {
        counterpart.end_calls();
    }
    let mut tally = coordinator.into_tally();
    let mut back = Vec::new(alloc);
    let is_whole = join_workers(rt, &mut tally, &mut back, pool);
    tasks.tell(shared.take_changes(rt));
    PartEnd {
        ended,
        tally: if is_whole { Some(tally) } else { None },
        peers: back,
        tasks,
    }
}

// Works at one part of a history.
fn part<
    L: Ledger + Send + Sync,
    P: Peer + Send + Drop,
    G: Gate + Sync,
    C: Counterpart + Sync,
    E: CoordinatorTasks + Drop,
    R: Threads + Wait + Clock + Sync,
>(
    rt: &R,
    alloc: Global,
    shared: &Shared<L>,
    gate: &G,
    counterpart: &C,
    crew: WorkGroup<L, P, E>,
    keeper: TimeKeeper,
) -> PartEnd<L, P, E>
    requires few { vec_len crew.peers < PARTS }
    requires parts { crew.coordinator.parts ≡ PARTS }
    ensures parts { IfSome result.tally (λ tally. tally.parts ≡ PARTS) }
    ensures few { IsSome result.tally → vec_len result.peers < PARTS }
{
    scope(
        scope_env(),
        rt,
        move |scope| -> PartEnd<L, P, E>
            requires few { vec_len crew.peers < PARTS }
            requires parts { crew.coordinator.parts ≡ PARTS }
            ensures parts { IfSome result.tally (λ tally. tally.parts ≡ PARTS) }
            ensures few { IsSome result.tally → vec_len result.peers < PARTS }
        { work_part(scope, rt, alloc, shared, gate, counterpart, crew, keeper) },
    )
}

/// Starts a worker for each of these peers, numbered from 1, in a thread of its own. Beside them, it advances
/// the time and runs the tasks until there is nothing left to wait for; a virtual clock waits for the
/// counterpart's containers before it moves on. When a part of the history is full, the workers stop, and
/// start again with the next part; the result is HistoryFull if the part can't end. At the end the book is
/// closed, and calls in progress are ended. The tally has the receipts of all workers and of the coordinator
/// for the last part; there is none if they could not be joined.
pub fn crew<
    L: Ledger + Send + Sync,
    P: Peer + Send + Drop,
    G: Gate + Sync,
    C: Counterpart + Sync,
    E: CoordinatorTasks + Drop,
    R: Threads + Wait + Clock + Sync,
>(
    rt: &R,
    alloc: Global,
    shared: &Shared<L>,
    gate: &G,
    counterpart: &C,
    coordinator: Coordinator<L>,
    peers: Vec<P>,
    tasks: E,
    pace: Pace,
) -> CrewEnd<L, E>
    requires few { vec_len peers < PARTS }
    requires parts { coordinator.parts ≡ PARTS }
    requires whole { L.parts ≡ PARTS }
    ensures { IfSome result.tally (λ tally. tally.parts ≡ PARTS) }
{
    let keeper = TimeKeeper::start(rt, pace);
    let mut crew = WorkGroup {
        coordinator,
        peers,
        tasks,
    };
    for _ in rt.forever() {
        let PartEnd {
            ended,
            tally,
            peers,
            tasks,
        } = part(rt, alloc, shared, gate, counterpart, crew, keeper);
        let Some(mut tally) = tally else {
            return CrewEnd {
                ended,
                tally: None,
                tasks,
            };
        };
        if ended != Ended::HistoryFull || shared.end_part(rt, &mut tally).is_err() {
            return CrewEnd {
                ended,
                tally: Some(tally),
                tasks,
            };
        }
        crew = WorkGroup {
            coordinator: Coordinator::resume(tally),
            peers,
            tasks,
        };
    }
    unreachable!()
}
