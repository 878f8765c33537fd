//! Crews for tests: pods over a loop, and the state at the end.
ghost use Rattle.std.specs.Prelude.{◌≡◌, ◌<◌, ◌≤◌, IfOk, vec_len};
ghost use Rattle.node_lock.specs.declared.limits.TheConstants.{MAX_ENTRIES, PARTS};

use crate::loops::{Idle, Loop, LoopPeer};
use agent::table;
use cri_msgs::Version;
use manifest::{Pod, PodFault};
use node_io::{MemoryFiles, StoredFile};
use node_lock::{Book, Entry, MAX_ENTRIES, PARTS, Tally, audit};
use runner::{Begun, Node as RuntimeNode};
use runtime_server::start_runners;
use std::alloc::{AllocError, Global};
use std::sync::Wait;
use std::sync::atomic::{AtomicBool, AtomicU64, Ordering};
use std::sync::ledger::{Blank, Ledger};
use std::test::Fail;
use std::thread::{Threads, scope, scope_env, sleep};
use std::time::{Clock, Duration};
use worker_core::{AgentEvent, MAX_PODS, Node};
use worker_crew::{Coordinator, CrewEnd, Ended, Gate, NoTasks, Observed, Pace, Peer, Shared, crew};
use worker_pod::Settings;

/// The virtual clock, up to moment 3600.
pub(crate) const COUNTED: Pace = Pace::Virtual(3_600);

// How many runners step the containers.
const RUNNERS: u32 = 4;

/// The scripts of the pods below, each in a line after its path.
pub(crate) const SCRIPTS: &str = r#"flaky.s {"steps":[{"call":"getpid"},{"exitByAttempt":[1,1,0]}]}
bad.s {"steps":[{"call":"ptrace"},{"exit":0}]}
three.s {"steps":[{"exit":3}]}
zero.s {"steps":[{"exit":0}]}
ends.json {"steps":[{"exit":0}]}"#;

/// The profiles.
pub(crate) const PROFILES: &str =
    r#"kill.p {"defaultAction":"SCMP_ACT_ALLOW","syscalls":[{"names":["ptrace"],"action":"SCMP_ACT_KILL_PROCESS"}]}"#;

/// The fields of the pods' `spec`, each in a line after its name.
pub(crate) const PODS: &str =
    r#"flaky "restartPolicy":"OnFailure","containers":[{"name":"main","image":"flaky.s"}]
bad "restartPolicy":"Never","containers":[{"name":"main","image":"bad.s","securityContext":{"seccompProfile":{"type":"Localhost","localhostProfile":"kill.p"}}}]
boot "restartPolicy":"Never","initContainers":[{"name":"setup","image":"three.s"}],"containers":[{"name":"main","image":"zero.s"}]"#;

/// One of them alone.
const ONE_POD: &str =
    r#"boot "restartPolicy":"Never","initContainers":[{"name":"setup","image":"three.s"}],"containers":[{"name":"main","image":"zero.s"}]"#;

/// The end of these.
pub(crate) const SETTLED: &str = "settled, true\n\
    POD default.flaky Succeeded\n  main Terminated 0 2\n\
    POD default.bad Failed\n  main Terminated 159 0\n\
    POD default.boot Failed\n  setup Terminated 3 0\n  main Waiting - 0\n";

fn pod(alloc: Global, name: &str, spec: &str) -> Result<Pod, PodFault> {
    let text = format!(in alloc;
        "{{\"apiVersion\":\"v1\",\"kind\":\"Pod\",\"metadata\":{{\"name\":\"{name}\"}},\"spec\":{{{spec}}}}}"
    )?;
    manifest::read(alloc, text.as_bytes())
}

/// The fields of a pod of this many containers, each of which ends with 0.
fn many(alloc: Global, containers: u32) -> Result<String, AllocError> {
    let mut text = String::from_str(alloc, "\"restartPolicy\":\"Never\",\"containers\":[")?;
    for container in 0..containers {
        let before = if container == 0 { "" } else { "," };
        write!(
            text,
            "{before}{{\"name\":\"c{container}\",\"image\":\"ends.json\"}}"
        )?;
    }
    write!(text, "]")?;
    Ok(text)
}

/// The table at the end of the most pods that a node takes, with that many containers each.
pub(crate) fn many_told(alloc: Global, containers: u32) -> Result<String, AllocError> {
    let mut text = String::new(alloc);
    for pod in 0..MAX_PODS {
        writeln!(text, "POD default.p{pod} Succeeded")?;
        for container in 0..containers {
            writeln!(text, "  c{container} Terminated 0 0")?;
        }
    }
    Ok(text)
}

/// Files of these lines, whose read with this number fails.
fn files(alloc: Global, lines: &str, failing: u64) -> Result<MemoryFiles, AllocError> {
    let mut files = Vec::new(alloc);
    for line in lines.lines() {
        if let Some((path, text)) = line.split_once(' ') {
            let path = String::from_str(alloc, path)?;
            let bytes = Vec::from_slice(alloc, text.as_bytes())?;
            files.push(StoredFile::new(path, bytes))?;
        }
    }
    let mut files = MemoryFiles::new(files);
    files.fail_call(failing);
    Ok(files)
}

/// A loop with the files above. The read or write of its wires with this number fails, and so do these reads
/// of its files.
pub(crate) fn runtime<B: RuntimeNode>(
    alloc: Global,
    node: Begun,
    failing: u64,
    script: u64,
    profile: u64,
) -> Result<Loop<B>, AllocError>
    requires { node ≡ (B.filter, B.table) }
{
    let scripts = files(alloc, SCRIPTS, script)?;
    let profiles = files(alloc, PROFILES, profile)?;
    let runtime = Loop::new(alloc, node, scripts, profiles);
    runtime.fail_call(failing);
    Ok(runtime)
}

// The settings of an agent that speaks this version.
fn settings(version: Version) -> Settings {
    Settings {
        seccomp_default: false,
        poll: 0,
        version,
    }
}

/// A shared book with this limit of entries, with these pods, of an agent that speaks this version, and
/// worker 0's coordinator.
pub(crate) fn begun<L: Ledger, R: Wait>(
    rt: &R,
    alloc: Global,
    version: Version,
    pods: &str,
    limit: usize,
    blank: Blank,
) -> Result<(Shared<L>, Coordinator<L>), Fail>
    requires name { blank.name ≡ L.name }
    requires parts { blank.parts ≡ L.parts }
    requires all { blank.parts ≡ PARTS }
    requires limit { limit ≤ MAX_ENTRIES }
    ensures { IfOk result (λ begun. begun.1.parts ≡ PARTS) }
{
    let (book, share) = Book::<L>::with_limit(alloc, settings(version), limit, blank);
    let shared = Shared::new(alloc, book, Observed::Nothing);
    let mut coordinator = Coordinator::new(alloc, share);
    for line in pods.lines() {
        let (name, spec) = line.split_once(' ').ok_or("a pod")?;
        let pod = pod(alloc, name, spec)?;
        if coordinator
            .record(rt, &shared, AgentEvent::Admit(pod))
            .is_err()
        {
            return Err("a pod is not admitted")?;
        }
    }
    Ok((shared, coordinator))
}

/// Peers for this many workers, at most 64.
fn peers<'a, B: RuntimeNode, R: Wait>(
    rt: &'a R,
    alloc: Global,
    runtime: &'a Loop<B>,
    version: Version,
    workers: u32,
) -> Result<Vec<LoopPeer<'a, B, R>>, AllocError>
    ensures { IfOk result (λ peers. vec_len peers < PARTS) }
{
    let mut peers = Vec::new(alloc);
    for _ in 0..workers.min(64) {
        peers.push(LoopPeer::new(rt, runtime, version))?;
    }
    Ok(peers)
}

/// Lets a crew work beside four runners.
pub(crate) fn worked<
    L: Ledger + Send + Sync,
    B: RuntimeNode + Send + Sync,
    P: Peer + Send + Drop,
    G: Gate + Sync,
    R: Threads + Wait + Clock + Sync,
>(
    rt: &R,
    alloc: Global,
    runtime: &Loop<B>,
    shared: &Shared<L>,
    coordinator: Coordinator<L>,
    peers: Vec<P>,
    gate: &G,
    pace: Pace,
) -> (Ended, Option<Tally<L>>)
    requires few { vec_len peers < PARTS }
    requires parts { coordinator.parts ≡ PARTS }
    requires whole { L.parts ≡ PARTS }
{
    scope(
        scope_env(),
        rt,
        move |scope| -> (Ended, Option<Tally<L>>)
            requires few { vec_len peers < PARTS }
            requires parts { coordinator.parts ≡ PARTS }
            requires whole { L.parts ≡ PARTS }
        {
            let started = start_runners(scope, rt, &runtime.threads, RUNNERS);
            let runners = if started.is_ok() { RUNNERS } else { 0 };
            let counterpart = Idle {
                rt,
                runtime,
                runners,
            };
            let CrewEnd { ended, tally, .. } = crew(
                rt,
                alloc,
                shared,
                gate,
                &counterpart,
                coordinator,
                peers,
                NoTasks,
                pace,
            );
            runtime.threads.close(rt);
            match started {
                Ok(()) => (ended, tally),
                Err(_) => (Ended::Memory, tally),
            }
        },
    )
}

/// The end of a trial.
#[derive(Drop)]
pub(crate) struct Left {
    /// How the crew ended, whether there is a receipt for each entry and each entry is at its receipt's
    /// number, and the pods' table.
    pub(crate) text: String,
    /// At which moments the runs of the first pod's first container were recorded, if there are few pods and
    /// the history has one part.
    pub(crate) recorded: Vec<u64>,
}

// The moment at which this run of the first pod's first container was recorded, if it is the last one.
fn recorded_at(node: &Node, run: usize) -> Option<u64> {
    let track = node.pod(0)?.tracks.first()?;
    if track.runs.count() == run {
        Some(track.runs.last()?.recorded())
    } else {
        None
    }
}

// At which moments its runs were recorded, by a node that takes the events of the history once more, with the
// same answers.
fn recorded_first(alloc: Global, settings: Settings, history: &[Entry]) -> Result<Vec<u64>, Fail> {
    let mut node = Node::new(alloc, settings);
    let mut recorded = Vec::new(alloc);
    for entry in history {
        if !node
            .apply(entry.event.try_clone(alloc)?)
            .same(&entry.answer)
        {
            return Err("an event is answered otherwise")?;
        }
        if let Some(moment) = recorded_at(&node, recorded.len() + 1) {
            recorded.push(moment)?;
        }
    }
    Ok(recorded)
}

// The end of a history, with the runs if settings are given and it has one part.
fn left_of<L: Ledger>(
    alloc: Global,
    shared: Shared<L>,
    ended: Ended,
    tally: Option<Tally<L>>,
    replayed: Option<Settings>,
) -> Result<Left, Fail> {
    let mut tally = tally.ok_or("a tally")?;
    let mut book = shared.into_book();
    let entries = book.entries(&mut tally);
    let whole = entries == tally.receipts().len() as u64;
    let stand = audit(book.before(), book.history(), tally.receipts());
    let table = table(alloc, book.node())?;
    let ended = match ended {
        Ended::Settled => "settled",
        Ended::TimeUp => "time is up",
        Ended::Memory => "memory",
        Ended::HistoryFull => "full",
        Ended::Endless => "endless",
    };
    let recorded = match replayed {
        Some(settings) if book.before() == 0 => recorded_first(alloc, settings, book.history())?,
        _ => Vec::new(alloc),
    };
    Ok(Left {
        text: format!(in alloc; "{ended}, {}\n{}", whole && stand, table.as_str())?,
        recorded,
    })
}

// The longest wait, in turns of a millisecond.
const TURNS: u32 = 10_000;

// A gate that holds the first call until the second one came back, if it is asked to.
#[derive(Drop)]
struct Hold<'a, R: Clock> {
    rt: &'a R,
    holds: bool,
    answered: AtomicBool,
    passed: AtomicBool,
}

impl<'a, R: Clock> Hold<'a, R> {
    fn new(rt: &'a R, holds: bool) -> Hold<'a, R> {
        Hold {
            rt,
            holds,
            answered: AtomicBool::new(false),
            passed: AtomicBool::new(false),
        }
    }

    // Whether the first call was made once the second one had come back.
    fn has_passed(&self) -> bool {
        self.passed.load(Ordering::SeqCst)
    }
}

impl<R: Clock> Gate for Hold<'_, R> {
    fn before(&self, call: u64) -> bool {
        if !self.holds || call != 1 {
            return true;
        }
        for _ in 0..TURNS {
            if self.answered.load(Ordering::SeqCst) {
                self.passed.store(true, Ordering::SeqCst);
                return true;
            }
            sleep(self.rt, Duration::from_millis(1));
        }
        false
    }

    fn after(&self, call: u64) {
        if call == 2 {
            self.answered.store(true, Ordering::SeqCst);
        }
    }
}

// A gate that holds the first call for this many turns, and keeps how many entries the history has then.
#[derive(Drop)]
struct Watch<'a, L: Ledger, R: Wait + Clock> {
    rt: &'a R,
    shared: &'a Shared<L>,
    turns: u32,
    entries: AtomicU64,
}

impl<L: Ledger, R: Wait + Clock> Gate for Watch<'_, L, R> {
    fn before(&self, call: u64) -> bool {
        if call == 1 {
            for _ in 0..self.turns {
                sleep(self.rt, Duration::from_millis(1));
            }
            let entries = self.shared.entries(self.rt);
            self.entries.store(entries, Ordering::SeqCst);
        }
        true
    }

    fn after(&self, _call: u64) {}
}

/// A run of one pod whose first call is held up.
#[derive(Clone, Copy)]
pub(crate) struct HeldUp {
    pub(crate) workers: u32,
    pub(crate) pace: Pace,
    /// For how many milliseconds.
    pub(crate) turns: u32,
    /// Every how many reads and writes of the wires one fails (0: none).
    pub(crate) every: u64,
}

/// The end of that run.
#[derive(Drop)]
pub(crate) struct Entries {
    /// How many entries there were after the wait.
    pub(crate) held: u64,
    /// How many there were in the end.
    pub(crate) all: u64,
    pub(crate) text: String,
}

/// How many entries there are while the first call of one pod is held up, and in the end.
pub(crate) fn entries_at_call<
    L: Ledger + Send + Sync,
    B: RuntimeNode + Send + Sync,
    R: Threads + Wait + Clock + Sync,
>(rt: &R, alloc: Global, held_up: HeldUp, blank: Blank, node: Begun) -> Result<Entries, Fail>
    requires name { blank.name ≡ L.name }
    requires parts { blank.parts ≡ L.parts }
    requires all { blank.parts ≡ PARTS }
    requires node { node ≡ (B.filter, B.table) }
{
    let runtime = runtime::<B>(alloc, node, 0, 0, 0)?;
    runtime.fail_every(held_up.every);
    let version = Version::V2;
    let (shared, coordinator) = begun::<L, R>(rt, alloc, version, ONE_POD, MAX_ENTRIES, blank)?;
    let gate = Watch {
        rt,
        shared: &shared,
        turns: held_up.turns,
        entries: AtomicU64::new(0),
    };
    let peers = peers(rt, alloc, &runtime, version, held_up.workers)?;
    let (ended, tally) = worked(
        rt,
        alloc,
        &runtime,
        &shared,
        coordinator,
        peers,
        &gate,
        held_up.pace,
    );
    let held = gate.entries.load(Ordering::SeqCst);
    let all = shared.entries(rt);
    drop(gate);
    let text = left_of(alloc, shared, ended, tally, None)?.text;
    Ok(Entries { held, all, text })
}

/// The pods of a trial.
#[derive(Clone, Copy)]
pub(crate) enum Pods {
    /// One.
    One,
    /// Three, which end in three ways.
    Few,
    /// The most that a node takes, with this many containers each.
    Many(u32),
}

/// What is tried: which pods, how many workers, how long a history, which version of the messages, and
/// whether the first call is held up. And what fails, each by its number (0: none): a read or write of the
/// wires, every n-th of them, a read of a script, or of a profile.
#[derive(Clone, Copy)]
pub(crate) struct Trial {
    pub(crate) version: Version,
    pub(crate) pods: Pods,
    pub(crate) workers: u32,
    pub(crate) limit: usize,
    pub(crate) wires: u64,
    pub(crate) every: u64,
    pub(crate) scripts: u64,
    pub(crate) profiles: u64,
    pub(crate) holds: bool,
}

// The pods of a trial, in a line each.
fn pods_of(alloc: Global, pods: Pods) -> Result<String, AllocError> {
    let containers = match pods {
        Pods::One => return String::from_str(alloc, ONE_POD),
        Pods::Few => return String::from_str(alloc, PODS),
        Pods::Many(containers) => containers,
    };
    let spec = many(alloc, containers)?;
    let mut lines = String::new(alloc);
    for pod in 0..MAX_PODS {
        writeln!(lines, "p{pod} {}", spec.as_str())?;
    }
    Ok(lines)
}

/// The end of the pods after workers settled them over a loop. If the first call was to be held up and was
/// not, the text begins with that.
pub(crate) fn settled<
    L: Ledger + Send + Sync,
    B: RuntimeNode + Send + Sync,
    R: Threads + Wait + Clock + Sync,
>(rt: &R, alloc: Global, trial: Trial, blank: Blank, node: Begun) -> Result<Left, Fail>
    requires name { blank.name ≡ L.name }
    requires parts { blank.parts ≡ L.parts }
    requires all { blank.parts ≡ PARTS }
    requires node { node ≡ (B.filter, B.table) }
{
    let runtime = runtime::<B>(alloc, node, trial.wires, trial.scripts, trial.profiles)?;
    runtime.fail_every(trial.every);
    let gate = Hold::new(rt, trial.holds);
    let limit = trial.limit.min(MAX_ENTRIES);
    let pods = pods_of(alloc, trial.pods)?;
    let (shared, coordinator) = begun::<L, R>(
        rt,
        alloc,
        trial.version,
        pods.as_str(),
        limit,
        blank,
    )?;
    let peers = peers(rt, alloc, &runtime, trial.version, trial.workers)?;
    let (ended, tally) = worked(
        rt,
        alloc,
        &runtime,
        &shared,
        coordinator,
        peers,
        &gate,
        COUNTED,
    );
    let replayed = match trial.pods {
        Pods::Few => Some(settings(trial.version)),
        Pods::One | Pods::Many(_) => None,
    };
    let left = left_of(alloc, shared, ended, tally, replayed)?;
    if trial.holds && !gate.has_passed() {
        return Err("the first call was not held up")?;
    }
    Ok(left)
}
