ghost use Rattle.std.specs.Prelude.{◌≡◌};

use crate::wires::{PROFILES, SCRIPTS, Shared, add, asks, files, wire};
use node_io::{FileFault, Files, MemoryFiles};
use runner::{Begun, Ending, Node, Service, StepGate, serve_wire};
use runtime_cell::Cell;
use std::alloc::{AllocError, Global};
use std::marker::Brand;
use std::sync::Wait;
use std::sync::atomic::{AtomicBool, Ordering};
use std::test::Fail;
use std::thread::{Threads, join, sleep};
use std::time::{Clock, Duration};
use sys_table::CallTable;

// The longest wait, in turns of a millisecond.
const TURNS: u32 = 10_000;

// Waits until a flag is set, and returns whether it was.
fn waits<R: Clock>(rt: &R, flag: &AtomicBool) -> bool {
    for _ in 0..TURNS {
        if flag.load(Ordering::SeqCst) {
            return true;
        }
        sleep(rt, Duration::from_millis(1));
    }
    false
}

// Holds up the step of container 1 until another connection was answered after the step of container 2.
#[derive(Drop)]
struct Hold<'a, R: Clock> {
    rt: &'a R,
    held: AtomicBool,
    stepped: AtomicBool,
    answered: AtomicBool,
    passed: AtomicBool,
}

impl<'a, R: Clock> StepGate for Hold<'a, R> {
    fn before(&self, id: u64) {
        if id == 1 {
            self.held.store(true, Ordering::SeqCst);
            if waits(self.rt, &self.answered) {
                self.passed.store(true, Ordering::SeqCst);
            }
        }
    }

    fn ended(&self, _uid: &str, _cell: &Cell) {}

    fn after(&self, id: u64) {
        if id == 2 {
            self.stepped.store(true, Ordering::SeqCst);
        }
    }
}

// Two pods of one running container each.
const PODS: &str = r#"{"call":"RunPodSandbox","id":1,"uid":"u1","v":1}
{"attempt":0,"call":"CreateContainer","id":2,"image":"a.json","name":"main","profile":{"type":"Unconfined"},"uid":"u1","v":1}
{"attempt":0,"call":"StartContainer","id":3,"name":"main","uid":"u1","v":1}
{"call":"RunPodSandbox","id":4,"uid":"u2","v":1}
{"attempt":0,"call":"CreateContainer","id":5,"image":"a.json","name":"main","profile":{"path":"p.json","type":"Localhost"},"uid":"u2","v":1}
{"attempt":0,"call":"StartContainer","id":6,"name":"main","uid":"u2","v":1}"#;

const STATUS: &str =
    r#"{"attempt":0,"call":"ContainerStatus","id":7,"name":"main","uid":"u2","v":1}"#;

// The status of a container whose first call was performed.
const STEPPED: &str =
    r#"{"id":7,"ok":{"denied":0,"exit":null,"performed":1,"state":"RUNNING"},"v":1}"#;

// Steps container 2 once the step of container 1 is held, then asks for its status.
fn goes_by<B: Node, R: Wait + Clock>(
    rt: &R,
    alloc: Global,
    runtime: &Shared<B>,
    gate: &Hold<'_, R>,
) -> Result<bool, AllocError> {
    if !waits(rt, &gate.held) {
        return Ok(false);
    }
    let mut me = runtime.client();
    runtime.shared.step_round(rt, &mut me, 0, 2, gate);
    let told = asks(rt, alloc, runtime, STATUS)?;
    gate.answered.store(true, Ordering::SeqCst);
    let mut want = Vec::new(alloc);
    add(&mut want, alloc, STEPPED)?;
    Ok(gate.stepped.load(Ordering::SeqCst) && told.as_slice() == want.as_slice())
}

// Whether the step of container 1 waited for the other pod, and whether the other pod stepped meanwhile.
fn held_up<B: Node + Send + Sync, R: Threads + Wait + Clock + Sync>(
    rt: &R,
    alloc: Global,
    begun: Begun,
) -> Result<(bool, bool), AllocError>
    requires { begun ≡ (B.filter, B.table) }
{
    let runtime = Shared::<B>::new(alloc, begun);
    asks(rt, alloc, &runtime, PODS)?;
    let gate = Hold {
        rt,
        held: AtomicBool::new(false),
        stepped: AtomicBool::new(false),
        answered: AtomicBool::new(false),
        passed: AtomicBool::new(false),
    };
    let mut me = runtime.client();
    let (_, other) = join(
        rt,
        || runtime.shared.step_round(rt, &mut me, 1, 2, &gate),
        || goes_by(rt, alloc, &runtime, &gate),
    );
    Ok((gate.passed.load(Ordering::SeqCst), other?))
}

// A step of one sandbox's cell blocks no other sandbox. One lock around all cells would.
#[test]
fn sandboxes_have_locks_of_their_own(rt: HostRuntime) -> Result<(), Fail> {
    let found = held_up::<Brand, _>(&rt, rt.alloc(), Begun::new(rt.alloc(), None)?)?;
    assert!(rt; found == (true, true));
    Ok(())
}

// Files whose reads wait until another connection was answered.
#[derive(Drop)]
struct Slow<'a, R: Clock> {
    rt: &'a R,
    files: MemoryFiles,
    answered: &'a AtomicBool,
    waited: bool,
}

impl<'a, R: Clock> Files for Slow<'a, R> {
    ghost use Rattle.std.specs.Prelude.{None};

    ghost failed = { λ slow. slow.files.failures };

    fn read(&mut self, path: &str, limit: u64) -> Result<Vec<u8>, FileFault> {
        self.waited = waits(self.rt, self.answered);
        self.files.read(path, limit)
    }

    fn failures(&self) -> u64 {
        self.files.failures()
    }
}

const CREATE: &str =
    r#"{"attempt":1,"call":"CreateContainer","id":8,"image":"a.json","name":"main","profile":{"type":"Unconfined"},"uid":"u1","v":1}"#;

// Whether the script of a CreateContainer was read only once another connection was answered.
fn creates_slowly<B: Node, R: Wait + Clock>(
    rt: &R,
    alloc: Global,
    runtime: &Shared<B>,
    answered: &AtomicBool,
) -> Result<bool, AllocError> {
    let mut input = Vec::new(alloc);
    add(&mut input, alloc, CREATE)?;
    let mut wire = wire(alloc, input.as_slice(), 20, 0)?;
    let scripts = Slow {
        rt,
        files: files(alloc, &SCRIPTS)?,
        answered,
        waited: false,
    };
    let profiles = files(alloc, &PROFILES)?;
    let mut service = Service {
        scripts,
        profiles,
        host: runtime.host(rt),
    };
    let ending = serve_wire(alloc, CallTable::Linux5_8, &mut wire, &mut service);
    let Service { scripts, .. } = service;
    Ok(ending == Ending::Ended && scripts.waited)
}

// Asks for another pod, and sets the flag once that was answered.
fn asks_meanwhile<B: Node, R: Wait>(
    rt: &R,
    alloc: Global,
    runtime: &Shared<B>,
    answered: &AtomicBool,
) -> Result<bool, AllocError> {
    let told = asks(rt, alloc, runtime, RUN_OTHER)?;
    answered.store(true, Ordering::SeqCst);
    let mut want = Vec::new(alloc);
    add(&mut want, alloc, OTHER_RUNS)?;
    Ok(told.as_slice() == want.as_slice())
}

const RUN_OTHER: &str = r#"{"call":"RunPodSandbox","id":9,"uid":"u3","v":2}"#;

const OTHER_RUNS: &str = r#"{"id":9,"ok":{},"v":2}"#;

// Whether a slow read waited for another connection, and whether that was answered meanwhile.
fn read_slowly<B: Node + Send + Sync, R: Threads + Wait + Clock + Sync>(
    rt: &R,
    alloc: Global,
    begun: Begun,
) -> Result<(bool, bool), AllocError>
    requires { begun ≡ (B.filter, B.table) }
{
    let runtime = Shared::<B>::new(alloc, begun);
    asks(rt, alloc, &runtime, PODS)?;
    let answered = AtomicBool::new(false);
    let (slow, other) = join(
        rt,
        || creates_slowly(rt, alloc, &runtime, &answered),
        || asks_meanwhile(rt, alloc, &runtime, &answered),
    );
    Ok((slow?, other?))
}

// No lock is held while a file is read.
#[test]
fn a_slow_file_holds_up_its_own_connection_alone(rt: HostRuntime) -> Result<(), Fail> {
    let found = read_slowly::<Brand, _>(&rt, rt.alloc(), Begun::new(rt.alloc(), None)?)?;
    assert!(rt; found == (true, true));
    Ok(())
}

// Files that record when they were read.
#[derive(Drop)]
struct WatchedFiles<'a> {
    files: MemoryFiles,
    was_read: &'a AtomicBool,
}

impl<'a> Files for WatchedFiles<'a> {
    ghost use Rattle.std.specs.Prelude.{None};

    ghost failed = { λ told. told.files.failures };

    fn read(&mut self, path: &str, limit: u64) -> Result<Vec<u8>, FileFault> {
        let found = self.files.read(path, limit);
        self.was_read.store(true, Ordering::SeqCst);
        found
    }

    fn failures(&self) -> u64 {
        self.files.failures()
    }
}

// How many steps the long script has, about 160 bytes each.
const LONG: usize = 2048;

const LONG_STEP: &str =
    r#"{"call":"getpid","args":[18446744073709551615,18446744073709551615,18446744073709551615,18446744073709551615,18446744073709551615,18446744073709551615]}"#;

// A script that takes many milliseconds to read.
fn long_script(alloc: Global) -> Result<String, AllocError> {
    let mut text = String::from_str(alloc, "{\"steps\":[")?;
    for place in 0..LONG {
        if place > 0 {
            text.push_str(",")?;
        }
        text.push_str(LONG_STEP)?;
    }
    text.push_str("]}")?;
    Ok(text)
}

// Creates a container with the long script at this attempt, and sets the flags once its file was read and
// once it was answered.
fn creates_long<B: Node, R: Wait>(
    rt: &R,
    alloc: Global,
    runtime: &Shared<B>,
    script: &str,
    attempt: u32,
    flags: (&AtomicBool, &AtomicBool),
) -> Result<bool, AllocError> {
    let (was_read, answered) = flags;
    let text = format!(in alloc;
        "{{\"attempt\":{attempt},\"call\":\"CreateContainer\",\"id\":8,\"image\":\"long.json\",\"name\":\"long\",\"profile\":{{\"type\":\"Unconfined\"}},\"uid\":\"u1\",\"v\":1}}"
    )?;
    let mut input = Vec::new(alloc);
    add(&mut input, alloc, text.as_str())?;
    let mut wire = wire(alloc, input.as_slice(), 1000, 0)?;
    let scripts = WatchedFiles {
        files: files(alloc, &[("long.json", script)])?,
        was_read,
    };
    let profiles = files(alloc, &PROFILES)?;
    let mut service = Service {
        scripts,
        profiles,
        host: runtime.host(rt),
    };
    let ending = serve_wire(alloc, CallTable::Linux5_8, &mut wire, &mut service);
    answered.store(true, Ordering::SeqCst);
    Ok(ending == Ending::Ended)
}

// How many requests of another pod are answered between the read of the file and the answer.
fn answers_meanwhile<B: Node, R: Wait + Clock>(
    rt: &R,
    alloc: Global,
    runtime: &Shared<B>,
    flags: (&AtomicBool, &AtomicBool),
) -> Result<u32, AllocError> {
    let (was_read, answered) = flags;
    waits(rt, was_read);
    for count in 0..TURNS {
        asks(rt, alloc, runtime, RUN_OTHER)?;
        if answered.load(Ordering::SeqCst) {
            return Ok(count);
        }
    }
    Ok(TURNS)
}

// How many requests are answered while a container with the long script is created at this attempt.
fn created_meanwhile<B: Node + Send + Sync, R: Threads + Wait + Clock + Sync>(
    rt: &R,
    alloc: Global,
    runtime: &Shared<B>,
    script: &str,
    attempt: u32,
) -> Result<u32, AllocError> {
    let was_read = AtomicBool::new(false);
    let answered = AtomicBool::new(false);
    let flags = (&was_read, &answered);
    let (created, count) = join(
        rt,
        || creates_long(rt, alloc, runtime, script, attempt, flags),
        || answers_meanwhile(rt, alloc, runtime, flags),
    );
    if created? { count } else { Ok(0) }
}

// The most that are answered during one of a few creations, which begin until enough are.
fn most_answered<B: Node + Send + Sync, R: Threads + Wait + Clock + Sync>(
    rt: &R,
    alloc: Global,
    begun: Begun,
) -> Result<u32, AllocError>
    requires { begun ≡ (B.filter, B.table) }
{
    let runtime = Shared::<B>::new(alloc, begun);
    asks(rt, alloc, &runtime, PODS)?;
    let script = long_script(alloc)?;
    let mut most = 0;
    for attempt in 0..6 {
        if most < ENOUGH {
            most = created_meanwhile(rt, alloc, &runtime, script.as_str(), attempt)?;
        }
    }
    Ok(most)
}

// More than are answered in the moment between the read of a file and a lock that is taken at once.
const ENOUGH: u32 = 8;

// No lock is held while a script is read.
#[test]
fn a_long_script_holds_up_its_own_connection_alone(rt: HostRuntime) -> Result<(), Fail> {
    let most = most_answered::<Brand, _>(&rt, rt.alloc(), Begun::new(rt.alloc(), None)?)?;
    assert!(rt; most >= ENOUGH, "{most}");
    Ok(())
}
