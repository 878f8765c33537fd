ghost use Rattle.std.specs.Prelude.{◌≡◌};

use crate::wires::{Shared, asks};
use cri_msgs::{Answer, Reply, Request, Version};
use runner::{Begun, Client, Node, StepGate};
use runtime_cell::Cell;
use runtime_core::FileAnswers;
use std::alloc::Global;
use std::marker::Brand;
use std::sync::Wait;
use std::sync::atomic::{AtomicU64, Ordering};
use std::test::Fail;

// Containers 1 to 4, of two pods in turn. The fourth was made and not started.
const PODS: &str = r#"{"call":"RunPodSandbox","id":1,"uid":"u1","v":1}
{"call":"RunPodSandbox","id":2,"uid":"u2","v":1}
{"attempt":0,"call":"CreateContainer","id":3,"image":"a.json","name":"a","profile":{"type":"Unconfined"},"uid":"u1","v":1}
{"attempt":0,"call":"CreateContainer","id":4,"image":"a.json","name":"b","profile":{"type":"Unconfined"},"uid":"u2","v":1}
{"attempt":0,"call":"CreateContainer","id":5,"image":"a.json","name":"c","profile":{"type":"Unconfined"},"uid":"u1","v":1}
{"attempt":0,"call":"CreateContainer","id":6,"image":"a.json","name":"d","profile":{"type":"Unconfined"},"uid":"u2","v":1}
{"attempt":0,"call":"StartContainer","id":7,"name":"a","uid":"u1","v":1}
{"attempt":0,"call":"StartContainer","id":8,"name":"b","uid":"u2","v":1}
{"attempt":0,"call":"StartContainer","id":9,"name":"c","uid":"u1","v":1}"#;

// A round: which runner of how many, how many cells it visits, whether one went on, and how many calls each
// container has performed then.
const ROUNDS: [(u64, u64, u64, bool, [u64; 4]); 8] = [
    (0, 2, 1, true, [0, 1, 0, 0]),
    (1, 2, 2, true, [1, 1, 1, 0]),
    (0, 1, 3, true, [2, 2, 2, 0]),
    (2, 3, 1, true, [2, 2, 2, 0]),
    (0, 3, 1, true, [2, 2, 2, 0]),
    (0, 2, 0, false, [2, 2, 2, 0]),
    (1, 3, 1, true, [2, 2, 2, 0]),
    (0, 1, 0, false, [2, 2, 2, 0]),
];

// Counts the steps.
#[derive(Drop)]
struct Counted {
    steps: AtomicU64,
}

impl StepGate for Counted {
    fn before(&self, _id: u64) {
        self.steps.fetch_add(1, Ordering::SeqCst);
    }

    fn ended(&self, _uid: &str, _cell: &Cell) {}

    fn after(&self, _id: u64) {}
}

// How many calls a container has performed.
fn performed<B: Node, R: Wait>(
    rt: &R,
    alloc: Global,
    runtime: &Shared<B>,
    me: &mut Client<B>,
    uid: &str,
    name: &str,
) -> Result<u64, Fail> {
    let text = format!(in alloc;
        "{{\"attempt\":0,\"call\":\"ContainerStatus\",\"id\":1,\"name\":\"{name}\",\"uid\":\"{uid}\",\"v\":1}}"
    )?;
    let request = Request::read(alloc, Version::V1, text.as_bytes())?;
    let files = FileAnswers {
        script: None,
        profile: None,
    };
    let Reply { answer, .. } = runtime.shared.serve(rt, me, request, files);
    match answer {
        Answer::Status(status) => Ok(status.performed),
        _ => Err("a status")?,
    }
}

#[test]
fn rounds_step_their_shares(rt: HostRuntime) -> Result<(), Fail> {
    let begun = Begun::new(rt.alloc(), None)?;
    let wrong = first_wrong::<Brand, _>(&rt, rt.alloc(), begun)?;
    assert!(rt; wrong.is_none(), "round {wrong:?}");
    Ok(())
}

// The place of the first of the rounds that does something else.
fn first_wrong<B: Node, R: Wait>(rt: &R, alloc: Global, begun: Begun) -> Result<Option<usize>, Fail>
    requires { begun ≡ (B.filter, B.table) }
{
    let runtime = Shared::<B>::new(alloc, begun);
    let mut me = runtime.client();
    asks(rt, alloc, &runtime, PODS)?;
    for (place, (runner, runners, visits, goes_on, counts)) in ROUNDS.into_iter().enumerate() {
        let gate = Counted {
            steps: AtomicU64::new(0),
        };
        if runner >= runners {
            return Ok(Some(place));
        }
        let went_on = runtime
            .shared
            .step_round(rt, &mut me, runner, runners, &gate);
        let steps = gate.steps.load(Ordering::SeqCst);
        let found = [
            performed(rt, alloc, &runtime, &mut me, "u1", "a")?,
            performed(rt, alloc, &runtime, &mut me, "u2", "b")?,
            performed(rt, alloc, &runtime, &mut me, "u1", "c")?,
            performed(rt, alloc, &runtime, &mut me, "u2", "d")?,
        ];
        if went_on != goes_on || steps != visits || found != counts {
            return Ok(Some(place));
        }
    }
    Ok(None)
}
