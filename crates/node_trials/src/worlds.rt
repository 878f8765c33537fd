//! The joint machine of agent and runtime.
use crate::nodes::{SETTINGS, pod, same_node};
use manifest::Uid;
use runtime_cell::Cell;
use runtime_core::Runtime;
use std::alloc::Global;
use trials::{CallResult, Trial, TrialResult, files, try_call};
use world::{Act, World, WorldEvent, WorldFault};

/// Tries the step by an event of this name.
pub(crate) fn run_trial(rt: &HostRuntime, name: &str, event: &str) -> Option<TrialResult> {
    match name {
        "World::step" => Some(try_call(rt, Steps::new(rt.alloc(), event))),
        "World::new" => Some(try_call(rt, Some(Begins { alloc: rt.alloc() }))),
        _ => None,
    }
}

/// The events after which the trials begin, by their names: the container of `a` has ended, which worker 1
/// knows and has not reported; worker 2 has to create that of `b`; nobody has claimed `d`.
const BEFORE: &str =
    "admit a\nclaim 1\nserve 0\nreport 1 0\nclaim 1\nserve 1\nreport 1 1\nclaim 1\nserve 2\nreport 1 2\n\
    step\nstep\nstep\nstep\nclaim 1\nserve 3\n\
    admit b\nclaim 2\nserve 4\nreport 2 4\nclaim 2\nadmit d\ntick 3";

/// An event, by its name and up to two numbers.
fn event(alloc: Global, text: &str) -> Option<WorldEvent> {
    let mut words = text.split(' ');
    let name = words.next().unwrap_or("");
    let word = words.next().unwrap_or("");
    let number = word.parse::<u32>().unwrap_or(0);
    let last = words.next().unwrap_or("").parse::<usize>().unwrap_or(0);
    Some(match name {
        "admit" => WorldEvent::Agent(Act::Admit(pod(alloc, word)?)),
        "delete" => WorldEvent::Agent(Act::Delete(Uid::new(alloc, "default.a").ok()??)),
        "claim" => WorldEvent::Agent(Act::Claim(number)),
        "tick" => WorldEvent::Agent(Act::Tick(u64::from(number))),
        "abandon" => WorldEvent::Agent(Act::Abandon(number)),
        "serve" => WorldEvent::Serve(number as usize, files(alloc)?),
        "report" => WorldEvent::Report(number, last),
        "lose" => WorldEvent::Lose(number),
        "step" => WorldEvent::StepCell(1),
        "kill" => WorldEvent::KillCell(1, 9),
        _ => return None,
    })
}

fn begun(alloc: Global) -> Option<World> {
    let mut world = World::new(alloc, SETTINGS, None);
    for text in BEFORE.lines() {
        world.step(event(alloc, text)?).ok()?;
    }
    Some(world)
}

fn same_cell(a: &Cell, b: &Cell) -> bool {
    a.state() == b.state()
        && a.record() == b.record()
        && a.label().name.as_str() == b.label().name.as_str()
}

/// Whether two runtimes of up to three cells have the same.
fn same_cells(a: &Runtime, b: &Runtime) -> bool {
    for id in 1..4 {
        let is_same = match (a.cell(id), b.cell(id)) {
            (Some(cell), Some(other)) => same_cell(cell, other),
            (None, None) => true,
            _ => false,
        };
        if !is_same {
            return false;
        }
    }
    true
}

/// Whether two worlds show the same, except for the replies that were given.
fn same_world(a: &World, b: &World) -> bool {
    same_node(a.node(), b.node())
        && same_cells(a.runtime(), b.runtime())
        && a.sent().len() == b.sent().len()
}

/// Whether the same reply was given last in both.
fn same_reply(a: &World, b: &World) -> bool {
    match (a.given().last(), b.given().last()) {
        (Some(exchange), Some(other)) => exchange.reply.same(&other.reply),
        _ => false,
    }
}

/// `World::step`: a world, the same world without any event, and the same world after the event.
#[derive(Drop)]
struct Steps {
    world: World,
    before: World,
    after: World,
    events: Vec<WorldEvent>,
}

impl Steps {
    fn new(alloc: Global, text: &str) -> Option<Steps> {
        let mut after = begun(alloc)?;
        after.step(event(alloc, text)?).ok()?;
        let mut events = Vec::new(alloc);
        for _ in 0..2 {
            events.push(event(alloc, text)?).ok()?;
        }
        Some(Steps {
            world: begun(alloc)?,
            before: begun(alloc)?,
            after,
            events,
        })
    }
}

impl Trial for Steps {
    type Answer = Option<Result<(), WorldFault>>;

    fn call(&mut self) -> Option<Result<(), WorldFault>> {
        Some(self.world.step(self.events.pop()?))
    }

    // A refusal by the node or by the runtime is an answer, and the world goes on: the event had no effect,
    // except for the reply that reports the refusal.
    fn check(&mut self, answer: &Option<Result<(), WorldFault>>) -> CallResult {
        match answer {
            Some(Ok(())) => {
                if same_world(&self.world, &self.after) && same_reply(&self.world, &self.after) {
                    return CallResult::Right;
                }
                if same_world(&self.world, &self.before) {
                    CallResult::Memory
                } else {
                    CallResult::Wrong
                }
            }
            Some(Err(WorldFault::Memory)) => CallResult::Memory,
            _ => CallResult::Wrong,
        }
    }

    fn is_unchanged(&mut self) -> bool {
        same_world(&self.world, &self.before)
    }
}

/// `World::new`, `node` and `runtime`, which take no memory.
#[derive(Drop)]
struct Begins {
    alloc: Global,
}

impl Trial for Begins {
    type Answer = bool;

    fn call(&mut self) -> bool {
        let world = World::new(self.alloc, SETTINGS, None);
        world.node().held() == 0 && world.runtime().next_id(0).is_none()
    }

    fn check(&mut self, answer: &bool) -> CallResult {
        CallResult::right_if(*answer)
    }
}
