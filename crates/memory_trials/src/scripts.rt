//! Reading scripts, and making the cells that play them.
use crate::filters::{are_same, filter};
use crate::places::is_at;
use runtime_cell::{Cell, Did, State};
use script::{Script, ScriptFault, ScriptFaultAt, Step};
use std::alloc::{AllocError, Global};
use sys_table::CallTable;
use trials::{CallResult, SCRIPT, Trial, TrialResult, try_call};
use verdict::Stack;

/// Tries the call of this name, if it is one of this module's.
pub(crate) fn run_trial(rt: &HostRuntime, name: &str) -> Option<TrialResult> {
    let alloc = rt.alloc();
    match name {
        "script::read" => Some(try_call(rt, Reads::new(alloc))),
        "script::read_placed_with" => Some(try_call(rt, Some(Places { alloc }))),
        "Cell::playing" => Some(try_call(rt, Plays::new(alloc))),
        "Cell::step" => Some(try_call(rt, Lives::new(alloc))),
        _ => None,
    }
}

fn script(alloc: Global) -> Option<Script> {
    script::read(alloc, SCRIPT.as_bytes()).ok()
}

fn same_step(a: &Step, b: &Step) -> bool {
    match (a, b) {
        (
            Step::Call { call, on_error },
            Step::Call {
                call: other,
                on_error: or,
            },
        ) => *call == *other && *on_error == *or,
        (Step::Exit(code), Step::Exit(other)) => *code == *other,
        (Step::ExitByAttempt(codes), Step::ExitByAttempt(others)) => codes.as_slice()
            == others.as_slice(),
        (
            Step::Install { filter, on_error },
            Step::Install {
                filter: other,
                on_error: or,
            },
        ) => are_same(filter, other) && *on_error == *or,
        _ => false,
    }
}

/// `script::read_placed_with`, of a script whose second step has a bad argument.
#[derive(Drop)]
struct Places {
    alloc: Global,
}

const FAULTY: &str = r#"{"steps":[{"call":"getpid"},{"call":"write","args":[1,"two"]}]}"#;

impl Trial for Places {
    type Answer = Result<Script, ScriptFaultAt>;

    fn call(&mut self) -> Result<Script, ScriptFaultAt> {
        script::read_placed_with(self.alloc, CallTable::Linux5_8, FAULTY.as_bytes())
    }

    fn check(&mut self, answer: &Result<Script, ScriptFaultAt>) -> CallResult {
        match answer {
            Ok(_) => CallResult::Wrong,
            Err(found) => match found.fault {
                ScriptFault::Memory => CallResult::Memory,
                ScriptFault::WrongType => {
                    CallResult::right_if(is_at(self.alloc, &found.place, "steps[1].args[1]"))
                }
                _ => CallResult::Wrong,
            },
        }
    }
}

/// `script::read`.
#[derive(Drop)]
struct Reads {
    alloc: Global,
    wanted: Script,
}

impl Reads {
    fn new(alloc: Global) -> Option<Reads> {
        let wanted = script(alloc)?;
        Some(Reads { alloc, wanted })
    }

    fn is_wanted(&self, script: &Script) -> bool {
        for (step, other) in script.steps().iter().zip(self.wanted.steps()) {
            if !same_step(step, other) {
                return false;
            }
        }
        script.len() == self.wanted.len()
    }
}

impl Trial for Reads {
    type Answer = Result<Script, ScriptFault>;

    fn call(&mut self) -> Result<Script, ScriptFault> {
        script::read(self.alloc, SCRIPT.as_bytes())
    }

    fn check(&mut self, answer: &Result<Script, ScriptFault>) -> CallResult {
        match answer {
            Ok(script) => CallResult::right_if(self.is_wanted(script)),
            Err(ScriptFault::Memory) => CallResult::Memory,
            Err(_) => CallResult::Wrong,
        }
    }
}

/// `Cell::playing`: what it needs, twice.
#[derive(Drop)]
struct Plays {
    alloc: Global,
    given: Vec<(Script, Stack)>,
}

impl Plays {
    fn new(alloc: Global) -> Option<Plays> {
        let mut given = Vec::new(alloc);
        for _ in 0..2 {
            let mut stack = Stack::new(alloc);
            stack.push(filter(alloc)?).ok()?;
            given.push((script(alloc)?, stack)).ok()?;
        }
        Some(Plays { alloc, given })
    }
}

impl Trial for Plays {
    type Answer = Option<Result<Cell, AllocError>>;

    fn call(&mut self) -> Option<Result<Cell, AllocError>> {
        let (script, stack) = self.given.pop()?;
        Some(Cell::playing(self.alloc, script, stack, 1))
    }

    fn check(&mut self, answer: &Option<Result<Cell, AllocError>>) -> CallResult {
        match answer {
            Some(Ok(cell)) => {
                let is_fresh = cell.record().is_empty() && cell.state() == State::Running;
                CallResult::right_if(is_fresh && cell.label().attempt == 1)
            }
            Some(Err(AllocError)) => CallResult::Memory,
            None => CallResult::Wrong,
        }
    }
}

/// The calls of a cell that was made: a start, steps to its end, a kill after it, and what it shows. They
/// take no memory.
#[derive(Drop)]
struct Lives {
    cell: Cell,
}

impl Lives {
    fn new(alloc: Global) -> Option<Lives> {
        let mut stack = Stack::new(alloc);
        stack.push(filter(alloc)?).ok()?;
        let cell = Cell::playing(alloc, script(alloc)?, stack, 1).ok()?;
        Some(Lives { cell })
    }
}

impl Trial for Lives {
    type Answer = Option<u8>;

    fn call(&mut self) -> Option<u8> {
        self.cell.start();
        for _ in 0..9 {
            match self.cell.step() {
                Did::Performed | Did::Denied(_) => {}
                Did::Ended(_) | Did::Idle => break,
            }
        }
        self.cell.kill(9);
        self.cell.exit()
    }

    // The filter of the start ends the process for getpid.
    fn check(&mut self, answer: &Option<u8>) -> CallResult {
        let counts = self.cell.counts();
        let is_told = counts.performed == 3 && counts.denied == 1 && self.cell.record().len() == 4;
        CallResult::right_if(is_told && *answer == Some(159) && self.cell.added() == 1)
    }
}
