ghost use Rattle.std.specs.Prelude.{◌≡◌, ◌≢◌, ◌≤◌, List, Ok, Err, IfOk, IfErr, length, map};
ghost use Rattle.serde_json.specs.View.{view};
ghost use Rattle.json_tree.specs.Reading.{Both, Gives, as_read};
ghost use Rattle.script.specs.declared.faults.ScriptFault.{ScriptFault};
ghost use Rattle.script.specs.declared.placed.ScriptFaultAt.{ScriptFaultAt};
ghost use Rattle.script.specs.declared.scripts.Step.{Step};
ghost use Rattle.script.specs.declared.scripts.TheConstants.{MAX_STEPS};
ghost use Rattle.script.specs.Script.{IsStep, ReadsScript, ReadsScriptWith};
ghost use Rattle.script.specs.Reading.{GivesStep, GivesSteps, IsFirstFault, IsFirstFaultAt, IsFirstOfSteps};
ghost use Rattle.script.specs.Reading.{Reads, call_step_of, exit_by_attempt_step_of, exit_step_of};
ghost use Rattle.script.specs.Reading.{install_step_of, items_of, kind_of, step_of, text_items};

use crate::faults::ScriptFault;
use crate::fields::{call, call_fields, exit, exit_by_attempt};
use crate::install::{filter, rows};
use crate::placed::{ScriptFaultAt, at, in_step};
use crate::scripts::{MAX_STEPS, Script, Step};
use bpf_code::written_is_read;
use call_data::SysCall;
use json_place::required_list;
use json_tree::{has, object};
use serde_json::Value;
use std::alloc::Global;
use sys_table::CallTable;

#[derive(Clone, Copy)]
pub(crate) enum StepKind {
    Call,
    Exit,
    ExitByAttempt,
    Install,
}

/// The script of a text, or its first fault: of the text, then of the steps in order, and of the fields of a
/// step in order. Unknown fields are ignored. The known calls are those of Linux 5.8. If an allocation fails,
/// the result is `Memory`.
pub fn read(alloc: Global, bytes: &[u8]) -> Result<Script, ScriptFault>
    // The result is the text's script.
    ensures found { IfOk result (ReadsScript bytes.now) }

    // Every script is read, unless memory runs out.
    ensures only { (steps : List Step) → ReadsScript bytes.now steps
        → Gives ScriptFault.Memory (λ script. script) result (Ok steps) }

    // A refused text has this fault first, and a text with a first fault is refused for it.
    ensures first { IfErr result (λ fault. fault ≢ ScriptFault.Memory → IsFirstFault bytes.now fault) }
    ensures told { (fault : ScriptFault) → IsFirstFault bytes.now fault
        → Gives ScriptFault.Memory (λ script. script) result (Err fault) }
{
    Ok(read_placed_with(alloc, CallTable::Linux5_8, bytes)?)
}

/// Reads a script as [`read`] does, if these are the known calls, and returns the place of the first fault in
/// the text.
pub fn read_placed_with(
    alloc: Global,
    calls: CallTable,
    bytes: &[u8],
) -> Result<Script, ScriptFaultAt>
    ensures found { IfOk result (ReadsScriptWith calls bytes.now) }
    ensures only { (steps : List Step) → ReadsScriptWith calls bytes.now steps
        → Reads (λ script. script) result (Ok steps) }
    ensures first { IfErr result
        (λ found. found.fault ≢ ScriptFault.Memory → IsFirstFaultAt calls bytes.now found) }
    ensures told { (found : ScriptFaultAt) → IsFirstFaultAt calls bytes.now found
        → Reads (λ script. script) result (Err found) }
{
    written_is_read();
    reading(alloc, calls, bytes)
}

#[tactic(auto, unfolding(crate::specs::Reading::text_items))]
fn reading(alloc: Global, calls: CallTable, bytes: &[u8]) -> Result<Script, ScriptFaultAt>
    ensures { GivesSteps calls result (text_items bytes.now) }
{
    let tree = json_tree::read(alloc, bytes)?;
    script(alloc, calls, &tree)
}

fn script(alloc: Global, calls: CallTable, tree: &Value) -> Result<Script, ScriptFaultAt>
    ensures value { GivesSteps calls result (items_of (view tree.now)) }

    // A fault found before the steps are read is reported even if memory runs out.
    ensures told { (found : ScriptFaultAt) → items_of (view tree.now) ≡ Err found → result ≡ Err found }
{
    let items = items(tree)?;
    let steps = steps(alloc, calls, items)?;
    Ok(Script::new(steps)?)
}

/// The steps, not read yet.
#[tactic(auto, unfolding(crate::specs::Reading::items_of))]
fn items(tree: &Value) -> Result<&[Value], ScriptFaultAt>
    ensures value { as_read (λ items. map view items.now) result ≡ items_of (view tree.now) }
    ensures few { IfOk result (λ items. length items.now ≤ MAX_STEPS) }
{
    let tree = object(tree).ok_or(ScriptFaultAt::here(ScriptFault::WrongType))?;
    let items = required_list(tree, "steps")?;
    if items.len() > MAX_STEPS {
        return Err(ScriptFaultAt::at("steps", ScriptFault::TooMany));
    }
    Ok(items)
}

#[tactic(auto, using(crate::proofs::First::steps_more, crate::proofs::First::first_here))]
fn steps(alloc: Global, calls: CallTable, items: &[Value]) -> Result<Vec<Step>, ScriptFaultAt>
    ensures found { IfOk result (λ steps. Both (IsStep calls) (map view items.now) steps.items) }
    ensures first { IfErr result (λ found. found.fault ≢ ScriptFault.Memory
        → IsFirstOfSteps calls (map view items.now) found) }
{
    let mut steps = Vec::new(alloc);
    for item in items {
        let step = in_step(steps.len(), step(alloc, calls, item))?;
        steps.push(step)?;
    }
    Ok(steps)
}

#[tactic(auto, unfolding(crate::specs::Reading::step_of))]
fn step(alloc: Global, calls: CallTable, item: &Value) -> Result<Step, ScriptFaultAt>
    ensures { GivesStep result (step_of calls (view item.now)) }
{
    let tree = object(item).ok_or(ScriptFaultAt::here(ScriptFault::WrongType))?;
    match kind(tree)? {
        StepKind::Call => call_step(calls, tree),
        StepKind::Exit => exit_step(tree),
        StepKind::ExitByAttempt => exit_by_attempt_step(alloc, tree),
        StepKind::Install => install_step(alloc, tree),
    }
}

#[tactic(auto, unfolding(crate::specs::Reading::kind_of))]
fn kind(tree: &Value) -> Result<StepKind, ScriptFaultAt>
    ensures { result ≡ kind_of (view tree.now) }
{
    match (
        has(tree, "call"),
        has(tree, "exit"),
        has(tree, "exitByAttempt"),
        has(tree, "install"),
    ) {
        (true, false, false, false) => Ok(StepKind::Call),
        (false, true, false, false) => Ok(StepKind::Exit),
        (false, false, true, false) => Ok(StepKind::ExitByAttempt),
        (false, false, false, true) => Ok(StepKind::Install),
        (false, false, false, false) => Err(ScriptFaultAt::here(ScriptFault::Missing)),
        _ => Err(ScriptFaultAt::here(ScriptFault::WrongType)),
    }
}

#[tactic(auto, unfolding(crate::specs::Reading::call_step_of))]
fn call_step(calls: CallTable, tree: &Value) -> Result<Step, ScriptFaultAt>
    ensures { as_read (λ s. s) result ≡ call_step_of calls (view tree.now) }
{
    let nr = call(calls, tree)?;
    let fields = call_fields(tree)?;
    let args = fields.args;
    let call = SysCall {
        nr,
        arch: fields.arch,
        ip: fields.ip,
        args,
    };
    Ok(Step::Call {
        call,
        on_error: fields.on_error,
    })
}

#[tactic(auto, unfolding(crate::specs::Reading::exit_step_of))]
fn exit_step(tree: &Value) -> Result<Step, ScriptFaultAt>
    ensures { as_read (λ s. s) result ≡ exit_step_of (view tree.now) }
{
    let _beside = call_fields(tree)?;
    Ok(Step::Exit(exit(tree)?))
}

#[tactic(auto, unfolding(crate::specs::Reading::exit_by_attempt_step_of))]
fn exit_by_attempt_step(alloc: Global, tree: &Value) -> Result<Step, ScriptFaultAt>
    ensures { Reads (λ s. s) result (exit_by_attempt_step_of (view tree.now)) }
{
    let _beside = call_fields(tree)?;
    Ok(Step::ExitByAttempt(exit_by_attempt(alloc, tree)?))
}

#[tactic(auto, unfolding(crate::specs::Reading::install_step_of))]
fn install_step(alloc: Global, tree: &Value) -> Result<Step, ScriptFaultAt>
    ensures { GivesStep result (install_step_of (view tree.now)) }
{
    let beside = call_fields(tree)?;
    let items = rows(tree)?;
    let filter = at("install", filter(alloc, items))?;
    Ok(Step::Install {
        filter,
        on_error: beside.on_error,
    })
}
