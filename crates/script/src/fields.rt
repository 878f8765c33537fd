ghost use Rattle.std.specs.Prelude.{◌≡◌, [], Err, codes, length, map};
ghost use Rattle.serde_json.specs.View.{view};
ghost use Rattle.json_tree.specs.Reading.{as_fault, if_there, in_order_after};
ghost use Rattle.json_tree.specs.Tree as kind;
ghost use Rattle.script.specs.declared.placed.ScriptFaultAt.{ScriptFaultAt};
ghost use Rattle.json_place.specs.Parts.{Member};
ghost use Rattle.script.specs.Faults.{fault_here, fault_of_item, under};
ghost use Rattle.script.specs.Reading.{Reads, args_of, arch_of, argument_of, call_fields_of, call_of};
ghost use Rattle.script.specs.Reading.{code_at, code_of, codes_of, exit_by_attempt_of, exit_of, ip_of};
ghost use Rattle.script.specs.Reading.{number_of, on_error_of, six_of};

use crate::faults::ScriptFault;
use crate::placed::{ScriptFaultAt, at, under};
use crate::scripts::Codes;
use call_data::NATIVE_ARCH;
use json_place::{
    Step, optional_list, optional_whole, optional_word, required_value, required_whole,
    required_wholes,
};
use json_tree::{text, whole, word};
use serde_json::Value;
use std::alloc::Global;
use sys_table::CallTable;

const MAX_ARGS: usize = 6;

/// What a step may have besides its call.
#[derive(Clone, Copy)]
pub(crate) struct CallFields {
    pub(crate) args: [u64; 6],
    pub(crate) arch: u32,
    pub(crate) ip: u64,
    pub(crate) on_error: Option<u8>,
}

/// The number of the call in `call`, which is the name of a known call or a number.
#[tactic(auto, unfolding(crate::specs::Reading::call_of))]
pub(crate) fn call(calls: CallTable, tree: &Value) -> Result<u32, ScriptFaultAt>
    ensures { result ≡ call_of calls (view tree.now) }
{
    at("call", number(calls, required_value(tree, "call")?))
}

fn number(calls: CallTable, named: &Value) -> Result<u32, ScriptFault>
    ensures { result ≡ number_of calls (kind.text (view named.now)) (kind.word (view named.now)) }
{
    match text(named) {
        Some(name) => calls.number(name).ok_or(ScriptFault::UnknownCall),
        None => word(named).ok_or(ScriptFault::WrongType),
    }
}

#[tactic(auto, unfolding(crate::specs::Reading::call_fields_of))]
pub(crate) fn call_fields(tree: &Value) -> Result<CallFields, ScriptFaultAt>
    ensures { result ≡ call_fields_of (view tree.now) }
{
    let args = args(tree)?;
    let arch = arch(tree)?;
    let ip = ip(tree)?;
    let on_error = on_error(tree)?;
    Ok(CallFields {
        args,
        arch,
        ip,
        on_error,
    })
}

#[tactic(auto, unfolding(crate::specs::Reading::args_of))]
fn args(tree: &Value) -> Result<[u64; 6], ScriptFaultAt>
    ensures { result ≡ args_of (view tree.now) }
{
    let items = optional_list(tree, "args")?.unwrap_or(&[]);
    under(Step::Member("args"), six_arguments(items))
}

/// The given arguments, and 0 for the others.
#[tactic(auto, unfolding(crate::specs::Reading::six_of))]
fn six_arguments(items: &[Value]) -> Result<[u64; 6], ScriptFaultAt>
    ensures { result ≡ six_of (map view items.now) }
{
    if items.len() > MAX_ARGS {
        return Err(ScriptFaultAt::here(ScriptFault::WrongType));
    }
    Ok([
        argument(items, 0)?,
        argument(items, 1)?,
        argument(items, 2)?,
        argument(items, 3)?,
        argument(items, 4)?,
        argument(items, 5)?,
    ])
}

fn argument(items: &[Value], index: usize) -> Result<u64, ScriptFaultAt>
    ensures { result ≡ argument_of (map view items.now) index }
{
    match items.get(index) {
        Some(item) => whole(item).ok_or(ScriptFaultAt::of_item(index, ScriptFault::WrongType)),
        None => Ok(0),
    }
}

#[tactic(auto, unfolding(crate::specs::Reading::arch_of))]
fn arch(tree: &Value) -> Result<u32, ScriptFaultAt>
    ensures { result ≡ arch_of (view tree.now) }
{
    Ok(optional_word(tree, "arch")?.unwrap_or(NATIVE_ARCH))
}

#[tactic(auto, unfolding(crate::specs::Reading::ip_of))]
fn ip(tree: &Value) -> Result<u64, ScriptFaultAt>
    ensures { result ≡ ip_of (view tree.now) }
{
    Ok(optional_whole(tree, "ip")?.unwrap_or(0))
}

#[tactic(auto, unfolding(crate::specs::Reading::on_error_of))]
fn on_error(tree: &Value) -> Result<Option<u8>, ScriptFaultAt>
    ensures { result ≡ on_error_of (view tree.now) }
{
    at("onError", given_code(optional_whole(tree, "onError")?))
}

fn given_code(number: Option<u64>) -> Result<Option<u8>, ScriptFault>
    ensures { result ≡ if_there code_of number }
{
    match number {
        Some(number) => Ok(Some(code(number)?)),
        None => Ok(None),
    }
}

#[tactic(auto, unfolding(crate::specs::Reading::exit_of))]
pub(crate) fn exit(tree: &Value) -> Result<u8, ScriptFaultAt>
    ensures { result ≡ exit_of (view tree.now) }
{
    at("exit", code(required_whole(tree, "exit")?))
}

#[tactic(auto, unfolding(crate::specs::Reading::exit_by_attempt_of))]
pub(crate) fn exit_by_attempt(alloc: Global, tree: &Value) -> Result<Codes, ScriptFaultAt>
    ensures { Reads (λ codes. codes) result (exit_by_attempt_of (view tree.now)) }
{
    let numbers = required_wholes(alloc, tree, "exitByAttempt")?;
    codes_there(alloc, numbers.as_slice())
}

fn codes_there(alloc: Global, numbers: &[u64]) -> Result<Codes, ScriptFaultAt>
    ensures { Reads (λ codes. codes) result (under (Member (codes "exitByAttempt")) (codes_of numbers.now)) }
{
    under(Step::Member("exitByAttempt"), codes(alloc, numbers))
}

#[tactic(auto, unfolding(crate::specs::Reading::codes_of), using(crate::proofs::Attempts::as_many))]
fn codes(alloc: Global, numbers: &[u64]) -> Result<Codes, ScriptFaultAt>
    ensures value { Reads (λ codes. codes) result (codes_of numbers.now) }
    ensures none { length numbers.now ≡ 0 → result ≡ Err (fault_here ScriptFault.Missing) }
{
    if numbers.is_empty() {
        return Err(ScriptFaultAt::here(ScriptFault::Missing));
    }
    let codes = each_code(alloc, numbers)?;
    Ok(Codes::new(codes))
}

#[tactic(auto, using(crate::proofs::Attempts::codes_more, crate::proofs::Attempts::codes_stop))]
fn each_code(alloc: Global, numbers: &[u64]) -> Result<Vec<u8>, ScriptFaultAt>
    ensures { Reads (λ v. v.items) result (in_order_after code_at [] numbers.now) }
{
    let mut codes = Vec::new(alloc);
    for number in numbers {
        let code = in_item(codes.len(), code(*number))?;
        codes.push(code)?;
    }
    Ok(codes)
}

fn in_item(index: usize, code: Result<u8, ScriptFault>) -> Result<u8, ScriptFaultAt>
    ensures { result ≡ as_fault (fault_of_item index) code }
{
    code.map_err(|fault| ScriptFaultAt::of_item(index, fault))
}

#[tactic(auto, unfolding(crate::specs::Reading::code_of))]
fn code(number: u64) -> Result<u8, ScriptFault>
    ensures { result ≡ code_of number }
{
    u8::try_from(number).map_err(|_| ScriptFault::BadCode)
}
