ghost use Rattle.std.specs.Prelude.{◌≡◌, ◌≢◌, List, Some, IfOk, IfErr, IfSome, IfNone, is_some, map, not};
ghost use Rattle.std.specs.Prelude.{position};
ghost use Rattle.serde_json.specs.View.{view};
ghost use Rattle.bpf_code.specs.declared.insn.Insn.{Insn};
ghost use Rattle.json_tree.specs.Tree.{each};
ghost use Rattle.json_tree.specs.Reading.{Both, as_read};
ghost use Rattle.script.specs.declared.faults.ScriptFault.{ScriptFault};
ghost use Rattle.script.specs.declared.install.Row.{Row};
ghost use Rattle.script.specs.Script.{IsSpelled, SpellsFilter, row};
ghost use Rattle.script.specs.Reading.{LendsRows, no_row, number_at, numbers_of, rows_of};

use crate::faults::ScriptFault;
use crate::placed::ScriptFaultAt;
use bpf_code::{Insn, codes_are_small, numbers_fit, written_is_read};
use bpf_verify::{Filter, verify};
use json_place::{Step, required_list};
use json_tree::{list, whole};
use serde_json::Value;
use std::alloc::Global;

/// The four numbers of an instruction, as written in a text.
#[derive(Clone, Copy)]
pub(crate) struct Row {
    pub(crate) code: u64,
    pub(crate) jt: u64,
    pub(crate) jf: u64,
    pub(crate) k: u64,
}

/// The rows of `install`, not read yet. All are checked before an instruction is made of one.
#[tactic(auto, unfolding(crate::specs::Reading::rows_of), using(crate::proofs::Rows::some_of))]
pub(crate) fn rows(tree: &Value) -> Result<&[Value], ScriptFaultAt>
    ensures { LendsRows (as_read (λ items. items.now) result) (rows_of (view tree.now)) }
{
    let items = required_list(tree, "install")?;
    if are_rows(items) {
        Ok(items)
    } else {
        Err(no_row(items).within(Step::Member("install")))
    }
}

/// The first item that is not a row.
#[tactic(auto, using(json_place::proofs::Odd::position_of_views))]
fn no_row(items: &[Value]) -> ScriptFaultAt
    ensures { result ≡ no_row (map view items.now) }
{
    match first_no_row(items) {
        Some(index) => ScriptFaultAt::of_item(index, ScriptFault::WrongType),
        None => ScriptFaultAt::here(ScriptFault::WrongType),
    }
}

fn first_no_row(items: &[Value]) -> Option<usize>
    ensures { result ≡ position (λ item. not (is_some (row (view item)))) items.now }
{
    items.iter().position(|item| row_of(item).is_none())
}

#[tactic(auto, using(json_tree::proofs::Items::each_goes_on, json_tree::proofs::Items::each_fails))]
fn are_rows(items: &[Value]) -> bool
    ensures { result ≡ is_some (each row (map view items.now)) }
{
    for item in items {
        let Some(_) = row_of(item) else {
            return false;
        };
    }
    true
}

/// The four numbers of a row.
fn row_of(item: &Value) -> Option<Row>
    ensures { result ≡ row (view item.now) }
{
    match list(item) {
        Some(numbers) => four(numbers),
        None => None,
    }
}

#[tactic(auto, unfolding(crate::specs::Reading::numbers_of))]
fn four(items: &[Value]) -> Option<Row>
    ensures { result ≡ numbers_of (map view items.now) }
{
    if items.len() != 4 {
        return None;
    }
    Some(Row {
        code: number(items, 0)?,
        jt: number(items, 1)?,
        jf: number(items, 2)?,
        k: number(items, 3)?,
    })
}

fn number(items: &[Value], place: usize) -> Option<u64>
    ensures { result ≡ number_at (map view items.now) place }
{
    whole(items.get(place)?)
}

/// The filter with these rows, if there is one: each an instruction, and sound together.
pub(crate) fn filter(alloc: Global, items: &[Value]) -> Result<Filter, ScriptFault>
    ensures found { IfOk result (λ filter. (rows : List Row) → each row (map view items.now) ≡ Some rows
        → SpellsFilter rows filter) }
    ensures bad { IfErr result (λ fault. fault ≢ ScriptFault.Memory → fault ≡ ScriptFault.BadFilter) }
    ensures none { IfErr result (λ fault. fault ≢ ScriptFault.Memory → (rows : List Row) (filter : List Insn)
        → each row (map view items.now) ≡ Some rows → ¬ SpellsFilter rows filter) }
{
    written_is_read();
    let insns = insns(alloc, items)?;
    match verify(insns) {
        Ok(filter) => Ok(filter),
        Err(_) => Err(ScriptFault::BadFilter),
    }
}

#[tactic(auto, using(crate::proofs::Rows::rows_more, crate::proofs::Rows::rows_stop))]
fn insns(alloc: Global, items: &[Value]) -> Result<Vec<Insn>, ScriptFault>
    ensures found { IfOk result (λ insns. (rows : List Row) → each row (map view items.now) ≡ Some rows
        → Both IsSpelled rows insns.items) }
    ensures bad { IfErr result (λ fault. fault ≢ ScriptFault.Memory → fault ≡ ScriptFault.BadFilter) }
    ensures none { IfErr result (λ fault. fault ≢ ScriptFault.Memory → (rows : List Row) (code : List Insn)
        → each row (map view items.now) ≡ Some rows → ¬ Both IsSpelled rows code) }
{
    let mut insns = Vec::new(alloc);
    for item in items {
        let Some(insn) = insn(item) else {
            return Err(ScriptFault::BadFilter);
        };
        insns.push(insn)?;
    }
    Ok(insns)
}

/// The instruction of a row, if there is one.
fn insn(item: &Value) -> Option<Insn>
    ensures found { IfSome result (λ insn. (is : Row) × (row (view item.now) ≡ Some is) × IsSpelled is insn) }
    ensures none { IfNone result ((is : Row) (insn : Insn) → row (view item.now) ≡ Some is
        → ¬ IsSpelled is insn) }
{
    instruction(row_of(item)?)
}

fn instruction(row: Row) -> Option<Insn>
    ensures found { IfSome result (IsSpelled row) }
    ensures none { IfNone result ((insn : Insn) → ¬ IsSpelled row insn) }
{
    codes_are_small();
    let code = u16::try_from(row.code).ok()?;
    let jt = u8::try_from(row.jt).ok()?;
    let jf = u8::try_from(row.jf).ok()?;
    let k = u32::try_from(row.k).ok()?;
    let insn = Insn::new(code, jt, jf, k)?;
    numbers_fit(insn);
    Some(insn)
}
