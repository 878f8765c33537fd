ghost use Rattle.std.specs.Prelude.{◌≡◌, [], map};
ghost use Rattle.serde_json.specs.View.{view};
ghost use Rattle.json_tree.specs.Reading.{in_order_after};
ghost use Rattle.oci_profile.specs.Reading.{Reads, cond_at, cond_of, conds_of, index_of, is_tested, op_named};
ghost use Rattle.oci_profile.specs.Reading.{op_of};

use crate::conditions::{Cond, Conds, Op};
use crate::faults::ProfileFault;
use crate::placed::{ProfileFaultAt, at, under};
use json_place::{Step, optional_list, optional_whole, required_text, required_whole};
use json_tree::object;
use serde_json::Value;
use std::alloc::Global;

/// The conditions of an entry, its `args`.
#[tactic(auto, unfolding(crate::specs::Reading::conds_of))]
pub fn conds(alloc: Global, tree: &Value) -> Result<Conds, ProfileFaultAt>
    ensures { Reads (λ c. c) result (conds_of (view tree.now)) }
{
    match optional_list(tree, "args")? {
        Some(items) => under(Step::Member("args"), each_cond(alloc, items)),
        None => Ok(Conds::new(Vec::new(alloc))),
    }
}

#[tactic(auto, using(json_tree::proofs::After::after_more, json_tree::proofs::After::after_stops))]
fn each_cond(alloc: Global, items: &[Value]) -> Result<Conds, ProfileFaultAt>
    ensures { Reads (λ c. c) result (in_order_after cond_at [] (map view items.now)) }
{
    let mut conds = Vec::new(alloc);
    for item in items {
        let index = conds.len();
        let cond = under(Step::Item(index), cond(conds.as_slice(), item))?;
        conds.push(cond)?;
    }
    Ok(Conds::new(conds))
}

#[tactic(auto, unfolding(crate::specs::Reading::cond_of))]
fn cond(done: &[Cond], item: &Value) -> Result<Cond, ProfileFaultAt>
    ensures { result ≡ cond_of done.now (view item.now) }
{
    let tree = object(item).ok_or(ProfileFaultAt::here(ProfileFault::WrongType))?;
    let index = index(done, tree)?;
    let value = required_whole(tree, "value")?;
    let value_two = optional_whole(tree, "valueTwo")?.unwrap_or(0);
    let op = op(tree)?;
    Ok(Cond {
        index,
        op,
        value,
        value_two,
    })
}

#[tactic(auto, unfolding(crate::specs::Reading::index_of))]
fn index(done: &[Cond], tree: &Value) -> Result<u8, ProfileFaultAt>
    ensures { result ≡ index_of done.now (view tree.now) }
{
    let index = required_whole(tree, "index")?;
    if index >= 6 {
        return Err(ProfileFaultAt::at("index", ProfileFault::BadIndex));
    }
    let index = index as u8;
    if is_tested(done, index) {
        return Err(ProfileFaultAt::at("index", ProfileFault::RepeatedIndex));
    }
    Ok(index)
}

#[tactic(auto, unfolding(crate::specs::Reading::is_tested))]
fn is_tested(done: &[Cond], index: u8) -> bool
    ensures { result ≡ is_tested done.now index }
{
    done.iter().any(|cond| cond.index == index)
}

#[tactic(auto, unfolding(crate::specs::Reading::op_of))]
fn op(tree: &Value) -> Result<Op, ProfileFaultAt>
    ensures { result ≡ op_of (view tree.now) }
{
    let name = required_text(tree, "op")?;
    at("op", named_op(name))
}

#[tactic(auto, unfolding(crate::specs::Reading::op_named))]
fn named_op(name: &str) -> Result<Op, ProfileFault>
    ensures { result ≡ op_named name.now }
{
    match name {
        "SCMP_CMP_NE" => Ok(Op::NotEqual),
        "SCMP_CMP_LT" => Ok(Op::Less),
        "SCMP_CMP_LE" => Ok(Op::LessOrEqual),
        "SCMP_CMP_EQ" => Ok(Op::Equal),
        "SCMP_CMP_GE" => Ok(Op::GreaterOrEqual),
        "SCMP_CMP_GT" => Ok(Op::Greater),
        "SCMP_CMP_MASKED_EQ" => Ok(Op::MaskedEqual),
        _ => Err(ProfileFault::UnknownOp),
    }
}
