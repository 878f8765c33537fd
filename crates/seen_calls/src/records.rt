ghost use Rattle.std.specs.Prelude.{◌≡◌, [], map};
ghost use Rattle.serde_json.specs.View.{view};
ghost use Rattle.json_tree.specs.Reading.{Gives, in_order_after};
ghost use Rattle.seen_calls.specs.declared.faults.LineFault.{LineFault};
ghost use Rattle.seen_calls.specs.Records.{call_of, line_of};

use crate::faults::LineFault;
use call_data::NATIVE_ARCH;
use json_tree::{optional_word, required_list, required_word};
use serde_json::Value;
use std::alloc::Global;

/// A call in the list of a record.
#[derive(Clone, Copy, Debug, PartialEq, Eq)]
pub struct ListedCall {
    /// The number of the call in the table of its architecture.
    pub nr: u32,
    /// The architecture, an `AUDIT_ARCH_` value of `linux/audit.h`.
    pub arch: u32,
}

/// The calls of a line that is the record of a container (see `cell_records`), performed or denied. Members
/// that no record has are ignored.
pub fn record_calls(alloc: Global, line: &[u8]) -> Result<Vec<ListedCall>, LineFault>
    ensures { Gives LineFault.Memory (λ v. v.items) result (line_of line.now) }
{
    let tree = json_tree::read(alloc, line)?;
    calls_of(alloc, required_list(&tree, "calls")?)
}

#[tactic(auto, using(json_tree::proofs::After::after_more, json_tree::proofs::After::after_stops))]
fn calls_of(alloc: Global, items: &[Value]) -> Result<Vec<ListedCall>, LineFault>
    ensures { Gives LineFault.Memory (λ v. v.items) result
        (in_order_after (λ done item. call_of item) [] (map view items.now)) }
{
    let mut calls = Vec::new(alloc);
    for item in items {
        calls.push(call_of(item)?)?;
    }
    Ok(calls)
}

#[tactic(auto, unfolding(crate::specs::Records::call_of))]
fn call_of(tree: &Value) -> Result<ListedCall, LineFault>
    ensures { result ≡ call_of (view tree.now) }
{
    let nr = required_word(tree, "nr")?;
    let arch = optional_word(tree, "arch")?.unwrap_or(NATIVE_ARCH);
    Ok(ListedCall { nr, arch })
}
