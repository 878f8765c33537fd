ghost use Rattle.serde_json.specs.View.{view};
ghost use Rattle.json_tree.specs.Reading.{Gives, document};

use crate::faults::TextFault;
use serde_json::Value;
use std::alloc::Global;

/// The tree of a text (RFC 8259). If a key occurs twice in an object, the last value is kept. `NotJson` if
/// the text is not JSON in UTF-8, has a number beyond a 64-bit float, or nests arrays and objects deeper than
/// 127; `Memory` if an allocation fails.
#[tactic(auto, unfolding(crate::specs::Reading::document), using(crate::proofs::Utf8::told))]
pub fn read(alloc: Global, bytes: &[u8]) -> Result<Value, TextFault>
    ensures { Gives TextFault.Memory view result (document bytes.now) }
{
    match Value::from_slice(alloc, bytes) {
        Ok(tree) => Ok(tree),
        Err(error) if error.is_memory() => Err(TextFault::Memory),
        Err(_) => Err(TextFault::NotJson),
    }
}
