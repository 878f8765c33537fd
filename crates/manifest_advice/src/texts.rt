//! The advice on a manifest as texts.
ghost use Rattle.std.specs.Prelude.{◌≡◌, IfOk, map, option_map, string_bytes};
ghost use Rattle.serde_json.specs.View.{view};
ghost use Rattle.json_tree.specs.Tree.{tree_of};
ghost use Rattle.manifest_advice.specs.Advice.{told};
ghost use Rattle.manifest_advice.specs.Words.{advice_text, advice_texts};

use crate::advice::Advice;
use crate::walk::advice_in;
use json_tree::TextFault;
use serde_json::Value;
use std::alloc::{AllocError, Global};

/// The advice on these bytes of a manifest, each as a text without a line end. There is none on what is not
/// JSON.
pub fn advice_texts(alloc: Global, bytes: &[u8]) -> Result<Vec<String>, AllocError>
    ensures { IfOk result (λ v. map string_bytes v.items ≡ advice_texts bytes.now) }
{
    match tree_in(alloc, bytes)? {
        Some(tree) => texts(alloc, advice_in(alloc, &tree)?.as_slice()),
        None => Ok(Vec::new(alloc)),
    }
}

/// The tree of a text, if it is JSON.
fn tree_in(alloc: Global, bytes: &[u8]) -> Result<Option<Value>, AllocError>
    ensures { IfOk result (λ tree. option_map view tree ≡ tree_of bytes.now) }
{
    match json_tree::read(alloc, bytes) {
        Ok(tree) => Ok(Some(tree)),
        Err(TextFault::NotJson) => Ok(None),
        Err(TextFault::Memory) => Err(AllocError),
    }
}

fn texts(alloc: Global, found: &[Advice<'_>]) -> Result<Vec<String>, AllocError>
    ensures { IfOk result (λ v. map string_bytes v.items ≡ map advice_text (map told found.now)) }
{
    let mut texts = Vec::new(alloc);
    for advice in found {
        texts.push(format!(in alloc; "{advice}")?)?;
    }
    Ok(texts)
}
