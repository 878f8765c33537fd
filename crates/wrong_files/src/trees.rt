ghost use Rattle.std.specs.Prelude.{◌≡◌, IfOk, option_map};
ghost use Rattle.serde_json.specs.View.{view};
ghost use Rattle.json_tree.specs.Tree.{tree_of};
ghost use Rattle.wrong_files.specs.Trees as tree;

use json_tree::{TextFault, has};
use serde_json::Value;
use std::alloc::{AllocError, Global};

/// Whether the text is an object with the member that a container's `config.json` has to have.
pub(crate) fn is_config(alloc: Global, bytes: &[u8]) -> Result<bool, AllocError>
    ensures { IfOk result (λ is. is ≡ tree.is_config bytes.now) }
{
    match tree_in(alloc, bytes)? {
        Some(tree) => Ok(has(&tree, "ociVersion")),
        None => Ok(false),
    }
}

/// Whether the text is an object with the two members that each object of Kubernetes has.
pub(crate) fn is_manifest(alloc: Global, bytes: &[u8]) -> Result<bool, AllocError>
    ensures { IfOk result (λ is. is ≡ tree.is_manifest bytes.now) }
{
    match tree_in(alloc, bytes)? {
        Some(tree) => Ok(has(&tree, "apiVersion") && has(&tree, "kind")),
        None => Ok(false),
    }
}

/// Whether the text is an object with the member that a profile has to have.
pub(crate) fn is_profile(alloc: Global, bytes: &[u8]) -> Result<bool, AllocError>
    ensures { IfOk result (λ is. is ≡ tree.is_profile bytes.now) }
{
    match tree_in(alloc, bytes)? {
        Some(tree) => Ok(has(&tree, "defaultAction")),
        None => Ok(false),
    }
}

/// Whether the text is an object with the member that a script has to have.
pub(crate) fn is_script(alloc: Global, bytes: &[u8]) -> Result<bool, AllocError>
    ensures { IfOk result (λ is. is ≡ tree.is_script bytes.now) }
{
    match tree_in(alloc, bytes)? {
        Some(tree) => Ok(has(&tree, "steps")),
        None => Ok(false),
    }
}

/// The tree of a text, if it is JSON.
pub(crate) fn tree_in(alloc: Global, bytes: &[u8]) -> Result<Option<Value>, AllocError>
    ensures { IfOk result (λ tree. option_map view tree ≡ tree_of bytes.now) }
{
    match json_tree::read(alloc, bytes) {
        Ok(tree) => Ok(Some(tree)),
        Err(TextFault::NotJson) => Ok(None),
        Err(TextFault::Memory) => Err(AllocError),
    }
}
