ghost use Rattle.std.specs.Prelude.{◌≡◌, ◌<◌, IfOk, IfSome, length};
ghost use Rattle.wrong_files.specs.Documents as documents;

use crate::starts::begins_document;
use crate::trees::tree_in;
use std::alloc::{AllocError, Global};

/// Whether the bytes begin with a document of JSON and go on with another one.
pub(crate) fn are_documents(alloc: Global, bytes: &[u8]) -> Result<bool, AllocError>
    ensures { IfOk result (λ are. are ≡ documents.are_documents bytes.now) }
{
    match first_seam(bytes) {
        Some(at) => Ok(tree_in(alloc, &bytes[..=at])?.is_some()),
        None => Ok(false),
    }
}

/// The first place of a bracket that closes, and that one that opens comes next after.
fn first_seam(bytes: &[u8]) -> Option<usize>
    ensures first { result ≡ documents.first_seam bytes.now }
    ensures inside { IfSome result (λ at. at < length bytes.now) }
{
    (0..bytes.len()).find(|at| is_seam(bytes, *at))
}

fn is_seam(bytes: &[u8], at: usize) -> bool
    ensures { result ≡ documents.is_seam bytes.now at }
{
    match bytes.get(at..) {
        Some(rest) => begins_with_seam(rest),
        None => false,
    }
}

/// Whether the first byte closes an object or a list, and the next one that is not white space opens one.
fn begins_with_seam(bytes: &[u8]) -> bool
    ensures { result ≡ documents.begins_with_seam bytes.now }
{
    match bytes {
        [b'}' | b']', rest @ ..] => begins_document(rest),
        _ => false,
    }
}
