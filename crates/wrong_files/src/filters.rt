ghost use Rattle.std.specs.Prelude.{◌≡◌, ◌↔◌, IfOk, IsTrue};
ghost use Rattle.wrong_files.specs.Hints.{IsBase64, IsFilter};
ghost use Rattle.wrong_files.specs.Texts.{without_space};

use base64::DecodeAllocError;
use base64::engine::general_purpose::STANDARD;
use bpf_code::CodeFault;
use bpf_verify::{Refusal, filter_of};
use fault_notes::is_space;
use std::alloc::{AllocError, Global};

/// Whether the bytes are a filter that the verifier accepts.
pub(crate) fn is_filter(alloc: Global, bytes: &[u8]) -> Result<bool, AllocError>
    ensures { IfOk result (λ is. IsTrue is ↔ IsFilter bytes.now) }
{
    match filter_of(alloc, bytes) {
        Ok(_) => Ok(true),
        Err(Refusal::Code(CodeFault::Memory)) => Err(AllocError),
        Err(_) => Ok(false),
    }
}

/// Whether the bytes are the Base64 of a filter, in one line or in several.
pub(crate) fn is_base64(alloc: Global, bytes: &[u8]) -> Result<bool, AllocError>
    ensures { IfOk result (λ is. IsTrue is ↔ IsBase64 bytes.now) }
{
    let text = without_space(alloc, bytes)?;
    match STANDARD.decode(alloc, text.as_slice()) {
        Ok(code) => is_filter(alloc, code.as_slice()),
        Err(DecodeAllocError::OutOfMemory) => Err(AllocError),
        Err(DecodeAllocError::DecodeError(_)) => Ok(false),
    }
}

fn without_space(alloc: Global, bytes: &[u8]) -> Result<Vec<u8>, AllocError>
    ensures { IfOk result (λ text. text.items ≡ without_space bytes.now) }
{
    let mut text = Vec::from_slice(alloc, bytes)?;
    text.retain(|byte| !is_space(*byte));
    Ok(text)
}
