ghost use Rattle.std.specs.Prelude.{◌↔◌, IfOk, IsTrue};
ghost use Rattle.wrong_files.specs.Hints.{Suits};

use crate::documents::are_documents;
use crate::filters::{is_base64, is_filter};
use crate::hint::Hint;
use crate::starts::begins_with_mark;
use crate::trees::{is_config, is_manifest, is_profile, is_script};
use fault_notes::begins_object;
use std::alloc::{AllocError, Global};

/// Whether the bytes are what the hint names.
pub(crate) fn suits(alloc: Global, bytes: &[u8], hint: Hint) -> Result<bool, AllocError>
    ensures { IfOk result (λ suits. IsTrue suits ↔ Suits bytes.now hint) }
{
    match hint {
        Hint::ByteOrderMark => Ok(begins_with_mark(bytes)),
        Hint::Filter => is_filter(alloc, bytes),
        Hint::Config => is_config(alloc, bytes),
        Hint::Documents => are_documents(alloc, bytes),
        Hint::Manifest => is_manifest(alloc, bytes),
        Hint::Profile => is_profile(alloc, bytes),
        Hint::Script => is_script(alloc, bytes),
        Hint::Uncompiled => Ok(begins_object(bytes)),
        Hint::Base64 => is_base64(alloc, bytes),
    }
}
