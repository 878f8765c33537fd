//! What the bytes begin with.
ghost use Rattle.std.specs.Prelude.{◌≡◌};
ghost use Rattle.wrong_files.specs.Texts.{begins_document, begins_with_mark};

use fault_notes::{begins_list, begins_object};

/// Whether the bytes begin with the byte order mark of UTF-8 (RFC 3629, section 6).
pub(crate) fn begins_with_mark(bytes: &[u8]) -> bool
    ensures { result ≡ begins_with_mark bytes.now }
{
    matches!(bytes, [0xef, 0xbb, 0xbf, ..])
}

/// Whether the first byte that is not white space begins an object or a list.
pub(crate) fn begins_document(bytes: &[u8]) -> bool
    ensures { result ≡ begins_document bytes.now }
{
    begins_object(bytes) || begins_list(bytes)
}
