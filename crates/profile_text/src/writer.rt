ghost use Rattle.std.specs.Prelude.{◌≡◌, ◌≢◌, ◌↔◌, ◌<◌, IfErr, IfOk, Err, false, length, nat_lt};
ghost use Rattle.std.specs.Prelude.{string_bytes};
ghost use Rattle.oci_profile.specs.declared.reader.TheConstants.{MAX_PROFILE_BYTES};
ghost use Rattle.oci_profile.specs.Profile.{ReadsProfileWith};
ghost use Rattle.profile_text.specs.Writable.{is_writable};
ghost use Rattle.profile_text.specs.Written.{profile_text};
ghost use Rattle.profile_text.specs.declared.faults.WriteFault.{WriteFault};

use crate::faults::WriteFault;
use crate::trees::profile_tree;
use crate::writable::is_writable;
use oci_profile::{MAX_PROFILE_BYTES, Profile};
use std::alloc::Global;
use sys_table::{CallTable, names_and_numbers_agree};

/// The text of a profile, which names these calls: compact JSON, keys in the order of their bytes, each errno
/// written out.
pub fn write(alloc: Global, calls: CallTable, profile: &Profile) -> Result<String, WriteFault>
    // It reads as the profile.
    ensures reads { IfOk result (λ text. ReadsProfileWith calls (string_bytes text) profile.now) }
    ensures text { IfOk result (λ text. string_bytes text ≡ profile_text calls profile.now) }

    // A profile that can't be written is refused before anything is allocated, and no other is.
    ensures no_name { (result ≡ Err WriteFault.NoName) ↔ (is_writable calls profile.now ≡ false) }
    ensures large { result ≡ Err WriteFault.TooLarge → MAX_PROFILE_BYTES < length (profile_text calls profile.now) }
{
    if !is_writable(calls, profile) {
        return Err(WriteFault::NoName);
    }
    names_and_numbers_agree();
    let tree = profile_tree(alloc, calls, profile)?;
    let text = tree.to_string(alloc)?;
    if is_too_large(text.as_str()) {
        return Err(WriteFault::TooLarge);
    }
    Ok(text)
}

pub(crate) fn is_too_large(text: &str) -> bool
    ensures { result ≡ nat_lt MAX_PROFILE_BYTES (length text.now) }
{
    text.len() > MAX_PROFILE_BYTES
}
