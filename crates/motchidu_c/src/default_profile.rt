ghost use Rattle.std.specs.Prelude.{◌≡◌, ◌≢◌, ℕ, List};
ghost use Rattle.oci_profile.specs.Profile.{ReadsProfile};
ghost use Rattle.oci_profile.specs.RuntimeDefault.{runtime_default};
ghost use Rattle.motchidu_c.specs.declared.status.Status.TheVariants.{Memory};
ghost use Rattle.motchidu_c.specs.Room.{IsGiven};
ghost use Rattle.motchidu_c.specs.Status.{number_of};

use crate::room::give;
use crate::status::Status;
use profile_text::default_text;
use std::alloc::Global;

/// The text of RuntimeDefault.
#[unsafe(no_mangle)]
pub extern "C" fn motchidu_default(alloc: Global, text: &mut [u8], len: &mut usize) -> u32
    // A text that reads as RuntimeDefault, if there is room for it.
    ensures written { result ≢ number_of Memory → (bytes : List ℕ) × ReadsProfile bytes runtime_default
        × IsGiven bytes text.old text.new len.new result }

    // Nothing is written if memory runs out.
    ensures kept { result ≡ number_of Memory → text.new ≡ text.old }
    ensures len_kept { result ≡ number_of Memory → len.new ≡ len.old }
{
    match default_text(alloc) {
        Ok(found) => give(found.as_bytes(), text, len).number(),
        Err(_) => Status::Memory.number(),
    }
}
