ghost use Rattle.std.specs.Prelude.{◌≡◌, IfOk, length};
ghost use Rattle.cri_frames.specs.Frames.{IsLength, frame_of};

use crate::heads::Head;
use cri_msgs::Version;
use std::alloc::{AllocError, Global};

/// The frame of this version with this text: four bytes, and the text.
pub fn frame_of(alloc: Global, version: Version, text: &[u8]) -> Result<Vec<u8>, AllocError>
    requires { IsLength (length text.now) }
    ensures { IfOk result (λ frame. frame.items ≡ frame_of version text.now) }
{
    let head = Head {
        version,
        length: text.len(),
    };
    let mut frame = Vec::with_capacity(alloc, 4 + text.len())?;
    frame.extend_from_slice(&head.to_bytes())?;
    frame.extend_from_slice(text)?;
    Ok(frame)
}
