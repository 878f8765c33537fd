ghost use Rattle.std.specs.Prelude.{◌≡◌, ◌<◌, ◌≤◌, IfSome, IfNone, length, take};
ghost use Rattle.cri_frames.specs.Frames.{IsBad, IsLength, head_of};

use byteorder::{BigEndian, ByteOrder};
use cri_msgs::{MAX_TEXT, Version};

/// A frame's head: the four bytes before its text.
#[derive(Clone, Copy)]
pub(crate) struct Head {
    pub(crate) version: Version,
    pub(crate) length: usize,
}

impl Head {
    /// The head in the first four bytes, if they are one.
    pub(crate) fn read(bytes: &[u8]) -> Option<Head>
        requires { 4 ≤ length bytes.now }
        ensures fit { IfSome result (λ head. IsLength head.length) }
        ensures head { IfSome result (λ head. take 4 bytes.now ≡ head_of head.version head.length) }
        ensures bad { IfNone result (IsBad bytes.now) }
    {
        let version = match bytes[0] {
            0 => Version::V1,
            2 => Version::V2,
            _ => return None,
        };
        let length = BigEndian::read_u24(&bytes[1..]) as usize;
        if length == 0 || length > MAX_TEXT {
            return None;
        }
        Some(Head { version, length })
    }

    /// The four bytes.
    pub(crate) fn to_bytes(self) -> [u8; 4]
        requires { IsLength self.length }
        ensures { result ≡ head_of self.version self.length }
    {
        let mut bytes = [0u8; 4];
        bytes[0] = match self.version {
            Version::V1 => 0,
            Version::V2 => 2,
        };
        BigEndian::write_u24(&mut bytes[1..], self.length as u32);
        bytes
    }
}
