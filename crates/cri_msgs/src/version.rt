ghost use Rattle.std.specs.Prelude.{◌≡◌};
ghost use Rattle.cri_msgs.specs.Names.{version_number};

/// The greatest length of a frame's text in bytes.
pub const MAX_TEXT: usize = 1_048_576;

/// The version of a frame and of the text in it. Version 2 has the call ContainerStatuses, version 1 does
/// not.
#[derive(Clone, Copy, Debug, PartialEq, Eq)]
pub enum Version {
    V1,
    V2,
}

impl Version {
    /// The number in the text of a message.
    pub fn number(self) -> u64
        ensures { result ≡ version_number self }
    {
        match self {
            Version::V1 => 1,
            Version::V2 => 2,
        }
    }
}
