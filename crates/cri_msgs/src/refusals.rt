ghost use Rattle.std.specs.Prelude.{◌≡◌};
ghost use Rattle.cri_msgs.specs.Names.{refusal_number};

/// Why a call is refused. Each but the last is a status code of gRPC, with its number.
#[derive(Clone, Copy, Debug, PartialEq, Eq)]
pub enum Refusal {
    InvalidArgument,
    NotFound,
    AlreadyExists,
    ResourceExhausted,
    FailedPrecondition,
    /// A file could not be read.
    Internal,
    /// An allocation failed. This project's own code.
    Memory,
}

impl Refusal {
    /// The number in the text of a message.
    pub fn number(self) -> u64
        ensures { result ≡ refusal_number self }
    {
        match self {
            Refusal::InvalidArgument => 3,
            Refusal::NotFound => 5,
            Refusal::AlreadyExists => 6,
            Refusal::ResourceExhausted => 8,
            Refusal::FailedPrecondition => 9,
            Refusal::Internal => 13,
            Refusal::Memory => 14,
        }
    }
}
