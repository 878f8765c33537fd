//! The names of the refusals of a call, as they are shown to a person.
ghost use Rattle.std.specs.Prelude.{◌≡◌};
ghost use Rattle.fault_notes.specs.Refusals.{refusal_text};

use cri_msgs::Refusal;

/// The name of a refusal.
pub fn refusal_name(refusal: Refusal) -> &'static str
    ensures { result.now ≡ refusal_text refusal }
{
    match refusal {
        Refusal::InvalidArgument => "InvalidArgument",
        Refusal::NotFound => "NotFound",
        Refusal::AlreadyExists => "AlreadyExists",
        Refusal::ResourceExhausted => "ResourceExhausted",
        Refusal::FailedPrecondition => "FailedPrecondition",
        Refusal::Internal => "Internal",
        Refusal::Memory => "Memory",
    }
}
