//! Reports whether the runtime can be reached: once when it can't be, and once when it can be again.
ghost use Rattle.std.specs.Prelude.{◌≡◌};
ghost use Rattle.agent_parts.specs.Reach.{is_unreached, reach_of, report_of};

use crate::lost::{LostCall, Why};
use cri_msgs::Reply;

/// Whether the runtime can be reached.
#[derive(Clone, Copy, Debug)]
pub enum Reach {
    Reached,
    /// No connection to it could be made, for this reason.
    Unreached(Why),
    /// A call that was not begun, since the agent ends, shows nothing.
    NotTried,
}

/// What is reported.
#[derive(Clone, Copy, Debug)]
pub enum ReachReport {
    Nothing,
    /// The runtime can't be reached, for this reason.
    Lost(Why),
    /// It can be reached again.
    Again,
}

/// What the end of a call shows.
pub fn reach_of(came: &Result<Reply, LostCall>) -> Reach
    ensures { result ≡ reach_of came.now }
{
    match came {
        Ok(_) => Reach::Reached,
        Err(call) => match call.why {
            Some(Why::NotConnected(cause)) => Reach::Unreached(Why::NotConnected(cause)),
            Some(Why::QueueFull) => Reach::Unreached(Why::QueueFull),
            Some(Why::Ending) => Reach::NotTried,
            Some(Why::Failed(_)) | None => Reach::Reached,
        },
    }
}

/// Whether the runtime can't be reached, from what was known before a call and what the call shows.
pub fn is_unreached(before: bool, now: Reach) -> bool
    ensures { result ≡ is_unreached before now }
{
    match now {
        Reach::NotTried => before,
        Reach::Reached => false,
        Reach::Unreached(_) => true,
    }
}

/// What is reported after a call.
pub fn report_of(before: bool, now: Reach) -> ReachReport
    ensures { result ≡ report_of before now }
{
    match now {
        Reach::Unreached(why) if !before => ReachReport::Lost(why),
        Reach::Reached if before => ReachReport::Again,
        _ => ReachReport::Nothing,
    }
}
