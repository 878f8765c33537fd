//! Why a call was lost, in more detail than its fault.

use cri_frames::Lost;
use node_io::Cause;
use std::fmt;

/// A lost call, and why it was lost, if that is known.
#[derive(Clone, Copy, Debug)]
pub struct LostCall {
    pub lost: Lost,
    pub why: Option<Why>,
}

/// Why a call was lost.
#[derive(Clone, Copy, Debug)]
pub enum Why {
    /// The system refused the connection.
    NotConnected(Cause),
    /// The listener's queue had no free place in time.
    QueueFull,
    /// The agent is ending, and begins no call.
    Ending,
    /// The system failed a read or a write.
    Failed(Cause),
}

/// A few words of plain English.
impl fmt::Display for Why {
    ghost use Rattle.std.specs.Prelude.{Some};
    ghost use Rattle.agent_parts.specs.LostText.{why_text};

    ghost output = { λ why. Some (why_text why) };

    fn fmt<W: fmt::Write>(&self, f: &mut fmt::Formatter<W>) -> fmt::Result {
        match self {
            Why::NotConnected(cause) => write!(f, "not connected: {cause}"),
            Why::QueueFull => f.write_str("not connected: its queue is full"),
            Why::Ending => f.write_str("not connected: the agent ends"),
            Why::Failed(cause) => write!(f, "{cause}"),
        }
    }
}

/// The fault's name, and then the cause.
impl fmt::Display for LostCall {
    ghost use Rattle.std.specs.Prelude.{Some};
    ghost use Rattle.agent_parts.specs.LostText.{lost_call_text};

    ghost output = { λ lost. Some (lost_call_text lost) };

    fn fmt<W: fmt::Write>(&self, f: &mut fmt::Formatter<W>) -> fmt::Result {
        let lost = self.lost;
        match self.why {
            Some(why) => write!(f, "{lost}: {why}"),
            None => write!(f, "{lost}"),
        }
    }
}

impl LostCall {
    /// A call that was not begun.
    pub fn before(why: Why) -> LostCall {
        LostCall {
            lost: Lost::WriteFailed(0),
            why: Some(why),
        }
    }

    /// A call that was lost after its connection, with the wire's cause. Only a read or a write that failed
    /// has a cause.
    pub fn on_the_way(lost: Lost, cause: Option<Cause>) -> LostCall {
        let why = match lost {
            Lost::WriteFailed(_) | Lost::ReadFailed => cause.map(Why::Failed),
            Lost::Ended | Lost::BadFrame | Lost::WrongNumber | Lost::Memory => None,
        };
        LostCall { lost, why }
    }
}
