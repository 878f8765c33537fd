//! The log of an agent, if it is on: what it works on, and for each call the moment at which it was claimed,
//! the pod, the request, and the result.
ghost use Rattle.std.specs.Prelude.{◌≡◌, IfOk, string_bytes};
ghost use Rattle.agent_parts.specs.CommandLine.{working_text};

use crate::lost::LostCall;
use cri_msgs::{Reply, Request};
use runtime_server::{answered, asked};
use std::alloc::{AllocError, Global};

/// The first log line of an agent.
pub fn working_line(alloc: Global, socket: &str, pods: usize) -> Result<String, AllocError>
    ensures { IfOk result (λ line. string_bytes line ≡ working_text socket.now pods) }
{
    format!(in alloc; "works over {socket}, pods: {pods}")
}

fn outcome(alloc: Global, outcome: &Result<Reply, LostCall>) -> Result<String, AllocError> {
    match outcome {
        Ok(reply) => answered(alloc, reply),
        Err(lost) => format!(in alloc; "{lost}"),
    }
}

/// The log line of an agent's call at a moment, with its result.
pub fn call_line(
    alloc: Global,
    moment: u64,
    request: &Request,
    came: &Result<Reply, LostCall>,
) -> Result<String, AllocError> {
    let asked = asked(alloc, request)?;
    let came = outcome(alloc, came)?;
    format!(in alloc; "moment {moment} s {} {}", asked.as_str(), came.as_str())
}
