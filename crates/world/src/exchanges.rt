ghost use Rattle.std.specs.Prelude.{◌≡◌, ◌<◌, ◌++◌, ◌∷◌, [], Some, IfOk, IfErr, slice_get, vec_len};
ghost use Rattle.std.specs.Prelude.{vec_capacity, option_copied};
ghost use Rattle.world.specs.Kept.{LacksReply, LacksRequest, WasGiven};
ghost use Rattle.world.specs.World.{sent_by};

use crate::faults::WorldFault;
use cri_msgs::{Reply, Request};
use std::alloc::Global;
use worker_core::Answer;

/// A request that was sent, and a reply that was given to it.
#[derive(Debug, Drop)]
pub struct Exchange {
    pub request: Request,
    pub reply: Reply,
}

// A copy of the request at this place of the bag.
pub(crate) fn request_at(
    alloc: Global,
    sent: &[Request],
    which: usize,
) -> Result<Request, WorldFault>
    ensures ok { IfOk result (λ request. slice_get sent.now which ≡ Some request) }
    ensures err { IfErr result (λ fault. LacksRequest sent.now which fault) }
{
    match sent.get(which) {
        Some(request) => Ok(request.try_clone(alloc)?),
        None => Err(WorldFault::NoSuchRequest),
    }
}

fn exchange_at(given: &[Exchange], which: usize) -> Option<&Exchange>
    ensures { option_copied result ≡ slice_get given.now which }
{
    given.get(which)
}

// A copy of the reply at this place of the bag, if it was given to this request.
pub(crate) fn reply_at(
    alloc: Global,
    given: &[Exchange],
    which: usize,
    claim: Option<&Request>,
) -> Result<Reply, WorldFault>
    ensures ok { IfOk result (λ reply. WasGiven given.now which (option_copied claim.entry) reply) }
    ensures err { IfErr result (λ fault. LacksReply given.now which (option_copied claim.entry) fault) }
{
    let Some(exchange) = exchange_at(given, which) else {
        return Err(WorldFault::NoSuchReply);
    };
    let Some(claim) = claim else {
        return Err(WorldFault::NoSuchReply);
    };
    if exchange.request.same(claim) {
        match exchange.reply.try_clone(alloc) {
            Ok(reply) => Ok(reply),
            Err(_) => Err(WorldFault::Memory),
        }
    } else {
        Err(WorldFault::NoSuchReply)
    }
}

// Sends a request that a worker is given.
pub(crate) fn keep_sent(sent: &mut Vec<Request>, answer: Answer)
    requires { vec_len sent.old < vec_capacity sent.old }
    ensures { sent.new.items ≡ sent.old.items ++ sent_by answer }
{
    if let Answer::Claimed { request, .. } = answer {
        pushed(sent, request);
    }
}

// Appends the item, for which there is room.
pub(crate) fn pushed<T: Drop>(list: &mut Vec<T>, item: T)
    requires { vec_len list.old < vec_capacity list.old }
    ensures { list.new.items ≡ list.old.items ++ item ∷ [] }
{
    let pushed = list.push(item);
    let held = pushed.is_ok();
    prove!(held);
    drop(pushed);
}
