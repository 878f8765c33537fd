//! Answers an agent's requests.
ghost use Rattle.std.specs.Prelude.{◌≡◌, IfOk};

use crate::dialing::{Deadline, TimedStream, connect};
use crate::limits::PATIENCE;
use agent_parts::{LostCall, Why, call_line};
use agent_tasks::Troubles;
use cri_frames::{Lost, call_over};
use cri_msgs::{Reply, Request, Version};
use node_io::{Cause, StreamWire};
use runtime_server::{Connections, LineWriter, NoPlace};
use std::alloc::Global;
use std::io;
use std::sync::Wait;
use std::sync::atomic::{AtomicU64, Ordering};
use std::time::Clock;
use worker_crew::Peer;

/// Where an agent logs its calls, and reports what goes wrong with them.
#[derive(Drop)]
pub(crate) struct CallLog<'a, R: Wait> {
    pub(crate) rt: &'a R,
    pub(crate) writer: &'a LineWriter,
    // The current moment, in seconds.
    pub(crate) moment: &'a AtomicU64,
    pub(crate) troubles: &'a Troubles,
    // Whether each call is logged.
    pub(crate) each: bool,
}

/// How an agent's calls are made: their open connections, and where they are logged.
#[derive(Drop)]
pub(crate) struct Calls<'a, R: Wait> {
    pub(crate) open: &'a Connections,
    pub(crate) log: CallLog<'a, R>,
}

// Connecting to a listener with a full queue would have to wait.
fn not_connected(error: &io::Error) -> Why {
    match Cause::of(error) {
        Cause::WouldBlock => Why::QueueFull,
        cause => Why::NotConnected(cause),
    }
}

fn not_entered(why: NoPlace) -> Why {
    match why {
        NoPlace::System(cause) => Why::NotConnected(cause),
        NoPlace::Closed => Why::Ending,
        NoPlace::Full => Why::QueueFull,
    }
}

/// The runtime that listens on the socket at a path. Each call has its own connection. Each borrow has its
/// own lifetime, as they come from different places.
#[derive(Drop)]
pub(crate) struct SocketPeer<'r, 'p, 'c, 'a, R: Wait> {
    pub(crate) rt: &'r R,
    pub(crate) system: HostRuntime,
    pub(crate) alloc: Global,
    pub(crate) path: &'a str,
    // The version of the messages to it.
    pub(crate) version: Version,
    pub(crate) calls: &'p Calls<'c, R>,
}

impl<R: Wait + Clock> SocketPeer<'_, '_, '_, '_, R> {
    // Makes a call, which has one deadline from its connection to its reply.
    fn ask(&self, request: &Request) -> Result<Reply, LostCall>
        ensures { IfOk result (λ reply. reply.id ≡ request.now.id) }
    {
        let (rt, open) = (self.rt, self.calls.open);
        let deadline = Deadline::in_seconds(rt, PATIENCE);
        let stream = match connect(rt, &self.system, open, self.path, deadline) {
            Ok(stream) => stream,
            Err(error) => return Err(LostCall::before(not_connected(&error))),
        };
        let place = match open.enter(rt, &stream) {
            Ok(place) => place,
            Err(why) => return Err(LostCall::before(not_entered(why))),
        };
        let mut wire = StreamWire::new(TimedStream {
            rt,
            stream,
            deadline,
        });
        let came = call_over(self.alloc, &mut wire, request, self.version);
        open.leave(rt, place);
        match came {
            Ok(reply) => Ok(reply),
            Err(lost) => Err(LostCall::on_the_way(lost, wire.cause())),
        }
    }
}

impl<R: Wait + Clock> Peer for SocketPeer<'_, '_, '_, '_, R> {
    ghost use Rattle.std.specs.Prelude.{◌≡◌, IfOk};

    // A reply has the number of its request. The program at the socket is not known.
    ghost may = { λ request outcome. IfOk outcome (λ reply. reply.id ≡ request.id) };

    fn call(&mut self, request: &Request) -> Result<Reply, Lost> {
        let log = &self.calls.log;
        let moment = log.moment.load(Ordering::SeqCst);
        let came = self.ask(request);
        if log.each {
            let line = call_line(self.alloc, moment, request, &came);
            log.writer.tell(log.rt, line);
        }
        log.troubles.note(
            log.rt,
            log.writer,
            log.moment.load(Ordering::SeqCst),
            request,
            &came,
        );
        match came {
            Ok(reply) => Ok(reply),
            Err(call) => Err(call.lost),
        }
    }
}
