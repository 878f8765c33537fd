//! The reading of large texts.
//!
//! The tree of a JSON text may take more than a hundred times the memory of the text, and whoever connects
//! may send texts as large as a frame. The C library keeps, for each thread, the memory of the largest tree
//! that it ever had. So one thread reads all large texts, one after the other, whoever sent them.
ghost use Rattle.runner.specs.Readings.{IsReading};

use crate::desk::Desk;
use crate::reading::{Job, Outcome};
use cri_msgs::{MessageFault, Request, Version};
use std::alloc::Global;
use std::sync::{Condvar, Mutex, Wait};

/// A text of more bytes than this is large. No meaningful request comes near it.
pub const LARGE_TEXT: usize = 16_384;

/// Reads the large texts of all connections, one at a time.
#[derive(Drop)]
pub struct Reader {
    desk: Mutex<Desk>,
    changed: Condvar,
}

impl Reader {
    /// No thread reads for it yet.
    pub fn new() -> Reader {
        Reader {
            desk: Mutex::new(Desk::Unattended),
            changed: Condvar::new(),
        }
    }

    /// Reads the request in the text of a frame of this version, as [`Request::read`] does. The reader's
    /// thread reads a large text after those before it; if there is no such thread, it is read here.
    pub fn read<R: Wait>(
        &self,
        rt: &R,
        alloc: Global,
        version: Version,
        text: &[u8],
    ) -> Result<Request, MessageFault>
        ensures { IsReading version text.now result }
    {
        if text.len() <= LARGE_TEXT || !self.take_desk(rt) {
            return Request::read(alloc, version, text);
        }
        let outcome = match Vec::from_slice(alloc, text) {
            Ok(text) => self.hand_in(rt, Job { version, text }),
            Err(_) => None,
        };
        self.leave_desk(rt);
        match outcome {
            Some(outcome) => match outcome.given_for(version, text) {
                Some(given) => given,
                None => Request::read(alloc, version, text),
            },
            None => Request::read(alloc, version, text),
        }
    }

    // Waits until the desk is free, and takes it. False if no thread reads.
    fn take_desk<R: Wait>(&self, rt: &R) -> bool {
        let desk = self.desk.lock(rt);
        let mut desk = self.changed.wait_while(rt, desk, |desk| desk.is_in_use());
        desk.take()
    }

    fn leave_desk<R: Wait>(&self, rt: &R) {
        let mut desk = self.desk.lock(rt);
        desk.leave();
        drop(desk);
        self.changed.notify_all();
    }

    // Lays a text on the desk, and waits until it was read, or until the reader is closed.
    fn hand_in<R: Wait>(&self, rt: &R, job: Job) -> Option<Outcome> {
        let mut desk = self.desk.lock(rt);
        desk.lay(job);
        self.changed.notify_all();
        let mut desk = self
            .changed
            .wait_while(rt, desk, |desk| desk.is_waited_for());
        desk.collect()
    }

    /// Reads one text after the other until it is closed.
    pub fn work<R: Wait>(&self, rt: &R, alloc: Global) {
        let mut desk = self.desk.lock(rt);
        desk.open();
        drop(desk);
        for _ in rt.forever() {
            let Some(job) = self.next_job(rt) else {
                break;
            };
            let outcome = Outcome::of(alloc, job);
            let mut desk = self.desk.lock(rt);
            desk.put(outcome);
            drop(desk);
            self.changed.notify_all();
        }
    }

    // The text on the desk, once there is one. `None` once the reader is closed.
    fn next_job<R: Wait>(&self, rt: &R) -> Option<Job> {
        let desk = self.desk.lock(rt);
        let mut desk = self.changed.wait_while(rt, desk, |desk| desk.has_no_work());
        desk.start()
    }

    /// Ends the thread. From now on each connection reads its own texts.
    pub fn close<R: Wait>(&self, rt: &R) {
        let mut desk = self.desk.lock(rt);
        desk.close();
        drop(desk);
        self.changed.notify_all();
    }
}
