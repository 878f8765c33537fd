//! Wakes the runners when a container is started.

use std::sync::{Condvar, Mutex, Wait};

#[derive(Clone, Copy)]
struct Starts {
    // How many containers were started.
    count: u64,
    // How many runners have found nothing to do since the last start.
    idle: u64,
    over: bool,
}

/// Counts the containers that were started. Runners that found nothing to do wait for the next one.
#[derive(Drop)]
pub struct Notifier {
    starts: Mutex<Starts>,
    changed: Condvar,
}

impl Notifier {
    /// No container was started yet.
    pub fn new() -> Notifier {
        Notifier {
            starts: Mutex::new(Starts {
                count: 0,
                idle: 0,
                over: false,
            }),
            changed: Condvar::new(),
        }
    }

    /// Whether it is closed: no more starts will be announced.
    pub fn is_closed<R: Wait>(&self, rt: &R) -> bool {
        self.count(rt).is_none()
    }

    // The number of starts. `None` once the notifier is closed.
    fn count<R: Wait>(&self, rt: &R) -> Option<u64> {
        let starts = *self.starts.lock(rt);
        if starts.over {
            None
        } else {
            Some(starts.count)
        }
    }

    /// Announces that a container was started.
    pub fn notify<R: Wait>(&self, rt: &R) {
        let mut starts = self.starts.lock(rt);
        starts.count = starts.count.wrapping_add(1);
        starts.idle = 0;
        drop(starts);
        self.changed.notify_all();
    }

    /// Runs a runner's rounds until the notifier is closed. Each round returns whether it found something to
    /// do; if not, the runner waits for the next start. A start during a round is never missed, wherever the
    /// round had looked already.
    pub fn work<R: Wait, F: FnMut() -> bool>(&self, rt: &R, mut round: F)
        requires { F.IsAlwaysCallable round }
    {
        for _ in rt.forever() {
            let Some(seen) = self.count(rt) else {
                break;
            };
            if !round() {
                self.wait(rt, seen);
            }
        }
    }

    // Called when a round that began after `seen` starts found nothing to do. Waits for the next start, or
    // until the notifier is closed.
    fn wait<R: Wait>(&self, rt: &R, seen: u64) {
        let mut starts = self.starts.lock(rt);
        if starts.count == seen {
            starts.idle = starts.idle.saturating_add(1);
            self.changed.notify_all();
        }
        let _starts = self
            .changed
            .wait_while(rt, starts, |starts| !starts.over && starts.count == seen);
    }

    /// Waits until each of this many runners has found nothing to do since the last start, or the notifier is
    /// closed.
    pub fn wait_idle<R: Wait>(&self, rt: &R, runners: u64) {
        let starts = self.starts.lock(rt);
        let _starts = self
            .changed
            .wait_while(rt, starts, |starts| !starts.over && starts.idle < runners);
    }

    /// Closes the notifier: wakes all waiting threads, now and from now on.
    pub fn close<R: Wait>(&self, rt: &R) {
        let mut starts = self.starts.lock(rt);
        starts.over = true;
        drop(starts);
        self.changed.notify_all();
    }
}
