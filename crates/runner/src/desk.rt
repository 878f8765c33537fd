//! The desk at which one large text is read at a time.
ghost use Rattle.std.specs.Prelude.{◌≡◌, ◌↔◌, IsTrue};
ghost use Rattle.runner.specs.Desks.{after_collect, after_lay, after_leave, after_open};
ghost use Rattle.runner.specs.Desks.{after_put, after_start, after_take, has_no_work, is_in_use, is_waited_for};
ghost use Rattle.runner.specs.Desks.{outcome_on, text_on};
ghost use Rattle.runner.specs.declared.desk.Desk.TheVariants.{Closed, Free};

use crate::reading::{Job, Outcome};
use std::mem;

/// The state of the desk. Only the connection that took the desk lays a text on it, and no other takes the
/// desk before that text's outcome was collected and the desk was left, so one text is read at a time.
#[derive(Drop)]
pub(crate) enum Desk {
    /// No thread reads yet.
    Unattended,
    Free,
    /// By a connection that has laid down nothing yet, or that has collected its outcome.
    Taken,
    Laid(Job),
    /// The text was taken from the desk, and is being read.
    InWork,
    Read(Outcome),
    Closed,
}

impl Desk {
    /// Opens the desk: a thread reads from now on.
    pub(crate) fn open(&mut self)
        ensures { self.new ≡ after_open self.old }
    {
        if matches!(self, Desk::Unattended) {
            *self = Desk::Free;
        }
    }

    /// Closes the desk: no thread reads from now on.
    pub(crate) fn close(&mut self)
        ensures { self.new ≡ Closed }
    {
        *self = Desk::Closed;
    }

    /// Takes the desk if it is free.
    pub(crate) fn take(&mut self) -> bool
        ensures free { IsTrue result ↔ (self.old ≡ Free) }
        ensures taken { self.new ≡ after_take self.old }
    {
        let is_free = matches!(self, Desk::Free);
        if is_free {
            *self = Desk::Taken;
        }
        is_free
    }

    /// Lays a text on the desk that was taken. If the desk was closed meanwhile, nothing changes.
    pub(crate) fn lay(&mut self, job: Job)
        ensures { self.new ≡ after_lay self.old job }
    {
        if matches!(self, Desk::Taken) {
            *self = Desk::Laid(job);
        }
    }

    /// Takes the text from the desk to read it.
    pub(crate) fn start(&mut self) -> Option<Job>
        ensures text { result ≡ text_on self.old }
        ensures started { self.new ≡ after_start self.old }
    {
        match mem::replace(self, Desk::InWork) {
            Desk::Laid(job) => Some(job),
            other => {
                *self = other;
                None
            }
        }
    }

    /// Puts the outcome in the place of the text. If the desk was closed meanwhile, nothing changes.
    pub(crate) fn put(&mut self, outcome: Outcome)
        ensures { self.new ≡ after_put self.old outcome }
    {
        if matches!(self, Desk::InWork) {
            *self = Desk::Read(outcome);
        }
    }

    /// Takes the outcome from the desk.
    pub(crate) fn collect(&mut self) -> Option<Outcome>
        ensures outcome { result ≡ outcome_on self.old }
        ensures collected { self.new ≡ after_collect self.old }
    {
        match mem::replace(self, Desk::Taken) {
            Desk::Read(outcome) => Some(outcome),
            other => {
                *self = other;
                None
            }
        }
    }

    /// Frees the desk that was taken. If it was closed meanwhile, nothing changes.
    pub(crate) fn leave(&mut self)
        ensures { self.new ≡ after_leave self.old }
    {
        if matches!(self, Desk::Taken) {
            *self = Desk::Free;
        }
    }

    /// Whether someone has the desk.
    pub(crate) fn is_in_use(&self) -> bool
        ensures { result ≡ is_in_use self.now }
    {
        matches!(
            self,
            Desk::Taken | Desk::Laid(_) | Desk::InWork | Desk::Read(_)
        )
    }

    /// Whether a text is on the desk, or is being read.
    pub(crate) fn is_waited_for(&self) -> bool
        ensures { result ≡ is_waited_for self.now }
    {
        matches!(self, Desk::Laid(_) | Desk::InWork)
    }

    /// Whether the reading thread has to wait.
    pub(crate) fn has_no_work(&self) -> bool
        ensures { result ≡ has_no_work self.now }
    {
        !matches!(self, Desk::Laid(_) | Desk::Closed)
    }
}
