//! What happens to a runtime that threads share.
use creation::FileAnswers;
use cri_msgs::{Answer, Call};
use runtime_cell::Did;
use std::collections::LinkedList;

/// What happened. No value of it is made: only contracts use it.
pub enum Event {
    /// A call was served, with the results of reading its files, and answered.
    Served(Call, FileAnswers, Answer),
    /// The cell with this id did a step.
    Stepped(u64, Did),
}

/// What one caller knows of the history, the latest event first. No value of it is made.
pub struct Seen {
    /// All events up to some time.
    pub all: LinkedList<Event>,
    /// The events that the caller added itself.
    pub own: LinkedList<Event>,
}
