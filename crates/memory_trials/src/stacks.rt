//! Stacks of filters.
use crate::filters::{are_same, filter};
use bpf_verify::Filter;
use std::alloc::{AllocError, Global};
use trials::{CallResult, Trial, TrialResult, try_call};
use verdict::{Stack, StackFault};

/// Tries the call of this name, if it is one of this module's.
pub(crate) fn run_trial(rt: &HostRuntime, name: &str) -> Option<TrialResult> {
    let alloc = rt.alloc();
    match name {
        "Stack::push" => Some(try_call(rt, Pushes::new(alloc))),
        "Stack::push with room" => Some(try_call(rt, Pushes::with_room(alloc))),
        "Stack::reserve" => Some(try_call(rt, Reserves::new(alloc))),
        _ => None,
    }
}

/// `Stack::push`, onto a stack of one filter.
#[derive(Drop)]
struct Pushes {
    stack: Stack,
    filters: Vec<Filter>,
    wanted: Filter,
}

/// A stack of one filter, and one more to push.
fn begun(alloc: Global) -> Option<Pushes> {
    let mut stack = Stack::new(alloc);
    stack.push(filter(alloc)?).ok()?;
    let mut filters = Vec::new(alloc);
    filters.push(filter(alloc)?).ok()?;
    let wanted = filter(alloc)?;
    Some(Pushes {
        stack,
        filters,
        wanted,
    })
}

impl Pushes {
    /// A stack that has room for as many filters as were ever there.
    fn new(alloc: Global) -> Option<Pushes> {
        let mut it = begun(alloc)?;
        // The room that the first filter was given is filled.
        for _ in 0..FILLED {
            it.stack.push(filter(alloc)?).ok()?;
        }
        Some(it)
    }

    /// A stack with room for one more.
    fn with_room(alloc: Global) -> Option<Pushes> {
        let mut it = Pushes::new(alloc)?;
        it.stack.reserve(1).ok()?;
        Some(it)
    }
}

/// How many filters a stack gets after the first one. A list of filters has room for four at first.
const FILLED: usize = 3;

impl Trial for Pushes {
    type Answer = Option<StackFault>;

    // A filter that is refused is returned.
    fn call(&mut self) -> Option<StackFault> {
        let filter = self.filters.pop()?;
        match self.stack.push(filter) {
            Ok(()) => None,
            Err((filter, fault)) => {
                let kept = self.filters.push(filter);
                drop(kept);
                Some(fault)
            }
        }
    }

    fn check(&mut self, answer: &Option<StackFault>) -> CallResult {
        match answer {
            None => CallResult::right_if(has(&self.stack, FILLED + 2, &self.wanted)),
            Some(StackFault::Memory) => CallResult::Memory,
            Some(_) => CallResult::Wrong,
        }
    }

    fn is_unchanged(&mut self) -> bool {
        has(&self.stack, FILLED + 1, &self.wanted)
            && self
                .filters
                .as_slice()
                .first()
                .is_some_and(|filter| are_same(filter, &self.wanted))
    }
}

/// Whether a stack has `count` filters, each of them this one.
fn has(stack: &Stack, count: usize, filter: &Filter) -> bool {
    for it in stack.filters() {
        if !are_same(it, filter) {
            return false;
        }
    }
    stack.filters().len() == count
}

/// `Stack::reserve`.
#[derive(Drop)]
struct Reserves {
    stack: Stack,
    wanted: Filter,
}

impl Reserves {
    fn new(alloc: Global) -> Option<Reserves> {
        let Pushes { stack, wanted, .. } = begun(alloc)?;
        Some(Reserves { stack, wanted })
    }
}

impl Trial for Reserves {
    type Answer = Result<(), AllocError>;

    fn call(&mut self) -> Result<(), AllocError> {
        self.stack.reserve(9)
    }

    fn check(&mut self, answer: &Result<(), AllocError>) -> CallResult {
        match answer {
            Ok(()) => CallResult::right_if(has(&self.stack, 1, &self.wanted)),
            Err(AllocError) => CallResult::Memory,
        }
    }

    fn is_unchanged(&mut self) -> bool {
        has(&self.stack, 1, &self.wanted)
    }
}
