//! Reading, writing and copying filters.
use bpf_code::{CodeFault, Insn};
use bpf_verify::{Filter, Refusal, filter_of};
use std::alloc::{AllocError, Global};
use trials::{CallResult, Trial, TrialResult, try_call};

/// Tries the call of this name, if it is one of this module's.
pub(crate) fn run_trial(rt: &HostRuntime, name: &str) -> Option<TrialResult> {
    let alloc = rt.alloc();
    match name {
        "bpf_code::read" => Some(try_call(rt, Reads::new(alloc))),
        "bpf_code::write" => Some(try_call(rt, Writes::new(alloc))),
        "filter_of" => Some(try_call(rt, Verifies::new(alloc))),
        "Filter::try_clone" => Some(try_call(rt, Copies::new(alloc))),
        _ => None,
    }
}

/// A filter that ends the process on getpid, and allows all other calls.
pub(crate) const FILTER: [u8; 32] = [
    0x20, 0, 0, 0, 0, 0, 0, 0, // ld [0]
    0x15, 0, 0, 1, 39, 0, 0, 0, // jeq #39, 0, 1
    0x06, 0, 0, 0, 0, 0, 0, 0x80, // ret #0x80000000
    0x06, 0, 0, 0, 0, 0, 0xff, 0x7f, // ret #0x7fff0000
];

/// This filter.
pub(crate) fn filter(alloc: Global) -> Option<Filter> {
    filter_of(alloc, &FILTER).ok()
}

/// Whether both are the same code.
pub(crate) fn are_same(a: &Filter, b: &Filter) -> bool {
    a.insns() == b.insns()
}

/// `bpf_code::read`.
#[derive(Drop)]
struct Reads {
    alloc: Global,
    wanted: Filter,
}

impl Reads {
    fn new(alloc: Global) -> Option<Reads> {
        let wanted = filter(alloc)?;
        Some(Reads { alloc, wanted })
    }
}

impl Trial for Reads {
    type Answer = Result<Vec<Insn>, CodeFault>;

    fn call(&mut self) -> Result<Vec<Insn>, CodeFault> {
        bpf_code::read(self.alloc, &FILTER)
    }

    fn check(&mut self, answer: &Result<Vec<Insn>, CodeFault>) -> CallResult {
        match answer {
            Ok(insns) => CallResult::right_if(insns.as_slice() == self.wanted.insns()),
            Err(CodeFault::Memory) => CallResult::Memory,
            Err(_) => CallResult::Wrong,
        }
    }
}

/// `filter_of`.
#[derive(Drop)]
struct Verifies {
    alloc: Global,
    wanted: Filter,
}

impl Verifies {
    fn new(alloc: Global) -> Option<Verifies> {
        let wanted = filter(alloc)?;
        Some(Verifies { alloc, wanted })
    }
}

impl Trial for Verifies {
    type Answer = Result<Filter, Refusal>;

    fn call(&mut self) -> Result<Filter, Refusal> {
        filter_of(self.alloc, &FILTER)
    }

    fn check(&mut self, answer: &Result<Filter, Refusal>) -> CallResult {
        match answer {
            Ok(filter) => CallResult::right_if(are_same(filter, &self.wanted)),
            Err(Refusal::Code(CodeFault::Memory)) => CallResult::Memory,
            Err(_) => CallResult::Wrong,
        }
    }
}

/// `bpf_code::write`.
#[derive(Drop)]
struct Writes {
    alloc: Global,
    filter: Filter,
}

impl Writes {
    fn new(alloc: Global) -> Option<Writes> {
        let filter = filter(alloc)?;
        Some(Writes { alloc, filter })
    }
}

impl Trial for Writes {
    type Answer = Result<Vec<u8>, AllocError>;

    fn call(&mut self) -> Result<Vec<u8>, AllocError> {
        bpf_code::write(self.alloc, self.filter.insns())
    }

    fn check(&mut self, answer: &Result<Vec<u8>, AllocError>) -> CallResult {
        match answer {
            Ok(bytes) => CallResult::right_if(bytes.as_slice() == FILTER.as_slice()),
            Err(AllocError) => CallResult::Memory,
        }
    }
}

/// `Filter::try_clone`.
#[derive(Drop)]
struct Copies {
    alloc: Global,
    filter: Filter,
}

impl Copies {
    fn new(alloc: Global) -> Option<Copies> {
        let filter = filter(alloc)?;
        Some(Copies { alloc, filter })
    }
}

impl Trial for Copies {
    type Answer = Result<Filter, AllocError>;

    fn call(&mut self) -> Result<Filter, AllocError> {
        self.filter.try_clone(self.alloc)
    }

    fn check(&mut self, answer: &Result<Filter, AllocError>) -> CallResult {
        match answer {
            Ok(copy) => CallResult::right_if(are_same(copy, &self.filter)),
            Err(AllocError) => CallResult::Memory,
        }
    }
}
