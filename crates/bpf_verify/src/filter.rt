ghost use Rattle.std.specs.Prelude.{◌≡◌, List, length, IfOk};
ghost use Rattle.bpf_code.specs.declared.insn.Insn.{Insn};
ghost use Rattle.bpf_verify.specs.Sound.{IsSound};

use bpf_code::Insn;
use std::alloc::{AllocError, Global};
use std::marker::Model;

/// A sound filter: nothing is left to check.
#[derive(Drop)]
pub struct Filter {
    insns: Vec<Insn>,
}

impl Model for Filter {
    ghost Value = { List Insn };

    ghost view = { λ f. f.insns.items };

    ghost invariant = { λ f. IsSound f.insns.items };
}

impl Filter {
    /// The filter of sound code.
    pub(crate) fn new(insns: Vec<Insn>) -> Filter
        requires { IsSound insns.items }
        ensures { result ≡ insns.items }
    {
        Filter { insns }
    }

    /// The number of instructions.
    pub fn len(&self) -> usize
        ensures { result ≡ length self.now }
    {
        self.insns.len()
    }

    /// The instructions.
    pub fn insns(&self) -> &[Insn]
        ensures same { result.now ≡ self.now }
        ensures sound { IsSound result.now }
    {
        self.insns.as_slice()
    }

    /// A copy of the filter.
    pub fn try_clone(&self, alloc: Global) -> Result<Filter, AllocError>
        ensures { IfOk result (λ copy. copy ≡ self.now) }
    {
        Ok(Filter {
            insns: self.insns.as_slice().to_vec(alloc)?,
        })
    }
}
