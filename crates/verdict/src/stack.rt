ghost use Rattle.std.specs.Prelude.{◌≡◌, ◌+◌, ◌<◌, ◌≤◌, ◌++◌, [], ◌∷◌, OnOk, OnErr, IfErr, IsErrAnd, length};
ghost use Rattle.std.specs.Prelude.{nat_le};
ghost use Rattle.verdict.specs.declared.stack.TheConstants.{MAX_STACK_INSNS};
ghost use Rattle.verdict.specs.Stack.{AllSound, IsJudged, counted};

use crate::judging::judge_all;
use action::Verdict;
use bpf_verify::Filter;
use call_data::SysCall;
use std::alloc::{AllocError, Global};
use std::fmt;
use std::marker::Model;
use thiserror::Error;

/// How many instructions a stack may have, with four more counted for each filter but the newest:
/// `MAX_INSNS_PER_PATH` of the kernel's seccomp.
pub const MAX_STACK_INSNS: usize = 32_768;

/// Why a stack refuses a filter.
#[derive(Clone, Copy, Debug, PartialEq, Eq, Error)]
pub enum StackFault {
    /// The stack would have more than [`MAX_STACK_INSNS`].
    TooManyInsns,
    /// An allocation failed.
    Memory,
}

/// The fault's name.
impl fmt::Display for StackFault {
    ghost use Rattle.std.specs.Prelude.{Some};
    ghost use Rattle.verdict.specs.FaultText.{fault_text};

    ghost output = { λ fault. Some (fault_text fault) };

    fn fmt<W: fmt::Write>(&self, f: &mut fmt::Formatter<W>) -> fmt::Result {
        match self {
            StackFault::TooManyInsns => f.write_str("TooManyInsns"),
            StackFault::Memory => f.write_str("Memory"),
        }
    }
}

/// The filters of a container, the oldest one first.
#[derive(Drop)]
pub struct Stack {
    filters: Vec<Filter>,
    taken: usize,
}

impl Model for Stack {
    ghost use Rattle.std.specs.Prelude.{◌≡◌, ◌+◌, ◌-◌, ◌≤◌, length, vec_capacity};
    ghost use Rattle.verdict.specs.declared.stack.TheConstants.{MAX_STACK_INSNS};
    ghost use Rattle.verdict.specs.Stack.{AllSound, Stacked, counted};

    ghost Value = { Stacked };

    ghost view = { λ s. record {
      filters = s.filters.items;
      room =
          vec_capacity s.filters - length s.filters.items;
    } };

    ghost invariant = { λ s. (s.taken ≡ counted s.filters.items) × (s.taken ≤ MAX_STACK_INSNS + 4)
        × AllSound s.filters.items };
}

impl Stack {
    /// No filters.
    pub fn new(alloc: Global) -> Stack
        ensures { result.filters ≡ [] }
    {
        Stack {
            filters: Vec::new(alloc),
            taken: 0,
        }
    }

    /// Makes room for this many more filters: pushing them then allocates nothing. If an allocation fails,
    /// the stack is unchanged.
    pub fn reserve(&mut self, additional: usize) -> Result<(), AllocError>
        ensures same { self.new.filters ≡ self.old.filters }
        ensures ok { OnOk result (additional ≤ self.new.room) }
        ensures err { OnErr result (self.new ≡ self.old) }
        ensures kept { self.old.room ≤ self.new.room }
        ensures refused { OnErr result (self.old.room < additional) }
    {
        self.filters.reserve(additional)
    }

    /// Whether the stack stays within [`MAX_STACK_INSNS`] with this filter added.
    pub fn has_place(&self, filter: &Filter) -> bool
        ensures { result ≡ nat_le (length filter.now + counted self.now.filters) MAX_STACK_INSNS }
    {
        filter.insns().len() + self.taken <= MAX_STACK_INSNS
    }

    /// Adds a filter as the newest one. A refused filter is returned, and the stack is unchanged.
    pub fn push(&mut self, filter: Filter) -> Result<(), (Filter, StackFault)>
        ensures ok { OnOk result (self.new.filters ≡ self.old.filters ++ filter ∷ []) }
        ensures err { OnErr result (self.new.filters ≡ self.old.filters) }
        ensures back { IfErr result (λ refused. refused.0 ≡ filter) }

        // It is too long exactly if its length and the count for the others exceed the limit.
        ensures too_many { IfErr result (λ refused. refused.1 ≡ StackFault.TooManyInsns
            → MAX_STACK_INSNS < length filter + counted self.old.filters) }
        ensures refused { MAX_STACK_INSNS < length filter + counted self.old.filters
            → IsErrAnd result (λ refused. refused.1 ≡ StackFault.TooManyInsns) }

        // If there is room, it takes no memory. An added filter uses the room of one.
        ensures spared { IfErr result (λ refused. refused.1 ≡ StackFault.Memory → self.old.room ≡ 0) }
        ensures room { OnOk result (self.old.room ≤ self.new.room + 1) }
        ensures kept { OnErr result (self.old.room ≤ self.new.room) }
    {
        if !self.has_place(&filter) {
            return Err((filter, StackFault::TooManyInsns));
        }
        let len = filter.insns().len();
        match self.filters.push(filter) {
            Ok(()) => {
                self.taken += len + 4;
                Ok(())
            }
            Err(refused) => Err((refused.value, StackFault::Memory)),
        }
    }

    /// The filters, the oldest one first.
    pub fn filters(&self) -> &[Filter]
        ensures same { result.now ≡ self.now.filters }
        ensures sound { AllSound self.now.filters }
    {
        self.filters.as_slice()
    }

    /// The filters' joint verdict on a call. Every filter is run.
    pub fn judge(&self, call: &SysCall) -> Verdict
        ensures { IsJudged self.now.filters call.now result }
    {
        judge_all(&self.filters, call)
    }
}
