ghost use Rattle.std.specs.Prelude.{◌≡◌};
ghost use Rattle.bpf_code.specs.Flow.{flow_of, scratch_of};

use crate::operation::Operation;

/// Where the filter goes after an instruction.
#[derive(Clone, Copy, Debug, PartialEq, Eq)]
pub enum Flow {
    /// Nowhere: it ends.
    Returns,
    /// k instructions are skipped.
    Jumps,
    /// jt or jf instructions are skipped, depending on the data.
    Branches,
    /// To the next instruction. A division by X may end the filter instead.
    Continues,
}

/// What an instruction does to scratch word k.
#[derive(Clone, Copy, Debug, PartialEq, Eq)]
pub enum Scratch {
    /// It loads the word.
    Loads,
    /// It stores the word.
    Stores,
    /// It touches no word.
    Untouched,
}

impl Operation {
    /// Where the filter goes after this.
    pub fn flow(self) -> Flow
        ensures { result ≡ flow_of self }
    {
        match self {
            Operation::ReturnK | Operation::ReturnA => Flow::Returns,
            Operation::Jump => Flow::Jumps,
            Operation::JumpEqualK
            | Operation::JumpEqualX
            | Operation::JumpGreaterK
            | Operation::JumpGreaterX
            | Operation::JumpGreaterOrEqualK
            | Operation::JumpGreaterOrEqualX
            | Operation::JumpAnyBitK
            | Operation::JumpAnyBitX => Flow::Branches,
            _ => Flow::Continues,
        }
    }

    /// What this does to scratch word k.
    pub fn scratch(self) -> Scratch
        ensures { result ≡ scratch_of self }
    {
        match self {
            Operation::LoadWord | Operation::LoadXWord => Scratch::Loads,
            Operation::Store | Operation::StoreX => Scratch::Stores,
            _ => Scratch::Untouched,
        }
    }
}
