ghost use Rattle.std.specs.Prelude.{◌≡◌, ◌≢◌, IfSome, IfNone};
ghost use Rattle.bpf_code.specs.Code.{code_of};

/// What an instruction does. `A` and `X` are the machine's registers, `k`, `jt` and `jf` the
/// instruction's numbers. The number beside each is its code, as linux/bpf_common.h composes it.
#[derive(Clone, Copy, Debug, PartialEq, Eq)]
pub enum Operation {
    /// `ld #k`: A becomes k.
    LoadImmediate = 0x00,
    /// `ld [k]`: A becomes the word of the call's data at byte k.
    LoadData = 0x20,
    /// `ld M[k]`: A becomes scratch word k.
    LoadWord = 0x60,
    /// `ld #len`: A becomes the length of the call's data, 64.
    LoadLength = 0x80,
    /// `ldx #k`: X becomes k.
    LoadXImmediate = 0x01,
    /// `ldx M[k]`: X becomes scratch word k.
    LoadXWord = 0x61,
    /// `ldx #len`: X becomes the length of the call's data, 64.
    LoadXLength = 0x81,
    /// `st M[k]`: scratch word k becomes A.
    Store = 0x02,
    /// `stx M[k]`: scratch word k becomes X.
    StoreX = 0x03,
    /// `add #k`: A becomes A + k, modulo 2^32, as in all arithmetic here.
    AddK = 0x04,
    /// `add x`: A becomes A + X.
    AddX = 0x0c,
    /// `sub #k`: A becomes A - k.
    SubK = 0x14,
    /// `sub x`: A becomes A - X.
    SubX = 0x1c,
    /// `mul #k`: A becomes A * k.
    MulK = 0x24,
    /// `mul x`: A becomes A * X.
    MulX = 0x2c,
    /// `div #k`: A becomes A / k, rounded down.
    DivK = 0x34,
    /// `div x`: A becomes A / X, rounded down. Where X is 0 the filter ends with value 0.
    DivX = 0x3c,
    /// `or #k`: A becomes A | k.
    OrK = 0x44,
    /// `or x`: A becomes A | X.
    OrX = 0x4c,
    /// `and #k`: A becomes A & k.
    AndK = 0x54,
    /// `and x`: A becomes A & X.
    AndX = 0x5c,
    /// `xor #k`: A becomes A ^ k.
    XorK = 0xa4,
    /// `xor x`: A becomes A ^ X.
    XorX = 0xac,
    /// `lsh #k`: A becomes A << k.
    ShiftLeft = 0x64,
    /// `rsh #k`: A becomes A >> k.
    ShiftRight = 0x74,
    /// `neg`: A becomes -A.
    Negate = 0x84,
    /// `jeq #k, jt, jf`: skips jt instructions where A = k, else jf.
    JumpEqualK = 0x15,
    /// `jeq x, jt, jf`: skips jt instructions where A = X, else jf.
    JumpEqualX = 0x1d,
    /// `jgt #k, jt, jf`: skips jt instructions where A > k, else jf. Comparisons are unsigned.
    JumpGreaterK = 0x25,
    /// `jgt x, jt, jf`: skips jt instructions where A > X, else jf.
    JumpGreaterX = 0x2d,
    /// `jge #k, jt, jf`: skips jt instructions where A >= k, else jf.
    JumpGreaterOrEqualK = 0x35,
    /// `jge x, jt, jf`: skips jt instructions where A >= X, else jf.
    JumpGreaterOrEqualX = 0x3d,
    /// `jset #k, jt, jf`: skips jt instructions where A & k is not 0, else jf.
    JumpAnyBitK = 0x45,
    /// `jset x, jt, jf`: skips jt instructions where A & X is not 0, else jf.
    JumpAnyBitX = 0x4d,
    /// `ja k`: skips k instructions.
    Jump = 0x05,
    /// `ret #k`: ends the filter with value k.
    ReturnK = 0x06,
    /// `ret a`: ends the filter with value A.
    ReturnA = 0x16,
    /// `tax`: X becomes A.
    MoveToX = 0x07,
    /// `txa`: A becomes X.
    MoveToA = 0x87,
}

impl Operation {
    /// The operation with this code, if the code is in the table.
    pub fn of_code(code: u16) -> Option<Operation>
        ensures made { IfSome result (λ op. code_of op ≡ code) }
        ensures unknown { IfNone result ((op : Operation) → code_of op ≢ code) }
    {
        let op = match code {
            0x00 => Operation::LoadImmediate,
            0x20 => Operation::LoadData,
            0x60 => Operation::LoadWord,
            0x80 => Operation::LoadLength,
            0x01 => Operation::LoadXImmediate,
            0x61 => Operation::LoadXWord,
            0x81 => Operation::LoadXLength,
            0x02 => Operation::Store,
            0x03 => Operation::StoreX,
            0x04 => Operation::AddK,
            0x0c => Operation::AddX,
            0x14 => Operation::SubK,
            0x1c => Operation::SubX,
            0x24 => Operation::MulK,
            0x2c => Operation::MulX,
            0x34 => Operation::DivK,
            0x3c => Operation::DivX,
            0x44 => Operation::OrK,
            0x4c => Operation::OrX,
            0x54 => Operation::AndK,
            0x5c => Operation::AndX,
            0xa4 => Operation::XorK,
            0xac => Operation::XorX,
            0x64 => Operation::ShiftLeft,
            0x74 => Operation::ShiftRight,
            0x84 => Operation::Negate,
            0x15 => Operation::JumpEqualK,
            0x1d => Operation::JumpEqualX,
            0x25 => Operation::JumpGreaterK,
            0x2d => Operation::JumpGreaterX,
            0x35 => Operation::JumpGreaterOrEqualK,
            0x3d => Operation::JumpGreaterOrEqualX,
            0x45 => Operation::JumpAnyBitK,
            0x4d => Operation::JumpAnyBitX,
            0x05 => Operation::Jump,
            0x06 => Operation::ReturnK,
            0x16 => Operation::ReturnA,
            0x07 => Operation::MoveToX,
            0x87 => Operation::MoveToA,
            _ => return None,
        };
        Some(op)
    }

    /// The operation's code.
    pub fn code(self) -> u16
        ensures { result ≡ code_of self }
    {
        self as u16
    }
}
