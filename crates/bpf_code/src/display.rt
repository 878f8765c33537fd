ghost use Rattle.std.specs.Prelude.{◌≡◌};
ghost use Rattle.bpf_code.specs.Text.{mnemonic_of, operand_of, targets_of};

use crate::flow::Flow;
use crate::insn::Insn;
use crate::operation::Operation;
use std::fmt;

/// Assembler text in the syntax of the kernel's `bpf_asm`. A jump has the number of instructions to skip
/// instead of a label: `ld [4]`, `jeq #0xc000003e, 0, 1`, `ret #0x7fff0000`.
impl fmt::Display for Insn {
    ghost use Rattle.std.specs.Prelude.{Some};
    ghost use Rattle.bpf_code.specs.Text.{text_of};

    ghost output = { λ insn. Some (text_of insn) };

    fn fmt<W: fmt::Write>(&self, f: &mut fmt::Formatter<W>) -> fmt::Result {
        let name = mnemonic(self.op);
        let operand = operand_in(self);
        let targets = targets_in(self);
        write!(f, "{name}{operand}{targets}")
    }
}

/// The operand after an instruction's mnemonic.
#[derive(Clone, Copy)]
enum Operand {
    Constant(u32),
    /// The data at this byte.
    Data(u32),
    /// The scratch word of this number.
    Word(u32),
    /// The length of the data.
    Length,
    X,
    A,
    /// The number of instructions to skip.
    Skip(u32),
    Nothing,
}

impl fmt::Display for Operand {
    ghost use Rattle.std.specs.Prelude.{Some};
    ghost use Rattle.bpf_code.specs.OperandText.{operand_text};

    ghost output = { λ operand. Some (operand_text operand) };

    fn fmt<W: fmt::Write>(&self, f: &mut fmt::Formatter<W>) -> fmt::Result {
        match self {
            Operand::Constant(k) => write!(f, " #0x{k:x}"),
            Operand::Data(k) => write!(f, " [{k}]"),
            Operand::Word(k) => write!(f, " M[{k}]"),
            Operand::Length => f.write_str(" #len"),
            Operand::X => f.write_str(" x"),
            Operand::A => f.write_str(" a"),
            Operand::Skip(k) => write!(f, " {k}"),
            Operand::Nothing => Ok(()),
        }
    }
}

/// How many instructions a conditional jump skips if its test holds, and if it fails.
#[derive(Clone, Copy)]
enum Targets {
    Two(u8, u8),
    Nothing,
}

impl fmt::Display for Targets {
    ghost use Rattle.std.specs.Prelude.{Some};
    ghost use Rattle.bpf_code.specs.OperandText.{targets_text};

    ghost output = { λ targets. Some (targets_text targets) };

    fn fmt<W: fmt::Write>(&self, f: &mut fmt::Formatter<W>) -> fmt::Result {
        match self {
            Targets::Two(jt, jf) => write!(f, ", {jt}, {jf}"),
            Targets::Nothing => Ok(()),
        }
    }
}

fn targets_in(insn: &Insn) -> Targets
    ensures { result ≡ targets_of insn.now }
{
    match insn.op.flow() {
        Flow::Branches => Targets::Two(insn.jt, insn.jf),
        Flow::Returns | Flow::Jumps | Flow::Continues => Targets::Nothing,
    }
}

fn mnemonic(op: Operation) -> &'static str
    ensures { result.now ≡ mnemonic_of op }
{
    match op {
        Operation::LoadImmediate
        | Operation::LoadData
        | Operation::LoadWord
        | Operation::LoadLength => "ld",
        Operation::LoadXImmediate | Operation::LoadXWord | Operation::LoadXLength => "ldx",
        Operation::Store => "st",
        Operation::StoreX => "stx",
        Operation::AddK | Operation::AddX => "add",
        Operation::SubK | Operation::SubX => "sub",
        Operation::MulK | Operation::MulX => "mul",
        Operation::DivK | Operation::DivX => "div",
        Operation::OrK | Operation::OrX => "or",
        Operation::AndK | Operation::AndX => "and",
        Operation::XorK | Operation::XorX => "xor",
        Operation::ShiftLeft => "lsh",
        Operation::ShiftRight => "rsh",
        Operation::Negate => "neg",
        Operation::JumpEqualK | Operation::JumpEqualX => "jeq",
        Operation::JumpGreaterK | Operation::JumpGreaterX => "jgt",
        Operation::JumpGreaterOrEqualK | Operation::JumpGreaterOrEqualX => "jge",
        Operation::JumpAnyBitK | Operation::JumpAnyBitX => "jset",
        Operation::Jump => "ja",
        Operation::ReturnK | Operation::ReturnA => "ret",
        Operation::MoveToX => "tax",
        Operation::MoveToA => "txa",
    }
}

fn operand_in(insn: &Insn) -> Operand
    ensures { result ≡ operand_of insn.now.op insn.now.k }
{
    let k = insn.k;
    match insn.op {
        Operation::LoadData => Operand::Data(k),
        Operation::LoadWord | Operation::LoadXWord | Operation::Store | Operation::StoreX =>
            Operand::Word(k),
        Operation::LoadLength | Operation::LoadXLength => Operand::Length,
        Operation::AddX
        | Operation::SubX
        | Operation::MulX
        | Operation::DivX
        | Operation::OrX
        | Operation::AndX
        | Operation::XorX
        | Operation::JumpEqualX
        | Operation::JumpGreaterX
        | Operation::JumpGreaterOrEqualX
        | Operation::JumpAnyBitX => Operand::X,
        Operation::ReturnA => Operand::A,
        Operation::Jump => Operand::Skip(k),
        Operation::Negate | Operation::MoveToX | Operation::MoveToA => Operand::Nothing,
        _ => Operand::Constant(k),
    }
}
