ghost use Rattle.std.specs.Prelude.{◌≡◌, ◌<◌, ◌+◌, if◌then◌else◌};
ghost use Rattle.bpf_code.specs.declared.limits.TheConstants.{MAX_INSNS, SCRATCH_WORDS};
ghost use Rattle.call_data.specs.declared.sys_call.SysCall.{SysCall};
ghost use Rattle.call_data.specs.CallData.{bytes_of_call};
ghost use Rattle.bpf_verify.specs.Sound.{KeepsNumber};
ghost use Rattle.bpf_machine.specs.Machine.{Executes, Next, State};
ghost use Rattle.bpf_machine.specs.Stands.{LeadsTo, StandsFor};

use bpf_code::{DATA_LEN, Insn, Operation};
use call_data::word_of;

/// The place and the registers. The scratch words are kept apart from them.
#[derive(Clone, Copy)]
pub(crate) struct Registers {
    pub(crate) place: usize,
    pub(crate) a: u32,
    pub(crate) x: u32,
}

impl Registers {
    /// At the next instruction, with these numbers.
    #[inline(always)]
    pub(crate) fn next(self, a: u32, x: u32) -> Registers
        requires { self.place < MAX_INSNS }
        ensures { result ≡ record { place = self.place + 1; a = a; x = x } }
    {
        Registers {
            place: self.place + 1,
            a,
            x,
        }
    }

    /// This many instructions past the next one.
    #[inline(always)]
    pub(crate) fn skip(self, count: u32) -> Registers
        requires { self.place < MAX_INSNS }
        ensures { result ≡ record { place = self.place + 1 + count; a = self.a; x = self.x } }
    {
        Registers {
            place: self.place + 1 + count as usize,
            a: self.a,
            x: self.x,
        }
    }
}

/// The result of an instruction.
///
/// The result of a jump is only which of its numbers applies. So the result of a test is a branch in the
/// machine's loop, which the processor predicts; if it were a number to look up, the loop would wait for the
/// load.
pub(crate) enum After {
    /// Goes on to the next instruction, with these numbers in A and X.
    Goes(u32, u32),
    /// A test holds: skips jt instructions.
    Holds,
    /// A test fails: skips jf instructions.
    Fails,
    /// Skips k instructions.
    Skips,
    /// Ends, with this value.
    Ends(u32),
}

#[inline(always)]
fn branch(holds: bool) -> After
    ensures { result ≡ (if holds then After.Holds else After.Fails) }
{
    if holds { After::Holds } else { After::Fails }
}

/// Executes one instruction that keeps the rules of sound code.
///
/// k is read where it is used, so that it is a memory operand of the arithmetic.
#[inline(always)]
pub(crate) fn step(
    registers: Registers,
    insn: &Insn,
    bytes: &[u8; 64],
    words: &mut [u32; 16],
) -> After
    requires { KeepsNumber insn.now.op insn.now.k }
    ensures follows { (call : SysCall) (s : State) (next : Next) → bytes.now ≡ bytes_of_call call
        → StandsFor registers words.old s → Executes insn.now.op call insn.now s next
        → LeadsTo registers insn.now result words.new next }
{
    let (a, x) = (registers.a, registers.x);
    match insn.op {
        Operation::LoadImmediate => After::Goes(insn.k, x),
        Operation::LoadData => After::Goes(word_of(bytes, insn.k), x),
        Operation::LoadWord => After::Goes(words[insn.k as usize], x),
        Operation::LoadLength => After::Goes(DATA_LEN, x),
        Operation::LoadXImmediate => After::Goes(a, insn.k),
        Operation::LoadXWord => After::Goes(a, words[insn.k as usize]),
        Operation::LoadXLength => After::Goes(a, DATA_LEN),
        Operation::Store => {
            words[insn.k as usize] = a;
            After::Goes(a, x)
        }
        Operation::StoreX => {
            words[insn.k as usize] = x;
            After::Goes(a, x)
        }
        Operation::AddK => After::Goes(a.wrapping_add(insn.k), x),
        Operation::AddX => After::Goes(a.wrapping_add(x), x),
        Operation::SubK => After::Goes(a.wrapping_sub(insn.k), x),
        Operation::SubX => After::Goes(a.wrapping_sub(x), x),
        Operation::MulK => After::Goes(a.wrapping_mul(insn.k), x),
        Operation::MulX => After::Goes(a.wrapping_mul(x), x),
        Operation::DivK => After::Goes(a / insn.k, x),
        Operation::DivX => {
            if x == 0 {
                After::Ends(0)
            } else {
                After::Goes(a / x, x)
            }
        }
        Operation::OrK => After::Goes(a | insn.k, x),
        Operation::OrX => After::Goes(a | x, x),
        Operation::AndK => After::Goes(a & insn.k, x),
        Operation::AndX => After::Goes(a & x, x),
        Operation::XorK => After::Goes(a ^ insn.k, x),
        Operation::XorX => After::Goes(a ^ x, x),
        Operation::ShiftLeft => After::Goes(a << insn.k, x),
        Operation::ShiftRight => After::Goes(a >> insn.k, x),
        Operation::Negate => After::Goes(0u32.wrapping_sub(a), x),
        Operation::JumpEqualK => branch(a == insn.k),
        Operation::JumpEqualX => branch(a == x),
        Operation::JumpGreaterK => branch(a > insn.k),
        Operation::JumpGreaterX => branch(a > x),
        Operation::JumpGreaterOrEqualK => branch(a >= insn.k),
        Operation::JumpGreaterOrEqualX => branch(a >= x),
        Operation::JumpAnyBitK => branch(a & insn.k != 0),
        Operation::JumpAnyBitX => branch(a & x != 0),
        Operation::Jump => After::Skips,
        Operation::ReturnK => After::Ends(insn.k),
        Operation::ReturnA => After::Ends(a),
        Operation::MoveToX => After::Goes(a, a),
        Operation::MoveToA => After::Goes(x, x),
    }
}
