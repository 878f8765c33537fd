ghost use Rattle.std.specs.Prelude.{◌≡◌, ◌<◌, ◌+◌, ◌==◌, ℕ, IfSome, bit_and, nat_le, not};
ghost use Rattle.bpf_code.specs.declared.limits.TheConstants.{MAX_INSNS};
ghost use Rattle.call_data.specs.declared.sys_call.SysCall.{SysCall};
ghost use Rattle.call_data.specs.CallData.{IsCall};
ghost use Rattle.bpf_verify.specs.Sound.{KeepsNumber};
ghost use Rattle.bpf_machine.specs.Machine.{Executes, Next, State, sets_a};
ghost use Rattle.bpf_compare.specs.Known.{answer_of};
ghost use Rattle.bpf_compare.specs.Stands.{Answers, LeadsTo, StandsFor};
ghost use Rattle.bpf_compare.specs.Value.{Denotes};

use crate::question::{Question, Test};
use crate::value::Value;
use bpf_code::{DATA_LEN, Insn, Operation};

/// A place in code, and what is known of the registers there.
#[derive(Clone, Copy)]
pub(crate) struct Registers {
    pub(crate) place: usize,
    pub(crate) a: Value,
    pub(crate) x: Value,
}

impl Registers {
    /// Where a filter starts.
    pub(crate) const START: Registers = Registers {
        place: 0,
        a: Value::Constant(0),
        x: Value::Constant(0),
    };

    /// At the next instruction, with these values.
    pub(crate) fn next(self, a: Value, x: Value) -> Registers
        requires { self.place < MAX_INSNS }
        ensures { result ≡ record { place = self.place + 1; a = a; x = x } }
    {
        Registers {
            place: self.place + 1,
            a,
            x,
        }
    }

    /// This many instructions past the next one.
    pub(crate) fn skip(self, count: u32) -> Registers
        requires { self.place < MAX_INSNS }
        ensures { result ≡ record { place = self.place + 1 + count; a = self.a; x = self.x } }
    {
        Registers {
            place: self.place + 1 + count as usize,
            a: self.a,
            x: self.x,
        }
    }
}

/// The result of an instruction.
pub(crate) enum After {
    /// Goes on to the next instruction, with these values in A and X.
    Goes(Value, Value),
    /// A test holds: skips jt instructions.
    Holds,
    /// A test fails: skips jf instructions.
    Fails,
    /// Skips jt or jf instructions, depending on the data.
    Asks(Question),
    /// Skips k instructions.
    Skips,
    /// Ends, with this value.
    Ends(Value),
    /// Depends on a value that is not tracked.
    Unclear,
}

/// The result of a test of this value.
fn asked(value: Value, test: Test, against: u32) -> After
    ensures { (call : SysCall) (n : ℕ) → Denotes call value n
        → Answers call result (answer_of test n against) }
{
    match value {
        Value::Constant(number) => {
            if test.holds(number, against) {
                After::Holds
            } else {
                After::Fails
            }
        }
        Value::Data(word, mask) => After::Asks(Question {
            word,
            mask,
            test,
            against,
        }),
        Value::Unknown => After::Unclear,
    }
}

/// The result of testing whether A is at least this number.
fn at_least(a: Value, least: u32) -> After
    ensures { (call : SysCall) (n : ℕ) → Denotes call a n → Answers call result (nat_le least n) }
{
    if least == 0 {
        After::Holds
    } else {
        asked(a, Test::Greater, least - 1)
    }
}

/// The result of testing whether A has one of these bits.
fn any_bit(a: Value, bits: u32) -> After
    ensures { (call : SysCall) (n : ℕ) → Denotes call a n → Answers call result (not (bit_and n bits == 0)) }
{
    asked(a.masked(bits), Test::Greater, 0)
}

/// The result of arithmetic other than masks on A, if its operands are constants.
fn computed(registers: Registers, insn: &Insn) -> Option<u32>
    requires { KeepsNumber insn.now.op insn.now.k }
    ensures { (call : SysCall) (s : State) (next : Next) → Denotes call registers.a s.a
        → Denotes call registers.x s.x → Executes insn.now.op call insn.now s next
        → IfSome result (λ number. next ≡ sets_a s number) }
{
    let Value::Constant(a) = registers.a else {
        return None;
    };
    match insn.op {
        Operation::AddK => Some(a.wrapping_add(insn.k)),
        Operation::SubK => Some(a.wrapping_sub(insn.k)),
        Operation::MulK => Some(a.wrapping_mul(insn.k)),
        Operation::DivK => Some(a / insn.k),
        Operation::OrK => Some(a | insn.k),
        Operation::XorK => Some(a ^ insn.k),
        Operation::ShiftLeft => Some(a << insn.k),
        Operation::ShiftRight => Some(a >> insn.k),
        Operation::Negate => Some(0u32.wrapping_sub(a)),
        _ => match registers.x {
            Value::Constant(x) => computed_with_x(insn, a, x),
            Value::Data(..) | Value::Unknown => None,
        },
    }
}

/// The result of arithmetic with X on these numbers.
fn computed_with_x(insn: &Insn, a: u32, x: u32) -> Option<u32>
    ensures { (call : SysCall) (s : State) (next : Next) → s.a ≡ a → s.x ≡ x
        → Executes insn.now.op call insn.now s next → IfSome result (λ number. next ≡ sets_a s number) }
{
    match insn.op {
        Operation::AddX => Some(a.wrapping_add(x)),
        Operation::SubX => Some(a.wrapping_sub(x)),
        Operation::MulX => Some(a.wrapping_mul(x)),
        Operation::DivX => a.checked_div(x),
        Operation::OrX => Some(a | x),
        Operation::XorX => Some(a ^ x),
        _ => None,
    }
}

/// The value that must be a constant before the instruction can be followed, if it is data.
pub(crate) fn wanted(registers: Registers, op: Operation) -> Value {
    match (op, registers.a) {
        (Operation::AndX, Value::Data(..)) => registers.x,
        (
            Operation::DivX
            | Operation::JumpEqualX
            | Operation::JumpGreaterX
            | Operation::JumpGreaterOrEqualX
            | Operation::JumpAnyBitX,
            Value::Constant(_) | Value::Data(..),
        ) => registers.x,
        _ => Value::Unknown,
    }
}

/// Executes one instruction that keeps the rules of sound code.
#[tactic(auto, using(std::proofs::lemmas::Nat::and_comm))]
pub(crate) fn step(registers: Registers, insn: &Insn, words: &mut [Value; 16]) -> After
    requires { KeepsNumber insn.now.op insn.now.k }
    ensures follows { (call : SysCall) (s : State) (next : Next) → IsCall call
        → StandsFor call registers words.old s → Executes insn.now.op call insn.now s next
        → LeadsTo call registers insn.now result words.new next }
{
    let (a, x) = (registers.a, registers.x);
    if let Some(number) = computed(registers, insn) {
        return After::Goes(Value::Constant(number), x);
    }
    match insn.op {
        Operation::LoadImmediate => After::Goes(Value::Constant(insn.k), x),
        Operation::LoadData => After::Goes(Value::loaded(insn.k), x),
        Operation::LoadWord => After::Goes(words[insn.k as usize], x),
        Operation::LoadLength => After::Goes(Value::Constant(DATA_LEN), x),
        Operation::LoadXImmediate => After::Goes(a, Value::Constant(insn.k)),
        Operation::LoadXWord => After::Goes(a, words[insn.k as usize]),
        Operation::LoadXLength => After::Goes(a, Value::Constant(DATA_LEN)),
        Operation::Store => {
            words[insn.k as usize] = a;
            After::Goes(a, x)
        }
        Operation::StoreX => {
            words[insn.k as usize] = x;
            After::Goes(a, x)
        }
        Operation::AndK => After::Goes(a.masked(insn.k), x),
        Operation::AndX => match (a, x) {
            (_, Value::Constant(mask)) => After::Goes(a.masked(mask), x),
            (Value::Constant(mask), _) => After::Goes(x.masked(mask), x),
            _ => After::Goes(Value::Unknown, x),
        },
        Operation::DivX => match x {
            Value::Constant(0) => After::Ends(Value::Constant(0)),
            Value::Constant(_) => After::Goes(Value::Unknown, x),
            Value::Data(..) | Value::Unknown => After::Unclear,
        },
        Operation::JumpEqualK => asked(a, Test::Equal, insn.k),
        Operation::JumpEqualX => match x {
            Value::Constant(against) => asked(a, Test::Equal, against),
            Value::Data(..) | Value::Unknown => After::Unclear,
        },
        Operation::JumpGreaterK => asked(a, Test::Greater, insn.k),
        Operation::JumpGreaterX => match x {
            Value::Constant(against) => asked(a, Test::Greater, against),
            Value::Data(..) | Value::Unknown => After::Unclear,
        },
        Operation::JumpGreaterOrEqualK => at_least(a, insn.k),
        Operation::JumpGreaterOrEqualX => match x {
            Value::Constant(least) => at_least(a, least),
            Value::Data(..) | Value::Unknown => After::Unclear,
        },
        Operation::JumpAnyBitK => any_bit(a, insn.k),
        Operation::JumpAnyBitX => match x {
            Value::Constant(bits) => any_bit(a, bits),
            Value::Data(..) | Value::Unknown => After::Unclear,
        },
        Operation::Jump => After::Skips,
        Operation::ReturnK => After::Ends(Value::Constant(insn.k)),
        Operation::ReturnA => After::Ends(a),
        Operation::MoveToX => After::Goes(a, a),
        Operation::MoveToA => After::Goes(x, x),
        // Arithmetic other than masks, on a value that is not a constant.
        _ => After::Goes(Value::Unknown, x),
    }
}
