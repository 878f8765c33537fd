ghost use Rattle.std.specs.Prelude.{◌≡◌, ◌<◌, ◌%◌, ℕ, IsTrue, bit_and};
ghost use Rattle.call_data.specs.declared.sys_call.SysCall.{SysCall};
ghost use Rattle.call_data.specs.CallData.{IsCall, word_at};
ghost use Rattle.bpf_compare.specs.Value.{Denotes};

use crate::laws::words_fit;
use crate::word::Word;

/// What is known of a register or a scratch word.
#[derive(Clone, Copy)]
pub(crate) enum Value {
    /// It is this number.
    Constant(u32),
    /// It is a word of the call's data under a mask.
    Data(Word, u32),
    /// It may be any number.
    Unknown,
}

impl Value {
    /// The value loaded from this offset of the call's data, in bytes.
    pub(crate) fn loaded(offset: u32) -> Value
        requires inside { offset < 64 }
        requires aligned { offset % 4 ≡ 0 }
        ensures { (call : SysCall) → IsCall call → Denotes call result (word_at call offset) }
    {
        words_fit();
        Value::Data(Word::at(offset), u32::MAX)
    }

    /// Whether both are certainly the same number on every call.
    pub(crate) fn is_same(self, other: Value) -> bool
        ensures { IsTrue result → (call : SysCall) (n m : ℕ) → Denotes call self n → Denotes call other m
            → n ≡ m }
    {
        match (self, other) {
            (Value::Constant(number), Value::Constant(given)) => number == given,
            (Value::Data(word, mask), Value::Data(given, under)) => word == given && mask == under,
            _ => false,
        }
    }

    /// What is known of the value under a mask.
    #[tactic(auto, using(std::proofs::lemmas::Nat::and_assoc))]
    pub(crate) fn masked(self, mask: u32) -> Value
        ensures { (call : SysCall) (n : ℕ) → Denotes call self n → Denotes call result (bit_and n mask) }
    {
        match self {
            Value::Constant(number) => Value::Constant(number & mask),
            Value::Data(word, known) => Value::Data(word, known & mask),
            Value::Unknown => Value::Unknown,
        }
    }
}
