ghost use Rattle.std.specs.Prelude.{◌≡◌, ℕ, ◌+◌, ◌*◌, ◌/◌, ◌%◌, ◌^◌, ◌<◌, length, slice_index};
ghost use Rattle.call_data.specs.declared.sys_call.SysCall.{SysCall};
ghost use Rattle.call_data.specs.CallData.{bytes_of_call, word_at, word_in};

use byteorder::{ByteOrder, LittleEndian};

/// The word at this offset, in bytes, of a call's data: for callers that write the 64 bytes once and read
/// many words.
#[inline]
pub fn word_of(bytes: &[u8; 64], offset: u32) -> u32
    requires inside { offset < 64 }
    requires aligned { offset % 4 ≡ 0 }
    ensures { result ≡ word_in bytes.now offset }
{
    LittleEndian::read_u32(&bytes[offset as usize..])
}

/// Where the fields are among the words: a call's number and architecture are one word each, an address and
/// an argument two, the low half first.
pub fn words_of_fields()
    ensures whole { (call : SysCall) → length call.args ≡ 6 → length (bytes_of_call call) ≡ 64 }
    ensures nr { (call : SysCall) → call.nr < 2 ^ 32 → word_at call 0 ≡ call.nr }
    ensures arch { (call : SysCall) → call.arch < 2 ^ 32 → word_at call 4 ≡ call.arch }
    ensures ip_low { (call : SysCall) → word_at call 8 ≡ call.ip % 2 ^ 32 }
    ensures ip_high { (call : SysCall) → call.ip < 2 ^ 64 → word_at call 12 ≡ call.ip / 2 ^ 32 }
    ensures args_low { (call : SysCall) (i : ℕ) → i < length call.args
        → word_at call (16 + 8 * i) ≡ slice_index call.args i % 2 ^ 32 }
    ensures args_high { (call : SysCall) (i : ℕ)
        → i < length call.args → slice_index call.args i < 2 ^ 64
        → word_at call (20 + 8 * i) ≡ slice_index call.args i / 2 ^ 32 }
{}
