ghost use Rattle.std.specs.Prelude.{◌≡◌, ◌+◌, ◌*◌, ◌^◌, ◌<◌};
ghost use Rattle.call_data.specs.declared.sys_call.SysCall.{SysCall};
ghost use Rattle.call_data.specs.CallData.{IsCall};
ghost use Rattle.bpf_compare.specs.Known.{IsAmong, IsSettled, number_at};

use crate::known::Known;
use crate::laws::words_fit;
use crate::range::Range;
use call_data::{SysCall, words_of_fields};

/// A call that is probably in the set; the caller checks it by running both filters. If all words of the set
/// are known, no other call is in it.
pub(crate) fn witness(known: &Known) -> SysCall
    ensures { (call : SysCall) → IsCall call → IsSettled known.now → IsAmong known.now call
        → call ≡ result }
{
    words_of_fields();
    SysCall {
        nr: number(known, 0),
        arch: number(known, 1),
        ip: double(known, 2),
        args: [
            double(known, 4),
            double(known, 6),
            double(known, 8),
            double(known, 10),
            double(known, 12),
            double(known, 14),
        ],
    }
}

/// A number for the two words from this place on, the low half first.
fn double(known: &Known, place: usize) -> u64
    requires { place < 15 }
    ensures { (call : SysCall) → IsCall call → IsSettled known.now → IsAmong known.now call
        → result ≡ number_at call place + 2 ^ 32 * number_at call (place + 1) }
{
    u64::from(number(known, place)) + (u64::from(number(known, place + 1)) << 32)
}

/// A number for the word at this place: mostly the lowest that is left.
pub(crate) fn number(known: &Known, place: usize) -> u32
    requires { place < 16 }
    ensures { (call : SysCall) → IsCall call → IsSettled known.now → IsAmong known.now call
        → result ≡ number_at call place }
{
    words_fit();
    let range = known.ranges[place];
    if range.mask == u32::MAX {
        return range.bits;
    }
    let mut number = least(range);
    for _ in 0..known.tries() {
        if !range.has(number) {
            break;
        }
        match known.run_without(place, number) {
            None => return number,
            Some(run) => number = following(range, number | run),
        }
    }
    number
}

/// The least number of the range, if it has one.
fn least(range: Range) -> u32 {
    let wrong = (range.low ^ range.bits) & range.mask;
    if wrong == 0 {
        return range.low;
    }
    // The highest bit that the bound has wrong, and all below it.
    let below = u32::MAX >> (wrong.leading_zeros() % 32);
    let number = range.low & !below & !range.mask | range.bits;
    if number >= range.low {
        number
    } else {
        following(range, range.low | below)
    }
}

/// The next number with the range's bits.
fn following(range: Range, number: u32) -> u32 {
    (number | range.mask).wrapping_add(1) & !range.mask | range.bits
}
