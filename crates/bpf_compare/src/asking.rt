ghost use Rattle.std.specs.Prelude.{◌≡◌, ◌<◌, IfNone};
ghost use Rattle.bpf_compare.specs.Known.{IsSettled};

use crate::known::Known;
use crate::question::{Question, Test};
use crate::range::Range;
use crate::value::Value;
use crate::witness::number;
use crate::word::Word;
use call_data::SysCall;

/// A question about a bit under the mask that the range leaves open. `None` if all of them are known.
fn bit_question(word: Word, range: Range, mask: u32) -> Option<Question> {
    let open = mask & !range.mask;
    if open == 0 {
        None
    } else {
        Some(highest_bit(word, open))
    }
}

/// A question about a bit of the value that is not known of the calls of the set.
pub(crate) fn value_question(known: &Known, value: Value) -> Option<Question> {
    match value {
        Value::Data(word, mask) => bit_question(word, known.ranges[word.place], mask),
        Value::Constant(_) | Value::Unknown => None,
    }
}

/// A question about a value whose number an instruction needs: about a bit of it, or, if a path for each
/// number would be too many, whether it is a certain one.
pub(crate) fn number_question(known: &Known, value: Value) -> Option<Question> {
    if let Value::Data(word, mask) = value
        && is_wide(known, mask & !known.ranges[word.place].mask)
        && let Some(number) = guess(known, word, mask)
    {
        return Some(Question {
            word,
            mask,
            test: Test::Equal,
            against: number & mask,
        });
    }
    value_question(known, value)
}

/// The greatest number of bits to split: a path for each of their numbers takes a fraction of a second.
const MOST_SPLITS: u32 = 12;

/// Whether these bits, with those already split, have too many numbers for a path each.
fn is_wide(known: &Known, open: u32) -> bool {
    open.count_ones().saturating_add(known.splits) > MOST_SPLITS
}

/// A number that the word may be, if one is found; preferably not 0 under the mask, since with an X of 0 some
/// tests have only one answer.
fn guess(known: &Known, word: Word, mask: u32) -> Option<u32> {
    let least = number(known, word.place);
    let open = mask & !known.ranges[word.place].mask;
    let next = least | open & open.wrapping_neg();
    if known.allows(word.place, next) {
        Some(next)
    } else if known.allows(word.place, least) {
        Some(least)
    } else {
        None
    }
}

/// A question about a bit of a word of this call that breaks a rule of the set to which it should belong.
///
/// The words are independent: a set is empty only if one of them has no number left. The call has that one
/// wrong, so a bit of a word that it has right would not help.
pub(crate) fn wrong_word_question(known: &Known, call: SysCall) -> Option<Question> {
    let data = call.to_bytes();
    for it in known.excluded.as_slice() {
        if it.has(it.word.of(&data)) {
            let question = bit_question(it.word, known.ranges[it.word.place], it.mask);
            if question.is_some() {
                return question;
            }
        }
    }
    for it in known.bounded.as_slice() {
        if !it.has(it.word.of(&data)) {
            let question = bit_question(it.word, known.ranges[it.word.place], it.mask);
            if question.is_some() {
                return question;
            }
        }
    }
    wrong_range_question(known, &data)
}

/// A question about a bit of a word that is not in its range in this call's data.
fn wrong_range_question(known: &Known, data: &[u8; 64]) -> Option<Question> {
    for place in 0..16 {
        let word = Word { place };
        let range = known.ranges[place];
        if !range.has(word.of(data)) {
            return bit_question(word, range, u32::MAX);
        }
    }
    None
}

/// A question about a bit of any word. `None` if every word is fully known, so that at most one call is left.
pub(crate) fn any_question(known: &Known) -> Option<Question>
    ensures { IfNone result (IsSettled known.now) }
{
    for place in 0..16 {
        let range = known.ranges[place];
        if range.mask != u32::MAX {
            return Some(highest_bit(Word { place }, !range.mask));
        }
    }
    None
}

/// Whether the word has the highest of these bits.
fn highest_bit(word: Word, bits: u32) -> Question {
    Question {
        word,
        mask: 0x8000_0000 >> (bits.leading_zeros() % 32),
        test: Test::Greater,
        against: 0,
    }
}
