ghost use Rattle.std.specs.Prelude.{◌≡◌, ◌≢◌, ◌<◌, ℕ, IfOk, IfSome, IsSomeAnd, IsTrue, length};
ghost use Rattle.std.specs.List.{All};
ghost use Rattle.call_data.specs.declared.sys_call.SysCall.{SysCall};
ghost use Rattle.call_data.specs.declared.sys_call.TheConstants.{NATIVE_ARCH};
ghost use Rattle.call_data.specs.CallData.{IsCall};
ghost use Rattle.bpf_compare.specs.Agree.{IsOf};
ghost use Rattle.bpf_compare.specs.Known.{Avoids, FallsIn, IsAmong, IsIn, IsLeft, IsWithin, Keeps};
ghost use Rattle.bpf_compare.specs.Known.{answer_on, number_at};
ghost use Rattle.bpf_compare.specs.Value.{Denotes};

use crate::bounded::Bounded;
use crate::laws::words_fit;
use crate::question::{Excluded, Question};
use crate::range::Range;
use crate::scope::Scope;
use crate::value::Value;
use crate::word::Word;
use call_data::NATIVE_ARCH;
use std::alloc::{AllocError, Global};

/// What is known of the calls of a set, word by word.
#[derive(Drop)]
pub(crate) struct Known {
    pub(crate) ranges: [Range; 16],
    pub(crate) excluded: Vec<Excluded>,
    pub(crate) bounded: Vec<Bounded>,
    /// How many questions besides the filters' own tests split the calls. Each doubles the paths.
    pub(crate) splits: u32,
}

/// How a question splits a set of calls.
#[derive(Drop)]
pub(crate) enum Split {
    /// The test holds on all.
    Holds,
    /// It fails on all.
    Fails,
    /// It may do either. It fails on these calls, and holds on those that stay in the set.
    Both(Known),
}

/// Which calls are left after a question.
#[derive(Drop)]
pub(crate) enum Left {
    /// None: the set was empty.
    None,
    /// Those of the set, all with the same answer.
    All,
    /// Those that stay in the set, and these.
    Both(Known),
}

impl Known {
    /// The calls of a scope.
    pub(crate) fn new(alloc: Global, scope: Scope) -> Result<Known, AllocError>
        ensures { IfOk result (λ known. (call : SysCall) → IsOf scope call → IsAmong known call) }
    {
        words_fit();
        match scope {
            Scope::EveryCall => Ok(Known::within(alloc, Range::ALL, Range::ALL)),
            Scope::NativeCalls => Ok(Known::within(alloc, Range::BELOW_X32, Range::NATIVE)),
            Scope::Numbers(low, high) => {
                Ok(Known::within(alloc, Range::between(low, high), Range::NATIVE))
            }
            Scope::OtherArchitectures => Known::without_native(alloc),
        }
    }

    /// The calls whose numbers and architectures are in these ranges.
    fn within(alloc: Global, numbers: Range, architectures: Range) -> Known
        ensures { (call : SysCall) → IsCall call → IsIn numbers call.nr → IsIn architectures call.arch
            → IsAmong result call }
    {
        words_fit();
        let mut ranges = [Range::ALL; 16];
        ranges[0] = numbers;
        ranges[1] = architectures;
        Known {
            ranges,
            excluded: Vec::new(alloc),
            bounded: Vec::new(alloc),
            splits: 0,
        }
    }

    /// The calls of all architectures but x86-64.
    fn without_native(alloc: Global) -> Result<Known, AllocError>
        ensures { IfOk result (λ known. (call : SysCall) → IsCall call → call.arch ≢ NATIVE_ARCH
            → IsAmong known call) }
    {
        words_fit();
        let mut known = Known::within(alloc, Range::ALL, Range::ALL);
        let native = Excluded::all_of(Word { place: 1 }, NATIVE_ARCH);
        known.excluded.push(native)?;
        Ok(known)
    }

    /// How many numbers to try for a word: some for each rule, since most rules exclude a single run.
    pub(crate) fn tries(&self) -> usize {
        (self.excluded.len() + self.bounded.len())
            .saturating_mul(4)
            .saturating_add(64)
    }

    /// Whether the word at this place may be this number.
    pub(crate) fn allows(&self, place: usize, number: u32) -> bool
        requires { place < 16 }
    {
        self.ranges[place].has(number) && self.run_without(place, number).is_none()
    }

    /// If a rule excludes this number for the word at this place: the free low bits of the numbers that the
    /// rule excludes with it.
    pub(crate) fn run_without(&self, place: usize, number: u32) -> Option<u32> {
        for it in self.excluded.as_slice() {
            if it.word.place == place && it.has(number) {
                return Some(free_low_bits(it.mask));
            }
        }
        for it in self.bounded.as_slice() {
            if it.word.place == place && !it.has(number) {
                return Some(free_low_bits(it.mask));
            }
        }
        None
    }

    /// The same value, as a constant if all its bits are known.
    pub(crate) fn constant(&self, value: Value) -> Value
        ensures { (call : SysCall) (n : ℕ) → IsAmong self.now call → Denotes call value n
            → Denotes call result n }
    {
        if let Value::Data(word, mask) = value {
            let range = self.ranges[word.place];
            let bits = range.least(mask);
            if range.has_bits(mask, bits) {
                return Value::Constant(bits);
            }
        }
        value
    }

    fn try_clone(&self, alloc: Global) -> Result<Known, AllocError>
        ensures { (call : SysCall) → IsAmong self.now call → IfOk result (λ copy. IsAmong copy call) }
    {
        Ok(Known {
            ranges: self.ranges,
            excluded: Vec::from_slice(alloc, self.excluded.as_slice())?,
            bounded: Vec::from_slice(alloc, self.bounded.as_slice())?,
            splits: self.splits,
        })
    }

    /// Splits the set by a question. If the test may do either, the calls on which it holds stay.
    pub(crate) fn split(&mut self, alloc: Global, question: Question) -> Result<Split, AllocError>
        ensures { IfOk result (λ split. (call : SysCall) → IsAmong self.old call
            → FallsIn split call question self.new) }
    {
        let Some(held) = self.part(question, true) else {
            return Ok(Split::Fails);
        };
        let Some(failed) = self.part(question, false) else {
            return Ok(Split::Holds);
        };
        let mut other = self.try_clone(alloc)?;
        other.narrow(question, failed, false)?;
        self.narrow(question, held, true)?;
        Ok(Split::Both(other))
    }

    /// Learns the answer to a question. If both are possible, a copy has some of the calls.
    pub(crate) fn ask(&mut self, alloc: Global, question: Question) -> Result<Left, AllocError>
        ensures { IfOk result (λ left. (call : SysCall) → IsAmong self.old call → IsLeft left call self.new) }
    {
        let failed = self.part(question, false);
        let Some(held) = self.part(question, true) else {
            let Some(failed) = failed else {
                return Ok(Left::None);
            };
            self.narrow(question, failed, false)?;
            return Ok(Left::All);
        };
        let Some(failed) = failed else {
            self.narrow(question, held, true)?;
            return Ok(Left::All);
        };
        self.count_split();
        let mut other = self.try_clone(alloc)?;
        other.narrow(question, failed, false)?;
        self.narrow(question, held, true)?;
        Ok(Left::Both(other))
    }

    fn count_split(&mut self)
        ensures { (call : SysCall) → IsAmong self.old call → IsAmong self.new call }
    {
        self.splits = self.splits.saturating_add(1);
    }

    /// The numbers that the question's word may have if this is the answer. `None` if there are none.
    fn part(&self, question: Question, holds: bool) -> Option<Range>
        ensures { (call : SysCall) → IsAmong self.now call → answer_on call question ≡ holds
            → IsSomeAnd result (λ range. IsIn range (number_at call question.word.place)) }
    {
        let range = question.narrow(self.ranges[question.word.place], holds)?;
        if is_ruled_out(self.excluded.as_slice(), question.word, range)
            || is_out_of_bounds(
                self.bounded.as_slice(),
                question.word,
                range,
                question.bounds(holds),
            )
        {
            None
        } else {
            Some(range)
        }
    }

    /// Records this answer, which puts the question's word into this range.
    fn narrow(&mut self, question: Question, range: Range, holds: bool) -> Result<(), AllocError>
        ensures { IfOk result (λ _. (call : SysCall) → IsAmong self.old call → answer_on call question ≡ holds
            → IsIn range (number_at call question.word.place) → IsAmong self.new call) }
    {
        self.narrow_word(question, range, holds)?;
        match question.bounds(holds) {
            Some(bounds) if !range.knows(bounds.mask) => self.bound(bounds),
            _ => Ok(()),
        }
    }

    /// Records that the question's word is in this range, and which bits it does not have.
    fn narrow_word(
        &mut self,
        question: Question,
        range: Range,
        holds: bool,
    ) -> Result<(), AllocError>
        ensures { IfOk result (λ _. (call : SysCall) → IsAmong self.old call → answer_on call question ≡ holds
            → IsIn range (number_at call question.word.place) → IsAmong self.new call) }
    {
        self.ranges[question.word.place] = range;
        if let Some(excluded) = question.excluded(holds)
            && range.with_bits(excluded.mask, excluded.bits).is_some()
        {
            self.excluded.push(excluded)?;
        }
        Ok(())
    }

    /// Records these bounds.
    fn bound(&mut self, bounds: Bounded) -> Result<(), AllocError>
        ensures { IfOk result (λ _. (call : SysCall) → IsAmong self.old call → Keeps call bounds
            → IsAmong self.new call) }
    {
        self.bounded.push(bounds)?;
        Ok(())
    }
}

/// The bits below the lowest one of a mask.
fn free_low_bits(mask: u32) -> u32 {
    mask.wrapping_sub(1) & !mask
}

/// Whether all numbers of the range are excluded for this word, as far as a quick check shows.
fn is_ruled_out(excluded: &[Excluded], word: Word, range: Range) -> bool
    ensures { IsTrue result → (call : SysCall) → All (Avoids call) excluded.now
        → IsIn range (number_at call word.place) → ⊥ }
{
    if is_excluded(excluded, word, range) {
        return true;
    }
    if range.low > range.high || (range.high - range.low) as usize >= excluded.len() {
        return false;
    }
    for number in range.low..=range.high {
        if !lacks_number(excluded, word, range, number) {
            return false;
        }
    }
    true
}

/// Whether bounds of the word rule out that it is in the range and within the asked bounds.
fn is_out_of_bounds(bounded: &[Bounded], word: Word, range: Range, asked: Option<Bounded>) -> bool
    ensures { IsTrue result → (call : SysCall) → All (Keeps call) bounded.now
        → IsIn range (number_at call word.place)
        → IfSome asked (λ it. IsWithin it (number_at call word.place)) → ⊥ }
{
    for it in bounded {
        if it.word == word && it.rules_out(range, asked) {
            return true;
        }
    }
    false
}

/// Whether the number is excluded for this word, or does not have the range's bits.
fn lacks_number(excluded: &[Excluded], word: Word, range: Range, number: u32) -> bool
    ensures { IsTrue result → (call : SysCall) → All (Avoids call) excluded.now
        → IsIn range (number_at call word.place)
        → number_at call word.place ≢ number }
{
    if number & range.mask != range.bits {
        return true;
    }
    let single = Range {
        low: number,
        high: number,
        mask: u32::MAX,
        bits: number,
    };
    is_excluded(excluded, word, single)
}

/// Whether a single exclusion of this word covers the whole range.
fn is_excluded(excluded: &[Excluded], word: Word, range: Range) -> bool
    ensures { IsTrue result → (call : SysCall) → All (Avoids call) excluded.now
        → IsIn range (number_at call word.place) → ⊥ }
{
    for it in excluded {
        if it.word == word && it.covers(range) {
            return true;
        }
    }
    false
}
