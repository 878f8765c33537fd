ghost use Rattle.std.specs.Prelude.{◌≡◌, ◌≢◌, ◌<◌, ℕ, ◌^◌, IsTrue, IfSome, IsSomeAnd, bit_and};
ghost use Rattle.bpf_compare.specs.Known.{IsIn, IsWithin, Lacks, answer, answer_of};

use crate::bounded::Bounded;
use crate::range::Range;
use crate::word::Word;

/// How a number is compared with another one.
#[derive(Clone, Copy)]
pub(crate) enum Test {
    /// It is equal.
    Equal,
    /// It is greater.
    Greater,
}

impl Test {
    /// Whether it holds for this number.
    pub(crate) fn holds(self, number: u32, against: u32) -> bool
        ensures { result ≡ answer_of self number against }
    {
        match self {
            Test::Equal => number == against,
            Test::Greater => number > against,
        }
    }
}

/// A question about a word of the call's data: whether a test holds for the word under a mask.
#[derive(Clone, Copy)]
pub(crate) struct Question {
    pub(crate) word: Word,
    pub(crate) mask: u32,
    pub(crate) test: Test,
    pub(crate) against: u32,
}

/// Bits that a word of the call's data does not have.
#[derive(Clone, Copy)]
pub(crate) struct Excluded {
    pub(crate) word: Word,
    pub(crate) mask: u32,
    pub(crate) bits: u32,
}

impl Question {
    /// The numbers of a range for which this is the answer. `None` if there are none.
    pub(crate) fn narrow(self, range: Range, holds: bool) -> Option<Range>
        ensures { (n : ℕ) → IsIn range n → answer self n ≡ holds
            → IsSomeAnd result (λ narrowed. IsIn narrowed n) }
    {
        match (self.test, holds) {
            (Test::Equal, true) => range.with_bits(self.mask, self.against),
            (Test::Equal, false) => range.without_bits(self.mask, self.against),
            (Test::Greater, true) => range.above(self.mask, self.against),
            (Test::Greater, false) => range.at_most(self.mask, self.against),
        }
    }

    /// The bits that the word lacks if this is the answer, where the answer implies just that.
    pub(crate) fn excluded(self, holds: bool) -> Option<Excluded>
        ensures word { IfSome result (λ it. it.word ≡ self.word) }
        ensures lacks { (n : ℕ) → answer self n ≡ holds → IfSome result (λ it. Lacks it n) }
    {
        let bits = match (self.test, holds) {
            (Test::Equal, false) => self.against,
            (Test::Greater, true) if self.against == 0 => 0,
            _ => return None,
        };
        Some(Excluded {
            word: self.word,
            mask: self.mask,
            bits,
        })
    }

    /// The bounds of the word under the mask if this is the answer, where a range can't express them.
    pub(crate) fn bounds(self, holds: bool) -> Option<Bounded>
        ensures word { IfSome result (λ it. it.word ≡ self.word) }
        ensures within { (n : ℕ) → answer self n ≡ holds → IfSome result (λ it. IsWithin it n) }
    {
        let (low, high) = match (self.test, holds) {
            _ if self.mask == u32::MAX => return None,
            (Test::Greater, true) if self.against < self.mask => (self.against + 1, self.mask),
            (Test::Greater, false) => (0, self.against),
            _ => return None,
        };
        Some(Bounded {
            word: self.word,
            mask: self.mask,
            low,
            high,
        })
    }
}

impl Excluded {
    /// The bits of this number, all of them.
    #[tactic(auto, using(std::proofs::lemmas::Nat::and_mask))]
    pub(crate) fn all_of(word: Word, number: u32) -> Excluded
        ensures word { result.word ≡ word }
        ensures lacks { (n : ℕ) → n < 2 ^ 32 → n ≢ number → Lacks result n }
    {
        Excluded {
            word,
            mask: u32::MAX,
            bits: number,
        }
    }

    /// Whether this number has these bits.
    pub(crate) fn has(&self, number: u32) -> bool {
        number & self.mask == self.bits
    }

    /// Whether all numbers of the range have these bits.
    pub(crate) fn covers(&self, range: Range) -> bool
        ensures { IsTrue result → (n : ℕ) → IsIn range n → bit_and n self.now.mask ≡ self.now.bits }
    {
        range.has_bits(self.mask, self.bits)
    }
}
