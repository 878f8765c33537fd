ghost use Rattle.std.specs.Prelude.{◌≡◌, ◌<◌, ℕ, ◌^◌, IfSome, IsTrue, bit_and};
ghost use Rattle.bpf_compare.specs.Known.{IsIn, IsWithin};

use crate::range::Range;
use crate::word::Word;

/// Bounds, both included, of a word of the call's data under a mask.
#[derive(Clone, Copy)]
pub(crate) struct Bounded {
    pub(crate) word: Word,
    pub(crate) mask: u32,
    pub(crate) low: u32,
    pub(crate) high: u32,
}

impl Bounded {
    /// Whether this number is within the bounds.
    pub(crate) fn has(&self, number: u32) -> bool {
        let part = number & self.mask;
        self.low <= part && part <= self.high
    }

    /// Whether the range has no number within the bounds, judged by its known bits.
    fn misses(&self, range: Range) -> bool
        ensures { IsTrue result → (n : ℕ) → IsIn range n → IsWithin self.now n → ⊥ }
    {
        range.least(self.mask) > self.high || range.greatest(self.mask) < self.low
    }

    /// Whether no number of the range is within both these bounds and the asked ones.
    pub(crate) fn rules_out(&self, range: Range, asked: Option<Bounded>) -> bool
        ensures { IsTrue result → (n : ℕ) → IsIn range n → IfSome asked (λ it. IsWithin it n)
            → IsWithin self.now n → ⊥ }
    {
        match asked {
            Some(asked) if self.contradicts(asked) => true,
            _ => self.misses(range),
        }
    }

    /// Whether no number is within the bounds of both. Different masks are not compared.
    fn contradicts(&self, other: Bounded) -> bool
        ensures { IsTrue result → (n : ℕ) → IsWithin self.now n → IsWithin other n → ⊥ }
    {
        self.mask == other.mask && (self.low > other.high || other.low > self.high)
    }
}
