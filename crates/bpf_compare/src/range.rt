ghost use Rattle.std.specs.Prelude.{◌≡◌, ◌≢◌, ◌<◌, ◌≤◌, ◌^◌, ℕ, bit_and, IsSomeAnd, IsTrue, ◌==◌, Bool};
ghost use Rattle.bpf_compare.specs.Known.{IsIn};

use call_data::NATIVE_ARCH;

/// Numbers between two bounds, both included, that have certain bits.
#[derive(Clone, Copy)]
pub(crate) struct Range {
    pub(crate) low: u32,
    pub(crate) high: u32,
    /// Which bits are known.
    pub(crate) mask: u32,
    /// What they are. Bits that are not known are 0 here.
    pub(crate) bits: u32,
}

impl Range {
    /// All numbers.
    pub(crate) const ALL: Range = Range {
        low: 0,
        high: u32::MAX,
        mask: 0,
        bits: 0,
    };

    /// The numbers of calls of x86-64, without those of x32.
    pub(crate) const BELOW_X32: Range = Range {
        low: 0,
        high: 0x3fff_ffff,
        mask: 0,
        bits: 0,
    };

    /// The architecture of x86-64.
    pub(crate) const NATIVE: Range = Range {
        low: NATIVE_ARCH,
        high: NATIVE_ARCH,
        mask: u32::MAX,
        bits: NATIVE_ARCH,
    };

    /// The numbers between two bounds, both included.
    pub(crate) fn between(low: u32, high: u32) -> Range
        ensures { (n : ℕ) → low ≤ n → n ≤ high → IsIn result n }
    {
        let mask = shared_bits(low, high);
        Range {
            low,
            high,
            mask,
            bits: low & mask,
        }
    }

    /// The same numbers, with bounds and known bits that narrow each other. None only if there are no
    /// numbers.
    fn settled(self) -> Option<Range>
        ensures { (n : ℕ) → IsIn self n → IsSomeAnd result (λ range. IsIn range n) }
    {
        self.within_bits()?.with_shared_bits()?.within_bits()
    }

    /// The same numbers, with bounds that the known bits allow: at least these bits, and at most these with
    /// all others set. None only if there are no numbers.
    fn within_bits(self) -> Option<Range>
        ensures { (n : ℕ) → IsIn self n → IsSomeAnd result (λ range. IsIn range n) }
    {
        let low = self.low.max(self.bits);
        let greatest = u32::MAX - self.mask.saturating_sub(self.bits);
        let high = self.high.min(greatest);
        if low > high {
            None
        } else {
            Some(Range { low, high, ..self })
        }
    }

    /// The same numbers, with the bits that both bounds share as known bits. None only if there are no
    /// numbers.
    fn with_shared_bits(self) -> Option<Range>
        ensures { (n : ℕ) → IsIn self n → IsSomeAnd result (λ range. IsIn range n) }
    {
        let shared = shared_bits(self.low, self.high);
        let bits = self.low & shared;
        if self.bits & shared == bits & self.mask {
            Some(Range {
                mask: self.mask | shared,
                bits: self.bits | bits,
                ..self
            })
        } else {
            None
        }
    }

    /// Whether the number is within the bounds and has the bits.
    pub(crate) fn has(self, number: u32) -> bool {
        self.low <= number && number <= self.high && number & self.mask == self.bits
    }

    /// Whether all bits under the mask are known.
    pub(crate) fn knows(self, mask: u32) -> bool {
        mask & !self.mask == 0
    }

    /// Its numbers that are at least this one.
    fn from(self, least: u32) -> Option<Range>
        ensures { (n : ℕ) → IsIn self n → least ≤ n → IsSomeAnd result (λ range. IsIn range n) }
    {
        let range = Range {
            low: self.low.max(least),
            high: self.high,
            mask: self.mask,
            bits: self.bits,
        };
        range.settled()
    }

    /// Its numbers that are at most this one.
    fn to(self, most: u32) -> Option<Range>
        ensures { (n : ℕ) → IsIn self n → n ≤ most → IsSomeAnd result (λ range. IsIn range n) }
    {
        let range = Range {
            low: self.low,
            high: self.high.min(most),
            mask: self.mask,
            bits: self.bits,
        };
        range.settled()
    }

    /// Its numbers that have these bits under the mask.
    pub(crate) fn with_bits(self, mask: u32, bits: u32) -> Option<Range>
        ensures { (n : ℕ) → IsIn self n → bit_and n mask ≡ bits → IsSomeAnd result (λ range. IsIn range n) }
    {
        if bits & mask != bits {
            return None;
        }
        if self.bits & mask != bits & self.mask {
            return None;
        }
        let range = Range {
            low: self.low,
            high: self.high,
            mask: self.mask | mask,
            bits: self.bits | bits,
        };
        range.settled()
    }

    /// Whether all its numbers have these bits under the mask.
    pub(crate) fn has_bits(self, mask: u32, bits: u32) -> bool
        ensures { IsTrue result → (n : ℕ) → IsIn self n → bit_and n mask ≡ bits }
    {
        mask & self.mask == mask && self.bits & mask == bits
    }

    /// The least value of its numbers under a mask, judged by their known bits.
    pub(crate) fn least(self, mask: u32) -> u32
        ensures { (n : ℕ) → IsIn self n → result ≤ bit_and n mask }
    {
        self.bits & mask
    }

    /// The greatest value of its numbers under a mask, judged by their known bits.
    pub(crate) fn greatest(self, mask: u32) -> u32
        ensures { (n : ℕ) → IsIn self n → bit_and n mask ≤ result }
    {
        let lacked = self.mask & !self.bits;
        mask & !lacked
    }

    /// Its numbers that do not have these bits under the mask, and maybe others.
    pub(crate) fn without_bits(self, mask: u32, bits: u32) -> Option<Range>
        ensures { (n : ℕ) → IsIn self n → bit_and n mask ≢ bits → IsSomeAnd result (λ range. IsIn range n) }
    {
        if self.has_bits(mask, bits) {
            None
        } else if mask == u32::MAX {
            self.without(bits)
        } else if bits == 0 && is_one_bit(mask) {
            self.with_bits(mask, mask)
        } else if bits == mask && is_one_bit(mask) {
            self.with_bits(mask, 0)
        } else {
            Some(self)
        }
    }

    /// Its numbers that are not this one, and maybe this one too, if it is not a bound.
    fn without(self, number: u32) -> Option<Range>
        ensures { (n : ℕ) → IsIn self n → n ≢ number → IsSomeAnd result (λ range. IsIn range n) }
    {
        if self.low == self.high && self.low == number {
            None
        } else if self.low == number && number < u32::MAX {
            self.from(number + 1)
        } else if self.high == number && number > 0 {
            self.to(number - 1)
        } else {
            Some(self)
        }
    }

    /// Its numbers that are greater than this one under the mask, and maybe others.
    pub(crate) fn above(self, mask: u32, number: u32) -> Option<Range>
        ensures { (n : ℕ) → IsIn self n → number < bit_and n mask → IsSomeAnd result (λ range. IsIn range n) }
    {
        if number >= mask || (number == 0 && self.has_bits(mask, 0)) {
            None
        } else if is_one_bit(mask) {
            self.with_bits(mask, mask)
        } else {
            self.from(number + 1)
        }
    }

    /// Its numbers that are at most this one under the mask, and maybe others.
    pub(crate) fn at_most(self, mask: u32, number: u32) -> Option<Range>
        ensures { (n : ℕ) → IsIn self n → bit_and n mask ≤ number → IsSomeAnd result (λ range. IsIn range n) }
    {
        if mask == u32::MAX {
            self.to(number)
        } else if number == 0 {
            self.with_bits(mask, 0)
        } else {
            Some(self)
        }
    }
}

/// A mask of the bits that all numbers between two bounds share: those above the highest in which the bounds
/// differ.
fn shared_bits(low: u32, high: u32) -> u32
    ensures { (n : ℕ) → n < 2 ^ 32 → low ≤ n → n ≤ high → bit_and n result ≡ bit_and low result }
{
    if low == high {
        return u32::MAX;
    }
    let count = 32 - (low ^ high).leading_zeros();
    if count < 32 && low >> count == high >> count {
        u32::MAX << count
    } else {
        0
    }
}

/// Whether the mask is a single bit.
fn is_one_bit(mask: u32) -> bool
    ensures { IsTrue result → (n : ℕ) → bit_and n mask ≢ 0 → bit_and n mask ≡ mask }
{
    let place = mask.trailing_zeros();
    place < 32 && mask == 1 << place
}
