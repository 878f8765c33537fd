ghost use Rattle.std.specs.Prelude.{◌≡◌, ◌≢◌, ◌<◌, ℕ, IfSome, IsTrue, true, false};
ghost use Rattle.compile.specs.Common.{SysCall, asks, atom_holds, seen, holds_of, WHOLE, Covers, IsProbe};

use crate::code::Test;
use bpf_code::DATA_LEN;

/// The mask that keeps a whole word.
pub(crate) const WHOLE: u32 = 0xffff_ffff;

/// The word of a call's data at an offset in bytes, under a mask.
#[derive(Clone, Copy, PartialEq, Eq)]
pub(crate) struct View {
    pub(crate) offset: u32,
    pub(crate) mask: u32,
}

/// Means that the contents of A are unknown: its offset is outside the data.
pub(crate) const NOWHERE: View = View {
    offset: DATA_LEN,
    mask: WHOLE,
};

/// A question about a number.
#[derive(Clone, Copy, PartialEq, Eq)]
pub(crate) enum Ask {
    Equal(u32),
    AtLeast(u32),
}

/// A question about a view of a call's data.
#[derive(Clone, Copy, PartialEq, Eq)]
pub(crate) struct Atom {
    pub(crate) view: View,
    pub(crate) ask: Ask,
}

/// The branch that asks a question: the view that A must have, the test, and whether a hit means no.
#[derive(Clone, Copy)]
pub(crate) struct Probe {
    pub(crate) base: View,
    pub(crate) test: Test,
    pub(crate) k: u32,
    pub(crate) is_turned: bool,
}

/// The word under the mask.
fn seen(mask: u32, word: u32) -> u32
    ensures { result ≡ seen mask word }
{
    if mask == WHOLE { word } else { word & mask }
}

impl Ask {
    /// The answer for a number.
    fn of(self, number: u32) -> bool
        ensures { result ≡ asks self number }
    {
        match self {
            Ask::Equal(k) => number == k,
            Ask::AtLeast(k) => number >= k,
        }
    }

    /// The test that asks this question.
    pub(crate) fn test(self) -> (Test, u32)
        ensures { (number : ℕ) → holds_of result.0 result.1 number ≡ asks self number }
    {
        match self {
            Ask::Equal(k) => (Test::Equal, k),
            Ask::AtLeast(k) => (Test::GreaterOrEqual, k),
        }
    }

    /// The answer for all numbers but this one, if it is the same for all.
    fn of_others(self, number: u32) -> Option<bool>
        ensures { IfSome result (λ holds. (other : ℕ) → asks (Ask.Equal number) other ≡ false
            → asks self other ≡ holds) }
    {
        match self {
            Ask::Equal(k) if k == number => Some(false),
            _ => None,
        }
    }

    /// The answer for all numbers from this one on, if it is the same for all.
    fn from(self, start: u32) -> Option<bool>
        ensures { IfSome result (λ holds. (number : ℕ) → asks (Ask.AtLeast start) number ≡ true
            → asks self number ≡ holds) }
    {
        match self {
            Ask::Equal(k) if k < start => Some(false),
            Ask::AtLeast(k) if k <= start => Some(true),
            _ => None,
        }
    }

    /// The answer for all numbers below this one, if it is the same for all.
    fn below(self, end: u32) -> Option<bool>
        ensures { IfSome result (λ holds. (number : ℕ) → asks (Ask.AtLeast end) number ≡ false
            → asks self number ≡ holds) }
    {
        match self {
            Ask::Equal(k) if k >= end => Some(false),
            Ask::AtLeast(k) if k >= end => Some(false),
            _ => None,
        }
    }

    /// The answer for all numbers for which another question has a given answer, if it is the same for all.
    fn where_known(self, given: Ask, answer: bool) -> Option<bool>
        ensures { IfSome result (λ holds. (number : ℕ) → asks given number ≡ answer
            → asks self number ≡ holds) }
    {
        match (given, answer) {
            (Ask::Equal(k), true) => Some(self.of(k)),
            (Ask::Equal(k), false) => self.of_others(k),
            (Ask::AtLeast(k), true) => self.from(k),
            (Ask::AtLeast(k), false) => self.below(k),
        }
    }
}

/// Whether a word under a mask determines the word under a part of that mask.
fn covers(mask: u32, part: u32) -> bool
    ensures { IsTrue result → (word : ℕ) → seen part (seen mask word) ≡ seen part word }
{
    if mask == WHOLE {
        return true;
    }
    if part == WHOLE {
        return false;
    }
    part & mask == part
}

impl View {
    /// Whether this view determines another one.
    pub(crate) fn covers(self, other: View) -> bool
        ensures { IsTrue result → Covers self other }
    {
        self.offset == other.offset && covers(self.mask, other.mask)
    }

    /// Whether both views are the same.
    pub(crate) fn is(self, other: View) -> bool
        ensures { IsTrue result → self ≡ other }
    {
        self.offset == other.offset && self.mask == other.mask
    }
}

impl Atom {
    /// Whether it asks if all bits of a mask are clear.
    fn is_clear(&self) -> bool
        ensures zero { IsTrue result → self.now.ask ≡ Ask.Equal 0 }
        ensures masked { IsTrue result → self.now.view.mask ≢ WHOLE }
    {
        match self.ask {
            Ask::Equal(0) => self.view.mask != WHOLE,
            _ => false,
        }
    }

    /// The branch that asks this, given the view in A. To ask whether bits are clear takes no mask: any view
    /// that determines them will do.
    pub(crate) fn probe(&self, view: View) -> Probe
        ensures { IsProbe self.now result }
    {
        if !self.is_clear() {
            let (test, k) = self.ask.test();
            return Probe {
                base: self.view,
                test,
                k,
                is_turned: false,
            };
        }
        let base = if view.covers(self.view) {
            view
        } else {
            View {
                offset: self.view.offset,
                mask: WHOLE,
            }
        };
        Probe {
            base,
            test: Test::AnyBit,
            k: self.view.mask,
            is_turned: true,
        }
    }

    /// The answer on calls where another question has the given answer, if that settles it.
    pub(crate) fn where_known(&self, given: &Atom, answer: bool) -> Option<bool>
        ensures { IfSome result (λ holds. (call : SysCall) → atom_holds given.now call ≡ answer
            → atom_holds self.now call ≡ holds) }
    {
        if self.view.offset != given.view.offset {
            return None;
        }
        if self.view.mask == given.view.mask {
            return self.ask.where_known(given.ask, answer);
        }
        match (given.ask, answer) {
            (Ask::Equal(k), true) => self.where_seen(given.view.mask, k),
            _ => self.where_asked(given, answer),
        }
    }

    /// The answer for words that are `k` under another mask, if that settles it.
    fn where_seen(&self, mask: u32, k: u32) -> Option<bool>
        ensures { IfSome result (λ holds. (word : ℕ) → seen mask word ≡ k
            → asks self.now.ask (seen self.now.view.mask word) ≡ holds) }
    {
        if covers(mask, self.view.mask) {
            return Some(self.ask.of(seen(self.view.mask, k)));
        }
        match self.ask {
            Ask::Equal(j) if seen(mask, j) != seen(self.view.mask, k) => Some(false),
            _ => None,
        }
    }

    /// No, if the other question answers differently for the number that this one asks for, or shows that the
    /// word is smaller than that number.
    fn where_asked(&self, given: &Atom, answer: bool) -> Option<bool>
        ensures { IfSome result (λ holds. (word : ℕ)
            → asks given.now.ask (seen given.now.view.mask word) ≡ answer
            → asks self.now.ask (seen self.now.view.mask word) ≡ holds) }
    {
        match self.ask {
            Ask::Equal(j) if self.is_told(j, given, answer) => Some(false),
            Ask::Equal(j) if !answer && given.is_below(j) => Some(false),
            _ => None,
        }
    }

    /// Whether the other question, about a part of this view, answers differently for this number.
    fn is_told(&self, number: u32, given: &Atom, answer: bool) -> bool
        ensures { IsTrue result → (word : ℕ) → seen self.now.view.mask word ≡ number
            → asks given.now.ask (seen given.now.view.mask word) ≢ answer }
    {
        if !covers(self.view.mask, given.view.mask) {
            return false;
        }
        given.ask.of(seen(given.view.mask, number)) != answer
    }

    /// Whether every word for which this answers no is below the number.
    fn is_below(&self, number: u32) -> bool
        ensures { IsTrue result → (word : ℕ) → asks self.now.ask (seen self.now.view.mask word) ≡ false
            → word < number }
    {
        match self.ask {
            Ask::AtLeast(k) => self.view.mask == WHOLE && k <= number,
            Ask::Equal(_) => false,
        }
    }
}
