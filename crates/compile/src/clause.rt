ghost use Rattle.std.specs.Prelude.{◌≡◌, ◌<◌, ◌+◌, ◌*◌, ◌/◌, ◌%◌, ◌^◌, ◌==◌, ◌||◌, ℕ, IsTrue, true, false};
ghost use Rattle.std.specs.Prelude.{not, ◌≢◌, bit_and, nat_le, nat_lt, slice_index, IfOk, IfSome, IfNone};
ghost use Rattle.std.specs.Bool.{OnFalse};
ghost use Rattle.compile.specs.Common.{SysCall, IsCall, data_word, asks, atom_holds, clause_holds};
ghost use Rattle.compile.specs.Common.{literal_holds, seen, IsPossible, IsSmall, IsSmallClause, WHOLE};
ghost use Rattle.compile.specs.Common.{Literal, DATA_LEN, clauses_hold, first_value};

use crate::atom::{Ask, Atom, View, WHOLE};
use call_data::words_of_fields;
use std::alloc::{AllocError, Global};

/// A question with the wanted answer, or a known answer.
#[derive(Clone, Copy, PartialEq, Eq)]
pub(crate) enum Literal {
    Known(bool),
    Asked(Atom, bool),
}

/// Holds if one of the two literals does.
#[derive(Clone, Copy, PartialEq, Eq)]
pub(crate) struct Clause {
    pub(crate) one: Literal,
    pub(crate) other: Literal,
}

/// The upper half of a number.
pub(crate) fn high(number: u64) -> u32
    ensures { result ≡ number / 2 ^ 32 }
{
    (number >> 32) as u32
}

/// The lower half of a number.
pub(crate) fn low(number: u64) -> u32
    ensures { result ≡ number % 2 ^ 32 }
{
    (number & 0xffff_ffff) as u32
}

/// Where a call's number, its architecture and the halves of its arguments are in its data.
#[tactic(auto, unfolding(crate::specs::Backward::data_word))]
pub(crate) fn words()
    ensures nr { (call : SysCall) → IsCall call → data_word call 0 ≡ call.nr }
    ensures arch { (call : SysCall) → IsCall call → data_word call 4 ≡ call.arch }
    ensures low { (call : SysCall) (i : ℕ) → IsCall call → i < 6
        → data_word call (16 + 8 * i) ≡ slice_index call.args i % 2 ^ 32 }
    ensures high { (call : SysCall) (i : ℕ) → IsCall call → i < 6
        → data_word call (20 + 8 * i) ≡ slice_index call.args i / 2 ^ 32 }
{
    words_of_fields();
}

/// Whether a number is a power of two.
fn is_power(number: u32) -> bool
    requires { 0 < number }
    ensures { IsTrue result → (k : ℕ) × (number ≡ 2 ^ k) }
{
    2u32.pow(number.ilog2()) == number
}

/// Asks this of a word under a mask.
fn asked(offset: u32, mask: u32, ask: Ask) -> Literal
    ensures holds { (call : SysCall) → literal_holds result call
        ≡ asks ask (seen mask (data_word call offset)) }
    ensures small { offset < DATA_LEN → offset % 4 ≡ 0 → IsSmall 3 result }
    ensures smaller { offset < DATA_LEN → offset % 4 ≡ 0 → mask ≡ WHOLE → IsSmall 2 result }
{
    let view = View { offset, mask };
    Literal::Asked(Atom { view, ask }, true)
}

impl Literal {
    /// The word is this number.
    pub(crate) fn equal(word: u32, k: u32) -> Literal
        ensures holds { (call : SysCall) → literal_holds result call ≡ (data_word call word == k) }
        ensures small { word < DATA_LEN → word % 4 ≡ 0 → IsSmall 2 result }
    {
        asked(word, WHOLE, Ask::Equal(k))
    }

    /// The word is at least this number.
    pub(crate) fn from(word: u32, k: u32) -> Literal
        ensures holds { (call : SysCall) → data_word call word < 2 ^ 32
            → literal_holds result call ≡ nat_le k (data_word call word) }
        ensures small { word < DATA_LEN → word % 4 ≡ 0 → IsSmall 2 result }
    {
        match k {
            0 => Literal::Known(true),
            1 => Literal::equal(word, 0).opposite(),
            u32::MAX => Literal::equal(word, k),
            _ => asked(word, WHOLE, Ask::AtLeast(k)),
        }
    }

    /// The word is above this number.
    pub(crate) fn above(word: u32, k: u32) -> Literal
        ensures holds { (call : SysCall) → data_word call word < 2 ^ 32
            → literal_holds result call ≡ nat_lt k (data_word call word) }
        ensures small { word < DATA_LEN → word % 4 ≡ 0 → IsSmall 2 result }
    {
        if k == u32::MAX {
            Literal::Known(false)
        } else {
            Literal::from(word, k + 1)
        }
    }

    /// The word under a mask is this number. Whether all high bits are clear is asked as an order, and
    /// whether one bit is set as the opposite of whether it is clear.
    pub(crate) fn masked(word: u32, mask: u32, with: u32) -> Literal
        ensures holds { (call : SysCall) → data_word call word < 2 ^ 32
            → literal_holds result call ≡ (bit_and (data_word call word) mask == with) }
        ensures small { word < DATA_LEN → word % 4 ≡ 0 → IsSmall 3 result }
    {
        if with & mask != with {
            return Literal::Known(false);
        }
        if mask == 0 {
            return Literal::Known(true);
        }
        let size = u32::MAX - mask + 1;
        if with == 0 && is_power(size) {
            return Literal::from(word, size).opposite();
        }
        if with == mask && mask != WHOLE && is_power(mask) {
            return asked(word, mask, Ask::Equal(0)).opposite();
        }
        asked(word, mask, Ask::Equal(with))
    }

    /// Holds if this one does not.
    pub(crate) fn opposite(self) -> Literal
        ensures holds { (call : SysCall) → literal_holds result call ≡ not (literal_holds self call) }
        ensures small { (n : ℕ) → IsSmall n self → IsSmall n result }
    {
        match self {
            Literal::Known(holds) => Literal::Known(!holds),
            Literal::Asked(atom, wanted) => Literal::Asked(atom, !wanted),
        }
    }

    /// What is left of it on calls where a question has this answer.
    fn where_known(self, given: &Atom, answer: bool) -> Literal
        ensures { (call : SysCall) → atom_holds given.now call ≡ answer
            → literal_holds result call ≡ literal_holds self call }
    {
        match self {
            Literal::Known(holds) => Literal::Known(holds),
            Literal::Asked(atom, wanted) => match atom.where_known(given, answer) {
                Some(holds) => Literal::Known(holds == wanted),
                None => self,
            },
        }
    }

    /// Whether this answer is known.
    pub(crate) fn is_known(self, answer: bool) -> bool
        ensures holds { IsTrue result → (call : SysCall) → literal_holds self call ≡ answer }
        ensures yes { IsTrue result → self ≡ Literal.Known answer }
        ensures no { OnFalse result (self ≢ Literal.Known answer) }
    {
        match self {
            Literal::Known(holds) => holds == answer,
            Literal::Asked(_, _) => false,
        }
    }
}

impl Clause {
    /// Holds if the literal does.
    pub(crate) fn of(one: Literal) -> Clause
        ensures holds { (call : SysCall) → clause_holds result call ≡ literal_holds one call }
        ensures small { (n : ℕ) → IsSmall n one → IsSmallClause n result }
    {
        Clause {
            one,
            other: Literal::Known(false),
        }
    }

    /// Holds if one of the literals does.
    pub(crate) fn either(one: Literal, other: Literal) -> Clause
        ensures holds { (call : SysCall) → clause_holds result call
            ≡ (literal_holds one call || literal_holds other call) }
        ensures small { (m n : ℕ) → IsSmall m one → IsSmall n other → IsSmallClause (m + n) result }
    {
        if one.is_known(false) {
            Clause {
                one: other,
                other: one,
            }
        } else {
            Clause { one, other }
        }
    }

    /// What is left of it on calls where a question has this answer.
    pub(crate) fn where_known(&self, given: &Atom, answer: bool) -> Clause
        ensures { (call : SysCall) → atom_holds given.now call ≡ answer
            → clause_holds result call ≡ clause_holds self.now call }
    {
        let one = self.one.where_known(given, answer);
        let other = self.other.where_known(given, answer);
        Clause::either(one, other)
    }

    /// Whether it is known to hold.
    pub(crate) fn is_true(&self) -> bool
        ensures { IsTrue result → (call : SysCall) → clause_holds self.now call ≡ true }
    {
        self.one.is_known(true) || self.other.is_known(true)
    }

    /// Whether it is known not to hold.
    pub(crate) fn is_false(&self) -> bool
        ensures yes { IsTrue result → (call : SysCall) → clause_holds self.now call ≡ false }
        ensures no { OnFalse result (IsPossible self.now) }
    {
        self.one.is_known(false) && self.other.is_known(false)
    }

    /// Whether it has only one literal to ask.
    pub(crate) fn is_alone(&self) -> bool {
        self.other.is_known(false)
    }
}

/// Returns its value if all its clauses hold.
#[derive(Drop)]
pub(crate) struct Rule {
    pub(crate) clauses: Vec<Clause>,
    pub(crate) value: u32,
}

/// What is left of clauses on calls where a question has this answer. None if one of them fails.
fn clauses_where(
    alloc: Global,
    clauses: &[Clause],
    given: &Atom,
    answer: bool,
) -> Result<Option<Vec<Clause>>, AllocError>
    ensures some { IfOk result (λ found. IfSome found (λ left. (call : SysCall)
        → atom_holds given.now call ≡ answer
        → clauses_hold left.items call ≡ clauses_hold clauses.now call)) }
    ensures none { IfOk result (λ found. IfNone found ((call : SysCall)
        → atom_holds given.now call ≡ answer → clauses_hold clauses.now call ≡ false)) }
{
    let mut left = Vec::new(alloc);
    for clause in clauses {
        let clause = clause.where_known(given, answer);
        if clause.is_false() {
            return Ok(None);
        }
        if !clause.is_true() {
            left.push(clause)?;
        }
    }
    Ok(Some(left))
}

/// What is left of rules on calls where a question has this answer, up to the first that always holds.
pub(crate) fn rules_where(
    alloc: Global,
    rules: &[Rule],
    given: &Atom,
    answer: bool,
) -> Result<Vec<Rule>, AllocError>
    ensures { IfOk result (λ left. (call : SysCall) (other : ℕ) → atom_holds given.now call ≡ answer
        → first_value left.items other call ≡ first_value rules.now other call) }
{
    let mut left = Vec::new(alloc);
    for rule in rules {
        if let Some(clauses) = clauses_where(alloc, rule.clauses.as_slice(), given, answer)? {
            let is_last = clauses.as_slice().is_empty();
            left.push(Rule {
                clauses,
                value: rule.value,
            })?;
            if is_last {
                return Ok(left);
            }
        }
    }
    Ok(left)
}
