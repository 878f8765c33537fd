ghost use Rattle.std.specs.Prelude.{◌≡◌, ◌≤◌, ◌<◌, ◌+◌, ◌-◌, ◌%◌, ◌^◌, ℕ, List, [], reverse, Some, slice_get};
ghost use Rattle.std.specs.Prelude.{take, length, IfOk, OnOk, IsTrue, bit_and, if◌then◌else◌, ◌==◌};
ghost use Rattle.compile.specs.Common.{Builds, IsRecent, DATA_LEN, MAX_INSNS, SysCall, IsSound, Runs, Gives};
ghost use Rattle.compile.specs.Common.{GivesAlways, data_word, holds_of, REACH, RECENT, Insn, IsBackward};
ghost use Rattle.compile.specs.Common.{PointsInside, Puts, operation_of};
ghost use Rattle.bpf_code.specs.declared.operation.Operation.TheVariants.{LoadData, ReturnK};

use bpf_code::{Insn, MAX_INSNS, Operation};
use bpf_verify::{Filter, verify};
use std::alloc::{AllocError, Global};
use std::marker::Model;

/// How many instructions a branch can skip.
pub(crate) const REACH: usize = 255;

/// How many of the latest instructions are searched for a return to share. The branches put in front next
/// still reach it.
pub(crate) const RECENT: usize = 200;

/// The place of what was put in front, unless memory runs out.
pub(crate) type Placed = Result<usize, AllocError>;

/// What a branch tests of A.
#[derive(Clone, Copy)]
pub(crate) enum Test {
    Equal,
    GreaterOrEqual,
    /// Whether any of these bits is set.
    AnyBit,
}

impl Test {
    fn operation(self) -> Operation
        ensures { result ≡ operation_of self }
    {
        match self {
            Test::Equal => Operation::JumpEqualK,
            Test::GreaterOrEqual => Operation::JumpGreaterOrEqualK,
            Test::AnyBit => Operation::JumpAnyBitK,
        }
    }
}

/// Code that is built from its last instruction to its first. A place counts the instructions after it, so it
/// stays the same while more are put in front.
#[derive(Drop)]
pub(crate) struct Code {
    insns: Vec<Insn>,
}

impl Model for Code {
    ghost Value = { List Insn };

    ghost view = { λ c. c.insns.items };

    ghost invariant = { λ c. IsBackward c.insns.items };
}

impl Code {
    /// No instructions.
    pub(crate) fn new(alloc: Global) -> Code
        ensures { result ≡ [] }
    {
        Code {
            insns: Vec::new(alloc),
        }
    }

    /// The number of instructions, which is the place of the next one.
    pub(crate) fn len(&self) -> usize
        ensures { result ≡ length self.now }
    {
        self.insns.len()
    }

    /// The instruction at a place.
    pub(crate) fn at(&self, place: usize) -> Insn
        requires { place < length self.now }
        ensures stands { slice_get self.now place ≡ Some result }
        ensures inside { PointsInside result.op result place }
    {
        self.insns[place]
    }

    /// Puts an instruction in front.
    fn put(&mut self, insn: Insn) -> Placed
        requires { PointsInside insn.op insn (length self.old) }
        ensures puts { OnOk result (Puts insn self.old self.new) }
        ensures at { IfOk result (λ at. at ≡ length self.old) }
        ensures longer { length self.new ≤ length self.old + 1 }
        ensures builds { Builds self.old self.new }
    {
        let at = self.insns.len();
        self.insns.push(insn)?;
        Ok(at)
    }

    /// The place of a return of this value: a recent one, or a new one.
    pub(crate) fn value(&mut self, value: u32) -> Placed
        ensures gives { IfOk result (λ at. (call : SysCall) (a : ℕ) → Gives self.new call at a value 1) }
        ensures recent { IfOk result (IsRecent self.new) }
        ensures longer { length self.new ≤ length self.old + 1 }
        ensures builds { Builds self.old self.new }
    {
        let len = self.len();
        for back in 0..RECENT.min(len) {
            let at = len - 1 - back;
            if returns(&self.at(at), value) {
                return Ok(at);
            }
        }
        self.put(Insn {
            op: Operation::ReturnK,
            jt: 0,
            jf: 0,
            k: value,
        })
    }

    /// Loads the word of the call's data at this offset, and goes on with the code.
    pub(crate) fn load(&mut self, offset: u32) -> Placed
        requires some { 0 < length self.old }
        requires inside { offset < DATA_LEN }
        requires aligned { offset % 4 ≡ 0 }
        ensures gives { OnOk result ((call : SysCall) (a value most : ℕ)
            → Gives self.old call (length self.old - 1) (data_word call offset) value most
            → Gives self.new call (length self.new - 1) a value (most + 1)) }
        ensures at { IfOk result (λ at. at + 1 ≡ length self.new) }
        ensures longer { OnOk result (length self.new ≡ length self.old + 1) }
        ensures builds { Builds self.old self.new }
    {
        self.put(Insn {
            op: Operation::LoadData,
            jt: 0,
            jf: 0,
            k: offset,
        })
    }

    /// Where to enter a place if A already has the word at this offset: a load of that word is skipped.
    pub(crate) fn past_load(&self, place: usize, offset: u32) -> usize
        requires { place < length self.now }
        ensures gives { (call : SysCall) (value most : ℕ) → GivesAlways self.now call place value most
            → Gives self.now call result (data_word call offset) value most }
        ensures inside { result < length self.now }
        ensures near { length self.now ≤ place + 1 + REACH → length self.now ≤ result + 1 + REACH }
    {
        let insn = self.at(place);
        if is_load(insn.op) && insn.k == offset && self.len() - place <= REACH {
            place - 1
        } else {
            place
        }
    }

    /// Keeps only these bits of A, and goes on with the code.
    pub(crate) fn mask(&mut self, bits: u32) -> Placed
        requires some { 0 < length self.old }
        ensures gives { OnOk result ((call : SysCall) (a value most : ℕ)
            → Gives self.old call (length self.old - 1) (bit_and a bits) value most
            → Gives self.new call (length self.new - 1) a value (most + 1)) }
        ensures at { IfOk result (λ at. at + 1 ≡ length self.new) }
        ensures longer { OnOk result (length self.new ≡ length self.old + 1) }
        ensures builds { Builds self.old self.new }
    {
        self.put(Insn {
            op: Operation::AndK,
            jt: 0,
            jf: 0,
            k: bits,
        })
    }

    /// Branches to one place if the test of A holds, else to the other.
    pub(crate) fn jump(&mut self, test: Test, k: u32, hit: usize, miss: usize) -> Placed
        requires hit_inside { hit < length self.old }
        requires miss_inside { miss < length self.old }
        requires hit_near { length self.old ≤ hit + 1 + REACH }
        requires miss_near { length self.old ≤ miss + 1 + REACH }
        ensures gives { OnOk result ((call : SysCall) (a value most : ℕ)
            → Gives self.old call (if holds_of test k a then hit else miss) a value most
            → Gives self.new call (length self.new - 1) a value (most + 1)) }
        ensures at { IfOk result (λ at. at + 1 ≡ length self.new) }
        ensures longer { OnOk result (length self.new ≡ length self.old + 1) }
        ensures builds { Builds self.old self.new }
    {
        let at = self.len();
        self.put(Insn {
            op: test.operation(),
            jt: (at - 1 - hit) as u8,
            jf: (at - 1 - miss) as u8,
            k,
        })
    }

    /// A place with the same effect, with at most `reach` instructions between it and the next one that is
    /// put in front.
    pub(crate) fn near(&mut self, place: usize, reach: usize) -> Placed
        requires inside { place < length self.old }
        requires within { reach ≤ REACH }
        requires short { length self.old < 2 ^ 32 }
        ensures near { IfOk result (λ at. length self.new ≤ at + 1 + reach) }
        ensures inside { IfOk result (λ at. at < length self.new) }
        ensures same { IfOk result (λ at. length self.old ≤ place + 1 + reach → (at ≡ place)
            × (self.new ≡ self.old)) }
        ensures gives { IfOk result (λ at. (call : SysCall) (a value most : ℕ)
            → Gives self.old call place a value most
            → Gives self.new call at a value (most + 1)) }
        ensures longer { length self.new ≤ length self.old + 1 }
        ensures builds { Builds self.old self.new }
    {
        let len = self.len();
        if len <= place + 1 + reach {
            return Ok(place);
        }
        let insn = self.at(place);
        if is_return(insn.op) {
            return self.put(insn);
        }
        self.put(Insn {
            op: Operation::Jump,
            jt: 0,
            jf: 0,
            k: (len - 1 - place) as u32,
        })
    }

    /// Whether the instruction at a place is a branch with this test and these targets.
    pub(crate) fn branches(&self, place: usize, test: Test, k: u32, hit: usize, miss: usize) -> bool
        requires inside { place < length self.now }
        ensures { IsTrue result → (call : SysCall) (a value most : ℕ)
            → Gives self.now call (if holds_of test k a then hit else miss) a value most
            → Gives self.now call place a value (most + 1) }
    {
        let insn = self.at(place);
        if !makes(insn.op, test) || insn.k != k || hit >= place || miss >= place {
            return false;
        }
        if place - 1 - hit != insn.jt as usize {
            return false;
        }
        place - 1 - miss == insn.jf as usize
    }

    /// Whether the code from a place returns the same value whatever is in A.
    pub(crate) fn is_steady(&self, place: usize) -> bool
        requires inside { place < length self.now }
        ensures { IsTrue result → (call : SysCall) (a value most : ℕ) → Gives self.now call place a value most
            → GivesAlways self.now call place value most }
    {
        let insn = self.at(place);
        if is_return(insn.op) {
            return true;
        }
        is_load(insn.op)
    }

    /// Whether a place loads the word at this offset.
    pub(crate) fn loads(&self, place: usize, offset: u32) -> bool
        ensures { IsTrue result → (place < length self.now) × ((call : SysCall) (a value most : ℕ)
            → Gives self.now call (place - 1) (data_word call offset) value most
            → Gives self.now call place a value (most + 1)) }
    {
        if place >= self.len() {
            return false;
        }
        let insn = self.at(place);
        if !is_load(insn.op) {
            return false;
        }
        insn.k == offset
    }

    /// Removes what was put in front last, down to this length.
    pub(crate) fn cut(&mut self, len: usize)
        ensures { self.new ≡ take len self.old }
    {
        self.insns.truncate(len);
    }

    /// The finished filter, which starts at the instruction that was put last.
    pub(crate) fn filter(self) -> Filter
        requires some { 0 < length self }
        requires short { length self ≤ MAX_INSNS }
        ensures sound { IsSound result }
        ensures long { length result ≡ length self }
        ensures runs { (call : SysCall) (value most : ℕ) → Gives self call (length self - 1) 0 value most
            → (steps : ℕ) × (steps ≤ most) × Runs result call value steps }
    {
        match verify(turned(self.insns)) {
            Ok(filter) => filter,
            Err(_) => unreachable!(),
        }
    }
}

/// The instructions in a filter's order.
fn turned(mut insns: Vec<Insn>) -> Vec<Insn>
    ensures { result.items ≡ reverse insns.items }
{
    insns.as_mut_slice().reverse();
    insns
}

/// Whether the operation is the branch for this test.
fn makes(op: Operation, test: Test) -> bool
    ensures { IsTrue result → op ≡ operation_of test }
{
    match test {
        Test::Equal => matches!(op, Operation::JumpEqualK),
        Test::GreaterOrEqual => matches!(op, Operation::JumpGreaterOrEqualK),
        Test::AnyBit => matches!(op, Operation::JumpAnyBitK),
    }
}

pub(crate) fn is_load(op: Operation) -> bool
    ensures { IsTrue result → op ≡ LoadData }
{
    matches!(op, Operation::LoadData)
}

fn is_return(op: Operation) -> bool
    ensures { IsTrue result → op ≡ ReturnK }
{
    matches!(op, Operation::ReturnK)
}

fn returns(insn: &Insn, value: u32) -> bool
    ensures { IsTrue result → (insn.now.op ≡ ReturnK) × (insn.now.k ≡ value) }
{
    is_return(insn.op) && insn.k == value
}
