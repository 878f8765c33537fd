ghost use Rattle.std.specs.Prelude.{◌≡◌, IfOk, List};
ghost use Rattle.bpf_code.specs.declared.insn.Insn.{Insn};
ghost use Rattle.call_data.specs.declared.sys_call.SysCall.{SysCall};
ghost use Rattle.call_data.specs.CallData.{IsCall};
ghost use Rattle.bpf_compare.specs.Known.{IsAmong};
ghost use Rattle.bpf_compare.specs.Paths.{Follows, TurnsTo};

use crate::asking::number_question;
use crate::known::{Known, Left, Split};
use crate::question::{Question, Test};
use crate::step::{After, Registers, step, wanted};
use crate::value::Value;
use bpf_code::Insn;
use bpf_machine::sound_code_runs;
use bpf_verify::Filter;
use std::alloc::{AllocError, Global};

/// Where a set of calls is on its way through a filter.
#[derive(Drop)]
pub(crate) struct Walk {
    pub(crate) registers: Registers,
    pub(crate) words: [Value; 16],
    pub(crate) known: Known,
}

/// The result of a step of a walk.
#[derive(Drop)]
pub(crate) enum Turn {
    /// It goes on.
    Goes,
    /// It goes on with some of its calls, and this new walk with the others.
    Splits(Walk),
    /// It goes on with some of its calls, and the others are left out.
    Narrows,
    /// The filter returned this value.
    Ends(Value),
    /// It has no calls.
    Empty,
    /// It depends on a value that is not tracked.
    Unclear,
}

impl Walk {
    /// At the start of a filter, with the same calls.
    pub(crate) fn restart(&mut self)
        ensures kept { self.new.known ≡ self.old.known }
        ensures follows { (code : List Insn) (call : SysCall) → IsAmong self.old.known call
            → Follows code call self.new }
    {
        // The scratch words may stay: a filter loads none that it did not store.
        self.registers = Registers::START;
    }

    /// At the same place, with these calls.
    pub(crate) fn with(&self, known: Known) -> Walk
        ensures { result ≡ record { registers = self.now.registers; words = self.now.words; known = known } }
    {
        Walk {
            registers: self.registers,
            words: self.words,
            known,
        }
    }

    /// Goes on by one instruction, or learns a bit of what the next one depends on.
    pub(crate) fn advance(&mut self, alloc: Global, filter: &Filter) -> Result<Turn, AllocError>
        ensures { IfOk result (λ turn. (call : SysCall) → IsCall call
            → Follows filter.now call self.old → TurnsTo turn filter.now call self.new) }
    {
        self.registers = Registers {
            place: self.registers.place,
            a: self.known.constant(self.registers.a),
            x: self.known.constant(self.registers.x),
        };
        match self.wanted(filter.insns()) {
            Some(question) => self.learn(alloc, question),
            None => self.execute(alloc, filter),
        }
    }

    /// A question whose answer must be known before the next instruction can be followed.
    fn wanted(&self, code: &[Insn]) -> Option<Question> {
        let insn = code.get(self.registers.place)?;
        number_question(&self.known, wanted(self.registers, insn.op))
    }

    /// Learns the answer to a question at the same place. If it was about a certain number, only the calls
    /// with this number go on.
    fn learn(&mut self, alloc: Global, question: Question) -> Result<Turn, AllocError>
        ensures { IfOk result (λ turn. (code : List Insn) (call : SysCall) → Follows code call self.old
            → TurnsTo turn code call self.new) }
    {
        match self.known.ask(alloc, question)? {
            Left::None => Ok(Turn::Empty),
            Left::All => Ok(Turn::Goes),
            Left::Both(known) => match question.test {
                Test::Greater => Ok(Turn::Splits(self.with(known))),
                Test::Equal => Ok(Turn::Narrows),
            },
        }
    }

    /// Goes on by one instruction.
    fn execute(&mut self, alloc: Global, filter: &Filter) -> Result<Turn, AllocError>
        ensures { IfOk result (λ turn. (call : SysCall) → IsCall call
            → Follows filter.now call self.old → TurnsTo turn filter.now call self.new) }
    {
        sound_code_runs();
        let code = filter.insns();
        if self.registers.place >= code.len() {
            return Ok(Turn::Unclear);
        }
        let insn = &code[self.registers.place];
        let skip_jt = self.registers.skip(insn.jt as u32);
        let skip_jf = self.registers.skip(insn.jf as u32);
        match step(self.registers, insn, &mut self.words) {
            After::Goes(a, x) => {
                self.registers = self.registers.next(a, x);
                Ok(Turn::Goes)
            }
            After::Holds => {
                self.registers = skip_jt;
                Ok(Turn::Goes)
            }
            After::Fails => {
                self.registers = skip_jf;
                Ok(Turn::Goes)
            }
            After::Skips => {
                self.registers = self.registers.skip(insn.k);
                Ok(Turn::Goes)
            }
            After::Asks(question) => match self.known.split(alloc, question)? {
                Split::Holds => {
                    self.registers = skip_jt;
                    Ok(Turn::Goes)
                }
                Split::Fails => {
                    self.registers = skip_jf;
                    Ok(Turn::Goes)
                }
                Split::Both(other) => {
                    self.registers = skip_jt;
                    Ok(Turn::Splits(Walk {
                        registers: skip_jf,
                        words: self.words,
                        known: other,
                    }))
                }
            },
            After::Ends(value) => Ok(Turn::Ends(value)),
            After::Unclear => Ok(Turn::Unclear),
        }
    }
}
