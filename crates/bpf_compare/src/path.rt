ghost use Rattle.std.specs.Prelude.{◌≡◌, IfOk, List, Some};
ghost use Rattle.bpf_code.specs.declared.insn.Insn.{Insn};
ghost use Rattle.call_data.specs.declared.sys_call.SysCall.{SysCall};
ghost use Rattle.bpf_compare.specs.Agree.{IsOf};
ghost use Rattle.bpf_compare.specs.declared.scope.Scope.{Scope};
ghost use Rattle.bpf_compare.specs.declared.value.Value.{Value};
ghost use Rattle.bpf_compare.specs.Known.{IsAmong};
ghost use Rattle.bpf_compare.specs.Paths.{Becomes, Meets, ReturnsAs, Takes, Tells};

use crate::asking::{any_question, value_question, wrong_word_question};
use crate::comparison::Comparison;
use crate::difference::difference;
use crate::known::{Known, Left};
use crate::question::Question;
use crate::scope::Scope;
use crate::step::Registers;
use crate::value::Value;
use crate::walk::{Turn, Walk};
use crate::witness::witness;
use bpf_verify::Filter;
use std::alloc::{AllocError, Global};

/// Where a set of calls is on its way through two filters, one after the other.
#[derive(Drop)]
pub(crate) struct Path {
    /// What the first filter returned, once it did.
    pub(crate) first: Option<Value>,
    /// The walk through the first filter, and then through the second one.
    pub(crate) walk: Walk,
}

/// The result of a step of a path.
#[derive(Drop)]
pub(crate) enum Progress {
    /// It goes on.
    Goes,
    /// It goes on with some of its calls, and this new path with the others.
    Splits(Path),
    /// It goes on with some of its calls, and the others are left out.
    Narrows,
    /// Both filters return the same value on all its calls, if it has any.
    Agrees,
    /// They return different values on the call of this result.
    Differs(Comparison),
    /// It depends on a value that is not tracked.
    Unclear,
}

impl Path {
    /// All calls of the scope, at the start of the first filter.
    pub(crate) fn start(alloc: Global, scope: Scope) -> Result<Path, AllocError>
        ensures { IfOk result (λ path. (first second : List Insn) (call : SysCall) → IsOf scope call
            → Takes first second call path) }
    {
        Ok(Path {
            first: None,
            walk: Walk {
                registers: Registers::START,
                words: [Value::Unknown; 16],
                known: Known::new(alloc, scope)?,
            },
        })
    }

    /// Goes on by one instruction, or learns a bit of its calls.
    pub(crate) fn advance(
        &mut self,
        alloc: Global,
        first: &Filter,
        second: &Filter,
        scope: Scope,
    ) -> Result<Progress, AllocError>
        ensures becomes { IfOk result (λ progress. (call : SysCall) → IsOf scope call
            → Takes first.now second.now call self.old
            → Becomes progress first.now second.now call self.new) }
        ensures told { IfOk result (λ progress. Tells progress scope first.now second.now) }
    {
        match self.first {
            None => match self.walk.advance(alloc, first)? {
                Turn::Goes => Ok(Progress::Goes),
                Turn::Splits(walk) => Ok(Progress::Splits(Path { first: None, walk })),
                Turn::Ends(value) => {
                    self.first = Some(value);
                    self.walk.restart();
                    Ok(Progress::Goes)
                }
                Turn::Narrows => Ok(Progress::Narrows),
                Turn::Empty => Ok(Progress::Agrees),
                Turn::Unclear => Ok(Progress::Unclear),
            },
            Some(value) => match self.walk.advance(alloc, second)? {
                Turn::Goes => Ok(Progress::Goes),
                Turn::Splits(walk) => Ok(Progress::Splits(Path {
                    first: Some(value),
                    walk,
                })),
                Turn::Ends(other) => self.meet(alloc, first, second, scope, value, other),
                Turn::Narrows => Ok(Progress::Narrows),
                Turn::Empty => Ok(Progress::Agrees),
                Turn::Unclear => Ok(Progress::Unclear),
            },
        }
    }

    /// Compares what the filters return. If the values may differ, it looks for a call of the path on which
    /// they do. If it finds none, it learns a bit of its calls, and goes through the second filter once more.
    fn meet(
        &mut self,
        alloc: Global,
        first: &Filter,
        second: &Filter,
        scope: Scope,
        one: Value,
        other: Value,
    ) -> Result<Progress, AllocError>
        ensures becomes { IfOk result (λ progress. (call : SysCall) → IsOf scope call
            → Meets first.now second.now call self.old one other
            → Becomes progress first.now second.now call self.new) }
        ensures told { IfOk result (λ progress. Tells progress scope first.now second.now) }
    {
        let known = &self.walk.known;
        let (one, other) = (known.constant(one), known.constant(other));
        if one.is_same(other) {
            return Ok(Progress::Agrees);
        }
        let call = witness(known);
        if let Some(found) = difference(first, second, scope, call) {
            return Ok(Progress::Differs(found));
        }
        if matches!(one, Value::Unknown) || matches!(other, Value::Unknown) {
            return Ok(Progress::Unclear);
        }
        let asked = wrong_word_question(known, call)
            .or(value_question(known, one))
            .or(value_question(known, other));
        match asked.or(any_question(known)) {
            Some(question) => self.restart_with(alloc, question),
            None => Ok(Progress::Agrees),
        }
    }

    /// Learns the answer to a question, and goes through the second filter from its start.
    fn restart_with(&mut self, alloc: Global, question: Question) -> Result<Progress, AllocError>
        ensures becomes { IfOk result (λ progress. (first second : List Insn) (call : SysCall) (one : Value)
            → self.old.first ≡ Some one → ReturnsAs first call one → IsAmong self.old.walk.known call
            → Becomes progress first second call self.new) }
        ensures tells_none { IfOk result (λ progress. (scope : Scope) (first second : List Insn)
            → Tells progress scope first second) }
    {
        self.walk.restart();
        match self.walk.known.ask(alloc, question)? {
            Left::None => Ok(Progress::Agrees),
            Left::All => Ok(Progress::Goes),
            Left::Both(known) => Ok(Progress::Splits(Path {
                first: self.first,
                walk: self.walk.with(known),
            })),
        }
    }
}
