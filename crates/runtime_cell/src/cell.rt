ghost use Rattle.std.specs.Prelude.{◌≡◌, ◌+◌, ◌<◌, ◌≤◌, ◌++◌, ◌∷◌, [], IfOk, IfSome, IsTrue, option_map};
ghost use Rattle.std.specs.Prelude.{count_by, drop, length, not, option_to_list, slice_get};
ghost use Rattle.verdict.specs.Stack.{AllSound};
ghost use Rattle.runtime_cell.specs.Cell.{Confines, FollowsScript, Steps, alone, exit_of, filters_of, fresh};
ghost use Rattle.runtime_cell.specs.Cell.{killed, started, step_in, told_of_entry};
ghost use Rattle.runtime_cell.specs.Keeps.{IsUnended, next_by};
ghost use Rattle.runtime_cell.specs.Outcome.{IsNext, has_place};

use crate::acts::{Act, call_act, code_at, install_act};
use crate::calls::{JudgedCall, install_call};
use crate::copies::{copies, take_copy};
use crate::label::{Label, Text};
use crate::record::{Counts, Record};
use action::Verdict;
use bpf_verify::Filter;
use oci_profile::Profile;
use script::{Script, Step};
use std::alloc::{AllocError, Global};
use std::collections::VecDeque;
use std::marker::Model;
use verdict::{Stack, stacks_judge_every_call};

/// The result of a step of a cell.
#[derive(Clone, Copy, Debug, PartialEq, Eq)]
pub enum Did {
    /// The script is not running, and nothing changed.
    Idle,
    /// A call was performed, and the script goes on.
    Performed,
    /// A call was not performed, for this verdict, and the script goes on.
    Denied(Verdict),
    /// The script ended with the code.
    Ended(u8),
}

/// The state of a container: the states of CRI v1, except for the unknown one.
#[derive(Clone, Copy, Debug, PartialEq, Eq)]
pub enum State {
    /// It was made, and was not started.
    Created,
    /// It was started, and its script has not ended.
    Running,
    /// Its script ended with the code, by itself, or killed from outside.
    Exited { code: u8, killed: bool },
}

/// A container: its script under its filters, its state and its record.
#[derive(Drop)]
pub struct Cell {
    label: Label,
    script: Script,
    profile: Option<Profile>,
    stack: Stack,
    /// How many of the filters were installed at the start.
    start: usize,
    /// Copies of the filters that the rest of the script installs.
    copies: VecDeque<Filter>,
    entries: Record,
    state: State,
}

impl Model for Cell {
    ghost use Rattle.std.specs.Prelude.{◌≤◌, length, take, drop};
    ghost use Rattle.runtime_cell.specs.Cell.{Cell, FollowsScript, IsWellMade};
    ghost use Rattle.runtime_cell.specs.Keeps.{IsReadyIn, seen};

    ghost Value = { Cell };

    ghost view = { λ c. seen c.label c.script c.profile c.stack.filters c.start c.entries.items c.state };

    // The record has room for an entry of each step, and the stack for each filter that is installed.
    ghost invariant = { λ c. (c.start ≤ length c.stack.filters) × (length c.script ≤ c.entries.room)
        × IsReadyIn c.state c.script (length c.entries.items) c.copies.items c.stack.room
        × IsWellMade (seen c.label c.script c.profile c.stack.filters c.start c.entries.items c.state).making
        × FollowsScript (seen c.label c.script c.profile c.stack.filters c.start c.entries.items c.state) };
}

impl Cell {
    /// A container that was not started, with these filters. The newest is that of its profile, if it has
    /// one. All memory that its steps need is allocated here.
    pub fn created(
        alloc: Global,
        label: Label,
        script: Script,
        stack: Stack,
        profile: Option<Profile>,
    ) -> Result<Cell, AllocError>
        requires { Confines stack.filters profile }
        ensures { IfOk result (λ cell. cell ≡ fresh
            (record { label = label; script = script; stack = stack.filters; profile = profile })
            State.Created) }
    {
        Cell::fresh(alloc, label, script, stack, profile, State::Created)
    }

    /// A container that runs, without a profile, name or image, at this attempt.
    pub fn playing(
        alloc: Global,
        script: Script,
        stack: Stack,
        attempt: u32,
    ) -> Result<Cell, AllocError>
        ensures { IfOk result (λ cell. cell ≡ fresh (alone script stack.filters attempt) State.Running) }
    {
        let label = Label {
            id: 0,
            name: Text::new(String::new(alloc)),
            attempt,
            image: Text::new(String::new(alloc)),
            path: None,
        };
        Cell::fresh(alloc, label, script, stack, None, State::Running)
    }

    /// Starts the script of a container that was not started. Does nothing to any other.
    pub fn start(&mut self)
        ensures { self.new ≡ started self.old }
    {
        if self.state == State::Created {
            self.state = State::Running;
        }
    }

    /// Ends the script from outside with this code, unless it has ended.
    pub fn kill(&mut self, code: u8)
        ensures { self.new ≡ killed code self.old }
    {
        match self.state {
            State::Created | State::Running => self.state = State::Exited { code, killed: true },
            State::Exited { .. } => {}
        }
    }

    /// Does the script's next step, if it runs.
    pub fn step(&mut self) -> Did
        ensures step { Steps self.old result self.new }

        // The script goes on only if an entry is added.
        ensures onward { self.new.state ≡ State.Running
            → (length self.new.entries ≡ length self.old.entries + 1)
            × (length self.new.entries ≤ length self.new.making.script) }
        ensures making { self.new.making ≡ self.old.making }
    {
        stacks_judge_every_call();
        let State::Running = self.state else {
            return Did::Idle;
        };
        let act = self.act();
        let copy = take_copy(&mut self.copies, self.script.steps(), self.entries.len());
        match act {
            Act::Goes(entry) => {
                drop(copy);
                self.entries.add(entry);
                told_of(entry)
            }
            Act::Adds(entry) => {
                self.entries.add(entry);
                install(&mut self.stack, copy);
                told_of(entry)
            }
            Act::Stops(entry, code) => {
                drop(copy);
                self.entries.add(entry);
                self.state = State::Exited {
                    code,
                    killed: false,
                };
                Did::Ended(code)
            }
            Act::Over(code) => {
                drop(copy);
                self.state = State::Exited {
                    code,
                    killed: false,
                };
                Did::Ended(code)
            }
        }
    }

    /// The judged calls so far.
    pub fn record(&self) -> &[JudgedCall]
        ensures value { result.now ≡ self.now.entries }
        ensures follows { FollowsScript self.now }
        ensures sound { AllSound self.now.making.stack }
        ensures confined { Confines self.now.making.stack self.now.making.profile }
    {
        self.entries.as_slice()
    }

    /// Which container it is.
    pub fn label(&self) -> &Label
        ensures { result.now ≡ self.now.making.label }
    {
        &self.label
    }

    /// The profile that the newest filter of its start is made from, if there is one.
    pub fn profile(&self) -> Option<&Profile>
        ensures { option_map (λ p. p.now) result ≡ self.now.making.profile }
    {
        self.profile.as_ref()
    }

    /// Its state, and whether it was killed.
    pub fn state(&self) -> State
        ensures { result ≡ self.now.state }
    {
        self.state
    }

    /// Its exit code, if its script has ended.
    pub fn exit(&self) -> Option<u8>
        ensures code { result ≡ exit_of self.now.state }
        ensures follows { FollowsScript self.now }
    {
        match self.state {
            State::Exited { code, .. } => Some(code),
            _ => None,
        }
    }

    /// How many of the judged calls were performed, and how many were not.
    pub fn counts(&self) -> Counts
        ensures performed { result.performed ≡ count_by (λ entry. entry.performed) self.now.entries }
        ensures denied { result.denied ≡ count_by (λ entry. not entry.performed) self.now.entries }
    {
        self.entries.counts()
    }

    /// How many filters its script added.
    pub fn added(&self) -> usize
        ensures { result ≡ length self.now.added }
    {
        self.stack.filters().len() - self.start
    }

    fn fresh(
        alloc: Global,
        label: Label,
        script: Script,
        stack: Stack,
        profile: Option<Profile>,
        state: State,
    ) -> Result<Cell, AllocError>
        requires confined { Confines stack.filters profile }
        requires unended { IsUnended state }
        ensures { IfOk result (λ cell. cell ≡ fresh
            (record { label = label; script = script; stack = stack.filters; profile = profile }) state) }
    {
        stacks_judge_every_call();
        let mut stack = stack;
        let copies = copies(alloc, script.steps())?;
        stack.reserve(copies.len())?;
        let start = stack.filters().len();
        let entries = Record::with_capacity(alloc, script.len())?;
        Ok(Cell {
            label,
            script,
            profile,
            stack,
            start,
            copies,
            entries,
            state,
        })
    }

    /// What is done at the next step.
    fn act(&self) -> Act
        ensures { IsNext (filters_of self.now) self.now.making.label.attempt (step_in self.now)
            (next_by result (step_in self.now)) }
    {
        match self.script.steps().get(self.entries.len()) {
            None => Act::Over(0),
            Some(Step::Call { call, on_error }) => call_act(
                *call,
                self.stack.judge(call),
                *on_error,
            ),
            Some(Step::Exit(code)) => Act::Over(*code),
            Some(Step::ExitByAttempt(codes)) => Act::Over(code_at(
                codes.as_slice(),
                self.label.attempt,
            )),
            Some(Step::Install { filter, on_error }) => {
                let verdict = self.stack.judge(&install_call());
                install_act(verdict, self.stack.has_place(filter), *on_error)
            }
        }
    }
}

/// Adds the filter, if there is one, to a stack that has room and place for it.
fn install(stack: &mut Stack, filter: Option<Filter>)
    requires room { length (option_to_list filter) ≤ stack.old.room }
    requires place { IfSome filter (λ f. IsTrue (has_place stack.old.filters f)) }
    ensures filters { stack.new.filters ≡ stack.old.filters ++ option_to_list filter }
    ensures room { stack.old.room ≤ stack.new.room + length (option_to_list filter) }
{
    if let Some(filter) = filter {
        if stack.push(filter).is_err() {
            prove!(false);
        }
    }
}

/// The result of a step with this judged call, after which the script goes on.
fn told_of(entry: JudgedCall) -> Did
    ensures { result ≡ told_of_entry entry entry.performed }
{
    if entry.performed {
        Did::Performed
    } else {
        Did::Denied(entry.verdict)
    }
}
