ghost use Rattle.std.specs.Prelude.{◌≡◌, [], IfOk, false};
ghost use Rattle.runtime_cell.specs.Cell.{FollowsScript};
ghost use Rattle.runtime_cell.specs.declared.cell.State.{State};
ghost use Rattle.runtime_cell.specs.Outcome.{IsOutcome};
ghost use Rattle.seccheck_output.specs.Playing.{IsPlaying};

use runtime_cell::{Cell, JudgedCall};
use script::Script;
use std::alloc::{AllocError, Global};
use std::marker::Model;
use verdict::Stack;

/// The outcome of a script: its judged calls, in order, the filters that it added, and its exit code.
#[derive(Drop)]
pub struct Outcome {
    cell: Cell,
    code: u8,
}

impl Model for Outcome {
    ghost use Rattle.runtime_cell.specs.Outcome.{Outcome};

    ghost Value = { Outcome };

    ghost view = { λ o. record { entries = o.cell.entries; added = o.cell.added; code = o.code } };
}

impl Outcome {
    /// The judged calls.
    pub fn entries(&self) -> &[JudgedCall]
        ensures { result.now ≡ self.now.entries }
    {
        self.cell.record()
    }

    /// The script's exit code.
    pub fn code(&self) -> u8
        ensures { result ≡ self.now.code }
    {
        self.code
    }
}

/// Plays the script under the stack of filters, from its first step to its end. A call is performed exactly
/// if the filters, and those that the script added before, together allow it.
pub fn play(
    alloc: Global,
    script: Script,
    stack: Stack,
    attempt: u32,
) -> Result<Outcome, AllocError>
    ensures { IfOk result (IsOutcome stack.filters attempt script []) }
{
    let mut cell = Cell::playing(alloc, script, stack, attempt)?;
    let code = play_out(&mut cell);
    Ok(Outcome { cell, code })
}

/// Plays a cell's script to its end, and returns its exit code.
fn play_out(cell: &mut Cell) -> u8
    requires { IsPlaying cell.old.state }
    ensures kept { cell.new.making ≡ cell.old.making }
    ensures ends { cell.new.state ≡ State.Exited result false }
    ensures follows { FollowsScript cell.new }
{
    loop {
        if let Some(code) = cell.exit() {
            return code;
        }
        cell.step();
    }
}
