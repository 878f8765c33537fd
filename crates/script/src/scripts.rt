ghost use Rattle.std.specs.Prelude.{◌≡◌, ◌==◌, ◌<◌, ◌≤◌, IfOk, length};
ghost use Rattle.script.specs.Script.{HasSoundFilters};

use bpf_verify::Filter;
use call_data::SysCall;
use std::alloc::AllocError;
use std::marker::Model;
use std::sync::ArcSlice;

/// The greatest number of steps of a script.
pub const MAX_STEPS: usize = 4096;

/// Exit codes of a script, one for each attempt. There is at least one.
#[derive(Drop)]
pub struct Codes {
    codes: Vec<u8>,
}

impl Model for Codes {
    ghost use Rattle.std.specs.Prelude.{ℕ, List, ◌<◌, length};

    ghost Value = { List ℕ };

    ghost view = { λ c. c.codes.items };

    ghost invariant = { λ c. 0 < length c.codes.items };
}

impl Codes {
    pub(crate) fn new(codes: Vec<u8>) -> Codes
        requires { 0 < length codes.items }
        ensures { result ≡ codes.items }
    {
        Codes { codes }
    }

    /// The codes of attempts 0, 1, and so on. There is at least one.
    pub fn as_slice(&self) -> &[u8]
        ensures value { result.now ≡ self.now }
        ensures some { 0 < length self.now }
    {
        self.codes.as_slice()
    }
}

/// A step of a script.
#[derive(Drop)]
pub enum Step {
    /// Makes the call. If the call returns an errno, the script ends with this code, if there is one.
    Call {
        call: SysCall,
        on_error: Option<u8>,
    },
    /// Ends the script with the code.
    Exit(u8),
    /// Ends the script, at attempt k (from 0), with code k of the list (from 0), or the last one if there are
    /// fewer.
    ExitByAttempt(Codes),
    /// Makes the call seccomp(2) that installs the filter. If the call returns an errno, the script ends
    /// with this code, if there is one.
    Install {
        filter: Filter,
        on_error: Option<u8>,
    },
}

/// The steps of a container, in order. Its copies share one list of steps.
#[derive(Drop)]
pub struct Script {
    steps: ArcSlice<Step>,
}

impl Model for Script {
    ghost use Rattle.std.specs.Prelude.{List, ◌≤◌, length};
    ghost use Rattle.script.specs.declared.scripts.Step.{Step};
    ghost use Rattle.script.specs.declared.scripts.TheConstants.{MAX_STEPS};
    ghost use Rattle.script.specs.Script.{HasSoundFilters};

    ghost Value = { List Step };

    ghost view = { λ s. s.steps.items.value.items };

    ghost invariant = { λ s. (length s.steps.items.value.items ≤ MAX_STEPS)
        × HasSoundFilters s.steps.items.value.items };
}

impl Script {
    pub(crate) fn new(steps: Vec<Step>) -> Result<Script, AllocError>
        requires few { length steps.items ≤ MAX_STEPS }
        requires sound { HasSoundFilters steps.items }
        ensures { IfOk result (λ script. script ≡ steps.items) }
    {
        let steps = ArcSlice::from_vec(steps)?;
        Ok(Script { steps })
    }

    /// A script with the same steps, which takes no memory of its own: the steps stay where they are until
    /// the last script that has them is dropped.
    pub fn share(&self) -> Result<Script, AllocError>
        ensures { IfOk result (λ script. script ≡ self.now) }
    {
        let steps = self.steps.clone()?;
        Ok(Script { steps })
    }

    /// The steps in order.
    pub fn steps(&self) -> &[Step]
        ensures value { result.now ≡ self.now }
        ensures bounded { length self.now ≤ MAX_STEPS }
        ensures sound { HasSoundFilters self.now }
    {
        self.steps.as_slice()
    }

    /// How many steps there are, at most `MAX_STEPS`.
    pub fn len(&self) -> usize
        ensures steps { result ≡ length self.now }
        ensures bounded { result ≤ MAX_STEPS }
    {
        self.steps.len()
    }

    /// Whether there is no step.
    pub fn is_empty(&self) -> bool
        ensures { result ≡ (length self.now == 0) }
    {
        self.steps.is_empty()
    }
}
