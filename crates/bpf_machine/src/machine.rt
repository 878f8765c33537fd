ghost use Rattle.std.specs.Prelude.{◌≤◌, ℕ, length};
ghost use Rattle.bpf_verify.specs.Longest.{IsLongest};
ghost use Rattle.bpf_machine.specs.Runs.{NeverStuck, Runs};

use crate::step::{After, Registers, step};
use bpf_code::SCRATCH_WORDS;
use bpf_verify::{Filter, walks_stay_inside};
use call_data::SysCall;

/// The result of running a filter on a call.
#[derive(Clone, Copy, Debug, PartialEq, Eq)]
pub struct Ran {
    /// The filter's value.
    pub value: u32,
    /// How many instructions were executed, the last one included.
    pub steps: u32,
}

/// Runs a filter on a call.
///
/// The filter is sound, so nothing is tested on the way: each load finds its word, each jump its
/// target, and the run ends.
pub fn run(filter: &Filter, call: &SysCall) -> Ran
    ensures run { Runs filter.now call.now result.value result.steps }

    // It ends within the filter's own length.
    ensures bounded { result.steps ≤ length filter.now }

    // Nor does it take more steps than the longest walk has places: `Filter::longest`.
    ensures longest { (places : ℕ) → IsLongest filter.now places → result.steps ≤ places }

    // Each state that the run reaches has a next one: it reads only data and stored words.
    ensures never_stuck { NeverStuck filter.now call.now }
{
    walks_stay_inside();
    let code = filter.insns();
    let data = call.to_bytes();
    let mut words = [0u32; SCRATCH_WORDS as usize];
    let mut registers = Registers {
        place: 0,
        a: 0,
        x: 0,
    };
    let mut steps = 0;
    'steps: loop {
        let insn = &code[registers.place];
        steps += 1;
        registers = match step(registers, insn, &data, &mut words) {
            After::Goes(a, x) => registers.next(a, x),
            After::Holds => registers.skip(u32::from(insn.jt)),
            After::Fails => registers.skip(u32::from(insn.jf)),
            After::Skips => registers.skip(insn.k),
            After::Ends(value) => return Ran { value, steps },
        };
    }
}
