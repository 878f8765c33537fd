ghost use Rattle.std.specs.Prelude.{◌≡◌, ◌<◌, length};
ghost use Rattle.bpf_code.specs.declared.limits.TheConstants.{MAX_INSNS};
ghost use Rattle.bpf_code.specs.Flow.{flow_of};
ghost use Rattle.bpf_verify.specs.Ahead.{most_ahead};
ghost use Rattle.bpf_verify.specs.Longest.{IsLongest};
ghost use Rattle.bpf_verify.specs.Masks.{GoesBelow};
ghost use Rattle.bpf_verify.specs.Sound.{IsSound};

use crate::filter::Filter;
use bpf_code::{Flow, Insn, MAX_INSNS};

impl Filter {
    ghost use Rattle.bpf_verify.specs.Longest.{IsLongest};

    /// The number of places on the longest walk through the code. No run takes more steps.
    pub fn longest(&self) -> u32
        ensures { IsLongest self.now result }
    {
        let mut ahead = [0u16; MAX_INSNS];
        longest_by(self.insns(), &mut ahead)
    }
}

/// Computes `longest`, given an array with a number for each place.
///
/// Jumps only go forward, so one pass from the end is enough. For each place it keeps how many places the
/// longest walk from there has.
fn longest_by(code: &[Insn], ahead: &mut [u16]) -> u32
    requires sound { IsSound code.now }
    requires room { length ahead.old ≡ MAX_INSNS }
    ensures { IsLongest code.now result }
{
    for done in 0..code.len() {
        let at = code.len() - 1 - done;
        ahead[at] = most_ahead(ahead, at, &code[at]) + 1;
    }
    u32::from(ahead[0])
}

/// The most places on a walk from any of the places that may come next.
fn most_ahead(ahead: &[u16], at: usize, insn: &Insn) -> u16
    requires small { at < MAX_INSNS }
    requires targets { GoesBelow (flow_of insn.now.op) insn.now at (length ahead.now) }
    ensures { result ≡ most_ahead (flow_of insn.now.op) insn.now at ahead.now }
{
    let next = at + 1;
    match insn.op.flow() {
        Flow::Returns => 0,
        Flow::Jumps => ahead[next + insn.k as usize],
        Flow::Branches => ahead[next + insn.jt as usize].max(ahead[next + insn.jf as usize]),
        Flow::Continues => ahead[next],
    }
}
