ghost use Rattle.std.specs.Prelude.{◌≡◌, ◌<◌, ◌%◌};
ghost use Rattle.call_data.specs.declared.sys_call.SysCall.{SysCall};
ghost use Rattle.call_data.specs.CallData.{word_at};

use call_data::word_of;

/// One of the sixteen words of a call's data.
#[derive(Clone, Copy, PartialEq, Eq)]
pub(crate) struct Word {
    pub(crate) place: usize,
    ghost inside: { place < 16 },
}

impl Word {
    ghost use Rattle.bpf_compare.specs.Known.{number_at};

    /// The word at this offset in bytes.
    #[tactic(auto, unfolding(crate::specs::Known::number_at))]
    pub(crate) fn at(offset: u32) -> Word
        requires inside { offset < 64 }
        requires aligned { offset % 4 ≡ 0 }
        ensures { (call : SysCall) → number_at call result.place ≡ word_at call offset }
    {
        Word {
            place: offset as usize / 4,
        }
    }

    /// The word in this data of a call.
    pub(crate) fn of(self, data: &[u8; 64]) -> u32 {
        word_of(data, 4 * self.place as u32)
    }
}
