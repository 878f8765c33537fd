ghost use Rattle.std.specs.Prelude.{◌≡◌, ◌<◌, ◌^◌, ℕ};
ghost use Rattle.call_data.specs.declared.sys_call.SysCall.{SysCall};
ghost use Rattle.call_data.specs.CallData.{IsCall};
ghost use Rattle.bpf_compare.specs.Known.{number_at};

use call_data::words_of_fields;

/// A word of a call's data has 32 bits.
pub(crate) fn words_fit()
    ensures fit { (call : SysCall) (place : ℕ) → IsCall call → place < 16 → number_at call place < 2 ^ 32 }
    ensures nr { (call : SysCall) → IsCall call → number_at call 0 ≡ call.nr }
    ensures arch { (call : SysCall) → IsCall call → number_at call 1 ≡ call.arch }
{
    words_of_fields();
}
