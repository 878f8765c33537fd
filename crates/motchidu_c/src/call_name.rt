ghost use Rattle.std.specs.Prelude.{◌≡◌, ◌≢◌, ◌↔◌, ℕ, List, Some, None};
ghost use Rattle.sys_table.specs.SysTable.{name_in, name_of};
ghost use Rattle.sys_table.specs.declared.calls.CallTable.{CallTable};
ghost use Rattle.motchidu_c.specs.declared.status.Status.TheVariants.{UnknownCall, UnknownVersion};
ghost use Rattle.motchidu_c.specs.Room.{IsGiven};
ghost use Rattle.motchidu_c.specs.Status.{number_of};
ghost use Rattle.motchidu_c.specs.Versions.{calls_of};

use crate::room::give;
use crate::status::Status;
use crate::versions::calls_of;
use sys_table::CallTable;

/// The name of the call of x86-64 with this number.
#[unsafe(no_mangle)]
pub extern "C" fn motchidu_call_name(number: u32, name: &mut [u8], len: &mut usize) -> u32
    // The table's name for the number, if there is room for it.
    ensures named { (text : List ℕ) → name_of number ≡ Some text
        → IsGiven text name.old name.new len.new result }

    // Any other number is refused, and nothing is written.
    ensures unknown { name_of number ≡ None → result ≡ number_of UnknownCall }
    ensures kept { name_of number ≡ None → name.new ≡ name.old }
    ensures len_kept { name_of number ≡ None → len.new ≡ len.old }
{
    named(CallTable::Linux5_8, number, name, len)
}

/// The name of a call as by `motchidu_call_name`, if the calls are those of the version of Linux that `calls`
/// names.
#[unsafe(no_mangle)]
pub extern "C" fn motchidu_call_name_with(
    calls: u32,
    number: u32,
    name: &mut [u8],
    len: &mut usize,
) -> u32
    ensures named { (known : CallTable) (text : List ℕ) → calls_of calls ≡ Some known
        → name_in known number ≡ Some text → IsGiven text name.old name.new len.new result }
    ensures unknown { (known : CallTable) → calls_of calls ≡ Some known → name_in known number ≡ None
        → result ≡ number_of UnknownCall }
    ensures kept { (known : CallTable) → calls_of calls ≡ Some known → name_in known number ≡ None
        → name.new ≡ name.old }
    ensures len_kept { (known : CallTable) → calls_of calls ≡ Some known → name_in known number ≡ None
        → len.new ≡ len.old }

    // A number of no version is refused, and nothing is written.
    ensures version { (result ≡ number_of UnknownVersion) ↔ (calls_of calls ≡ None) }
    ensures version_name { calls_of calls ≡ None → name.new ≡ name.old }
    ensures version_len { calls_of calls ≡ None → len.new ≡ len.old }
{
    match calls_of(calls) {
        Some(known) => named(known, number, name, len),
        None => Status::UnknownVersion.number(),
    }
}

/// The answer about the name of the one of these calls with this number.
fn named(known: CallTable, number: u32, name: &mut [u8], len: &mut usize) -> u32
    ensures named { (text : List ℕ) → name_in known number ≡ Some text
        → IsGiven text name.old name.new len.new result }
    ensures unknown { name_in known number ≡ None → result ≡ number_of UnknownCall }
    ensures kept { name_in known number ≡ None → name.new ≡ name.old }
    ensures len_kept { name_in known number ≡ None → len.new ≡ len.old }
    ensures version { result ≢ number_of UnknownVersion }
{
    match known.name(number) {
        Some(text) => give(text.as_bytes(), name, len).number(),
        None => Status::UnknownCall.number(),
    }
}
