ghost use Rattle.std.specs.Prelude.{◌≡◌, ◌≢◌, ◌↔◌, ℕ, Some, None};
ghost use Rattle.sys_table.specs.SysTable as table;
ghost use Rattle.sys_table.specs.declared.calls.CallTable.{CallTable};
ghost use Rattle.motchidu_c.specs.declared.status.Status.TheVariants.{Accepted, UnknownCall, UnknownVersion};
ghost use Rattle.motchidu_c.specs.Status.{number_of};
ghost use Rattle.motchidu_c.specs.Versions.{calls_of};

use crate::status::Status;
use crate::versions::calls_of;
use sys_table::{CallTable, names_and_numbers_agree};

/// The number of the call of x86-64 with this name.
#[unsafe(no_mangle)]
pub extern "C" fn motchidu_call_number(name: &[u8], number: &mut u32) -> u32
    // A name of the table is accepted, and its number is written.
    ensures accepts { (found : ℕ) → table.number_of name.now ≡ Some found → result ≡ number_of Accepted }
    ensures number { (found : ℕ) → table.number_of name.now ≡ Some found → number.new ≡ found }

    // Any other is refused, and nothing is written.
    ensures unknown { table.number_of name.now ≡ None → result ≡ number_of UnknownCall }
    ensures kept { table.number_of name.now ≡ None → number.new ≡ number.old }
{
    numbered(CallTable::Linux5_8, name, number).number()
}

/// The number of a call as by `motchidu_call_number`, if the calls are those of the version of Linux that
/// `calls` names.
#[unsafe(no_mangle)]
pub extern "C" fn motchidu_call_number_with(calls: u32, name: &[u8], number: &mut u32) -> u32
    ensures accepts { (known : CallTable) (found : ℕ) → calls_of calls ≡ Some known
        → table.number_in known name.now ≡ Some found → result ≡ number_of Accepted }
    ensures number { (known : CallTable) (found : ℕ) → calls_of calls ≡ Some known
        → table.number_in known name.now ≡ Some found → number.new ≡ found }
    ensures unknown { (known : CallTable) → calls_of calls ≡ Some known → table.number_in known name.now ≡ None
        → result ≡ number_of UnknownCall }
    ensures kept { (known : CallTable) → calls_of calls ≡ Some known → table.number_in known name.now ≡ None
        → number.new ≡ number.old }

    // A number of no version is refused, and nothing is written.
    ensures version { (result ≡ number_of UnknownVersion) ↔ (calls_of calls ≡ None) }
    ensures version_number { calls_of calls ≡ None → number.new ≡ number.old }
{
    match calls_of(calls) {
        Some(known) => numbered(known, name, number).number(),
        None => Status::UnknownVersion.number(),
    }
}

/// Writes the number of the one of these calls with this name.
fn numbered(known: CallTable, name: &[u8], number: &mut u32) -> Status
    ensures accepts { (found : ℕ) → table.number_in known name.now ≡ Some found → result ≡ Accepted }
    ensures number { (found : ℕ) → table.number_in known name.now ≡ Some found → number.new ≡ found }
    ensures unknown { table.number_in known name.now ≡ None → result ≡ UnknownCall }
    ensures kept { table.number_in known name.now ≡ None → number.new ≡ number.old }
    ensures version { result ≢ UnknownVersion }
{
    match number_named(known, name) {
        Some(found) => {
            *number = found;
            Status::Accepted
        }
        None => Status::UnknownCall,
    }
}

/// The number of the one of these calls with this name. The bytes need not be a text.
pub(crate) fn number_named(known: CallTable, name: &[u8]) -> Option<u32>
    ensures { result ≡ table.number_in known name.now }
{
    names_and_numbers_agree();
    match str::from_utf8(name) {
        Ok(name) => known.number(name),
        Err(_) => None,
    }
}
