//! The lines of a unit's filter.
ghost use Rattle.std.specs.Prelude.{◌≡◌, ◌++◌, IfOk, OnOk, string_bytes};
ghost use Rattle.profile_unit.specs.UnitText.{call_name, calls_text, call_word, denied_by, errno_text, exact_text};
ghost use Rattle.profile_unit.specs.UnitText.{first_name, head_text, others_text, unit_text};

use crate::unit::{NamedCall, Unit};
use oci_profile::Decision;
use std::alloc::{AllocError, Global};
use sys_table::CallTable;

/// The lines for a file of the unit's folder `.d`, with the names of the known calls. No call of another
/// architecture passes, as in a filter of the profile.
pub fn unit_text(alloc: Global, known: CallTable, unit: &Unit) -> Result<String, AllocError>
    ensures { IfOk result (λ text. string_bytes text ≡ unit_text known unit.now.rest unit.now.calls.items) }
{
    let mut text = String::from_str(alloc, "[Service]\nSystemCallArchitectures=native\n")?;
    add_head(&mut text, known, &unit.rest, unit.calls.as_slice())?;
    add_calls(&mut text, known, &unit.rest, unit.calls.as_slice())?;
    text.push_str("\n")?;
    Ok(text)
}

/// What comes before the words of the list.
fn add_head(
    text: &mut String,
    known: CallTable,
    rest: &Decision,
    calls: &[NamedCall],
) -> Result<(), AllocError>
    ensures { OnOk result (string_bytes text.new ≡ string_bytes text.old ++ head_text known rest.now calls.now) }
{
    match *rest {
        Decision::Allow => text.push_str("SystemCallFilter=~"),
        Decision::Errno(errno) => {
            add_errno(text, errno.code())?;
            add_exact(text, known, calls)
        }
        _ => add_exact(text, known, calls),
    }
}

fn add_errno(text: &mut String, errno: u16) -> Result<(), AllocError>
    ensures { OnOk result (string_bytes text.new ≡ string_bytes text.old ++ errno_text errno) }
{
    writeln!(text, "SystemCallErrorNumber={errno}")
}

// To a list of allowed calls systemd adds those of @default, which are removed again.
fn add_exact(text: &mut String, known: CallTable, calls: &[NamedCall]) -> Result<(), AllocError>
    ensures { OnOk result (string_bytes text.new ≡ string_bytes text.old ++ exact_text known calls.now) }
{
    let first = first_name(known, calls);
    write!(
        text,
        "SystemCallFilter={first}\nSystemCallFilter=~@default\nSystemCallFilter="
    )
}

fn first_name(known: CallTable, calls: &[NamedCall]) -> &'static str
    ensures { result.now ≡ first_name known calls.now }
{
    match calls.first() {
        Some(call) => call_name(known, call),
        None => "",
    }
}

fn call_name(known: CallTable, call: &NamedCall) -> &'static str
    ensures { result.now ≡ call_name known call.now }
{
    known.name(call.nr).unwrap_or("")
}

fn add_calls(
    text: &mut String,
    known: CallTable,
    rest: &Decision,
    calls: &[NamedCall],
) -> Result<(), AllocError>
    ensures { OnOk result (string_bytes text.new ≡ string_bytes text.old ++ calls_text known rest.now calls.now) }
{
    match calls {
        [] => Ok(()),
        [first, others @ ..] => {
            add_word(text, known, rest, first)?;
            add_others(text, known, rest, others)
        }
    }
}

fn add_others(
    text: &mut String,
    known: CallTable,
    rest: &Decision,
    calls: &[NamedCall],
) -> Result<(), AllocError>
    ensures { OnOk result (string_bytes text.new ≡ string_bytes text.old ++ others_text known rest.now calls.now) }
{
    for call in calls {
        text.push_str(" ")?;
        add_word(text, known, rest, call)?;
    }
    Ok(())
}

fn add_word(
    text: &mut String,
    known: CallTable,
    rest: &Decision,
    call: &NamedCall,
) -> Result<(), AllocError>
    ensures { OnOk result (string_bytes text.new ≡ string_bytes text.old ++ call_word known rest.now call.now) }
{
    text.push_str(call_name(known, call))?;
    match *rest {
        Decision::Allow => add_denial(text, &call.decision),
        _ => Ok(()),
    }
}

fn add_denial(text: &mut String, decision: &Decision) -> Result<(), AllocError>
    ensures { OnOk result (string_bytes text.new ≡ string_bytes text.old ++ denied_by decision.now) }
{
    match *decision {
        Decision::Errno(errno) => {
            let number = errno.code();
            write!(text, ":{number}")
        }
        _ => text.push_str(":kill"),
    }
}
