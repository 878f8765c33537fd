ghost use Rattle.std.specs.Prelude.{◌≡◌, ◌<◌, ◌++◌, IfOk, map};
ghost use Rattle.std.specs.List.{All};
ghost use Rattle.std.specs.Option.{is_some};
ghost use Rattle.sys_table.specs.SysTable.{limit_of, name_in};
ghost use Rattle.profile_table.specs.Rows.{IsRowOf, named_at, named_below};

use crate::row::Row;
use explain::Decider;
use oci_profile::Profile;
use std::alloc::{AllocError, Global};
use sys_table::CallTable;

/// A row for each of these calls, in the order of their numbers.
pub fn rows(alloc: Global, calls: CallTable, profile: &Profile) -> Result<Vec<Row>, AllocError>
    ensures each { IfOk result (λ rows. map (λ row. row.nr) rows.items ≡ named_below calls (limit_of calls)) }
    ensures real { IfOk result (λ rows. All (IsRowOf calls profile.now) rows.items) }
{
    let mut rows = Vec::new(alloc);
    for nr in 0..calls.limit() {
        add(&mut rows, calls, profile, nr)?;
    }
    Ok(rows)
}

/// Adds the row of this number, if one of these calls has it.
#[tactic(auto, unfolding(crate::specs::Rows::named_at))]
fn add(rows: &mut Vec<Row>, calls: CallTable, profile: &Profile, nr: u32) -> Result<(), AllocError>
    requires { nr < limit_of calls }
    ensures numbers { IfOk result (λ _. map (λ row. row.nr) rows.new.items
        ≡ map (λ row. row.nr) rows.old.items ++ named_at calls nr) }
    ensures real { IfOk result (λ _. All (IsRowOf calls profile.now) rows.old.items
        → All (IsRowOf calls profile.now) rows.new.items) }
{
    if is_named(calls, nr) {
        rows.push(row(calls, profile, nr))?;
    }
    Ok(())
}

/// Whether one of these calls has this number.
fn is_named(calls: CallTable, nr: u32) -> bool
    ensures { result ≡ is_some (name_in calls nr) }
{
    calls.name(nr).is_some()
}

/// How the profile treats the calls with this number.
fn row(calls: CallTable, profile: &Profile, nr: u32) -> Row
    requires { nr < limit_of calls }
    ensures number { result.nr ≡ nr }
    ensures real { IsRowOf calls profile.now result }
{
    let mut is_asked = false;
    for (place, entry) in profile.entries.as_slice().iter().enumerate() {
        if !entry.names(nr) {
            continue;
        }
        if entry.conds.as_slice().is_empty() {
            return Row {
                nr,
                is_asked,
                decider: Decider::Entry(place),
                value: entry.decision.value(),
            };
        }
        is_asked = true;
    }
    Row {
        nr,
        is_asked,
        decider: Decider::Default,
        value: profile.default.value(),
    }
}
