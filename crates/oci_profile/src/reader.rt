ghost use Rattle.std.specs.Prelude.{◌≡◌, ◌≢◌, ◌↔◌, ◌<◌, [], IfOk, IfErr, filter_map, is_some, length, map};
ghost use Rattle.std.specs.Prelude.{nat_lt, not, position, Some, None, Ok, Err};
ghost use Rattle.serde_json.specs.View.{view};
ghost use Rattle.json_tree.specs.Reading.{Gives, as_read, in_order_after};
ghost use Rattle.sys_table.specs.declared.calls.CallTable.TheVariants.{Linux5_8};
ghost use Rattle.oci_profile.specs.declared.faults.ProfileFault.{ProfileFault};
ghost use Rattle.oci_profile.specs.declared.placed.ProfileFaultAt.{ProfileFaultAt};
ghost use Rattle.oci_profile.specs.declared.profile.Profile.{Profile};
ghost use Rattle.oci_profile.specs.Profile.{ReadsProfile, ReadsProfileWith, number_named, rank};
ghost use Rattle.oci_profile.specs.Reading.{IsRefusedFor, Reads, all_but_args_of, all_but_entries_of};
ghost use Rattle.oci_profile.specs.Reading.{default_of, entry_at, entry_of, first_fault, first_fault_at};
ghost use Rattle.oci_profile.specs.Reading.{head_of, ignored_of, items_of, known_if, names_of, profile_of};
ghost use Rattle.oci_profile.specs.Reading.{reading_of, refuse_at, short_of};

use crate::actions::decision;
use crate::args::conds;
use crate::decision::Decision;
use crate::faults::ProfileFault;
use crate::placed::{ProfileFaultAt, under};
use crate::profile::{Entries, Entry, Numbers, Profile};
use json_place::{Step, optional_list, optional_text, optional_text_list, required_text_list};
use json_tree::{object, text};
use serde_json::Value;
use std::alloc::{AllocError, Global};
use sys_table::{CallTable, names_and_numbers_agree};

/// The greatest length of a profile's text in bytes.
pub const MAX_PROFILE_BYTES: usize = 262_144;

/// The profile of a text, or its first fault: of the text, then of the fields in the order of
/// docs/SEMANTICS.md, and of the entries in order. Unknown fields are ignored. The known calls are those of
/// Linux 5.8. If an allocation fails, the result is `Memory`, unless it is `TooLarge`.
pub fn read(alloc: Global, bytes: &[u8]) -> Result<Profile, ProfileFault>
    // The result is the text's profile.
    ensures found { IfOk result (ReadsProfile bytes.now) }

    // Every profile is read, unless memory runs out.
    ensures only { (profile : Profile) → ReadsProfile bytes.now profile
        → Gives ProfileFault.Memory (λ p. p) result (Ok profile) }

    // A text that is read has no fault, and a refused one has this fault first.
    ensures no_fault { IfOk result (λ _. first_fault Linux5_8 bytes.now ≡ None) }
    ensures first { IfErr result (λ fault. fault ≢ ProfileFault.Memory
        → first_fault Linux5_8 bytes.now ≡ Some fault) }

    // The length of a text is checked before anything is allocated.
    ensures large { (result ≡ Err ProfileFault.TooLarge) ↔ (MAX_PROFILE_BYTES < length bytes.now) }
{
    Ok(read_placed(alloc, bytes)?)
}

/// Reads a profile as [`read`] does, and returns the place of the first fault in the text.
pub fn read_placed(alloc: Global, bytes: &[u8]) -> Result<Profile, ProfileFaultAt>
    ensures found { IfOk result (ReadsProfile bytes.now) }
    ensures only { (profile : Profile) → ReadsProfile bytes.now profile → Reads (λ p. p) result (Ok profile) }
    ensures no_fault { IfOk result (λ _. first_fault_at Linux5_8 bytes.now ≡ None) }
    ensures first { IfErr result (λ found. found.fault ≢ ProfileFault.Memory
        → first_fault_at Linux5_8 bytes.now ≡ Some found) }
    ensures large { IsRefusedFor ProfileFault.TooLarge result ↔ (MAX_PROFILE_BYTES < length bytes.now) }
{
    read_placed_with(alloc, CallTable::Linux5_8, bytes)
}

/// Reads a profile as [`read_placed`] does, if these are the known calls.
pub fn read_placed_with(
    alloc: Global,
    calls: CallTable,
    bytes: &[u8],
) -> Result<Profile, ProfileFaultAt>
    ensures found { IfOk result (ReadsProfileWith calls bytes.now) }
    ensures only { (profile : Profile) → ReadsProfileWith calls bytes.now profile
        → Reads (λ p. p) result (Ok profile) }
    ensures no_fault { IfOk result (λ _. first_fault_at calls bytes.now ≡ None) }
    ensures first { IfErr result (λ found. found.fault ≢ ProfileFault.Memory
        → first_fault_at calls bytes.now ≡ Some found) }
    ensures large { IsRefusedFor ProfileFault.TooLarge result ↔ (MAX_PROFILE_BYTES < length bytes.now) }
{
    if bytes.len() > MAX_PROFILE_BYTES {
        return Err(ProfileFaultAt::here(ProfileFault::TooLarge));
    }
    short(alloc, calls, bytes)
}

#[tactic(auto, unfolding(crate::specs::Reading::short_of))]
fn short(alloc: Global, calls: CallTable, bytes: &[u8]) -> Result<Profile, ProfileFaultAt>
    ensures { Reads (λ p. p) result (short_of calls bytes.now) }
{
    let tree = json_tree::read(alloc, bytes)?;
    profile(alloc, calls, &tree)
}

#[tactic(auto, unfolding(crate::specs::Reading::profile_of, crate::specs::Reading::all_but_entries_of))]
fn profile(alloc: Global, calls: CallTable, tree: &Value) -> Result<Profile, ProfileFaultAt>
    ensures value { Reads (λ p. p) result (profile_of calls (view tree.now)) }

    // A fault found before the entries are read is reported even if memory runs out.
    ensures told { (fault : ProfileFaultAt) → all_but_entries_of (view tree.now) ≡ Err fault
        → result ≡ Err fault }
{
    let default = head(tree)?;
    let items = items(tree)?;
    let entries = under(
        Step::Member("syscalls"),
        each_entry(alloc, calls, &default, items),
    )?;
    Ok(Profile::new(default, entries))
}

// The default, after all fields but the entries are checked.
#[tactic(auto, unfolding(crate::specs::Reading::head_of))]
fn head(tree: &Value) -> Result<Decision, ProfileFaultAt>
    ensures { result ≡ head_of (view tree.now) }
{
    let tree = object(tree).ok_or(ProfileFaultAt::here(ProfileFault::NotObject))?;
    let default = default(tree)?;
    ignored(tree)?;
    Ok(default)
}

#[tactic(auto, unfolding(crate::specs::Reading::default_of))]
fn default(tree: &Value) -> Result<Decision, ProfileFaultAt>
    ensures { result ≡ default_of (view tree.now) }
{
    decision(tree, "defaultAction", "defaultErrnoRet")
}

// The entries, not read yet.
#[tactic(auto, unfolding(crate::specs::Reading::items_of))]
fn items(tree: &Value) -> Result<&[Value], ProfileFaultAt>
    ensures { as_read (λ items. map view items.now) result ≡ items_of (view tree.now) }
{
    Ok(optional_list(tree, "syscalls")?.unwrap_or(&[]))
}

#[tactic(auto, unfolding(crate::specs::Reading::ignored_of))]
fn ignored(tree: &Value) -> Result<(), ProfileFaultAt>
    ensures { result ≡ ignored_of (view tree.now) }
{
    optional_text_list(tree, "architectures")?;
    optional_text_list(tree, "flags")?;
    optional_text(tree, "listenerPath")?;
    optional_text(tree, "listenerMetadata")?;
    Ok(())
}

#[tactic(auto, using(json_tree::proofs::After::after_more, json_tree::proofs::After::after_stops))]
fn each_entry(
    alloc: Global,
    calls: CallTable,
    default: &Decision,
    items: &[Value],
) -> Result<Entries, ProfileFaultAt>
    ensures { Reads (λ e. e) result
        (in_order_after (entry_at calls default.now) [] (map view items.now)) }
{
    names_and_numbers_agree();
    let mut entries = Vec::new(alloc);
    for item in items {
        let index = entries.len();
        let entry = under(Step::Item(index), entry(alloc, calls, default, item))?;
        entries.push(entry)?;
    }
    Ok(Entries::new(entries))
}

#[tactic(auto, unfolding(crate::specs::Reading::entry_of, crate::specs::Reading::all_but_args_of))]
fn entry(
    alloc: Global,
    calls: CallTable,
    default: &Decision,
    item: &Value,
) -> Result<Entry, ProfileFaultAt>
    ensures value { Reads (λ e. e) result (entry_of calls default.now (view item.now)) }

    // A fault found before the arguments is reported even if memory runs out.
    ensures told { (fault : ProfileFaultAt) → all_but_args_of (view item.now) ≡ Err fault
        → result ≡ Err fault }
{
    let tree = object(item).ok_or(ProfileFaultAt::here(ProfileFault::WrongType))?;
    let names = names(tree)?;
    let decision = decision(tree, "action", "errnoRet")?;
    let conds = conds(alloc, tree)?;
    known_if(calls, is_stricter(&decision, default), names)?;
    let numbers = numbers(alloc, calls, names)?;
    Ok(Entry::new(numbers, decision, conds))
}

#[tactic(auto, unfolding(crate::specs::Reading::names_of))]
fn names(tree: &Value) -> Result<&[Value], ProfileFaultAt>
    ensures { as_read (λ names. map view names.now) result ≡ names_of (view tree.now) }
{
    let names = required_text_list(tree, "names")?;
    if names.is_empty() {
        return Err(ProfileFaultAt::at("names", ProfileFault::EmptyNames));
    }
    Ok(names)
}

fn is_stricter(decision: &Decision, default: &Decision) -> bool
    ensures { result ≡ nat_lt (rank decision.now) (rank default.now) }
{
    decision.rank() < default.rank()
}

// If each name must be that of a known call, refuses the first that is not.
fn known_if(calls: CallTable, is_needed: bool, names: &[Value]) -> Result<(), ProfileFaultAt>
    ensures { result ≡ known_if calls is_needed (map view names.now) }
{
    if is_needed {
        if let Some(index) = first_unknown(calls, names) {
            return Err(unknown_at(index));
        }
    }
    Ok(())
}

#[tactic(auto, using(json_place::proofs::Odd::position_of_views))]
fn first_unknown(calls: CallTable, names: &[Value]) -> Option<usize>
    ensures { result ≡ position (λ name. not (is_some (number_named calls name))) (map view names.now) }
{
    first_without_number(calls, names)
}

fn first_without_number(calls: CallTable, names: &[Value]) -> Option<usize>
    ensures { result ≡ position (λ name. not (is_some (number_named calls (view name)))) names.now }
{
    names
        .iter()
        .position(|name| number_named(calls, name).is_none())
}

fn unknown_at(index: usize) -> ProfileFaultAt
    ensures { Err result ≡ refuse_at (Some index) }
{
    ProfileFaultAt::here(ProfileFault::UnknownCall)
        .within(Step::Item(index))
        .within(Step::Member("names"))
}

// The numbers of those names that are of known calls.
fn numbers(alloc: Global, calls: CallTable, names: &[Value]) -> Result<Numbers, AllocError>
    ensures { IfOk result (λ numbers. numbers ≡ filter_map (number_named calls) (map view names.now)) }
{
    names_and_numbers_agree();
    let mut numbers = Vec::new(alloc);
    for name in names {
        if let Some(number) = number_named(calls, name) {
            numbers.push(number)?;
        }
    }
    Ok(Numbers::new(numbers))
}

#[tactic(auto, unfolding(crate::specs::Profile::number_named))]
fn number_named(calls: CallTable, name: &Value) -> Option<u32>
    ensures { result ≡ number_named calls (view name.now) }
{
    calls.number(text(name)?)
}
