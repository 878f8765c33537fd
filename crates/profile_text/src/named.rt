ghost use Rattle.std.specs.Prelude.{◌≡◌, ◌≢◌, ◌<◌, IfOk, Err, filter, filter_map, length, map, option_map};
ghost use Rattle.std.specs.Prelude.{string_bytes};
ghost use Rattle.std.specs.List.{AllByRecursion};
ghost use Rattle.serde_json.specs.Data.{string};
ghost use Rattle.serde_json.specs.View.{view};
ghost use Rattle.oci_profile.specs.declared.reader.TheConstants.{MAX_PROFILE_BYTES};
ghost use Rattle.oci_profile.specs.Profile.{ReadsProfileWith};
ghost use Rattle.profile_text.specs.Fits.{FitsDecision, FitsNamed};
ghost use Rattle.profile_text.specs.Named.{is_stricter, is_taken, named_profile, named_profile_text};
ghost use Rattle.profile_text.specs.Named.{named_profile_tree, named_tree};
ghost use Rattle.profile_text.specs.declared.faults.WriteFault.{WriteFault};

use crate::faults::WriteFault;
use crate::texts::Texts;
use crate::trees::{action_name, entry_with, errno_of, head};
use crate::writer::is_too_large;
use oci_profile::{Conds, Decision};
use serde_json::Value;
use std::alloc::{AllocError, Global};
use sys_table::CallTable;

/// An entry with its names, whether their calls are known or not.
#[derive(Drop)]
pub struct NamedEntry {
    pub names: Texts,
    pub decision: Decision,
    pub conds: Conds,
}

/// The text of the profile with this default and these entries, and with these architectures, which the
/// reader ignores. From an entry that is stricter than the default, the names of no known call are left out,
/// because the reader refuses them; an entry without any name left is left out.
pub fn write_named(
    alloc: Global,
    calls: CallTable,
    default: &Decision,
    architectures: &Texts,
    entries: &[NamedEntry],
) -> Result<String, WriteFault>
    // It reads as that profile.
    ensures reads { IfOk result (λ text. ReadsProfileWith calls (string_bytes text)
        (named_profile calls default.now entries.now)) }
    ensures text { IfOk result (λ text. string_bytes text
        ≡ named_profile_text calls default.now architectures.now entries.now) }

    // Each such profile can be written, unless its text gets too large.
    ensures named { result ≢ Err WriteFault.NoName }
    ensures large { result ≡ Err WriteFault.TooLarge
        → MAX_PROFILE_BYTES < length (named_profile_text calls default.now architectures.now entries.now) }
{
    let tree = profile_tree(alloc, calls, default, architectures, entries)?;
    let text = tree.to_string(alloc)?;
    if is_too_large(text.as_str()) {
        return Err(WriteFault::TooLarge);
    }
    Ok(text)
}

/// Whether the reader refuses names of no known call.
pub fn is_stricter(default: &Decision, decision: &Decision) -> bool
    ensures { result ≡ is_stricter default.now decision.now }
{
    decision.rank() < default.rank()
}

/// Whether an entry is written with this name.
pub fn is_taken(calls: CallTable, is_stricter: bool, name: &str) -> bool
    ensures { result ≡ is_taken calls is_stricter name.now }
{
    !is_stricter || calls.number(name).is_some()
}

#[tactic(auto, unfolding(crate::specs::Named::named_profile_tree))]
fn profile_tree(
    alloc: Global,
    calls: CallTable,
    default: &Decision,
    architectures: &Texts,
    entries: &[NamedEntry],
) -> Result<Value, AllocError>
    ensures tree { IfOk result (λ v. view v ≡ named_profile_tree calls default.now architectures.now entries.now) }
    ensures fit { IfOk result (λ _. AllByRecursion FitsNamed entries.now) }
    ensures fit_default { IfOk result (λ _. FitsDecision default.now) }
{
    let entries = entry_trees(alloc, calls, default, entries)?;
    let architectures = texts(alloc, architectures.as_slice())?;
    let object = head(alloc, *default, entries)?.may_be_list("architectures", architectures)?;
    Ok(object.done())
}

#[tactic(auto, using(crate::proofs::Loops::fits_more))]
fn entry_trees(
    alloc: Global,
    calls: CallTable,
    default: &Decision,
    entries: &[NamedEntry],
) -> Result<Vec<Value>, AllocError>
    ensures trees { IfOk result (λ vs. map view vs.items ≡ filter_map (named_tree calls default.now) entries.now) }
    ensures fit { IfOk result (λ _. AllByRecursion FitsNamed entries.now) }
{
    let mut trees = Vec::new(alloc);
    for entry in entries {
        if let Some(tree) = entry_tree(alloc, calls, default, entry)? {
            trees.push(tree)?;
        }
    }
    Ok(trees)
}

fn entry_tree(
    alloc: Global,
    calls: CallTable,
    default: &Decision,
    entry: &NamedEntry,
) -> Result<Option<Value>, AllocError>
    ensures tree { IfOk result (λ o. option_map view o ≡ named_tree calls default.now entry.now) }
    ensures fit { IfOk result (λ _. FitsNamed entry.now) }
{
    let conds = entry.conds.as_slice();
    let errno = errno_of(entry.decision);
    let is_stricter = is_stricter(default, &entry.decision);
    let names = taken_names(alloc, calls, is_stricter, entry.names.as_slice())?;
    if names.is_empty() {
        return Ok(None);
    }
    let action = action_name(entry.decision);
    Ok(Some(entry_with(alloc, names, action, errno, conds)?))
}

fn taken_names(
    alloc: Global,
    calls: CallTable,
    is_stricter: bool,
    names: &[String],
) -> Result<Vec<Value>, AllocError>
    ensures { IfOk result (λ vs. map view vs.items
        ≡ map string (filter (is_taken calls is_stricter) (map string_bytes names.now))) }
{
    let mut trees = Vec::new(alloc);
    for name in names {
        if is_taken(calls, is_stricter, name.as_str()) {
            trees.push(Value::try_from_str(alloc, name.as_str())?)?;
        }
    }
    Ok(trees)
}

fn texts(alloc: Global, texts: &[String]) -> Result<Vec<Value>, AllocError>
    ensures { IfOk result (λ vs. map view vs.items ≡ map string (map string_bytes texts.now)) }
{
    let mut trees = Vec::new(alloc);
    for text in texts {
        trees.push(Value::try_from_str(alloc, text.as_str())?)?;
    }
    Ok(trees)
}
