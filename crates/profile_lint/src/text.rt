ghost use Rattle.std.specs.Prelude.{◌≡◌, IfOk, flat_map, map, option_map};
ghost use Rattle.std.specs.List.{enumerate_from, list_any};
ghost use Rattle.serde_json.specs.View.{view};
ghost use Rattle.profile_lint.specs.Passed.{all_passed_in, arch_at, architectures, archs_in, are_others};
ghost use Rattle.profile_lint.specs.Passed.{arg_at, args_in, entries_in, entry_at, is_native};
ghost use Rattle.profile_lint.specs.Passed.{is_one_of, items_in, others_in};
ghost use Rattle.profile_lint.specs.Passed.{told};

use crate::members::ignored_in;
use crate::names::{names_in, tell};
use crate::passed::{Holder, Passed};
use json_tree::{list, member, text};
use serde_json::Value;
use std::alloc::{AllocError, Global};
use sys_table::CallTable;

/// The parts of a profile's tree that decide nothing if these are the known calls, in order of the entries.
pub(crate) fn all_passed_in<'v>(
    alloc: Global,
    calls: CallTable,
    tree: &'v Value,
) -> Result<Vec<Passed<'v>>, AllocError>
    ensures { IfOk result (λ v. map told v.items ≡ all_passed_in calls (view tree.now)) }
{
    let mut found = ignored_in(alloc, Holder::Profile, tree)?;
    if are_others(items_in(tree, "architectures")) {
        found.push(Passed::OtherArchitectures)?;
    }
    let archs = archs_in(alloc, items_in(tree, "architectures"))?;
    found.extend_from_slice(archs.as_slice())?;
    let entries = entries_in(alloc, calls, items_in(tree, "syscalls"))?;
    found.extend_from_slice(entries.as_slice())?;
    Ok(found)
}

/// The items of the list at this member.
#[tactic(auto, unfolding(crate::specs::Passed::items_in))]
fn items_in<'v>(tree: &'v Value, key: &str) -> &'v [Value]
    ensures { map view result.now ≡ items_in key.now (view tree.now) }
{
    match member(tree, key) {
        Some(found) => list(found).unwrap_or(&[]),
        None => &[],
    }
}

fn are_others(names: &[Value]) -> bool
    ensures { result ≡ are_others (map view names.now) }
{
    !names.is_empty() && !has_native(names)
}

fn has_native(names: &[Value]) -> bool
    ensures { result ≡ list_any is_native (map view names.now) }
{
    is_any_native(names)
}

fn is_any_native(names: &[Value]) -> bool
    ensures { result ≡ list_any (λ name. is_native (view name)) names.now }
{
    names.iter().any(|name| is_native(name))
}

fn is_native(name: &Value) -> bool
    ensures { result ≡ is_native (view name.now) }
{
    match text(name) {
        Some(name) => name == "SCMP_ARCH_X86_64",
        None => false,
    }
}

/// Whether an architecture has the name.
#[tactic(auto, unfolding(crate::specs::Passed::architectures))]
#[rattlefmt::skip]
fn is_architecture(name: &str) -> bool
    ensures { result ≡ is_one_of architectures name.now }
{
    matches!(
        name,
        "SCMP_ARCH_X86" | "SCMP_ARCH_X86_64" | "SCMP_ARCH_X32" | "SCMP_ARCH_ARM"
        | "SCMP_ARCH_AARCH64" | "SCMP_ARCH_LOONGARCH64" | "SCMP_ARCH_M68K" | "SCMP_ARCH_MIPS"
        | "SCMP_ARCH_MIPS64" | "SCMP_ARCH_MIPS64N32" | "SCMP_ARCH_MIPSEL" | "SCMP_ARCH_MIPSEL64"
        | "SCMP_ARCH_MIPSEL64N32" | "SCMP_ARCH_PPC" | "SCMP_ARCH_PPC64" | "SCMP_ARCH_PPC64LE"
        | "SCMP_ARCH_S390" | "SCMP_ARCH_S390X" | "SCMP_ARCH_PARISC" | "SCMP_ARCH_PARISC64"
        | "SCMP_ARCH_RISCV64" | "SCMP_ARCH_SH" | "SCMP_ARCH_SHEB"
    )
}

/// The finding about a name of `architectures`, if no architecture has it.
fn arch_at<'v>(index: usize, item: &'v Value) -> Option<Passed<'v>>
    ensures { option_map told result ≡ arch_at (index, view item.now) }
{
    let name = text(item)?;
    if is_architecture(name) {
        None
    } else {
        Some(Passed::UnknownArchitecture(index, name))
    }
}

fn archs_in<'v>(alloc: Global, items: &'v [Value]) -> Result<Vec<Passed<'v>>, AllocError>
    ensures { IfOk result (λ v. map told v.items ≡ archs_in (map view items.now)) }
{
    let mut found = Vec::new(alloc);
    for (index, item) in items.iter().enumerate() {
        tell(&mut found, arch_at(index, item))?;
    }
    Ok(found)
}

fn entries_in<'v>(
    alloc: Global,
    calls: CallTable,
    items: &'v [Value],
) -> Result<Vec<Passed<'v>>, AllocError>
    ensures { IfOk result (λ v. map told v.items ≡ entries_in calls (map view items.now)) }
{
    let mut found = Vec::new(alloc);
    for (index, item) in items.iter().enumerate() {
        let entry = entry_at(alloc, calls, index, item)?;
        found.extend_from_slice(entry.as_slice())?;
    }
    Ok(found)
}

fn entry_at<'v>(
    alloc: Global,
    calls: CallTable,
    index: usize,
    item: &'v Value,
) -> Result<Vec<Passed<'v>>, AllocError>
    ensures { IfOk result (λ v. map told v.items ≡ entry_at calls (index, view item.now)) }
{
    let mut found = ignored_in(alloc, Holder::Entry(index), item)?;
    let names = names_in(alloc, calls, index, items_in(item, "names"))?;
    found.extend_from_slice(names.as_slice())?;
    let args = args_in(alloc, index, items_in(item, "args"))?;
    found.extend_from_slice(args.as_slice())?;
    Ok(found)
}

fn args_in<'v>(
    alloc: Global,
    entry: usize,
    items: &'v [Value],
) -> Result<Vec<Passed<'v>>, AllocError>
    ensures { IfOk result (λ v. map told v.items ≡ args_in entry (map view items.now)) }
{
    let mut found = Vec::new(alloc);
    for (index, item) in items.iter().enumerate() {
        let arg = ignored_in(alloc, Holder::Arg(entry, index), item)?;
        found.extend_from_slice(arg.as_slice())?;
    }
    Ok(found)
}
