ghost use Rattle.std.specs.Prelude.{◌≡◌, ◌≤◌, ◌∷◌, ◌++◌, [], IfOk, map};
ghost use Rattle.std.specs.List.{cons_option};
ghost use Rattle.sys_table.specs.SysTable.{number_of};
ghost use Rattle.sys_table.specs.declared.table.TheConstants.{NUMBER_LIMIT};
ghost use Rattle.oci_profile.specs.RuntimeDefault.{allowed_below, allowed_entry, clone3_entry, clone_entry};
ghost use Rattle.oci_profile.specs.RuntimeDefault.{default_entries, entry_named, excluded, excludes};
ghost use Rattle.oci_profile.specs.RuntimeDefault.{is_allowed, personalities, personality_entry};
ghost use Rattle.oci_profile.specs.RuntimeDefault.{runtime_default};

use crate::conditions::{Cond, Conds, Op};
use crate::decision::{Decision, Errno};
use crate::profile::{Entries, Entry, Numbers, Profile};
use std::alloc::{AllocError, Global};
use sys_table::{NUMBER_LIMIT, names_and_numbers_agree};

// Calls that change the machine, or other containers, and those that another entry decides.
#[rattlefmt::skip]
static EXCLUDED: [&str; 62] = [
    "acct", "add_key", "bpf", "clock_settime", "clone", "clone3", "create_module",
    "delete_module", "fanotify_init", "finit_module", "fsconfig", "fsmount", "fsopen", "fspick",
    "get_kernel_syms", "get_mempolicy", "init_module", "io_uring_enter", "io_uring_register",
    "io_uring_setup", "ioperm", "iopl", "kcmp", "kexec_file_load", "kexec_load", "keyctl",
    "lookup_dcookie", "mbind", "mount", "move_mount", "move_pages", "name_to_handle_at",
    "nfsservctl", "open_by_handle_at", "open_tree", "perf_event_open", "personality",
    "pidfd_getfd", "pivot_root", "process_vm_readv", "process_vm_writev", "ptrace",
    "query_module", "quotactl", "reboot", "request_key", "set_mempolicy", "setdomainname",
    "sethostname", "setns", "settimeofday", "swapoff", "swapon", "sysfs", "syslog", "umount2",
    "unshare", "uselib", "userfaultfd", "ustat", "vhangup", "_sysctl",
];

// The allowed arguments of `personality`: PER_LINUX, PER_LINUX32, each with UNAME26, and 0xffffffff, a query.
static PERSONALITIES: [u64; 5] = [0, 8, 131_072, 131_080, 4_294_967_295];

// CLONE_NEWNS and the other flags that make a namespace.
const CLONE_NAMESPACES: u64 = 0x7e02_0000;

/// The profile of a container that asks for RuntimeDefault: every call is refused with EPERM, except those
/// that a container may make.
pub fn runtime_default(alloc: Global) -> Result<Profile, AllocError>
    ensures { IfOk result (λ profile. profile ≡ runtime_default) }
{
    names_and_numbers_agree();
    let entries = default_entries(alloc)?;
    Ok(Profile::new(Decision::Errno(Errno::eperm()), Entries::new(entries)))
}

#[tactic(auto, unfolding(crate::specs::RuntimeDefault::default_entries))]
fn default_entries(alloc: Global) -> Result<Vec<Entry>, AllocError>
    ensures { IfOk result (λ v. v.items ≡ default_entries) }
{
    let mut entries = Vec::new(alloc);
    entries.push(clone3_entry(alloc)?)?;
    entries.push(clone_entry(alloc)?)?;
    let mut entries = with_personalities(alloc, entries)?;
    entries.push(allowed_entry(alloc)?)?;
    Ok(entries)
}

fn with_personalities(alloc: Global, mut entries: Vec<Entry>) -> Result<Vec<Entry>, AllocError>
    ensures { IfOk result (λ v. v.items ≡ entries.items ++ map personality_entry personalities) }
{
    for persona in personalities() {
        entries.push(personality_entry(alloc, *persona)?)?;
    }
    Ok(entries)
}

#[tactic(auto, unfolding(crate::specs::RuntimeDefault::personalities))]
fn personalities() -> &'static [u64]
    ensures { result.now ≡ personalities }
{
    &PERSONALITIES
}

fn clone3_entry(alloc: Global) -> Result<Entry, AllocError>
    ensures { IfOk result (λ entry. entry ≡ clone3_entry) }
{
    let none = Conds::new(Vec::new(alloc));
    entry_named(alloc, "clone3", Decision::Errno(Errno::enosys()), none)
}

fn clone_entry(alloc: Global) -> Result<Entry, AllocError>
    ensures { IfOk result (λ entry. entry ≡ clone_entry) }
{
    let conds = first_argument(alloc, Op::MaskedEqual, CLONE_NAMESPACES)?;
    entry_named(alloc, "clone", Decision::Allow, conds)
}

fn personality_entry(alloc: Global, persona: u64) -> Result<Entry, AllocError>
    ensures { IfOk result (λ entry. entry ≡ personality_entry persona) }
{
    let conds = first_argument(alloc, Op::Equal, persona)?;
    entry_named(alloc, "personality", Decision::Allow, conds)
}

#[tactic(auto, unfolding(crate::specs::RuntimeDefault::allowed_entry))]
fn allowed_entry(alloc: Global) -> Result<Entry, AllocError>
    ensures { IfOk result (λ entry. entry ≡ allowed_entry) }
{
    let numbers = allowed_below(alloc, NUMBER_LIMIT as u32)?;
    let none = Conds::new(Vec::new(alloc));
    Ok(Entry::new(numbers, Decision::Allow, none))
}

// The condition that compares the first argument with this value, or, for MaskedEqual, the argument under
// this mask with 0.
#[tactic(auto, using(crate::proofs::CondLists::one_fits))]
fn first_argument(alloc: Global, op: Op, value: u64) -> Result<Conds, AllocError>
    ensures { IfOk result (λ conds. conds
        ≡ record { index = 0; op = op; value = value; value_two = 0 } ∷ []) }
{
    let mut conds = Vec::new(alloc);
    conds.push(Cond {
        index: 0,
        op,
        value,
        value_two: 0,
    })?;
    Ok(Conds::new(conds))
}

#[tactic(auto, unfolding(crate::specs::RuntimeDefault::entry_named))]
fn entry_named(
    alloc: Global,
    name: &str,
    decision: Decision,
    conds: Conds,
) -> Result<Entry, AllocError>
    ensures { IfOk result (λ entry. entry ≡ entry_named name.now decision conds) }
{
    let numbers = numbers_of_name(alloc, name)?;
    Ok(Entry::new(numbers, decision, conds))
}

#[tactic(auto, using(crate::proofs::Fits::one_number_fits))]
fn numbers_of_name(alloc: Global, name: &str) -> Result<Numbers, AllocError>
    ensures { IfOk result (λ numbers. numbers ≡ cons_option (number_of name.now) []) }
{
    names_and_numbers_agree();
    let mut numbers = Vec::new(alloc);
    if let Some(number) = sys_table::number(name) {
        numbers.push(number)?;
    }
    Ok(Numbers::new(numbers))
}

// The calls below the limit that are allowed whatever their arguments.
#[tactic(auto, using(crate::proofs::Default::allowed_none, crate::proofs::Default::allowed_taken, crate::proofs::Default::allowed_left, crate::proofs::Default::allowed_fit))]
fn allowed_below(alloc: Global, limit: u32) -> Result<Numbers, AllocError>
    requires { limit ≤ NUMBER_LIMIT }
    ensures { IfOk result (λ numbers. numbers ≡ allowed_below limit) }
{
    let mut numbers = Vec::new(alloc);
    for nr in 0..limit {
        if is_allowed(nr) {
            numbers.push(nr)?;
        }
    }
    Ok(Numbers::new(numbers))
}

#[tactic(auto, unfolding(crate::specs::RuntimeDefault::is_allowed))]
fn is_allowed(nr: u32) -> bool
    ensures { result ≡ is_allowed nr }
{
    match sys_table::name(nr) {
        Some(name) => !excludes(name),
        None => false,
    }
}

#[tactic(auto, unfolding(crate::specs::RuntimeDefault::excludes))]
fn excludes(name: &str) -> bool
    ensures { result ≡ excludes name.now }
{
    for other in excluded() {
        if name == *other {
            return true;
        }
    }
    false
}

#[tactic(auto, unfolding(crate::specs::RuntimeDefault::excluded))]
fn excluded() -> &'static [&'static str]
    ensures { map (λ name. name.now) result.now ≡ excluded }
{
    &EXCLUDED
}
