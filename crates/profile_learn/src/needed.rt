ghost use Rattle.std.specs.Prelude.{◌≡◌, map};
ghost use Rattle.profile_learn.specs.Needed.{is_needed, is_needed_name, needed};

// Calls that any program may need, although no trace has them.
#[rattlefmt::skip]
static NEEDED: [&str; 17] = [
    "brk", "clock_gettime", "execve", "exit", "exit_group", "futex", "getcpu", "gettimeofday",
    "madvise", "mmap", "mprotect", "mremap", "munmap", "restart_syscall", "rt_sigreturn",
    "sched_yield", "time",
];

#[tactic(auto, unfolding(crate::specs::Needed::needed))]
fn needed() -> &'static [&'static str]
    ensures { map (λ name. name.now) result.now ≡ needed }
{
    &NEEDED
}

/// Whether the call with this number is one of them.
#[tactic(auto, unfolding(crate::specs::Needed::is_needed))]
pub(crate) fn is_needed(number: u32) -> bool
    ensures { result ≡ is_needed number }
{
    match sys_table::name(number) {
        Some(name) => is_needed_name(name),
        None => false,
    }
}

#[tactic(auto, unfolding(crate::specs::Needed::is_needed_name))]
fn is_needed_name(name: &str) -> bool
    ensures { result ≡ is_needed_name name.now }
{
    for other in needed() {
        if name == *other {
            return true;
        }
    }
    false
}
