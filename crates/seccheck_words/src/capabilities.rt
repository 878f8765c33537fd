ghost use Rattle.std.specs.Prelude.{◌≡◌, ◌||◌, drop, map, option_map};
ghost use Rattle.std.specs.Str.{bytes_eq};
ghost use Rattle.seccheck_words.specs.Capabilities.{cap_named, capabilities, is_named, named_among};

// The capabilities of Linux in the order of their numbers: capabilities(7), linux/capability.h.
static CAPABILITIES: [&str; 41] = [
    "CAP_CHOWN",
    "CAP_DAC_OVERRIDE",
    "CAP_DAC_READ_SEARCH",
    "CAP_FOWNER",
    "CAP_FSETID",
    "CAP_KILL",
    "CAP_SETGID",
    "CAP_SETUID",
    "CAP_SETPCAP",
    "CAP_LINUX_IMMUTABLE",
    "CAP_NET_BIND_SERVICE",
    "CAP_NET_BROADCAST",
    "CAP_NET_ADMIN",
    "CAP_NET_RAW",
    "CAP_IPC_LOCK",
    "CAP_IPC_OWNER",
    "CAP_SYS_MODULE",
    "CAP_SYS_RAWIO",
    "CAP_SYS_CHROOT",
    "CAP_SYS_PTRACE",
    "CAP_SYS_PACCT",
    "CAP_SYS_ADMIN",
    "CAP_SYS_BOOT",
    "CAP_SYS_NICE",
    "CAP_SYS_RESOURCE",
    "CAP_SYS_TIME",
    "CAP_SYS_TTY_CONFIG",
    "CAP_MKNOD",
    "CAP_LEASE",
    "CAP_AUDIT_WRITE",
    "CAP_AUDIT_CONTROL",
    "CAP_SETFCAP",
    "CAP_MAC_OVERRIDE",
    "CAP_MAC_ADMIN",
    "CAP_SYSLOG",
    "CAP_WAKE_ALARM",
    "CAP_BLOCK_SUSPEND",
    "CAP_AUDIT_READ",
    "CAP_PERFMON",
    "CAP_BPF",
    "CAP_CHECKPOINT_RESTORE",
];

#[tactic(auto, unfolding(crate::specs::Capabilities::capabilities))]
fn capabilities() -> &'static [&'static str]
    ensures { map (λ name. name.now) result.now ≡ capabilities }
{
    &CAPABILITIES
}

/// The whole name of the capability that the word names, with `CAP_` in front or without it.
#[tactic(auto, unfolding(crate::specs::Capabilities::cap_named))]
pub fn cap_named(word: &str) -> Option<&'static str>
    ensures { option_map (λ name. name.now) result ≡ cap_named word.now }
{
    named_among(capabilities(), word)
}

fn named_among(names: &'static [&'static str], word: &str) -> Option<&'static str>
    ensures { option_map (λ name. name.now) result ≡ named_among (map (λ name. name.now) names.now) word.now }
{
    let (name, others) = names.split_first()?;
    if is_named(name, word) {
        Some(*name)
    } else {
        named_among(others, word)
    }
}

fn is_named(name: &str, word: &str) -> bool
    ensures { result ≡ is_named name.now word.now }
{
    name == word || without_cap(name) == word.as_bytes()
}

fn without_cap(name: &str) -> &[u8]
    ensures { result.now ≡ drop 4 name.now }
{
    name.as_bytes().get(4..).unwrap_or(&[])
}
