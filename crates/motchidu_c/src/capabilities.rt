ghost use Rattle.std.specs.Prelude.{◌≡◌, ◌/◌, ◌%◌, ◌^◌, ◌==◌, ◌<◌, IfOk, length, map};
ghost use Rattle.motchidu_c.specs.Templates.{cap_names, caps_in};

use std::alloc::{AllocError, Global};

/// The name of each capability at its number, as linux/capability.h has them.
#[rattlefmt::skip]
pub(crate) static CAP_NAMES: [&str; 41] = [
    // 0
    "CAP_CHOWN", "CAP_DAC_OVERRIDE", "CAP_DAC_READ_SEARCH", "CAP_FOWNER", "CAP_FSETID", "CAP_KILL",
    "CAP_SETGID", "CAP_SETUID", "CAP_SETPCAP", "CAP_LINUX_IMMUTABLE",
    // 10
    "CAP_NET_BIND_SERVICE", "CAP_NET_BROADCAST", "CAP_NET_ADMIN", "CAP_NET_RAW", "CAP_IPC_LOCK",
    "CAP_IPC_OWNER", "CAP_SYS_MODULE", "CAP_SYS_RAWIO", "CAP_SYS_CHROOT", "CAP_SYS_PTRACE",
    // 20
    "CAP_SYS_PACCT", "CAP_SYS_ADMIN", "CAP_SYS_BOOT", "CAP_SYS_NICE", "CAP_SYS_RESOURCE",
    "CAP_SYS_TIME", "CAP_SYS_TTY_CONFIG", "CAP_MKNOD", "CAP_LEASE", "CAP_AUDIT_WRITE",
    // 30
    "CAP_AUDIT_CONTROL", "CAP_SETFCAP", "CAP_MAC_OVERRIDE", "CAP_MAC_ADMIN", "CAP_SYSLOG",
    "CAP_WAKE_ALARM", "CAP_BLOCK_SUSPEND", "CAP_AUDIT_READ", "CAP_PERFMON", "CAP_BPF",
    // 40
    "CAP_CHECKPOINT_RESTORE",
];

#[tactic(auto, unfolding(crate::specs::Templates::cap_names))]
fn cap_names() -> &'static [&'static str]
    ensures names { map (λ name. name.now) result.now ≡ cap_names }
    ensures few { length result.now ≡ 41 }
{
    &CAP_NAMES
}

/// The names of the capabilities whose bits the mask has. A bit above all of them names none.
pub(crate) fn caps_in(alloc: Global, mask: u64) -> Result<Vec<&'static str>, AllocError>
    ensures { IfOk result (λ names. map (λ name. name.now) names.items ≡ caps_in mask) }
{
    let mut names = Vec::new(alloc);
    for (bit, name) in cap_names().iter().enumerate() {
        if has_bit(mask, bit) {
            names.push(*name)?;
        }
    }
    Ok(names)
}

/// Whether the mask has this bit.
fn has_bit(mask: u64, bit: usize) -> bool
    requires { bit < 64 }
    ensures { result ≡ (mask / 2 ^ bit % 2 == 1) }
{
    (mask >> bit) & 1 == 1
}
