use oci_profile::*;
use std::alloc::{AllocError, Global};
use sys_table::NUMBER_LIMIT;

// The calls that the last entry leaves out.
const LEFT_OUT: &str = "acct add_key bpf clock_settime clone clone3 create_module delete_module \
fanotify_init finit_module fsconfig fsmount fsopen fspick get_kernel_syms get_mempolicy init_module \
io_uring_enter io_uring_register io_uring_setup ioperm iopl kcmp kexec_file_load kexec_load keyctl \
lookup_dcookie mbind mount move_mount move_pages name_to_handle_at nfsservctl open_by_handle_at \
open_tree perf_event_open personality pidfd_getfd pivot_root process_vm_readv process_vm_writev \
ptrace query_module quotactl reboot request_key set_mempolicy setdomainname sethostname setns \
settimeofday swapoff swapon sysfs syslog umount2 unshare uselib userfaultfd ustat vhangup _sysctl";

const CONDITIONAL: &str = "{\"names\":[\"clone3\"],\"action\":\"SCMP_ACT_ERRNO\",\"errnoRet\":38,
    \"includes\":{\"minKernel\":\"4.8\"},\"excludes\":{\"caps\":[\"CAP_SYS_ADMIN\"]},\"comment\":\"\"},
    {\"names\":[\"clone\"],\"action\":\"SCMP_ACT_ALLOW\",\"args\":[
        {\"index\":0,\"value\":2114060288,\"valueTwo\":0,\"op\":\"SCMP_CMP_MASKED_EQ\"}]}";

// The text of RuntimeDefault, with fields that engines add to the standard's, reads as RuntimeDefault.
#[test]
fn as_its_text(rt: HostRuntime) {
    let text = default_text(rt.alloc()).expect(&rt, "memory");
    let made = runtime_default(rt.alloc()).expect(&rt, "memory");
    match read(rt.alloc(), text.as_bytes()) {
        Ok(found) => assert!(rt; are_same(&found, &made), "{text}"),
        Err(fault) => assert!(rt; false, "{fault} {text}"),
    }
}

fn default_text(alloc: Global) -> Result<String, AllocError> {
    let mut text = String::from_str(
        alloc,
        "{\"defaultAction\":\"SCMP_ACT_ERRNO\",\"defaultErrno\":\"EPERM\",
        \"archMap\":[{\"architecture\":\"SCMP_ARCH_X86_64\"}],\"syscalls\":[",
    )?;
    text.push_str(CONDITIONAL)?;
    for persona in [0, 8, 131_072, 131_080, 4_294_967_295u64] {
        let entry = format!(in alloc;
            ",{{\"names\":[\"personality\"],\"action\":\"SCMP_ACT_ALLOW\",\"args\":[
            {{\"index\":0,\"value\":{persona},\"op\":\"SCMP_CMP_EQ\"}}]}}"
        )?;
        text.push_str(entry.as_str())?;
    }
    text.push_str(",{\"action\":\"SCMP_ACT_ALLOW\",\"names\":[\"nosuchcall\"")?;
    for nr in 0..NUMBER_LIMIT as u32 {
        if let Some(name) = sys_table::name(nr) {
            if !is_left_out(name) {
                let item = format!(in alloc; ",\"{name}\"")?;
                text.push_str(item.as_str())?;
            }
        }
    }
    text.push_str("]}]}")?;
    Ok(text)
}

fn is_left_out(name: &str) -> bool {
    LEFT_OUT.split(' ').any(|other| other == name)
}

fn are_same(one: &Profile, other: &Profile) -> bool {
    let ones = one.entries.as_slice();
    let others = other.entries.as_slice();
    if one.default != other.default || ones.len() != others.len() {
        return false;
    }
    for (left, right) in ones.iter().zip(others) {
        if !are_same_entries(left, right) {
            return false;
        }
    }
    true
}

fn are_same_entries(one: &Entry, other: &Entry) -> bool {
    one.numbers.as_slice() == other.numbers.as_slice()
        && one.decision == other.decision
        && one.conds.as_slice() == other.conds.as_slice()
}

#[test]
fn values(rt: HostRuntime) {
    constants_are_as_stated();
    runtime_default_is_light();
    let profile = runtime_default(rt.alloc()).expect(&rt, "memory");
    let cases = [
        ("clone", 0x0120_0011, 0x7fff_0000),
        ("clone", 0x1000_0000, 0x0005_0001),
        ("clone3", 0, 0x0005_0026),
        ("ptrace", 0, 0x0005_0001),
        ("read", 0, 0x7fff_0000),
        ("personality", 0xffff_ffff, 0x7fff_0000),
        ("personality", 1, 0x0005_0001),
        ("faccessat2", 0, 0x7fff_0000),
    ];
    for (name, first, want) in cases {
        let nr = sys_table::number(name).expect(&rt, "a name of the table");
        let call = call_data::SysCall {
            nr,
            arch: call_data::NATIVE_ARCH,
            ip: 0,
            args: [first, 0, 0, 0, 0, 0],
        };
        assert_eq!(rt; profile.value_on(&call), want, "{name}");
    }
}
