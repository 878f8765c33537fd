use crate::{CallTable, name, number};
use std::test::Fail;

// Both ends of the table, and both sides of each gap, as syscalls(2) and asm/unistd_64.h have them.
#[test]
fn names_at_the_edges(rt: HostRuntime) {
    let cases = [
        (0, Some("read")),
        (1, Some("write")),
        (180, Some("nfsservctl")),
        (181, None),
        (185, None),
        (186, Some("gettid")),
        (204, Some("sched_getaffinity")),
        (205, None),
        (206, Some("io_setup")),
        (210, Some("io_cancel")),
        (211, None),
        (212, Some("lookup_dcookie")),
        (213, Some("epoll_create")),
        (214, None),
        (215, None),
        (216, Some("remap_file_pages")),
        (235, Some("utimes")),
        (236, None),
        (237, Some("mbind")),
        (334, Some("rseq")),
        (335, None),
        (423, None),
        (424, Some("pidfd_send_signal")),
        (439, Some("faccessat2")),
        (440, None),
        (u32::MAX, None),
    ];
    for (nr, want) in cases {
        assert_eq!(rt; name(nr), want, "{nr}");
        if let Some(text) = want {
            assert_eq!(rt; number(text), Some(nr), "{text}");
        }
    }
    for text in ["", "rea", "readx", "READ", "vserver", "nosuchcall"] {
        assert_eq!(rt; number(text), None, "{text}");
    }
}

// As asm/unistd_64.h of Linux 6.12 has them: the call of a gap, the calls above 439, and names that only
// Linux 6.12 knows.
#[test]
fn calls_of_linux_6_12(rt: HostRuntime) {
    let cases = [
        (0, Some("read")),
        (334, Some("rseq")),
        (335, Some("uretprobe")),
        (336, None),
        (423, None),
        (439, Some("faccessat2")),
        (440, Some("process_madvise")),
        (441, Some("epoll_pwait2")),
        (449, Some("futex_waitv")),
        (452, Some("fchmodat2")),
        (462, Some("mseal")),
        (463, None),
        (u32::MAX, None),
    ];
    for (nr, want) in cases {
        assert_eq!(rt; CallTable::Linux6_12.name(nr), want, "{nr}");
        if let Some(text) = want {
            assert_eq!(rt; CallTable::Linux6_12.number(text), Some(nr), "{text}");
        }
    }
    for text in ["uretprobe", "process_madvise", "mseal"] {
        assert_eq!(rt; number(text), None, "{text}");
    }
    assert_eq!(rt; CallTable::Linux5_8.limit(), 440);
    assert_eq!(rt; CallTable::Linux6_12.limit(), 463);
}

// The count of the calls, the sum of their numbers, and FNV-1a (64 bits) over a line `NUMBER NAME` for each
// of them in order, computed from a list of the calls outside this repository.
#[test]
fn sums_over_the_table(rt: HostRuntime) -> Result<(), Fail> {
    let (mut count, mut sum, mut hash) = (0u32, 0u32, 0xcbf2_9ce4_8422_2325u64);
    for nr in 0..1024 {
        if let Some(name) = name(nr) {
            let line = format!(in rt.alloc(); "{nr} {name}\n")?;
            for byte in line.as_bytes() {
                hash = (hash ^ u64::from(*byte)).wrapping_mul(0x100_0000_01b3);
            }
            count = count.wrapping_add(1);
            sum = sum.wrapping_add(nr);
        }
    }
    assert_eq!(rt; count, 341);
    assert_eq!(rt; sum, 60_853);
    assert_eq!(rt; hash, 0x7608_74a3_9c28_e5a2);
    Ok(())
}
