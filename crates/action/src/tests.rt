use crate::{
    Action, ShownErrno, Verdict, errno_name, errno_number, ranks_are_an_order, values_round_trip,
    verdicts_round_trip,
};
use std::test::Fail;

// As seccomp(2) and linux/seccomp.h have them: a value's action and data, its rank, whether the call
// is performed, and the errno that it returns if it is not.
#[test]
fn values_of_the_manual(rt: HostRuntime) -> Result<(), Fail> {
    let cases = [
        (0x8000_0000, "KILL_PROCESS 0 0 false None"),
        (0x0000_0000, "KILL_THREAD 0 1 false None"),
        (0x0003_0002, "TRAP 2 2 false None"),
        (0x0005_000d, "ERRNO 13 3 false Some(13)"),
        (0x0005_0fff, "ERRNO 4095 3 false Some(4095)"),
        (0x0005_1000, "ERRNO 4096 3 false Some(4095)"),
        (0x7fc0_0001, "USER_NOTIF 1 4 false Some(38)"),
        (0x7ff0_0000, "TRACE 0 5 false Some(38)"),
        (0x7ffc_0000, "LOG 0 6 true None"),
        (0x7fff_0000, "ALLOW 0 7 true None"),
        (0x0fff_ffff, "KILL_PROCESS 65535 0 false None"),
        (0x0001_0007, "KILL_PROCESS 7 0 false None"),
    ];
    for (value, want) in cases {
        let verdict = Verdict::of_value(value);
        let action = verdict.action;
        let ret_data = verdict.ret_data;
        let rank = verdict.rank();
        let performs = verdict.performs();
        let errno = verdict.errno();
        let text = format!(in rt.alloc(); "{action} {ret_data} {rank} {performs} {errno:?}")?;
        assert_eq!(rt; text.as_str(), want);
    }
    Ok(())
}

#[test]
fn verdicts_have_values(rt: HostRuntime) {
    verdicts_round_trip();
    values_round_trip();
    ranks_are_an_order();
    let verdict = Verdict {
        action: Action::Errno,
        ret_data: 38,
    };
    assert_eq!(rt; verdict.value(), 0x0005_0026);
    assert_eq!(rt; verdict.action.rank(), 3);
}

// asm-generic/errno-base.h has EPERM at 1 and EAGAIN at 11. asm-generic/errno.h has EWOULDBLOCK as EAGAIN, ENOSYS
// at 38, EHWPOISON at 133, and nothing at 41, 58 and from 134 on.
#[test]
fn errnos_of_the_header(rt: HostRuntime) -> Result<(), Fail> {
    let mut told = String::new(rt.alloc());
    for code in [0, 1, 11, 38, 41, 58, 133, 134, 4095] {
        write!(told, "{}, ", ShownErrno(code))?;
    }
    let want = "0, 1 (EPERM), 11 (EAGAIN), 38 (ENOSYS), 41, 58, 133 (EHWPOISON), 134, 4095, ";
    assert_eq!(rt; told.as_str(), want);
    assert_eq!(rt; errno_number("ENOSYS"), Some(38));
    assert_eq!(rt; errno_number("EWOULDBLOCK"), Some(11));
    assert_eq!(rt; errno_number("enosys"), None);
    assert_eq!(rt; errno_number(""), None);
    assert_eq!(rt; errno_name(38), Some("ENOSYS"));
    Ok(())
}
