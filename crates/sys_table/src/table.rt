/// Every number of a call of Linux 5.8 is below this one.
pub const NUMBER_LIMIT: usize = 440;

/// Every number in the table is below this one.
pub const TABLE_LIMIT: usize = 463;

/// The call of Linux 6.12 with a number below [`NUMBER_LIMIT`] that Linux 5.8 lacks: `uretprobe`.
pub(crate) const LATE_NUMBER: u32 = 335;

// The name of each call of Linux 6.12 at its number, as asm/unistd_64.h has them. The text is empty if no call
// has the number, or one that Linux does not implement on x86-64, such as `vserver`.
#[rattlefmt::skip]
pub(crate) static NAMES: [&str; TABLE_LIMIT] = [
    // 0
    "read", "write", "open", "close", "stat", "fstat", "lstat", "poll", "lseek", "mmap",
    // 10
    "mprotect", "munmap", "brk", "rt_sigaction", "rt_sigprocmask", "rt_sigreturn", "ioctl",
    "pread64", "pwrite64", "readv",
    // 20
    "writev", "access", "pipe", "select", "sched_yield", "mremap", "msync", "mincore", "madvise",
    "shmget",
    // 30
    "shmat", "shmctl", "dup", "dup2", "pause", "nanosleep", "getitimer", "alarm", "setitimer",
    "getpid",
    // 40
    "sendfile", "socket", "connect", "accept", "sendto", "recvfrom", "sendmsg", "recvmsg",
    "shutdown", "bind",
    // 50
    "listen", "getsockname", "getpeername", "socketpair", "setsockopt", "getsockopt", "clone",
    "fork", "vfork", "execve",
    // 60
    "exit", "wait4", "kill", "uname", "semget", "semop", "semctl", "shmdt", "msgget", "msgsnd",
    // 70
    "msgrcv", "msgctl", "fcntl", "flock", "fsync", "fdatasync", "truncate", "ftruncate",
    "getdents", "getcwd",
    // 80
    "chdir", "fchdir", "rename", "mkdir", "rmdir", "creat", "link", "unlink", "symlink",
    "readlink",
    // 90
    "chmod", "fchmod", "chown", "fchown", "lchown", "umask", "gettimeofday", "getrlimit",
    "getrusage", "sysinfo",
    // 100
    "times", "ptrace", "getuid", "syslog", "getgid", "setuid", "setgid", "geteuid", "getegid",
    "setpgid",
    // 110
    "getppid", "getpgrp", "setsid", "setreuid", "setregid", "getgroups", "setgroups", "setresuid",
    "getresuid", "setresgid",
    // 120
    "getresgid", "getpgid", "setfsuid", "setfsgid", "getsid", "capget", "capset", "rt_sigpending",
    "rt_sigtimedwait", "rt_sigqueueinfo",
    // 130
    "rt_sigsuspend", "sigaltstack", "utime", "mknod", "uselib", "personality", "ustat", "statfs",
    "fstatfs", "sysfs",
    // 140
    "getpriority", "setpriority", "sched_setparam", "sched_getparam", "sched_setscheduler",
    "sched_getscheduler", "sched_get_priority_max", "sched_get_priority_min",
    "sched_rr_get_interval", "mlock",
    // 150
    "munlock", "mlockall", "munlockall", "vhangup", "modify_ldt", "pivot_root", "_sysctl",
    "prctl", "arch_prctl", "adjtimex",
    // 160
    "setrlimit", "chroot", "sync", "acct", "settimeofday", "mount", "umount2", "swapon",
    "swapoff", "reboot",
    // 170
    "sethostname", "setdomainname", "iopl", "ioperm", "create_module", "init_module",
    "delete_module", "get_kernel_syms", "query_module", "quotactl",
    // 180
    "nfsservctl", "", "", "", "", "", "gettid", "readahead", "setxattr", "lsetxattr",
    // 190
    "fsetxattr", "getxattr", "lgetxattr", "fgetxattr", "listxattr", "llistxattr", "flistxattr",
    "removexattr", "lremovexattr", "fremovexattr",
    // 200
    "tkill", "time", "futex", "sched_setaffinity", "sched_getaffinity", "", "io_setup",
    "io_destroy", "io_getevents", "io_submit",
    // 210
    "io_cancel", "", "lookup_dcookie", "epoll_create", "", "", "remap_file_pages", "getdents64",
    "set_tid_address", "restart_syscall",
    // 220
    "semtimedop", "fadvise64", "timer_create", "timer_settime", "timer_gettime",
    "timer_getoverrun", "timer_delete", "clock_settime", "clock_gettime", "clock_getres",
    // 230
    "clock_nanosleep", "exit_group", "epoll_wait", "epoll_ctl", "tgkill", "utimes", "", "mbind",
    "set_mempolicy", "get_mempolicy",
    // 240
    "mq_open", "mq_unlink", "mq_timedsend", "mq_timedreceive", "mq_notify", "mq_getsetattr",
    "kexec_load", "waitid", "add_key", "request_key",
    // 250
    "keyctl", "ioprio_set", "ioprio_get", "inotify_init", "inotify_add_watch", "inotify_rm_watch",
    "migrate_pages", "openat", "mkdirat", "mknodat",
    // 260
    "fchownat", "futimesat", "newfstatat", "unlinkat", "renameat", "linkat", "symlinkat",
    "readlinkat", "fchmodat", "faccessat",
    // 270
    "pselect6", "ppoll", "unshare", "set_robust_list", "get_robust_list", "splice", "tee",
    "sync_file_range", "vmsplice", "move_pages",
    // 280
    "utimensat", "epoll_pwait", "signalfd", "timerfd_create", "eventfd", "fallocate",
    "timerfd_settime", "timerfd_gettime", "accept4", "signalfd4",
    // 290
    "eventfd2", "epoll_create1", "dup3", "pipe2", "inotify_init1", "preadv", "pwritev",
    "rt_tgsigqueueinfo", "perf_event_open", "recvmmsg",
    // 300
    "fanotify_init", "fanotify_mark", "prlimit64", "name_to_handle_at", "open_by_handle_at",
    "clock_adjtime", "syncfs", "sendmmsg", "setns", "getcpu",
    // 310
    "process_vm_readv", "process_vm_writev", "kcmp", "finit_module", "sched_setattr",
    "sched_getattr", "renameat2", "seccomp", "getrandom", "memfd_create",
    // 320
    "kexec_file_load", "bpf", "execveat", "userfaultfd", "membarrier", "mlock2",
    "copy_file_range", "preadv2", "pwritev2", "pkey_mprotect",
    // 330
    "pkey_alloc", "pkey_free", "statx", "io_pgetevents", "rseq", "uretprobe", "", "", "", "",
    // 340
    "", "", "", "", "", "", "", "", "", "",
    // 350
    "", "", "", "", "", "", "", "", "", "",
    // 360
    "", "", "", "", "", "", "", "", "", "",
    // 370
    "", "", "", "", "", "", "", "", "", "",
    // 380
    "", "", "", "", "", "", "", "", "", "",
    // 390
    "", "", "", "", "", "", "", "", "", "",
    // 400
    "", "", "", "", "", "", "", "", "", "",
    // 410
    "", "", "", "", "", "", "", "", "", "",
    // 420
    "", "", "", "", "pidfd_send_signal", "io_uring_setup", "io_uring_enter", "io_uring_register",
    "open_tree", "move_mount",
    // 430
    "fsopen", "fsconfig", "fsmount", "fspick", "pidfd_open", "clone3", "close_range", "openat2",
    "pidfd_getfd", "faccessat2",
    // 440
    "process_madvise", "epoll_pwait2", "mount_setattr", "quotactl_fd", "landlock_create_ruleset",
    "landlock_add_rule", "landlock_restrict_self", "memfd_secret", "process_mrelease", "futex_waitv",
    // 450
    "set_mempolicy_home_node", "cachestat", "fchmodat2", "map_shadow_stack", "futex_wake",
    "futex_wait", "futex_requeue", "statmount", "listmount", "lsm_get_self_attr",
    // 460
    "lsm_set_self_attr", "lsm_list_modules", "mseal",
];

// The numbers that have a name, in the order of the names, byte by byte.
#[rattlefmt::skip]
pub(crate) static BY_NAME: [u16; 365] = [
    156, 43, 288, 21, 163, 248, 159, 37, 158, 49, 321, 12, 451, 125, 126, 80, 90, 92, 161, 305, 229,
    228, 230, 227, 56, 435, 3, 436, 42, 326, 85, 174, 176, 32, 33, 292, 213, 291, 233, 281, 441, 232,
    284, 290, 59, 322, 60, 231, 269, 439, 221, 285, 300, 301, 81, 91, 268, 452, 93, 260, 72, 75, 193,
    313, 196, 73, 57, 199, 431, 190, 432, 430, 433, 5, 138, 74, 77, 202, 456, 455, 449, 454, 261,
    177, 239, 274, 309, 79, 78, 217, 108, 107, 104, 115, 36, 52, 121, 111, 39, 110, 140, 318, 120,
    118, 97, 98, 124, 51, 55, 186, 96, 102, 191, 175, 254, 253, 294, 255, 210, 207, 208, 333, 206,
    209, 426, 427, 425, 16, 173, 172, 252, 251, 312, 320, 246, 250, 62, 445, 444, 446, 94, 192, 86,
    265, 50, 458, 194, 195, 212, 198, 8, 189, 459, 461, 460, 6, 28, 453, 237, 324, 319, 447, 256, 27,
    83, 258, 133, 259, 149, 325, 151, 9, 154, 165, 442, 429, 279, 10, 245, 244, 240, 243, 242, 241,
    25, 462, 71, 68, 70, 69, 26, 150, 152, 11, 303, 35, 262, 180, 2, 304, 428, 257, 437, 34, 298,
    135, 438, 434, 424, 22, 293, 155, 330, 331, 329, 7, 271, 157, 17, 295, 327, 302, 440, 448, 310,
    311, 270, 101, 18, 296, 328, 178, 179, 443, 0, 187, 89, 267, 19, 169, 45, 299, 47, 216, 197, 82,
    264, 316, 249, 219, 84, 334, 13, 127, 14, 129, 15, 130, 128, 297, 146, 147, 204, 315, 143, 145,
    148, 203, 314, 142, 144, 24, 317, 23, 66, 64, 65, 220, 40, 307, 46, 44, 238, 450, 273, 218, 171,
    123, 122, 106, 116, 170, 38, 308, 109, 141, 114, 119, 117, 113, 160, 112, 54, 164, 105, 188, 30,
    31, 67, 29, 48, 131, 282, 289, 41, 53, 275, 4, 137, 457, 332, 168, 167, 88, 266, 162, 277, 306,
    139, 99, 103, 276, 234, 201, 222, 226, 225, 224, 223, 283, 287, 286, 100, 200, 76, 95, 166, 63,
    87, 263, 272, 335, 134, 323, 136, 132, 280, 235, 58, 153, 278, 61, 247, 1, 20,
];
