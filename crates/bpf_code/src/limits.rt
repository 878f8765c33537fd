/// The greatest number of instructions of a filter: `BPF_MAXINSNS` of linux/bpf_common.h.
pub const MAX_INSNS: usize = 4096;

/// The greatest length of a filter file in bytes, eight for each instruction.
pub const MAX_BYTES: usize = 32_768;

/// The length of a call's data in bytes: the size of `struct seccomp_data`, seccomp(2).
pub const DATA_LEN: u32 = 64;

/// The number of scratch words: `BPF_MEMWORDS` of linux/filter.h.
pub const SCRATCH_WORDS: u32 = 16;
