use crate::{SysCall, word_of, words_of_fields};

// `clone` of x86-64. No two bytes of ip are the same, nor of the second argument.
const CALL: SysCall = SysCall {
    nr: 56,
    arch: 0xc000_003e,
    ip: 0x0807_0605_0403_0201,
    args: [
        0x0120_0011,
        0xf8f7_f6f5_f4f3_f2f1,
        0,
        1,
        0x1_0000_0000,
        u64::MAX,
    ],
};

// As `struct.pack("<IIQ6Q", ..)` of Python writes it.
#[test]
fn bytes_as_the_kernel_lays_them_out(rt: HostRuntime) {
    let bytes = CALL.to_bytes();
    let want = [
        56, 0, 0, 0, 0x3e, 0, 0, 0xc0, 1, 2, 3, 4, 5, 6, 7, 8, //
        0x11, 0, 0x20, 1, 0, 0, 0, 0, 0xf1, 0xf2, 0xf3, 0xf4, 0xf5, 0xf6, 0xf7, 0xf8, //
        0, 0, 0, 0, 0, 0, 0, 0, 1, 0, 0, 0, 0, 0, 0, 0, //
        0, 0, 0, 0, 1, 0, 0, 0, 0xff, 0xff, 0xff, 0xff, 0xff, 0xff, 0xff, 0xff,
    ];
    assert_eq!(rt; bytes.as_slice(), want.as_slice());
}

#[test]
fn words_at_their_offsets(rt: HostRuntime) {
    words_of_fields();
    let bytes = CALL.to_bytes();
    assert_eq!(rt; CALL.word(0), 56);
    assert_eq!(rt; CALL.word(4), 0xc000_003e);
    assert_eq!(rt; CALL.word(12), 0x0807_0605);
    assert_eq!(rt; CALL.word(24), 0xf4f3_f2f1);
    assert_eq!(rt; word_of(&bytes, 28), 0xf8f7_f6f5);
    assert_eq!(rt; word_of(&bytes, 52), 1);
    assert_eq!(rt; word_of(&bytes, 60), u32::MAX);
}
