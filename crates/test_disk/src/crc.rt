use td_crc::{crc32c, crc32c_append};

const RISING: [u8; 32] = [
    0, 1, 2, 3, 4, 5, 6, 7, 8, 9, 10, 11, 12, 13, 14, 15, 16, 17, 18, 19, 20, 21, 22, 23, 24, 25,
    26, 27, 28, 29, 30, 31,
];

const FALLING: [u8; 32] = [
    31, 30, 29, 28, 27, 26, 25, 24, 23, 22, 21, 20, 19, 18, 17, 16, 15, 14, 13, 12, 11, 10, 9, 8,
    7, 6, 5, 4, 3, 2, 1, 0,
];

// A Read (10) command of iSCSI.
const READ: [u8; 48] = [
    0x01, 0xc0, 0, 0, 0, 0, 0, 0, 0, 0, 0, 0, 0, 0, 0, 0, 0x14, 0, 0, 0, 0, 0, 0x04, 0, 0, 0, 0,
    0x14, 0, 0, 0, 0x18, 0x28, 0, 0, 0, 0, 0, 0, 0, 0x02, 0, 0, 0, 0, 0, 0, 0,
];

// The digits, and the examples of RFC 3720, B.4, which writes the lowest byte of a check first.
#[test]
fn published_checks_are_computed(rt: HostRuntime) {
    for (bytes, check) in [
        (b"".as_slice(), 0),
        (b"123456789", 0xE306_9283),
        (&[0; 32], 0x8A91_36AA),
        (&[0xFF; 32], 0x62A8_AB43),
        (&RISING, 0x46DD_794E),
        (&FALLING, 0x113F_DB5C),
        (&READ, 0xD996_3A56),
    ] {
        assert_eq!(rt; crc32c(bytes), check, "at {bytes:?}");
        let (front, rest) = bytes.split_at(bytes.len() / 2);
        assert_eq!(rt; crc32c_append(crc32c(front), rest), check, "at {bytes:?}");
    }
}
