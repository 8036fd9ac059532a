use td_records::records_end;

#[test]
fn records_end_at_their_closed_gate(rt: HostRuntime) {
    for (bytes, end) in [
        (b"".as_slice(), None),
        (b"\0", Some(0)),
        (b"\x02after a crash", Some(0)),
        (b"\x01\0\x01a\0", Some(4)),
        (b"\x01\0\0\x01\0\x02ab\x07\x01", Some(8)),
        (b"\x01\0\x02a\0", None),
        (b"\x01\x01\0a\0", None),
        (b"\x01\0\x01a", None),
    ] {
        assert_eq!(rt; records_end(bytes), end, "at {bytes:?}");
    }
}
