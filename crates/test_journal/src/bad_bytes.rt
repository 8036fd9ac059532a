use crate::inputs::{disk_of, site};
use std::alloc::Global;
use std::test::Fail;
use td_disk::MemDisk;
use td_doc::Rows;
use td_journal::{Kept, OpenFault};

// How many entries the journal of site 1 of 2 with these bytes has, or why it is none.
fn opened(alloc: Global, bytes: &[u8]) -> Result<Result<u64, OpenFault>, Fail> {
    if bytes.len() > 1000 {
        return Err(Fail::new("too many bytes"));
    }
    let disk = disk_of(alloc, bytes)?;
    match Kept::<Rows, MemDisk>::open(alloc, site(1)?, 2, disk) {
        Ok(kept) => Ok(Ok(kept.replica().entries())),
        Err(refused) => Ok(Err(refused.why)),
    }
}

#[test]
fn bytes_are_read_as_far_as_they_are_a_journal(rt: HostRuntime) -> Result<(), Fail> {
    for (bytes, answer) in [
        // the header
        (b"".as_slice(), Err(0)),
        (b"TJ", Err(2)),
        (b"TJ2", Err(3)),
        (b"TJ3\x01\x02\0", Err(2)),
        (b"TJ1\x02\x02\0", Err(3)),
        (b"TJ1\x01\x03\0", Err(4)),
        (b"TJ1\x01\x02", Err(5)),
        (b"TJ1\x01\x02\0", Ok(0)),
        (b"TJ1\x01\x02\x07after a crash", Ok(0)),
        // records of Next
        (b"TJ1\x01\x02\x01\0\x01\x03\0", Ok(1)),
        (b"TJ1\x01\x02\x01\0\x01\x03\x01\0\x01\x03\x02\x01", Ok(2)),
        (b"TJ1\x01\x02\x01\0\x01\x03", Err(9)),
        (b"TJ1\x01\x02\x01\0\x01\x03\x01\0", Err(9)),
        (b"TJ1\x01\x02\x01\0\x01\x04\0", Err(5)),
        (b"TJ1\x01\x02\x01\0\x02\x03\0\0", Err(5)),
        // with checks
        (b"TJ2\x01\x02\xd3\xd1\xe0\x6b\0", Ok(0)),
        (b"TJ2\x01\x02\xd3\xd1\xe0\x6a\0", Err(5)),
        (b"TJ2\x01\x02\xe7\x36\x48\xf2\0", Err(5)),
        (
            b"TJ2\x01\x02\xd3\xd1\xe0\x6b\x01\0\x01\x03\x87\xc5\x9b\x92\0",
            Ok(1),
        ),
        (
            b"TJ2\x01\x02\xd3\xd1\xe0\x6b\x01\0\x01\x03\x87\xc5\x9b\x92\x01\0\x01\x03\x74\xf9\x5b\xa9\0",
            Ok(2),
        ),
        // the second record in the place of the first, one that is checked by itself, and one without a check
        (
            b"TJ2\x01\x02\xd3\xd1\xe0\x6b\x01\0\x01\x03\x74\xf9\x5b\xa9\0",
            Err(9),
        ),
        (
            b"TJ2\x01\x02\xd3\xd1\xe0\x6b\x01\0\x01\x03\x60\x96\xc8\xf9\0",
            Err(9),
        ),
        (b"TJ2\x01\x02\xd3\xd1\xe0\x6b\x01\0\x01\x03\0", Err(9)),
    ] {
        let want = answer.map_err(|at| OpenFault::Bad { at });
        assert_eq!(rt; opened(rt.alloc(), bytes)?, want, "at {bytes:?}");
    }
    Ok(())
}

#[test]
fn a_bit_that_flips_behind_a_gate_is_told(rt: HostRuntime) -> Result<(), Fail> {
    // the gate of the record is at 9
    let bytes =
        *b"TJ2\x01\x02\xd3\xd1\xe0\x6b\x01\0\x09\x01\x01\0\0\0\0\x01\x01a\x7f\x1e\x96\x26\0";
    assert_eq!(rt; opened(rt.alloc(), &bytes)?, Ok(1));
    for place in 10..25 {
        for bit in [1, 2, 4, 8, 16, 32, 64, 128] {
            let mut flipped = bytes;
            flipped[place] ^= bit;
            assert_eq!(rt;
                opened(rt.alloc(), &flipped)?,
                Err(OpenFault::Bad { at: 9 }),
                "at {place}, {bit}"
            );
        }
    }
    Ok(())
}
