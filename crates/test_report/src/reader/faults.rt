ghost use Rattle.std.specs.Prelude.{◌≤◌, length};

use super::traces::FIXED;
use std::alloc::Global;
use std::test::Fail;
use td_reader::{MAX_TRACE, ReadTraceFault, read_trace};

/// Bytes that are no trace, and their first faulty line.
const FAULTS: [(&str, u32); 40] = [
    ("", 1),
    ("\n", 1),
    ("end\n", 1),
    ("site 1\n", 1),
    ("sites 65\n", 1),
    ("sites 01\n", 1),
    ("sites  1\n", 1),
    ("sites 1", 1),
    ("sites +1\n", 1),
    ("sites 0\nsite 1\n", 2),
    ("sites 0\nend", 2),
    ("sites 0\nend\nend\n", 3),
    ("sites 1\nsites 1\n", 2),
    ("sites 1\nend\n", 2),
    ("sites 2\nsite 2\n", 2),
    ("sites 2\nsite 1\nsite 3\n", 3),
    ("sites 1\nsite 1\nsite 2\n", 3),
    ("sites 1\nsite 1\neditor 2 1\n", 3),
    ("sites 1\nsite 1\neditor 1 2\n", 3),
    ("sites 1\nsite 1\ncall 1 1\n", 3),
    (
        "sites 1\nsite 1\neditor 1 1\ncall 18446744073709551616 1\n",
        4,
    ),
    ("sites 1\nsite 1\neditor 1 1\n1 next -> idle\n", 4),
    ("sites 1\nsite 1\n2 next -> idle\n", 3),
    ("sites 1\nsite 1\n1 next -> idle \n", 3),
    ("sites 1\nsite 1\n1 next\n", 3),
    ("sites 1\nsite 1\n1 insert 4294967296 \"a\" -> idle\n", 3),
    ("sites 1\nsite 1\n1 insert 0 \"\" -> idle\n", 3),
    ("sites 1\nsite 1\n1 insert 0 \"\\t\" -> idle\n", 3),
    ("sites 1\nsite 1\n1 insert 0 \"a -> idle\n", 3),
    ("sites 1\nsite 1\n1 paste 0 -> idle\n", 3),
    ("sites 1\nsite 1\n1 deleteatom 1.1+0 -> idle\n", 3),
    ("sites 1\nsite 1\n1 deleteatom 1.1+64 -> idle\n", 3),
    ("sites 1\nsite 1\n1 cancel 65.1 -> idle\n", 3),
    ("sites 1\nsite 1\n1 cancel 1.65536 -> idle\n", 3),
    ("sites 1\nsite 1\n1 cancel 1.0 -> idle\n", 3),
    ("sites 1\nsite 1\n1 take vote 0 1.1 yes -> new\n", 3),
    ("sites 1\nsite 1\ntext 1 \"a\nb\"\n", 3),
    ("sites 1\nsite 1\ntext 2 \"a\"\n", 3),
    ("sites 1\nsite 1\ntext 1 \"a\"\neditor 1 1\n", 4),
    ("sites 1\nsite 1\ntext 1 \"a\"\n", 4),
];

// The first faulty line, or 0 where the bytes are a trace.
fn fault_of(alloc: Global, bytes: &[u8]) -> u32
    requires { length bytes.now ≤ MAX_TRACE }
{
    match read_trace(alloc, bytes) {
        Ok(_) => 0,
        Err(ReadTraceFault::Form { line }) => line,
        Err(ReadTraceFault::Memory) => u32::MAX,
    }
}

#[test]
fn the_first_faulty_line_is_told(rt: HostRuntime) -> Result<(), Fail> {
    for (text, line) in FAULTS {
        let bytes = text.as_bytes();
        assert!(rt; bytes.len() <= MAX_TRACE);
        assert_eq!(rt; fault_of(rt.alloc(), bytes), line, "{text}");
    }
    Ok(())
}

#[test]
fn a_trace_that_is_cut_off_lacks_its_next_line(rt: HostRuntime) -> Result<(), Fail> {
    let bytes = FIXED.as_bytes();
    assert!(rt; bytes.len() <= MAX_TRACE);
    let mut lines = 0;
    for (at, byte) in bytes.iter().enumerate() {
        if *byte == b'\n' && lines < 20 {
            lines += 1;
            assert_eq!(rt; fault_of(rt.alloc(), &bytes[..at + 1]), lines + 1);
            assert_eq!(rt; fault_of(rt.alloc(), &bytes[..at]), lines);
        }
    }
    assert_eq!(rt; lines, 20);
    Ok(())
}

#[test]
fn a_changed_line_is_the_faulty_one(rt: HostRuntime) -> Result<(), Fail> {
    let bytes = FIXED.as_bytes();
    assert!(rt; bytes.len() > 1 && bytes.len() <= MAX_TRACE);
    assert_eq!(rt; fault_of(rt.alloc(), &bytes[..bytes.len() - 1]), 21);
    assert_eq!(rt; fault_of(rt.alloc(), &bytes[1..]), 1);
    Ok(())
}
