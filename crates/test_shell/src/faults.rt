use crate::shells::{Failing, ran, talked};
use std::alloc::Global;
use std::sync::Wait;
use std::test::Fail;
use td_base::Bytes;
use td_disk::MemDisk;
use td_shell::Status;

// Lines, and what they are answered by. They leave the site as it was.
const LINES: [(&[u8], &[u8]); 12] = [
    (b"\n# nothing\n\n", b""),
    (
        b"sites 2\nsettle\ngive all\nmark 0 0 1\n",
        b"fault 1 word\nfault 2 word\nfault 3 word\nfault 4 word\n",
    ),
    (b"\nins 0\nins x \"a\"\n", b"fault 2 end\nfault 3 number\n"),
    (b"ins 1 0 \"a\"\n", b"fault 1 quote\n"),
    (b"\x07\n#\xff\n", b"fault 1 bytes\nfault 2 bytes\n"),
    (
        b"show 1\nsend\nsend 0x\n",
        b"fault 1 end\nfault 2 end\nfault 3 number\n",
    ),
    (
        b"cancel 3.1\ncancel 1.1\n",
        b"fault 1 dot\ncancel 1 1.1 notopen\n",
    ),
    (
        b"take 5\ntake 5G\ntake 5A\n",
        b"fault 1 number\nfault 2 number\nfault 3 number\n",
    ),
    (b"take 54\n", b"take 1 malformed\n"),
    (
        b"take 543201010000000102000000000000000000010161\n",
        b"take 1 stray\n",
    ),
    (b"del 0 1\n", b"del 1 0/1 position 0\n"),
    (b"show\nshow", b"show 1 \"\"\nfault 2 end\n"),
];

// What site 1 answers to lines, and then, once it is opened again, what it sent and shows.
fn answered_and_left<R: Wait>(
    rt: &R,
    alloc: Global,
    input: &[u8],
) -> Result<(Status, Bytes, Bytes), Fail> {
    let (status, disk, answers) = ran(rt, alloc, 1, MemDisk::new(alloc, &[])?, input)?;
    let (_, _, left) = ran(rt, alloc, 1, disk.crash(1)?, b"send 1\nshow\n")?;
    Ok((status, answers, left))
}

#[test]
fn a_line_that_is_no_command_changes_nothing(rt: HostRuntime) -> Result<(), Fail> {
    for (input, answers) in &LINES {
        let told = answered_and_left(&rt, rt.alloc(), input)?;
        assert_eq!(rt; told.0, Status::Done, "at {input:?}");
        assert_eq!(rt; told.1.as_slice(), *answers, "at {input:?}");
        assert_eq!(rt; told.2.as_slice(), &b"show 1 \"\"\n"[..], "at {input:?}");
    }
    Ok(())
}

const NOTHING_FAILS: Failing = Failing {
    reads: &[],
    writes: &[],
    calls: &[],
    room: 100,
};

#[test]
fn a_line_that_is_too_long_is_read_away(rt: HostRuntime) -> Result<(), Fail> {
    let mut input = Vec::new(rt.alloc());
    input.resize(70_000, b'#')?;
    input.extend_from_slice(b"\nshow\n")?;
    input.resize(150_000, b'#')?;
    let told = talked(&rt, rt.alloc(), &NOTHING_FAILS, &input)?;
    assert_eq!(rt; told.0, Status::Done);
    assert_eq!(rt;
        told.1.as_slice(),
        &b"fault 1 long\nshow 1 \"\"\nfault 3 end\n"[..]
    );
    Ok(())
}
