use crate::shells::{Failing, ran, talked};
use std::test::Fail;
use td_disk::MemDisk;
use td_shell::{Status, member_of};

// What fails, how the shell ends, and what it has answered. Two calls of the disk begin the journal, and four keep a
// line.
const ENDINGS: [(Failing, Status, &[u8]); 5] = [
    (
        Failing {
            reads: &[2],
            writes: &[],
            calls: &[],
            room: 100,
        },
        Status::Read,
        b"ins 1 1/1\nsend 1 543201010000000102000000000000000000010161\n",
    ),
    (
        Failing {
            reads: &[],
            writes: &[1],
            calls: &[],
            room: 100,
        },
        Status::Write,
        b"",
    ),
    (
        Failing {
            reads: &[],
            writes: &[],
            calls: &[],
            room: 10,
        },
        Status::Write,
        b"ins 1 1/1\n",
    ),
    (
        Failing {
            reads: &[],
            writes: &[],
            calls: &[3],
            room: 100,
        },
        Status::Disk,
        b"",
    ),
    (
        Failing {
            reads: &[],
            writes: &[],
            calls: &[6],
            room: 100,
        },
        Status::Disk,
        b"",
    ),
];

#[test]
fn a_shell_ends_where_its_input_its_output_or_its_disk_fails(rt: HostRuntime) -> Result<(), Fail> {
    for (failing, status, answers) in &ENDINGS {
        let told = talked(&rt, rt.alloc(), failing, b"ins 0 \"a\"\n")?;
        assert_eq!(rt; told.0, *status);
        assert_eq!(rt; told.1.as_slice(), *answers);
    }
    Ok(())
}

// Two words, and whether they are a site among so many.
const MEMBERS: [(&[u8], &[u8], bool); 9] = [
    (b"1", b"1", true),
    (b"64", b"64", true),
    (b"0", b"1", false),
    (b"2", b"1", false),
    (b"1", b"65", false),
    (b"257", b"300", false),
    (b"01", b"2", false),
    (b"1", b"", false),
    (b"one", b"2", false),
];

#[test]
fn two_words_are_a_site_among_so_many(rt: HostRuntime) -> Result<(), Fail> {
    for (site, sites, is_member) in &MEMBERS {
        assert_eq!(rt; member_of(site, sites).is_some(), *is_member);
    }
    Ok(())
}

#[test]
fn a_site_runs_on_a_disk_that_has_its_journal_or_none(rt: HostRuntime) -> Result<(), Fail> {
    let disk = MemDisk::new(rt.alloc(), &[])?;
    let (status, disk, answers) = ran(&rt, rt.alloc(), 1, disk, b"ins 0 \"a\"\n")?;
    assert_eq!(rt; status, Status::Done);
    assert_eq!(rt;
        answers.as_slice(),
        &b"ins 1 1/1\nsend 1 543201010000000102000000000000000000010161\n"[..]
    );
    // a process that ends leaves all that was written; the site stands behind the mark
    let (status, disk, answers) = ran(&rt, rt.alloc(), 2, disk.crash(1)?, b"show\n")?;
    assert_eq!(rt; status, Status::Bad { at: 3 });
    assert!(rt; answers.as_slice().is_empty());
    let (status, _disk, answers) = ran(&rt, rt.alloc(), 1, disk.crash(1)?, b"show\n")?;
    assert_eq!(rt; status, Status::Done);
    assert_eq!(rt; answers.as_slice(), &b"show 1 \"a\"\n"[..]);
    Ok(())
}

#[test]
fn a_disk_that_fails_at_once_is_told(rt: HostRuntime) -> Result<(), Fail> {
    let disk = MemDisk::new(rt.alloc(), &[1])?;
    let (status, _disk, _answers) = ran(&rt, rt.alloc(), 1, disk, b"show\n")?;
    assert_eq!(rt; status, Status::Disk);
    Ok(())
}
