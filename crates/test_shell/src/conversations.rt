use crate::shells::{answered, ran};
use std::alloc::Global;
use std::sync::Wait;
use std::test::Fail;
use td_base::Bytes;
use td_disk::MemDisk;

// The lines that a site is asked for, and what it answers. In what is sent stand packets in format 2. First site 1,
// where "ab" is typed: two operations; then site 2, to which these come, in order or not; last a flatten: what site 2 is
// asked and votes, and what site 1 proposes and decides.
const TALKS: [(u8, &[u8], &[u8]); 6] = [
    (2, b"", b""),
    (
        1,
        b"ins 0 \"ab\"\n",
        b"ins 1 2/2
send 1 543201010000000102000000000000000000010161
send 2 54320101000000020200000001000000000101010000000100010162
",
    ),
    (
        2,
        b"take 543201010000000102000000000000000000010161
take 54320101000000020200000001000000000101010000000100010162
show
",
        b"take 2 new 0
take 2 new 0
show 2 \"ab\"
",
    ),
    (
        2,
        b"take 54320101000000020200000001000000000101010000000100010162
count
take 543201010000000102000000000000000000010161
take 543201010000000102000000000000000000010161
show
",
        b"take 2 later
count 2 live 0 rows 0 waiting 1 holds 0
take 2 new 1
take 2 repeat
show 2 \"ab\"
",
    ),
    (
        2,
        b"take 5432030100000001020000000000000000000
take 543203010000000102000000000000000000
",
        b"fault 1 number
take 2 new 0
vote 2 1.1 yes
send 1 54320602010000000101 to 1
",
    ),
    (
        1,
        b"flat auto
flat root
take 54320602010000000101
",
        b"flat 1 none
flat 1 1.1
send 1 543203010000000102000000000000000000
take 1 new 0
decide 1 1.1 commit
send 2 54320401000000020200000001000000000100000001
",
    ),
];

#[test]
fn lines_are_done_and_answered(rt: HostRuntime) -> Result<(), Fail> {
    for (number, input, answers) in &TALKS {
        let told = answered(&rt, rt.alloc(), *number, input)?;
        assert_eq!(rt; told.as_slice(), *answers, "at {input:?}");
    }
    Ok(())
}

// What site 1 shows, and sends again from message 2 on, after a crash that leaves the image of this choice.
fn after_a_crash<R: Wait>(rt: &R, alloc: Global, choice: u64) -> Result<Bytes, Fail> {
    let (_, disk, _) = ran(rt, alloc, 1, MemDisk::new(alloc, &[])?, b"ins 0 \"ab\"\n")?;
    let (_, _, again) = ran(rt, alloc, 1, disk.crash(choice)?, b"show\nsend 2\nsend 3\n")?;
    Ok(again)
}

#[test]
fn a_journal_is_opened_again_after_a_crash(rt: HostRuntime) -> Result<(), Fail> {
    for choice in [0, 1, 257] {
        let again = after_a_crash(&rt, rt.alloc(), choice)?;
        assert_eq!(rt;
            again.as_slice(),
            &b"show 1 \"ab\"
send 2 54320101000000020200000001000000000101010000000100010162
"[..]
        );
    }
    Ok(())
}
