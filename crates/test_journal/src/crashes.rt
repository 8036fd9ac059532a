use crate::inputs::{begun, insert, site};
use std::alloc::Global;
use std::test::Fail;
use td_disk::{Disk, MemDisk};
use td_doc::{Doc, Rows};
use td_journal::{Format, Kept, KeptFault, OpenFault};
use td_op::Input;

// Keeps one input, and so many more as one batch, in whose commit the disk fails.
fn fails_in_a_commit<D: Doc, K: Disk>(kept: &mut Kept<D, K>, more: u32) -> Result<(), Fail> {
    kept.step(insert(0, "a")?)?;
    for _ in 0..more {
        kept.stage(insert(1, "b")?)?;
    }
    if kept.commit() != Err(KeptFault::Disk) || kept.step(Input::Next) != Err(KeptFault::Closed) {
        return Err(Fail::new("another answer"));
    }
    if kept.released() != 1 {
        return Err(Fail::new("more was released"));
    }
    Ok(())
}

// How many entries came back, each of which sent a message.
fn entries_of(kept: &Kept<Rows, MemDisk>) -> Result<u64, Fail> {
    let entries = kept.replica().entries();
    if kept.released() != entries {
        return Err(Fail::new("not all was released"));
    }
    Ok(entries)
}

// How many entries come back of a journal of one, where the k-th call of the disk fails within a commit of so many
// more, and a crash leaves the image of this choice.
fn left(alloc: Global, format: Format, more: u32, k: u64, choice: u64) -> Result<u64, Fail> {
    // two calls begin the journal, and four keep the first input
    let mut kept = begun(alloc, format, &[6u64.saturating_add(k)])?;
    fails_in_a_commit(&mut kept, more)?;
    let disk = kept.into_disk().crash(choice)?;
    let kept: Option<Kept<Rows, MemDisk>> = Kept::open(alloc, site(1)?, 2, disk).ok();
    entries_of(&kept.ok_or("a journal")?)
}

#[test]
fn a_crash_leaves_a_batch_whole_or_nothing_of_it(rt: HostRuntime) -> Result<(), Fail> {
    for format in [Format::Plain, Format::Checked] {
        for more in [1, 3] {
            let all = u64::from(more) + 1;
            for (k, entries) in [
                (1, [1, 1, 1, 1]),
                (2, [1, 1, 1, 1]),
                (3, [1, all, 1, all]),
                (4, [1, all, 1, all]),
            ] {
                for (choice, count) in [0, 1, 2, 257].into_iter().zip(entries) {
                    assert_eq!(rt;
                        left(rt.alloc(), format, more, k, choice)?,
                        count,
                        "at {more}, {k}, {choice}"
                    );
                }
            }
        }
    }
    Ok(())
}

// Why no journal is begun where this call of the disk fails.
fn refused(alloc: Global, fails: u64) -> Result<Option<OpenFault>, Fail> {
    let disk = MemDisk::new(alloc, &[fails])?;
    let kept = Kept::<Rows, MemDisk>::create(alloc, site(1)?, 1, Format::Plain, disk);
    Ok(kept.err().map(|refused| refused.why))
}

#[test]
fn a_journal_that_cannot_be_begun_is_refused(rt: HostRuntime) -> Result<(), Fail> {
    for fails in [1, 2] {
        assert_eq!(rt; refused(rt.alloc(), fails)?, Some(OpenFault::Disk));
    }
    Ok(())
}
