use crate::inputs::{begun, insert};
use std::alloc::Global;
use std::test::Fail;
use td_disk::{Disk, MemDisk};
use td_doc::Doc;
use td_journal::{Format, Kept};
use td_op::{Input, Reply};

const PLAIN: &[u8] = b"TJ1\x01\x02\
    \x01\0\x09\x01\x01\0\0\0\0\x01\x01a\
    \x01\0\x0a\x01\x01\0\0\0\x01\x01\x02\xc3\xa9\
    \x01\0\x01\x03\0";

const CHECKED: &[u8] = b"TJ2\x01\x02\xd3\xd1\xe0\x6b\
    \x01\0\x09\x01\x01\0\0\0\0\x01\x01a\x7f\x1e\x96\x26\
    \x01\0\x0a\x01\x01\0\0\0\x01\x01\x02\xc3\xa9\x17\xb6\x8f\xd5\
    \x01\0\x01\x03\xbf\x4d\x21\x37\0";

// Keeps three inputs, the latter two as one batch.
fn keep_three<D: Doc, K: Disk>(kept: &mut Kept<D, K>) -> Result<(), Fail> {
    kept.step(insert(0, "a")?)?;
    kept.stage(insert(1, "é")?)?;
    if kept.released() != 1 || kept.step(Input::Next)? != Reply::Idle || kept.released() != 2 {
        return Err(Fail::new("another answer"));
    }
    Ok(())
}

fn disk_of_three(alloc: Global, format: Format) -> Result<MemDisk, Fail> {
    let mut kept = begun(alloc, format, &[])?;
    keep_three(&mut kept)?;
    Ok(kept.into_disk())
}

#[test]
fn a_journal_has_a_record_for_each_input(rt: HostRuntime) -> Result<(), Fail> {
    for (format, bytes) in [(Format::Plain, PLAIN), (Format::Checked, CHECKED)] {
        assert_eq!(rt; disk_of_three(rt.alloc(), format)?.bytes(), bytes);
    }
    Ok(())
}
