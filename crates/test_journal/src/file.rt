use crate::inputs::{insert, site};
use std::alloc::Global;
use std::path::PathBuf;
use std::test::Fail;
use std::{env, fs};
use td_base::Bytes;
use td_disk::{Disk, FileDisk};
use td_doc::{Doc, Rows};
use td_journal::{Format, Kept};

// A new folder, for this test alone.
fn fresh_folder(rt: &HostRuntime) -> Result<PathBuf, Fail> {
    let all = env::temp_dir(rt)?;
    for number in 0..1000 {
        let name = format!(in rt.alloc(); "test_journal_{number}")?;
        let folder = all.join(rt.alloc(), name.as_str())?;
        if fs::create_dir(rt, folder.as_str()).is_ok() {
            return Ok(folder);
        }
    }
    Err(Fail::new("no folder"))
}

fn type_text<D: Doc, K: Disk>(kept: &mut Kept<D, K>, index: u32, text: &str) -> Result<(), Fail> {
    kept.step(insert(index, text)?)?;
    Ok(())
}

// Begins a journal in this file.
fn begin(rt: &HostRuntime, path: &str) -> Result<(), Fail> {
    let disk = FileDisk::open(rt, path)?;
    if !disk.bytes().is_empty() {
        return Err(Fail::new("another file"));
    }
    let kept: Option<Kept<Rows, FileDisk>> = Kept::create(
        rt.alloc(),
        site(1)?,
        1,
        Format::Checked,
        disk,
    ).ok();
    type_text(&mut kept.ok_or("a journal")?, 0, "a")
}

// Types behind the first cluster, and tells the text.
fn type_on(kept: &mut Kept<Rows, FileDisk>, alloc: Global) -> Result<Bytes, Fail> {
    type_text(kept, 1, "b")?;
    Ok(kept.replica().text(alloc)?)
}

// Opens the journal in this file, and types on.
fn go_on(rt: &HostRuntime, path: &str) -> Result<Bytes, Fail> {
    let disk = FileDisk::open(rt, path)?;
    let kept: Option<Kept<Rows, FileDisk>> = Kept::open(rt.alloc(), site(1)?, 1, disk).ok();
    type_on(&mut kept.ok_or("a journal")?, rt.alloc())
}

#[test]
fn a_text_comes_back_from_a_file(rt: HostRuntime) -> Result<(), Fail> {
    let folder = fresh_folder(&rt)?;
    let path = folder.join(rt.alloc(), "journal")?;
    begin(&rt, path.as_str())?;
    for text in ["ab", "abb", "abbb"] {
        assert_eq!(rt; go_on(&rt, path.as_str())?.as_slice(), text.as_bytes());
    }
    fs::remove_dir_all(&rt, folder.as_str())?;
    Ok(())
}
