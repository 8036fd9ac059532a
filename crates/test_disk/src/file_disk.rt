use std::path::PathBuf;
use std::test::Fail;
use std::{env, fs};
use td_disk::{Disk, FileDisk, begin};

// A new folder, for this test alone.
fn fresh_folder(rt: &HostRuntime) -> Result<PathBuf, Fail> {
    let all = env::temp_dir(rt)?;
    for number in 0..1000 {
        let name = format!(in rt.alloc(); "test_disk_{number}")?;
        let folder = all.join(rt.alloc(), name.as_str())?;
        if fs::create_dir(rt, folder.as_str()).is_ok() {
            return Ok(folder);
        }
    }
    Err(Fail::new("no folder"))
}

#[test]
fn a_file_is_kept_and_belongs_to_one_at_a_time(rt: HostRuntime) -> Result<(), Fail> {
    let folder = fresh_folder(&rt)?;
    let path = folder.join(rt.alloc(), "file")?;
    let mut disk = FileDisk::open(&rt, path.as_str())?;
    assert_eq!(rt; disk.bytes(), b"".as_slice());
    begin(&mut disk, b"abc")?;
    disk.write(2, b"de")?;
    disk.sync()?;
    assert!(rt; disk.error().is_none());
    assert!(rt; FileDisk::open(&rt, path.as_str()).is_err());
    drop(disk);
    let mut disk = FileDisk::open(&rt, path.as_str())?;
    assert_eq!(rt; disk.bytes(), b"abde".as_slice());
    let mut buf = [0; 2];
    assert_eq!(rt; disk.read(1, &mut buf), Ok(2));
    assert_eq!(rt; buf, *b"bd");
    drop(disk);
    assert_eq!(rt;
        fs::read(&rt, path.as_str())?.as_slice(),
        b"abde".as_slice()
    );
    fs::remove_dir_all(&rt, folder.as_str())?;
    Ok(())
}
