use std::alloc::Global;
use std::test::Fail;
use td_disk::{Disk, Gated, MemDisk, begin};

// The length up to the gate, and what a crash by this choice leaves, after the front `7` grew by the piece `1 5 6` and
// the k-th call for that failed; where k is 0, none did.
fn crashed(alloc: Global, k: u32, choice: u64) -> Result<(usize, MemDisk), Fail> {
    let mut disk = MemDisk::new(alloc, &[])?;
    begin(&mut disk, &[7, 0])?;
    if k > 0 {
        disk.fail_next(k);
    }
    let mut file = Gated::new(disk, 1);
    if file.grow(&[1, 5, 6, 0]).is_ok() != (k == 0) {
        return Err(Fail::new("another call failed"));
    }
    Ok((file.end(), file.into_disk().crash(choice)?))
}

#[test]
fn a_crash_leaves_the_file_with_the_piece_or_without_it(rt: HostRuntime) -> Result<(), Fail> {
    let without = [7, 0].as_slice();
    let behind = [7, 0, 5, 6, 0].as_slice();
    let with = [7, 1, 5, 6, 0].as_slice();
    let twos = [7, 0, 2, 2, 2].as_slice();
    let ones = [7, 0, 1, 1, 1].as_slice();
    let shut = [7, 2, 5, 6, 0].as_slice();
    for (k, end, images) in [
        (0, 4, [with, with, with, with]),
        (1, 1, [without, behind, twos, ones]),
        (2, 1, [without, behind, twos, ones]),
        (3, 1, [behind, with, shut, with]),
        (4, 1, [behind, with, shut, with]),
    ] {
        for (choice, image) in [0, 1, 2, 257].into_iter().zip(images) {
            let (gate, disk) = crashed(rt.alloc(), k, choice)?;
            assert_eq!(rt; (gate, disk.bytes()), (end, image), "at {k}, {choice}");
        }
    }
    Ok(())
}

#[test]
fn after_a_failed_sync_nothing_more_is_kept(rt: HostRuntime) -> Result<(), Fail> {
    let mut disk = MemDisk::new(rt.alloc(), &[2])?;
    disk.write(0, b"ab")?;
    assert!(rt; disk.sync().is_err());
    assert!(rt; disk.sync().is_ok());
    let mut buf = [0; 3];
    assert_eq!(rt; disk.read(1, &mut buf), Ok(1));
    assert_eq!(rt; buf, [b'b', 0, 0]);
    assert_eq!(rt; disk.starved(), 0);
    assert_eq!(rt; disk.crash(0)?.bytes(), b"".as_slice());
    Ok(())
}
