ghost use Rattle.std.specs.Prelude.{◌≡◌, ◌+◌, ◌≤◌, ◌<◌, ◌++◌, ◌≢◌, true, false, length, slice_index, OnOk, OnErr};
ghost use Rattle.td_io.specs.Count.{Rose};
ghost use Rattle.td_disk.specs.declared.disk.TheConstants.{MAX_DISK_LEN};
ghost use Rattle.td_disk.specs.Moments.{IsSynced, LeavesOnly};
ghost use Rattle.td_disk.specs.Calls.{Grows};
ghost use Rattle.td_disk.specs.Gated.{disk_of, end_of, front_of, piece_of, IsSettled, IsPiece, StandsBeforeOrAfter};

use crate::disk::Disk;
use crate::mem_disk::MemDisk;
use crate::writing::put;
use td_io::Failed;

/// A file that grows by whole pieces. Behind its front stands a gate, a byte that is closed unless it is 1, and behind
/// the closed gate any bytes. A piece begins with an open gate. It is put behind the closed gate first, and that is
/// opened afterwards, by itself.
#[derive(Drop)]
pub struct Gated<D: Disk> {
    pub(crate) disk: D,
    // the place of the closed gate
    pub(crate) end: usize,
}

impl<D: Disk> Gated<D> {
    /// The file on this disk whose closed gate stands at this place.
    pub fn new(disk: D, end: usize) -> Gated<D>
        requires within { end < length (D.Disk.reads disk) }
        requires shut { slice_index (D.Disk.reads disk) end ≢ 1 }
        requires synced { IsSynced D.Disk disk }
        ensures settled { IsSettled D.Disk result }
        ensures disk { disk_of result ≡ disk }
        ensures end { end_of result ≡ end }
    {
        Gated { disk, end }
    }

    /// The length up to the closed gate.
    pub fn end(&self) -> usize
        ensures { result ≡ end_of self.now }
    {
        self.end
    }

    /// The disk.
    pub fn into_disk(self) -> D
        ensures { result ≡ disk_of self }
    {
        self.disk
    }

    /// Adds a piece; `bytes` has the next closed gate behind it. A crash at any moment of the call leaves the front
    /// with the piece or without it; at Ok it is kept, and each later crash leaves a file that has it. After a fault
    /// the file is not settled, and grows no more.
    pub fn grow(&mut self, bytes: &[u8]) -> Result<(), Failed>
        requires settled { IsSettled D.Disk self.old }
        requires piece { IsPiece bytes.now }
        requires room { end_of self.old + length bytes.now ≤ MAX_DISK_LEN }
        ensures settled { OnOk result (IsSettled D.Disk self.new) }
        ensures end { OnOk result (end_of self.new + 1 ≡ end_of self.old + length bytes.now) }
        ensures grown { OnOk result (front_of D.Disk self.new ≡ front_of D.Disk self.old ++ piece_of bytes.now) }
        ensures any_moment { LeavesOnly D.Disk (disk_of self.old) (disk_of self.new)
            (StandsBeforeOrAfter (front_of D.Disk self.old) (piece_of bytes.now)) }
        ensures done { OnOk result (Grows D.Disk (disk_of self.old) (end_of self.old) bytes.now true
            (disk_of self.new)) }
        ensures not_done { OnErr result (Grows D.Disk (disk_of self.old) (end_of self.old) bytes.now false
            (disk_of self.new)) }
        ensures failed { OnErr result (Rose (D.Disk.faults (disk_of self.old)) (D.Disk.faults (disk_of self.new))) }
        ensures faults { D.Disk.faults (disk_of self.old) ≤ D.Disk.faults (disk_of self.new) }
    {
        let gate = self.end;
        put(&mut self.disk, gate + 1, &bytes[1..])?;
        put(&mut self.disk, gate, &[1])?;
        self.end += bytes.len() - 1;
        Ok(())
    }
}

impl Gated<MemDisk> {
    /// The `k`-th write or sync of the disk from now on fails, once. It takes no memory.
    pub fn fail_next(&mut self, k: u32)
        requires { 0 < k }
        ensures disk { disk_of self.new ≡ record (disk_of self.old) { fuse = k } }
        ensures end { end_of self.new ≡ end_of self.old }
    {
        self.disk.fail_next(k);
    }
}
