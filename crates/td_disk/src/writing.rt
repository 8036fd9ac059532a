ghost use Rattle.std.specs.Prelude.{◌≡◌, ◌+◌, ◌≤◌, true, false, length, OnOk, OnErr};
ghost use Rattle.td_io.specs.Count.{Rose};
ghost use Rattle.td_disk.specs.declared.disk.TheConstants.{MAX_DISK_LEN};
ghost use Rattle.td_disk.specs.Device.{overwritten, Torn};
ghost use Rattle.td_disk.specs.Moments.{IsSynced, LeavesOnly};
ghost use Rattle.td_disk.specs.Calls.{Puts};

use crate::disk::Disk;
use td_io::Failed;

/// Writes at a place and syncs. A crash at any moment of it leaves the file with any bytes in that place.
pub fn put<D: Disk>(disk: &mut D, at: usize, bytes: &[u8]) -> Result<(), Failed>
    requires within { at ≤ length (D.Disk.reads disk.old) }
    requires room { at + length bytes.now ≤ MAX_DISK_LEN }
    requires synced { IsSynced D.Disk disk.old }
    ensures written { OnOk result (D.Disk.reads disk.new ≡ overwritten (D.Disk.reads disk.old) at bytes.now) }
    ensures synced { OnOk result (IsSynced D.Disk disk.new) }
    ensures done { OnOk result (Puts D.Disk disk.old at bytes.now true disk.new) }
    ensures not_done { OnErr result (Puts D.Disk disk.old at bytes.now false disk.new) }
    ensures any_moment { LeavesOnly D.Disk disk.old disk.new (Torn at (length bytes.now) (D.Disk.reads disk.old)) }
    ensures failed { OnErr result (Rose (D.Disk.faults disk.old) (D.Disk.faults disk.new)) }
    ensures faults { D.Disk.faults disk.old ≤ D.Disk.faults disk.new }
{
    disk.write(at, bytes)?;
    disk.sync()
}
