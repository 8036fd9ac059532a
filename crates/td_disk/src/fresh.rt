ghost use Rattle.std.specs.Prelude.{◌≡◌, ◌≤◌, true, false, length, OnOk, OnErr};
ghost use Rattle.td_io.specs.Count.{Rose};
ghost use Rattle.td_disk.specs.declared.disk.TheConstants.{MAX_DISK_LEN};
ghost use Rattle.td_disk.specs.Moments.{IsSynced, LeavesOnly};
ghost use Rattle.td_disk.specs.Calls.{Puts};

use crate::disk::Disk;
use crate::writing::put;
use td_io::Failed;

/// Begins a file: puts these bytes over those that the disk has. A crash at any moment leaves no more than so many
/// bytes, so whoever finds that few may begin anew.
pub fn begin<D: Disk>(disk: &mut D, bytes: &[u8]) -> Result<(), Failed>
    requires short { length (D.Disk.reads disk.old) ≤ length bytes.now }
    requires room { length bytes.now ≤ MAX_DISK_LEN }
    requires synced { IsSynced D.Disk disk.old }
    ensures written { OnOk result (D.Disk.reads disk.new ≡ bytes.now) }
    ensures synced { OnOk result (IsSynced D.Disk disk.new) }
    ensures done { OnOk result (Puts D.Disk disk.old 0 bytes.now true disk.new) }
    ensures not_done { OnErr result (Puts D.Disk disk.old 0 bytes.now false disk.new) }
    ensures any_moment { LeavesOnly D.Disk disk.old disk.new (λ c. length c ≤ length bytes.now) }
    ensures failed { OnErr result (Rose (D.Disk.faults disk.old) (D.Disk.faults disk.new)) }
    ensures faults { D.Disk.faults disk.old ≤ D.Disk.faults disk.new }
{
    put(disk, 0, bytes)
}
