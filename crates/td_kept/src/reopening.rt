// A crash: a commit during which a disk call fails, the image that is left, and the site that comes back.
ghost use Rattle.std.specs.Prelude.{◌≡◌, ◌≤◌, ◌++◌, ◌<◌, ℕ, drop, length, IfOk};
ghost use Rattle.td_disk.specs.Events.{Leaves};
ghost use Rattle.td_disk.specs.Image.{image};
ghost use Rattle.td_disk.specs.Record.{device_of};
ghost use Rattle.td_journal.specs.Seen.{inputs_in, released, replica_of, IsOwnJournal};
ghost use Rattle.td_replica.specs.Replica.{IsReplica};
ghost use Rattle.td_kept.specs.Sites.{left_inputs, IsPending, IsWhole};

use crate::site::release;
use std::alloc::Global;
use td_base::Memory;
use td_disk::MemDisk;
use td_doc::Doc;
use td_journal::Kept;
use td_op::Message;

/// How many calls of its disk a commit makes: a write, a sync, a write and a sync.
pub const DISK_CALLS: u32 = 4;

/// Puts what is staged at a site on its disk while the `k`-th call of that fails, and opens what a crash leaves. What
/// the site has then sent, and has not released before, is released.
pub(crate) fn come_back<D: Doc>(
    alloc: Global,
    kept: Kept<D, MemDisk>,
    sent: &mut Vec<Message>,
    k: u32,
    choice: u64,
) -> Result<Kept<D, MemDisk>, Memory>
    requires pending { IsPending kept }
    requires some { 1 ≤ k }
    requires call { k ≤ DISK_CALLS }
    ensures inputs { IfOk result (λ new. inputs_in new ≡ left_inputs k choice kept) }
    ensures place { IfOk result (λ new. ((replica_of new).machine.site ≡ (replica_of kept).machine.site)
        × ((replica_of new).machine.size ≡ (replica_of kept).machine.size)) }
    ensures whole { IfOk result (λ new. IsWhole new) }
    ensures replica { IfOk result (λ new. IsReplica (replica_of new)) }
    ensures sent { IfOk result (λ new. sent.new.items
        ≡ sent.old.items ++ drop (released kept) (replica_of new).machine.sent) }
{
    let before = kept.released();
    let new = reopened(alloc, kept, k, choice)?;
    release(new.replica(), before, sent)?;
    Ok(new)
}

// The site that comes back.
fn reopened<D: Doc>(
    alloc: Global,
    kept: Kept<D, MemDisk>,
    k: u32,
    choice: u64,
) -> Result<Kept<D, MemDisk>, Memory>
    requires pending { IsPending kept }
    requires some { 1 ≤ k }
    requires call { k ≤ DISK_CALLS }
    ensures inputs { IfOk result (λ new. inputs_in new ≡ left_inputs k choice kept) }
    ensures place { IfOk result (λ new. ((replica_of new).machine.site ≡ (replica_of kept).machine.site)
        × ((replica_of new).machine.size ≡ (replica_of kept).machine.size)) }
    ensures whole { IfOk result (λ new. IsWhole new) }
    ensures replica { IfOk result (λ new. IsReplica (replica_of new)) }
{
    // tells that its history is legal
    kept.replica().entries();
    let site = kept.replica().site();
    let n = kept.replica().size();
    let disk = failed_disk(kept, k)?;
    match Kept::open(alloc, site, n, disk.crash(choice)?) {
        Ok(new) => {
            new.replica().entries();
            Ok(new)
        }
        Err(_) => Err(Memory),
    }
}

// The disk on which the `k`-th call of a commit failed. A call may fail for want of memory too; then nothing is told of
// what a crash leaves.
fn failed_disk<D: Doc>(kept: Kept<D, MemDisk>, k: u32) -> Result<MemDisk, Memory>
    requires pending { IsPending kept }
    requires some { 1 ≤ k }
    requires call { k ≤ DISK_CALLS }
    ensures { IfOk result (λ disk. (choice : ℕ) → Leaves (device_of disk.past) (image choice (device_of disk.past))
        → IsOwnJournal kept (left_inputs k choice kept) (image choice (device_of disk.past))) }
{
    let mut kept = kept;
    kept.fail_next(k);
    let _ = kept.commit();
    let disk = kept.into_disk();
    if disk.starved() > 0 {
        return Err(Memory);
    }
    Ok(disk)
}
