ghost use Rattle.std.specs.Prelude.{◌≡◌, ◌≤◌, ℕ, IfErr, IfOk};
ghost use Rattle.td_base.specs.declared.site.TheConstants.{MAX_SITE};
ghost use Rattle.td_disk.specs.Gated.{disk_of};
ghost use Rattle.td_disk.specs.Moments.{IsSynced, LeavesOnly};
ghost use Rattle.td_io.specs.Count.{Rose};
ghost use Rattle.td_journal.specs.declared.format.Format.{Format};
ghost use Rattle.td_journal.specs.Bad.{IsBadAt};
ghost use Rattle.td_journal.specs.Journal.{IsJournal};
ghost use Rattle.td_journal.specs.Seen.{format_of, inputs_in, journal_of, replica_of};
ghost use Rattle.td_replica.specs.Replica.{new_replica};
ghost use Rattle.td_shell.specs.Opening.{IsLeftBefore, IsBare};
ghost use Rattle.td_shell.specs.Staging.{IsAllKept};

use std::alloc::Global;
use td_base::Site;
use td_disk::Disk;
use td_doc::Doc;
use td_journal::{Format, Kept, OpenFault, Refused};

// How many bytes a journal of no inputs has: its header, the check of it, and a gate.
const BARE: usize = 10;

/// The replica of a site among n, on its journal: a new one, with checks, where the disk has no more bytes than that of
/// no inputs, and else the one that is there.
pub fn begin_or_open<D: Doc, K: Disk>(
    alloc: Global,
    site: Site,
    n: u8,
    disk: K,
) -> Result<Kept<D, K>, Refused<K>>
    requires small { n ≤ MAX_SITE }
    requires within { site ≤ n }
    requires synced { IsSynced K.Disk disk }
    ensures kept { IfOk result (λ kept. IsAllKept K.Disk kept) }
    ensures site { IfOk result (λ kept. (replica_of kept).machine.site ≡ site) }
    ensures size { IfOk result (λ kept. (replica_of kept).machine.size ≡ n) }
    ensures begun { IsBare site n (K.Disk.reads disk) → IfOk result (λ kept.
        (replica_of kept ≡ new_replica site n) × (format_of kept ≡ Format.Checked)) }
    ensures opened { ¬ IsBare site n (K.Disk.reads disk) → IfOk result (λ kept.
        IsJournal (format_of kept) site n (inputs_in kept) (K.Disk.reads disk)) }
    ensures any_moment { IfOk result (λ kept. LeavesOnly K.Disk disk (disk_of (journal_of kept))
        (IsLeftBefore K.Disk site n disk)) }
    ensures any_moment_err { IfErr result (λ refused. LeavesOnly K.Disk disk refused.disk
        (IsLeftBefore K.Disk site n disk)) }
    ensures bad { IfErr result (λ refused. (at : ℕ) → refused.why ≡ OpenFault.Bad at
        → (¬ IsBare site n (K.Disk.reads disk)) × IsBadAt site n (K.Disk.reads disk) at) }
    ensures disk { IfErr result (λ refused. refused.why ≡ OpenFault.Disk
        → Rose (K.Disk.faults disk) (K.Disk.faults refused.disk)) }
{
    let mut disk = disk;
    let mut front = [0; BARE + 1];
    let Ok(count) = disk.read(0, &mut front) else {
        return Err(Refused {
            disk,
            why: OpenFault::Disk,
        });
    };
    if count > BARE {
        return Kept::open(alloc, site, n, disk);
    }
    Kept::create(alloc, site, n, Format::Checked, disk)
}
