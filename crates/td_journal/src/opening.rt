ghost use Rattle.std.specs.Prelude.{◌≡◌, ◌≢◌, ◌≤◌, ◌<◌, ◌++◌, [], ℕ, List, true, length, IfOk, IfErr, OnOk};
ghost use Rattle.std.specs.List.{AllByRecursion};
ghost use Rattle.td_base.specs.declared.site.TheConstants.{MAX_SITE};
ghost use Rattle.td_io.specs.Count.{Rose};
ghost use Rattle.td_disk.specs.declared.disk.TheConstants.{MAX_DISK_LEN};
ghost use Rattle.td_disk.specs.Moments.{IsSynced, LeavesOnly};
ghost use Rattle.td_op.specs.declared.input.Input.{Input};
ghost use Rattle.td_machine.specs.History.{IsReached};
ghost use Rattle.td_input.specs.Spelling.{CanWrite};
ghost use Rattle.td_journal.specs.declared.fault.OpenFault.{OpenFault};
ghost use Rattle.td_journal.specs.Bad.{Begins, IsBadAt};
ghost use Rattle.td_journal.specs.Check.{bytes_of};
ghost use Rattle.td_journal.specs.Journal.{record_bytes, records_bytes, last_check, inputs_of};
ghost use Rattle.td_journal.specs.Opening.{IsHead, IsPlayed, IsFound};

use crate::check::Check;
use crate::fault::OpenFault;
use crate::piece::Piece;
use crate::reading::{read_head, read_record};
use std::alloc::Global;
use td_base::{Bytes, Memory, Site};
use td_disk::Disk;
use td_doc::Doc;
use td_op::Input;
use td_records::is_closed;
use td_replica::Replica;

/// What a disk has: the replica that was given the inputs of its journal, the check behind them, and the place of the
/// closed gate.
#[derive(Drop)]
pub(crate) struct Found<D: Doc> {
    pub(crate) replica: Replica<D>,
    pub(crate) check: Check,
    pub(crate) end: usize,
    // none yet
    pub(crate) staged: Piece,
}

/// What the disk has, all of it synced.
pub(crate) fn find<D: Doc, K: Disk>(
    alloc: Global,
    site: Site,
    n: u8,
    disk: &mut K,
) -> Result<Found<D>, OpenFault>
    requires small { n ≤ MAX_SITE }
    requires within { site ≤ n }
    requires sound { K.Disk.is_sound disk.old ≡ true }
    ensures found { IfOk result (λ found.
        IsFound site n (K.Disk.reads disk.old) found.replica found.check found.end) }
    ensures staged { IfOk result (λ found. found.staged ≡ []) }
    ensures short { OnOk result (length (K.Disk.reads disk.old) ≤ MAX_DISK_LEN) }
    ensures bad { IfErr result (λ why. (at : ℕ) → why ≡ OpenFault.Bad at
        → IsBadAt site n (K.Disk.reads disk.old) at) }
    ensures reads { K.Disk.reads disk.new ≡ K.Disk.reads disk.old }
    ensures synced { OnOk result (IsSynced K.Disk disk.new) }
    ensures done { OnOk result (K.Disk.syncs disk.old true disk.new) }
    ensures any_moment { LeavesOnly K.Disk disk.old disk.new (K.Disk.leaves disk.old) }
    ensures failed { IfErr result (λ why. why ≡ OpenFault.Disk
        → Rose (K.Disk.faults disk.old) (K.Disk.faults disk.new)) }
{
    let bytes = read_synced(alloc, disk)?;
    read_journal(alloc, site, n, bytes.as_slice())
}

// Syncs the disk, and reads it whole.
fn read_synced<K: Disk>(alloc: Global, disk: &mut K) -> Result<Bytes, OpenFault>
    requires { K.Disk.is_sound disk.old ≡ true }
    ensures bytes { IfOk result (λ bytes. bytes ≡ K.Disk.reads disk.old) }
    ensures short { IfOk result (λ bytes. length bytes ≤ MAX_DISK_LEN) }
    ensures reads { K.Disk.reads disk.new ≡ K.Disk.reads disk.old }
    ensures synced { OnOk result (IsSynced K.Disk disk.new) }
    ensures done { OnOk result (K.Disk.syncs disk.old true disk.new) }
    ensures any_moment { LeavesOnly K.Disk disk.old disk.new (K.Disk.leaves disk.old) }
    ensures failed { IfErr result (λ why. why ≡ OpenFault.Disk
        → Rose (K.Disk.faults disk.old) (K.Disk.faults disk.new)) }
    ensures not_bad { IfErr result (λ why. (at : ℕ) → why ≢ OpenFault.Bad at) }
{
    disk.sync()?;
    read_whole(alloc, disk)
}

/// How many bytes are read at once.
const BLOCK_LEN: usize = 4096;

// All that the disk reads as.
fn read_whole<K: Disk>(alloc: Global, disk: &mut K) -> Result<Bytes, OpenFault>
    ensures bytes { IfOk result (λ bytes. bytes ≡ K.Disk.reads disk.old) }
    ensures short { IfOk result (λ bytes. length bytes ≤ MAX_DISK_LEN) }
    ensures same { OnOk result (disk.new ≡ disk.old) }
    ensures reads { K.Disk.reads disk.new ≡ K.Disk.reads disk.old }
    ensures sound { K.Disk.is_sound disk.new ≡ K.Disk.is_sound disk.old }
    ensures crash { (c : List ℕ) → K.Disk.leaves disk.new c → K.Disk.leaves disk.old c }
    ensures any_moment { LeavesOnly K.Disk disk.old disk.new (K.Disk.leaves disk.old) }
    ensures failed { IfErr result (λ why. why ≡ OpenFault.Disk
        → Rose (K.Disk.faults disk.old) (K.Disk.faults disk.new)) }
    ensures not_bad { IfErr result (λ why. (at : ℕ) → why ≢ OpenFault.Bad at) }
    ensures faults { K.Disk.faults disk.old ≤ K.Disk.faults disk.new }
{
    let mut bytes = Bytes::new(alloc);
    let mut block = [0; BLOCK_LEN];
    loop {
        let len = disk.read(bytes.as_slice().len(), &mut block)?;
        bytes.push(&block[..len])?;
        if len < BLOCK_LEN {
            return Ok(bytes);
        }
    }
}

/// What stands in these bytes.
pub(crate) fn read_journal<D: Doc>(
    alloc: Global,
    site: Site,
    n: u8,
    bytes: &[u8],
) -> Result<Found<D>, OpenFault>
    requires small { n ≤ MAX_SITE }
    requires within { site ≤ n }
    requires short { length bytes.now ≤ MAX_DISK_LEN }
    ensures found { IfOk result (λ found. IsFound site n bytes.now found.replica found.check found.end) }
    ensures staged { IfOk result (λ found. found.staged ≡ []) }
    ensures bad { IfErr result (λ why. (at : ℕ) → why ≡ OpenFault.Bad at → IsBadAt site n bytes.now at) }
    ensures not_disk { IfErr result (λ why. why ≢ OpenFault.Disk) }
{
    let (first, records) = read_head(site, n, bytes)?;
    read_records(alloc, site, n, bytes, first, records)
}

// What stands in the bytes that have these behind their header and its check.
fn read_records<D: Doc>(
    alloc: Global,
    site: Site,
    n: u8,
    bytes: &[u8],
    first: Check,
    records: &[u8],
) -> Result<Found<D>, OpenFault>
    requires small { n ≤ MAX_SITE }
    requires within { site ≤ n }
    requires short { length bytes.now ≤ MAX_DISK_LEN }
    requires head { IsHead site n bytes.now first records.now }
    ensures found { IfOk result (λ found. IsFound site n bytes.now found.replica found.check found.end) }
    ensures staged { IfOk result (λ found. found.staged ≡ []) }
    ensures bad { IfErr result (λ why. (at : ℕ) → why ≡ OpenFault.Bad at → IsBadAt site n bytes.now at) }
    ensures not_disk { IfErr result (λ why. why ≢ OpenFault.Disk) }
{
    let staged = Piece::new(alloc)?;
    let (replica, check, rest) = replay(alloc, site, n, first, records)?;
    let end = bytes.len() - rest.len();
    if !is_closed(rest) {
        return Err(OpenFault::Bad { at: end as u32 });
    }
    Ok(Found {
        replica,
        check,
        end,
        staged,
    })
}

// A new replica that is given the inputs of the records at the front, the check behind them and what stands there.
fn replay<'a, D: Doc>(
    alloc: Global,
    site: Site,
    n: u8,
    check: Check,
    bytes: &'a [u8],
) -> Result<(Replica<D>, Check, &'a [u8]), Memory>
    requires small { n ≤ MAX_SITE }
    requires within { site ≤ n }
    ensures { IfOk result (λ r. IsPlayed site n check bytes.now r.0 r.1 r.2.now) }
{
    let mut replica = Replica::new(alloc, site, n)?;
    // tells that the machine is reached
    replica.entries();
    let (check, rest) = play(&mut replica, check, bytes)?;
    Ok((replica, check, rest))
}

// Plays the inputs of the records at the front, and gives the check behind them and what stands there.
fn play<'a, D: Doc>(
    replica: &mut Replica<D>,
    check: Check,
    bytes: &'a [u8],
) -> Result<(Check, &'a [u8]), Memory>
    requires reached { IsReached replica.old.machine }
    requires fresh { replica.old.entries ≡ [] }
    ensures records { IfOk result (λ r. bytes.now
        ≡ records_bytes check.format (bytes_of check) (inputs_of replica.new.entries) ++ r.1.now) }
    ensures check { IfOk result (λ r.
        bytes_of r.0 ≡ last_check check.format (bytes_of check) (inputs_of replica.new.entries)) }
    ensures format { IfOk result (λ r. r.0.format ≡ check.format) }
    ensures can { IfOk result (λ r. AllByRecursion CanWrite (inputs_of replica.new.entries)) }
    ensures ends { IfOk result (λ r. (input : Input) → CanWrite input
        → ¬ Begins (record_bytes r.0.format (bytes_of r.0) input) r.1.now) }
    ensures place { (replica.new.machine.site ≡ replica.old.machine.site)
        × (replica.new.machine.size ≡ replica.old.machine.size) }
{
    let mut check = check;
    let mut rest = bytes;
    while let Some((input, next, behind)) = read_record(check, rest) {
        replica.step_on(&input)?;
        check = next;
        rest = behind;
    }
    Ok((check, rest))
}
