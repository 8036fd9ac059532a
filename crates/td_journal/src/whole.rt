// A journal in memory, all of it at once.
ghost use Rattle.std.specs.Prelude.{◌≡◌, ◌≤◌, ◌<◌, ◌+◌, ◌++◌, ℕ, [], length};
ghost use Rattle.std.specs.Prelude.{IfOk, IfErr, OnOk, IsErrOf};
ghost use Rattle.td_base.specs.declared.site.TheConstants.{MAX_SITE};
ghost use Rattle.td_disk.specs.declared.disk.TheConstants.{MAX_DISK_LEN};
ghost use Rattle.td_op.specs.declared.input.Input.{Input};
ghost use Rattle.td_replica.specs.Replica.{ReplicaValue};
ghost use Rattle.td_input.specs.Spelling.{CanWrite};
ghost use Rattle.td_journal.specs.declared.fault.LoadFault.{LoadFault};
ghost use Rattle.td_journal.specs.declared.fault.SaveFault.TheVariants.{Long};
ghost use Rattle.td_journal.specs.Bad.{IsBadAt};
ghost use Rattle.td_journal.specs.Check.{bytes_of};
ghost use Rattle.td_journal.specs.Journal.{next_check, record_bytes, inputs_of};
ghost use Rattle.td_journal.specs.Whole.{whole_journal, IsJournalOf, HasNoRoom, IsWritten};

use crate::check::Check;
use crate::fault::{LoadFault, OpenFault, SaveFault};
use crate::format::Format;
use crate::opening::read_journal;
use crate::record::{header, write_record};
use std::alloc::Global;
use td_base::{Bytes, Memory, Site};
use td_disk::MAX_DISK_LEN;
use td_doc::Doc;
use td_op::Input;
use td_replica::Replica;

/// The journal of all that a replica was given, as a disk would have it: what `load` and `Kept::open` read.
pub fn save<D: Doc>(alloc: Global, replica: &Replica<D>, format: Format) -> Result<Bytes, SaveFault>
    ensures ok { IfOk result (λ bytes. bytes ≡ whole_journal format replica.now) }
    // So it can be loaded.
    ensures journal { IfOk result (λ bytes.
        IsJournalOf replica.now.machine.site replica.now.machine.size bytes replica.now) }
    ensures short { IfOk result (λ bytes. length bytes ≤ MAX_DISK_LEN) }
    ensures long { IsErrOf result Long → HasNoRoom format replica.now }
{
    // tells that the history is legal
    replica.entries();
    let mut journal = write_journal(alloc, replica, format)?.bytes;
    journal.push(&[0])?;
    Ok(journal)
}

/// The replica that the journal of a site among n is of, in whatever format.
pub fn load<D: Doc>(alloc: Global, site: Site, n: u8, bytes: &[u8]) -> Result<Replica<D>, LoadFault>
    requires small { n ≤ MAX_SITE }
    requires within { site ≤ n }
    ensures journal { IfOk result (λ r. IsJournalOf site n bytes.now r) }
    // Of a replica's journal this is the replica, and its journal is never bad.
    ensures restores { (r : ReplicaValue) → IsJournalOf site n bytes.now r → IfOk result (λ loaded. loaded ≡ r) }
    ensures not_bad { (r : ReplicaValue) → IsJournalOf site n bytes.now r
        → IfErr result (λ why. (at : ℕ) → ¬ (why ≡ LoadFault.Bad at)) }
    ensures bad { IfErr result (λ why. (at : ℕ) → why ≡ LoadFault.Bad at → IsBadAt site n bytes.now at) }
    ensures long { IfErr result (λ why. why ≡ LoadFault.Long → MAX_DISK_LEN < length bytes.now) }
{
    if bytes.len() > MAX_DISK_LEN {
        return Err(LoadFault::Long);
    }
    match read_journal(alloc, site, n, bytes) {
        Ok(found) => {
            let replica = found.replica;
            // tells that the history is legal
            replica.entries();
            Ok(replica)
        }
        Err(OpenFault::Bad { at }) => Err(LoadFault::Bad { at }),
        Err(OpenFault::Disk) => unreachable!(),
        Err(OpenFault::Memory) => Err(LoadFault::Memory),
    }
}

// A journal up to its closed gate, and the check behind its last record.
#[derive(Drop)]
struct Written {
    bytes: Bytes,
    check: Check,
    ghost room: { length bytes < MAX_DISK_LEN },
}

impl Written {
    // That of no inputs.
    fn new(alloc: Global, site: Site, n: u8, format: Format) -> Result<Written, Memory>
        ensures { IfOk result (λ w. IsWritten format site n [] w.bytes w.check) }
    {
        let header = header(format, site, n);
        let check = Check::new(format, &header);
        let mut bytes = Bytes::new(alloc);
        bytes.push(&header)?;
        check.push(&mut bytes)?;
        Ok(Written { bytes, check })
    }

    // Adds the record of an input.
    fn add(&mut self, alloc: Global, input: &Input) -> Result<(), SaveFault>
        ensures bytes { OnOk result (self.new.bytes
            ≡ self.old.bytes ++ record_bytes self.old.check.format (bytes_of self.old.check) input.now) }
        ensures check { OnOk result (bytes_of self.new.check
            ≡ next_check self.old.check.format (bytes_of self.old.check) input.now) }
        ensures format { OnOk result (self.new.check.format ≡ self.old.check.format) }
        ensures can { CanWrite input.now }
        ensures long { IsErrOf result Long → MAX_DISK_LEN < length self.old.bytes
            + length (record_bytes self.old.check.format (bytes_of self.old.check) input.now) + 1 }
    {
        let record = write_record(alloc, self.check, input)?;
        if record.bytes.as_slice().len() >= MAX_DISK_LEN - self.bytes.as_slice().len() {
            return Err(SaveFault::Long);
        }
        self.bytes.push(record.bytes.as_slice())?;
        self.check = record.check;
        Ok(())
    }
}

// The journal of all inputs of the replica, up to its closed gate.
fn write_journal<D: Doc>(
    alloc: Global,
    replica: &Replica<D>,
    format: Format,
) -> Result<Written, SaveFault>
    ensures ok { IfOk result (λ w. IsWritten format replica.now.machine.site replica.now.machine.size
        (inputs_of replica.now.entries) w.bytes w.check) }
    ensures long { IsErrOf result Long → HasNoRoom format replica.now }
{
    let mut journal = Written::new(alloc, replica.site(), replica.size(), format)?;
    for k in 0..replica.entries() {
        let Some(entry) = replica.entry(k + 1) else {
            unreachable!()
        };
        journal.add(alloc, &entry.input)?;
    }
    Ok(journal)
}
