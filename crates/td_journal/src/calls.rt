ghost use Rattle.std.specs.Prelude.{◌≡◌, ◌≢◌, ◌≤◌, ◌<◌, ◌+◌, ◌⊎◌, ◌++◌, ◌∷◌, [], ◌↔◌, ℕ, List, false, true, length};
ghost use Rattle.std.specs.Prelude.{IfOk, IfErr, OnOk, OnErr, IsErrOf};
ghost use Rattle.std.specs.List.{AllByRecursion};
ghost use Rattle.td_base.specs.declared.site.TheConstants.{MAX_SITE};
ghost use Rattle.td_io.specs.Count.{Rose};
ghost use Rattle.td_disk.specs.declared.disk.TheConstants.{MAX_DISK_LEN};
ghost use Rattle.td_disk.specs.Moments.{IsSynced, LeavesOnly};
ghost use Rattle.td_disk.specs.Calls.{Puts, Grows};
ghost use Rattle.td_disk.specs.Gated.{disk_of, end_of};
ghost use Rattle.td_op.specs.declared.input.Input.{Input};
ghost use Rattle.td_machine.specs.Step.{step};
ghost use Rattle.td_replica.specs.Replica.{new_replica, after_step};
ghost use Rattle.td_input.specs.Spelling.{CanWrite};
ghost use Rattle.td_journal.specs.declared.fault.KeptFault.TheVariants.{Closed, Full, Disk, Memory};
ghost use Rattle.td_journal.specs.declared.fault.OpenFault.{OpenFault};
ghost use Rattle.td_journal.specs.declared.format.Format.{Format};
ghost use Rattle.td_journal.specs.Bad.{IsBadAt};
ghost use Rattle.td_journal.specs.Check.{bytes_of};
ghost use Rattle.td_journal.specs.Journal.{head_bytes, record_bytes, inputs_of, IsJournal};
ghost use Rattle.td_journal.specs.Kept.{IsKept, IsCounted, AreIndexed, OrBegan};
ghost use Rattle.td_journal.specs.Opening.{IsFound};
ghost use Rattle.td_journal.specs.Seen.{replica_of, journal_of, format_of, check_behind, staged_bytes, is_closed};
ghost use Rattle.td_journal.specs.Seen.{acknowledged, released, inputs_in, acknowledged_in};
ghost use Rattle.td_journal.specs.Seen.{HasWholeLength, IsOwnJournal, IsOwnJournalOfEither};

use crate::check::Check;
use crate::fault::{KeptFault, OpenFault, Refused};
use crate::format::Format;
use crate::kept::Kept;
use crate::opening::{Found, find};
use crate::piece::Piece;
use crate::record::{header, write_record};
use std::alloc::Global;
use td_base::{Bytes, Memory, Site};
use td_disk::{Disk, Gated, MAX_DISK_LEN, MemDisk, begin};
use td_doc::Doc;
use td_op::{Input, Reply};
use td_replica::Replica;

impl<D: Doc, K: Disk> Kept<D, K> {
    /// The replica of a site among n, which has done nothing, on a disk that has no more bytes than its journal. A
    /// crash at any moment leaves no more bytes than that.
    pub fn create(
        alloc: Global,
        site: Site,
        n: u8,
        format: Format,
        disk: K,
    ) -> Result<Kept<D, K>, Refused<K>>
        requires small { n ≤ MAX_SITE }
        requires within { site ≤ n }
        requires short { length (K.Disk.reads disk) ≤ length (head_bytes format site n) + 1 }
        requires synced { IsSynced K.Disk disk }
        ensures replica { IfOk result (λ kept. replica_of kept ≡ new_replica site n) }
        ensures format { IfOk result (λ kept. format_of kept ≡ format) }
        ensures open { IfOk result (λ kept. is_closed kept ≡ false) }
        ensures acknowledged { IfOk result (λ kept. acknowledged kept ≡ 0) }
        ensures staged { IfOk result (λ kept. staged_bytes kept ≡ []) }
        ensures done { IfOk result (λ kept. Puts K.Disk disk 0 (head_bytes format site n ++ 0 ∷ []) true
            (disk_of (journal_of kept))) }
        ensures leaves { IfOk result (λ kept. (c : List ℕ) → K.Disk.leaves (disk_of (journal_of kept)) c
            → IsJournal format site n [] c) }
        ensures any_moment { IfOk result (λ kept. LeavesOnly K.Disk disk (disk_of (journal_of kept))
            (λ c. length c ≤ length (head_bytes format site n) + 1)) }
        ensures any_moment_err { IfErr result (λ refused.
            OrBegan K.Disk (length (head_bytes format site n) + 1) disk refused.disk) }
        ensures disk { IfErr result (λ refused. refused.why ≡ OpenFault.Disk
            → Rose (K.Disk.faults disk) (K.Disk.faults refused.disk)) }
        ensures not_done { IfErr result (λ refused. refused.why ≡ OpenFault.Disk
            → Puts K.Disk disk 0 (head_bytes format site n ++ 0 ∷ []) false refused.disk) }
        ensures untouched { IfErr result (λ refused. refused.why ≢ OpenFault.Disk → refused.disk ≡ disk) }
        ensures not_bad { IfErr result (λ refused. (at : ℕ) → ¬ (refused.why ≡ OpenFault.Bad at)) }
    {
        let Ok(parts) = Parts::new(alloc, site, n, format) else {
            return Err(Refused {
                disk,
                why: OpenFault::Memory,
            });
        };
        let mut disk = disk;
        if begin(&mut disk, parts.head.as_slice()).is_err() {
            return Err(Refused {
                disk,
                why: OpenFault::Disk,
            });
        }
        Ok(Kept::of(alloc, disk, parts.found))
    }

    /// The replica that the journal on the disk is of, which goes on in its format. It syncs the disk, reads it whole,
    /// and gives a new replica the inputs of the journal; it writes nothing.
    pub fn open(alloc: Global, site: Site, n: u8, disk: K) -> Result<Kept<D, K>, Refused<K>>
        requires small { n ≤ MAX_SITE }
        requires within { site ≤ n }
        requires sound { K.Disk.is_sound disk ≡ true }
        ensures journal { IfOk result (λ kept. IsJournal (format_of kept) site n (inputs_in kept)
            (K.Disk.reads disk)) }
        ensures site { IfOk result (λ kept. (replica_of kept).machine.site ≡ site) }
        ensures size { IfOk result (λ kept. (replica_of kept).machine.size ≡ n) }
        ensures open { IfOk result (λ kept. is_closed kept ≡ false) }
        ensures acknowledged { IfOk result (λ kept. acknowledged kept ≡ length (replica_of kept).entries) }
        ensures staged { IfOk result (λ kept. staged_bytes kept ≡ []) }
        ensures done { IfOk result (λ kept. K.Disk.syncs disk true (disk_of (journal_of kept))) }
        ensures leaves { IfOk result (λ kept. (c : List ℕ) → K.Disk.leaves (disk_of (journal_of kept)) c
            → IsOwnJournal kept (inputs_in kept) c) }
        // A journal is read as its inputs, and is never bad.
        ensures restores { (f : Format) (inputs : List Input) → AllByRecursion CanWrite inputs
            → IsJournal f site n inputs (K.Disk.reads disk)
            → IfOk result (λ kept. (format_of kept ≡ f) × (inputs_in kept ≡ inputs)) }
        ensures not_bad { (f : Format) (inputs : List Input) → AllByRecursion CanWrite inputs
            → IsJournal f site n inputs (K.Disk.reads disk)
            → IfErr result (λ refused. (at : ℕ) → ¬ (refused.why ≡ OpenFault.Bad at)) }
        ensures bad { IfErr result (λ refused. (at : ℕ) → refused.why ≡ OpenFault.Bad at
            → IsBadAt site n (K.Disk.reads disk) at) }
        ensures any_moment { IfOk result (λ kept.
            LeavesOnly K.Disk disk (disk_of (journal_of kept)) (K.Disk.leaves disk)) }
        ensures any_moment_err { IfErr result (λ refused.
            LeavesOnly K.Disk disk refused.disk (K.Disk.leaves disk)) }
        ensures reads { IfErr result (λ refused. K.Disk.reads refused.disk ≡ K.Disk.reads disk) }
        ensures disk { IfErr result (λ refused. refused.why ≡ OpenFault.Disk
            → Rose (K.Disk.faults disk) (K.Disk.faults refused.disk)) }
    {
        let mut disk = disk;
        match find(alloc, site, n, &mut disk) {
            Ok(found) => Ok(Kept::of(alloc, disk, found)),
            Err(why) => Err(Refused { disk, why }),
        }
    }

    // Of what stands on the disk.
    fn of(alloc: Global, disk: K, found: Found<D>) -> Kept<D, K>
        requires found { IsFound found.replica.machine.site found.replica.machine.size (K.Disk.reads disk)
            found.replica found.check found.end }
        requires staged { found.staged ≡ [] }
        requires short { length (K.Disk.reads disk) ≤ MAX_DISK_LEN }
        requires synced { IsSynced K.Disk disk }
        ensures replica { replica_of result ≡ found.replica }
        ensures format { format_of result ≡ found.check.format }
        ensures open { is_closed result ≡ false }
        ensures acknowledged { acknowledged result ≡ length found.replica.entries }
        ensures staged { staged_bytes result ≡ [] }
        ensures disk { disk_of (journal_of result) ≡ disk }
        ensures leaves { (c : List ℕ) → K.Disk.leaves disk c → IsOwnJournal result (inputs_in result) c }
    {
        let acknowledged = found.replica.entries();
        let released = found.replica.sent();
        Kept {
            alloc,
            replica: found.replica,
            journal: Gated::new(disk, found.end),
            check: found.check,
            staged: found.staged,
            acknowledged,
            released,
            closed: false,
        }
    }

    /// One step of the replica, whose record the next commit writes. It is not acknowledged before. After a fault the
    /// value is as before.
    pub fn stage(&mut self, input: Input) -> Result<Reply, KeptFault>
        ensures reply { IfOk result (λ reply. reply ≡ (step (replica_of self.old).machine input).reply) }
        ensures ok { OnOk result (replica_of self.new ≡ after_step input (replica_of self.old)) }
        ensures staged { OnOk result (staged_bytes self.new ≡ staged_bytes self.old
            ++ record_bytes (format_of self.old) (bytes_of (check_behind self.old)) input) }
        ensures err { OnErr result ((replica_of self.new ≡ replica_of self.old)
            × (check_behind self.new ≡ check_behind self.old) × (staged_bytes self.new ≡ staged_bytes self.old)) }
        ensures others { (journal_of self.new ≡ journal_of self.old) × (format_of self.new ≡ format_of self.old)
            × (acknowledged self.new ≡ acknowledged self.old) × (released self.new ≡ released self.old)
            × (is_closed self.new ≡ is_closed self.old) }
        ensures place { ((replica_of self.new).machine.site ≡ (replica_of self.old).machine.site)
            × ((replica_of self.new).machine.size ≡ (replica_of self.old).machine.size) }
        ensures closed { IsErrOf result Closed ↔ (is_closed self.old ≡ true) }
        ensures long { HasWholeLength self.old }
        ensures fits { OnOk result (end_of (journal_of self.old) + length (staged_bytes self.new) + 1 ≤ MAX_DISK_LEN) }
        ensures full { (len : ℕ) → IsErrOf result (Full len)
            → (len ≡ end_of (journal_of self.old) + length (staged_bytes self.old))
            × (MAX_DISK_LEN
            < len + length (record_bytes (format_of self.old) (bytes_of (check_behind self.old)) input) + 1) }
        ensures not_disk { ¬ IsErrOf result Disk }
        ensures can { CanWrite input }
    {
        if self.closed {
            return Err(KeptFault::Closed);
        }
        // tells that the history is legal
        self.replica.entries();
        let record = write_record(self.alloc, self.check, &input)?;
        let staged = self.staged.len();
        let end = self.journal.end() + staged;
        if record.bytes.as_slice().len() >= MAX_DISK_LEN - end {
            return Err(KeptFault::Full { len: end as u32 });
        }
        self.staged.push(record.bytes.as_slice())?;
        let Ok(reply) = self.replica.step_on(&input) else {
            self.staged.truncate(staged);
            return Err(KeptFault::Memory);
        };
        self.check = record.check;
        Ok(reply)
    }

    /// Writes the records of all that is staged, and acknowledges it: a crash at any moment leaves a journal of the
    /// inputs that were acknowledged, or of these and the staged ones, and from its Ok on of the latter. It takes no
    /// memory. After a fault of the disk the value is closed.
    pub fn commit(&mut self) -> Result<(), KeptFault>
        ensures acknowledged { OnOk result (acknowledged self.new ≡ length (replica_of self.new).entries) }
        ensures staged { OnOk result (staged_bytes self.new ≡ []) }
        ensures nothing { OnOk result (staged_bytes self.old ≡ [] → journal_of self.new ≡ journal_of self.old) }
        ensures done { OnOk result (staged_bytes self.old ≢ [] → Grows K.Disk (disk_of (journal_of self.old))
            (end_of (journal_of self.old)) (staged_bytes self.old ++ 0 ∷ []) true (disk_of (journal_of self.new))) }
        ensures not_done { IsErrOf result Disk → Grows K.Disk (disk_of (journal_of self.old))
            (end_of (journal_of self.old)) (staged_bytes self.old ++ 0 ∷ []) false (disk_of (journal_of self.new)) }
        ensures same { (replica_of self.new ≡ replica_of self.old) × (check_behind self.new ≡ check_behind self.old) }
        ensures released { OnErr result ((released self.new ≡ released self.old)
            × (acknowledged self.new ≡ acknowledged self.old)) }
        ensures any_moment { is_closed self.old ≡ false → LeavesOnly K.Disk (disk_of (journal_of self.old))
            (disk_of (journal_of self.new)) (IsOwnJournalOfEither self.old
            (acknowledged_in self.old) (inputs_in self.old)) }
        ensures leaves { OnOk result ((c : List ℕ) → K.Disk.leaves (disk_of (journal_of self.new)) c
            → IsOwnJournal self.new (inputs_in self.new) c) }
        ensures open { OnOk result (is_closed self.new ≡ false) }
        ensures closed { IsErrOf result Closed ↔ (is_closed self.old ≡ true) }
        ensures closed_keeps { IsErrOf result Closed → (journal_of self.new ≡ journal_of self.old)
            × (staged_bytes self.new ≡ staged_bytes self.old) × (is_closed self.new ≡ true) }
        ensures disk { IsErrOf result Disk → (is_closed self.new ≡ true)
            × Rose (K.Disk.faults (disk_of (journal_of self.old))) (K.Disk.faults (disk_of (journal_of self.new))) }
        ensures only { OnErr result (IsErrOf result Closed ⊎ IsErrOf result Disk) }
        ensures faults { K.Disk.faults (disk_of (journal_of self.old))
            ≤ K.Disk.faults (disk_of (journal_of self.new)) }
    {
        if self.closed {
            return Err(KeptFault::Closed);
        }
        if self.staged.len() == 0 {
            return Ok(());
        }
        if self.journal.grow(self.staged.bytes()).is_err() {
            self.closed = true;
            return Err(KeptFault::Disk);
        }
        self.staged.truncate(0);
        self.acknowledged = self.replica.entries();
        self.released = self.replica.sent();
        Ok(())
    }

    /// One step of the replica, which is on the disk when it is answered, with all that was staged.
    pub fn step(&mut self, input: Input) -> Result<Reply, KeptFault>
        ensures reply { IfOk result (λ reply. reply ≡ (step (replica_of self.old).machine input).reply) }
        ensures ok { OnOk result (replica_of self.new ≡ after_step input (replica_of self.old)) }
        ensures acknowledged { OnOk result (acknowledged self.new ≡ length (replica_of self.new).entries) }
        ensures format { format_of self.new ≡ format_of self.old }
        ensures open { OnOk result (is_closed self.new ≡ false) }
        ensures not_released { OnErr result ((released self.new ≡ released self.old)
            × (acknowledged self.new ≡ acknowledged self.old)) }
        ensures any_moment { is_closed self.old ≡ false → LeavesOnly K.Disk (disk_of (journal_of self.old))
            (disk_of (journal_of self.new)) (IsOwnJournalOfEither self.old
            (acknowledged_in self.old) (inputs_in self.old ++ input ∷ [])) }
        ensures leaves { OnOk result ((c : List ℕ) → K.Disk.leaves (disk_of (journal_of self.new)) c
            → IsOwnJournal self.new (inputs_in self.new) c) }
        ensures closed { IsErrOf result Closed ↔ (is_closed self.old ≡ true) }
        ensures full { (len : ℕ) → IsErrOf result (Full len)
            → (len ≡ end_of (journal_of self.old) + length (staged_bytes self.old))
            × (MAX_DISK_LEN
            < len + length (record_bytes (format_of self.old) (bytes_of (check_behind self.old)) input) + 1) }
        ensures long { HasWholeLength self.old }
        ensures keeps { OnErr result ((¬ IsErrOf result Disk) → (replica_of self.new ≡ replica_of self.old)
            × (journal_of self.new ≡ journal_of self.old) × (staged_bytes self.new ≡ staged_bytes self.old)
            × (check_behind self.new ≡ check_behind self.old) × (is_closed self.new ≡ is_closed self.old)) }
        ensures fits { OnOk result (end_of (journal_of self.old) + (length (staged_bytes self.old)
            + length (record_bytes (format_of self.old) (bytes_of (check_behind self.old)) input)) + 1 ≤ MAX_DISK_LEN) }
        ensures disk { IsErrOf result Disk → (is_closed self.new ≡ true)
            × (replica_of self.new ≡ after_step input (replica_of self.old))
            × Rose (K.Disk.faults (disk_of (journal_of self.old))) (K.Disk.faults (disk_of (journal_of self.new))) }
        ensures can { CanWrite input }
    {
        let reply = self.stage(input)?;
        self.commit()?;
        Ok(reply)
    }

    /// The replica, with all that is staged.
    pub fn replica(&self) -> &Replica<D>
        ensures { result.now ≡ replica_of self.now }
    {
        &self.replica
    }

    /// How many messages the acknowledged inputs sent.
    pub fn released(&self) -> u64
        ensures released { result ≡ released self.now }
        ensures counted { IsCounted (replica_of self.now) (acknowledged self.now) (released self.now) }
    {
        self.released
    }

    /// The disk. What is staged and not acknowledged is given up.
    pub fn into_disk(self) -> K
        ensures { result ≡ disk_of (journal_of self) }
    {
        self.journal.into_disk()
    }
}

// What a kept replica begins with.
#[derive(Drop)]
struct Parts<D: Doc> {
    // a journal of no inputs, up to its closed gate and with it
    head: Bytes,
    found: Found<D>,
}

impl<D: Doc> Parts<D> {
    fn new(alloc: Global, site: Site, n: u8, format: Format) -> Result<Parts<D>, Memory>
        requires small { n ≤ MAX_SITE }
        requires within { site ≤ n }
        ensures head { IfOk result (λ parts. parts.head ≡ head_bytes format site n ++ 0 ∷ []) }
        ensures long { IfOk result (λ parts. length parts.head ≡ length (head_bytes format site n) + 1) }
        ensures found { IfOk result (λ parts.
            IsFound site n parts.head parts.found.replica parts.found.check parts.found.end) }
        ensures format { IfOk result (λ parts. parts.found.check.format ≡ format) }
        ensures replica { IfOk result (λ parts. parts.found.replica ≡ new_replica site n) }
        ensures staged { IfOk result (λ parts. parts.found.staged ≡ []) }
    {
        let header = header(format, site, n);
        let check = Check::new(format, &header);
        let mut head = Bytes::new(alloc);
        head.push(&header)?;
        check.push(&mut head)?;
        let end = head.as_slice().len();
        head.push(&[0])?;
        let staged = Piece::new(alloc)?;
        let replica = Replica::new(alloc, site, n)?;
        let found = Found {
            replica,
            check,
            end,
            staged,
        };
        Ok(Parts { head, found })
    }
}

impl<D: Doc> Kept<D, MemDisk> {
    /// The `k`-th write or sync of the disk from now on fails, once. It takes no memory.
    pub fn fail_next(&mut self, k: u32)
        requires { 0 < k }
        ensures disk { disk_of (journal_of self.new) ≡ record (disk_of (journal_of self.old)) { fuse = k } }
        ensures end { end_of (journal_of self.new) ≡ end_of (journal_of self.old) }
        ensures replica { replica_of self.new ≡ replica_of self.old }
        ensures staged { (staged_bytes self.new ≡ staged_bytes self.old)
            × (check_behind self.new ≡ check_behind self.old) }
        ensures counted { (acknowledged self.new ≡ acknowledged self.old) × (released self.new ≡ released self.old) }
        ensures closed { is_closed self.new ≡ is_closed self.old }
    {
        self.journal.fail_next(k);
    }
}
