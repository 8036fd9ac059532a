// The seats of a world: what is called of one, with the messages that are released.
ghost use Rattle.std.specs.Prelude.{◌≡◌, ◌≤◌, ◌-◌, ◌++◌, [], ◌∷◌, ℕ, List, true, false, length, IfOk, OnOk, IsErrOf};
ghost use Rattle.td_base.specs.declared.site.TheConstants.{MAX_SITE};
ghost use Rattle.td_disk.specs.Gated.{disk_of};
ghost use Rattle.td_journal.specs.declared.fault.KeptFault.TheVariants.{Full};
ghost use Rattle.td_journal.specs.Seen.{inputs_in, journal_of, replica_of, IsOwnJournal};
ghost use Rattle.td_machine.specs.Step.{step};
ghost use Rattle.td_op.specs.declared.input.Input.TheVariants.{Take};
ghost use Rattle.td_replica.specs.Replica.{new_replica};
ghost use Rattle.td_replica.specs.declared.given.Given.TheVariants.{Took};
ghost use Rattle.td_kept.specs.KeptWorld.{fits, journal_len};
ghost use Rattle.td_kept.specs.Sites.{all_inputs_fit, crash_inputs, fitting_inputs, given_inputs};
ghost use Rattle.td_kept.specs.Seats.{taken, IsAfter};

use crate::reopening::{DISK_CALLS, come_back};
use crate::site::{ask, begun, give_one, step_one};
use std::alloc::Global;
use std::marker::Model;
use td_base::{Memory, Site};
use td_disk::{Disk, MemDisk};
use td_doc::Doc;
use td_journal::{Kept, KeptFault};
use td_op::{Input, Message, Reply};
use td_replica::Given;

/// The seat of a site, with its kept replica. It is empty after want of memory. Contracts see a `SeatValue`.
#[derive(Drop)]
pub(crate) struct Seat<D: Doc> {
    kept: Option<Kept<D, MemDisk>>,
}

impl<D: Doc> Model for Seat<D> {
    ghost use Rattle.td_kept.specs.Seats.{SeatValue};

    ghost Value = { SeatValue };

    ghost use Rattle.td_kept.specs.Seats.{seat_value, IsSeat};

    ghost view = { λ s. seat_value s.kept };

    ghost invariant = { λ s. IsSeat s.kept };
}

impl<D: Doc> Seat<D> {
    /// That of a site among n that has done nothing.
    pub(crate) fn new(alloc: Global, site: Site, n: u8) -> Result<Seat<D>, Memory>
        requires few { n ≤ MAX_SITE }
        requires within { site ≤ n }
        ensures { IfOk result (λ seat. seat ≡ taken (new_replica site n)) }
    {
        Ok(Seat {
            kept: Some(begun(alloc, site, n)?),
        })
    }

    /// The site, which is there.
    pub(crate) fn kept(&self) -> &Kept<D, MemDisk>
        requires { self.now.there ≡ true }
        ensures replica { replica_of result.now ≡ self.now.replica }
        ensures journal { (c : List ℕ) → ⟦<MemDisk as Disk>⟧.leaves (disk_of (journal_of result.now)) c
            → IsOwnJournal result.now (inputs_in result.now) c }
    {
        self.kept.as_ref().unwrap()
    }

    /// One step, which is on the disk when it is answered.
    pub(crate) fn step(&mut self, sent: &mut Vec<Message>, input: Input) -> Result<Reply, KeptFault>
        requires { self.old.there ≡ true }
        ensures reply { IfOk result (λ reply. reply ≡ (step self.old.replica.machine input).reply) }
        ensures fits { OnOk result (fits input self.old.replica ≡ true) }
        ensures ok { OnOk result (IsAfter (input ∷ []) self.old self.new sent.old.items sent.new.items) }
        ensures full { (len : ℕ) → IsErrOf result (Full len) → (fits input self.old.replica ≡ false)
            × (len ≡ journal_len self.old.replica) × (self.new ≡ self.old) × (sent.new.items ≡ sent.old.items) }
    {
        let mut kept = self.kept.take().unwrap();
        match step_one(&mut kept, sent, input) {
            Ok(reply) => {
                self.kept = Some(kept);
                Ok(reply)
            }
            Err(KeptFault::Full { len }) => {
                self.kept = Some(kept);
                Err(KeptFault::Full { len })
            }
            Err(_) => Err(KeptFault::Memory),
        }
    }

    /// A message, and then what waits and is ready; all of it is on the disk when it is answered.
    pub(crate) fn give(
        &mut self,
        sent: &mut Vec<Message>,
        message: Message,
    ) -> Result<Given, KeptFault>
        requires { self.old.there ≡ true }
        ensures given { IfOk result (λ given. given ≡ Took (step self.old.replica.machine (Take message)).reply
            (length (given_inputs message self.old.replica) - 1)) }
        ensures fits { OnOk result (all_inputs_fit (given_inputs message self.old.replica) self.old.replica ≡ true) }
        ensures ok { OnOk result (IsAfter (given_inputs message self.old.replica) self.old self.new sent.old.items
            sent.new.items) }
        ensures full { (len : ℕ) → IsErrOf result (Full len)
            → (all_inputs_fit (given_inputs message self.old.replica) self.old.replica ≡ false)
            × (len ≡ journal_len self.new.replica)
            × IsAfter (fitting_inputs (given_inputs message self.old.replica) self.old.replica) self.old self.new
            sent.old.items sent.new.items }
    {
        let mut kept = self.kept.take().unwrap();
        match give_one(&mut kept, sent, message) {
            Ok(given) => {
                self.kept = Some(kept);
                Ok(given)
            }
            Err(KeptFault::Full { len }) => {
                self.kept = Some(kept);
                Err(KeptFault::Full { len })
            }
            Err(_) => Err(KeptFault::Memory),
        }
    }

    /// A step that is cut off by a crash, in which the `k`-th call of the disk fails; then the site comes back with
    /// what `choice` leaves. How many entries it has is answered.
    pub(crate) fn crash(
        &mut self,
        alloc: Global,
        sent: &mut Vec<Message>,
        k: u32,
        choice: u64,
        input: Input,
    ) -> Result<u64, KeptFault>
        requires there { self.old.there ≡ true }
        requires some { 1 ≤ k }
        requires call { k ≤ DISK_CALLS }
        ensures fits { OnOk result (fits input self.old.replica ≡ true) }
        ensures ok { OnOk result (IsAfter (crash_inputs input k choice) self.old self.new sent.old.items
            sent.new.items) }
        ensures entries { IfOk result (λ count. count ≡ length self.new.replica.entries) }
        ensures full { (len : ℕ) → IsErrOf result (Full len) → (fits input self.old.replica ≡ false)
            × (len ≡ journal_len self.old.replica) × (self.new ≡ self.old) × (sent.new.items ≡ sent.old.items) }
    {
        let mut kept = self.kept.take().unwrap();
        match ask(&mut kept, input) {
            Ok(()) => {
                let new = come_back(alloc, kept, sent, k, choice)?;
                let entries = new.replica().entries();
                self.kept = Some(new);
                Ok(entries)
            }
            Err(KeptFault::Full { len }) => {
                self.kept = Some(kept);
                Err(KeptFault::Full { len })
            }
            Err(_) => Err(KeptFault::Memory),
        }
    }
}
