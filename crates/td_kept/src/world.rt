ghost use Rattle.std.specs.Prelude.{◌≡◌, ◌≤◌, ◌↔◌, ℕ, List, true, false, length, IfOk, OnOk, IsErrOf};
ghost use Rattle.std.specs.Option.{option_map};
ghost use Rattle.td_base.specs.declared.site.TheConstants.{MAX_SITE};
ghost use Rattle.td_base.specs.Lists.{kth};
ghost use Rattle.td_op.specs.declared.message.Message.{Message};
ghost use Rattle.td_op.specs.Message.{sender};
ghost use Rattle.td_disk.specs.Gated.{disk_of};
ghost use Rattle.td_journal.specs.declared.fault.KeptFault.{KeptFault};
ghost use Rattle.td_journal.specs.declared.fault.KeptFault.TheVariants.{Closed, Full};
ghost use Rattle.td_journal.specs.Seen.{inputs_in, journal_of, replica_of, IsOwnJournal};
ghost use Rattle.td_world.specs.Calls.{ask, numbered_given, numbered_moves};
ghost use Rattle.td_world.specs.World.{IsWorld, moved, moved_all, replica, reply_to, size};
ghost use Rattle.td_kept.specs.KeptWorld.{all_fit, crashed, fitting, has_room, journal_len, kept_world, new_kept};

use crate::reopening::DISK_CALLS;
use crate::seat::Seat;
use std::alloc::Global;
use std::marker::Model;
use td_base::{Memory, Site};
use td_disk::{Disk, MemDisk};
use td_doc::Doc;
use td_journal::{Kept, KeptFault};
use td_op::{Input, Message, Reply, Request};
use td_replica::Given;

/// Sites 1 to n side by side, each with the journal of its inputs on a disk in memory, and the messages that they
/// released, with numbers from 1 in the order of their release. After want of memory it is spent. Contracts see a
/// `KeptWorldValue`.
#[derive(Drop)]
pub struct KeptWorld<D: Doc> {
    alloc: Global,
    // of site s at place s - 1
    seats: Vec<Seat<D>>,
    sent: Vec<Message>,
    spent: bool,
}

impl<D: Doc> Model for KeptWorld<D> {
    ghost use Rattle.td_kept.specs.KeptWorld.{KeptWorldValue};

    ghost Value = { KeptWorldValue };

    ghost use Rattle.td_kept.specs.Seats.{world_value, IsKeptWorld};

    ghost view = { λ w. record { world = world_value w.seats.items w.sent.items; spent = w.spent } };

    ghost invariant = { λ w. IsKeptWorld w.seats.items w.sent.items w.spent };
}

impl<D: Doc> KeptWorld<D> {
    /// The world of n sites that have done nothing, each with an empty journal.
    pub fn new(alloc: Global, n: u8) -> Result<KeptWorld<D>, Memory>
        requires some { 1 ≤ n }
        requires few { n ≤ MAX_SITE }
        ensures new { IfOk result (λ w. w ≡ new_kept n) }
        ensures world { IfOk result (λ w. IsWorld w.world) }
        ensures size { IfOk result (λ w. size w.world ≡ n) }
    {
        let mut seats = Vec::new(alloc);
        for place in 0..n {
            seats.push(Seat::new(alloc, Site::at(place), n)?)?;
        }
        Ok(KeptWorld {
            alloc,
            seats,
            sent: Vec::new(alloc),
            spent: false,
        })
    }

    /// A site with its journal: a crash leaves a journal of the replica's inputs. It takes no memory.
    pub fn kept(&self, site: Site) -> &Kept<D, MemDisk>
        requires within { site ≤ size self.now.world }
        requires whole { self.now.spent ≡ false }
        ensures some { 1 ≤ site }
        ensures replica { replica_of result.now ≡ replica self.now.world site }
        ensures journal { (c : List ℕ) → ⟦<MemDisk as Disk>⟧.leaves (disk_of (journal_of result.now)) c
            → IsOwnJournal result.now (inputs_in result.now) c }
        ensures world { IsWorld self.now.world }
    {
        self.seats[site.place()].kept()
    }

    /// How many messages were released.
    pub fn sent(&self) -> u64
        ensures { result ≡ length self.now.world.sent }
    {
        self.sent.len() as u64
    }

    /// The message with this number, and the site that sent it; None exactly where no message has the number.
    pub fn message(&self, number: u64) -> Option<(Site, Message)>
        ensures { result ≡ option_map (λ (m : Message). (sender m, m)) (kth number self.now.world.sent) }
    {
        let message = self.numbered(number)?;
        Some((message.sender(), message))
    }

    /// Whether an earlier call found no memory.
    pub fn is_spent(&self) -> bool
        ensures spent { result ≡ self.now.spent }
        ensures world { self.now.spent ≡ false → IsWorld self.now.world }
    {
        self.spent
    }

    // The message with this number.
    fn numbered(&self, number: u64) -> Option<Message>
        ensures { result ≡ kth number self.now.world.sent }
    {
        if number == 0 || number > self.sent() {
            return None;
        }
        Some(self.sent[number as usize - 1])
    }

    /// A request of a site's editor, which is on its disk when it is answered. Full where its record has no room, and
    /// then nothing is changed; Closed exactly where an earlier call found no memory.
    pub fn call(&mut self, site: Site, request: Request) -> Result<Reply, KeptFault>
        requires within { site ≤ size self.old.world }
        ensures reply { IfOk result (λ reply. reply ≡ reply_to (ask site request) self.old.world) }
        ensures ok { OnOk result ((has_room (ask site request) self.old.world ≡ true)
            × (self.new ≡ kept_world (moved (ask site request) self.old.world))) }
        ensures full { (len : ℕ) → IsErrOf result (Full len) → (has_room (ask site request) self.old.world ≡ false)
            × (len ≡ journal_len (replica self.old.world site)) × (self.new ≡ self.old) }
        ensures closed { IsErrOf result Closed ↔ (self.old.spent ≡ true) }
        ensures memory { IsErrOf result KeptFault.Memory → self.new.spent ≡ true }
        ensures not_disk { ¬ IsErrOf result KeptFault.Disk }
        ensures world { self.new.spent ≡ false → IsWorld self.new.world }
        ensures size { size self.new.world ≡ size self.old.world }
    {
        if self.spent {
            return Err(KeptFault::Closed);
        }
        let input = Input::Local(request);
        input.is_in_range();
        match self.seats[site.place()].step(&mut self.sent, input) {
            Ok(reply) => Ok(reply),
            Err(KeptFault::Full { len }) => Err(KeptFault::Full { len }),
            Err(_) => Err(spend(&mut self.spent)),
        }
    }

    /// Gives a site the message with the number, where there is one and it is for the site, and then takes what waits
    /// there and is ready; all of it is on its disk when it is answered. Full where not all of that has room, and then
    /// what is before is done; Closed exactly where an earlier call found no memory.
    pub fn give(&mut self, to: Site, number: u64) -> Result<Given, KeptFault>
        requires within { to ≤ size self.old.world }
        ensures given { IfOk result (λ given. given ≡ numbered_given to number self.old.world) }
        ensures ok { OnOk result ((all_fit (numbered_moves to number self.old.world) self.old.world ≡ true)
            × (self.new ≡ kept_world (moved_all (numbered_moves to number self.old.world) self.old.world))) }
        ensures full { (len : ℕ) → IsErrOf result (Full len)
            → (all_fit (numbered_moves to number self.old.world) self.old.world ≡ false)
            × (len ≡ journal_len (replica self.new.world to)) × (self.new ≡ kept_world
            (moved_all (fitting (numbered_moves to number self.old.world) self.old.world) self.old.world)) }
        ensures closed { IsErrOf result Closed ↔ (self.old.spent ≡ true) }
        ensures memory { IsErrOf result KeptFault.Memory → self.new.spent ≡ true }
        ensures not_disk { ¬ IsErrOf result KeptFault.Disk }
        ensures world { self.new.spent ≡ false → IsWorld self.new.world }
        ensures size { size self.new.world ≡ size self.old.world }
    {
        if self.spent {
            return Err(KeptFault::Closed);
        }
        let Some(message) = self.numbered(number) else {
            return Ok(Given::NoSuch);
        };
        if !message.is_for(to) {
            return Ok(Given::Stray);
        }
        message.is_in_range();
        match self.seats[to.place()].give(&mut self.sent, message) {
            Ok(given) => Ok(given),
            Err(KeptFault::Full { len }) => Err(KeptFault::Full { len }),
            Err(_) => Err(spend(&mut self.spent)),
        }
    }

    /// The site does the request while its `k`-th disk call fails, crashes, which leaves the image that `choice` names,
    /// and is opened again; how many entries it has then is answered. Full where the record has no room, and then
    /// nothing is changed; Closed exactly where an earlier call found no memory.
    pub fn crash(
        &mut self,
        site: Site,
        k: u32,
        choice: u64,
        request: Request,
    ) -> Result<u64, KeptFault>
        requires within { site ≤ size self.old.world }
        requires some { 1 ≤ k }
        requires call { k ≤ DISK_CALLS }
        ensures ok { OnOk result ((has_room (ask site request) self.old.world ≡ true)
            × (self.new ≡ kept_world (crashed (ask site request) k choice self.old.world))) }
        ensures entries { IfOk result (λ count. count ≡ length (replica self.new.world site).entries) }
        ensures full { (len : ℕ) → IsErrOf result (Full len) → (has_room (ask site request) self.old.world ≡ false)
            × (len ≡ journal_len (replica self.old.world site)) × (self.new ≡ self.old) }
        ensures closed { IsErrOf result Closed ↔ (self.old.spent ≡ true) }
        ensures memory { IsErrOf result KeptFault.Memory → self.new.spent ≡ true }
        ensures not_disk { ¬ IsErrOf result KeptFault.Disk }
        ensures world { self.new.spent ≡ false → IsWorld self.new.world }
        ensures size { size self.new.world ≡ size self.old.world }
    {
        if self.spent {
            return Err(KeptFault::Closed);
        }
        let input = Input::Local(request);
        input.is_in_range();
        match self.seats[site.place()].crash(self.alloc, &mut self.sent, k, choice, input) {
            Ok(entries) => Ok(entries),
            Err(KeptFault::Full { len }) => Err(KeptFault::Full { len }),
            Err(_) => Err(spend(&mut self.spent)),
        }
    }
}

// After want of memory nothing is done any more.
fn spend(spent: &mut bool) -> KeptFault
    ensures fault { result ≡ KeptFault.Memory }
    ensures spent { spent.new ≡ true }
{
    *spent = true;
    KeptFault::Memory
}
