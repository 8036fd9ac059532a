ghost use Rattle.std.specs.Prelude.{◌≡◌, ◌<◌, ◌≤◌, ◌+◌, ◌++◌, length, IfOk, IfSome, OnOk, Some};
ghost use Rattle.std.specs.List.{find, slice_get};
ghost use Rattle.std.specs.Option.{is_some, option_and_then, option_map};
ghost use Rattle.td_base.specs.declared.site.TheConstants.{MAX_SITE};
ghost use Rattle.td_machine.specs.Counts.{ops_of};
ghost use Rattle.td_machine.specs.Log.{decision, proposed_slot};
ghost use Rattle.td_machine.specs.Ready.{is_dot_of};
ghost use Rattle.td_op.specs.Op.{IsOp, OpValue};
ghost use Rattle.td_store.specs.Inserting.{inserting};
ghost use Rattle.td_history.specs.Past.{IsAsBefore, empty_past, kept, resumed, with_taken, with_made, voted, entered};
ghost use Rattle.td_history.specs.Past.{IsNextIn, IsDoneAs};
ghost use Rattle.td_base.specs.Lists.{kth};

use crate::entries::Entries;
use crate::log::Log;
use crate::message::CompactMessage;
use crate::ramps::Ramps;
use crate::vote::CompactVote;
use std::alloc::Global;
use std::marker::Model;
use td_base::{Dot, Memory, Run, Site};
use td_clock::Vector;
use td_op::{Body, Entry, Input, Message, Op, Reply};
use td_path::Slot;
use td_store::Ops;

// For so many things a step needs room.
const STEP: u32 = 8;

// For how many more things `reserve` makes room, so that not each step looks at each list.
const MORE: u32 = 64;

/// What the replica of a site keeps of its past. Contracts see a `Past`. There is room for so many more things of any
/// kind, with operations of one site: they are noted without memory.
#[derive(Drop)]
pub struct History {
    site: Site,
    log: Log,
    sent: Ramps<CompactMessage>,
    entries: Entries,
    room: u32,
}

impl Model for History {
    ghost use Rattle.td_history.specs.Past.{Past};

    ghost Value = { Past };

    ghost use Rattle.td_history.specs.HistoryParts.{entries_of, sent_of, IsHistoryParts};

    ghost view = { λ h. record {
      site = h.site;
      size = h.log.size;
      ops = h.log.ops;
      log = h.log.log;
      sent = sent_of h.log.ops h.sent.items;
      entries = entries_of h.log.ops h.entries;
      room = h.room;
      room_site = h.log.room_site;
    } };

    ghost invariant = { λ h. IsHistoryParts h.site h.log h.sent h.entries h.room };
}

impl History {
    /// The history of this site of n at the beginning.
    pub fn new(alloc: Global, site: Site, n: u8) -> Result<History, Memory>
        requires some { 1 ≤ n }
        requires few { n ≤ MAX_SITE }
        requires site { site ≤ n }
        ensures { IfOk result (λ h. h ≡ empty_past site n) }
    {
        Ok(History {
            site,
            log: Log::new(alloc, site, n)?,
            sent: Ramps::new(alloc),
            entries: Entries::new(alloc),
            room: 0,
        })
    }

    /// Makes room for at least eight more things, and for operations of this site among them. A step notes at most
    /// seven. `Memory` also where a count would pass its type; after it there is no room.
    pub fn reserve(&mut self, of: Site) -> Result<(), Memory>
        requires { of ≤ self.old.size }
        ensures before { IsAsBefore self.old self.new }
        ensures room { OnOk result (8 ≤ self.new.room) }
        ensures site { OnOk result (self.new.room_site ≡ of) }
    {
        if self.room >= STEP && self.log.room_site() == of {
            return Ok(());
        }
        self.room = 0;
        self.log.reserve(of, MORE)?;
        self.sent.reserve(MORE)?;
        self.entries.reserve(MORE)?;
        self.room = MORE;
        Ok(())
    }

    /// Notes an operation made here, which is sent.
    pub fn make(&mut self, op: &Op)
        requires room { 1 ≤ self.old.room }
        requires next { IsNextIn self.old.size self.old.room_site self.old.log op.now }
        requires own { op.now.dot.site ≡ self.old.site }
        ensures { self.new ≡ with_made op.now self.old }
    {
        let number = self.log.add(op);
        self.sent.push(CompactMessage::Op { number });
        self.room -= 1;
    }

    /// Notes an insertion made here, by its parts, which is sent.
    pub fn make_insertion(&mut self, dot: Dot, deps: &Vector, slot: &Slot, run: &Run)
        requires room { 1 ≤ self.old.room }
        requires op { IsOp (inserting dot deps.now slot.now run.now) }
        requires next { IsNextIn self.old.size self.old.room_site self.old.log
            (inserting dot deps.now slot.now run.now) }
        requires own { dot.site ≡ self.old.site }
        ensures { self.new ≡ with_made (inserting dot deps.now slot.now run.now) self.old }
    {
        let number = self.log.add_insertion(dot, deps, slot, run);
        self.sent.push(CompactMessage::Op { number });
        self.room -= 1;
    }

    /// Notes an operation taken.
    pub fn take(&mut self, op: &Op)
        requires room { 1 ≤ self.old.room }
        requires next { IsNextIn self.old.size self.old.room_site self.old.log op.now }
        ensures { self.new ≡ with_taken op.now self.old }
    {
        let _number = self.log.add(op);
        self.room -= 1;
    }

    /// Keeps an operation that is neither made nor taken yet, and answers its number.
    pub fn keep(&mut self, op: &Op) -> u32
        requires room { 1 ≤ self.old.room }
        requires size { length op.now.deps ≡ self.old.size }
        ensures past { self.new ≡ kept op.now self.old }
        ensures number { result ≡ length self.old.ops }
    {
        let number = self.log.keep(op);
        self.room -= 1;
        number
    }

    /// Notes that the operation, which is kept under this number, is taken now.
    pub fn resume(&mut self, number: u32, op: &Op)
        requires room { 1 ≤ self.old.room }
        requires kept { slice_get self.old.ops number ≡ Some op.now }
        requires next { IsNextIn self.old.size self.old.room_site self.old.log op.now }
        ensures { self.new ≡ resumed op.now self.old }
    {
        self.log.resume(number, op);
        self.room -= 1;
    }

    /// Notes the vote that this site sends.
    pub fn vote(&mut self, proposal: Dot, yes: bool)
        requires { 1 ≤ self.old.room }
        ensures { self.new ≡ voted proposal yes self.old }
    {
        let vote = CompactVote::new(proposal, self.site, yes);
        self.sent.push(CompactMessage::Vote { vote });
        self.room -= 1;
    }

    /// Notes an entry. The number is that of the operation made or taken with it, where it is kept.
    pub fn enter(&mut self, input: &Input, reply: &Reply, number: Option<u32>)
        requires room { 1 ≤ self.old.room }
        requires kept { IfSome number (λ k. k < length self.old.ops) }
        requires done { IfSome number (IsDoneAs self.old.ops input.now) }
        ensures { self.new ≡ entered input.now reply.now self.old }
    {
        self.entries.push(&self.log, input, reply, number);
        self.room -= 1;
    }

    /// How many operations are kept. Their numbers are those below.
    pub fn kept(&self) -> u32
        ensures { result ≡ length self.now.ops }
    {
        self.log.len()
    }

    /// The operations that are kept, by their numbers.
    pub fn ops(&self) -> &Ops
        ensures { result.now.ops ≡ self.now.ops }
    {
        self.log.ops()
    }

    /// The operation of a number.
    pub fn op(&self, number: u32) -> Option<Op>
        ensures { result ≡ slice_get self.now.ops number }
    {
        self.log.op(number)
    }

    /// The dot of the operation of a number.
    pub fn dot(&self, number: u32) -> Option<Dot>
        ensures { result ≡ option_map (λ (op : OpValue). op.dot) (slice_get self.now.ops number) }
    {
        self.log.dot(number)
    }

    /// What the operation of a number does.
    pub fn body(&self, number: u32) -> Option<Body>
        ensures { result ≡ option_map (λ (op : OpValue). op.body) (slice_get self.now.ops number) }
    {
        self.log.body(number)
    }

    /// The number of the operation with this dot that was made or taken.
    pub fn find(&self, dot: Dot) -> Option<u32>
        ensures op { option_and_then (slice_get self.now.ops) result ≡ find (is_dot_of dot) self.now.log }
        ensures variant { is_some result ≡ is_some (find (is_dot_of dot) self.now.log) }
        ensures bound { IfSome result (λ k. k < length self.now.ops) }
    {
        self.log.find(dot)
    }

    /// The last operation of a site that was made or taken.
    pub fn last_of(&self, site: Site) -> Option<Op>
        requires { site ≤ self.now.size }
        ensures { result ≡ slice_get (ops_of site self.now.log) 0 }
    {
        self.log.last_of(site)
    }

    /// The slot that this proposal asks for.
    pub fn proposed_slot(&self, p: Dot) -> Option<Slot>
        ensures { result ≡ proposed_slot p self.now.log }
    {
        self.log.proposed_slot(p)
    }

    /// What was decided of this proposal: true where it was committed.
    pub fn decision(&self, p: Dot) -> Option<bool>
        ensures { result ≡ decision p self.now.log }
    {
        self.log.decision(p)
    }

    /// How many entries there are.
    pub fn entries(&self) -> u64
        ensures { result ≡ length self.now.entries }
    {
        self.entries.len()
    }

    /// The k-th entry, from 1.
    pub fn entry(&self, k: u64) -> Option<Entry>
        ensures { result ≡ kth k self.now.entries }
    {
        if k == 0 {
            return None;
        }
        self.entry_at(k - 1)
    }

    /// How many messages were sent.
    pub fn sent(&self) -> u64
        ensures { result ≡ length self.now.sent }
    {
        self.sent.len() as u64
    }

    /// The k-th message sent, from 1.
    pub fn sent_at(&self, k: u64) -> Option<Message>
        ensures { result ≡ kth k self.now.sent }
    {
        if k == 0 || k > self.sent() {
            return None;
        }
        Some(self.message(k))
    }

    /// The k-th message sent, from 1, which is there.
    pub fn message(&self, k: u64) -> Message
        requires some { 1 ≤ k }
        requires within { k ≤ length self.now.sent }
        ensures { kth k self.now.sent ≡ Some result }
    {
        // each call that hands a message on, and each arm of a `match`, would copy its 240 bytes once more
        let number = match self.sent.at(k - 1) {
            CompactMessage::Op { number } => number,
            CompactMessage::Vote { vote } => return Message::Vote(vote.vote()),
        };
        Message::Op(self.log.at(number))
    }

    // The entry at a place from 0.
    fn entry_at(&self, i: u64) -> Option<Entry>
        ensures { result ≡ slice_get self.now.entries i }
    {
        self.entries.get(&self.log, i)
    }
}
