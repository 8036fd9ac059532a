// What a replica tells of itself. Of these calls only `text` takes memory.
ghost use Rattle.std.specs.Prelude.{◌≡◌, ◌≤◌, length, slice_get, IfOk};
ghost use Rattle.std.specs.List.{find};
ghost use Rattle.td_doc.specs.Document.{text_of};
ghost use Rattle.td_machine.specs.Counts.{ops_of};
ghost use Rattle.td_machine.specs.Hold.{held_over};
ghost use Rattle.td_machine.specs.Log.{decision};
ghost use Rattle.td_machine.specs.Machine.{made, undecided};
ghost use Rattle.td_machine.specs.Ready.{is_dot_of};
ghost use Rattle.td_base.specs.Lists.{kth};
ghost use Rattle.td_replica.specs.Replica.{IsReplica, knows_message, has_ready};

use crate::replica::Replica;
use std::alloc::Global;
use td_base::{Bytes, Dot, Memory, Site};
use td_clock::Vector;
use td_doc::Doc;
use td_op::{Change, Entry, Message, Op};
use td_path::Slot;

impl<D: Doc> Replica<D> {
    /// The site.
    pub fn site(&self) -> Site
        ensures { result ≡ self.now.machine.site }
    {
        self.state.site
    }

    /// The number of sites.
    pub fn size(&self) -> u8
        ensures { result ≡ self.now.machine.size }
    {
        self.state.have.size()
    }

    /// How many operations of each site were made or taken.
    pub fn have(&self) -> &Vector
        ensures { result.now ≡ self.now.machine.have }
    {
        &self.state.have
    }

    /// How many operations were made.
    pub fn made(&self) -> u32
        ensures { result ≡ made self.now.machine }
    {
        self.state.made()
    }

    /// How many own proposals have no decision.
    pub fn undecided(&self) -> u32
        ensures { result ≡ undecided self.now.machine }
    {
        self.state.tally.undecided()
    }

    /// How many operations wait for others.
    pub fn waiting(&self) -> u32
        ensures { result ≡ length self.now.machine.waiting }
    {
        self.state.count_waiting()
    }

    /// How many proposals are held.
    pub fn holds(&self) -> u32
        ensures { result ≡ length self.now.machine.holds }
    {
        self.state.holds.len()
    }

    /// The document.
    pub fn doc(&self) -> &D
        ensures { D.rows result.now ≡ self.now.machine.doc }
    {
        &self.state.doc
    }

    /// Whether `take` would answer Repeat.
    pub fn known(&self, message: &Message) -> bool
        ensures { result ≡ knows_message message.now self.now.machine }
    {
        self.state.known(message)
    }

    /// Whether `next` would not answer Idle.
    pub fn ready(&self) -> bool
        ensures { result ≡ has_ready self.now.machine }
    {
        self.state.has_ready()
    }

    /// The decision of the proposal, true for a commit; None exactly where this replica made or took none.
    pub fn decision(&self, proposal: Dot) -> Option<bool>
        ensures { result ≡ decision proposal self.now.machine.log }
    {
        self.state.past.decision(proposal)
    }

    /// How many entries the history has.
    pub fn entries(&self) -> u64
        ensures entries { result ≡ length self.now.entries }
        ensures replica { IsReplica self.now }
    {
        self.state.past.entries()
    }

    /// The k-th entry, from 1; None exactly at 0 and past the end.
    pub fn entry(&self, k: u64) -> Option<Entry>
        ensures { result ≡ kth k self.now.entries }
    {
        self.state.past.entry(k)
    }

    /// How many messages were sent.
    pub fn sent(&self) -> u64
        ensures { result ≡ length self.now.machine.sent }
    {
        self.state.past.sent()
    }

    /// The k-th message sent, from 1; None exactly at 0 and past the end.
    pub fn sent_at(&self, k: u64) -> Option<Message>
        ensures { result ≡ kth k self.now.machine.sent }
    {
        self.state.past.sent_at(k)
    }

    /// The k-th message sent, from 1, which is there.
    pub fn message(&self, k: u64) -> Message
        requires some { 1 ≤ k }
        requires within { k ≤ length self.now.machine.sent }
        ensures { kth k self.now.machine.sent ≡ Some result }
    {
        self.state.past.message(k)
    }

    /// The last operation of the site that was made or taken here.
    pub fn last_of(&self, site: Site) -> Option<Op>
        requires { site ≤ self.now.machine.size }
        ensures { result ≡ slice_get (ops_of site self.now.machine.log) 0 }
    {
        self.state.past.last_of(site)
    }

    /// The operation with this dot that was made or taken here.
    pub fn op(&self, dot: Dot) -> Option<Op>
        ensures { result ≡ find (is_dot_of dot) self.now.machine.log }
    {
        let number = self.state.past.find(dot)?;
        self.state.past.op(number)
    }

    /// The least proposal whose held slot overlaps the slot, which is the root or has a row as its atom.
    pub fn held_over(&self, slot: Slot) -> Option<Dot>
        ensures { result ≡ held_over self.now.machine.doc slot self.now.machine.holds }
    {
        self.state.held_over(slot)
    }

    /// The text.
    pub fn text(&self, alloc: Global) -> Result<Bytes, Memory>
        ensures { IfOk result (λ text. text ≡ text_of self.now.machine.doc) }
    {
        let mut text = Bytes::new(alloc);
        self.state.doc.push_text(&mut text)?;
        Ok(text)
    }
}
