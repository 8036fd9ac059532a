// What a seat tells of its site. Of these calls only `text` takes memory.
ghost use Rattle.std.specs.Prelude.{◌≡◌, ◌<◌, ◌≤◌, length, IfOk};
ghost use Rattle.std.specs.List.{find};
ghost use Rattle.td_doc.specs.Document.{text_of};
ghost use Rattle.td_base.specs.Lists.{kth};
ghost use Rattle.td_machine.specs.Machine.{undecided};
ghost use Rattle.td_machine.specs.Ready.{is_dot_of};

use crate::seat::Seat;
use std::alloc::Global;
use td_base::{Bytes, Dot, Memory, Site};
use td_clock::Vector;
use td_doc::Doc;
use td_op::{Message, Op};

impl<D: Doc> Seat<D> {
    /// The site.
    pub fn site(&self) -> Site
        ensures { result ≡ self.now.site }
    {
        self.replica.site()
    }

    /// How many operations of each site were made or taken.
    pub fn have(&self) -> &Vector
        ensures have { result.now ≡ self.now.have }
        ensures sized { length self.now.have ≡ self.now.size }
    {
        self.is_sized();
        self.replica.have()
    }

    /// How many own proposals have no decision.
    pub fn undecided(&self) -> u32
        ensures { result ≡ undecided self.now }
    {
        self.replica.undecided()
    }

    /// The operation with this dot that was made or taken.
    pub fn op(&self, dot: Dot) -> Option<Op>
        ensures { result ≡ find (is_dot_of dot) self.now.log }
    {
        self.replica.op(dot)
    }

    /// How many messages were sent.
    pub fn sent(&self) -> u64
        ensures { result ≡ length self.now.sent }
    {
        self.replica.sent()
    }

    /// The k-th message sent, from 1; None exactly at 0 and past the end.
    pub fn sent_at(&self, k: u64) -> Option<Message>
        ensures { result ≡ kth k self.now.sent }
    {
        self.replica.sent_at(k)
    }

    /// The text.
    pub fn text(&self, alloc: Global) -> Result<Bytes, Memory>
        ensures { IfOk result (λ text. text ≡ text_of self.now.doc) }
    {
        self.replica.text(alloc)
    }
}
