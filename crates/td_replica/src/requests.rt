// What a request of the site's editor comes to.
ghost use Rattle.std.specs.Prelude.{◌≡◌, ◌≤◌, ◌+◌, ℕ, List, Option, IsSome};
ghost use Rattle.td_base.specs.declared.dot.TheConstants.{MAX_SEQ};
ghost use Rattle.td_op.specs.declared.request.Request.TheVariants.{Cancel as CancelOf};
ghost use Rattle.td_op.specs.declared.reply.Reply.TheVariants.{Position};
ghost use Rattle.td_replica.specs.declared.requests.Verdict.TheVariants.{Answer};
ghost use Rattle.std.specs.Option.{ForSome};
ghost use Rattle.td_doc.specs.Answers.{IsRow};
ghost use Rattle.td_doc.specs.Document.{live_id_at};
ghost use Rattle.td_doc.specs.Allocation.{anchor};
ghost use Rattle.td_machine.specs.Hold.{held_over};
ghost use Rattle.td_machine.specs.Machine.{made, undecided};
ghost use Rattle.td_vote.specs.ByPlace.{AreHeldApart};
ghost use Rattle.td_machine.specs.Request.{aim, insert_aim, insert_aim_at, insert_aim_after, delete_aim, propose_aim, propose_aim_of, live_aim, len, is_past_limit};
ghost use Rattle.td_history.specs.Texts.{run_asked};
ghost use Rattle.td_replica.specs.Verdict.{verdict, verdict_on, standing, put_aim};

use crate::state::State;
use td_base::{AtomId, Bit, Dot, MAX_SEQ, Run};
use td_coord::Counted;
use td_doc::{Doc, alloc_slot};
use td_op::{Reply, Request};
use td_path::Slot;

/// What a request comes to.
#[derive(Clone, Copy, Debug, PartialEq, Eq)]
pub enum Verdict {
    /// It is refused.
    Answer(Reply),
    /// The run of the request is to be put in the slot.
    Put(Slot),
    /// The row is to be deleted.
    Delete(AtomId),
    /// The slot is to be proposed.
    Propose(Slot),
    /// The own proposal is to be given up.
    Cancel(Dot),
}

impl<D: Doc> State<D> {
    /// What the request comes to.
    pub(crate) fn verdict(&self, request: &Request) -> Verdict
        requires held { AreHeldApart self.now.machine.doc self.now.machine.holds }
        requires room { made self.now.machine + undecided self.now.machine ≤ MAX_SEQ }
        ensures { result ≡ verdict request.now self.now.machine }
    {
        match *request {
            Request::Insert { index, .. } | Request::Paste { index, .. } => self.insert_at(index),
            Request::InsertAfter { after, .. } | Request::PasteAfter { after, .. } => {
                self.insert_after(after)
            }
            Request::Delete { index } => match self.doc.live_at(index) {
                Some(id) => self.delete(id),
                None => self.no_position(),
            },
            Request::DeleteAtom { id } if self.doc.is_live(id) => self.delete(id),
            Request::DeleteAtom { id } => Verdict::Answer(Reply::Gone { id }),
            Request::Propose { slot } => self.propose_in(slot),
            Request::ProposeAt { index, bit } => match self.doc.live_at(index) {
                Some(atom) => self.propose(&Slot::At { atom, bit }),
                None => self.no_position(),
            },
            Request::Cancel { proposal } => self.cancel(proposal),
        }
    }
}

impl<D: Doc> State<D> {
    // A run to be put at an index.
    fn insert_at(&self, index: u32) -> Verdict
        requires held { AreHeldApart self.now.machine.doc self.now.machine.holds }
        requires room { made self.now.machine + undecided self.now.machine ≤ MAX_SEQ }
        ensures { (run : List (List ℕ))
            → result ≡ verdict_on (insert_aim_at run index self.now.machine) self.now.machine }
    {
        if index > self.doc.live() {
            return self.no_position();
        }
        if index == 0 {
            return self.place(None);
        }
        self.place(self.doc.live_at(index - 1))
    }

    // A run to be put right after a live atom, or at the start.
    fn insert_after(&self, after: Option<AtomId>) -> Verdict
        requires held { AreHeldApart self.now.machine.doc self.now.machine.holds }
        requires room { made self.now.machine + undecided self.now.machine ≤ MAX_SEQ }
        ensures { (run : List (List ℕ))
            → result ≡ verdict_on (insert_aim_after run after self.now.machine) self.now.machine }
    {
        match after {
            Some(id) if !self.doc.is_live(id) => Verdict::Answer(Reply::Gone { id }),
            _ => self.place(after),
        }
    }

    // A run to be put right after a row, or at the start.
    fn place(&self, after: Option<AtomId>) -> Verdict
        requires row { ForSome after (IsRow self.now.machine.doc) }
        requires held { AreHeldApart self.now.machine.doc self.now.machine.holds }
        requires room { made self.now.machine + undecided self.now.machine ≤ MAX_SEQ }
        ensures { (run : List (List ℕ))
            → result ≡ verdict_on (insert_aim run after self.now.machine) self.now.machine }
    {
        self.put_in(&alloc_slot(&self.doc, after))
    }

    // A run to be put in a slot.
    fn put_in(&self, slot: &Slot) -> Verdict
        requires held { AreHeldApart self.now.machine.doc self.now.machine.holds }
        requires room { made self.now.machine + undecided self.now.machine ≤ MAX_SEQ }
        ensures { (run : List (List ℕ))
            → result ≡ verdict_on (put_aim run slot.now self.now.machine) self.now.machine }
    {
        match self.stands_against(self.holds.held_slot(&self.doc, *slot), 1) {
            Some(reply) => Verdict::Answer(reply),
            None => Verdict::Put(*slot),
        }
    }

    // A row to be deleted.
    fn delete(&self, target: AtomId) -> Verdict
        requires held { AreHeldApart self.now.machine.doc self.now.machine.holds }
        requires room { made self.now.machine + undecided self.now.machine ≤ MAX_SEQ }
        ensures { result ≡ verdict_on (delete_aim target self.now.machine) self.now.machine }
    {
        match self.stands_against(self.holds.held_row(&self.doc, target), 1) {
            Some(reply) => Verdict::Answer(reply),
            None => Verdict::Delete(target),
        }
    }

    // A slot to be proposed, where it is the root or its atom is a row.
    fn propose_in(&self, slot: Slot) -> Verdict
        requires held { AreHeldApart self.now.machine.doc self.now.machine.holds }
        requires room { made self.now.machine + undecided self.now.machine ≤ MAX_SEQ }
        ensures { result ≡ verdict_on (propose_aim_of slot self.now.machine) self.now.machine }
    {
        match slot.atom() {
            Some(id) if !self.doc.is_row(id) => Verdict::Answer(Reply::Gone { id }),
            _ => self.propose(&slot),
        }
    }

    fn propose(&self, slot: &Slot) -> Verdict
        requires held { AreHeldApart self.now.machine.doc self.now.machine.holds }
        requires room { made self.now.machine + undecided self.now.machine ≤ MAX_SEQ }
        ensures { result ≡ verdict_on (propose_aim slot.now self.now.machine) self.now.machine }
    {
        match self.stands_against(self.held_over(*slot), 2) {
            Some(reply) => Verdict::Answer(reply),
            None => Verdict::Propose(*slot),
        }
    }

    // The least proposal whose held slot overlaps the slot.
    pub(crate) fn held_over(&self, slot: Slot) -> Option<Dot>
        requires { AreHeldApart self.now.machine.doc self.now.machine.holds }
        ensures { result ≡ held_over self.now.machine.doc slot self.now.machine.holds }
    {
        self.holds.held_over(&self.doc, slot)
    }

    fn cancel(&self, proposal: Dot) -> Verdict
        ensures { result ≡ verdict (CancelOf proposal) self.now.machine }
    {
        match self.tally.state(proposal) {
            Some(Counted::Wait) => Verdict::Cancel(proposal),
            _ => Verdict::Answer(Reply::NotOpen { proposal }),
        }
    }

    fn no_position(&self) -> Verdict
        ensures { result ≡ Answer (Position (len self.now.machine)) }
    {
        Verdict::Answer(Reply::Position {
            len: self.doc.live(),
        })
    }

    // Why an operation that takes so many numbers can't be made: a hold stands against it, or the numbers are out.
    fn stands_against(&self, held: Option<Dot>, room: u32) -> Option<Reply>
        requires room { made self.now.machine + undecided self.now.machine ≤ MAX_SEQ }
        requires few { room ≤ 2 }
        ensures { result ≡ standing held room self.now.machine }
    {
        if let Some(by) = held {
            return Some(Reply::Held { by });
        }
        let made = self.made();
        let undecided = self.tally.undecided();
        if made + undecided + room > MAX_SEQ {
            return Some(Reply::Limit { made, undecided });
        }
        None
    }
}

// The run that the request asks to put.
pub(crate) fn run_in(request: &Request) -> Run
    requires { IsSome (run_asked request.now) }
    ensures { run_asked request.now ≡ Some result }
{
    match request {
        Request::Insert { atom, .. } | Request::InsertAfter { atom, .. } => Run::one(*atom),
        Request::Paste { run, .. } | Request::PasteAfter { run, .. } => *run,
        Request::Delete { .. } | Request::DeleteAtom { .. } => unreachable!(),
        Request::Propose { .. } | Request::ProposeAt { .. } | Request::Cancel { .. } => {
            unreachable!()
        }
    }
}
