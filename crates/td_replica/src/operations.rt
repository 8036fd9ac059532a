// Operations of other sites.
ghost use Rattle.std.specs.Prelude.{◌≡◌, ◌<◌, ◌≤◌, ◌+◌, Some, None, true, false, length, slice_get, option_map, if◌then◌else◌, IfOk, OnErr, IfSome, IsTrue};
ghost use Rattle.td_base.specs.Lists.{In};
ghost use Rattle.td_op.specs.declared.body.Body.TheVariants.{Propose, Commit, Abort};
ghost use Rattle.td_op.specs.declared.reply.Why.TheVariants.{Atom};
ghost use Rattle.td_doc.specs.Answers.{is_row, is_rooted};
ghost use Rattle.td_op.specs.declared.reply.Reply.TheVariants.{Later};
ghost use Rattle.td_op.specs.Message.{IsOpValue};
ghost use Rattle.td_machine.specs.Log.{is_undecided_of, proposed};
ghost use Rattle.td_machine.specs.Ready.{is_ready, next_ready};
ghost use Rattle.td_machine.specs.Taking.{stepped, misfit, body_misfit, vote_on, answer, take, keep_waiting, op_step, next_step};
ghost use Rattle.td_machine.specs.Parts.{Anything, IsBuilt, IsOffered, IsFit};
ghost use Rattle.td_replica.specs.Judging.{judged};
ghost use Rattle.td_replica.specs.declared.operations.Judged.TheVariants.{Delay};
ghost use Rattle.td_replica.specs.Parts.{IsAsBefore, ComesFrom, IsFromOutside, MayHold, number_from};
ghost use Rattle.td_replica.specs.Steps.{IsStep};

use crate::done::Done;
use crate::last_change::LastChange;
use crate::same::same_op;
use crate::state::{Origin, State};
use td_base::{AtomId, Dot, Memory, Site};
use td_causal::Waiting;
use td_doc::Doc;
use td_op::{Body, Op, Reply, Why};
use td_path::Slot;

/// What becomes of an operation that is offered.
#[derive(Clone, Copy, Debug, PartialEq, Eq)]
pub enum Judged {
    /// It is refused.
    Refuse(Reply),
    /// It is to wait.
    Delay,
    /// It is to be taken.
    Take,
}

impl<D: Doc> State<D> {
    /// Takes the operation, lets it wait, or answers why not.
    pub(crate) fn take_op(&mut self, op: &Op) -> Result<Done, Memory>
        requires built { IsBuilt Anything self.old.machine.site self.old.machine.size self.old.machine }
        requires valid { IsOpValue op.now }
        ensures ok { IfOk result (λ done. IsStep (op_step op.now self.old.machine) self.old self.new done) }
        ensures number { IfOk result (λ done. IfSome done.number (λ k. slice_get self.new.ops k ≡ Some op.now)) }
        ensures err { OnErr result (IsAsBefore self.old self.new) }
    {
        match self.judge(op) {
            Judged::Refuse(reply) => self.refuse_op(op, reply),
            Judged::Delay => self.delay(op),
            Judged::Take => self.absorb(op, Origin::There, Reply::New),
        }
    }

    /// Takes the least ready operation of those that wait, or drops it where it is unfit.
    pub(crate) fn next(&mut self) -> Result<Done, Memory>
        requires built { IsBuilt Anything self.old.machine.site self.old.machine.size self.old.machine }
        ensures ok { IfOk result (λ done. IsStep (next_step self.old.machine) self.old self.new done) }
        ensures err { OnErr result (IsAsBefore self.old self.new) }
    {
        let next = self.next_waiting();
        match &next {
            Some(next) => self.take_waiting(next),
            None => self.refuse(Reply::Idle),
        }
    }

    // The least ready operation no longer waits: it is taken, or dropped.
    fn take_waiting(&mut self, next: &Waiting) -> Result<Done, Memory>
        requires built { IsBuilt Anything self.old.machine.site self.old.machine.size self.old.machine }
        requires least { next_ready self.old.machine.have self.old.machine.waiting ≡ Some next.now.op }
        requires stored { slice_get self.old.ops next.now.number ≡ Some next.now.op }
        ensures ok { IfOk result (λ done. IsStep (next_step self.old.machine) self.old self.new done) }
        ensures err { OnErr result (IsAsBefore self.old self.new) }
    {
        let dot = next.op.dot();
        let done = match self.misfit(&next.op) {
            Some(why) => self.refuse(Reply::Dropped { dot, why })?,
            None => {
                let number = next.number;
                self.absorb(&next.op, Origin::Waiting { number }, Reply::Taken { dot })?
            }
        };
        self.forget(dot);
        Ok(done)
    }

    // What becomes of the operation, in the order of judging.
    fn judge(&self, op: &Op) -> Judged
        requires { IsBuilt Anything self.now.machine.site self.now.machine.size self.now.machine }
        ensures { result ≡ judged op.now self.now.machine }
    {
        let dot = op.dot();
        if op.deps().size() != self.have.size() {
            return Judged::Refuse(Reply::Unfit { why: Why::Size });
        }
        if self.have.has(dot) || self.waits(dot) {
            return Judged::Refuse(Reply::Repeat);
        }
        if dot.site == self.site || op.deps().get(self.site) > self.made() {
            return Judged::Refuse(Reply::Unfit { why: Why::Own });
        }
        if !self.have.covers(op.deps()) {
            return Judged::Delay;
        }
        match self.misfit(op) {
            Some(why) => Judged::Refuse(Reply::Unfit { why }),
            None => Judged::Take,
        }
    }

    // Why a ready operation can't be taken.
    fn misfit(&self, op: &Op) -> Option<Why>
        ensures { result ≡ misfit op.now self.now.machine }
    {
        let dot = op.dot();
        match *op.body_ref() {
            Body::Insert { slot, .. } => self.slot_misfit(&slot),
            Body::Delete { target } => self.atom_misfit(target),
            Body::Propose { .. } => None,
            Body::Commit { proposal } => self.commit_misfit(dot, proposal),
            Body::Abort { proposal } => self.abort_misfit(dot, proposal),
        }
    }

    fn slot_misfit(&self, slot: &Slot) -> Option<Why>
        ensures { result ≡ (if is_rooted self.now.machine.doc slot.now then None else Some Atom) }
    {
        match slot.atom() {
            None => None,
            Some(id) => self.atom_misfit(id),
        }
    }

    fn atom_misfit(&self, id: AtomId) -> Option<Why>
        ensures { result ≡ (if is_row self.now.machine.doc id then None else Some Atom) }
    {
        if self.doc.is_row(id) {
            None
        } else {
            Some(Why::Atom)
        }
    }

    fn commit_misfit(&self, commit: Dot, proposal: Dot) -> Option<Why>
        ensures { result ≡ body_misfit commit.site (Commit proposal) self.now.machine }
    {
        if !self.is_undecided(commit.site, proposal) {
            return Some(Why::Proposal);
        }
        if self.holds.has(proposal) {
            None
        } else {
            Some(Why::Vote)
        }
    }

    fn abort_misfit(&self, abort: Dot, proposal: Dot) -> Option<Why>
        ensures { result ≡ body_misfit abort.site (Abort proposal) self.now.machine }
    {
        if self.is_undecided(abort.site, proposal) {
            None
        } else {
            Some(Why::Proposal)
        }
    }

    // Whether the proposal is an undecided one of the site.
    fn is_undecided(&self, site: Site, proposal: Dot) -> bool
        ensures { result ≡ is_undecided_of site proposal self.now.machine.log }
    {
        proposal.site == site
            && self.past.proposed_slot(proposal).is_some()
            && self.past.decision(proposal).is_none()
    }

    // The answer alone is given, and the operation is that of its number where it is stored.
    fn refuse_op(&mut self, op: &Op, reply: Reply) -> Result<Done, Memory>
        requires { self.old.machine.site ≤ self.old.machine.size }
        ensures ok { IfOk result (λ done. IsStep (stepped reply self.old.machine) self.old self.new done) }
        ensures number { IfOk result (λ done. IfSome done.number (λ k. slice_get self.new.ops k ≡ Some op.now)) }
        ensures same { IsAsBefore self.old self.new }
    {
        let done = self.refuse(reply)?;
        Ok(Done {
            number: self.number_of(op),
            ..done
        })
    }

    // The number by which this very operation is stored.
    fn number_of(&self, op: &Op) -> Option<u32>
        ensures { IfSome result (λ k. slice_get self.now.ops k ≡ Some op.now) }
    {
        let number = match self.past.find(op.dot()) {
            Some(number) => number,
            None => self.waiting.number_of(op.dot())?,
        };
        let stored = self.past.op(number)?;
        if same_op(&stored, op) {
            Some(number)
        } else {
            None
        }
    }

    // The operation waits until those come that it depends on.
    fn delay(&mut self, op: &Op) -> Result<Done, Memory>
        requires built { IsBuilt Anything self.old.machine.site self.old.machine.size self.old.machine }
        requires offered { IsOffered Anything self.old.machine.site self.old.machine.size op.now }
        requires judged { judged op.now self.old.machine ≡ Delay }
        ensures ok { IfOk result (λ done.
            IsStep (stepped Later (keep_waiting op.now self.old.machine)) self.old self.new done) }
        ensures number { IfOk result (λ done. IfSome done.number (λ k. slice_get self.new.ops k ≡ Some op.now)) }
        ensures err { OnErr result (IsAsBefore self.old self.new) }
    {
        self.reserve(self.site)?;
        let number = self.wait(op)?;
        Ok(Done {
            reply: Reply::Later,
            change: LastChange::Nothing,
            number: Some(number),
        })
    }

    // The operation is taken; a proposal is voted on.
    fn absorb(&mut self, op: &Op, origin: Origin, reply: Reply) -> Result<Done, Memory>
        requires built { IsBuilt Anything self.old.machine.site self.old.machine.size self.old.machine }
        requires fit { IsFit Anything self.old.machine op.now }
        requires comes { ComesFrom origin op.now self.old.machine.site self.old.ops }
        requires other { IsFromOutside origin }
        ensures ok { IfOk result (λ done.
            IsStep (stepped reply (take op.now self.old.machine)) self.old self.new done) }
        ensures number { IfOk result (λ done. IfSome done.number (λ k. slice_get self.new.ops k ≡ Some op.now)) }
        ensures waiting { IfOk result (λ done. self.new.waiting ≡ self.old.waiting) }
        ensures err { OnErr result (IsAsBefore self.old self.new) }
    {
        match *op.body_ref() {
            Body::Propose { slot } => self.absorb_proposal(op, &slot, origin, reply),
            Body::Insert { .. } | Body::Delete { .. } | Body::Commit { .. } | Body::Abort { .. } =>
                { self.absorb_change(op, origin, reply) }
        }
    }

    // An edit or a decision is taken.
    fn absorb_change(&mut self, op: &Op, origin: Origin, reply: Reply) -> Result<Done, Memory>
        requires built { IsBuilt Anything self.old.machine.site self.old.machine.size self.old.machine }
        requires fit { IsFit Anything self.old.machine op.now }
        requires comes { ComesFrom origin op.now self.old.machine.site self.old.ops }
        requires other { IsFromOutside origin }
        requires change { proposed op.now.body ≡ None }
        ensures ok { IfOk result (λ done.
            IsStep (stepped reply (take op.now self.old.machine)) self.old self.new done) }
        ensures number { IfOk result (λ done. IfSome done.number (λ k. slice_get self.new.ops k ≡ Some op.now)) }
        ensures waiting { IfOk result (λ done. self.new.waiting ≡ self.old.waiting) }
        ensures err { OnErr result (IsAsBefore self.old self.new) }
    {
        self.reserve(op.dot().site)?;
        let number = self.number_from(origin);
        let change = self.change_taken(op, number)?;
        self.note(op, origin);
        Ok(Done {
            reply,
            change,
            number: Some(number),
        })
    }

    // A proposal is taken and voted on, by what was known before it; a Yes holds the slot.
    fn absorb_proposal(
        &mut self,
        op: &Op,
        slot: &Slot,
        origin: Origin,
        reply: Reply,
    ) -> Result<Done, Memory>
        requires built { IsBuilt Anything self.old.machine.site self.old.machine.size self.old.machine }
        requires fit { IsFit Anything self.old.machine op.now }
        requires comes { ComesFrom origin op.now self.old.machine.site self.old.ops }
        requires other { IsFromOutside origin }
        requires asks { op.now.body ≡ Propose slot.now }
        ensures ok { IfOk result (λ done.
            IsStep (stepped reply (take op.now self.old.machine)) self.old self.new done) }
        ensures number { IfOk result (λ done. IfSome done.number (λ k. slice_get self.new.ops k ≡ Some op.now)) }
        ensures waiting { IfOk result (λ done. self.new.waiting ≡ self.old.waiting) }
        ensures err { OnErr result (IsAsBefore self.old self.new) }
    {
        self.reserve(op.dot().site)?;
        let number = self.number_from(origin);
        let says = self.vote_on(op, slot);
        self.note(op, origin);
        self.answer(op.dot(), slot, says);
        Ok(Done {
            reply,
            change: LastChange::Nothing,
            number: Some(number),
        })
    }

    // The number by which an operation is stored that comes from there.
    fn number_from(&self, origin: Origin) -> u32
        ensures { result ≡ number_from origin self.now.ops }
    {
        match origin {
            Origin::Waiting { number } => number,
            Origin::Here | Origin::There => self.past.kept(),
        }
    }

    // The vote on a proposal of the slot.
    fn vote_on(&self, op: &Op, slot: &Slot) -> bool
        requires built { IsBuilt Anything self.now.machine.site self.now.machine.size self.now.machine }
        requires sized { length op.now.deps ≡ self.now.machine.size }
        ensures { result ≡ vote_on op.now slot.now self.now.machine }
    {
        self.holds.judge(&self.doc, &self.have, *slot, op.deps())
    }

    // The vote is sent, and a Yes holds the slot.
    fn answer(&mut self, proposal: Dot, slot: &Slot, yes: bool)
        requires things { 1 ≤ self.old.room.things }
        requires hold { 1 ≤ self.old.room.holds }
        requires may { yes ≡ true → MayHold self.old.machine.doc slot.now self.old.machine.holds }
        ensures machine { self.new.machine ≡ answer proposal slot.now yes self.old.machine }
        ensures entries { self.new.entries ≡ self.old.entries }
        ensures ops { self.new.ops ≡ self.old.ops }
        ensures waiting { self.new.waiting ≡ self.old.waiting }
        ensures things { self.new.room.things + 1 ≡ self.old.room.things }
    {
        if yes {
            self.hold(proposal, slot);
        }
        self.send_vote(proposal, yes);
    }
}
