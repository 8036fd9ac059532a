// What a replica makes: edits, proposals and decisions.
ghost use Rattle.std.specs.Prelude.{◌≡◌, ◌≢◌, ◌<◌, ◌≤◌, Some, None, true, false, IfOk, OnErr, IfSome, IsTrue};
ghost use Rattle.td_op.specs.declared.body.Body.TheVariants.{Commit, Abort, Delete as DeleteOf, Insert as InsertOf};
ghost use Rattle.td_op.specs.declared.input.Input.TheVariants.{Local};
ghost use Rattle.td_op.specs.declared.reply.Reply.TheVariants.{Made, Cancelled, New};
ghost use Rattle.td_op.specs.Input.{IsRequest};
ghost use Rattle.td_machine.specs.Decision.{Ballot};
ghost use Rattle.td_machine.specs.Machine.{next_dot};
ghost use Rattle.td_machine.specs.Making.{make, propose, decide};
ghost use Rattle.td_machine.specs.Request.{request_step};
ghost use Rattle.td_machine.specs.Step.{IsRefusal};
ghost use Rattle.td_machine.specs.Taking.{stepped, vote_step};
ghost use Rattle.td_machine.specs.Parts.{Anything, IsBuilt, MayMake, IsProposing, IsOpenAt, IsCounting};
ghost use Rattle.td_history.specs.Past.{IsDoneAs};
ghost use Rattle.td_history.specs.Texts.{run_of, run_at};
ghost use Rattle.td_replica.specs.declared.requests.Verdict.TheVariants.{Put};
ghost use Rattle.td_replica.specs.Parts.{IsAsBefore};
ghost use Rattle.td_replica.specs.Steps.{IsStep, IsEdit, IsDue};
ghost use Rattle.td_replica.specs.Verdict.{verdict};

use crate::done::Done;
use crate::last_change::LastChange;
use crate::requests::{Verdict, run_in};
use crate::state::{Origin, State};
use td_base::{AtomId, Dot, Memory, Run};
use td_doc::Doc;
use td_op::{Body, Reply, Request, Vote};
use td_path::Slot;

impl<D: Doc> State<D> {
    // Nothing is done but the answer given.
    pub(crate) fn refuse(&mut self, reply: Reply) -> Result<Done, Memory>
        requires { self.old.machine.site ≤ self.old.machine.size }
        ensures ok { IfOk result (λ done. IsStep (stepped reply self.old.machine) self.old self.new done) }
        ensures number { IfOk result (λ done. done.number ≡ None) }
        ensures same { IsAsBefore self.old self.new }
    {
        self.reserve(self.site)?;
        Ok(Done {
            reply,
            change: LastChange::Nothing,
            number: None,
        })
    }

    // An edit is made.
    fn make(&mut self, body: &Body) -> Result<Done, Memory>
        requires built { IsBuilt Anything self.old.machine.site self.old.machine.size self.old.machine }
        requires edit { IsEdit body.now }
        requires may { MayMake body.now self.old.machine }
        ensures ok { IfOk result (λ done.
            IsStep (stepped (Made (next_dot self.old.machine)) (make body.now self.old.machine))
            self.old self.new done) }
        ensures number { IfOk result (λ done.
            IfSome done.number (λ k. run_at self.new.ops k ≡ run_of body.now)) }
        ensures err { OnErr result (IsAsBefore self.old self.new) }
    {
        self.reserve(self.site)?;
        let op = self.next_op(body);
        let number = self.past.kept();
        let change = self.change_document(&op, number)?;
        self.note(&op, Origin::Here);
        Ok(Done {
            reply: Reply::Made { dot: op.dot() },
            change,
            number: Some(number),
        })
    }

    // The run of a request is put in a slot. Each body has a call of its own, so that it is cleared only where it is
    // made.
    fn make_insertion(&mut self, slot: Slot, request: &Request) -> Result<Done, Memory>
        requires built { IsBuilt Anything self.old.machine.site self.old.machine.size self.old.machine }
        requires valid { IsRequest request.now }
        requires asked { verdict request.now self.old.machine ≡ Put slot }
        ensures ok { IfOk result (λ done. IsStep (request_step request.now self.old.machine) self.old self.new done) }
        ensures number { IfOk result (λ done. IfSome done.number (IsDoneAs self.new.ops (Local request.now))) }
        ensures err { OnErr result (IsAsBefore self.old self.new) }
    {
        self.put(&slot, &run_in(request))
    }

    // A run is put in a slot: as `make` does it, but by the parts of the insertion, as an operation has some 240 bytes.
    fn put(&mut self, slot: &Slot, run: &Run) -> Result<Done, Memory>
        requires built { IsBuilt Anything self.old.machine.site self.old.machine.size self.old.machine }
        requires may { MayMake (InsertOf slot.now run.now) self.old.machine }
        ensures ok { IfOk result (λ done.
            IsStep (stepped (Made (next_dot self.old.machine)) (make (InsertOf slot.now run.now) self.old.machine))
            self.old self.new done) }
        ensures number { IfOk result (λ done. IfSome done.number (λ k. run_at self.new.ops k ≡ Some run.now)) }
        ensures err { OnErr result (IsAsBefore self.old self.new) }
    {
        self.reserve(self.site)?;
        let number = self.past.kept();
        let dot = self.next_dot();
        self.put_run(slot, dot, run)?;
        self.note_insertion(slot, dot, run);
        Ok(Done {
            reply: Reply::Made { dot },
            change: LastChange::Put { number },
            number: Some(number),
        })
    }

    // A row is deleted.
    fn make_deletion(&mut self, target: AtomId) -> Result<Done, Memory>
        requires built { IsBuilt Anything self.old.machine.site self.old.machine.size self.old.machine }
        requires may { MayMake (DeleteOf target) self.old.machine }
        ensures ok { IfOk result (λ done.
            IsStep (stepped (Made (next_dot self.old.machine)) (make (DeleteOf target) self.old.machine))
            self.old self.new done) }
        ensures number { IfOk result (λ done. IfSome done.number (λ k. run_at self.new.ops k ≡ None)) }
        ensures err { OnErr result (IsAsBefore self.old self.new) }
    {
        self.make(&Body::Delete { target })
    }

    // A slot is proposed.
    fn make_proposal(&mut self, slot: &Slot) -> Result<Done, Memory>
        requires built { IsBuilt Anything self.old.machine.site self.old.machine.size self.old.machine }
        requires may { IsProposing slot.now self.old.machine }
        ensures ok { IfOk result (λ done.
            IsStep (stepped (Made (next_dot self.old.machine)) (propose slot.now self.old.machine))
            self.old self.new done) }
        ensures number { IfOk result (λ done. done.number ≡ None) }
        ensures err { OnErr result (IsAsBefore self.old self.new) }
    {
        if self.have.size() == 1 {
            self.propose_alone(slot)
        } else {
            self.propose_among(slot)
        }
    }

    // Among several sites: the proposal is held, and its own Yes counted.
    fn propose_among(&mut self, slot: &Slot) -> Result<Done, Memory>
        requires built { IsBuilt Anything self.old.machine.site self.old.machine.size self.old.machine }
        requires may { IsProposing slot.now self.old.machine }
        requires several { self.old.machine.size ≢ 1 }
        ensures ok { IfOk result (λ done.
            IsStep (stepped (Made (next_dot self.old.machine)) (propose slot.now self.old.machine))
            self.old self.new done) }
        ensures number { IfOk result (λ done. done.number ≡ None) }
        ensures err { OnErr result (IsAsBefore self.old self.new) }
    {
        self.reserve(self.site)?;
        let op = self.next_op(&Body::Propose { slot: *slot });
        self.note(&op, Origin::Here);
        self.hold(op.dot(), slot);
        self.open(op.dot());
        Ok(Done {
            reply: Reply::Made { dot: op.dot() },
            change: LastChange::Nothing,
            number: None,
        })
    }

    // At the only site its own Yes decides it at once, and it is never held. The document is flattened first, since
    // that alone can still find no memory.
    fn propose_alone(&mut self, slot: &Slot) -> Result<Done, Memory>
        requires built { IsBuilt Anything self.old.machine.site self.old.machine.size self.old.machine }
        requires may { IsProposing slot.now self.old.machine }
        requires alone { self.old.machine.size ≡ 1 }
        ensures ok { IfOk result (λ done.
            IsStep (stepped (Made (next_dot self.old.machine)) (propose slot.now self.old.machine))
            self.old self.new done) }
        ensures number { IfOk result (λ done. done.number ≡ None) }
        ensures err { OnErr result (IsAsBefore self.old self.new) }
    {
        self.reserve(self.site)?;
        let op = self.next_op(&Body::Propose { slot: *slot });
        let proposal = op.dot();
        self.flatten(slot)?;
        self.note(&op, Origin::Here);
        self.open(proposal);
        let commit = self.next_op(&Body::Commit { proposal });
        self.note(&commit, Origin::Here);
        Ok(Done {
            reply: Reply::Made { dot: proposal },
            change: LastChange::Nothing,
            number: None,
        })
    }

    // An own proposal is given up.
    fn make_abort(&mut self, proposal: Dot) -> Result<Done, Memory>
        requires built { IsBuilt Anything self.old.machine.site self.old.machine.size self.old.machine }
        requires may { IsOpenAt proposal self.old.machine }
        ensures ok { IfOk result (λ done. IsStep (stepped Cancelled (decide proposal (Some false) self.old.machine))
            self.old self.new done) }
        ensures number { IfOk result (λ done. done.number ≡ None) }
        ensures err { OnErr result (IsAsBefore self.old self.new) }
    {
        self.reserve(self.site)?;
        let op = self.next_op(&Body::Abort { proposal });
        self.close(proposal);
        self.note(&op, Origin::Here);
        Ok(Done {
            reply: Reply::Cancelled,
            change: LastChange::Nothing,
            number: None,
        })
    }

    // The vote is counted, and the decision that it brings is made.
    pub(crate) fn make_decision(&mut self, vote: &Vote, body: &Body) -> Result<Done, Memory>
        requires built { IsBuilt Anything self.old.machine.site self.old.machine.size self.old.machine }
        requires may { IsCounting Anything vote.now self.old.machine }
        requires due { IsDue vote.now body.now self.old.machine }
        ensures ok { IfOk result (λ done. IsStep (vote_step vote.now self.old.machine) self.old self.new done) }
        ensures err { OnErr result (IsAsBefore self.old self.new) }
    {
        self.reserve(self.site)?;
        let op = self.next_op(body);
        let number = self.past.kept();
        let change = self.change_document(&op, number)?;
        self.count(vote);
        self.note(&op, Origin::Here);
        Ok(Done {
            reply: Reply::New,
            change,
            number: None,
        })
    }

    /// Does what the request asks, or answers why not.
    pub(crate) fn request(&mut self, request: &Request) -> Result<Done, Memory>
        requires built { IsBuilt Anything self.old.machine.site self.old.machine.size self.old.machine }
        requires valid { IsRequest request.now }
        ensures ok { IfOk result (λ done. IsStep (request_step request.now self.old.machine) self.old self.new done) }
        ensures number { IfOk result (λ done. IfSome done.number (IsDoneAs self.new.ops (Local request.now))) }
        ensures err { OnErr result (IsAsBefore self.old self.new) }
    {
        match self.verdict(request) {
            Verdict::Answer(reply) => self.refuse(reply),
            Verdict::Put(slot) => self.make_insertion(slot, request),
            Verdict::Delete(target) => self.make_deletion(target),
            Verdict::Propose(slot) => self.make_proposal(&slot),
            Verdict::Cancel(proposal) => self.make_abort(proposal),
        }
    }
}
