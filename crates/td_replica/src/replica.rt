ghost use Rattle.std.specs.Prelude.{◌≡◌, ◌≤◌, IfOk};
ghost use Rattle.td_base.specs.declared.site.TheConstants.{MAX_SITE};
ghost use Rattle.td_op.specs.declared.input.Input.TheVariants.{Local, Take, Next};
ghost use Rattle.td_op.specs.declared.request.Request.TheVariants.{Insert, InsertAfter, Paste, PasteAfter, Delete, DeleteAtom, Propose, ProposeAt, Cancel};
ghost use Rattle.td_replica.specs.Calls.{IsStepOf};
ghost use Rattle.td_replica.specs.Replica.{new_replica};

use crate::last_change::LastChange;
use crate::state::State;
use std::alloc::Global;
use std::marker::Model;
use td_base::{Atom, AtomId, Bit, Dot, Memory, Run, Site};
use td_doc::Doc;
use td_op::{Change, Input, Message, Reply, Request};
use td_path::Slot;

/// A replica of one site of a Treedoc buffer (Preguiça et al. 2009), seen as its machine with the history that led to
/// it. Each call that changes it is one step of the machine; after `Memory` it is as before, and its history has no
/// new entry.
#[derive(Drop)]
pub struct Replica<D: Doc> {
    pub(crate) state: State<D>,
    // what the last step did to the list of live atoms
    last: LastChange,
}

impl<D: Doc> Model for Replica<D> {
    ghost use Rattle.td_replica.specs.Replica.{ReplicaValue, IsReplica};
    ghost use Rattle.td_replica.specs.LastChange.{replica_of};

    ghost Value = { ReplicaValue };

    ghost view = { λ r. replica_of r.state r.last };

    ghost invariant = { λ r. IsReplica (replica_of r.state r.last) };
}

impl<D: Doc> Replica<D> {
    /// The replica of a site among n, which has done nothing.
    pub fn new(alloc: Global, site: Site, n: u8) -> Result<Replica<D>, Memory>
        requires small { n ≤ MAX_SITE }
        requires within { site ≤ n }
        ensures { IfOk result (λ r. r ≡ new_replica site n) }
    {
        Ok(Replica {
            state: State::new(alloc, site, n)?,
            last: LastChange::Nothing,
        })
    }

    /// One step of the machine. The input and the reply are the last entry of the history then.
    pub fn step(&mut self, input: Input) -> Result<Reply, Memory>
        ensures { IsStepOf input self.old result self.new }
    {
        self.step_on(&input)
    }

    /// The same, of an input that is lent: one has some hundreds of bytes.
    pub fn step_on(&mut self, input: &Input) -> Result<Reply, Memory>
        ensures { IsStepOf input.now self.old result self.new }
    {
        input.is_in_range();
        let done = self.state.answer_input(input)?;
        self.state.enter(input, &done.reply, done.number);
        self.last = done.change;
        Ok(done.reply)
    }

    /// What the last step did to the list of live atoms; None where it did nothing to it, and where there was no step.
    pub fn last_change(&self) -> Option<Change>
        ensures { result ≡ self.now.change }
    {
        self.state.change_of(&self.last)
    }

    /// Puts the atom at the index, as far as the end. Replies Made, Position, Held or Limit.
    pub fn insert(&mut self, index: u32, atom: Atom) -> Result<Reply, Memory>
        ensures { IsStepOf (Local (Insert index atom)) self.old result self.new }
    {
        self.request(Request::Insert { index, atom })
    }

    /// Puts the atom right after the live one, or at the start. Replies Made, Gone, Held or Limit.
    pub fn insert_after(&mut self, after: Option<AtomId>, atom: Atom) -> Result<Reply, Memory>
        ensures { IsStepOf (Local (InsertAfter after atom)) self.old result self.new }
    {
        self.request(Request::InsertAfter { after, atom })
    }

    /// Puts the atoms of the run at the index, as far as the end. Replies Made, Position, Held or Limit.
    pub fn paste(&mut self, index: u32, run: Run) -> Result<Reply, Memory>
        ensures { IsStepOf (Local (Paste index run)) self.old result self.new }
    {
        self.request(Request::Paste { index, run })
    }

    /// Puts the atoms of the run right after the live one, or at the start. Replies Made, Gone, Held or Limit.
    pub fn paste_after(&mut self, after: Option<AtomId>, run: Run) -> Result<Reply, Memory>
        ensures { IsStepOf (Local (PasteAfter after run)) self.old result self.new }
    {
        self.request(Request::PasteAfter { after, run })
    }

    /// Deletes the live atom at the index. Replies Made, Position, Held or Limit.
    pub fn delete(&mut self, index: u32) -> Result<Reply, Memory>
        ensures { IsStepOf (Local (Delete index)) self.old result self.new }
    {
        self.request(Request::Delete { index })
    }

    /// Deletes the live atom. Replies Made, Gone, Held or Limit.
    pub fn delete_atom(&mut self, id: AtomId) -> Result<Reply, Memory>
        ensures { IsStepOf (Local (DeleteAtom id)) self.old result self.new }
    {
        self.request(Request::DeleteAtom { id })
    }

    /// Proposes to flatten the slot. Replies Made, Gone, Held or Limit.
    pub fn propose(&mut self, slot: Slot) -> Result<Reply, Memory>
        ensures { IsStepOf (Local (Propose slot)) self.old result self.new }
    {
        self.request(Request::Propose { slot })
    }

    /// Proposes to flatten the slot on this side of the live atom at the index. Replies Made, Position, Held or Limit.
    pub fn propose_at(&mut self, index: u32, bit: Bit) -> Result<Reply, Memory>
        ensures { IsStepOf (Local (ProposeAt index bit)) self.old result self.new }
    {
        self.request(Request::ProposeAt { index, bit })
    }

    /// Gives up an own proposal. Replies Cancelled or NotOpen.
    pub fn cancel(&mut self, proposal: Dot) -> Result<Reply, Memory>
        ensures { IsStepOf (Local (Cancel proposal)) self.old result self.new }
    {
        self.request(Request::Cancel { proposal })
    }

    fn request(&mut self, request: Request) -> Result<Reply, Memory>
        ensures { IsStepOf (Local request) self.old result self.new }
    {
        self.step(Input::Local(request))
    }

    /// Takes a message of another site. Replies New, Later, Repeat or Unfit.
    pub fn take(&mut self, message: Message) -> Result<Reply, Memory>
        ensures { IsStepOf (Take message) self.old result self.new }
    {
        self.step(Input::Take(message))
    }

    /// Takes the least ready operation of those that wait. Replies Taken, Dropped or Idle.
    pub fn next(&mut self) -> Result<Reply, Memory>
        ensures { IsStepOf Next self.old result self.new }
    {
        self.step(Input::Next)
    }
}
