ghost use Rattle.std.specs.Prelude.{◌≡◌, ◌⊎◌, IfErr, IfOk};
ghost use Rattle.std.specs.Option.{SomeIff};
ghost use Rattle.td_base.specs.Value.{IsDot};
ghost use Rattle.td_doc.specs.Document.{live_atoms};
ghost use Rattle.td_path.specs.declared.slot.Slot.TheVariants.{Root};
ghost use Rattle.td_op.specs.declared.input.Input.TheVariants.{Local, Next};
ghost use Rattle.td_op.specs.declared.request.Request.TheVariants.{Delete, Propose, ProposeAt};
ghost use Rattle.td_replica.specs.Calls.{IsStepOf};
ghost use Rattle.td_session.specs.declared.fault.Fault.TheVariants.{Memory as OutOfMemory, Text};
ghost use Rattle.td_session.specs.Calls.{IsCall, IsCancel, IsInsert, IsOpened, IsPaste, IsReceived};
ghost use Rattle.td_session.specs.Calls.{IsFirstRun, IsSiteAmong, IsText, dot_of};

use crate::fault::Fault;
use crate::shown::{followed, rope_of};
use std::alloc::Global;
use std::marker::Model;
use td_base::{Atom, Bit, Dot, MAX_SITE, Memory, Run, Site};
use td_doc::Doc;
use td_op::{Input, Reply, Request};
use td_path::Slot;
use td_replica::Replica;
use td_rope::Rope;
use td_text::{CutFault, cut};
use td_tree::Tree;
use td_wire::decode;

/// A replica over the fast document, asked by bytes and numbers. Contracts see the replica.
#[derive(Drop)]
pub struct Session {
    pub(crate) alloc: Global,
    pub(crate) replica: Replica<Tree>,
    // of the atoms shown: none before it is asked for, nor after a step for which it found no memory
    pub(crate) rope: Option<Rope>,
}

impl Model for Session {
    ghost use Rattle.td_replica.specs.Replica.{ReplicaValue};

    ghost Value = { ReplicaValue };

    ghost view = { λ s. s.replica };

    ghost use Rattle.std.specs.Prelude.{◌≡◌, IfSome};
    ghost use Rattle.td_doc.specs.Document.{live_atoms};

    ghost invariant = { λ s. IfSome s.rope (λ rope. rope ≡ live_atoms s.replica.machine.doc) };
}

impl Session {
    /// The session of a site among so many, in which nothing was done yet.
    pub fn open(alloc: Global, site: u8, sites: u8) -> Result<Session, Fault>
        ensures { IsOpened site sites result }
    {
        let Some(own) = seat(site, sites) else {
            return Err(Fault::Site);
        };
        match Replica::new(alloc, own, sites) {
            Ok(replica) => Ok(Session::of(alloc, replica)),
            Err(Memory) => Err(Fault::Memory),
        }
    }

    /// The session of a replica.
    pub(crate) fn of(alloc: Global, replica: Replica<Tree>) -> Session
        ensures { result ≡ replica }
    {
        Session {
            alloc,
            replica,
            rope: None,
        }
    }

    // The rope of the atoms shown, which is made where there is none. Who takes it puts it back.
    pub(crate) fn take_rope(&mut self) -> Result<Rope, Fault>
        ensures same { self.new ≡ self.old }
        ensures atoms { IfOk result (λ rope. rope ≡ live_atoms self.old.machine.doc) }
        ensures err { IfErr result (λ fault. fault ≡ OutOfMemory) }
    {
        // tells that its document obeys the rules of one
        let _entries = self.replica.entries();
        match self.rope.take() {
            Some(rope) => Ok(rope),
            None => match rope_of(self.alloc, self.replica.doc()) {
                Ok(rope) => Ok(rope),
                Err(Memory) => Err(Fault::Memory),
            },
        }
    }

    // One step of the machine.
    fn step(&mut self, input: &Input) -> Result<Reply, Fault>
        ensures { IsCall input.now self.old result self.new }
    {
        match self.step_on(input) {
            Ok(reply) => Ok(reply),
            Err(Memory) => Err(Fault::Memory),
        }
    }

    // The same. The rope, if there is one, hears of the change.
    fn step_on(&mut self, input: &Input) -> Result<Reply, Memory>
        ensures { IsStepOf input.now self.old result self.new }
    {
        input.is_in_range();
        let _entries = self.replica.entries();
        let reply = self.replica.step_on(input)?;
        if let Some(rope) = self.rope.take() {
            self.rope = followed(rope, self.replica.last_change());
        }
        Ok(reply)
    }

    /// Puts an atom at an index, as far as the end. Replies Made, Position, Held or Limit.
    pub fn insert(&mut self, index: u32, text: &[u8]) -> Result<Reply, Fault>
        ensures { IsInsert index text.now self.old result self.new }
    {
        match Atom::new(text) {
            Ok(atom) => self.step(&Input::Local(Request::Insert { index, atom })),
            Err(_) => Err(Fault::Atom),
        }
    }

    /// Puts the first run of a text at an index, as far as the end: as many of its grapheme clusters as have up to
    /// `td_base::MAX_RUN_LEN` bytes together, an atom for each. What the change tells that it put is taken off the
    /// text, and the rest is pasted behind it. Replies Made, Position, Held or Limit.
    pub fn paste(&mut self, index: u32, text: &[u8]) -> Result<Reply, Fault>
        ensures { IsPaste index text.now self.old result self.new }
    {
        match first_run(self.alloc, text) {
            Ok(run) => self.step(&Input::Local(Request::Paste { index, run })),
            Err(fault) => Err(fault),
        }
    }

    /// Deletes the atom at an index. Replies Made, Position, Held or Limit.
    pub fn delete(&mut self, index: u32) -> Result<Reply, Fault>
        ensures { IsCall (Local (Delete index)) self.old result self.new }
    {
        self.step(&Input::Local(Request::Delete { index }))
    }

    /// Proposes to flatten the whole document. Replies Made, Held or Limit.
    pub fn flatten_root(&mut self) -> Result<Reply, Fault>
        ensures { IsCall (Local (Propose Root)) self.old result self.new }
    {
        self.step(&Input::Local(Request::Propose { slot: Slot::Root }))
    }

    /// Proposes to flatten what hangs on one side of the atom at an index. Replies Made, Position, Held or Limit.
    pub fn flatten_side(&mut self, index: u32, bit: Bit) -> Result<Reply, Fault>
        ensures { IsCall (Local (ProposeAt index bit)) self.old result self.new }
    {
        self.step(&Input::Local(Request::ProposeAt { index, bit }))
    }

    /// Gives up the own proposal that a site and a number name. Replies Cancelled or NotOpen.
    pub fn cancel(&mut self, site: u8, number: u32) -> Result<Reply, Fault>
        ensures { IsCancel site number self.old result self.new }
    {
        match dot(site, number) {
            Some(proposal) => self.step(&Input::Local(Request::Cancel { proposal })),
            None => Err(Fault::Dot),
        }
    }

    /// Takes a packet of another site. Replies New, Later, Repeat or Unfit.
    pub fn receive(&mut self, packet: &[u8]) -> Result<Reply, Fault>
        ensures { IsReceived packet.now self.old result self.new }
    {
        match decode(packet) {
            Ok(message) => self.step(&Input::Take(message)),
            Err(fault) => Err(Fault::Packet { at: fault.at }),
        }
    }

    /// Takes the least ready operation of those that wait. Replies Taken, Dropped or Idle.
    pub fn next(&mut self) -> Result<Reply, Fault>
        ensures { IsCall Next self.old result self.new }
    {
        self.step(&Input::Next)
    }
}

/// The site with this number, where there is one among so many.
pub(crate) fn seat(site: u8, sites: u8) -> Option<Site>
    ensures { SomeIff result (IsSiteAmong site sites) site }
{
    if site > sites || sites > MAX_SITE {
        return None;
    }
    Site::new(site)
}

// The dot with these numbers, where it is one.
fn dot(site: u8, number: u32) -> Option<Dot>
    ensures { SomeIff result (IsDot (dot_of site number)) (dot_of site number) }
{
    Dot::new(Site::new(site)?, number)
}

// The first run of the text.
fn first_run(alloc: Global, text: &[u8]) -> Result<Run, Fault>
    ensures ok { IfOk result (IsFirstRun text.now) }
    ensures err { IfErr result (λ fault. (fault ≡ OutOfMemory) ⊎ ((fault ≡ Text) × ¬ IsText text.now)) }
{
    let Ok(text) = str::from_utf8(text) else {
        return Err(Fault::Text);
    };
    match cut(alloc, text) {
        Ok(atoms) => atoms.into_atoms().next_run().ok_or(Fault::Text),
        Err(CutFault::Memory) => Err(Fault::Memory),
        Err(CutFault::Long { .. }) => Err(Fault::Text),
    }
}
