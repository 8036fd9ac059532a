// The parts of a replica, and what an operation does to them.
ghost use Rattle.std.specs.Prelude.{◌≡◌, ◌<◌, ◌≤◌, ◌+◌, ◌++◌, ◌∷◌, List, [], length, slice_get, Some, None, IfOk, OnOk, OnErr, IfSome, IsNone, IsSome, IsTrue, find, option_map, is_some, ◌-◌, false, if◌then◌else◌};
ghost use Rattle.td_base.specs.declared.site.TheConstants.{MAX_SITE};
ghost use Rattle.td_base.specs.declared.dot.TheConstants.{MAX_SEQ};
ghost use Rattle.td_op.specs.Op.{OpValue, body_site};
ghost use Rattle.td_doc.specs.Answers.{IsFresh, is_live_id, live_before};
ghost use Rattle.td_doc.specs.Document.{DocRow, IsDocument, live_id_at};
ghost use Rattle.td_doc.specs.Deletion.{delete};
ghost use Rattle.td_doc.specs.Insertion.{insert_run};
ghost use Rattle.td_path.specs.Slot.{slot_site};
ghost use Rattle.td_store.specs.Inserting.{inserting};
ghost use Rattle.td_replica.specs.declared.state.Origin.TheVariants.{Here};
ghost use Rattle.td_op.specs.declared.body.Body.TheVariants.{Delete, Insert};
ghost use Rattle.td_machine.specs.Counts.{IsNext};
ghost use Rattle.td_machine.specs.Log.{committed};
ghost use Rattle.td_machine.specs.Machine.{Machine, made, next_dot, next_op, start};
ghost use Rattle.td_machine.specs.Making.{effect};
ghost use Rattle.td_machine.specs.Shown.{change_by, put_at_index};
ghost use Rattle.td_machine.specs.Making.{holds_after};
ghost use Rattle.td_machine.specs.Making.{hold, send};
ghost use Rattle.td_machine.specs.Ready.{waits, without, next_ready};
ghost use Rattle.td_machine.specs.Decision.{is_on, revise, close};
ghost use Rattle.td_coord.specs.Tally.{put_ballot, started, voted, is_open_found};
ghost use Rattle.td_causal.specs.Offering.{offer_answer};
ghost use Rattle.td_causal.specs.declared.offer.Offer.TheVariants.{Later};
ghost use Rattle.td_causal.specs.declared.waiting.Waiting.{Waiting as WaitingOp};
ghost use Rattle.td_causal.specs.Waiting.{others_than};
ghost use Rattle.td_op.specs.declared.message.Message.TheVariants.{Vote as AVote};
ghost use Rattle.td_doc.specs.Flatten.{flatten};
ghost use Rattle.std.specs.Option.{ForSome};
ghost use Rattle.td_history.specs.Past.{IsUndecided, IsNextIn, decided_by};
ghost use Rattle.td_replica.specs.LastChange.{change_of};
ghost use Rattle.td_replica.specs.Parts.{StateValue, AreKept, KeepsSlots, MayHold, IsAsBefore, HasRoomFor, ComesFrom};
ghost use Rattle.td_replica.specs.Parts.{with_effect, with_note, with_machine, with_ballots, waiting_too, ops_with};
ghost use Rattle.td_replica.specs.Parts.{commits_after, logged};

use crate::last_change::LastChange;
use std::alloc::Global;
use std::marker::Model;
use td_base::{AtomId, Dot, Memory, Run, Site};
use td_causal::{Buffer, Waiting};
use td_clock::Vector;
use td_coord::Tally;
use td_doc::{Doc, DocFault};
use td_history::History;
use td_op::{Body, Op, Vote};
use td_path::Slot;
use td_vote::Holds;

/// The parts of a replica: one for each part of its machine.
#[derive(Drop)]
pub struct State<D: Doc> {
    pub(crate) site: Site,
    pub(crate) doc: D,
    // how many operations of each site were made or taken
    pub(crate) have: Vector,
    pub(crate) waiting: Buffer,
    pub(crate) holds: Holds,
    pub(crate) tally: Tally,
    // the log, what was sent, and the entries
    pub(crate) past: History,
}

impl<D: Doc> Model for State<D> {
    ghost use Rattle.td_replica.specs.Parts.{StateValue, IsState, state_of};

    ghost Value = { StateValue };

    ghost view = { λ s. state_of s.site (D.rows s.doc) s.have s.waiting s.holds s.tally s.past };

    ghost invariant = { λ s. IsState s.site (D.rows s.doc) s.have s.waiting s.holds s.tally s.past };
}

/// Whence an operation comes that is made or taken.
#[derive(Clone, Copy, Debug, PartialEq, Eq)]
pub enum Origin {
    /// It is made here.
    Here,
    /// Another site sent it.
    There,
    /// It waited, stored by this number.
    Waiting { number: u32 },
}

impl<D: Doc> State<D> {
    pub(crate) fn new(alloc: Global, site: Site, n: u8) -> Result<State<D>, Memory>
        requires small { n ≤ MAX_SITE }
        requires within { site ≤ n }
        ensures { IfOk result (λ s. (s.machine ≡ start site n) × (s.entries ≡ [])) }
    {
        Ok(State {
            site,
            doc: D::empty(alloc)?,
            have: Vector::new(n),
            waiting: Buffer::new(alloc),
            holds: Holds::new(alloc),
            tally: Tally::new(alloc, n, site),
            past: History::new(alloc, site, n)?,
        })
    }

    pub(crate) fn made(&self) -> u32
        ensures made { result ≡ made self.now.machine }
        ensures small { result ≤ MAX_SEQ }
    {
        self.have.get(self.site)
    }

    // Makes room for all that one step may note, of operations of the site.
    pub(crate) fn reserve(&mut self, of: Site) -> Result<(), Memory>
        requires { of ≤ self.old.machine.size }
        ensures same { IsAsBefore self.old self.new }
        ensures ok { OnOk result (HasRoomFor of self.new.room) }
    {
        self.past.reserve(of)?;
        self.holds.reserve()?;
        self.tally.reserve()
    }

    // The next operation of this site, with this body.
    pub(crate) fn next_op(&self, body: &Body) -> Op
        requires room { made self.now.machine < MAX_SEQ }
        requires named { IfSome (body_site body.now) (λ site. site ≤ self.now.machine.size) }
        ensures { result ≡ next_op self.now.machine body.now }
    {
        Op::of(self.next_dot(), &self.have, body)
    }

    // Its dot.
    pub(crate) fn next_dot(&self) -> Dot
        requires { made self.now.machine < MAX_SEQ }
        ensures { result ≡ next_dot self.now.machine }
    {
        Dot::new(self.site, self.made() + 1).unwrap()
    }

    // Does to the document what the operation does to it, and tells what that does to the atoms shown, where the
    // operation is the one of this number then. Where it finds no memory, the document is as before.
    pub(crate) fn change_document(&mut self, op: &Op, number: u32) -> Result<LastChange, Memory>
        requires fresh { IsFresh self.old.machine.doc op.now.dot }
        requires keeps { KeepsSlots self.old.machine.doc
            (effect self.old.machine.log op.now.dot op.now.body self.old.machine.doc) self.old.machine.holds }
        ensures ok { OnOk result (self.new ≡ record self.old { machine = with_effect op.now self.old.machine }) }
        ensures change { IfOk result (λ last. (ops : List OpValue) → slice_get ops number ≡ Some op.now
            → change_of last ops self.new.machine.doc ≡ change_by op.now.dot op.now.body self.old.machine.doc) }
        ensures err { OnErr result (self.new ≡ self.old) }
    {
        apply(&mut self.doc, &self.past, op, number)
    }

    // The same of an operation that is taken. Most put a run: that is looked for first.
    pub(crate) fn change_taken(&mut self, op: &Op, number: u32) -> Result<LastChange, Memory>
        requires fresh { IsFresh self.old.machine.doc op.now.dot }
        requires keeps { KeepsSlots self.old.machine.doc
            (effect self.old.machine.log op.now.dot op.now.body self.old.machine.doc) self.old.machine.holds }
        ensures ok { OnOk result (self.new ≡ record self.old { machine = with_effect op.now self.old.machine }) }
        ensures change { IfOk result (λ last. (ops : List OpValue) → slice_get ops number ≡ Some op.now
            → change_of last ops self.new.machine.doc ≡ change_by op.now.dot op.now.body self.old.machine.doc) }
        ensures err { OnErr result (self.new ≡ self.old) }
    {
        match op.body_ref() {
            Body::Insert { slot, run } => self.put_inserted(op, slot, run, number),
            _ => self.change_document(op, number),
        }
    }

    // The same of an insertion.
    fn put_inserted(
        &mut self,
        op: &Op,
        slot: &Slot,
        run: &Run,
        number: u32,
    ) -> Result<LastChange, Memory>
        requires inserts { op.now.body ≡ Insert slot.now run.now }
        requires fresh { IsFresh self.old.machine.doc op.now.dot }
        requires keeps { KeepsSlots self.old.machine.doc
            (effect self.old.machine.log op.now.dot op.now.body self.old.machine.doc) self.old.machine.holds }
        ensures ok { OnOk result (self.new ≡ record self.old { machine = with_effect op.now self.old.machine }) }
        ensures change { IfOk result (λ last. (ops : List OpValue) → slice_get ops number ≡ Some op.now
            → change_of last ops self.new.machine.doc ≡ change_by op.now.dot op.now.body self.old.machine.doc) }
        ensures err { OnErr result (self.new ≡ self.old) }
    {
        self.put_run(slot, op.dot(), run)?;
        Ok(LastChange::Put { number })
    }

    // Puts the run in a slot of the document, as an insert with this dot does.
    pub(crate) fn put_run(&mut self, slot: &Slot, dot: Dot, run: &Run) -> Result<(), Memory>
        requires fresh { IsFresh self.old.machine.doc dot }
        requires keeps { KeepsSlots self.old.machine.doc (insert_run slot.now dot run.now self.old.machine.doc)
            self.old.machine.holds }
        ensures ok { OnOk result (self.new ≡ with_machine
            (record self.old.machine { doc = insert_run slot.now dot run.now self.old.machine.doc }) self.old) }
        ensures err { OnErr result (self.new ≡ self.old) }
    {
        self.doc.insert_run(*slot, dot, *run).map_err(memory)
    }

    // Notes an operation that is made or taken: all that it does but to the document and to the ballots.
    pub(crate) fn note(&mut self, op: &Op, origin: Origin)
        requires next { IsNext self.old.machine.have op.now }
        requires decides { IfSome (decided_by op.now.body) (IsUndecided self.old.machine.log) }
        requires comes { ComesFrom origin op.now self.old.machine.site self.old.ops }
        requires things { 1 ≤ self.old.room.things }
        requires site { self.old.room.site ≡ op.now.dot.site }
        requires commit { 1 ≤ self.old.room.commits }
        ensures machine { self.new.machine ≡ with_note origin op.now self.old.machine }
        ensures entries { self.new.entries ≡ self.old.entries }
        ensures ops { self.new.ops ≡ ops_with origin op.now self.old.ops }
        ensures waiting { self.new.waiting ≡ self.old.waiting }
        ensures things { self.new.room.things + 1 ≡ self.old.room.things }
        ensures site { self.new.room.site ≡ self.old.room.site }
        ensures holds { self.old.room.holds ≤ self.new.room.holds }
        ensures commits { self.old.room.commits ≤ self.new.room.commits + 1 }
        ensures same_commits { IsNone (committed op.now.body) → self.old.room.commits ≤ self.new.room.commits }
        ensures ballots { self.new.room.ballots ≡ self.old.room.ballots }
    {
        end_hold(&mut self.holds, &self.past, op);
        self.have.bump(op.dot().site);
        log(&mut self.past, op, origin);
    }

    // Notes an insertion that is made here, by its parts, in the same way.
    pub(crate) fn note_insertion(&mut self, slot: &Slot, dot: Dot, run: &Run)
        requires next { IsNext self.old.machine.have (inserting dot self.old.machine.have slot.now run.now) }
        requires named { IfSome (slot_site slot.now) (λ site. site ≤ self.old.machine.size) }
        requires own { dot.site ≡ self.old.machine.site }
        requires things { 1 ≤ self.old.room.things }
        requires site { self.old.room.site ≡ dot.site }
        ensures machine { self.new.machine
            ≡ with_note Here (inserting dot self.old.machine.have slot.now run.now) self.old.machine }
        ensures entries { self.new.entries ≡ self.old.entries }
        ensures ops { self.new.ops ≡ self.old.ops ++ inserting dot self.old.machine.have slot.now run.now ∷ [] }
        ensures things { self.new.room.things + 1 ≡ self.old.room.things }
    {
        self.past.make_insertion(dot, &self.have, slot, run);
        self.have.bump(dot.site);
    }

    // Flattens the slot of the document.
    pub(crate) fn flatten(&mut self, slot: &Slot) -> Result<(), Memory>
        requires { KeepsSlots self.old.machine.doc (flatten slot.now self.old.machine.doc) self.old.machine.holds }
        ensures ok { OnOk result (self.new ≡ with_machine
            (record self.old.machine { doc = flatten slot.now self.old.machine.doc }) self.old) }
        ensures err { OnErr result (self.new ≡ self.old) }
    {
        self.doc.flatten(*slot).map_err(memory)
    }

    // Holds the slot for the proposal.
    pub(crate) fn hold(&mut self, proposal: Dot, slot: &Slot)
        requires place { 1 ≤ self.old.room.holds }
        requires may { MayHold self.old.machine.doc slot.now self.old.machine.holds }
        ensures { self.new ≡ record self.old {
          machine = hold proposal slot.now self.old.machine;
          room = record self.old.room { holds = self.new.room.holds };
        } }
    {
        self.holds.hold(&self.doc, proposal, *slot).unwrap();
    }

    // Opens the ballot on an own proposal.
    pub(crate) fn open(&mut self, proposal: Dot)
        requires new { IsNone (find (is_on proposal) self.old.machine.ballots) }
        requires room { 1 ≤ self.old.room.ballots }
        ensures { self.new ≡ record self.old {
          machine = with_ballots
              (put_ballot (started self.old.machine.size self.old.machine.site proposal) self.old.machine.ballots)
              self.old.machine;
          room = record self.old.room { ballots = self.new.room.ballots };
        } }
    {
        self.tally.start(proposal).unwrap();
    }

    // Counts the vote on an own proposal.
    pub(crate) fn count(&mut self, vote: &Vote)
        requires started { IsSome (find (is_on vote.now.proposal) self.old.machine.ballots) }
        requires voter { vote.now.voter ≤ self.old.machine.size }
        ensures { ForSome (find (is_on vote.now.proposal) self.old.machine.ballots) (λ b. self.new ≡ with_machine
            (with_ballots (voted self.old.machine.size vote.now b self.old.machine.ballots) self.old.machine)
            self.old) }
    {
        self.tally.count(*vote);
    }

    // Closes the ballot on an own open proposal, as an abort.
    pub(crate) fn close(&mut self, proposal: Dot)
        requires { IsTrue (is_open_found (find (is_on proposal) self.old.machine.ballots)) }
        ensures { self.new ≡ with_machine
            (with_ballots (revise proposal (close false) self.old.machine.ballots) self.old.machine) self.old }
    {
        self.tally.cancel(proposal);
    }

    // Sends the vote on another site's proposal.
    pub(crate) fn send_vote(&mut self, proposal: Dot, yes: bool)
        requires { 1 ≤ self.old.room.things }
        ensures { self.new ≡ record self.old {
          machine = send (AVote (record { proposal = proposal; voter = self.old.machine.site; yes = yes }))
              self.old.machine;
          room = record self.old.room { things = self.old.room.things - 1 };
        } }
    {
        self.past.vote(proposal, yes);
    }

    // Whether an operation with the dot waits.
    pub(crate) fn waits(&self, dot: Dot) -> bool
        ensures { result ≡ waits dot self.now.machine.waiting }
    {
        self.waiting.waits(dot)
    }

    // How many operations wait.
    pub(crate) fn count_waiting(&self) -> u32
        ensures { result ≡ length self.now.machine.waiting }
    {
        self.waiting.len()
    }

    // The least ready operation of those that wait, with the number by which it is stored.
    pub(crate) fn next_waiting(&self) -> Option<Waiting>
        ensures least { option_map (λ (w : WaitingOp). w.op) result
            ≡ next_ready self.now.machine.have self.now.machine.waiting }
        ensures stored { IfSome result (λ w. slice_get self.now.ops w.number ≡ Some w.op) }
    {
        self.waiting.next_ready(&self.have, self.past.ops())
    }

    // Whether one of those that wait is ready.
    pub(crate) fn has_ready(&self) -> bool
        ensures { result ≡ is_some (next_ready self.now.machine.have self.now.machine.waiting) }
    {
        self.waiting.has_ready(&self.have, self.past.ops())
    }

    // The operation waits until those come that it depends on. Its number is answered.
    pub(crate) fn wait(&mut self, op: &Op) -> Result<u32, Memory>
        requires sized { length op.now.deps ≡ self.old.machine.size }
        requires late { offer_answer self.old.machine.have op.now (waits op.now.dot self.old.machine.waiting) ≡ Later }
        requires room { 1 ≤ self.old.room.things }
        ensures ok { IfOk result (λ number. self.new ≡ waiting_too op.now number self.old) }
        ensures number { IfOk result (λ number. number ≡ length self.old.ops) }
        ensures err { OnErr result (self.new ≡ self.old) }
    {
        let number = self.past.kept();
        self.waiting.offer(&self.have, op, number)?;
        self.past.keep(op);
        Ok(number)
    }

    // The operation with the dot no longer waits.
    pub(crate) fn forget(&mut self, dot: Dot)
        ensures { self.new ≡ record self.old {
          machine = record self.old.machine { waiting = without dot self.old.machine.waiting };
          waiting = others_than dot self.old.waiting;
        } }
    {
        self.waiting.remove(dot);
    }
}

// A decision ends the hold of its proposal, and a commit is known from then on.
fn end_hold(holds: &mut Holds, past: &History, op: &Op)
    requires place { 1 ≤ holds.old.commit_places }
    ensures holds { holds.new.holds ≡ holds_after op.now.body holds.old.holds }
    ensures kept { (rows : List DocRow) → AreKept rows holds.old → AreKept rows holds.new }
    ensures commits { holds.new.commits ≡ commits_after op.now past.now.log holds.old.commits }
    ensures hold_places { holds.old.hold_places ≤ holds.new.hold_places }
    ensures commit_places { holds.old.commit_places ≤ holds.new.commit_places + 1 }
    ensures same_places { IsNone (committed op.now.body) → holds.old.commit_places ≤ holds.new.commit_places }
{
    match *op.body_ref() {
        Body::Commit { proposal } => {
            holds.release(proposal);
            if let Some(slot) = past.proposed_slot(proposal) {
                holds.committed(op.dot(), slot).unwrap();
            }
        }
        Body::Abort { proposal } => holds.release(proposal),
        Body::Insert { .. } | Body::Delete { .. } | Body::Propose { .. } => {}
    }
}

// The operation comes into the log.
fn log(past: &mut History, op: &Op, origin: Origin)
    requires room { 1 ≤ past.old.room }
    requires next { IsNextIn past.old.size past.old.room_site past.old.log op.now }
    requires comes { ComesFrom origin op.now past.old.site past.old.ops }
    ensures { past.new ≡ logged origin op.now past.old }
{
    match origin {
        Origin::Here => past.make(op),
        Origin::There => past.take(op),
        Origin::Waiting { number } => past.resume(number, op),
    }
}

// Does to the document what the operation does to it after this past, and tells what that does to the atoms shown.
fn apply<D: Doc>(doc: &mut D, past: &History, op: &Op, number: u32) -> Result<LastChange, Memory>
    requires { IsFresh (D.rows doc.old) op.now.dot }
    ensures ok { OnOk result (D.rows doc.new ≡ effect past.now.log op.now.dot op.now.body (D.rows doc.old)) }
    ensures change { IfOk result (λ last. (ops : List OpValue) → slice_get ops number ≡ Some op.now
        → change_of last ops (D.rows doc.new) ≡ change_by op.now.dot op.now.body (D.rows doc.old)) }
    ensures err { OnErr result (D.rows doc.new ≡ D.rows doc.old) }
{
    let dot = op.dot();
    match op.body_ref() {
        Body::Insert { slot, run } => {
            doc.insert_run(*slot, dot, *run).map_err(memory)?;
            Ok(LastChange::Put { number })
        }
        Body::Delete { target } => delete_row(doc, *target, dot),
        Body::Commit { proposal } => {
            if let Some(slot) = past.proposed_slot(*proposal) {
                doc.flatten(slot).map_err(memory)?;
            }
            Ok(LastChange::Nothing)
        }
        Body::Propose { .. } | Body::Abort { .. } => Ok(LastChange::Nothing),
    }
}

// Deletes the row, and tells what that does to the atoms shown.
fn delete_row<D: Doc>(doc: &mut D, target: AtomId, dot: Dot) -> Result<LastChange, Memory>
    ensures ok { OnOk result (D.rows doc.new ≡ delete target dot (D.rows doc.old)) }
    ensures change { IfOk result (λ last. (ops : List OpValue)
        → change_of last ops (D.rows doc.new) ≡ change_by dot (Delete target) (D.rows doc.old)) }
    ensures err { OnErr result (D.rows doc.new ≡ D.rows doc.old) }
{
    let was_live = doc.is_live(target);
    match doc.delete(target, dot) {
        Ok(()) if was_live => Ok(LastChange::Cut { target }),
        Ok(()) => Ok(LastChange::Nothing),
        Err(fault) => Err(memory(fault)),
    }
}

// A document finds no atom gone that an operation names which fits it, so want of memory is what is left.
pub(crate) fn memory(_fault: DocFault) -> Memory {
    Memory
}
