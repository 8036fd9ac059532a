ghost use Rattle.std.specs.Prelude.{◌≡◌, ◌<◌, ◌≤◌, ◌+◌, ◌-◌, ◌∷◌, ◌++◌, [], length};
ghost use Rattle.std.specs.Prelude.{IfOk, IfSome, OnOk, IfNone, None, Some};
ghost use Rattle.std.specs.List.{find, slice_get};
ghost use Rattle.std.specs.Option.{is_some, option_and_then, option_map};
ghost use Rattle.td_base.specs.declared.site.TheConstants.{MAX_SITE};
ghost use Rattle.td_machine.specs.Counts.{ops_of};
ghost use Rattle.td_machine.specs.Log.{decision, proposed_slot};
ghost use Rattle.td_machine.specs.Ready.{is_dot_of};
ghost use Rattle.td_op.specs.Op.{IsOp, OpValue};
ghost use Rattle.td_store.specs.Inserting.{inserting};
ghost use Rattle.td_history.specs.Texts.{run_at};
ghost use Rattle.td_history.specs.Logs.{IsFoundAs};
ghost use Rattle.td_history.specs.Standing.{Agree};
ghost use Rattle.td_history.specs.Past.{IsNextIn, decided_by};
ghost use Rattle.td_history.specs.Index.{with_logged, with_decision, IsFromOne, IsLoggedAs};

use crate::index::{Index, Logged};
use crate::ramps::Ramps;
use std::alloc::Global;
use std::marker::Model;
use td_base::{Dot, Memory, Run, Site};
use td_clock::Vector;
use td_op::{Body, Op};
use td_path::Slot;
use td_store::Ops;

/// The operations by their numbers, and the log of those that were made or taken. There is room for so many more
/// operations, of one site in the log.
#[derive(Drop)]
pub struct Log {
    ops: Ops,
    // the numbers of those in the log, the oldest first
    numbers: Ramps<u32>,
    index: Index,
    size: u8,
    room: u32,
}

impl Model for Log {
    ghost use Rattle.td_history.specs.LogValue.{LogValue};

    ghost Value = { LogValue };

    ghost use Rattle.td_history.specs.Logs.{log_of, IsLogParts};

    ghost view = { λ l. record {
      size = l.size;
      ops = l.ops.ops;
      log = log_of l.ops.ops l.numbers.items;
      room = l.room;
      room_site = l.index.room_site;
    } };

    ghost invariant = { λ l. IsLogParts l.size l.ops l.numbers l.index l.room };
}

impl Log {
    /// No operations of a buffer of n sites, and no room.
    pub fn new(alloc: Global, site: Site, n: u8) -> Result<Log, Memory>
        requires some { 1 ≤ n }
        requires few { n ≤ MAX_SITE }
        requires site { site ≤ n }
        ensures { IfOk result (λ l. l ≡ record { size = n; ops = []; log = []; room = 0; room_site = site }) }
    {
        Ok(Log {
            ops: Ops::new(alloc, n),
            numbers: Ramps::new(alloc),
            index: Index::new(alloc, site, n)?,
            size: n,
            room: 0,
        })
    }

    /// Makes room for so many more operations, of this site in the log.
    pub fn reserve(&mut self, of: Site, more: u32) -> Result<(), Memory>
        requires { of ≤ self.old.size }
        ensures size { self.new.size ≡ self.old.size }
        ensures ops { self.new.ops ≡ self.old.ops }
        ensures log { self.new.log ≡ self.old.log }
        ensures room { OnOk result (self.new.room ≡ more) }
        ensures site { OnOk result (self.new.room_site ≡ of) }
    {
        self.room = 0;
        self.ops.reserve(more)?;
        self.numbers.reserve(more)?;
        self.index.reserve(of, more)?;
        self.room = more;
        Ok(())
    }

    /// The site of whose operations there is room for more.
    pub fn room_site(&self) -> Site
        ensures { result ≡ self.now.room_site }
    {
        self.index.room_site()
    }

    /// Keeps an operation under the next number, which it answers.
    pub fn keep(&mut self, op: &Op) -> u32
        requires room { 1 ≤ self.old.room }
        requires size { length op.now.deps ≡ self.old.size }
        ensures number { result ≡ length self.old.ops }
        ensures log { self.new ≡ record self.old { ops = self.old.ops ++ op.now ∷ []; room = self.old.room - 1 } }
    {
        let number = self.ops.len();
        self.ops.push(op);
        self.room -= 1;
        number
    }

    /// Adds the operation that is kept under this number to the log.
    pub fn resume(&mut self, number: u32, op: &Op)
        requires room { 1 ≤ self.old.room }
        requires kept { slice_get self.old.ops number ≡ Some op.now }
        requires next { IsNextIn self.old.size self.old.room_site self.old.log op.now }
        ensures { self.new ≡ record self.old { log = op.now ∷ self.old.log; room = self.old.room - 1 } }
    {
        note(&mut self.numbers, &mut self.index, number, op);
        self.room -= 1;
    }

    /// Keeps an operation, adds it to the log, and answers its number.
    pub fn add(&mut self, op: &Op) -> u32
        requires room { 1 ≤ self.old.room }
        requires next { IsNextIn self.old.size self.old.room_site self.old.log op.now }
        ensures number { result ≡ length self.old.ops }
        ensures log { self.new ≡ record self.old {
          ops = self.old.ops ++ op.now ∷ [];
          log = op.now ∷ self.old.log;
          room = self.old.room - 1;
        } }
    {
        let number = self.ops.len();
        self.ops.push(op);
        note(&mut self.numbers, &mut self.index, number, op);
        self.room -= 1;
        number
    }

    /// The same of an insertion, by its parts.
    pub fn add_insertion(&mut self, dot: Dot, deps: &Vector, slot: &Slot, run: &Run) -> u32
        requires room { 1 ≤ self.old.room }
        requires op { IsOp (inserting dot deps.now slot.now run.now) }
        requires next { IsNextIn self.old.size self.old.room_site self.old.log
            (inserting dot deps.now slot.now run.now) }
        ensures number { result ≡ length self.old.ops }
        ensures log { self.new ≡ record self.old {
          ops = self.old.ops ++ inserting dot deps.now slot.now run.now ∷ [];
          log = inserting dot deps.now slot.now run.now ∷ self.old.log;
          room = self.old.room - 1;
        } }
    {
        let number = self.ops.len();
        self.ops.push_insertion(dot, deps, slot, run);
        self.numbers.push(number);
        self.index.push(number);
        self.room -= 1;
        number
    }

    /// How many operations are kept.
    pub fn len(&self) -> u32
        ensures { result ≡ length self.now.ops }
    {
        self.ops.len()
    }

    /// The operations that are kept.
    pub fn ops(&self) -> &Ops
        ensures { result.now.ops ≡ self.now.ops }
    {
        &self.ops
    }

    /// The operation of a number.
    pub fn op(&self, number: u32) -> Option<Op>
        ensures { result ≡ slice_get self.now.ops number }
    {
        self.ops.get(number)
    }

    /// The dot of the operation of a number.
    pub fn dot(&self, number: u32) -> Option<Dot>
        ensures { result ≡ option_map (λ (op : OpValue). op.dot) (slice_get self.now.ops number) }
    {
        self.ops.dot(number)
    }

    /// The operation of a number that there is.
    pub fn at(&self, number: u32) -> Op
        requires { number < length self.now.ops }
        ensures { slice_get self.now.ops number ≡ Some result }
    {
        self.ops.at(number)
    }

    /// What the operation of a number does.
    pub fn body(&self, number: u32) -> Option<Body>
        ensures { result ≡ option_map (λ (op : OpValue). op.body) (slice_get self.now.ops number) }
    {
        self.ops.body(number)
    }

    /// The text that the operation of a number inserts.
    pub fn run(&self, number: u32) -> Option<Run>
        ensures { result ≡ run_at self.now.ops number }
    {
        match self.ops.body(number)? {
            Body::Insert { run, .. } => Some(run),
            Body::Delete { .. } | Body::Propose { .. } => None,
            Body::Commit { .. } | Body::Abort { .. } => None,
        }
    }

    /// The number of the operation of the log with this dot.
    pub fn find(&self, dot: Dot) -> Option<u32>
        ensures op { option_and_then (slice_get self.now.ops) result ≡ find (is_dot_of dot) self.now.log }
        ensures variant { is_some result ≡ is_some (find (is_dot_of dot) self.now.log) }
        ensures bound { IfSome result (λ k. k < length self.now.ops) }
    {
        let logged = self.logged(dot)?;
        Some(logged.number)
    }

    /// The last operation of a site in the log.
    pub fn last_of(&self, site: Site) -> Option<Op>
        requires { site ≤ self.now.size }
        ensures { result ≡ slice_get (ops_of site self.now.log) 0 }
    {
        let logged = self.last(site)?;
        self.ops.get(logged.number)
    }

    /// The slot that the proposal asks for.
    #[tactic(auto, using(crate::proofs::Logs::proposed_by))]
    pub fn proposed_slot(&self, p: Dot) -> Option<Slot>
        ensures { result ≡ proposed_slot p self.now.log }
    {
        match self.found_body(p) {
            Some(Body::Propose { slot }) => Some(slot),
            _ => None,
        }
    }

    /// What was decided of the proposal.
    pub fn decision(&self, p: Dot) -> Option<bool>
        ensures { result ≡ decision p self.now.log }
    {
        let logged = self.logged(p)?;
        logged.decided
    }

    // What the index has of the operation of the log with this dot.
    fn logged(&self, dot: Dot) -> Option<Logged>
        ensures found { Agree (IsFoundAs self.now.ops self.now.log dot) result (find (is_dot_of dot) self.now.log) }
        ensures none { IfNone result (decision dot self.now.log ≡ None) }
    {
        self.index.get(dot)
    }

    // What the index has of the last operation of a site in the log.
    fn last(&self, site: Site) -> Option<Logged>
        requires { site ≤ self.now.size }
        ensures { Agree (IsLoggedAs self.now.ops (λ d. decision d self.now.log)) result
            (slice_get (ops_of site self.now.log) 0) }
    {
        self.index.last(site)
    }

    // What the operation of the log with this dot does.
    fn found_body(&self, dot: Dot) -> Option<Body>
        ensures { result ≡ option_map (λ (x : OpValue). x.body) (find (is_dot_of dot) self.now.log) }
    {
        let logged = self.logged(dot)?;
        self.ops.body(logged.number)
    }
}

// Adds the operation with this number to the numbers and to the index.
fn note(numbers: &mut Ramps<u32>, index: &mut Index, number: u32, op: &Op)
    requires numbers_room { 1 ≤ numbers.old.room }
    requires index_room { 1 ≤ index.old.room }
    ensures numbers { numbers.new.items ≡ numbers.old.items ++ number ∷ [] }
    ensures numbers_room { numbers.new.room ≡ numbers.old.room - 1 }
    ensures lists { index.new.lists
        ≡ with_decision op.now.body (with_logged index.old.room_site number index.old.lists) }
    ensures site { index.new.room_site ≡ index.old.room_site }
    ensures some { 1 ≤ index.old.room_site }
    ensures room { index.new.room ≡ index.old.room - 1 }
    ensures dot { IfSome (decided_by op.now.body) IsFromOne }
{
    numbers.push(number);
    index.push(number);
    match *op.body_ref() {
        Body::Commit { proposal } => index.decide(proposal, true),
        Body::Abort { proposal } => index.decide(proposal, false),
        Body::Insert { .. } | Body::Delete { .. } | Body::Propose { .. } => {}
    }
}
