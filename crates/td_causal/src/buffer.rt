ghost use Rattle.std.specs.Prelude.{◌≡◌, ◌<◌, ◌≤◌, ◌+◌, ℕ, [], length, ◌==◌, find, option_map, is_some, slice_get, Option, None, Some, IfSome, IfOk, OnOk, OnErr, false};
ghost use Rattle.std.specs.Option.{option_and_then};
ghost use Rattle.td_base.specs.Value.{IsDot};
ghost use Rattle.td_op.specs.Op.{IsOp};
ghost use Rattle.td_machine.specs.Ready.{next_ready};
ghost use Rattle.td_causal.specs.declared.waiting.Waiting.{Waiting};
ghost use Rattle.td_causal.specs.Waiting.{ops_waiting, number_of, is_kept, put_in_order, others_than};
ghost use Rattle.td_causal.specs.Waiting.{is_ready_of, AreStored};
ghost use Rattle.td_causal.specs.BufferParts.{AreEntries};
ghost use Rattle.td_causal.specs.Offering.{offer_answer, kept_after};

use crate::offer::Offer;
use crate::waiting::Waiting;
use std::alloc::Global;
use std::collections::BTreeMap;
use std::marker::Model;
use td_base::{Dot, Memory, Site};
use td_clock::Vector;
use td_op::Op;
use td_store::Ops;

/// What waits at a site, in the order of the dots. The operations themselves are stored elsewhere: here a dot and a
/// number are kept of each. The vectors that its calls are given have the size of those of all that waits. Only
/// `offer` takes memory.
#[derive(Debug, Drop)]
pub struct Buffer {
    waiting: BTreeMap<Dot, u32>,
}

impl Model for Buffer {
    ghost use Rattle.td_causal.specs.Waiting.{Numbers};
    ghost use Rattle.td_causal.specs.BufferParts.{AreEntries};

    ghost Value = { Numbers };

    ghost view = { λ b. b.waiting.entries };

    ghost invariant = { λ b. AreEntries b.waiting.entries };
}

impl Buffer {
    /// The buffer in which nothing waits.
    pub fn new(alloc: Global) -> Buffer
        ensures { result ≡ [] }
    {
        Buffer {
            waiting: BTreeMap::new(alloc),
        }
    }

    /// What becomes of an operation that is offered to a site with this vector. Where it is to come later, it waits,
    /// and its keeper stores it by the number. `Memory` comes also where `u32::MAX` operations wait already.
    pub fn offer(&mut self, have: &Vector, op: &Op, number: u32) -> Result<Offer, Memory>
        requires { length have.now ≡ length op.now.deps }
        ensures answer { IfOk result (λ answer.
            answer ≡ offer_answer have.now op.now (is_kept op.now.dot self.old)) }
        ensures kept { IfOk result (λ answer. self.new ≡ kept_after answer (op.now.dot, number) self.old) }
        ensures err { OnErr result (self.new ≡ self.old) }
        ensures op { IsOp op.now }
    {
        if have.has(op.dot()) || self.waits(op.dot()) {
            return Ok(Offer::Repeat);
        }
        if have.covers(op.deps()) {
            return Ok(Offer::Ready);
        }
        self.keep(op.dot(), number)?;
        Ok(Offer::Later)
    }

    /// The ready operation with the least dot, of those that wait and are stored here; None exactly where none is
    /// ready.
    pub fn next_ready(&self, have: &Vector, ops: &Ops) -> Option<Waiting>
        requires { AreStored (length have.now) ops.now.ops self.now }
        ensures least { option_map (λ (w : Waiting). w.op) result
            ≡ next_ready have.now (ops_waiting ops.now.ops self.now) }
        ensures stored { IfSome result (λ w. slice_get ops.now.ops w.number ≡ Some w.op) }
    {
        let number = self.least_ready(have, ops)?;
        let op = ops.at(number);
        Some(Waiting { op, number })
    }

    /// Whether one of those that wait is ready.
    pub fn has_ready(&self, have: &Vector, ops: &Ops) -> bool
        requires { AreStored (length have.now) ops.now.ops self.now }
        ensures { result ≡ is_some (next_ready have.now (ops_waiting ops.now.ops self.now)) }
    {
        self.least_ready(have, ops).is_some()
    }

    /// Takes away the operation with the dot, where it waits.
    pub fn remove(&mut self, dot: Dot)
        ensures { self.new ≡ others_than dot self.old }
    {
        self.waiting.remove(&dot);
    }

    /// The number of the operation with the dot, where it waits.
    pub fn number_of(&self, dot: Dot) -> Option<u32>
        ensures { result ≡ number_of dot self.now }
    {
        self.waiting.get(&dot).copied()
    }

    /// Whether an operation with the dot waits.
    pub fn waits(&self, dot: Dot) -> bool
        ensures { result ≡ is_kept dot self.now }
    {
        self.waiting.contains_key(&dot)
    }

    /// How many operations wait.
    pub fn len(&self) -> u32
        ensures { result ≡ length self.now }
    {
        self.waiting.len() as u32
    }

    /// Whether none waits.
    pub fn is_empty(&self) -> bool
        ensures { result ≡ (length self.now == 0) }
    {
        self.waiting.is_empty()
    }

    // Keeps a dot that does not wait.
    fn keep(&mut self, dot: Dot, number: u32) -> Result<(), Memory>
        requires { is_kept dot self.old ≡ false }
        ensures ok { OnOk result (self.new ≡ put_in_order (dot, number) self.old) }
        ensures err { OnErr result (self.new ≡ self.old) }
    {
        if self.waiting.len() >= u32::MAX as usize {
            return Err(Memory);
        }
        is_in_range(dot);
        self.waiting.insert(dot, number)?;
        Ok(())
    }

    // The number of the least that is ready: the ready one of the least site.
    fn least_ready(&self, have: &Vector, ops: &Ops) -> Option<u32>
        requires { AreStored (length have.now) ops.now.ops self.now }
        ensures least { option_and_then (slice_get ops.now.ops) result
            ≡ next_ready have.now (ops_waiting ops.now.ops self.now) }
        ensures within { IfSome result (λ number. number < length ops.now.ops) }
    {
        if self.waiting.is_empty() {
            return None;
        }
        for n in 1..=have.size() {
            let site = Site::new(n)?;
            let number = self.ready_of(site, have, ops);
            if number.is_some() {
                return number;
            }
        }
        None
    }

    // The number of the operation of the site that follows those that are had, where it waits and depends on no other.
    fn ready_of(&self, site: Site, have: &Vector, ops: &Ops) -> Option<u32>
        requires site { site ≤ length have.now }
        requires entries { AreEntries self.now }
        requires stored { AreStored (length have.now) ops.now.ops self.now }
        ensures ready { option_and_then (slice_get ops.now.ops) result
            ≡ find (is_ready_of site have.now) (ops_waiting ops.now.ops self.now) }
        ensures within { IfSome result (λ number. number < length ops.now.ops) }
    {
        let dot = Dot::new(site, have.get(site) + 1)?;
        let number = self.number_of(dot)?;
        if have.covers(&ops.deps(number)) {
            Some(number)
        } else {
            None
        }
    }
}

// The parts of the dot are read, so that their ranges are known.
fn is_in_range(dot: Dot)
    ensures { IsDot dot }
{
    let _ = (dot.site.number(), dot.seq);
}
