ghost use Rattle.std.specs.Prelude.{◌≡◌, ◌≤◌, ◌<◌, ◌+◌, ◌∷◌, ◌++◌, [], length, slice_get, IfSome, OnErr, OnOk, Some};
ghost use Rattle.std.specs.Option.{option_map};
ghost use Rattle.td_base.specs.Atom.{IsAtom};
ghost use Rattle.td_op.specs.Op.{IsOp, OpValue};
ghost use Rattle.td_store.specs.ChainsParts.{IsNextLetter};
ghost use Rattle.td_store.specs.Inserting.{inserting};
ghost use Rattle.td_store.specs.OpsParts.{IsTypedIn, head_of};
ghost use Rattle.td_store.specs.Typed.{slot_typed, typed_op};

use crate::chains::Chains;
use crate::heads::Heads;
use crate::place::Typed;
use std::alloc::Global;
use std::marker::Model;
use td_base::{Bit, Dot, MAX_SITE, Memory, Run};
use td_clock::Vector;
use td_op::{Body, Op};
use td_path::Slot;

/// The operations of a replica for a buffer of so many sites, in the order in which they were pushed. One takes 22
/// bytes, and its run where that is more than a letter; a letter that is typed right behind the one before it, as most
/// are, takes 2 bytes, up to 255 of them behind one operation. Operations that follow one another at a site with
/// nothing taken between share the vector of their dependencies. Room for more is made by `reserve` and used up by
/// `push`.
#[derive(Debug, Drop)]
pub struct Ops {
    heads: Heads,
    chains: Chains,
}

impl Model for Ops {
    ghost use Rattle.std.specs.Prelude.{map};
    ghost use Rattle.td_store.specs.Lists.{OpsValue};

    ghost Value = { OpsValue };

    ghost use Rattle.td_store.specs.OpsParts.{AreOpsParts, op_in};

    ghost view = { λ s. record {
      size = s.heads.size;
      ops = map (op_in s.heads.ops) s.chains.places;
      room = s.chains.room;
    } };

    ghost invariant = { λ s. AreOpsParts s.heads s.chains };
}

impl Ops {
    /// No operation of a buffer of n sites, and no room. Takes no memory.
    pub fn new(alloc: Global, n: u8) -> Ops
        requires some { 1 ≤ n }
        requires short { n ≤ MAX_SITE }
        ensures { result ≡ record { size = n; ops = []; room = 0 } }
    {
        Ops {
            heads: Heads::new(alloc, n),
            chains: Chains::new(alloc),
        }
    }

    /// Makes room for so many more operations. `Memory` too where there would be more than `u32::MAX`, or where the
    /// bytes of their runs could come to 4 GiB together.
    pub fn reserve(&mut self, more: u32) -> Result<(), Memory>
        ensures ok { OnOk result (more ≤ self.new.room) }
        ensures ops { self.new ≡ record self.old { room = self.new.room } }
        ensures room { self.old.room ≤ self.new.room }
        ensures err { OnErr result (self.new ≡ self.old) }
    {
        self.heads.reserve(more)?;
        self.chains.reserve(more)?;
        Ok(())
    }

    /// Adds the operation at the end. Takes no memory.
    pub fn push(&mut self, op: &Op)
        requires size { length op.now.deps ≡ self.old.size }
        requires room { 1 ≤ self.old.room }
        ensures size { self.new.size ≡ self.old.size }
        ensures ops { self.new.ops ≡ self.old.ops ++ op.now ∷ [] }
        ensures room { self.new.room + 1 ≡ self.old.room }
    {
        if let Body::Insert { slot, run } = op.body_ref() {
            self.push_insertion(op.dot(), op.deps(), slot, run);
            return;
        }
        self.heads.push(op);
        self.chains.push_head();
    }

    /// Adds an insertion at the end, by its parts: an operation has some 240 bytes. Takes no memory.
    pub fn push_insertion(&mut self, dot: Dot, deps: &Vector, slot: &Slot, run: &Run)
        requires op { IsOp (inserting dot deps.now slot.now run.now) }
        requires size { length deps.now ≡ self.old.size }
        requires room { 1 ≤ self.old.room }
        ensures size { self.new.size ≡ self.old.size }
        ensures ops { self.new.ops ≡ self.old.ops ++ inserting dot deps.now slot.now run.now ∷ [] }
        ensures room { self.new.room + 1 ≡ self.old.room }
    {
        if let Some(typed) = typed_next(&self.heads, &self.chains, dot, deps, slot, run) {
            self.chains.push_letter(typed);
            return;
        }
        self.heads.push_insertion(dot, deps, slot, run);
        self.chains.push_head();
    }

    /// The operation at a place from 0.
    pub fn get(&self, k: u32) -> Option<Op>
        ensures { result ≡ slice_get self.now.ops k }
    {
        if k >= self.len() {
            return None;
        }
        Some(self.at(k))
    }

    /// The operation at a place that there is.
    pub fn at(&self, k: u32) -> Op
        requires { k < length self.now.ops }
        ensures { slice_get self.now.ops k ≡ Some result }
    {
        self.chains.at(k).op(&self.heads)
    }

    /// What the operation at a place that there is depends on.
    pub fn deps(&self, k: u32) -> Vector
        requires { k < length self.now.ops }
        ensures { option_map (λ (op : OpValue). op.deps) (slice_get self.now.ops k) ≡ Some result }
    {
        self.chains.at(k).deps(&self.heads)
    }

    /// The dot of the operation at a place.
    pub fn dot(&self, k: u32) -> Option<Dot>
        ensures { result ≡ option_map (λ (op : OpValue). op.dot) (slice_get self.now.ops k) }
    {
        if k >= self.len() {
            return None;
        }
        Some(self.chains.at(k).dot(&self.heads))
    }

    /// What the operation at a place does.
    pub fn body(&self, k: u32) -> Option<Body>
        ensures { result ≡ option_map (λ (op : OpValue). op.body) (slice_get self.now.ops k) }
    {
        if k >= self.len() {
            return None;
        }
        Some(self.chains.at(k).body(&self.heads))
    }

    /// How many operations there are.
    pub fn len(&self) -> u32
        ensures { result ≡ length self.now.ops }
    {
        self.chains.len()
    }
}

// The insertion as a letter typed behind the last of these operations, where it is one.
fn typed_next(
    heads: &Heads,
    chains: &Chains,
    dot: Dot,
    deps: &Vector,
    slot: &Slot,
    run: &Run,
) -> Option<Typed>
    requires op { IsOp (inserting dot deps.now slot.now run.now) }
    requires size { length deps.now ≡ heads.now.size }
    requires count { chains.now.heads ≡ length heads.now.ops }
    ensures next { IfSome result (λ typed. IsNextLetter chains.now typed) }
    ensures typed { IfSome result (λ typed. IsTypedIn heads.now.ops typed) }
    ensures op { IfSome result (λ typed.
        typed_op (head_of heads.now.ops typed.head) typed ≡ inserting dot deps.now slot.now run.now) }
{
    let letter = typed_letter(dot, slot, run)?;
    let typed = chains.next(letter)?;
    if !heads.leads(typed.head, typed.behind, dot, deps) {
        return None;
    }
    Some(typed)
}

// The letter of an insertion that puts one letter right behind what the operation before it put.
fn typed_letter(dot: Dot, slot: &Slot, run: &Run) -> Option<u8>
    ensures slot { IfSome result (λ letter. slot.now ≡ slot_typed dot) }
    ensures run { IfSome result (λ letter. run.now ≡ (letter ∷ []) ∷ []) }
    ensures letter { IfSome result (λ letter. IsAtom (letter ∷ [])) }
{
    let Slot::At { atom, bit } = *slot else {
        return None;
    };
    let is_behind = atom.dot.site == dot.site && atom.dot.seq + 1 == dot.seq && atom.offset == 0;
    if !is_behind || bit != Bit::Right {
        return None;
    }
    match run.bytes() {
        [letter] if run.len() == 1 => Some(*letter),
        _ => None,
    }
}
