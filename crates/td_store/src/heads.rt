ghost use Rattle.std.specs.Prelude.{◌≡◌, ◌≤◌, ◌<◌, ◌+◌, ◌∷◌, ◌++◌, [], length, take, slice_get, slice_index_or, IfSome, IsTrue, OnErr, OnOk, Some};
ghost use Rattle.std.specs.Option.{option_map};
ghost use Rattle.td_clock.specs.Vector.{vector_get};
ghost use Rattle.td_op.specs.Op.{IsOp, OpValue};
ghost use Rattle.td_store.specs.Inserting.{inserting};
ghost use Rattle.td_store.specs.HeadsParts.{deps_of};
ghost use Rattle.td_store.specs.Typed.{ComesBehind};

use crate::compact_body::CompactBody;
use crate::compact_dot::CompactDot;
use crate::runs::Runs;
use crate::vectors::Vectors;
use std::alloc::Global;
use std::marker::Model;
use std::mem::size_of;
use td_base::{Dot, MAX_SITE, Memory, Run};
use td_clock::Vector;
use td_op::{Body, Op};
use td_path::Slot;

const SITES: usize = MAX_SITE as usize;

// The operations that are kept whole, in the order in which they were pushed. One takes 20 bytes, and its run where
// that is more than a letter; operations that follow one another at a site with nothing taken between share the vector
// of their dependencies. Room for more is made by `reserve` and used up by `push`.
#[derive(Debug, Drop)]
pub(crate) struct Heads {
    size: u8,
    ops: Vec<CompactOp>,
    runs: Runs,
    rows: Vectors,
    // by site, the number of the vector that was used last for an operation of the site: it may well serve the next
    last_rows: [u32; SITES],
    room: u32,
}

// An operation: its vector is that row but at the operation's own site.
#[derive(Clone, Copy, Debug, PartialEq, Eq)]
struct CompactOp {
    dot: CompactDot,
    row: u32,
    body: CompactBody,
}

const _: () = prove!(size_of::<CompactOp>() == 20);

impl Model for Heads {
    ghost use Rattle.std.specs.Prelude.{map, vec_capacity};
    ghost use Rattle.td_store.specs.Lists.{OpsValue};

    ghost Value = { OpsValue };

    ghost use Rattle.td_store.specs.HeadsParts.{AreHeadsParts, op_of};

    ghost view = { λ s. record {
      size = s.size;
      ops = map (op_of s.rows.rows s.runs.runs) s.ops.items;
      room = s.room;
    } };

    ghost invariant = { λ s. AreHeadsParts s.size s.room (vec_capacity s.ops) s.ops.items s.runs s.rows };
}

impl Heads {
    // No operation of a buffer of n sites, and no room. Takes no memory.
    pub(crate) fn new(alloc: Global, n: u8) -> Heads
        requires some { 1 ≤ n }
        requires short { n ≤ MAX_SITE }
        ensures { result ≡ record { size = n; ops = []; room = 0 } }
    {
        Heads {
            size: n,
            ops: Vec::new(alloc),
            runs: Runs::new(alloc),
            rows: Vectors::new(alloc, n),
            last_rows: [0; SITES],
            room: 0,
        }
    }

    // Makes room for so many more operations. `Memory` too where there would be more than `u32::MAX`, or where the
    // bytes of their runs could come to 4 GiB together.
    pub(crate) fn reserve(&mut self, more: u32) -> Result<(), Memory>
        ensures ok { OnOk result (more ≤ self.new.room) }
        ensures ops { self.new ≡ record self.old { room = self.new.room } }
        ensures room { self.old.room ≤ self.new.room }
        ensures err { OnErr result (self.new ≡ self.old) }
    {
        if more > u32::MAX - self.len() {
            return Err(Memory);
        }
        self.ops.reserve(more as usize)?;
        self.runs.reserve(more)?;
        self.rows.reserve(more)?;
        self.room = self.room.max(more);
        Ok(())
    }

    // Adds the operation at the end. Takes no memory.
    pub(crate) fn push(&mut self, op: &Op)
        requires size { length op.now.deps ≡ self.old.size }
        requires room { 1 ≤ self.old.room }
        ensures size { self.new.size ≡ self.old.size }
        ensures ops { self.new.ops ≡ self.old.ops ++ op.now ∷ [] }
        ensures room { self.new.room + 1 ≡ self.old.room }
    {
        let row = row_for(&mut self.rows, &mut self.last_rows, op.dot(), op.deps());
        let body = CompactBody::of(op.body_ref(), &mut self.runs);
        let dot = CompactDot::of(op.dot());
        self.ops.push_reserved(CompactOp { dot, row, body });
        self.room -= 1;
    }

    // Adds an insertion at the end, by its parts: an operation has some 240 bytes. Takes no memory.
    pub(crate) fn push_insertion(&mut self, dot: Dot, deps: &Vector, slot: &Slot, run: &Run)
        requires op { IsOp (inserting dot deps.now slot.now run.now) }
        requires size { length deps.now ≡ self.old.size }
        requires room { 1 ≤ self.old.room }
        ensures size { self.new.size ≡ self.old.size }
        ensures ops { self.new.ops ≡ self.old.ops ++ inserting dot deps.now slot.now run.now ∷ [] }
        ensures room { self.new.room + 1 ≡ self.old.room }
    {
        let row = row_for(&mut self.rows, &mut self.last_rows, dot, deps);
        let body = CompactBody::insertion(slot, run, &mut self.runs);
        let dot = CompactDot::of(dot);
        self.ops.push_reserved(CompactOp { dot, row, body });
        self.room -= 1;
    }

    // The operation at a place that there is.
    pub(crate) fn at(&self, k: u32) -> Op
        requires { k < length self.now.ops }
        ensures { slice_get self.now.ops k ≡ Some result }
    {
        let op = &self.ops[k as usize];
        let dot = op.dot.dot();
        let deps = deps_at(&self.rows, op.row, dot);
        Op::of(dot, &deps, &op.body.body(&self.runs))
    }

    // What the operation at a place that there is depends on.
    pub(crate) fn deps(&self, k: u32) -> Vector
        requires { k < length self.now.ops }
        ensures { option_map (λ (op : OpValue). op.deps) (slice_get self.now.ops k) ≡ Some result }
    {
        let op = &self.ops[k as usize];
        deps_at(&self.rows, op.row, op.dot.dot())
    }

    // The dot of the operation at a place that there is.
    pub(crate) fn dot(&self, k: u32) -> Dot
        requires { k < length self.now.ops }
        ensures { option_map (λ (op : OpValue). op.dot) (slice_get self.now.ops k) ≡ Some result }
    {
        self.ops[k as usize].dot.dot()
    }

    // What the operation at a place that there is does.
    pub(crate) fn body(&self, k: u32) -> Body
        requires { k < length self.now.ops }
        ensures { option_map (λ (op : OpValue). op.body) (slice_get self.now.ops k) ≡ Some result }
    {
        self.ops[k as usize].body.body(&self.runs)
    }

    // Whether an operation with this dot and these dependencies is so many behind the one at a place that there is,
    // with nothing taken between.
    pub(crate) fn leads(&self, k: u32, behind: u8, dot: Dot, deps: &Vector) -> bool
        requires place { k < length self.now.ops }
        requires size { length deps.now ≡ self.now.size }
        requires site { dot.site ≤ self.now.size }
        requires next { vector_get deps.now dot.site + 1 ≡ dot.seq }
        ensures { IsTrue result → IfSome (slice_get self.now.ops k) (λ head. ComesBehind head behind dot deps.now) }
    {
        let head = &self.ops[k as usize];
        let first = head.dot.dot();
        first.site == dot.site
            && first.seq + u32::from(behind) == dot.seq
            && self.rows.has_but_at(head.row, deps, dot.site)
    }

    // How many operations there are.
    pub(crate) fn len(&self) -> u32
        ensures { result ≡ length self.now.ops }
    {
        self.ops.len() as u32
    }
}

// The row with the dependencies of an operation with this dot: the last one of its site where that has them, and else a
// new one.
fn row_for(rows: &mut Vectors, last_rows: &mut [u32; SITES], dot: Dot, deps: &Vector) -> u32
    requires next { vector_get deps.now dot.site + 1 ≡ dot.seq }
    requires site { dot.site ≤ rows.old.size }
    requires size { length deps.now ≡ rows.old.size }
    requires room { 1 ≤ rows.old.room }
    ensures within { result < length rows.new.rows }
    ensures deps { deps_of (slice_index_or rows.new.rows result []) dot ≡ deps.now }
    ensures rows { take (length rows.old.rows) rows.new.rows ≡ rows.old.rows }
    ensures size { rows.new.size ≡ rows.old.size }
    ensures room { rows.old.room ≤ rows.new.room + 1 }
{
    let last = &mut last_rows[dot.site.place()];
    if !rows.has_but_at(*last, deps, dot.site) {
        *last = rows.len();
        rows.push(deps);
    }
    *last
}

// The dependencies of an operation with this dot, from this row.
fn deps_at(rows: &Vectors, row: u32, dot: Dot) -> Vector
    requires row { row < length rows.now.rows }
    requires site { dot.site ≤ rows.now.size }
    ensures { result ≡ deps_of (slice_index_or rows.now.rows row []) dot }
{
    let mut deps = rows.at(row);
    deps.set(dot.site, dot.seq - 1);
    deps
}
