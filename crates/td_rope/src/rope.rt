ghost use Rattle.std.specs.Prelude.{◌≡◌, ◌<◌, ◌≤◌, ◌++◌, ◌↔◌, [], length, insert, remove, slice_get, slice_range};
ghost use Rattle.std.specs.Prelude.{IsTrue, OnErr, OnOk};
ghost use Rattle.std.specs.List.{concat, insert_slice};
ghost use Rattle.td_rope.specs.Units.{IsIndexOf, offset_of, width};

use crate::chunk::Chunk;
use crate::part::Part;
use crate::row::Row;
use crate::unit::Unit;
use std::alloc::Global;
use std::marker::Model;
use td_base::{Atom, Bytes, Memory, Run};

/// A text in chunks: fewer than 2^32 atoms. Contracts see the list of them. A letter takes about two and a half bytes.
#[derive(Drop)]
pub struct Rope {
    rows: Row<Row<Chunk>>,
    alloc: Global,
}

impl Model for Rope {
    ghost use Rattle.std.specs.Prelude.{ℕ, List};

    ghost Value = { List (List ℕ) };

    ghost view = { λ r. r.rows };
}

impl Rope {
    /// No atoms. It takes no memory.
    pub fn new(alloc: Global) -> Rope
        ensures { result ≡ [] }
    {
        Rope {
            rows: Row::new(alloc),
            alloc,
        }
    }

    /// How many atoms there are. It takes no memory, like all calls below but those that put and those that add bytes.
    pub fn len(&self) -> u32
        ensures { result ≡ length self.now }
    {
        self.rows.len()
    }

    /// Whether there are none.
    pub fn is_empty(&self) -> bool
        ensures { IsTrue result ↔ (self.now ≡ []) }
    {
        self.len() == 0
    }

    /// An atom by its index from 0. None exactly from `len` on.
    pub fn atom(&self, index: u32) -> Option<Atom>
        ensures { result ≡ slice_get self.now index }
    {
        if index < self.len() {
            Some(self.rows.atom(index))
        } else {
            None
        }
    }

    /// How wide the text is: its length in this unit.
    pub fn len_in(&self, unit: Unit) -> u64
        ensures { result ≡ width unit (concat self.now) }
    {
        self.rows.size().width_in(unit)
    }

    /// The offset of an atom: how wide the text before it is. The index behind the last atom has one too.
    pub fn offset_of(&self, unit: Unit, index: u32) -> u64
        requires { index ≤ length self.now }
        ensures { result ≡ offset_of unit self.now index }
    {
        self.rows.offset_of(unit, index)
    }

    /// The index of the atom in which an offset lies: the last one that does not begin behind it. At the end of the
    /// text and behind it, the number of atoms.
    pub fn index_of(&self, unit: Unit, offset: u64) -> u32
        ensures { IsIndexOf unit self.now offset result }
    {
        self.rows.index_of(unit, offset)
    }

    /// Puts the atom at the index. `Memory` also where there would be 2^32 atoms.
    pub fn put(&mut self, index: u32, atom: Atom) -> Result<(), Memory>
        requires { index ≤ length self.old }
        ensures ok { OnOk result (self.new ≡ insert self.old index atom) }
        ensures err { OnErr result (self.new ≡ self.old) }
    {
        self.put_run(index, &Run::one(atom))
    }

    /// Puts all atoms of the run, in order, at the index. `Memory` also where there would be 2^32 atoms.
    pub fn put_run(&mut self, index: u32, run: &Run) -> Result<(), Memory>
        requires { index ≤ length self.old }
        ensures ok { OnOk result (self.new ≡ insert_slice self.old index run.now) }
        ensures err { OnErr result (self.new ≡ self.old) }
    {
        if u32::from(run.len()) > u32::MAX - self.len() {
            return Err(Memory);
        }
        self.rows.put(self.alloc, index, run)
    }

    /// Takes the atom at the index out.
    pub fn take_out(&mut self, index: u32)
        requires { index < length self.old }
        ensures { self.new ≡ remove self.old index }
    {
        self.rows.take_out(index);
    }

    /// Adds the text, the bytes of all atoms, at the end of these bytes, in one pass.
    pub fn push_text(&self, text: &mut Bytes) -> Result<(), Memory>
        ensures ok { OnOk result (text.new ≡ text.old ++ concat self.now) }
        ensures err { OnErr result (text.new ≡ text.old) }
    {
        self.rows.push_range(0, self.len(), text)
    }

    /// The same of the atoms from an index up to another, as far as there are any.
    pub fn push_range(&self, from: u32, to: u32, text: &mut Bytes) -> Result<(), Memory>
        ensures ok { OnOk result (text.new ≡ text.old ++ concat (slice_range self.now from to)) }
        ensures err { OnErr result (text.new ≡ text.old) }
    {
        self.rows.push_range(from, to, text)
    }
}
