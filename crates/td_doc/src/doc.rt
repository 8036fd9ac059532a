ghost use Rattle.std.specs.Prelude.{◌≡◌, ◌++◌, List, [], length, IfOk, IfErr, IsTrue, OnOk, OnErr, IsNone};
ghost use Rattle.std.specs.Option.{ForSome};
ghost use Rattle.td_doc.specs.Document.{DocRow, find_row, live_id_at, live_rows, text_of};
ghost use Rattle.td_doc.specs.Slots.{rows_in_slot, is_empty_slot, is_within, overlaps, is_known};
ghost use Rattle.td_doc.specs.Allocation.{id_after};
ghost use Rattle.td_doc.specs.Insertion.{insert_atom, insert_run};
ghost use Rattle.td_doc.specs.Deletion.{delete, delete_at};
ghost use Rattle.td_doc.specs.Flatten.{flatten};
ghost use Rattle.td_doc.specs.Answers.{IsRow, IsFresh, IsSlotFault, IsAtomFault, is_row, is_live_id, is_rooted, row_told};
ghost use Rattle.td_doc.specs.Answers.{stands_before};

use crate::containment::contains_slot;
use std::alloc::Global;
use td_base::{Atom, AtomId, Bytes, Dot, Memory, Run};
use td_clock::Vector;
use td_path::Slot;
use thiserror::Error;

/// Why a document refuses a change. It is as before then.
#[derive(Clone, Copy, Debug, PartialEq, Eq, Error)]
pub enum DocFault {
    /// The atom is no row.
    #[error("the atom is not in the document")]
    Gone { id: AtomId },
    /// Want of memory, or more than `u32::MAX` rows.
    #[error("out of memory")]
    Memory,
}

impl From<Memory> for DocFault {
    ghost use Rattle.std.specs.Prelude.{◌≡◌};
    ghost use Rattle.td_doc.specs.declared.doc.DocFault.TheVariants.{Memory as OutOfMemory};

    ghost from_gives = { λ _ fault. fault ≡ OutOfMemory };

    fn from(_memory: Memory) -> DocFault {
        DocFault::Memory
    }
}

/// What a document tells of one of its rows.
#[derive(Clone, Copy, Debug, PartialEq, Eq)]
pub struct Row {
    pub id: AtomId,
    /// The slot in which the row stands.
    pub slot: Slot,
    pub atom: Atom,
    /// The number of its delete dots: 0 where it is live, else it is a tombstone.
    pub deletes: u32,
    /// The number of live rows before it.
    pub index: u32,
}

/// A Treedoc document, seen as the list of its rows (Preguiça et al. 2009).
pub trait Doc: Sized + Drop {
    /// The rows in infix order.
    ghost rows: { Self → List DocRow };

    /// A document with no rows.
    fn empty(alloc: Global) -> Result<Self, Memory>
        ensures { IfOk result (λ doc. rows doc ≡ []) };

    /// Puts an atom in a slot.
    fn insert(&mut self, slot: Slot, id: AtomId, atom: Atom) -> Result<(), DocFault>
        requires { IsNone (find_row id (rows self.old)) }
        ensures ok { OnOk result (IsTrue (is_rooted (rows self.old) slot)
            × (rows self.new ≡ insert_atom slot id atom (rows self.old))) }
        ensures fault { IfErr result (IsSlotFault (rows self.old) slot) }
        ensures err { OnErr result (rows self.new ≡ rows self.old) };

    /// Puts the array of an insert's run in a slot. Its atoms have the dot of the insert and their places in the run
    /// as identities.
    fn insert_run(&mut self, slot: Slot, dot: Dot, run: Run) -> Result<(), DocFault>
        requires { IsFresh (rows self.old) dot }
        ensures ok { OnOk result (IsTrue (is_rooted (rows self.old) slot)
            × (rows self.new ≡ insert_run slot dot run (rows self.old))) }
        ensures fault { IfErr result (IsSlotFault (rows self.old) slot) }
        ensures err { OnErr result (rows self.new ≡ rows self.old) };

    /// Adds the dot of a delete to a row, which is a tombstone from then on.
    fn delete(&mut self, id: AtomId, by: Dot) -> Result<(), DocFault>
        ensures ok { OnOk result (IsRow (rows self.old) id × (rows self.new ≡ delete id by (rows self.old))) }
        ensures fault { IfErr result (IsAtomFault (rows self.old) id) }
        ensures err { OnErr result (rows self.new ≡ rows self.old) };

    /// Makes an array of the live rows of a slot, and drops its tombstones.
    fn flatten(&mut self, slot: Slot) -> Result<(), DocFault>
        ensures ok { OnOk result (IsTrue (is_rooted (rows self.old) slot)
            × (rows self.new ≡ flatten slot (rows self.old))) }
        ensures fault { IfErr result (IsSlotFault (rows self.old) slot) }
        ensures err { OnErr result (rows self.new ≡ rows self.old) };

    /// The number of rows, tombstones included. Takes no memory, like all calls below but `push_text`.
    fn rows(&self) -> u32
        ensures { result ≡ length (rows self.now) };

    /// The number of live rows.
    fn live(&self) -> u32
        ensures { result ≡ length (live_rows (rows self.now)) };

    /// The atom that stands at an index among the live ones, from 0.
    fn live_at(&self, index: u32) -> Option<AtomId>
        ensures { result ≡ live_id_at (rows self.now) index };

    /// What is told of a row, where the atom is one.
    fn find(&self, id: AtomId) -> Option<Row>
        ensures { result ≡ row_told (rows self.now) id };

    /// The row that follows a row, or the first row.
    fn after(&self, id: Option<AtomId>) -> Option<AtomId>
        requires { ForSome id (IsRow (rows self.now)) }
        ensures { result ≡ id_after (rows self.now) id };

    /// The k-th dot, from 0 and in the order of dots, of the deletes that named a row; none where the atom is no row.
    fn delete_at(&self, id: AtomId, k: u32) -> Option<Dot>
        ensures { result ≡ delete_at (rows self.now) id k };

    /// Whether the slot contains no row.
    fn slot_empty(&self, slot: Slot) -> bool
        ensures { result ≡ is_empty_slot (rows self.now) slot };

    /// How many rows the slot contains, tombstones included.
    fn count(&self, slot: Slot) -> u32
        ensures { result ≡ length (rows_in_slot (rows self.now) slot) };

    /// Whether the atom is a row in the slot.
    fn within(&self, id: AtomId, slot: Slot) -> bool
        ensures { result ≡ is_within (rows self.now) id slot };

    /// Whether both atoms are rows, and the first stands before the second in infix order.
    fn stands_before(&self, first: AtomId, second: AtomId) -> bool
        ensures { result ≡ stands_before (rows self.now) first second };

    /// Whether one of the two slots contains the other.
    final fn overlaps(&self, a: Slot, b: Slot) -> bool
        requires first { IsTrue (is_rooted (rows self.now) a) }
        requires second { IsTrue (is_rooted (rows self.now) b) }
        ensures { result ≡ overlaps (rows self.now) a b }
    {
        contains_slot(self, &a, &b) || contains_slot(self, &b, &a)
    }

    /// Whether the vector has all that was done to the rows in the slot: the dots of their identities and of the
    /// deletes that named them.
    fn known(&self, slot: Slot, v: &Vector) -> bool
        ensures { result ≡ is_known (rows self.now) slot v.now };

    /// Adds the text at the end, in one pass over the rows. Alone of the calls that change nothing it takes memory.
    fn push_text(&self, text: &mut Bytes) -> Result<(), Memory>
        ensures ok { OnOk result (text.new ≡ text.old ++ text_of (rows self.now)) }
        ensures err { OnErr result (text.new ≡ text.old) };

    /// Whether the atom is a row, live or a tombstone.
    final fn is_row(&self, id: AtomId) -> bool
        ensures { result ≡ is_row (rows self.now) id }
    {
        // each row is in the root slot; `find` counts the live rows before it too
        self.within(id, Slot::Root)
    }

    /// Whether the atom is a live row.
    final fn is_live(&self, id: AtomId) -> bool
        ensures { result ≡ is_live_id (rows self.now) id }
    {
        self.is_row(id) && self.delete_at(id, 0).is_none()
    }
}
