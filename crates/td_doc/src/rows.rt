ghost use Rattle.std.specs.Prelude.{◌≡◌, IfErr, IsTrue, OnErr, OnOk};
ghost use Rattle.td_doc.specs.Slots.{slot_path};
ghost use Rattle.td_doc.specs.Insertion.{put_array_below};
ghost use Rattle.td_doc.specs.Answers.{IsSlotFault, is_rooted};
ghost use Rattle.td_doc.specs.RowParts.{AreNew};

use crate::array::{array, run_atoms};
use crate::doc::{Doc, DocFault, Row};
use crate::flatten::flatten_rows;
use crate::insertion::{make_room, put_rows};
use crate::path_row::PathRow;
use crate::search::{count_live, find_row, live_at, live_before, next_id, place_of_id};
use crate::slots::{count, is_known, is_within, slot_is_empty, slot_path};
use crate::text::push_text;
use std::alloc::Global;
use std::marker::Model;
use td_base::{Atom, AtomId, Bytes, Dot, Memory, NamedAtom, Run};
use td_clock::Vector;
use td_path::{Slot, infix};

/// The plain document: a vector of rows with whole paths, in infix order. Each call looks through all rows, so it is
/// for small documents and for comparison.
#[derive(Debug, Drop)]
pub struct Rows {
    rows: Vec<PathRow>,
    alloc: Global,
}

impl Model for Rows {
    ghost use Rattle.std.specs.Prelude.{List};
    ghost use Rattle.td_doc.specs.Document.{DocRow};
    ghost use Rattle.td_doc.specs.RowParts.{IsRowParts};

    ghost Value = { List DocRow };

    ghost view = { λ d. d.rows.items };

    ghost invariant = { λ d. IsRowParts d.rows.items };
}

impl Doc for Rows {
    ghost rows = { λ d. d };

    fn empty(alloc: Global) -> Result<Rows, Memory> {
        Ok(Rows {
            rows: Vec::new(alloc),
            alloc,
        })
    }

    fn insert(&mut self, slot: Slot, id: AtomId, atom: Atom) -> Result<(), DocFault> {
        self.put_array(slot, &[NamedAtom { id, atom }])
    }

    fn insert_run(&mut self, slot: Slot, dot: Dot, run: Run) -> Result<(), DocFault> {
        let atoms = run_atoms(self.alloc, dot, &run)?;
        self.put_array(slot, &atoms)
    }

    fn delete(&mut self, id: AtomId, by: Dot) -> Result<(), DocFault> {
        match place_of_id(&self.rows, id) {
            Some(place) => Ok(self.rows[place].add_delete(by)?),
            None => Err(DocFault::Gone { id }),
        }
    }

    fn flatten(&mut self, slot: Slot) -> Result<(), DocFault> {
        let slot = slot_path(self.alloc, &self.rows, slot)?;
        flatten_rows(self.alloc, &mut self.rows, &slot)?;
        Ok(())
    }

    fn rows(&self) -> u32 {
        self.rows.len() as u32
    }

    fn live(&self) -> u32 {
        count_live(&self.rows) as u32
    }

    fn live_at(&self, index: u32) -> Option<AtomId> {
        live_at(&self.rows, index as usize)
    }

    fn find(&self, id: AtomId) -> Option<Row> {
        let row = find_row(&self.rows, id)?;
        Some(Row {
            id: row.id(),
            slot: row.own_slot(),
            atom: row.atom,
            deletes: row.deletes.len() as u32,
            index: live_before(&self.rows, id) as u32,
        })
    }

    fn after(&self, id: Option<AtomId>) -> Option<AtomId> {
        match id {
            Some(id) => next_id(&self.rows, id),
            None => self.rows.first().map(|row| row.id()),
        }
    }

    fn delete_at(&self, id: AtomId, k: u32) -> Option<Dot> {
        let row = find_row(&self.rows, id)?;
        row.deletes.get(k as usize).copied()
    }

    fn slot_empty(&self, slot: Slot) -> bool {
        slot_is_empty(&self.rows, slot)
    }

    fn count(&self, slot: Slot) -> u32 {
        count(&self.rows, slot) as u32
    }

    fn within(&self, id: AtomId, slot: Slot) -> bool {
        is_within(&self.rows, id, &slot)
    }

    fn stands_before(&self, first: AtomId, second: AtomId) -> bool {
        match (find_row(&self.rows, first), find_row(&self.rows, second)) {
            (Some(a), Some(b)) => infix(&a.path, &b.path).is_lt(),
            _ => false,
        }
    }

    fn known(&self, slot: Slot, v: &Vector) -> bool {
        is_known(&self.rows, slot, v)
    }

    fn push_text(&self, text: &mut Bytes) -> Result<(), Memory> {
        push_text(&self.rows, text)
    }
}

impl Rows {
    // Puts the array of the atoms in the slot.
    fn put_array(&mut self, slot: Slot, atoms: &[NamedAtom]) -> Result<(), DocFault>
        requires { AreNew self.old atoms.now }
        ensures ok { OnOk result (IsTrue (is_rooted self.old slot)
            × (self.new ≡ put_array_below (slot_path self.old slot) atoms.now self.old)) }
        ensures fault { IfErr result (IsSlotFault self.old slot) }
        ensures err { OnErr result (self.new ≡ self.old) }
    {
        let slot = slot_path(self.alloc, &self.rows, slot)?;
        let new = array(self.alloc, &slot, atoms)?;
        make_room(&mut self.rows, new.len())?;
        put_rows(&mut self.rows, new);
        Ok(())
    }
}
