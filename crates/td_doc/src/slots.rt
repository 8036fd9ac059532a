// Slots, read in the rows of a document.
ghost use Rattle.std.specs.Prelude.{◌≡◌, ◌≤◌, ◌||◌, ◌&&◌, not, filter, length, IfErr, IfOk, IsTrue, OnOk, Some};
ghost use Rattle.std.specs.List.{list_any, list_all};
ghost use Rattle.td_path.specs.SlotPaths.{goes_on};
ghost use Rattle.td_doc.specs.Document.{DocRow, has_id};
ghost use Rattle.td_doc.specs.Slots.{is_empty_slot, is_known, is_known_row, is_within, rows_in_slot, slot_path};
ghost use Rattle.td_doc.specs.Answers.{IsSlotFault, is_rooted};

use crate::doc::DocFault;
use crate::path_row::PathRow;
use crate::search::find_row;
use std::alloc::Global;
use td_base::{AtomId, Bit};
use td_clock::Vector;
use td_path::{Path, Slot, SlotPath, goes_on};

/// The slot by the path of its atom.
pub fn slot_path(alloc: Global, rows: &[PathRow], slot: Slot) -> Result<SlotPath, DocFault>
    ensures ok { IfOk result (λ path. slot_path rows.now slot ≡ Some path) }
    ensures rooted { OnOk result (IsTrue (is_rooted rows.now slot)) }
    ensures fault { IfErr result (IsSlotFault rows.now slot) }
{
    match slot {
        Slot::Root => Ok(SlotPath::Root),
        Slot::At { atom, bit } => match find_row(rows, atom) {
            Some(row) => Ok(SlotPath::Below {
                path: row.path.try_clone()?,
                bit,
            }),
            None => Err(DocFault::Gone { id: atom }),
        },
    }
}

/// Whether no row is in the slot.
#[tactic(auto, using(crate::proofs::RowLists::none_pass, crate::proofs::RowLists::none_of_all))]
pub fn slot_is_empty(rows: &[PathRow], slot: Slot) -> bool
    ensures { result ≡ is_empty_slot rows.now slot }
{
    match slot {
        Slot::Root => rows.is_empty(),
        Slot::At { atom, bit } => match find_row(rows, atom) {
            Some(row) => !has_row_below(rows, &row.path, bit),
            None => true,
        },
    }
}

// Whether a row hangs on this side of the node at the path.
fn has_row_below(rows: &[PathRow], path: &Path, bit: Bit) -> bool
    ensures { result ≡ list_any (λ (r : DocRow). goes_on path.now bit r.path) rows.now }
{
    rows.iter().any(|row| goes_on(path, bit, &row.path))
}

/// How many rows the slot contains.
pub fn count(rows: &[PathRow], slot: Slot) -> usize
    ensures value { result ≡ length (rows_in_slot rows.now slot) }
    ensures bound { result ≤ length rows.now }
{
    match slot {
        Slot::Root => rows.len(),
        Slot::At { atom, bit } => match find_row(rows, atom) {
            Some(row) => count_below(rows, &row.path, bit),
            None => 0,
        },
    }
}

// How many rows hang on this side of the node at the path.
fn count_below(rows: &[PathRow], path: &Path, bit: Bit) -> usize
    ensures value { result ≡ length (filter (λ (r : DocRow). goes_on path.now bit r.path) rows.now) }
    ensures bound { result ≤ length rows.now }
{
    rows.iter()
        .filter(|row| goes_on(path, bit, &row.path))
        .count()
}

/// Whether the atom is a row in the slot.
pub fn is_within(rows: &[PathRow], id: AtomId, slot: &Slot) -> bool
    ensures { result ≡ is_within rows.now id slot.now }
{
    match slot {
        Slot::Root => has_row(rows, id),
        Slot::At { atom, bit } => match find_row(rows, *atom) {
            Some(row) => has_id_below(rows, &row.path, *bit, id),
            None => false,
        },
    }
}

fn has_row(rows: &[PathRow], id: AtomId) -> bool
    ensures { result ≡ list_any (has_id id) rows.now }
{
    rows.iter().any(|row| row.has_id(id))
}

// Whether the atom is a row that hangs on this side of the node at the path.
fn has_id_below(rows: &[PathRow], path: &Path, bit: Bit, id: AtomId) -> bool
    ensures { result ≡ list_any (λ (r : DocRow). goes_on path.now bit r.path && has_id id r) rows.now }
{
    rows.iter()
        .any(|row| goes_on(path, bit, &row.path) && row.has_id(id))
}

/// Whether the vector has all that was done to the rows in the slot.
pub fn is_known(rows: &[PathRow], slot: Slot, v: &Vector) -> bool
    ensures { result ≡ is_known rows.now slot v.now }
{
    match slot {
        Slot::Root => are_known(rows, v),
        Slot::At { atom, bit } => match find_row(rows, atom) {
            Some(row) => is_known_below(rows, &row.path, bit, v),
            None => true,
        },
    }
}

fn are_known(rows: &[PathRow], v: &Vector) -> bool
    ensures { result ≡ list_all (is_known_row v.now) rows.now }
{
    rows.iter().all(|row| row.is_known(v))
}

// Whether the vector has all that was done to the rows on this side of the node at the path.
fn is_known_below(rows: &[PathRow], path: &Path, bit: Bit, v: &Vector) -> bool
    ensures { result ≡ list_all (λ (r : DocRow). not (goes_on path.now bit r.path) || is_known_row v.now r) rows.now }
{
    rows.iter()
        .all(|row| !goes_on(path, bit, &row.path) || row.is_known(v))
}
