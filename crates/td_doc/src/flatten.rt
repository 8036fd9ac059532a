// Flatten of the rows of a document.
ghost use Rattle.std.specs.Prelude.{◌≡◌, map, IfOk, OnErr, OnOk, Some};
ghost use Rattle.td_doc.specs.Document.{live_rows};
ghost use Rattle.td_doc.specs.Slots.{rows_below};
ghost use Rattle.td_doc.specs.Array.{named};
ghost use Rattle.td_doc.specs.Flatten.{flatten_below};

use crate::array::array;
use crate::insertion::put_rows;
use crate::path_row::PathRow;
use std::alloc::Global;
use td_base::{Memory, NamedAtom};
use td_path::{SlotPath, contains};

/// Makes an array of the live rows in the slot, and drops its tombstones. The rows that go leave room for the new
/// ones.
pub fn flatten_rows(alloc: Global, rows: &mut Vec<PathRow>, slot: &SlotPath) -> Result<(), Memory>
    ensures ok { OnOk result (rows.new.items ≡ flatten_below (Some slot.now) rows.old.items) }
    ensures err { OnErr result (rows.new.items ≡ rows.old.items) }
{
    let atoms = live_atoms(alloc, rows, slot)?;
    let new = array(alloc, slot, &atoms)?;
    rows.retain(|row| !contains(slot, &row.path));
    put_rows(rows, new);
    Ok(())
}

// The atoms of the live rows in the slot, in order.
fn live_atoms(alloc: Global, rows: &[PathRow], slot: &SlotPath) -> Result<Vec<NamedAtom>, Memory>
    ensures { IfOk result (λ atoms. atoms.items ≡ map named (live_rows (rows_below rows.now (Some slot.now)))) }
{
    let mut atoms = Vec::new(alloc);
    for row in rows {
        if contains(slot, &row.path) && row.is_live() {
            atoms.push(row.named())?;
        }
    }
    Ok(atoms)
}
