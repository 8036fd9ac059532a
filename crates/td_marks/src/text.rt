ghost use Rattle.std.specs.Prelude.{◌≡◌, ◌+◌, take, IfOk, OnOk};
ghost use Rattle.td_doc.specs.Document.{IsDocument};
ghost use Rattle.td_marks.specs.Text.{joined, marked_atoms, marked_text};

use crate::marks::Marks;
use crate::piece::{Piece, add_atom};
use std::alloc::Global;
use td_base::Memory;
use td_doc::Doc;

/// The marked text of a document: its live atoms with their names, in the longest pieces with equal names. One pass
/// over the atoms.
pub fn marked_text<D: Doc>(alloc: Global, marks: &Marks, doc: &D) -> Result<Vec<Piece>, Memory>
    ensures { IsDocument (D.rows doc.now)
        → IfOk result (λ pieces. pieces.items ≡ marked_text marks.now.ops (D.rows doc.now)) }
{
    let mut pieces = Vec::new(alloc);
    for index in 0..doc.live() {
        add_live(&mut pieces, alloc, marks, doc, index)?;
    }
    Ok(pieces)
}

// Puts the live atom at an index behind those before it.
fn add_live<D: Doc>(
    pieces: &mut Vec<Piece>,
    alloc: Global,
    marks: &Marks,
    doc: &D,
    index: u32,
) -> Result<(), Memory>
    ensures { IsDocument (D.rows doc.now) → OnOk result
        (pieces.old.items ≡ joined (take index (marked_atoms marks.now.ops (D.rows doc.now)))
        → pieces.new.items ≡ joined (take (index + 1) (marked_atoms marks.now.ops (D.rows doc.now)))) }
{
    let Some(id) = doc.live_at(index) else {
        return Ok(());
    };
    match doc.find(id) {
        Some(row) => add_atom(pieces, alloc, row.atom.bytes(), marks.names(id)),
        None => Ok(()),
    }
}
