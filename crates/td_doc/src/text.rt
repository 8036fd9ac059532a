// The text that rows show.
ghost use Rattle.std.specs.Prelude.{◌≡◌, ◌++◌, OnErr, OnOk, length, take};
ghost use Rattle.td_doc.specs.Document.{text_of};

use crate::path_row::PathRow;
use td_base::{Bytes, Memory};

/// Adds the text of the rows at the end. What was added when memory ran out is taken off again.
pub fn push_text(rows: &[PathRow], text: &mut Bytes) -> Result<(), Memory>
    ensures ok { OnOk result (text.new ≡ text.old ++ text_of rows.now) }
    ensures err { OnErr result (text.new ≡ text.old) }
{
    let len = text.as_slice().len();
    let pushed = push_atoms(rows, text);
    if pushed.is_err() {
        text.truncate(len);
    }
    pushed
}

// Adds the atoms of the live rows at the end, as many as there is memory for.
fn push_atoms(rows: &[PathRow], text: &mut Bytes) -> Result<(), Memory>
    ensures ok { OnOk result (text.new ≡ text.old ++ text_of rows.now) }
    ensures front { take (length text.old) text.new ≡ text.old }
{
    for row in rows {
        if row.is_live() {
            text.push(row.atom.bytes())?;
        }
    }
    Ok(())
}
