// New rows among the rows of a document.
ghost use Rattle.std.specs.Prelude.{◌≡◌, ◌<◌, ◌≤◌, ◌+◌, ◌^◌, length, vec_len, vec_capacity, OnOk};
ghost use Rattle.td_doc.specs.Insertion.{put_rows};

use crate::path_row::PathRow;
use crate::search::place_of;
use td_base::Memory;

/// Makes room for more rows.
pub fn make_room(rows: &mut Vec<PathRow>, count: usize) -> Result<(), Memory>
    requires { length rows.old.items < 2 ^ 32 }
    ensures rows { rows.new.items ≡ rows.old.items }
    ensures few { OnOk result (length rows.old.items + count < 2 ^ 32) }
    ensures room { OnOk result (vec_len rows.new + count ≤ vec_capacity rows.new) }
{
    if count > u32::MAX as usize - rows.len() {
        return Err(Memory);
    }
    rows.reserve(count)?;
    Ok(())
}

/// Puts each of the new rows where the infix order has it, in the room that there is.
pub fn put_rows(rows: &mut Vec<PathRow>, new: Vec<PathRow>)
    requires { vec_len rows.old + length new.items ≤ vec_capacity rows.old }
    ensures { rows.new.items ≡ put_rows new.items rows.old.items }
{
    for row in new {
        let at = place_of(rows, &row);
        rows.insert(at, row).unwrap();
    }
}
