// What a document asks of its rows, as a walk over all of them.
ghost use Rattle.std.specs.Prelude.{◌≡◌, ◌<◌, ◌≤◌, length, IfSome};
ghost use Rattle.std.specs.Option.{option_copied};
ghost use Rattle.std.specs.List.{position, position_or_len};
ghost use Rattle.std.specs.Ordering.{is_lt};
ghost use Rattle.td_path.specs.Infix.{path_cmp};
ghost use Rattle.td_doc.specs.Document.{DocRow, find_row, has_id, live_id_at, live_rows};
ghost use Rattle.td_doc.specs.Allocation.{next_id};
ghost use Rattle.td_doc.specs.Answers.{live_before};

use crate::path_row::PathRow;
use td_base::AtomId;
use td_path::infix;

/// The row of an atom.
pub fn find_row(rows: &[PathRow], id: AtomId) -> Option<&PathRow>
    ensures { option_copied result ≡ find_row id rows.now }
{
    rows.iter().find(|row| row.has_id(id))
}

/// The place of the row of an atom.
pub fn place_of_id(rows: &[PathRow], id: AtomId) -> Option<usize>
    ensures value { result ≡ position (has_id id) rows.now }
    ensures bound { IfSome result (λ place. place < length rows.now) }
{
    rows.iter().position(|row| row.has_id(id))
}

/// How many rows stand before a new row.
#[tactic(auto, using(td_base::proofs::Searches::first_or_length))]
pub fn place_of(rows: &[PathRow], new: &PathRow) -> usize
    ensures value { result ≡ position_or_len (λ (r : DocRow). is_lt (path_cmp new.now.path r.path)) rows.now }
    ensures bound { result ≤ length rows.now }
{
    first_after(rows, new).unwrap_or(rows.len())
}

// The place of the first row that stands after a new row.
fn first_after(rows: &[PathRow], new: &PathRow) -> Option<usize>
    ensures value { result ≡ position (λ (r : DocRow). is_lt (path_cmp new.now.path r.path)) rows.now }
    ensures bound { IfSome result (λ place. place < length rows.now) }
{
    rows.iter()
        .position(|row| infix(&new.path, &row.path).is_lt())
}

/// The number of live rows.
pub fn count_live(rows: &[PathRow]) -> usize
    ensures value { result ≡ length (live_rows rows.now) }
    ensures bound { result ≤ length rows.now }
{
    rows.iter().filter(|row| row.is_live()).count()
}

/// The atom of the live row at an index among them.
pub fn live_at(rows: &[PathRow], index: usize) -> Option<AtomId>
    ensures { result ≡ live_id_at rows.now index }
{
    let mut left = index;
    for row in rows {
        if row.is_live() {
            if left == 0 {
                return Some(row.id());
            }
            left -= 1;
        }
    }
    None
}

/// The number of live rows before the row of an atom.
pub fn live_before(rows: &[PathRow], id: AtomId) -> usize
    ensures value { result ≡ live_before id rows.now }
    ensures bound { result ≤ length rows.now }
{
    let mut live = 0;
    for row in rows {
        if row.has_id(id) {
            return live;
        }
        if row.is_live() {
            live += 1;
        }
    }
    live
}

/// The row that follows the row of an atom.
pub fn next_id(rows: &[PathRow], id: AtomId) -> Option<AtomId>
    ensures { result ≡ next_id id rows.now }
{
    let mut is_next = false;
    for row in rows {
        if is_next {
            return Some(row.id());
        }
        is_next = row.has_id(id);
    }
    None
}
