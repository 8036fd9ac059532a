ghost use Rattle.std.specs.Prelude.{◌≡◌, ℕ, suc, List, Some, None, IsTrue, IsFalse, remove};
ghost use Rattle.std.specs.List.{insert_slice};
ghost use Rattle.td_base.specs.Value.{DotValue, AtomIdValue};
ghost use Rattle.td_path.specs.declared.slot.Slot.{Slot};
ghost use Rattle.td_doc.specs.Document.{DocRow, live_rows, live_atoms, live_id_at, IsDocument};
ghost use Rattle.td_doc.specs.Allocation.{alloc};
ghost use Rattle.td_doc.specs.Insertion.{insert_run};
ghost use Rattle.td_doc.specs.Deletion.{delete};
ghost use Rattle.td_doc.specs.Flatten.{flatten};
ghost use Rattle.td_doc.specs.Answers.{IsFresh, is_live_id, is_rooted, live_before};

/// The index that is told of a live row is the one at which it is found, and back.
#[tactic(auto, using(crate::proofs::LiveIndex::found_at_index, crate::proofs::LiveIndex::index_of_found))]
pub fn a_live_row_is_found_at_its_index()
    ensures found { (rows : List DocRow) (id : AtomIdValue) → IsDocument rows → IsTrue (is_live_id rows id)
        → live_id_at rows (live_before id rows) ≡ Some id }
    ensures told { (rows : List DocRow) (index : ℕ) (id : AtomIdValue) → IsDocument rows
        → live_id_at rows index ≡ Some id → live_before id rows ≡ index }
{}

/// What a run does to the atoms shown, in any slot whose atom is a row: its atoms stand where the first of them
/// stands, and no other moves. After a live row that is right behind it, and at the start before all.
#[tactic(auto, using(crate::proofs::LiveIndex::run_put, crate::proofs::LiveIndex::run_put_after, crate::proofs::LiveIndex::run_put_first))]
pub fn a_run_is_put_among_the_atoms_shown()
    ensures slot { (rows : List DocRow) (slot : Slot) (dot : DotValue) (run : List (List ℕ)) → IsDocument rows
        → IsFresh rows dot → IsTrue (is_rooted rows slot) → live_atoms (insert_run slot dot run rows)
        ≡ insert_slice (live_atoms rows)
        (live_before (record { dot = dot; offset = 0 }) (insert_run slot dot run rows)) run }
    ensures after { (rows : List DocRow) (id : AtomIdValue) (dot : DotValue) (run : List (List ℕ)) → IsDocument rows
        → IsTrue (is_live_id rows id) → live_atoms (insert_run (alloc rows (Some id)) dot run rows)
        ≡ insert_slice (live_atoms rows) (suc (live_before id rows)) run }
    ensures first { (rows : List DocRow) (dot : DotValue) (run : List (List ℕ)) → IsDocument rows
        → live_atoms (insert_run (alloc rows None) dot run rows) ≡ insert_slice (live_atoms rows) 0 run }
{}

/// What a delete does to them: the atom at an index goes, and no other moves. A tombstone is not shown, so its delete
/// changes nothing, and nor does one of no row.
#[tactic(auto, using(crate::proofs::LiveIndex::deleted_at, crate::proofs::LiveIndex::delete_cuts, crate::proofs::LiveIndex::delete_again))]
pub fn a_delete_cuts_one_atom_shown()
    ensures index { (rows : List DocRow) (index : ℕ) (id : AtomIdValue) (by : DotValue) → IsDocument rows
        → live_id_at rows index ≡ Some id → live_rows (delete id by rows) ≡ remove (live_rows rows) index }
    ensures live { (rows : List DocRow) (id : AtomIdValue) (by : DotValue) → IsDocument rows
        → IsTrue (is_live_id rows id)
        → live_atoms (delete id by rows) ≡ remove (live_atoms rows) (live_before id rows) }
    ensures again { (rows : List DocRow) (id : AtomIdValue) (by : DotValue) → IsDocument rows
        → IsFalse (is_live_id rows id) → live_rows (delete id by rows) ≡ live_rows rows }
{}

/// A flatten does nothing to them.
#[tactic(auto, using(crate::proofs::LiveIndex::flatten_shows))]
pub fn a_flatten_changes_no_atom_shown()
    ensures { (rows : List DocRow) (slot : Slot) → IsDocument rows → live_atoms (flatten slot rows) ≡ live_atoms rows }
{}
