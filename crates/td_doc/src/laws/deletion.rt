ghost use Rattle.std.specs.Prelude.{◌≡◌, ◌≢◌, List, not, filter, map};
ghost use Rattle.td_base.specs.Value.{DotValue, AtomIdValue};
ghost use Rattle.td_base.specs.Lists.{In};
ghost use Rattle.td_doc.specs.Document.{DocRow, row_id, has_id, live_rows, IsDocument};
ghost use Rattle.td_doc.specs.Array.{named};
ghost use Rattle.td_doc.specs.Deletion.{delete};

/// A delete leaves a document. No row moves, and each keeps its identity and its atom.
#[tactic(auto, using(crate::proofs::Deleted::delete_document, crate::proofs::Deleted::delete_paths, crate::proofs::Deleted::delete_names))]
pub fn a_delete_keeps_the_rules()
    ensures document { (id : AtomIdValue) (by : DotValue) (rows : List DocRow) → IsDocument rows
        → IsDocument (delete id by rows) }
    ensures paths { (id : AtomIdValue) (by : DotValue) (rows : List DocRow)
        → map (λ (r : DocRow). r.path) (delete id by rows) ≡ map (λ (r : DocRow). r.path) rows }
    ensures atoms { (id : AtomIdValue) (by : DotValue) (rows : List DocRow)
        → map named (delete id by rows) ≡ map named rows }
{}

/// The row that a delete names has its dot, so it is a tombstone, and each other row is as before. So one atom goes
/// from the text, and the others stay in their order.
#[tactic(auto, using(crate::proofs::Deleted::delete_marks, crate::proofs::Deleted::delete_leaves, crate::proofs::Deleted::delete_live))]
pub fn a_delete_marks_one_row()
    ensures marked { (id : AtomIdValue) (by : DotValue) (rows : List DocRow) (r : DocRow) → In r (delete id by rows)
        → row_id r ≡ id → In by r.deletes }
    ensures others { (id : AtomIdValue) (by : DotValue) (rows : List DocRow) (r : DocRow) → In r rows → row_id r ≢ id
        → In r (delete id by rows) }
    ensures live { (id : AtomIdValue) (by : DotValue) (rows : List DocRow)
        → live_rows (delete id by rows) ≡ filter (λ (r : DocRow). not (has_id id r)) (live_rows rows) }
{}
