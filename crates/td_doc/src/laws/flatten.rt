ghost use Rattle.std.specs.Prelude.{◌≡◌, ◌↔◌, List, true, false, map, Some};
ghost use Rattle.td_base.specs.Value.{AtomIdValue};
ghost use Rattle.td_path.specs.declared.slot.Slot.{Slot};
ghost use Rattle.td_path.specs.declared.slot_path.SlotPath.{SlotPath};
ghost use Rattle.td_doc.specs.Document.{DocRow, row_id, live_rows, text_of, IsDocument};
ghost use Rattle.td_doc.specs.Slots.{slot_path, rows_in_slot, is_within};
ghost use Rattle.td_doc.specs.Array.{named, array};
ghost use Rattle.td_doc.specs.Flatten.{flatten};
ghost use Rattle.td_doc.specs.Answers.{IsRow};
ghost use Rattle.td_doc.specs.Stretches.{IsReplaced, kept_rows};
ghost use Rattle.td_base.specs.Lists.{StandsBefore};
ghost use Rattle.td_doc.specs.Subtrees.{is_under, is_slot_under};

/// A flatten leaves a document.
#[tactic(auto, using(crate::proofs::Flattened::flatten_document))]
pub fn flatten_keeps_the_rules()
    ensures { (rows : List DocRow) (slot : Slot) → IsDocument rows → IsDocument (flatten slot rows) }
{}

/// Where the rows of the slot stood, the array of their live ones stands afterwards, and all other rows are as before.
#[tactic(auto, using(crate::proofs::Flattened::flatten_in_place))]
pub fn flatten_puts_an_array_in_place()
    ensures { (rows : List DocRow) (slot : Slot) (path : SlotPath) → IsDocument rows → slot_path rows slot ≡ Some path
        → IsReplaced (rows_in_slot rows slot) (array path (map named (live_rows (rows_in_slot rows slot)))) rows
        (flatten slot rows) }
{}

/// A flatten changes no text. All rows but the tombstones of the slot stay, in their order, with their identities,
/// atoms and delete dots.
#[tactic(auto, using(crate::proofs::Flattened::flatten_keeps_names, crate::proofs::Flattened::flatten_keeps_deletes, crate::proofs::Flattened::flatten_keeps_live, crate::proofs::Flattened::flatten_keeps_text))]
pub fn flatten_keeps_the_text()
    ensures rows { (rows : List DocRow) (slot : Slot) → IsDocument rows
        → map named (flatten slot rows) ≡ map named (kept_rows rows slot) }
    ensures deletes { (rows : List DocRow) (slot : Slot) → IsDocument rows
        → map (λ (r : DocRow). r.deletes) (flatten slot rows) ≡ map (λ (r : DocRow). r.deletes) (kept_rows rows slot) }
    ensures live { (rows : List DocRow) (slot : Slot) → IsDocument rows
        → map named (live_rows (flatten slot rows)) ≡ map named (live_rows rows) }
    ensures text { (rows : List DocRow) (slot : Slot) → IsDocument rows → text_of (flatten slot rows) ≡ text_of rows }
{}

/// Of any two rows that stay, both in the slot, both outside or one of each, the one that stood first stands first
/// afterwards. A row outside the slot, as one whose subtree has the slot, has afterwards the rows in its subtree that
/// it had, as far as they stay, and no others.
#[tactic(auto, using(crate::proofs::KeptOrder::flatten_order, crate::proofs::SubtreeRows::under_kept, crate::proofs::SubtreeRows::slot_above))]
pub fn flatten_keeps_order_and_subtrees()
    ensures order { (rows : List DocRow) (slot : Slot) (x y : AtomIdValue) → IsDocument rows
        → IsRow (flatten slot rows) x → IsRow (flatten slot rows) y
        → StandsBefore x y (map row_id (flatten slot rows)) ↔ StandsBefore x y (map row_id rows) }
    ensures subtrees { (rows : List DocRow) (slot : Slot) (b x : AtomIdValue) → IsDocument rows → IsRow rows b
        → is_within rows b slot ≡ false → IsRow (flatten slot rows) x
        → is_under (flatten slot rows) b x ≡ is_under rows b x }
    ensures above { (rows : List DocRow) (b : AtomIdValue) (slot : Slot) → IsDocument rows
        → is_slot_under rows b slot ≡ true → is_within rows b slot ≡ false }
{}
