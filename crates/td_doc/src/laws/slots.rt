ghost use Rattle.std.specs.Prelude.{◌≡◌, List, true, false};
ghost use Rattle.td_base.specs.Value.{AtomIdValue};
ghost use Rattle.td_path.specs.declared.slot.Slot.{Slot};
ghost use Rattle.td_doc.specs.Document.{DocRow, IsDocument};
ghost use Rattle.td_doc.specs.Slots.{rows_in_slot, is_within, overlaps};
ghost use Rattle.td_doc.specs.Flatten.{flatten};
ghost use Rattle.td_doc.specs.Stretches.{IsStretch};
ghost use Rattle.td_doc.specs.Subtrees.{rows_under};

/// The rows of a slot stand next to each other in the document, and so do those in the subtree of a row.
#[tactic(auto, using(crate::proofs::SlotRows::slot_together, crate::proofs::SubtreeRows::subtree_together))]
pub fn rows_of_a_slot_stand_together()
    ensures slot { (rows : List DocRow) (slot : Slot) → IsDocument rows → IsStretch (rows_in_slot rows slot) rows }
    ensures subtree { (rows : List DocRow) (id : AtomIdValue) → IsDocument rows → IsStretch (rows_under rows id) rows }
{}

/// Slots that do not overlap have no row in common, and a flatten at one of them leaves the rows of the other as they
/// are. To overlap is mutual.
#[tactic(auto, using(crate::proofs::ApartSlots::overlaps_mutual, crate::proofs::ApartSlots::no_common_row, crate::proofs::ApartSlots::other_slot))]
pub fn slots_apart_share_no_row()
    ensures mutual { (rows : List DocRow) (s t : Slot) → overlaps rows s t ≡ overlaps rows t s }
    ensures apart { (rows : List DocRow) → IsDocument rows → (s t : Slot) (id : AtomIdValue) → overlaps rows s t ≡ false
        → is_within rows id s ≡ true → is_within rows id t ≡ false }
    ensures untouched { (rows : List DocRow) → IsDocument rows → (s t : Slot) → overlaps rows s t ≡ false
        → rows_in_slot (flatten s rows) t ≡ rows_in_slot rows t }
{}
