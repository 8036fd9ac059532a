ghost use Rattle.std.specs.Prelude.{◌≡◌, ◌≤◌, ◌⊎◌, ℕ, List, [], ◌∷◌, ◌++◌, length, take, drop, insert, Option, Some, None, IsNone, IsTrue, true};
ghost use Rattle.std.specs.Option.{ForSome};
ghost use Rattle.td_base.specs.Value.{DotValue, AtomIdValue};
ghost use Rattle.td_base.specs.Lists.{In};
ghost use Rattle.td_path.specs.declared.slot.Slot.{Slot};
ghost use Rattle.td_doc.specs.Document.{DocRow, row_id, find_row, live_rows, live_atoms, IsDocument};
ghost use Rattle.td_doc.specs.Allocation.{alloc, anchor};
ghost use Rattle.td_doc.specs.Array.{named};
ghost use Rattle.td_base.specs.RunAtoms.{NamedAtom, run_atoms};
ghost use Rattle.td_doc.specs.Slots.{is_empty_slot, is_within};
ghost use Rattle.td_doc.specs.Insertion.{insert_atom, insert_run, ComesBetween};
ghost use Rattle.td_doc.specs.Answers.{IsRow, IsFresh, is_rooted};
ghost use Rattle.td_doc.specs.Stretches.{IsPutTogether, RunBetween};

/// An atom put in the slot that is allocated after a row stands right after that row, tombstone or not; at the start
/// it stands first.
#[tactic(auto, using(crate::proofs::Placement::placed_first, crate::proofs::Placement::placed_after))]
pub fn what_is_placed_stands_there()
    ensures first { (rows : List DocRow) (id : AtomIdValue) (atom : List ℕ)
        → ComesBetween id atom [] rows (insert_atom (alloc rows None) id atom rows) }
    ensures after { (front : List DocRow) (r : DocRow) (back : List DocRow) → IsDocument (front ++ r ∷ back)
        → (id : AtomIdValue) (atom : List ℕ)
        → ComesBetween id atom (front ++ r ∷ []) back
        (insert_atom (alloc (front ++ r ∷ back) (Some (row_id r))) id atom (front ++ r ∷ back)) }
{}

/// So does a run: its atoms stand next to each other, in their order, right after the row that the run was placed
/// after, or first.
#[tactic(auto, using(crate::proofs::Placement::run_first, crate::proofs::Placement::run_after))]
pub fn a_run_stands_together()
    ensures first { (rows : List DocRow) → IsDocument rows → (dot : DotValue) (run : List (List ℕ))
        → RunBetween (run_atoms dot run) [] rows (insert_run (alloc rows None) dot run rows) }
    ensures after { (front : List DocRow) (r : DocRow) (back : List DocRow) → IsDocument (front ++ r ∷ back)
        → (dot : DotValue) (run : List (List ℕ))
        → RunBetween (run_atoms dot run) (front ++ r ∷ []) back
        (insert_run (alloc (front ++ r ∷ back) (Some (row_id r))) dot run (front ++ r ∷ back)) }
{}

/// Also in any other slot whose atom is a row a new run stands together, live and in order, and all else is as before.
#[tactic(auto, using(crate::proofs::Together::run_together))]
pub fn a_run_stands_together_in_any_slot()
    ensures { (rows : List DocRow) (slot : Slot) (dot : DotValue) (run : List (List ℕ)) → IsDocument rows
        → IsFresh rows dot → IsTrue (is_rooted rows slot)
        → IsPutTogether (run_atoms dot run) rows (insert_run slot dot run rows) }
{}

/// Typing is typing: an atom placed at an index stands at that index among the atoms shown, and no other atom moves.
#[tactic(auto, using(crate::proofs::Typing::typed))]
pub fn what_is_typed_stands_at_its_index()
    ensures { (rows : List DocRow) (index : ℕ) (id : AtomIdValue) (atom : List ℕ) → IsDocument rows
        → index ≤ length (live_rows rows)
        → live_atoms (insert_atom (alloc rows (anchor rows index)) id atom rows) ≡ insert (live_atoms rows) index atom }
{}

/// A run placed at an index stands there among the atoms shown, and no other atom moves.
#[tactic(auto, using(crate::proofs::Typing::run_typed))]
pub fn a_run_stands_at_its_index()
    ensures { (rows : List DocRow) (index : ℕ) (dot : DotValue) (run : List (List ℕ)) → IsDocument rows
        → index ≤ length (live_rows rows)
        → live_atoms (insert_run (alloc rows (anchor rows index)) dot run rows)
        ≡ take index (live_atoms rows) ++ run ++ drop index (live_atoms rows) }
{}

/// An atom with a new identity, put in a slot whose atom is a row, leaves a document. It is a row in the slot then, no
/// other row is added, and none goes.
#[tactic(auto, using(crate::proofs::Rules::insert_keeps, crate::proofs::AddedRows::insert_there, crate::proofs::Rules::insert_adds, crate::proofs::Rules::insert_stays))]
pub fn insertion_keeps_the_rules()
    ensures document { (rows : List DocRow) (slot : Slot) (id : AtomIdValue) (atom : List ℕ) → IsDocument rows
        → IsNone (find_row id rows) → IsTrue (is_rooted rows slot) → IsDocument (insert_atom slot id atom rows) }
    ensures there { (rows : List DocRow) (slot : Slot) (id : AtomIdValue) (atom : List ℕ) → IsDocument rows
        → IsNone (find_row id rows) → IsTrue (is_rooted rows slot)
        → is_within (insert_atom slot id atom rows) id slot ≡ true }
    ensures adds { (slot : Slot) (id : AtomIdValue) (atom : List ℕ) (rows : List DocRow) (s : DocRow)
        → In s (insert_atom slot id atom rows) → In s rows ⊎ (row_id s ≡ id) }
    ensures stays { (slot : Slot) (id : AtomIdValue) (atom : List ℕ) (rows : List DocRow) (s : DocRow) → In s rows
        → In s (insert_atom slot id atom rows) }
{}

/// A run of which no row has the dot, put in a slot whose atom is a row, leaves a document. Its atoms are rows in the
/// slot then, no other rows are added, and none goes.
#[tactic(auto, using(crate::proofs::Rules::run_keeps, crate::proofs::AddedRows::run_there, crate::proofs::Rules::run_adds, crate::proofs::Rules::run_stays))]
pub fn a_run_keeps_the_rules()
    ensures document { (rows : List DocRow) (slot : Slot) (dot : DotValue) (run : List (List ℕ)) → IsDocument rows
        → IsFresh rows dot → IsTrue (is_rooted rows slot) → IsDocument (insert_run slot dot run rows) }
    ensures there { (rows : List DocRow) (slot : Slot) (dot : DotValue) (run : List (List ℕ)) (a : NamedAtom)
        → IsDocument rows → IsFresh rows dot → IsTrue (is_rooted rows slot) → In a (run_atoms dot run)
        → is_within (insert_run slot dot run rows) a.id slot ≡ true }
    ensures adds { (slot : Slot) (dot : DotValue) (run : List (List ℕ)) (rows : List DocRow) (s : DocRow)
        → In s (insert_run slot dot run rows) → In s rows ⊎ In (named s) (run_atoms dot run) }
    ensures stays { (slot : Slot) (dot : DotValue) (run : List (List ℕ)) (rows : List DocRow) (s : DocRow) → In s rows
        → In s (insert_run slot dot run rows) }
{}

/// The slot that is allocated after a row, or at the start, has no row yet, and its atom is a row.
#[tactic(auto, using(crate::proofs::Rules::alloc_rooted, crate::proofs::Placement::alloc_empty))]
pub fn the_allocated_slot_is_empty()
    ensures rooted { (rows : List DocRow) (after : Option AtomIdValue) → ForSome after (IsRow rows)
        → IsTrue (is_rooted rows (alloc rows after)) }
    ensures empty { (rows : List DocRow) (after : Option AtomIdValue) → IsDocument rows
        → ForSome after (IsRow rows) → is_empty_slot rows (alloc rows after) ≡ true }
{}
