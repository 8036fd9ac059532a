// What the definitions of paths come to.
ghost use Rattle.std.specs.Prelude.{◌≡◌, ◌<◌, ◌≤◌, ◌^◌, ℕ, ◌∷◌, ◌++◌, true, false, length, slice_get, Some};
ghost use Rattle.std.specs.Cmp.{IsTotalOrder};
ghost use Rattle.std.specs.declared.cmp.Ordering.TheVariants.{Less, Equal};
ghost use Rattle.td_base.specs.declared.bit.Bit.TheVariants.{Left, Right};
ghost use Rattle.td_base.specs.Value.{AtomIdValue};
ghost use Rattle.td_path.specs.Infix.{Pairs, path_cmp};
ghost use Rattle.td_path.specs.SlotPaths.{goes_on, slot_contains, slots_overlap};
ghost use Rattle.td_path.specs.declared.slot_path.SlotPath.{SlotPath};
ghost use Rattle.td_path.specs.declared.slot.Slot.{Slot};
ghost use Rattle.td_path.specs.Slot.{same_slot};
ghost use Rattle.td_path.specs.Shape.{Bits, shape, shape_index, bits_cmp};

use crate::slot::Slot;

/// The infix order is a total order, and tells different paths apart.
#[tactic(auto, using(crate::proofs::InfixOrder::path_total, crate::proofs::InfixOrder::equal_paths))]
pub fn infix_is_a_total_order()
    ensures total { IsTotalOrder path_cmp }
    ensures apart { (p q : Pairs) → path_cmp p q ≡ Equal → p ≡ q }
{}

/// A node stands after all that hangs on its left and before all that hangs on its right, and what stands between the
/// node and something that hangs on one side hangs on that side too. So the rows of a slot stand next to each other.
#[tactic(auto, using(crate::proofs::InfixOrder::left_before, crate::proofs::InfixOrder::right_after, crate::proofs::InfixOrder::between_left, crate::proofs::InfixOrder::between_right))]
pub fn slots_stand_beside_their_node()
    ensures left { (p rest : Pairs) (x : AtomIdValue) → path_cmp (p ++ (Left, x) ∷ rest) p ≡ Less }
    ensures right { (p rest : Pairs) (x : AtomIdValue) → path_cmp p (p ++ (Right, x) ∷ rest) ≡ Less }
    ensures left_together { (p q rest : Pairs) (x : AtomIdValue) → path_cmp (p ++ (Left, x) ∷ rest) q ≡ Less
        → path_cmp q p ≡ Less → goes_on p Left q ≡ true }
    ensures right_together { (p q rest : Pairs) (x : AtomIdValue) → path_cmp p q ≡ Less
        → path_cmp q (p ++ (Right, x) ∷ rest) ≡ Less → goes_on p Right q ≡ true }
{}

/// Of two slots that do not overlap none contains a path that the other contains. To overlap is mutual.
#[tactic(auto, using(crate::proofs::SlotOverlap::overlap_both_ways, crate::proofs::SlotOverlap::apart_where_no_overlap))]
pub fn slots_that_do_not_overlap_are_apart()
    ensures mutual { (s t : SlotPath) → slots_overlap s t ≡ slots_overlap t s }
    ensures apart { (s t : SlotPath) (p : Pairs) → slots_overlap s t ≡ false → slot_contains s p ≡ true
        → slot_contains t p ≡ false }
{}

/// Slots are equal where their parts are, and then they are one.
#[tactic(auto, using(crate::proofs::SlotEquals::same_slot_true))]
pub fn equal_slots_are_one()
    ensures same { (s t : Slot) → ⟦<Slot as PartialEq>⟧.eq s t ≡ same_slot s t }
    ensures one { (s t : Slot) → same_slot s t ≡ true → s ≡ t }
{}

/// An array has one bit path for each atom, and the path leads back to the atom and to no other. Paths stand in the
/// order of the array, and are short: the atom that the longest path leads to is at a depth of at most the binary
/// logarithm of the number of atoms.
#[tactic(auto, using(crate::proofs::ArrayShape::shape_length, crate::proofs::ArrayShape::index_of_path, crate::proofs::ArrayShape::path_of_index, crate::proofs::ArrayShape::shape_order, crate::proofs::ArrayShape::shape_depth))]
pub fn an_array_has_a_short_path_for_each_atom()
    ensures one_each { (k : ℕ) → length (shape k) ≡ k }
    ensures there { (bits : Bits) (k i : ℕ) → shape_index k bits ≡ Some i → slice_get (shape k) i ≡ Some bits }
    ensures back { (bits : Bits) (k i : ℕ) → slice_get (shape k) i ≡ Some bits → shape_index k bits ≡ Some i }
    ensures ordered { (b c : Bits) (k i j : ℕ) → i < j → slice_get (shape k) i ≡ Some b → slice_get (shape k) j ≡ Some c
        → bits_cmp b c ≡ Less }
    ensures short { (bits : Bits) (k i : ℕ) → slice_get (shape k) i ≡ Some bits → 2 ^ length bits ≤ k }
{}
