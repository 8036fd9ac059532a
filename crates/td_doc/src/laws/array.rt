ghost use Rattle.std.specs.Prelude.{◌≡◌, List, true, map, length};
ghost use Rattle.std.specs.declared.cmp.Ordering.TheVariants.{Less};
ghost use Rattle.td_base.specs.Lists.{In, Successive};
ghost use Rattle.td_path.specs.Infix.{path_cmp};
ghost use Rattle.td_path.specs.SlotPaths.{slot_contains};
ghost use Rattle.td_path.specs.Shape.{shape};
ghost use Rattle.td_path.specs.declared.slot_path.SlotPath.{SlotPath};
ghost use Rattle.td_doc.specs.Document.{DocRow, live_rows};
ghost use Rattle.td_doc.specs.Array.{named, array};
ghost use Rattle.td_base.specs.RunAtoms.{NamedAtom};
ghost use Rattle.td_doc.specs.Subtrees.{bits_in};

/// The rows of an array have its atoms in their order. They are live, stand in infix order and all in the slot, and
/// hang there by the bits of the shape.
#[tactic(auto, using(crate::proofs::ArrayRows::array_names, crate::proofs::ArrayRows::array_live, crate::proofs::ArrayRows::array_order, crate::proofs::SlotRows::contained_in, crate::proofs::ArrayBits::array_bits))]
pub fn an_array_has_its_atoms_in_their_order()
    ensures atoms { (slot : SlotPath) (atoms : List NamedAtom) → map named (array slot atoms) ≡ atoms }
    ensures live { (slot : SlotPath) (atoms : List NamedAtom) → live_rows (array slot atoms) ≡ array slot atoms }
    ensures ascending { (slot : SlotPath) (atoms : List NamedAtom)
        → Successive (λ (r s : DocRow). path_cmp r.path s.path ≡ Less) (array slot atoms) }
    ensures inside { (slot : SlotPath) (atoms : List NamedAtom) (r : DocRow) → In r (array slot atoms)
        → slot_contains slot r.path ≡ true }
    ensures bits { (slot : SlotPath) (atoms : List NamedAtom)
        → map (λ (r : DocRow). bits_in slot r.path) (array slot atoms) ≡ shape (length atoms) }
{}
