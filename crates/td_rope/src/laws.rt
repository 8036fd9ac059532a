// What widths and offsets come to, each law as the contract of a function with an empty body.
ghost use Rattle.std.specs.Prelude.{◌≡◌, ◌≤◌, ℕ, List, length, flat_map, chars, All, IsUtf8};
ghost use Rattle.std.specs.Char.Escape.{encode_utf16};
ghost use Rattle.td_base.specs.Atom.{IsAtom};
ghost use Rattle.td_rope.specs.declared.unit.Unit.{Unit};
ghost use Rattle.td_rope.specs.declared.unit.Unit.TheVariants.{Byte, CodePoint, Utf16};
ghost use Rattle.td_rope.specs.Units.{IsIndexOf, offset_of, width};

/// The width of a text is the number of its bytes, of its code points, or of the units that UTF-16 has for them.
pub fn widths_count_units()
    ensures bytes { (text : List ℕ) → width Byte text ≡ length text }
    ensures points { (text : List ℕ) → IsUtf8 text → width CodePoint text ≡ length (chars text) }
    ensures utf16 { (text : List ℕ) → IsUtf8 text → width Utf16 text ≡ length (flat_map encode_utf16 (chars text)) }
{}

/// No offset lies in two atoms.
pub fn an_offset_has_one_index()
    ensures { (unit : Unit) (atoms : List (List ℕ)) (offset i j : ℕ) → IsIndexOf unit atoms offset i
        → IsIndexOf unit atoms offset j → i ≡ j }
{}

/// The offset of an atom lies in it.
#[tactic(auto, using(crate::proofs::Standard::leads_back))]
pub fn an_offset_leads_back()
    ensures { (unit : Unit) (atoms : List (List ℕ)) (index : ℕ) → All IsAtom atoms → index ≤ length atoms
        → IsIndexOf unit atoms (offset_of unit atoms index) index }
{}
