// The derived orders and equalities are those of the definitions.
ghost use Rattle.std.specs.Prelude.{◌≡◌, ◌↔◌};
ghost use Rattle.std.specs.declared.cmp.Ordering.TheVariants.{Equal};
ghost use Rattle.td_base.specs.Value.{DotValue, AtomIdValue};
ghost use Rattle.td_base.specs.Order.{dot_cmp, id_cmp, bit_cmp};
ghost use Rattle.td_base.specs.Equality.{same_bit, same_dot, same_id};
ghost use Rattle.td_base.specs.declared.bit.Bit.{Bit};

use crate::atom_id::AtomId;
use crate::bit::Bit;
use crate::dot::Dot;

/// Dots compare by site, then by seq, and are equal where both are.
pub fn dots_are_ordered()
    ensures same { (d e : DotValue) → ⟦<Dot as PartialEq>⟧.eq d e ≡ same_dot d e }
    ensures order { (d e : DotValue) → ⟦<Dot as Ord>⟧.cmp d e ≡ dot_cmp d e }
    ensures equal { (d e : DotValue) → (dot_cmp d e ≡ Equal) ↔ (d ≡ e) }
{}

/// Identities compare by dot, then by offset, and are equal where both are.
pub fn identities_are_ordered()
    ensures same { (x y : AtomIdValue) → ⟦<AtomId as PartialEq>⟧.eq x y ≡ same_id x y }
    ensures order { (x y : AtomIdValue) → ⟦<AtomId as Ord>⟧.cmp x y ≡ id_cmp x y }
    ensures equal { (x y : AtomIdValue) → (id_cmp x y ≡ Equal) ↔ (x ≡ y) }
{}

/// `Left` is before `Right`.
pub fn bits_are_ordered()
    ensures same { (b c : Bit) → ⟦<Bit as PartialEq>⟧.eq b c ≡ same_bit b c }
    ensures order { (b c : Bit) → ⟦<Bit as Ord>⟧.cmp b c ≡ bit_cmp b c }
    ensures equal { (b c : Bit) → (bit_cmp b c ≡ Equal) ↔ (b ≡ c) }
{}
