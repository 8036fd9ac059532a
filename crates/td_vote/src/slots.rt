// What a document tells of slots of which nothing is known.
ghost use Rattle.std.specs.Prelude.{◌≡◌, length, IsTrue};
ghost use Rattle.td_doc.specs.Answers.{is_rooted};
ghost use Rattle.td_doc.specs.Slots.{is_known, overlaps};
ghost use Rattle.td_path.specs.declared.slot.Slot.TheVariants.{Root, At};
ghost use Rattle.std.specs.Ordering.{is_lt};
ghost use Rattle.td_base.specs.Order.{bit_cmp};
ghost use Rattle.td_vote.specs.ByPlace.{place_before};

use td_base::{AtomId, Bit};
use td_clock::Vector;
use td_doc::{Doc, contains};
use td_path::Slot;

/// Whether the slot is the root, or its atom is a row.
pub fn is_rooted<D: Doc>(doc: &D, slot: &Slot) -> bool
    ensures { result ≡ is_rooted (D.rows doc.now) slot.now }
{
    match slot {
        Slot::Root => true,
        Slot::At { atom, .. } => doc.is_row(*atom),
    }
}

/// Whether one of the two slots contains the other. As `Doc::overlaps`, but their atoms need be no rows.
pub fn overlap<D: Doc>(doc: &D, a: &Slot, b: &Slot) -> bool
    ensures { result ≡ overlaps (D.rows doc.now) a.now b.now }
{
    contains(doc, *a, *b) || contains(doc, *b, *a)
}

/// Whether both slots are at rows, the first before the second. Of one row the left side comes first.
pub fn stands_before<D: Doc>(doc: &D, a: &Slot, b: &Slot) -> bool
    ensures { result ≡ place_before (D.rows doc.now) a.now b.now }
{
    match *a {
        Slot::At { atom, bit } => is_before(doc, atom, bit, b),
        Slot::Root => false,
    }
}

#[tactic(auto, using(crate::proofs::Sides::not_before_root))]
fn is_before<D: Doc>(doc: &D, atom: AtomId, bit: Bit, b: &Slot) -> bool
    ensures { result ≡ place_before (D.rows doc.now) (At atom bit) b.now }
{
    match *b {
        Slot::At {
            atom: other,
            bit: side,
        } => is_side_before(doc, atom, bit, other, side),
        Slot::Root => false,
    }
}

fn is_side_before<D: Doc>(doc: &D, atom: AtomId, bit: Bit, other: AtomId, side: Bit) -> bool
    ensures { result ≡ place_before (D.rows doc.now) (At atom bit) (At other side) }
{
    if atom == other {
        is_left_of(bit, side) && doc.is_row(atom)
    } else {
        doc.stands_before(atom, other)
    }
}

// Whether the first side is the left one, and the second the right one.
#[tactic(auto, using(crate::proofs::Sides::left_then, crate::proofs::Sides::left_else))]
fn is_left_of(bit: Bit, side: Bit) -> bool
    ensures { result ≡ is_lt (bit_cmp bit side) }
{
    bit == Bit::Left && side == Bit::Right
}

/// Whether the vector has all that was done to the rows in the slot. Where it covers `have`, which has all that was
/// done to any row, none is looked at.
#[tactic(auto, using(td_doc::proofs::Known::known_by_covering))]
pub fn is_known<D: Doc>(doc: &D, have: &Vector, slot: &Slot, v: &Vector) -> bool
    requires sizes { length v.now ≡ length have.now }
    requires known { IsTrue (is_known (D.rows doc.now) Root have.now) }
    ensures { result ≡ is_known (D.rows doc.now) slot.now v.now }
{
    v.covers(have) || doc.known(*slot, v)
}
