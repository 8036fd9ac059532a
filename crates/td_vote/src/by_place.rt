// Holds in the order of their places.
ghost use Rattle.std.specs.Prelude.{◌≡◌, ◌<◌, ◌≤◌, ◌+◌, List, ◌∷◌, length, true, false, vec_len, vec_capacity};
ghost use Rattle.std.specs.Prelude.{IsTrue, OnOk, OnErr};
ghost use Rattle.std.specs.List.{AllWithin, list_any};
ghost use Rattle.td_doc.specs.Answers.{is_rooted};
ghost use Rattle.td_doc.specs.Slots.{overlaps};
ghost use Rattle.td_machine.specs.Hold.{Hold, held_over, held_row, held_slot};
ghost use Rattle.td_vote.specs.ByPlace.{place_before, AreInPlace, AreHeldApart, IsBeside, AreOverlapping};
ghost use Rattle.td_vote.specs.ByPlace.{AreSame, IsFree};

use crate::held::{Held, any_overlaps, least, least_held};
use crate::slots::{overlap, stands_before};
use td_base::{AtomId, Bit, Dot, Memory};
use td_doc::{Doc, contains};
use td_path::Slot;

/// How many of the holds stand before the slot: these are the first.
pub fn place_of<D: Doc>(held: &[Held], doc: &D, slot: &Slot) -> usize
    requires apart { AreHeldApart (D.rows doc.now) held.now }
    requires order { AreInPlace (D.rows doc.now) held.now }
    ensures bound { result ≤ length held.now }
    ensures before { AllWithin (λ (h : Hold). place_before (D.rows doc.now) h.slot slot.now ≡ true) held.now 0 result }
    ensures behind { AllWithin (λ (h : Hold). place_before (D.rows doc.now) h.slot slot.now ≡ false)
        held.now result (length held.now) }
{
    held.partition_point(|h| stands_before(doc, &h.slot, slot))
}

/// Puts one hold more in its place among others with whose slots its slot does not overlap. `Memory` comes only where
/// there was no room.
pub fn put<D: Doc>(held: &mut Vec<Held>, doc: &D, proposal: Dot, slot: &Slot) -> Result<(), Memory>
    requires apart { AreHeldApart (D.rows doc.now) held.old.items }
    requires order { AreInPlace (D.rows doc.now) held.old.items }
    requires rooted { IsTrue (is_rooted (D.rows doc.now) slot.now) }
    requires free { IsFree (D.rows doc.now) slot.now held.old.items }
    ensures order { AreInPlace (D.rows doc.now) held.new.items }
    ensures ok { OnOk result ((holds : List Hold) → AreSame held.old.items holds
        → AreSame held.new.items (record { proposal = proposal; slot = slot.now } ∷ holds)) }
    ensures err { OnErr result (held.new.items ≡ held.old.items) }
    ensures more { OnOk result (vec_len held.new ≡ vec_len held.old + 1) }
    ensures capacity { vec_len held.old < vec_capacity held.old → vec_capacity held.new ≡ vec_capacity held.old }
    ensures memory { OnErr result (vec_capacity held.old ≤ vec_len held.old) }
{
    let place = place_of(held, doc, slot);
    held.insert(
        place,
        Held {
            proposal,
            slot: *slot,
        },
    )?;
    Ok(())
}

/// Whether a hold overlaps the slot.
pub fn any_overlapping<D: Doc>(held: &[Held], doc: &D, slot: &Slot) -> bool
    requires apart { AreHeldApart (D.rows doc.now) held.now }
    requires order { AreInPlace (D.rows doc.now) held.now }
    ensures { result ≡ list_any (λ (h : Hold). overlaps (D.rows doc.now) h.slot slot.now) held.now }
{
    any_overlaps(beside(held, doc, slot), doc, slot)
}

/// The least proposal whose held slot contains the slot.
pub fn least_containing<D: Doc>(held: &[Held], doc: &D, slot: &Slot) -> Option<Dot>
    requires apart { AreHeldApart (D.rows doc.now) held.now }
    requires order { AreInPlace (D.rows doc.now) held.now }
    ensures { result ≡ held_slot (D.rows doc.now) slot.now held.now }
{
    least_held(
        beside(held, doc, slot),
        |other| contains(doc, *other, *slot),
    )
}

/// The least proposal whose held slot contains the row.
pub fn least_round<D: Doc>(held: &[Held], doc: &D, id: AtomId) -> Option<Dot>
    requires apart { AreHeldApart (D.rows doc.now) held.now }
    requires order { AreInPlace (D.rows doc.now) held.now }
    ensures { result ≡ held_row (D.rows doc.now) id held.now }
{
    let slot = Slot::At {
        atom: id,
        bit: Bit::Left,
    };
    least_held(beside(held, doc, &slot), |other| doc.within(id, *other))
}

/// The least proposal whose held slot overlaps the slot.
pub fn least_overlapping<D: Doc>(held: &[Held], doc: &D, slot: &Slot) -> Option<Dot>
    requires apart { AreHeldApart (D.rows doc.now) held.now }
    requires order { AreInPlace (D.rows doc.now) held.now }
    ensures { result ≡ held_over (D.rows doc.now) slot.now held.now }
{
    least(overlapping(held, doc, slot))
}

// The holds beside the place of the slot: the last before it, and the first behind it.
fn beside<'a, D: Doc>(held: &'a [Held], doc: &D, slot: &Slot) -> &'a [Held]
    requires apart { AreHeldApart (D.rows doc.now) held.now }
    requires order { AreInPlace (D.rows doc.now) held.now }
    ensures { IsBeside (D.rows doc.now) slot.now held.now result.now }
{
    let place = place_of(held, doc, slot);
    let from = place.saturating_sub(1);
    let to = if place < held.len() { place + 1 } else { place };
    &held[from..to]
}

// The holds that overlap the slot. They stand next to its place, on both sides.
fn overlapping<'a, D: Doc>(held: &'a [Held], doc: &D, slot: &Slot) -> &'a [Held]
    requires apart { AreHeldApart (D.rows doc.now) held.now }
    requires order { AreInPlace (D.rows doc.now) held.now }
    ensures { AreOverlapping (D.rows doc.now) slot.now held.now result.now }
{
    let place = place_of(held, doc, slot);
    let (left, right) = held.split_at(place);
    let from = left.partition_point(|h| !overlap(doc, &h.slot, slot));
    let more = right.partition_point(|h| overlap(doc, &h.slot, slot));
    &held[from..place + more]
}
