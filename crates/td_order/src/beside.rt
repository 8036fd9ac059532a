ghost use Rattle.std.specs.Prelude.{◌≡◌, ◌<◌, ◌≤◌, ◌++◌, List, IfSome, length, take, drop};
ghost use Rattle.std.specs.List.{position};
ghost use Rattle.td_base.specs.Value.{AtomIdValue};
ghost use Rattle.td_base.specs.Equality.{same_id};
ghost use Rattle.td_order.specs.Place.{put_after_last, put_before_first, put_beside};

use td_base::{AtomId, Bit};
use td_path::Slot;

/// The place in the list that is beside the slot's atom on the slot's side, or the start.
pub fn beside(slot: Slot, list: &[AtomId]) -> usize
    ensures bound { result ≤ length list.now }
    ensures place { (ids : List AtomIdValue) → put_beside slot ids list.now
        ≡ take result list.now ++ (ids ++ drop result list.now) }
{
    match slot {
        Slot::Root => 0,
        Slot::At { atom, bit } => match bit {
            Bit::Left => before_atom(atom, list),
            Bit::Right => after_atom(atom, list),
        },
    }
}

// The place right before an atom, or the end.
fn before_atom(atom: AtomId, list: &[AtomId]) -> usize
    ensures bound { result ≤ length list.now }
    ensures place { (ids : List AtomIdValue) → put_before_first (same_id atom) ids list.now
        ≡ take result list.now ++ (ids ++ drop result list.now) }
{
    place_of(atom, list).unwrap_or(list.len())
}

fn place_of(atom: AtomId, list: &[AtomId]) -> Option<usize>
    ensures value { result ≡ position (same_id atom) list.now }
    ensures bound { IfSome result (λ at. at < length list.now) }
{
    list.iter().position(|id| atom == *id)
}

// The place right after an atom, or the start.
fn after_atom(atom: AtomId, list: &[AtomId]) -> usize
    ensures bound { result ≤ length list.now }
    ensures place { (ids : List AtomIdValue) → put_after_last (same_id atom) ids list.now
        ≡ take result list.now ++ (ids ++ drop result list.now) }
{
    let mut at = 0;
    for (i, id) in list.iter().enumerate() {
        if atom == *id {
            at = i + 1;
        }
    }
    at
}
