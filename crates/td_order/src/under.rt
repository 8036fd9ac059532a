ghost use Rattle.std.specs.Prelude.{◌≡◌};
ghost use Rattle.td_order.specs.Under.{is_under_any, under};

use td_base::{AtomId, Dot};
use td_op::Insertion;
use td_path::Slot;

/// Of these insertions, the last in line-up first: whether the one with the dot is under the one with the dot `top`.
/// It walks from the dot up, from slot to slot, to insertions that are earlier and earlier.
pub fn is_under(placed: &[Insertion], top: Dot, dot: Dot) -> bool
    ensures { result ≡ under placed.now top dot }
{
    let mut at = dot;
    for insertion in placed {
        if insertion.dot == at {
            if at == top {
                return true;
            }
            match insertion.slot {
                Slot::Root => return false,
                Slot::At { atom, .. } => at = atom.dot,
            }
        }
    }
    false
}

/// Whether the atom is of an insertion that is under one of these.
pub fn is_under_any(placed: &[Insertion], tops: &[Insertion], id: AtomId) -> bool
    ensures { result ≡ is_under_any placed.now tops.now id }
{
    tops.iter().any(|top| is_under(placed, top.dot, id.dot))
}
