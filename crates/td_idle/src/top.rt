// The largest candidates.
ghost use Rattle.std.specs.Prelude.{◌≡◌, ◌++◌, [], ◌∷◌, IfOk, OnOk, if◌then◌else◌};
ghost use Rattle.td_path.specs.declared.slot.Slot.TheVariants.{At};
ghost use Rattle.td_idle.specs.Stable.{stable};
ghost use Rattle.td_idle.specs.Best.{row_count};
ghost use Rattle.td_idle.specs.Walk.{is_one_within, is_free_beside, along, IsListed};
ghost use Rattle.td_idle.specs.Walk.{AreTops, AreTopsOn, IsPassed};

use crate::candidate::is_held_over;
use crate::walk::Walk;
use std::alloc::Global;
use td_base::{AtomId, Bit, Memory};
use td_doc::Doc;
use td_path::Slot;
use td_replica::Replica;

/// The largest candidates with an atom, those on the left of one first. The lists are of the rows, and of those of
/// which something is not stable.
pub fn tops<D: Doc>(
    alloc: Global,
    replica: &Replica<D>,
    ids: &mut Vec<AtomId>,
    unknown: &mut Vec<AtomId>,
) -> Result<Vec<Slot>, Memory>
    ensures unknown { OnOk result (unknown.new.items ≡ unknown.old.items) }
    ensures tops { IsListed (stable replica.now.machine) replica.now.machine.doc ids.old.items unknown.old.items
        → IfOk result (λ tops. AreTops replica.now.machine tops.items) }
{
    ids.reverse();
    unknown.reverse();
    let mut tops = tops_on(alloc, replica, ids, unknown, Bit::Left)?;
    ids.reverse();
    unknown.reverse();
    tops.append(&mut tops_on(alloc, replica, ids, unknown, Bit::Right)?)?;
    Ok(tops)
}

// The largest candidates on one side of an atom. The rows are listed so that those on that side of a row come right
// behind it.
fn tops_on<D: Doc>(
    alloc: Global,
    replica: &Replica<D>,
    ids: &[AtomId],
    unknown: &[AtomId],
    bit: Bit,
) -> Result<Vec<Slot>, Memory>
    ensures { IsListed (stable replica.now.machine) (along bit replica.now.machine.doc) ids.now unknown.now
        → IfOk result (λ tops. AreTopsOn replica.now.machine bit tops.items) }
{
    replica.entries();
    let mut tops = Vec::new(alloc);
    let mut walk = Walk::new();
    for id in ids {
        pass(&mut tops, &mut walk, replica, unknown, *id, bit)?;
    }
    Ok(tops)
}

// Passes one row. What stands on its side comes next, so only the next unknown row is looked for there, and of the
// rows in a top only their number is of interest.
fn pass<D: Doc>(
    tops: &mut Vec<Slot>,
    walk: &mut Walk,
    replica: &Replica<D>,
    unknown: &[AtomId],
    id: AtomId,
    bit: Bit,
) -> Result<(), Memory>
    ensures { OnOk result (IsPassed replica.now.machine unknown.now id bit walk.old walk.new
        tops.old.items tops.new.items) }
{
    let inside = walk.inside;
    walk.pass(unknown, id);
    if inside > 0 {
        return Ok(());
    }
    let side = Slot::At { atom: id, bit };
    walk.inside = add_side(tops, replica, &walk.next(unknown), &side)?;
    Ok(())
}

// Adds the side of a row, if it is free, and tells how many rows come next in it.
fn add_side<D: Doc>(
    tops: &mut Vec<Slot>,
    replica: &Replica<D>,
    unknown: &Option<AtomId>,
    side: &Slot,
) -> Result<u32, Memory>
    ensures tops { OnOk result (tops.new.items ≡ tops.old.items
        ++ (if is_free_beside replica.now.machine unknown.now side.now then side.now ∷ [] else [])) }
    ensures rows { IfOk result (λ rows. rows ≡ (if is_free_beside replica.now.machine unknown.now side.now
        then row_count replica.now.machine.doc side.now else 0)) }
{
    if is_free(replica, unknown, side) {
        tops.push(*side)?;
        Ok(replica.doc().count(*side))
    } else {
        Ok(0)
    }
}

// Whether the slot has rows, the unknown row is not among them, and nobody holds it.
fn is_free<D: Doc>(replica: &Replica<D>, unknown: &Option<AtomId>, slot: &Slot) -> bool
    ensures { result ≡ is_free_beside replica.now.machine unknown.now slot.now }
{
    !replica.doc().slot_empty(*slot)
        && !is_one_within(replica.doc(), unknown, slot)
        && !is_held_over(replica, slot)
}

fn is_one_within<D: Doc>(doc: &D, id: &Option<AtomId>, slot: &Slot) -> bool
    ensures { result ≡ is_one_within (D.rows doc.now) id.now slot.now }
{
    match id {
        Some(id) => doc.within(*id, *slot),
        None => false,
    }
}
