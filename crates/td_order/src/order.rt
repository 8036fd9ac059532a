ghost use Rattle.std.specs.Prelude.{◌≡◌, IfOk};
ghost use Rattle.td_order.specs.LineUp.{DotsDiffer};
ghost use Rattle.td_order.specs.Order.{order, placed};

use crate::atom_ids::AtomIds;
use crate::insertions::insertions_of;
use crate::line_up::line_up;
use crate::place::place;
use std::alloc::Global;
use td_base::{AtomId, Memory};
use td_op::{Insertion, Op};

/// The atoms of all insertions in the one order that the operations give them, deleted ones too. It looks through all
/// atoms for each insertion, so it is for small lists and for comparison.
pub fn order_of(alloc: Global, ops: &[Op]) -> Result<AtomIds, Memory>
    requires { DotsDiffer ops.now }
    ensures { IfOk result (λ ids. ids ≡ order ops.now) }
{
    let line = line_up(alloc, ops)?;
    let insertions = insertions_of(alloc, &line)?;
    let items = placed(alloc, &insertions)?;
    Ok(AtomIds::new(items))
}

// The insertions, the last in line-up first, placed one after another.
fn placed(alloc: Global, insertions: &[Insertion]) -> Result<Vec<AtomId>, Memory>
    ensures { IfOk result (λ ids. ids.items ≡ placed insertions.now) }
{
    let mut list = Vec::new(alloc);
    for i in (0..insertions.len()).rev() {
        list = place(alloc, &insertions[i + 1..], &list, &insertions[i])?;
    }
    Ok(list)
}
