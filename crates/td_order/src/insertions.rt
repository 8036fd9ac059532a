ghost use Rattle.std.specs.Prelude.{◌≡◌, IfOk};
ghost use Rattle.td_op.specs.Insertion.{insertions};

use std::alloc::Global;
use td_base::Memory;
use td_op::{Insertion, Op};

/// The insertions among the operations, in the same order.
pub fn insertions_of(alloc: Global, ops: &[Op]) -> Result<Vec<Insertion>, Memory>
    ensures { IfOk result (λ found. found.items ≡ insertions ops.now) }
{
    let mut found = Vec::new(alloc);
    for op in ops {
        if let Some(insertion) = Insertion::of(op) {
            found.push(insertion)?;
        }
    }
    Ok(found)
}
