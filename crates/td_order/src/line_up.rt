ghost use Rattle.std.specs.Prelude.{◌≡◌, ◌↔◌, IfOk, IsTrue};
ghost use Rattle.td_order.specs.LineUp.{DotsDiffer, has_dot, line_up};

use std::alloc::Global;
use std::cmp::Reverse;
use td_base::{Dot, Memory};
use td_op::Op;

/// The operations in line-up, the last first.
pub fn line_up(alloc: Global, ops: &[Op]) -> Result<Vec<Op>, Memory>
    requires { DotsDiffer ops.now }
    ensures { IfOk result (λ line. line.items ≡ line_up ops.now) }
{
    let mut line = ops.to_vec(alloc)?;
    line.sort_unstable_by_key(|op| Reverse((op.deps().sum(), op.dot())));
    Ok(line)
}

/// Whether no two of the operations have one dot: the condition of `order_of` and `show_of`. It compares each two, and
/// takes no memory.
pub fn dots_differ(ops: &[Op]) -> bool
    ensures { IsTrue result ↔ DotsDiffer ops.now }
{
    for (i, op) in ops.iter().enumerate() {
        if has_dot(op.dot(), &ops[i + 1..]) {
            return false;
        }
    }
    true
}

fn has_dot(dot: Dot, ops: &[Op]) -> bool
    ensures { result ≡ has_dot dot ops.now }
{
    ops.iter().any(|op| op.dot() == dot)
}
