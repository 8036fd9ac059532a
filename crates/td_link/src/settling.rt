ghost use Rattle.std.specs.Prelude.{◌≡◌, ◌++◌, IfOk};

use crate::item::Item;
use crate::left::Left;
use crate::rx::Rx;
use crate::steps::{Drains, Meets};
use crate::tx::Tx;
use std::alloc::Global;
use std::collections::VecDeque;
use std::sync::Wait;
use td_base::Memory;

/// Puts the two ends of a link together: what was sent and not taken. After `Memory` the ends are gone.
pub fn settle<T: Item + Send, R: Wait>(
    rt: &R,
    alloc: Global,
    tx: Tx<T>,
    rx: Rx<T>,
) -> Result<Left<T>, Memory>
    requires { tx.link ≡ rx.link }
    ensures { IfOk result (λ left. tx.sent ≡ rx.taken ++ left) }
{
    let Tx { line, mut pass } = tx;
    let Rx {
        line: _theirs,
        pass: other,
    } = rx;
    line.absorb::<Meets>(&mut pass, other);
    let mut items = VecDeque::new(alloc);
    for _ in rt.forever() {
        if items.reserve(1).is_err() {
            break;
        }
        match line.pop_as::<Drains, R>(rt, &mut pass) {
            Some(item) => items.push_back_reserved(item),
            None => return Ok(Left::of(items)),
        }
    }
    Err(Memory)
}
