ghost use Rattle.std.specs.Prelude.{◌≡◌};
ghost use Rattle.std.specs.Option.{ForSome};
ghost use Rattle.td_base.specs.declared.bit.Bit.TheVariants.{Right};
ghost use Rattle.td_path.specs.declared.slot.Slot.TheVariants.{At};
ghost use Rattle.td_doc.specs.Allocation.{alloc};
ghost use Rattle.td_doc.specs.Answers.{IsRow};

use crate::doc::Doc;
use td_base::{AtomId, Bit};
use td_path::Slot;

/// The slot for what is placed after a row, or at the start. What is put there stands right after that row, or first.
/// Takes no memory.
pub fn alloc_slot<D: Doc>(doc: &D, after: Option<AtomId>) -> Slot
    requires { ForSome after (IsRow (D.rows doc.now)) }
    ensures { result ≡ alloc (D.rows doc.now) after }
{
    match after {
        Some(id) if doc.slot_empty(right_of(id)) => right_of(id),
        _ => match doc.after(after) {
            None => Slot::Root,
            Some(next) => Slot::At {
                atom: next,
                bit: Bit::Left,
            },
        },
    }
}

fn right_of(atom: AtomId) -> Slot
    ensures { result ≡ At atom Right }
{
    Slot::At {
        atom,
        bit: Bit::Right,
    }
}
