// Which slots contain one another.
ghost use Rattle.std.specs.Prelude.{◌≡◌};
ghost use Rattle.td_doc.specs.Slots.{contains_slot};

use crate::doc::Doc;
use td_path::Slot;

/// Whether the slot `outer` contains the slot `inner`. Takes no memory.
pub fn contains<D: Doc>(doc: &D, outer: Slot, inner: Slot) -> bool
    ensures { result ≡ contains_slot (D.rows doc.now) outer inner }
{
    contains_slot(doc, &outer, &inner)
}

/// The same of slots that are asked for again.
pub fn contains_slot<D: Doc>(doc: &D, outer: &Slot, inner: &Slot) -> bool
    ensures { result ≡ contains_slot (D.rows doc.now) outer.now inner.now }
{
    match (outer, inner) {
        (Slot::Root, _) => true,
        (Slot::At { .. }, Slot::Root) => false,
        (Slot::At { .. }, Slot::At { atom, .. }) => outer == inner || doc.within(*atom, *outer),
    }
}
