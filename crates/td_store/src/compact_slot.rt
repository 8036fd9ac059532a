ghost use Rattle.std.specs.Prelude.{◌≡◌};
ghost use Rattle.td_store.specs.Compact.{slot_of};

use crate::compact_id::CompactId;
use td_base::Bit;
use td_path::Slot;

/// A slot in 6 bytes. Contracts see `slot_of` it.
#[derive(Clone, Copy, Debug, PartialEq, Eq, Hash)]
pub enum CompactSlot {
    Root,
    // the bit stands first, so that there is no gap
    At { bit: Bit, atom: CompactId },
}

impl CompactSlot {
    /// The slot, made compact.
    pub fn of(slot: &Slot) -> CompactSlot
        ensures { slot_of result ≡ slot.now }
    {
        match *slot {
            Slot::Root => CompactSlot::Root,
            Slot::At { atom, bit } => CompactSlot::At {
                bit,
                atom: CompactId::of(atom),
            },
        }
    }

    /// The slot that it stands for.
    pub fn slot(&self) -> Slot
        ensures { result ≡ slot_of self.now }
    {
        match *self {
            CompactSlot::Root => Slot::Root,
            CompactSlot::At { bit, atom } => {
                let atom = atom.id();
                Slot::At { atom, bit }
            }
        }
    }
}
