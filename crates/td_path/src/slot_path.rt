ghost use Rattle.std.specs.Prelude.{◌≡◌};
ghost use Rattle.td_path.specs.SlotPaths.{goes_on, slot_contains, slot_contains_slot, slots_overlap};

use crate::infix_order::infix;
use crate::path::Path;
use td_base::{AtomId, Bit};

/// A slot by the path of its atom: the root, or one side of the node at the path.
#[derive(Debug, Drop)]
pub enum SlotPath {
    Root,
    Below { path: Path, bit: Bit },
}

/// Whether the slot contains the row with this path. Takes no memory.
pub fn contains(slot: &SlotPath, path: &Path) -> bool
    ensures { result ≡ slot_contains slot.now path.now }
{
    match slot {
        SlotPath::Root => true,
        SlotPath::Below { path: front, bit } => goes_on(front, *bit, path),
    }
}

/// Whether one of the two slots contains the other. Takes no memory.
pub fn overlap(a: &SlotPath, b: &SlotPath) -> bool
    ensures { result ≡ slots_overlap a.now b.now }
{
    contains_slot(a, b) || contains_slot(b, a)
}

// Whether the first slot contains the second.
fn contains_slot(slot: &SlotPath, other: &SlotPath) -> bool
    ensures { result ≡ slot_contains_slot slot.now other.now }
{
    match (slot, other) {
        (SlotPath::Root, _) => true,
        (SlotPath::Below { .. }, SlotPath::Root) => false,
        (SlotPath::Below { path: front, bit }, SlotPath::Below { path, bit: side }) => {
            (infix(front, path).is_eq() && bit == side) || goes_on(front, *bit, path)
        }
    }
}

/// Whether the path begins with the front and goes on by the bit: whether the slot on that side of the node at the
/// front contains the row with the path. Takes no memory.
pub fn goes_on(front: &Path, bit: Bit, path: &Path) -> bool
    ensures { result ≡ goes_on front.now bit path.now }
{
    pairs_go_on(front.as_slice(), bit, path.as_slice())
}

fn pairs_go_on(front: &[(Bit, AtomId)], bit: Bit, mut path: &[(Bit, AtomId)]) -> bool
    ensures { result ≡ goes_on front.now bit path.entry.now }
{
    for q in front {
        match path.split_first() {
            Some((p, rest)) if p == q => path = rest,
            _ => return false,
        }
    }
    match path.first() {
        Some(p) => p.0 == bit,
        None => false,
    }
}
