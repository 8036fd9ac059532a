ghost use Rattle.std.specs.Prelude.{◌≡◌};
ghost use Rattle.td_path.specs.Slot.{slot_atom, slot_site};

use td_base::{AtomId, Bit, Site};

/// A position in the tree where a major node stands: the root, or one side of an atom. Slots are ordered: `Root`
/// first, then by the atom's identity, left before right.
#[derive(Clone, Copy, Debug, PartialEq, Eq, PartialOrd, Ord)]
pub enum Slot {
    Root,
    At { atom: AtomId, bit: Bit },
}

impl Slot {
    /// The atom that the slot names.
    pub fn atom(&self) -> Option<AtomId>
        ensures { result ≡ slot_atom self.now }
    {
        match *self {
            Slot::Root => None,
            Slot::At { atom, .. } => Some(atom),
        }
    }

    /// The site of that atom.
    pub fn site(&self) -> Option<Site>
        ensures { result ≡ slot_site self.now }
    {
        Some(self.atom()?.dot.site)
    }
}
