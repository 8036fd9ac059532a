use td_base::{Atom, AtomId, Bit, Dot, Run};
use td_path::Slot;

/// What an editor asks of its own site. An index counts the live atoms, from 0.
#[derive(Clone, Copy, Debug, PartialEq, Eq)]
pub enum Request {
    /// Puts the atom at the index, as far as the end.
    Insert { index: u32, atom: Atom },
    /// Puts the atom right after this live one, or with none at the start.
    InsertAfter { after: Option<AtomId>, atom: Atom },
    /// Puts the atoms of the run at the index, as far as the end.
    Paste { index: u32, run: Run },
    /// Puts the atoms of the run right after this live one, or with none at the start.
    PasteAfter { after: Option<AtomId>, run: Run },
    /// Deletes the live atom at the index.
    Delete { index: u32 },
    /// Deletes this live atom.
    DeleteAtom { id: AtomId },
    /// Proposes to flatten the slot.
    Propose { slot: Slot },
    /// Proposes to flatten the slot on this side of the live atom at the index.
    ProposeAt { index: u32, bit: Bit },
    /// Gives up an own proposal that is undecided.
    Cancel { proposal: Dot },
}
