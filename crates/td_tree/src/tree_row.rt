// The rows of a tree by number, where they are, and the arrays of its leaves.
ghost use Rattle.std.specs.Prelude.{◌≡◌, ◌<◌, length, set, None};
ghost use Rattle.td_tree.specs.KeptState.{FitsKept};

use crate::first_delete::FirstDelete;
use crate::kept_state::KeptState;
use crate::row_atom::RowAtom;
use std::marker::Model;
use td_base::AtomId;
use td_store::CompactId;

/// Where a row is: in brackets of its own, at an index of an array that leaves share, or in the document no longer.
#[derive(Clone, Copy, Debug, PartialEq, Eq)]
pub enum RowState {
    Node,
    InArray { array: u32, index: u32 },
    Gone,
}

/// A row without its place among the others and where it is, with the first delete that named it.
#[derive(Debug, Drop)]
pub struct TreeRow {
    pub id: CompactId,
    pub deleted: FirstDelete,
    pub atom: RowAtom,
}

const _: () = prove!(size_of::<TreeRow>() == 12);

impl TreeRow {
    /// A row that no delete named.
    pub fn new(id: AtomId, atom: RowAtom) -> TreeRow
        ensures { result ≡ record { id = id; deleted = None; atom = atom } }
    {
        TreeRow {
            id: CompactId::of(id),
            deleted: FirstDelete::none(),
            atom,
        }
    }
}

/// The numbers of rows that were once made an array. Leaves are stretches of it.
#[derive(Debug, Drop)]
pub struct Array {
    pub rows: Vec<u32>,
}

impl Model for Array {
    ghost use Rattle.std.specs.Prelude.{ℕ, List};

    ghost Value = { List ℕ };

    ghost view = { λ a. a.rows.items };
}

/// Says where a row is from now on.
pub fn set_state(states: &mut Vec<KeptState>, row: u32, state: RowState)
    requires row { row < length states.old.items }
    requires fits { FitsKept state }
    ensures { states.new.items ≡ set states.old.items row state }
{
    states[row as usize] = KeptState::of(state);
}
