// Rows that are to come.
ghost use Rattle.std.specs.Prelude.{◌≡◌, ◌<◌, ◌≤◌, ◌+◌, ◌++◌, ◌∷◌, [], IfOk};
ghost use Rattle.td_tree.specs.declared.row_atom.TheConstants.{MOST_LONG};

use crate::kept_atom::KeptAtom;
use crate::row_atom::{MOST_LONG, RowAtom};
use crate::tree_row::TreeRow;
use std::alloc::Global;
use std::marker::Model;
use td_base::{AtomId, Memory};

/// Live rows that are to come, as they are kept then. Contracts see them, the number that the first of their longer
/// atoms gets, and for how many more there is room.
#[derive(Drop)]
pub struct NewRows {
    pub(crate) rows: Vec<TreeRow>,
    // the atoms that are too long for their rows, by number from `first` on
    pub(crate) long: Vec<KeptAtom>,
    first: u32,
}

impl Model for NewRows {
    ghost use Rattle.std.specs.Prelude.{◌-◌, None, length, min, vec_capacity};
    ghost use Rattle.td_tree.specs.KeptRows.{Coming, entries_from, IsColumn};
    ghost use Rattle.td_tree.specs.declared.row_atom.TheConstants.{MOST_LONG};

    ghost Value = { Coming };

    ghost view = { λ n. record {
      entries = entries_from n.first n.long.items (λ _. None) 0 n.rows.items;
      first = n.first;
      room = min (vec_capacity n.rows - length n.rows.items)
          (min (vec_capacity n.long) (MOST_LONG - n.first) - length n.long.items);
    } };

    ghost invariant = { λ n. IsColumn n.first n.rows.items n.long.items (λ _. None) };
}

impl NewRows {
    /// No rows, and room for so many.
    pub fn new(alloc: Global, first: u32, count: usize) -> Result<NewRows, Memory>
        requires { first + count ≤ MOST_LONG }
        ensures rows { IfOk result (λ new. new.entries ≡ []) }
        ensures first { IfOk result (λ new. new.first ≡ first) }
        ensures room { IfOk result (λ new. count ≤ new.room) }
    {
        let mut rows = Vec::new(alloc);
        rows.reserve(count)?;
        let mut long = Vec::new(alloc);
        long.reserve(count)?;
        Ok(NewRows { rows, long, first })
    }

    /// Adds one, in the room that there is.
    pub fn push(&mut self, id: AtomId, atom: KeptAtom)
        requires { 0 < self.old.room }
        ensures row { self.new.entries
            ≡ self.old.entries ++ record { id = id; atom = atom; deletes = [] } ∷ [] }
        ensures first { self.new.first ≡ self.old.first }
        ensures room { self.old.room ≤ self.new.room + 1 }
    {
        let atom = RowAtom::placed(self.first, &mut self.long, atom);
        self.rows.push(TreeRow::new(id, atom)).unwrap();
    }
}
