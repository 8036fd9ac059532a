// A row deleted.
ghost use Rattle.std.specs.Prelude.{◌≡◌, ◌<◌, length, OnOk, OnErr};
ghost use Rattle.td_tree.specs.declared.tree_row.RowState.TheVariants.{Node};
ghost use Rattle.td_tree.specs.Parts.{state_at, IsTree, IsDeleted};

use crate::item_of::atom_item;
use crate::tokens::Tokens;
use td_base::{Dot, Memory};
use td_list::Sequence;

impl Tokens {
    /// Adds the dot of a delete to a node.
    pub fn delete_row(&mut self, row: u32, by: Dot) -> Result<(), Memory>
        requires tree { IsTree self.old }
        requires row { row < length self.old.rows }
        requires node { state_at self.old row ≡ Node }
        ensures ok { OnOk result (IsDeleted self.old self.new row by) }
        ensures err { OnErr result (self.new ≡ self.old) }
    {
        self.rows.add_delete(self.alloc, row, by)?;
        self.list.renew(atom_item(row, 0));
        Ok(())
    }
}
