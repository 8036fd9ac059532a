// Where new rows are put among the tokens.
ghost use Rattle.std.specs.Prelude.{◌≡◌, ◌<◌, ◌+◌, ◌*◌, ◌/◌, length, IsNone, IfSome, IfNone, Option};
ghost use Rattle.td_base.specs.Value.{AtomIdValue};
ghost use Rattle.td_path.specs.declared.slot.Slot.{Slot};
ghost use Rattle.td_path.specs.declared.slot.Slot.TheVariants.{Root, At};
ghost use Rattle.td_doc.specs.Document.{find_row};
ghost use Rattle.td_tree.specs.declared.tree_row.RowState.TheVariants.{Node};
ghost use Rattle.td_tree.specs.Parts.{state_at, table, doc_rows, IsTree};
ghost use Rattle.td_tree.specs.Places.{IsPlace, IsNewPlace, IsSmaller, IsNotSmaller};

use crate::item_of::{atom_item, open_item};
use crate::tokens::Tokens;
use crate::tree_row::RowState;
use td_base::{AtomId, Bit};

impl Tokens {
    /// The token before which a new row is put in the root slot; none at the end.
    pub fn place_in_root(&self, id: AtomId) -> Option<u32>
        requires tree { IsTree self.now }
        requires new { IsNone (find_row id (doc_rows self.now)) }
        ensures { IsNewPlace self.now Root id result }
    {
        self.over_smaller(self.first(), id)
    }

    /// The token before which a new row is put on a side of a node.
    pub fn place_on(&self, row: u32, bit: Bit, id: AtomId) -> Option<u32>
        requires tree { IsTree self.now }
        requires row { row < length self.now.rows }
        requires node { state_at self.now row ≡ Node }
        requires new { IsNone (find_row id (doc_rows self.now)) }
        ensures { IsNewPlace self.now (At (table self.now row).id bit) id result }
    {
        self.over_smaller(self.first_on(row, bit), id)
    }

    // The first token on a side of a node, or the one that ends it.
    fn first_on(&self, row: u32, bit: Bit) -> Option<u32>
        requires tree { IsTree self.now }
        requires row { row < length self.now.rows }
        requires node { state_at self.now row ≡ Node }
        ensures { (id : AtomIdValue) → IsPlace self.now (At (table self.now row).id bit) id result }
    {
        match bit {
            Bit::Left => self.next(open_item(row).name()),
            Bit::Right => self.next(atom_item(row, 0).name()),
        }
    }

    // From a place in a slot on, the place behind the siblings whose identities are smaller.
    fn over_smaller(&self, first: Option<u32>, id: AtomId) -> Option<u32>
        requires tree { IsTree self.now }
        requires new { IsNone (find_row id (doc_rows self.now)) }
        requires place { (slot : Slot) × IsPlace self.now slot id first }
        ensures { (slot : Slot) → IsPlace self.now slot id first → IsNewPlace self.now slot id result }
    {
        let mut at = first;
        while let Some(name) = at {
            let Some(end) = self.smaller_sibling(name, id) else {
                return at;
            };
            at = self.next(end);
        }
        at
    }

    // The last token of the sibling that begins with a token, where its identity is smaller. A leaf goes by its top.
    fn smaller_sibling(&self, name: u32, id: AtomId) -> Option<u32>
        requires tree { IsTree self.now }
        requires known { name / 3 < length self.now.rows }
        ensures some { IfSome result (IsSmaller self.now id name) }
        ensures none { IfNone result (IsNotSmaller self.now id name) }
    {
        let row = name / 3;
        let end = match name % 3 {
            0 => name + 2,
            1 => {
                if self.state(row) == RowState::Node {
                    return None;
                }
                name
            }
            _ => return None,
        };
        if self.id(row).cmp(&id).is_lt() {
            Some(end)
        } else {
            None
        }
    }
}
