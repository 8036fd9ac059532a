// Parts of leaves.
ghost use Rattle.std.specs.Prelude.{◌≡◌, ◌<◌, ◌≤◌, ◌+◌, ◌-◌, ◌/◌, length, map};
ghost use Rattle.td_base.specs.Lists.{In};
ghost use Rattle.td_path.specs.declared.slot.Slot.{Slot};
ghost use Rattle.td_path.specs.declared.slot.Slot.TheVariants.{At};
ghost use Rattle.td_doc.specs.Slots.{rows_in_slot};
ghost use Rattle.td_brackets.specs.RowNumbers.{entry_of};
ghost use Rattle.td_brackets.specs.Brackets.{LeafIn};
ghost use Rattle.td_tree.specs.declared.tree_row.RowState.TheVariants.{InArray};
ghost use Rattle.td_tree.specs.Parts.{state_at, table, array_at, part, row_of_array, leaf_item, doc_rows, IsPart, IsTree, Stand};
ghost use Rattle.td_tree.specs.Reading.{slot_or};

use crate::stretch::Stretch;
use crate::tokens::Tokens;
use td_base::{AtomId, Bit};
use td_path::Slot;

/// A part of a leaf, with the slot in which its middle row stands: none where that is the slot of the leaf.
#[derive(Clone, Copy, Debug)]
pub struct Part {
    pub rows: Stretch,
    pub slot: Option<Slot>,
}

impl Tokens {
    /// The part of a leaf of which a row is the middle one.
    pub fn part_of(&self, leaf: Stretch, index: u32) -> Part
        requires tree { IsTree self.now }
        requires part { IsPart self.now leaf.array leaf.from leaf.len }
        requires low { leaf.from ≤ index }
        requires high { index < leaf.from + leaf.len }
        ensures array { result.rows.array ≡ leaf.array }
        ensures part { IsPart self.now leaf.array result.rows.from result.rows.len }
        ensures middle { result.rows.from + result.rows.len / 2 ≡ index }
        ensures there { (round : Slot)
            → LeafIn (table self.now) (doc_rows self.now) (part (array_at self.now leaf.array) leaf.from leaf.len) round
            → LeafIn (table self.now) (doc_rows self.now)
            (part (array_at self.now leaf.array) result.rows.from result.rows.len) (slot_or round result.slot) }
    {
        let mut rows = leaf;
        let mut slot = None;
        while rows.middle() != index {
            let atom = self.id_in(rows);
            if index < rows.middle() {
                rows = rows.before();
                slot = Some(Slot::At {
                    atom,
                    bit: Bit::Left,
                });
            } else {
                rows = rows.after();
                slot = Some(Slot::At {
                    atom,
                    bit: Bit::Right,
                });
            }
        }
        Part { rows, slot }
    }

    // The identity of the middle row of a part of a leaf.
    fn id_in(&self, rows: Stretch) -> AtomId
        requires tree { IsTree self.now }
        requires part { IsPart self.now rows.array rows.from rows.len }
        ensures { result ≡ (table self.now (row_of_array self.now rows.array (rows.from + rows.len / 2))).id }
    {
        self.id(self.row_in(rows.array, rows.middle()))
    }
}
