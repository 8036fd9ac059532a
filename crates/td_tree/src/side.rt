// The rows on the two sides of a row.
ghost use Rattle.std.specs.Prelude.{◌≡◌, ◌≢◌, ◌<◌, ◌≤◌, ◌+◌, ◌*◌, ◌^◌, ◌&&◌, ℕ, nat_lt, length, map};
ghost use Rattle.td_list.specs.Items.{IsItem, first_name, items_after, place_of};
ghost use Rattle.td_path.specs.declared.slot.Slot.TheVariants.{At};
ghost use Rattle.td_doc.specs.Slots.{rows_in_slot, is_empty_slot, is_within};
ghost use Rattle.td_brackets.specs.RowNumbers.{entry_of};
ghost use Rattle.td_tree.specs.declared.tree_row.RowState.TheVariants.{InArray, Gone};
ghost use Rattle.td_tree.specs.Parts.{state_at, table, array_at, part, row_of_array, doc_rows, Stand, IsTree};
ghost use Rattle.td_tree.specs.Reading.{side_start, side_end, is_name, is_in_part};

use crate::stretch::Stretch;
use crate::tokens::Tokens;
use crate::tree_row::RowState;
use td_base::Bit;
use td_list::Sequence;

impl Tokens {
    /// Whether no row is on a side of a row.
    pub fn side_is_empty(&self, row: u32, bit: Bit) -> bool
        requires tree { IsTree self.now }
        requires row { row < length self.now.rows }
        requires stands { state_at self.now row ≢ Gone }
        ensures { result ≡ is_empty_slot (doc_rows self.now) (At (table self.now row).id bit) }
    {
        match self.state(row) {
            RowState::InArray { array, index } => self.leaf_side(array, index, bit).len == 0,
            _ => self.is_next(side_start(row, bit), side_end(row, bit)),
        }
    }

    /// Whether a row is on a side of another.
    pub fn is_on_side(&self, row: u32, node: u32, bit: Bit) -> bool
        requires tree { IsTree self.now }
        requires row { row < length self.now.rows }
        requires stands { state_at self.now row ≢ Gone }
        requires node { node < length self.now.rows }
        requires node_stands { state_at self.now node ≢ Gone }
        ensures { result ≡ is_within (doc_rows self.now) (table self.now row).id (At (table self.now node).id bit) }
    {
        match self.state(node) {
            RowState::InArray { array, index } => {
                let side = self.leaf_side(array, index, bit);
                self.is_in(row, side)
            }
            _ => {
                let name = self.place_of(row).name;
                self.is_between(side_start(node, bit), name, side_end(node, bit))
            }
        }
    }

    /// The rows on a side of a row that stands in a leaf.
    pub fn leaf_side(&self, array: u32, index: u32, bit: Bit) -> Stretch
        requires tree { IsTree self.now }
        requires array { array < length self.now.arrays }
        requires index { index < length (array_at self.now array) }
        requires stands { state_at self.now (row_of_array self.now array index) ≡ InArray array index }
        ensures array { result.array ≡ array }
        ensures within { result.from + result.len ≤ length (array_at self.now array) }
        ensures stand { Stand self.now array result.from result.len }
        ensures rows { map entry_of (rows_in_slot (doc_rows self.now)
            (At (table self.now (row_of_array self.now array index)).id bit))
            ≡ map (table self.now) (part (array_at self.now array) result.from result.len) }
    {
        let leaf = self.leaf_of(array, index);
        let part = self.part_of(leaf, index);
        match bit {
            Bit::Left => part.rows.before(),
            Bit::Right => part.rows.after(),
        }
    }

    // Whether a token follows another directly.
    fn is_next(&self, first: u32, second: u32) -> bool
        requires { IsItem first self.now.items }
        ensures { result ≡ is_name second (first_name (items_after first self.now.items)) }
    {
        match self.list.next(first) {
            Some(name) => name == second,
            None => false,
        }
    }

    // Whether a token stands between two others.
    fn is_between(&self, first: u32, name: u32, last: u32) -> bool
        requires first { IsItem first self.now.items }
        requires name { IsItem name self.now.items }
        requires last { IsItem last self.now.items }
        ensures { result ≡ (nat_lt (place_of first self.now.items) (place_of name self.now.items)
            && nat_lt (place_of name self.now.items) (place_of last self.now.items)) }
    {
        self.list.is_before(first, name) && self.list.is_before(name, last)
    }

    // Whether a row is one of those of a leaf.
    fn is_in(&self, row: u32, side: Stretch) -> bool
        requires row { row < length self.now.rows }
        requires few { side.from + side.len < 2 ^ 32 }
        ensures { result ≡ is_in_part (state_at self.now row) side.array side.from side.len }
    {
        match self.state(row) {
            RowState::InArray { array, index } => {
                array == side.array && side.from <= index && index < side.from + side.len
            }
            _ => false,
        }
    }
}

/// The name of the token with which a side of a row begins.
pub fn side_start(row: u32, bit: Bit) -> u32
    requires { row < 2 ^ 30 }
    ensures { result ≡ side_start row bit }
{
    match bit {
        Bit::Left => 3 * row,
        Bit::Right => 3 * row + 1,
    }
}

/// The name of the token with which it ends.
pub fn side_end(row: u32, bit: Bit) -> u32
    requires { row < 2 ^ 30 }
    ensures { result ≡ side_end row bit }
{
    side_start(row, bit) + 1
}
