// What a vector knows of the rows.
ghost use Rattle.std.specs.Prelude.{◌≡◌, ◌≢◌, ◌<◌, ◌≤◌, ◌+◌, ℕ, length};
ghost use Rattle.std.specs.List.{list_all};
ghost use Rattle.td_base.specs.Lists.{In};
ghost use Rattle.td_path.specs.declared.slot.Slot.TheVariants.{Root, At};
ghost use Rattle.td_doc.specs.Slots.{is_known};
ghost use Rattle.td_list.specs.Items.{Item};
ghost use Rattle.td_brackets.specs.RowNumbers.{is_known_entry};
ghost use Rattle.td_tree.specs.declared.tree_row.RowState.TheVariants.{Gone};
ghost use Rattle.td_tree.specs.Parts.{state_at, table, array_at, part, doc_rows, IsTree};
ghost use Rattle.td_tree.specs.Reading.{shown_at, shown};
ghost use Rattle.td_tree.specs.Walks.{IsStretch};

use crate::found::items_up_to;
use crate::side::{side_end, side_start};
use crate::stretch::Stretch;
use crate::tokens::Tokens;
use crate::tree_row::RowState;
use td_base::Bit;
use td_clock::Vector;
use td_list::Item;

impl Tokens {
    /// Whether the vector has all that was done to the rows.
    pub fn are_all_known(&self, v: &Vector) -> bool
        requires { IsTree self.now }
        ensures { result ≡ is_known (doc_rows self.now) Root v.now }
    {
        self.are_known(self.first(), None, v)
    }

    /// Whether the vector has all that was done to the rows on a side of a row.
    pub fn is_side_known(&self, row: u32, bit: Bit, v: &Vector) -> bool
        requires tree { IsTree self.now }
        requires row { row < length self.now.rows }
        requires stands { state_at self.now row ≢ Gone }
        ensures { result ≡ is_known (doc_rows self.now) (At (table self.now row).id bit) v.now }
    {
        match self.state(row) {
            RowState::InArray { array, index } => {
                let side = self.leaf_side(array, index, bit);
                self.is_part_known(side, v)
            }
            _ => {
                let first = self.next(side_start(row, bit));
                self.are_known(first, Some(side_end(row, bit)), v)
            }
        }
    }

    // Whether all is known of the rows of the tokens from one on up to an end.
    fn are_known(&self, first: Option<u32>, end: Option<u32>, v: &Vector) -> bool
        requires tree { IsTree self.now }
        requires stretch { IsStretch self.now first end }
        ensures { (s : IsStretch self.now first end)
            → result ≡ list_all (λ (r : ℕ). is_known_entry v.now (table self.now r)) (shown self.now s.inner) }
    {
        let mut at = first;
        while at != end {
            let Some(name) = at else {
                return true;
            };
            let (lent, behind) = self.list.lend_from(name);
            let items = items_up_to(lent, end);
            if !self.are_items_known(items, v) {
                return false;
            }
            at = if items.len() < lent.len() {
                end
            } else {
                behind
            };
        }
        true
    }

    fn are_items_known(&self, items: &[Item], v: &Vector) -> bool
        requires tree { IsTree self.now }
        requires there { (i : Item) → In i items.now → In i self.now.items }
        ensures { result ≡ list_all (λ (r : ℕ). is_known_entry v.now (table self.now r)) (shown self.now items.now) }
    {
        for item in items {
            if !self.is_item_known(*item, v) {
                return false;
            }
        }
        true
    }

    // A bracket has no rows.
    fn is_item_known(&self, item: Item, v: &Vector) -> bool
        requires tree { IsTree self.now }
        requires there { In item self.now.items }
        ensures { result ≡ list_all (λ (r : ℕ). is_known_entry v.now (table self.now r)) (shown_at self.now item) }
    {
        if item.name() % 3 != 1 {
            return true;
        }
        match self.leaf_at(item) {
            Some(leaf) => self.is_part_known(leaf, v),
            None => self.is_row_known(item.name() / 3, v),
        }
    }

    fn is_part_known(&self, rows: Stretch, v: &Vector) -> bool
        requires tree { IsTree self.now }
        requires array { rows.array < length self.now.arrays }
        requires within { rows.from + rows.len ≤ length (array_at self.now rows.array) }
        ensures { result ≡ list_all (λ (r : ℕ). is_known_entry v.now (table self.now r))
            (part (array_at self.now rows.array) rows.from rows.len) }
    {
        for place in 0..rows.len {
            if !self.is_row_known(self.row_in(rows.array, rows.from + place), v) {
                return false;
            }
        }
        true
    }

    // Whether the vector has the dot of the row's identity and its delete dots.
    fn is_row_known(&self, row: u32, v: &Vector) -> bool
        requires { row < length self.now.rows }
        ensures { result ≡ is_known_entry v.now (table self.now row) }
    {
        v.has(self.id(row).dot) && self.are_deletes_known(row, v)
    }
}
