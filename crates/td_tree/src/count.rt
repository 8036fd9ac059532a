// How many rows a slot contains.
ghost use Rattle.std.specs.Prelude.{◌≡◌, ◌≢◌, ◌<◌, ◌≤◌, ◌^◌, length};
ghost use Rattle.td_base.specs.Lists.{In};
ghost use Rattle.td_path.specs.declared.slot.Slot.TheVariants.{At};
ghost use Rattle.td_doc.specs.Slots.{rows_in_slot};
ghost use Rattle.td_list.specs.Items.{Item};
ghost use Rattle.td_tree.specs.declared.tree_row.RowState.TheVariants.{Gone};
ghost use Rattle.td_tree.specs.Parts.{state_at, table, doc_rows, IsTree};
ghost use Rattle.td_tree.specs.Reading.{shown_at, shown};
ghost use Rattle.td_tree.specs.Walks.{IsStretch};

use crate::found::items_up_to;
use crate::side::{side_end, side_start};
use crate::tokens::Tokens;
use crate::tree_row::RowState;
use td_base::Bit;
use td_list::Item;

impl Tokens {
    /// How many rows are on a side of a row.
    pub fn side_count(&self, row: u32, bit: Bit) -> u32
        requires tree { IsTree self.now }
        requires row { row < length self.now.rows }
        requires stands { state_at self.now row ≢ Gone }
        ensures { result ≡ length (rows_in_slot (doc_rows self.now) (At (table self.now row).id bit)) }
    {
        match self.state(row) {
            RowState::InArray { array, index } => self.leaf_side(array, index, bit).len,
            _ => {
                let first = self.next(side_start(row, bit));
                self.count_between(first, Some(side_end(row, bit)))
            }
        }
    }

    // How many rows the tokens have from one on up to an end.
    fn count_between(&self, first: Option<u32>, end: Option<u32>) -> u32
        requires tree { IsTree self.now }
        requires stretch { IsStretch self.now first end }
        ensures { (s : IsStretch self.now first end) → result ≡ length (shown self.now s.inner) }
    {
        let mut count = 0;
        let mut at = first;
        while at != end {
            let Some(name) = at else {
                return count;
            };
            let (lent, behind) = self.list.lend_from(name);
            let items = items_up_to(lent, end);
            count += self.count_items(items);
            at = if items.len() < lent.len() {
                end
            } else {
                behind
            };
        }
        count
    }

    fn count_items(&self, items: &[Item]) -> u32
        requires tree { IsTree self.now }
        requires there { (i : Item) → In i items.now → In i self.now.items }
        requires few { length (shown self.now items.now) ≤ 2 ^ 30 }
        ensures { result ≡ length (shown self.now items.now) }
    {
        let mut count = 0;
        for item in items {
            count += self.count_item(*item);
        }
        count
    }

    // A bracket has no rows.
    fn count_item(&self, item: Item) -> u32
        requires tree { IsTree self.now }
        requires there { In item self.now.items }
        ensures { result ≡ length (shown_at self.now item) }
    {
        if item.name() % 3 != 1 {
            return 0;
        }
        match self.leaf_at(item) {
            Some(leaf) => leaf.len,
            None => 1,
        }
    }
}
