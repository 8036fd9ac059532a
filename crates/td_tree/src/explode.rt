// Leaves are opened on the way of an edit.
ghost use Rattle.std.specs.Prelude.{◌≡◌, ◌≢◌, ◌<◌, ◌≤◌, ◌+◌, ◌*◌, ◌/◌, ◌^◌, ◌++◌, ◌∷◌, ℕ, List, [], length, take, drop, IfOk, OnOk, Option};
ghost use Rattle.td_base.specs.Lists.{In};
ghost use Rattle.td_brackets.specs.Brackets.{Leaf};
ghost use Rattle.td_tree.specs.declared.tree_row.RowState.TheVariants.{Node, Gone};
ghost use Rattle.td_tree.specs.Parts.{state_at, tokens, array_at, row_of_array, leaf_item, leaf_items, option_items, IsPart, IsTree, IsMoreOpen};
ghost use Rattle.td_tree.specs.Ways.{opened_items, IsWay};

use crate::item_of::atom_item;
use crate::states::make_nodes;
use crate::stretch::Stretch;
use crate::tokens::Tokens;
use crate::tree_row::RowState;
use crate::way::Way;
use td_base::Memory;
use td_list::Item;

impl Tokens {
    /// Opens the leaf of a row down to it, so that it is a node. What a want of memory leaves undone changes no row.
    pub fn open_to(&mut self, row: u32) -> Result<(), Memory>
        requires tree { IsTree self.old }
        requires row { row < length self.old.rows }
        requires here { state_at self.old row ≢ Gone }
        ensures kept { IsMoreOpen self.old self.new }
        ensures node { OnOk result (state_at self.new row ≡ Node) }
        ensures same { state_at self.old row ≡ Node → self.new ≡ self.old }
        ensures few { (rs : List ℕ) → In (Leaf rs) (tokens self.old) → In row rs → (d : ℕ) → length rs < 2 ^ d
            → self.new.nodes ≤ self.old.nodes + d }
    {
        match self.state(row) {
            RowState::InArray { array, index } => {
                let leaf = self.leaf_of(array, index);
                self.open_down(leaf, index)
            }
            _ => Ok(()),
        }
    }

    // Opens a leaf down to the row at an index of its array.
    fn open_down(&mut self, leaf: Stretch, index: u32) -> Result<(), Memory>
        requires tree { IsTree self.old }
        requires part { IsPart self.old leaf.array leaf.from leaf.len }
        requires there { In (leaf_item self.old leaf.array leaf.from leaf.len) self.old.items }
        requires low { leaf.from ≤ index }
        requires high { index < leaf.from + leaf.len }
        ensures kept { IsMoreOpen self.old self.new }
        ensures node { OnOk result (state_at self.new (row_of_array self.old leaf.array index) ≡ Node) }
        ensures few { (d : ℕ) → leaf.len < 2 ^ d → self.new.nodes ≤ self.old.nodes + d }
    {
        let name = self.whole(leaf).name();
        let way = self.way_down(leaf, index)?;
        self.list.replace_one(name, &way.piece)?;
        make_nodes(&mut self.states, &way.tops);
        self.nodes += way.tops.len() as u32;
        Ok(())
    }

    // What comes in place of a leaf where it is opened down to a row: step by step the leaf with the row in it is
    // opened.
    fn way_down(&self, whole: Stretch, index: u32) -> Result<Way, Memory>
        requires tree { IsTree self.now }
        requires part { IsPart self.now whole.array whole.from whole.len }
        requires there { In (leaf_item self.now whole.array whole.from whole.len) self.now.items }
        requires low { whole.from ≤ index }
        requires high { index < whole.from + whole.len }
        ensures { IfOk result (λ way. IsWay self.now whole index way.piece.items way.tops.items) }
    {
        let mut way = Way::new(self.alloc, self.whole(whole))?;
        let mut leaf = whole;
        let mut place = 0;
        while leaf.middle() != index {
            self.open_in(&mut way, place, leaf)?;
            place += leaf.tokens_before_half(index);
            leaf = leaf.half_with(index);
        }
        self.open_in(&mut way, place, leaf)?;
        Ok(way)
    }

    // Opens a leaf at a place of the piece one step: its middle row becomes a node, with what stood before it and
    // after it as leaves.
    fn open_in(&self, way: &mut Way, place: usize, leaf: Stretch) -> Result<(), Memory>
        requires tree { IsTree self.now }
        requires array { leaf.array < length self.now.arrays }
        requires some { 0 < leaf.len }
        requires within { leaf.from + leaf.len ≤ length (array_at self.now leaf.array) }
        requires place { place < length way.old.piece.items }
        ensures piece { OnOk result (way.new.piece.items ≡ take place way.old.piece.items
            ++ opened_items self.now leaf.array leaf.from leaf.len ++ drop (place + 1) way.old.piece.items) }
        ensures tops { OnOk result (way.new.tops.items
            ≡ way.old.tops.items ++ row_of_array self.now leaf.array (leaf.from + leaf.len / 2) ∷ []) }
    {
        let top = self.row_in(leaf.array, leaf.middle());
        way.open(
            place,
            top,
            self.leaf_item(leaf.before()),
            self.leaf_item(leaf.after()),
        )
    }

    /// The row at a place of an array.
    pub fn row_in(&self, array: u32, place: u32) -> u32
        requires array { array < length self.now.arrays }
        requires place { (k : ℕ) → k ≡ array → place < length (array_at self.now k) }
        ensures { result ≡ row_of_array self.now array place }
    {
        self.arrays[array as usize].rows[place as usize]
    }

    // The item of a part of an array that is to be a leaf; none where it has no rows.
    fn leaf_item(&self, part: Stretch) -> Option<Item>
        requires tree { IsTree self.now }
        requires array { part.array < length self.now.arrays }
        requires within { part.from + part.len ≤ length (array_at self.now part.array) }
        ensures { option_items result ≡ leaf_items self.now part.array part.from part.len }
    {
        if part.len == 0 {
            return None;
        }
        Some(self.whole(part))
    }

    // The item of a leaf.
    fn whole(&self, leaf: Stretch) -> Item
        requires tree { IsTree self.now }
        requires array { leaf.array < length self.now.arrays }
        requires some { 0 < leaf.len }
        requires within { leaf.from + leaf.len ≤ length (array_at self.now leaf.array) }
        ensures { result ≡ leaf_item self.now leaf.array leaf.from leaf.len }
    {
        atom_item(self.row_in(leaf.array, leaf.middle()), leaf.len)
    }
}
