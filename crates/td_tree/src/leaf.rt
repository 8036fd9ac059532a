// Where the rows of arrays stand.
ghost use Rattle.std.specs.Prelude.{◌≡◌, ◌<◌, ◌≤◌, ◌+◌, ◌/◌, ◌%◌, ◌↔◌, length, IsTrue, IfSome, IfNone};
ghost use Rattle.td_base.specs.Lists.{In};
ghost use Rattle.td_brackets.specs.Brackets.{Atom, Leaf};
ghost use Rattle.td_tree.specs.declared.tree_row.RowState.TheVariants.{InArray};
ghost use Rattle.td_tree.specs.Parts.{state_at, array_at, part, token_of, row_of_array, leaf_item, IsPart, IsTree};

use crate::stretch::Stretch;
use crate::tokens::Tokens;
use crate::tree_row::RowState;
use td_list::Item;

impl Tokens {
    /// The leaf that the token of a row is, which is named by its top; none where it is a row in brackets.
    pub fn leaf_at(&self, item: Item) -> Option<Stretch>
        requires tree { IsTree self.now }
        requires there { In item self.now.items }
        requires kind { item.name % 3 ≡ 1 }
        ensures part { IfSome result (λ s. IsPart self.now s.array s.from s.len) }
        ensures leaf { IfSome result (λ s.
            token_of self.now item ≡ Leaf (part (array_at self.now s.array) s.from s.len)) }
        ensures row { IfNone result (token_of self.now item ≡ Atom (item.name / 3)) }
    {
        match self.state(item.name() / 3) {
            RowState::InArray { array, index } => {
                let len = item.weight();
                let from = index - len / 2;
                Some(Stretch { array, from, len })
            }
            _ => None,
        }
    }

    /// The leaf in which the row at an index of an array stands: from the whole array down, past the rows that have
    /// left it.
    pub fn leaf_of(&self, array: u32, index: u32) -> Stretch
        requires tree { IsTree self.now }
        requires array { array < length self.now.arrays }
        requires index { index < length (array_at self.now array) }
        requires stands { state_at self.now (row_of_array self.now array index) ≡ InArray array index }
        ensures array { result.array ≡ array }
        ensures part { IsPart self.now array result.from result.len }
        ensures leaf { In (leaf_item self.now array result.from result.len) self.now.items }
        ensures low { result.from ≤ index }
        ensures high { index < result.from + result.len }
    {
        let mut from = 0;
        let mut len = self.arrays[array as usize].rows.len() as u32;
        loop {
            let middle = from + len / 2;
            if self.stands(array, middle) {
                return Stretch { array, from, len };
            }
            if index < middle {
                len = len / 2;
            } else {
                from = middle + 1;
                len -= len / 2 + 1;
            }
        }
    }

    // Whether the row at an index of an array still stands in it.
    fn stands(&self, array: u32, index: u32) -> bool
        requires tree { IsTree self.now }
        requires array { array < length self.now.arrays }
        requires index { index < length (array_at self.now array) }
        ensures { IsTrue result ↔ (state_at self.now (row_of_array self.now array index) ≡ InArray array index) }
    {
        self.state(self.row_in(array, index)) == RowState::InArray { array, index }
    }
}
