// What comes in place of a leaf that is opened down to one of its rows.
ghost use Rattle.std.specs.Prelude.{◌≡◌, ◌<◌, ◌+◌, ◌^◌, ◌++◌, ◌∷◌, [], length, take, drop, IfOk, OnOk, Option};
ghost use Rattle.td_tree.specs.Parts.{node_items, option_items};

use crate::item_of::{atom_item, close_item, open_item};
use std::alloc::Global;
use td_base::Memory;
use td_list::{Item, put_each};

// So many tokens come in place of a leaf of some 100,000 rows at most.
const ROOM: usize = 80;

/// The tokens that come in place of a leaf, and the rows that are nodes from then on, in the order in which the leaf
/// is opened.
#[derive(Debug, Drop)]
pub struct Way {
    pub piece: Vec<Item>,
    pub tops: Vec<u32>,
}

impl Way {
    /// No step yet: the leaf stands as it is.
    pub fn new(alloc: Global, leaf: Item) -> Result<Way, Memory>
        ensures piece { IfOk result (λ way. way.piece.items ≡ leaf ∷ []) }
        ensures tops { IfOk result (λ way. way.tops.items ≡ []) }
    {
        let mut piece = Vec::new(alloc);
        piece.reserve(ROOM)?;
        piece.push(leaf)?;
        Ok(Way {
            piece,
            tops: Vec::new(alloc),
        })
    }

    /// One step: a row, with what stands before and after it, in place of the leaf at a place of the piece.
    pub fn open(
        &mut self,
        place: usize,
        top: u32,
        before: Option<Item>,
        after: Option<Item>,
    ) -> Result<(), Memory>
        requires few { top < 2 ^ 30 }
        requires place { place < length self.old.piece.items }
        ensures piece { OnOk result (self.new.piece.items ≡ take place self.old.piece.items
            ++ node_items top (option_items before) (option_items after)
            ++ drop (place + 1) self.old.piece.items) }
        ensures tops { OnOk result (self.new.tops.items ≡ self.old.tops.items ++ top ∷ []) }
    {
        let (open, atom, close) = (open_item(top), atom_item(top, 1), close_item(top));
        self.tops.push(top)?;
        let piece = &mut self.piece;
        match (before, after) {
            (None, None) => put_over(piece, place, open, &[atom, close]),
            (None, Some(right)) => put_over(piece, place, open, &[atom, right, close]),
            (Some(left), None) => put_over(piece, place, open, &[left, atom, close]),
            (Some(left), Some(right)) => put_over(piece, place, open, &[left, atom, right, close]),
        }
    }
}

// Puts an item in place of another, and more behind it.
fn put_over(items: &mut Vec<Item>, place: usize, first: Item, others: &[Item]) -> Result<(), Memory>
    requires { place < length items.old.items }
    ensures { OnOk result (items.new.items
        ≡ take place items.old.items ++ (first ∷ others.now) ++ drop (place + 1) items.old.items) }
{
    items.reserve(others.len())?;
    put_each(items, place + 1, others);
    items[place] = first;
    Ok(())
}
