// Where rows stand among the tokens.
ghost use Rattle.std.specs.Prelude.{◌≡◌, ◌≢◌, ◌<◌, ◌^◌, length, slice_get};
ghost use Rattle.td_base.specs.Lists.{In};
ghost use Rattle.td_list.specs.Items.{Item, IsItem};
ghost use Rattle.td_tree.specs.declared.tree_row.RowState.TheVariants.{Gone};
ghost use Rattle.td_doc.specs.Answers.{stands_before};
ghost use Rattle.td_tree.specs.Parts.{state_at, table, doc_rows, IsTree};
ghost use Rattle.td_tree.specs.Reading.{shown_at, StandsAt};

use crate::tokens::Tokens;
use crate::tree_row::RowState;
use td_list::Sequence;

/// A row by its token: the name of the token, and how many of its rows come before.
#[derive(Clone, Copy, Debug)]
pub struct Place {
    pub name: u32,
    pub rest: u32,
}

impl Tokens {
    /// Where a row stands.
    pub fn place_of(&self, row: u32) -> Place
        requires tree { IsTree self.now }
        requires row { row < length self.now.rows }
        requires stands { state_at self.now row ≢ Gone }
        ensures place { StandsAt self.now row result.name result.rest }
        ensures there { IsItem result.name self.now.items }
        ensures few { result.rest < 2 ^ 30 }
    {
        match self.state(row) {
            RowState::InArray { array, index } => {
                let leaf = self.leaf_of(array, index);
                Place {
                    name: 3 * self.row_in(array, leaf.middle()) + 1,
                    rest: index - leaf.from,
                }
            }
            _ => Place {
                name: 3 * row + 1,
                rest: 0,
            },
        }
    }

    /// Whether a row stands before another.
    pub fn is_row_before(&self, row: u32, other: u32) -> bool
        requires tree { IsTree self.now }
        requires row { row < length self.now.rows }
        requires stands { state_at self.now row ≢ Gone }
        requires other { other < length self.now.rows }
        requires other_stands { state_at self.now other ≢ Gone }
        ensures { result ≡ stands_before (doc_rows self.now) (table self.now row).id (table self.now other).id }
    {
        let first = self.place_of(row);
        let second = self.place_of(other);
        if first.name == second.name {
            first.rest < second.rest
        } else {
            self.list.is_before(first.name, second.name)
        }
    }

    /// The row behind so many rows of a token.
    pub fn row_at(&self, place: Place) -> Option<u32>
        requires tree { IsTree self.now }
        requires there { IsItem place.name self.now.items }
        ensures { (i : Item) → In i self.now.items → i.name ≡ place.name
            → result ≡ slice_get (shown_at self.now i) place.rest }
    {
        if place.name % 3 != 1 {
            return None;
        }
        let row = place.name / 3;
        match self.state(row) {
            RowState::InArray { array, index } => {
                let len = self.list.get(place.name).weight();
                if place.rest < len {
                    Some(self.row_in(array, index - len / 2 + place.rest))
                } else {
                    None
                }
            }
            _ => { if place.rest == 0 { Some(row) } else { None } }
        }
    }
}
