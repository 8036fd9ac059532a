// The rows in their order.
ghost use Rattle.std.specs.Prelude.{◌≡◌, ◌≢◌, ◌<◌, ◌++◌, ℕ, length, drop, IfSome};
ghost use Rattle.std.specs.Option.{option_map};
ghost use Rattle.td_base.specs.Lists.{In};
ghost use Rattle.td_doc.specs.Document.{live_id_at, live_rows};
ghost use Rattle.td_doc.specs.Allocation.{first_id, next_id};
ghost use Rattle.td_list.specs.Items.{Item, IsItem, items_after};
ghost use Rattle.td_brackets.specs.RowNumbers.{first_number};
ghost use Rattle.td_tree.specs.declared.tree_row.RowState.TheVariants.{Gone};
ghost use Rattle.td_tree.specs.Parts.{state_at, table, doc_rows, IsTree};
ghost use Rattle.td_tree.specs.Reading.{shown_at, shown};

use crate::row_place::Place;
use crate::tokens::Tokens;
use td_list::Sequence;

impl Tokens {
    /// The row that follows a row.
    pub fn row_after(&self, row: u32) -> Option<u32>
        requires tree { IsTree self.now }
        requires row { row < length self.now.rows }
        requires stands { state_at self.now row ≢ Gone }
        ensures id { next_id (table self.now row).id (doc_rows self.now)
            ≡ option_map (λ (r : ℕ). (table self.now r).id) result }
        ensures known { IfSome result (λ r. r < length self.now.rows) }
    {
        let place = self.place_of(row);
        self.row_from(Place {
            name: place.name,
            rest: place.rest + 1,
        })
    }

    /// The first row.
    pub fn first_row(&self) -> Option<u32>
        requires { IsTree self.now }
        ensures id { first_id (doc_rows self.now) ≡ option_map (λ (r : ℕ). (table self.now r).id) result }
        ensures known { IfSome result (λ r. r < length self.now.rows) }
    {
        match self.list.first() {
            Some(name) => self.row_from(Place { name, rest: 0 }),
            None => None,
        }
    }

    // The row behind so many rows of a token, or else the first row of the tokens after it.
    fn row_from(&self, place: Place) -> Option<u32>
        requires tree { IsTree self.now }
        requires there { IsItem place.name self.now.items }
        ensures row { (i : Item) → In i self.now.items → i.name ≡ place.name
            → result ≡ first_number (drop place.rest (shown_at self.now i)
            ++ shown self.now (items_after place.name self.now.items)) }
        ensures known { IfSome result (λ r. r < length self.now.rows) }
    {
        match self.row_at(place) {
            Some(row) => Some(row),
            None => match self.list.next_marked(place.name) {
                Some(name) => self.row_at(Place { name, rest: 0 }),
                None => None,
            },
        }
    }

    /// The live row at an index among them.
    pub fn live_row(&self, index: u32) -> Option<u32>
        requires { IsTree self.now }
        ensures id { live_id_at (doc_rows self.now) index ≡ option_map (λ (r : ℕ). (table self.now r).id) result }
        ensures known { IfSome result (λ r. r < length self.now.rows) }
    {
        match self.list.share_at(index) {
            Some(share) => self.row_at(Place {
                name: share.name,
                rest: share.rest,
            }),
            None => None,
        }
    }

    /// The number of live rows.
    pub fn live(&self) -> u32
        requires { IsTree self.now }
        ensures { result ≡ length (live_rows (doc_rows self.now)) }
    {
        self.list.weight()
    }
}
