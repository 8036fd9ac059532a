// What is told of a row.
ghost use Rattle.std.specs.Prelude.{◌≡◌, ◌≢◌, ◌<◌, ◌+◌, ◌*◌, ◌++◌, ◌∷◌, [], List, Some, length};
ghost use Rattle.std.specs.Option.{ForSome};
ghost use Rattle.td_doc.specs.Document.{DocRow, find_row};
ghost use Rattle.td_doc.specs.Slots.{own_slot};
ghost use Rattle.td_doc.specs.Answers.{row_told, live_before};
ghost use Rattle.td_list.specs.Items.{Item, IsItem, weight_of};
ghost use Rattle.td_brackets.specs.Brackets.{move_all, slot_round};
ghost use Rattle.td_tree.specs.declared.tree_row.RowState.TheVariants.{Gone};
ghost use Rattle.td_tree.specs.Parts.{state_at, table, tokens_of, doc_rows, IsTree};
ghost use Rattle.td_tree.specs.Stretches.{items_up_to};
ghost use Rattle.td_tree.specs.Walks.{StepsOver, ended_side};

use crate::tokens::Tokens;
use crate::tree_row::RowState;
use td_base::{Atom, Bit};
use td_doc::Row;
use td_list::Sequence;
use td_path::Slot;

impl Tokens {
    /// What is told of a row, whose index is known.
    pub fn told(&self, row: u32, index: u32) -> Row
        requires tree { IsTree self.now }
        requires row { row < length self.now.rows }
        requires stands { state_at self.now row ≢ Gone }
        requires index { index ≡ live_before (table self.now row).id (doc_rows self.now) }
        ensures { row_told (doc_rows self.now) (table self.now row).id ≡ Some result }
    {
        let slot = self.own_slot(row);
        Row {
            id: self.id(row),
            slot,
            atom: self.atom(row),
            deletes: self.delete_count(row),
            index,
        }
    }

    fn atom(&self, row: u32) -> Atom
        requires { row < length self.now.rows }
        ensures { result ≡ (table self.now row).atom }
    {
        Atom::of(self.atom_bytes(row))
    }

    /// The number of live rows before a row.
    pub fn index(&self, row: u32) -> u32
        requires tree { IsTree self.now }
        requires row { row < length self.now.rows }
        requires stands { state_at self.now row ≢ Gone }
        ensures { result ≡ live_before (table self.now row).id (doc_rows self.now) }
    {
        let place = self.place_of(row);
        self.list.weight_before(place.name) + place.rest
    }

    /// The number of live rows before a place.
    pub fn index_at(&self, at: Option<u32>) -> u32
        requires there { ForSome at (λ x. IsItem x self.now.items) }
        ensures { result ≡ weight_of (items_up_to at self.now.items) }
    {
        match at {
            Some(name) => self.list.weight_before(name),
            None => self.list.weight(),
        }
    }

    // The slot in which a row stands.
    fn own_slot(&self, row: u32) -> Slot
        requires tree { IsTree self.now }
        requires row { row < length self.now.rows }
        requires stands { state_at self.now row ≢ Gone }
        ensures { (q : DocRow) → find_row (table self.now row).id (doc_rows self.now) ≡ Some q → own_slot q ≡ result }
    {
        match self.state(row) {
            RowState::InArray { array, index } => {
                let leaf = self.leaf_of(array, index);
                let slot = self.part_of(leaf, index).slot;
                if slot.is_some() {
                    return slot.unwrap_or(Slot::Root);
                }
                self.slot_after(3 * self.row_in(array, leaf.middle()) + 1)
            }
            _ => self.slot_after(3 * row + 2),
        }
    }

    // The slot that goes on behind a token: over the siblings that follow, to the token that ends it.
    fn slot_after(&self, name: u32) -> Slot
        requires tree { IsTree self.now }
        requires there { IsItem name self.now.items }
        ensures { (front : List Item) (i : Item) (back : List Item) → self.now.items ≡ front ++ i ∷ back → i.name ≡ name
            → result ≡ slot_round (table self.now) (move_all [] (tokens_of self.now (front ++ i ∷ []))) }
    {
        let mut at = self.next(name);
        while let Some(name) = at {
            match self.step_over(name) {
                Some(last) => at = self.next(last),
                None => {
                    return Slot::At {
                        atom: self.id(name / 3),
                        bit: ended_side(name),
                    };
                }
            }
        }
        Slot::Root
    }

    // The last token of the sibling that begins with a token; none where a slot ends there.
    fn step_over(&self, name: u32) -> Option<u32>
        requires tree { IsTree self.now }
        requires there { IsItem name self.now.items }
        ensures { StepsOver self.now name result }
    {
        let row = name / 3;
        match name % 3 {
            0 => Some(name + 2),
            1 => match self.state(row) {
                RowState::InArray { .. } => Some(name),
                _ => None,
            },
            _ => None,
        }
    }
}

// The side that ends with an atom, or with a closing bracket.
fn ended_side(name: u32) -> Bit
    ensures { result ≡ ended_side name }
{
    if name % 3 == 1 { Bit::Left } else { Bit::Right }
}
