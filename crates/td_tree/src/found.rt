// What stands in a stretch of tokens.
ghost use Rattle.std.specs.Prelude.{◌≡◌, ◌<◌, ◌≤◌, ◌+◌, ◌%◌, ◌^◌, length, IfOk, OnOk};
ghost use Rattle.td_base.specs.Lists.{In};
ghost use Rattle.td_brackets.specs.RowNumbers.{row_numbers};
ghost use Rattle.td_list.specs.Items.{Item};
ghost use Rattle.td_tree.specs.Parts.{array_at, part, token_of, tokens_of, IsTree};
ghost use Rattle.td_tree.specs.Stretches.{IsFound, IsFoundAt, IsFoundAmong, items_up_to};
ghost use Rattle.td_tree.specs.Walks.{IsStretch};

use crate::stretch::Stretch;
use crate::tokens::Tokens;
use td_base::Memory;
use td_list::Item;

/// The rows of a stretch: the live ones in their order, those with brackets, and how many tombstones.
#[derive(Debug, Drop)]
pub struct Found {
    pub live: Vec<u32>,
    pub nodes: Vec<u32>,
    pub dead: u32,
}

impl Tokens {
    /// What stands from a token on up to another, or to the end.
    pub fn found_in(&self, first: Option<u32>, end: Option<u32>) -> Result<Found, Memory>
        requires tree { IsTree self.now }
        requires stretch { IsStretch self.now first end }
        ensures { IfOk result (λ f. (s : IsStretch self.now first end)
            → IsFound self.now (tokens_of self.now s.inner) f.live.items f.nodes.items f.dead) }
    {
        let mut found = Found {
            live: Vec::new(self.alloc),
            nodes: Vec::new(self.alloc),
            dead: 0,
        };
        let mut at = first;
        while at != end {
            let Some(name) = at else {
                return Ok(found);
            };
            let (lent, behind) = self.list.lend_from(name);
            let items = items_up_to(lent, end);
            self.find_all(&mut found, items)?;
            at = if items.len() < lent.len() {
                end
            } else {
                behind
            };
        }
        Ok(found)
    }

    // Adds what some tokens are.
    fn find_all(&self, found: &mut Found, items: &[Item]) -> Result<(), Memory>
        requires tree { IsTree self.now }
        requires there { (i : Item) → In i items.now → In i self.now.items }
        requires few { found.old.dead + length (row_numbers (tokens_of self.now items.now)) ≤ 2 ^ 30 }
        ensures { OnOk result (IsFoundAmong self.now (tokens_of self.now items.now)
            found.old.live.items found.old.nodes.items found.old.dead
            found.new.live.items found.new.nodes.items found.new.dead) }
    {
        for k in 0..items.len() {
            self.find_item(found, items[k])?;
        }
        Ok(())
    }

    // Adds what a token is.
    fn find_item(&self, found: &mut Found, item: Item) -> Result<(), Memory>
        requires tree { IsTree self.now }
        requires there { In item self.now.items }
        requires few { found.old.dead < 2 ^ 31 }
        ensures { OnOk result (IsFoundAt self.now (token_of self.now item)
            found.old.live.items found.old.nodes.items found.old.dead
            found.new.live.items found.new.nodes.items found.new.dead) }
    {
        match item.name() % 3 {
            0 => {
                found.nodes.push(item.name() / 3)?;
                Ok(())
            }
            1 => self.find_row(found, item),
            _ => Ok(()),
        }
    }

    // Adds a row, or the rows of the leaf of which it is the top. A row in brackets weighs where no delete named it.
    fn find_row(&self, found: &mut Found, item: Item) -> Result<(), Memory>
        requires tree { IsTree self.now }
        requires there { In item self.now.items }
        requires kind { item.name % 3 ≡ 1 }
        requires few { found.old.dead < 2 ^ 31 }
        ensures { OnOk result (IsFoundAt self.now (token_of self.now item)
            found.old.live.items found.old.nodes.items found.old.dead
            found.new.live.items found.new.nodes.items found.new.dead) }
    {
        let row = item.name() / 3;
        match self.leaf_at(item) {
            Some(leaf) => {
                found.live.extend_from_slice(self.part(leaf))?;
                Ok(())
            }
            None => {
                if item.weight() > 0 {
                    found.live.push(row)?;
                } else {
                    found.dead += 1;
                }
                Ok(())
            }
        }
    }

    /// The rows of a part of an array.
    pub fn part(&self, place: Stretch) -> &[u32]
        requires array { place.array < length self.now.arrays }
        requires within { place.from + place.len ≤ length (array_at self.now place.array) }
        ensures { result.now ≡ part (array_at self.now place.array) place.from place.len }
    {
        let rows = &self.arrays[place.array as usize].rows;
        &rows[place.from as usize..place.from as usize + place.len as usize]
    }
}

/// The items before an end; all where it is none of them.
pub fn items_up_to(items: &[Item], end: Option<u32>) -> &[Item]
    ensures { result.now ≡ items_up_to end items.now }
{
    let Some(name) = end else {
        return items;
    };
    for place in 0..items.len() {
        if items[place].name() == name {
            return &items[..place];
        }
    }
    items
}
