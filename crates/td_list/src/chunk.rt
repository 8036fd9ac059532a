// A stretch of the items of a list.
ghost use Rattle.std.specs.Prelude.{◌≡◌, ◌<◌, ◌≤◌, ◌+◌, ◌-◌, ◌^◌, ◌++◌, ◌∷◌, ◌||◌, ℕ, [], length, take, drop, set, get_or, vec_len, vec_capacity, OnErr, OnOk, IfOk, Option};
ghost use Rattle.td_list.specs.Items.{IsItem, AreApart, place_of, has_mark, weight_of};
ghost use Rattle.td_list.specs.Index.{summary};
ghost use Rattle.td_list.specs.Places.{nothing};

use crate::edit::{lay_over, put_in, take_out};
use crate::item::Item;
use crate::scan::{has_mark, place_from, place_of, weight_of};
use std::alloc::Global;
use std::marker::Model;
use std::mem;
use td_base::Memory;

/// Items that stand next to each other.
#[derive(Debug, Drop)]
pub struct Chunk {
    items: Vec<Item>,
    weight: u32,
    marked: bool,
    // the place of the last edit, near which the next one is likely to be; nothing rests on it
    near: usize,
}

impl Model for Chunk {
    ghost use Rattle.std.specs.Prelude.{◌≡◌, ◌<◌, ◌^◌, List};
    ghost use Rattle.td_list.specs.Items.{Item, has_mark, weight_of};

    ghost Value = { List Item };

    ghost view = { λ c. c.items.items };

    ghost invariant = { λ c. (c.weight ≡ weight_of c.items.items) × (c.marked ≡ has_mark c.items.items)
        × (c.weight < 2 ^ 31) };
}

impl Chunk {
    pub fn new(alloc: Global) -> Chunk
        ensures { result ≡ [] }
    {
        Chunk {
            items: Vec::new(alloc),
            weight: 0,
            marked: false,
            near: 0,
        }
    }

    /// A chunk of these items.
    pub fn of(alloc: Global, items: &[Item]) -> Result<Chunk, Memory>
        requires { weight_of items.now < 2 ^ 31 }
        ensures { IfOk result (λ chunk. chunk ≡ items.now) }
    {
        Ok(Chunk {
            items: Vec::from_slice(alloc, items)?,
            weight: weight_of(items),
            marked: has_mark(items),
            near: 0,
        })
    }

    pub fn items(&self) -> &[Item]
        ensures { result.now ≡ self.now }
    {
        &self.items
    }

    /// What the order tells of this chunk, if this is its number.
    pub fn summary(&self, number: u32) -> Item
        ensures { result ≡ summary number self.now }
    {
        Item::new(number, self.weight, self.marked)
    }

    /// The place of an item. It is looked for behind the last edit first.
    pub fn place_of(&self, name: u32) -> usize
        requires there { IsItem name self.now }
        requires apart { AreApart self.now }
        ensures value { result ≡ place_of name self.now }
        ensures bound { result < length self.now }
        ensures few { result < usize.MAX }
    {
        match place_from(&self.items, name, self.near) {
            Some(place) => place,
            None => place_of(&self.items, name),
        }
    }

    /// The weight of the items before a place, by these or by the others, whichever are fewer.
    pub fn weight_to(&self, place: usize) -> u32
        requires place { place ≤ length self.now }
        requires light { weight_of self.now < 2 ^ 31 }
        ensures { result ≡ weight_of (take place self.now) }
    {
        if place > self.items.len() / 2 {
            self.weight - weight_of(&self.items[place..])
        } else {
            weight_of(&self.items[..place])
        }
    }

    // Puts a piece at a place.
    fn put(&mut self, place: usize, piece: &[Item], aside: &mut Vec<Item>) -> Result<(), Memory>
        requires place { place ≤ length self.old }
        requires light { weight_of self.old + weight_of piece.now < 2 ^ 31 }
        ensures ok { OnOk result (self.new ≡ take place self.old ++ piece.now ++ drop place self.old) }
        ensures err { OnErr result (self.new ≡ self.old) }
    {
        put_in(&mut self.items, place, piece, aside)?;
        self.weight += weight_of(piece);
        self.marked = is_marked_with(self.marked, piece);
        Ok(())
    }

    /// Puts a piece in place of the items from a place up to another. In the other list lies meanwhile what stands
    /// behind them.
    pub fn splice(
        &mut self,
        from: usize,
        to: usize,
        piece: &[Item],
        aside: &mut Vec<Item>,
    ) -> Result<(), Memory>
        requires from { from ≤ to }
        requires to { to ≤ length self.old }
        requires light { weight_of self.old + weight_of piece.now < 2 ^ 31 }
        ensures ok { OnOk result (self.new ≡ take from self.old ++ piece.now ++ drop to self.old) }
        ensures err { OnErr result (self.new ≡ self.old) }
    {
        if piece.len() < to - from {
            self.put(to, piece, aside)?;
            self.take_out(from, to);
        } else {
            let (over, more) = piece.split_at(to - from);
            self.put(to, more, aside)?;
            if from < to {
                self.lay(from, to, over);
            }
        }
        self.near = from;
        Ok(())
    }

    // Lays items over those from a place up to another.
    fn lay(&mut self, from: usize, to: usize, over: &[Item])
        requires long { from + length over.now ≡ to }
        requires within { to ≤ length self.old }
        requires light { weight_of self.old + weight_of over.now < 2 ^ 31 }
        ensures { self.new ≡ take from self.old ++ over.now ++ drop to self.old }
    {
        let gone = weight_of(&self.items[from..to]);
        lay_over(&mut self.items, from, to, over);
        self.weight = self.weight - gone + weight_of(over);
        self.marked = has_mark(&self.items);
    }

    /// Takes out the items from a place up to another.
    pub fn take_out(&mut self, from: usize, to: usize)
        requires from { from ≤ to }
        requires to { to ≤ length self.old }
        ensures { self.new ≡ take from self.old ++ drop to self.old }
    {
        self.weight -= weight_of(&self.items[from..to]);
        take_out(&mut self.items, from, to);
        self.marked = has_mark(&self.items);
        // the last edit's place moves with its items
        self.near = self.near.saturating_sub(to - from).max(self.near.min(from));
    }

    /// The items that a cut parts from a place.
    pub fn beyond(&self, cut: usize, place: usize) -> &[Item]
        requires { cut ≤ length self.now }
        ensures back { place < cut → result.now ≡ drop cut self.now }
        ensures front { cut ≤ place → result.now ≡ take cut self.now }
    {
        if place < cut {
            &self.items[cut..]
        } else {
            &self.items[..cut]
        }
    }

    /// Keeps the items from a cut on, and gives those before it. Those that the cut parts from a place come as a copy,
    /// in memory that just fits them. The others keep the memory with room for more: items are to be put at the place.
    pub fn part(&mut self, cut: usize, place: usize, copy: Chunk) -> Chunk
        requires cut { cut ≤ length self.old }
        requires back { place < cut → copy ≡ drop cut self.old }
        requires front { cut ≤ place → copy ≡ take cut self.old }
        ensures front { result ≡ take cut self.old }
        ensures back { self.new ≡ drop cut self.old }
    {
        if place < cut {
            let end = self.items.len();
            self.take_out(cut, end);
            mem::replace(self, copy)
        } else {
            self.take_out(0, cut);
            copy
        }
    }

    /// Puts another item at a place.
    pub fn renew(&mut self, place: usize, item: Item)
        requires place { place < length self.old }
        requires light { weight_of self.old + item.weight < 2 ^ 31 + (get_or self.old place nothing).weight }
        ensures { self.new ≡ take place self.old ++ item ∷ drop (place + 1) self.old }
    {
        let old = self.items[place];
        self.weight -= old.weight();
        self.weight += item.weight();
        self.items[place] = item;
        if item.marked() != old.marked() {
            self.marked = has_mark(&self.items);
        }
        self.near = place;
    }
}

// Whether there is a mark, or one in the piece.
fn is_marked_with(marked: bool, piece: &[Item]) -> bool
    ensures { result ≡ (marked || has_mark piece.now) }
{
    marked || has_mark(piece)
}
