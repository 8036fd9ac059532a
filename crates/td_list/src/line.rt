ghost use Rattle.std.specs.Prelude.{◌≡◌, ◌<◌, ◌≤◌, ◌+◌, ◌-◌, ◌^◌, ◌++◌, ◌∷◌, ℕ, List, [], nat_lt, length, take, drop, get_or, IfOk, OnOk, OnErr};
ghost use Rattle.td_list.specs.Items.{Item, IsItem, AreApart, AreNew, items_before, items_from, items_after, put_before, without, renew, place_of, first_name, last_name, first_marked, share_at, weight_of};
ghost use Rattle.td_list.specs.Places.{nothing, ArePlaces, IsLine};

use crate::edit::put_each;
use crate::homes::grow;
use crate::item::{Item, Share};
use crate::scan::{first_marked, share_at, weight_of};
use crate::sequence::Sequence;
use std::alloc::Global;
use std::marker::Model;
use td_base::Memory;

/// A list in one line, with the place of each item by its name. It suits a few hundred items: what is put or taken out
/// moves all that follow.
#[derive(Debug, Drop)]
pub struct Line {
    items: Vec<Item>,
    places: Vec<u32>,
    weight: u32,
}

impl Model for Line {
    ghost use Rattle.std.specs.Prelude.{◌≡◌, List};
    ghost use Rattle.td_list.specs.Items.{Item, weight_of};
    ghost use Rattle.td_list.specs.Places.{IsLine};

    ghost Value = { List Item };

    ghost view = { λ l. l.items.items };

    ghost invariant = { λ l. IsLine l.items.items l.places.items × (l.weight ≡ weight_of l.items.items) };
}

impl Line {
    // The place of an item.
    fn place(&self, name: u32) -> usize
        requires { IsItem name self.now }
        ensures value { result ≡ place_of name self.now }
        ensures bound { result < length self.now }
        ensures few { result < 2 ^ 32 }
    {
        self.places[name as usize] as usize
    }

    // The item at a place.
    fn name_at(&self, place: usize) -> Option<u32>
        ensures { result ≡ first_name (drop place self.now) }
    {
        if place < self.items.len() {
            Some(self.items[place].name())
        } else {
            None
        }
    }

    // Puts a piece at a place.
    fn put(&mut self, place: usize, piece: &[Item]) -> Result<(), Memory>
        requires place { place ≤ length self.old }
        requires apart { AreApart piece.now }
        requires new { AreNew piece.now self.old }
        requires light { weight_of self.old + weight_of piece.now < 2 ^ 31 }
        ensures ok { OnOk result (self.new ≡ take place self.old ++ piece.now ++ drop place self.old) }
        ensures err { OnErr result (self.new ≡ self.old) }
    {
        if self.items.len() + piece.len() > u32::MAX as usize {
            return Err(Memory);
        }
        grow(&mut self.places, piece)?;
        self.items.reserve(piece.len())?;
        put_each(&mut self.items, place, piece);
        note(&mut self.places, &self.items, place);
        self.weight += weight_of(piece);
        Ok(())
    }
}

impl Sequence for Line {
    ghost items = { λ l. l };

    fn empty(alloc: Global) -> Result<Line, Memory> {
        Ok(Line {
            items: Vec::new(alloc),
            places: Vec::new(alloc),
            weight: 0,
        })
    }

    fn push(&mut self, piece: &[Item]) -> Result<(), Memory> {
        let end = self.items.len();
        self.put(end, piece)
    }

    fn insert_before(&mut self, name: u32, piece: &[Item]) -> Result<(), Memory> {
        let place = self.place(name);
        self.put(place, piece)
    }

    fn remove(&mut self, name: u32) {
        let place = self.place(name);
        let item = self.items.remove(place);
        note(&mut self.places, &self.items, place);
        self.weight -= item.weight();
    }

    fn renew(&mut self, item: Item) {
        let place = self.place(item.name());
        self.weight -= self.items[place].weight();
        self.weight += item.weight();
        self.items[place] = item;
    }

    fn get(&self, name: u32) -> Item {
        self.items[self.place(name)]
    }

    fn first(&self) -> Option<u32> {
        self.name_at(0)
    }

    fn last(&self) -> Option<u32> {
        if self.items.is_empty() {
            None
        } else {
            self.name_at(self.items.len() - 1)
        }
    }

    fn next(&self, name: u32) -> Option<u32> {
        self.name_at(self.place(name) + 1)
    }

    fn next_marked(&self, name: u32) -> Option<u32> {
        first_marked(&self.items, self.place(name) + 1)
    }

    fn is_before(&self, first: u32, second: u32) -> bool {
        self.place(first) < self.place(second)
    }

    fn weight(&self) -> u32 {
        self.weight
    }

    fn weight_before(&self, name: u32) -> u32 {
        weight_of(&self.items[..self.place(name)])
    }

    fn share_at(&self, unit: u32) -> Option<Share> {
        share_at(&self.items, unit)
    }
}

// Writes down the places of the items from one on.
fn note(places: &mut Vec<u32>, items: &[Item], from: usize)
    requires few { length items.now < 2 ^ 32 }
    requires apart { AreApart items.now }
    requires within { (k : ℕ) → k < length items.now → (get_or items.now k nothing).name < length places.old.items }
    requires noted { (k : ℕ) → k < from → k < length items.now
        → get_or places.old.items (get_or items.now k nothing).name 0 ≡ k }
    ensures { ArePlaces items.now places.new.items }
{
    for place in from..items.len() {
        places[items[place].name() as usize] = place as u32;
    }
}
