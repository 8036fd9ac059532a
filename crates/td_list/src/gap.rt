// Items that are put one within another.
ghost use Rattle.std.specs.Prelude.{◌≡◌, ◌≢◌, ◌<◌, ◌≤◌, ◌+◌, ◌-◌, ◌^◌, ◌++◌, ◌∷◌, ℕ, [], length, take, drop, get_or, reverse, true, false, Option, Some, IsTrue, IfSome, IfNone, IfOk, OnOk, OnErr};
ghost use Rattle.std.specs.Option.{ForSome};
ghost use Rattle.td_list.specs.Items.{IsItem, AreApart, AreNew, put_before, put_at, place_of, items_after, first_name, first_marked, share_at, weight_of};
ghost use Rattle.td_list.specs.Places.{nothing};
ghost use Rattle.td_list.specs.Buffered.{halves};

use crate::item::{Item, Share};
use crate::scan::weight_of;
use crate::sequence::{Sequence, put_at};
use std::alloc::Global;
use std::marker::Model;
use td_base::Memory;

/// So many items are in a gap buffer at most.
pub const MOST: usize = 42;

/// A gap buffer: a short list in two halves, between which the next piece is expected. What is put there moves nothing.
#[derive(Drop)]
pub struct GapBuffer {
    front: Vec<Item>,
    // the last one first
    back: Vec<Item>,
    weight: u32,
    // no item has a smaller name
    least: u32,
}

impl Model for GapBuffer {
    ghost use Rattle.std.specs.Prelude.{List};
    ghost use Rattle.td_list.specs.Items.{Item};
    ghost use Rattle.td_list.specs.Buffered.{halves, IsGapBuffer};

    ghost Value = { List Item };

    ghost view = { λ g. halves g.front.items g.back.items };

    ghost invariant = { λ g. IsGapBuffer (halves g.front.items g.back.items) g.weight g.least };
}

impl GapBuffer {
    /// No items.
    pub fn new(alloc: Global) -> GapBuffer
        ensures { result ≡ [] }
    {
        GapBuffer {
            front: Vec::new(alloc),
            back: Vec::new(alloc),
            weight: 0,
            least: u32::MAX,
        }
    }

    /// How many items there are.
    pub fn len(&self) -> usize
        ensures value { result ≡ length self.now }
        ensures few { result ≤ MOST }
    {
        self.front.len() + self.back.len()
    }

    /// The weight of all items.
    pub fn weight(&self) -> u32
        ensures value { result ≡ weight_of self.now }
        ensures light { result < 2 ^ 31 }
    {
        self.weight
    }

    /// The item at a place.
    pub fn item(&self, place: usize) -> Item
        requires { place < length self.now }
        ensures { result ≡ get_or self.now place nothing }
    {
        if place < self.front.len() {
            self.front[place]
        } else {
            self.back[self.back.len() - 1 - (place - self.front.len())]
        }
    }

    /// The name of the item at a place, or none at the end.
    pub fn name_at(&self, place: usize) -> Option<u32>
        requires { place ≤ length self.now }
        ensures { result ≡ first_name (drop place self.now) }
    {
        if place < self.len() {
            Some(self.item(place).name())
        } else {
            None
        }
    }

    /// The place of an item. The two beside the gap are looked at first.
    pub fn find(&self, name: u32) -> Option<usize>
        ensures there { IfSome result (λ k. IsItem name self.now) }
        ensures place { IfSome result (λ k. k ≡ place_of name self.now) }
        ensures bound { IfSome result (λ k. k < length self.now) }
        ensures few { length self.now ≤ MOST }
        ensures none { IfNone result (IsItem name self.now → ⊥) }
    {
        if name < self.least {
            return None;
        }
        match self.find_from(name, self.front.len().saturating_sub(1)) {
            Some(place) => Some(place),
            None => self.find_from(name, 0),
        }
    }

    /// The item behind the gap, where this is the one before it: who types asks what follows that one again and again.
    pub fn across(&self, name: u32) -> Option<u32>
        ensures there { IfSome result (λ x. IsItem name self.now) }
        ensures next { IfSome result (λ x. first_name (items_after name self.now) ≡ Some x) }
    {
        if !is_last(&self.front, name) {
            return None;
        }
        match self.back.last() {
            Some(next) => Some(next.name()),
            None => None,
        }
    }

    // A place of an item, of those from one on.
    fn find_from(&self, name: u32, from: usize) -> Option<usize>
        ensures some { IfSome result (λ k. (k < length self.now) × ((get_or self.now k nothing).name ≡ name)) }
        ensures none { IfNone result (IsItem name (drop from self.now) → ⊥) }
    {
        for place in from..self.len() {
            if self.item(place).name() == name {
                return Some(place);
            }
        }
        None
    }

    /// The first marked item from a place on.
    pub fn marked_from(&self, from: usize) -> Option<u32>
        ensures { result ≡ first_marked (drop from self.now) }
    {
        for place in from..self.len() {
            let item = self.item(place);
            if item.marked() {
                return Some(item.name());
            }
        }
        None
    }

    /// The weight of the items before a place.
    pub fn weight_to(&self, place: usize) -> u32
        requires { place ≤ length self.now }
        ensures { result ≡ weight_of (take place self.now) }
    {
        let mut weight = self.weight;
        for behind in place..self.len() {
            weight -= self.item(behind).weight();
        }
        weight
    }

    /// The item with a unit of weight, counted from 0.
    pub fn share_at(&self, unit: u32) -> Option<Share>
        ensures { result ≡ share_at unit self.now }
    {
        let mut rest = unit;
        for place in 0..self.len() {
            let item = self.item(place);
            if rest < item.weight() {
                return Some(Share {
                    name: item.name(),
                    rest,
                });
            }
            rest -= item.weight();
        }
        None
    }

    /// Some items from a place on that lie together.
    pub fn lend_from(&self, place: usize) -> &[Item]
        requires { place < length self.now }
        ensures some { 0 < length result.now }
        ensures within { place + length result.now ≤ length self.now }
        ensures part { result.now ≡ take (length result.now) (drop place self.now) }
    {
        if place < self.front.len() {
            &self.front[place..]
        } else {
            let behind = self.back.len() - (place - self.front.len());
            &self.back[behind - 1..behind]
        }
    }

    /// Puts a piece before an item, if the gap is there and has room, and says so.
    pub fn put_before(&mut self, name: u32, piece: &[Item]) -> Result<bool, Memory>
        requires apart { AreApart piece.now }
        requires new { AreNew piece.now self.old }
        requires light { weight_of self.old + weight_of piece.now < 2 ^ 31 }
        ensures there { IfOk result (λ put. IsTrue put → IsItem name self.old) }
        ensures put { IfOk result (λ put. IsTrue put → self.new ≡ put_before name piece.now self.old) }
        ensures not { IfOk result (λ put. put ≡ false → self.new ≡ self.old) }
        ensures err { OnErr result (self.new ≡ self.old) }
    {
        if piece.len() > MOST - self.len() || !is_last(&self.back, name) {
            return Ok(false);
        }
        put_between(&mut self.front, &mut self.back, piece)?;
        self.weight += weight_of(piece);
        self.least = least_of(piece, self.least);
        Ok(true)
    }

    /// Begins with a piece, if there is room, and says so.
    pub fn begin(&mut self, piece: &[Item]) -> Result<bool, Memory>
        requires empty { self.old ≡ [] }
        requires apart { AreApart piece.now }
        requires light { weight_of piece.now < 2 ^ 31 }
        ensures put { IfOk result (λ put. IsTrue put → self.new ≡ piece.now) }
        ensures not { IfOk result (λ put. put ≡ false → self.new ≡ []) }
        ensures err { OnErr result (self.new ≡ []) }
    {
        if piece.len() > MOST {
            return Ok(false);
        }
        put_between(&mut self.front, &mut self.back, piece)?;
        self.weight = weight_of(piece);
        self.least = least_of(piece, u32::MAX);
        Ok(true)
    }

    /// Puts another item in place of the one of its name, which is at a place.
    pub fn renew(&mut self, place: usize, item: Item)
        requires place { place < length self.old }
        requires named { (get_or self.old place nothing).name ≡ item.name }
        requires light { weight_of (take place self.old ++ item ∷ drop (place + 1) self.old) < 2 ^ 31 }
        ensures { self.new ≡ take place self.old ++ item ∷ drop (place + 1) self.old }
    {
        self.weight -= self.item(place).weight();
        self.weight += item.weight();
        let front = self.front.len();
        if place < front {
            self.front[place] = item;
        } else {
            let behind = self.back.len() - 1 - (place - front);
            self.back[behind] = item;
        }
    }

    /// Takes the item at a place out.
    pub fn remove(&mut self, place: usize)
        requires { place < length self.old }
        ensures { self.new ≡ take place self.old ++ drop (place + 1) self.old }
    {
        self.weight -= self.item(place).weight();
        let front = self.front.len();
        if place < front {
            self.front.remove(place);
        } else {
            let behind = self.back.len() - 1 - (place - front);
            self.back.remove(behind);
        }
    }

    /// Puts all into a list, before an item of it or at its end.
    pub fn flush<S: Sequence>(&mut self, list: &mut S, at: Option<u32>) -> Result<(), Memory>
        requires there { ForSome at (λ x. IsItem x (S.items list.old)) }
        requires new { AreNew self.old (S.items list.old) }
        requires light { weight_of (S.items list.old) + weight_of self.old < 2 ^ 31 }
        ensures ok { OnOk result (S.items list.new ≡ put_at at self.old (S.items list.old)) }
        ensures none { OnOk result (self.new ≡ []) }
        ensures err { OnErr result (S.items list.new ≡ S.items list.old) }
        ensures kept { OnErr result (self.new ≡ self.old) }
    {
        if self.len() == 0 {
            return Ok(());
        }
        close(&mut self.front, &mut self.back)?;
        put_at(list, at, &self.front)?;
        self.front.clear();
        self.weight = 0;
        self.least = u32::MAX;
        Ok(())
    }
}

// Whether the last item has a name.
fn is_last(items: &[Item], name: u32) -> bool
    ensures { IsTrue result → 0 < length items.now × ((get_or items.now (length items.now - 1) nothing).name ≡ name) }
{
    match items.last() {
        Some(item) => item.name() == name,
        None => false,
    }
}

// Puts a piece between two halves, and the gap before its last item.
fn put_between(front: &mut Vec<Item>, back: &mut Vec<Item>, piece: &[Item]) -> Result<(), Memory>
    ensures ok { OnOk result (halves front.new.items back.new.items
        ≡ front.old.items ++ (piece.now ++ reverse back.old.items)) }
    ensures err { OnErr result (halves front.new.items back.new.items ≡ halves front.old.items back.old.items) }
{
    if let Some((last, others)) = piece.split_last() {
        front.reserve(others.len())?;
        back.reserve(1)?;
        front.extend_from_slice(others).unwrap();
        back.push(*last).unwrap();
    }
    Ok(())
}

// The least of a number and the names of some items.
fn least_of(items: &[Item], number: u32) -> u32
    ensures number { result ≤ number }
    ensures names { (x : ℕ) → IsItem x items.now → result ≤ x }
{
    let mut least = number;
    for item in items {
        least = least.min(item.name());
    }
    least
}

// Brings all into the first half.
fn close(front: &mut Vec<Item>, back: &mut Vec<Item>) -> Result<(), Memory>
    ensures ok { OnOk result (front.new.items ≡ halves front.old.items back.old.items) }
    ensures none { OnOk result (back.new.items ≡ []) }
    ensures err { OnErr result (halves front.new.items back.new.items ≡ halves front.old.items back.old.items) }
{
    front.reserve(back.len())?;
    back.reverse();
    front.append(back).unwrap();
    Ok(())
}
