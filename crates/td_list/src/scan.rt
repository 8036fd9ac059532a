// What is read from a stretch of items by looking at one after another.
ghost use Rattle.std.specs.Prelude.{◌≡◌, ◌<◌, ◌≤◌, ◌^◌, List, length, drop, get_or, Option, IfSome};
ghost use Rattle.td_list.specs.Items.{IsItem, place_of, weight_of, has_mark, first_marked, share_at};
ghost use Rattle.td_list.specs.Places.{nothing};

use crate::item::{Item, Share};

/// The place of an item: how many items stand before it, which are all where it is not there.
pub fn place_of(items: &[Item], name: u32) -> usize
    ensures value { result ≡ place_of name items.now }
    ensures bound { IsItem name items.now → result < length items.now }
{
    let mut place = 0;
    for item in items {
        if item.name() == name {
            return place;
        }
        place += 1;
    }
    place
}

/// A place of an item, of those from one on.
pub fn place_from(items: &[Item], name: u32, from: usize) -> Option<usize>
    ensures { IfSome result (λ k. (k < length items.now) × ((get_or items.now k nothing).name ≡ name)) }
{
    for place in from..items.len() {
        if items[place].name() == name {
            return Some(place);
        }
    }
    None
}

/// The weight of the items together.
pub fn weight_of(items: &[Item]) -> u32
    requires { weight_of items.now < 2 ^ 31 }
    ensures { result ≡ weight_of items.now }
{
    let mut weight = 0;
    for item in items {
        weight += item.weight();
    }
    weight
}

/// Whether one of the items is marked.
pub fn has_mark(items: &[Item]) -> bool
    ensures { result ≡ has_mark items.now }
{
    for item in items {
        if item.marked() {
            return true;
        }
    }
    false
}

/// The first marked item from a place on.
pub fn first_marked(items: &[Item], from: usize) -> Option<u32>
    ensures { result ≡ first_marked (drop from items.now) }
{
    for place in from..items.len() {
        if items[place].marked() {
            return Some(items[place].name());
        }
    }
    None
}

/// The item with a unit of weight, counted from 0.
pub fn share_at(items: &[Item], unit: u32) -> Option<Share>
    ensures { result ≡ share_at unit items.now }
{
    let mut rest = unit;
    for item in items {
        if rest < item.weight() {
            return Some(Share {
                name: item.name(),
                rest,
            });
        }
        rest -= item.weight();
    }
    None
}
