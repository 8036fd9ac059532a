ghost use Rattle.std.specs.Prelude.{◌≡◌, ◌<◌, ◌+◌, ◌^◌, ◌++◌, ◌∷◌, List, [], nat_lt, IfOk, OnOk, OnErr};
ghost use Rattle.std.specs.Option.{ForSome};
ghost use Rattle.td_list.specs.Items.{Item, IsItem, AreApart, AreNew, items_before, items_from, items_after, put_before, put_at, without, renew, place_of, first_name, last_name, first_marked, share_at, weight_of};

use crate::item::{Item, Share};
use std::alloc::Global;
use td_base::Memory;

/// A list of items, in which each is found by its name. No two have one name, and all weigh less than 2^31 together.
pub trait Sequence: Sized + Drop {
    /// The items in their order.
    ghost items: { Self → List Item };

    /// A list with no items.
    fn empty(alloc: Global) -> Result<Self, Memory>
        ensures { IfOk result (λ list. items list ≡ []) };

    /// Puts a piece at the end. Pieces are to be short: the items of one stay together, however many there are.
    fn push(&mut self, piece: &[Item]) -> Result<(), Memory>
        requires apart { AreApart piece.now }
        requires new { AreNew piece.now (items self.old) }
        requires light { weight_of (items self.old) + weight_of piece.now < 2 ^ 31 }
        ensures ok { OnOk result (items self.new ≡ items self.old ++ piece.now) }
        ensures err { OnErr result (items self.new ≡ items self.old) };

    /// Puts a piece directly before an item.
    fn insert_before(&mut self, name: u32, piece: &[Item]) -> Result<(), Memory>
        requires there { IsItem name (items self.old) }
        requires apart { AreApart piece.now }
        requires new { AreNew piece.now (items self.old) }
        requires light { weight_of (items self.old) + weight_of piece.now < 2 ^ 31 }
        ensures ok { OnOk result (items self.new ≡ put_before name piece.now (items self.old)) }
        ensures err { OnErr result (items self.new ≡ items self.old) };

    /// Takes an item out.
    fn remove(&mut self, name: u32)
        requires { IsItem name (items self.old) }
        ensures { items self.new ≡ without name (items self.old) };

    /// Puts another item in place of the one of its name.
    fn renew(&mut self, item: Item)
        requires there { IsItem item.name (items self.old) }
        requires light { weight_of (renew item (items self.old)) < 2 ^ 31 }
        ensures { items self.new ≡ renew item (items self.old) };

    /// The item with a name.
    fn get(&self, name: u32) -> Item
        requires { IsItem name (items self.now) }
        ensures { items_from name (items self.now) ≡ result ∷ items_after name (items self.now) };

    /// The first item.
    fn first(&self) -> Option<u32>
        ensures { result ≡ first_name (items self.now) };

    /// The last item.
    fn last(&self) -> Option<u32>
        ensures { result ≡ last_name (items self.now) };

    /// The item that follows an item.
    fn next(&self, name: u32) -> Option<u32>
        requires { IsItem name (items self.now) }
        ensures { result ≡ first_name (items_after name (items self.now)) };

    /// The first marked item of those that follow an item.
    fn next_marked(&self, name: u32) -> Option<u32>
        requires { IsItem name (items self.now) }
        ensures { result ≡ first_marked (items_after name (items self.now)) };

    /// Whether an item stands before another.
    fn is_before(&self, first: u32, second: u32) -> bool
        requires first { IsItem first (items self.now) }
        requires second { IsItem second (items self.now) }
        ensures { result ≡ nat_lt (place_of first (items self.now)) (place_of second (items self.now)) };

    /// The weight of all items.
    fn weight(&self) -> u32
        ensures { result ≡ weight_of (items self.now) };

    /// The weight of the items before an item.
    fn weight_before(&self, name: u32) -> u32
        requires { IsItem name (items self.now) }
        ensures { result ≡ weight_of (items_before name (items self.now)) };

    /// The item with a unit of weight, counted from 0.
    fn share_at(&self, unit: u32) -> Option<Share>
        ensures { result ≡ share_at unit (items self.now) };
}

/// Puts a piece directly before an item, or at the end.
pub fn put_at<S: Sequence>(list: &mut S, at: Option<u32>, piece: &[Item]) -> Result<(), Memory>
    requires there { ForSome at (λ x. IsItem x (S.items list.old)) }
    requires apart { AreApart piece.now }
    requires new { AreNew piece.now (S.items list.old) }
    requires light { weight_of (S.items list.old) + weight_of piece.now < 2 ^ 31 }
    ensures ok { OnOk result (S.items list.new ≡ put_at at piece.now (S.items list.old)) }
    ensures err { OnErr result (S.items list.new ≡ S.items list.old) }
{
    match at {
        Some(name) => list.insert_before(name, piece),
        None => list.push(piece),
    }
}
