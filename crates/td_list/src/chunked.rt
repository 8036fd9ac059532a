ghost use Rattle.std.specs.Prelude.{◌≡◌, ◌<◌, ◌≤◌, ◌+◌, ◌^◌, ◌++◌, List, length, OnOk, OnErr};
ghost use Rattle.std.specs.Option.{ForSome};
ghost use Rattle.td_list.specs.Items.{Item, IsItem, AreApart, AreNew, items_before, items_from, items_after};
ghost use Rattle.td_list.specs.Items.{items_from_end, replace, place_of, first_name, weight_of};

use crate::index::{FULL, Index};
use crate::item::{Item, Share};
use crate::scan::{first_marked, share_at};
use crate::sequence::Sequence;
use std::alloc::Global;
use std::marker::Model;
use td_base::Memory;

/// A list in chunks, whose order is a list of another kind.
#[derive(Drop)]
pub struct Chunked<S: Sequence> {
    index: Index<S>,
}

impl<S: Sequence> Model for Chunked<S> {
    ghost use Rattle.std.specs.Prelude.{List};
    ghost use Rattle.td_list.specs.Items.{Item};
    ghost use Rattle.td_list.specs.Index.{all_items, IsIndex};

    ghost Value = { List Item };

    ghost view = { λ l. all_items l.index };

    ghost invariant = { λ l. IsIndex l.index };
}

impl<S: Sequence> Sequence for Chunked<S> {
    ghost items = { λ l. l };

    fn empty(alloc: Global) -> Result<Chunked<S>, Memory> {
        Ok(Chunked {
            index: Index::empty(alloc)?,
        })
    }

    fn push(&mut self, piece: &[Item]) -> Result<(), Memory> {
        match self.index.last_chunk() {
            Some(chunk) => {
                let end = self.index.items_of(chunk).len();
                if end < FULL {
                    self.index.splice(chunk, end, end, piece)
                } else {
                    self.begin(piece)
                }
            }
            None => self.begin(piece),
        }
    }

    fn insert_before(&mut self, name: u32, piece: &[Item]) -> Result<(), Memory> {
        let seat = self.index.seat_with_room(name)?;
        self.index.splice(seat.chunk, seat.place, seat.place, piece)
    }

    fn remove(&mut self, name: u32) {
        let seat = self.index.seat(name);
        if self.index.items_of(seat.chunk).len() == 1 {
            self.index.drop_chunk(seat.chunk);
        } else {
            self.index.take_out(seat.chunk, seat.place, seat.place + 1);
        }
    }

    fn renew(&mut self, item: Item) {
        let seat = self.index.seat(item.name());
        self.index.renew(seat.chunk, seat.place, item);
    }

    fn get(&self, name: u32) -> Item {
        let seat = self.index.seat(name);
        self.index.items_of(seat.chunk)[seat.place]
    }

    fn first(&self) -> Option<u32> {
        match self.index.first_chunk() {
            Some(chunk) => Some(self.index.head(chunk)),
            None => None,
        }
    }

    fn last(&self) -> Option<u32> {
        match self.index.last_chunk() {
            Some(chunk) => Some(self.index.end(chunk)),
            None => None,
        }
    }

    fn next(&self, name: u32) -> Option<u32> {
        let seat = self.index.seat(name);
        let items = self.index.items_of(seat.chunk);
        if seat.place + 1 < items.len() {
            return Some(items[seat.place + 1].name());
        }
        self.index.head_after(seat.chunk)
    }

    fn next_marked(&self, name: u32) -> Option<u32> {
        let seat = self.index.seat(name);
        match first_marked(self.index.items_of(seat.chunk), seat.place + 1) {
            Some(found) => Some(found),
            None => self.index.mark_after(seat.chunk),
        }
    }

    fn is_before(&self, first: u32, second: u32) -> bool {
        let left = self.index.seat(first);
        let right = self.index.seat(second);
        if left.chunk == right.chunk {
            left.place < right.place
        } else {
            self.index.is_chunk_before(left.chunk, right.chunk)
        }
    }

    fn weight(&self) -> u32 {
        self.index.weight()
    }

    fn weight_before(&self, name: u32) -> u32 {
        let seat = self.index.seat(name);
        self.index.weight_before(seat.chunk) + self.index.weight_to(seat.chunk, seat.place)
    }

    fn share_at(&self, unit: u32) -> Option<Share> {
        match self.index.chunk_with(unit) {
            Some(share) => share_at(self.index.items_of(share.name), share.rest),
            None => None,
        }
    }
}

impl<S: Sequence> Chunked<S> {
    /// Puts a piece in place of all items from one on up to an end, which stays: an item that does not stand before
    /// it, or the end of the list. It costs what the chunks between them cost.
    pub fn replace(&mut self, first: u32, end: Option<u32>, piece: &[Item]) -> Result<(), Memory>
        requires first { IsItem first self.old }
        requires end { ForSome end (λ x. IsItem x self.old × (place_of first self.old ≤ place_of x self.old)) }
        requires apart { AreApart piece.now }
        requires new { AreNew piece.now (items_before first self.old ++ items_from_end end self.old) }
        requires light { weight_of self.old + weight_of piece.now < 2 ^ 31 }
        ensures ok { OnOk result (self.new ≡ replace first end piece.now self.old) }
        ensures err { OnErr result (self.new ≡ self.old) }
    {
        let from = self.index.seat(first);
        match end {
            None => self.index.replace_rest(from, piece),
            Some(end) => {
                let to = self.index.seat(end);
                if to.chunk == from.chunk {
                    self.index.splice(from.chunk, from.place, to.place, piece)
                } else {
                    self.index.replace_far(from, to, piece)
                }
            }
        }
    }

    /// Puts a piece in place of one item.
    pub fn replace_one(&mut self, name: u32, piece: &[Item]) -> Result<(), Memory>
        requires there { IsItem name self.old }
        requires some { 0 < length piece.now }
        requires apart { AreApart piece.now }
        requires new { AreNew piece.now (items_before name self.old ++ items_after name self.old) }
        requires light { weight_of self.old + weight_of piece.now < 2 ^ 31 }
        ensures ok { OnOk result (self.new ≡ items_before name self.old ++ (piece.now ++ items_after name self.old)) }
        ensures err { OnErr result (self.new ≡ self.old) }
    {
        let seat = self.index.seat_with_room(name)?;
        self.index
            .splice(seat.chunk, seat.place, seat.place + 1, piece)
    }

    /// The items from one on that stand together with it, and the item behind them. Who goes over many items takes
    /// them so: within what is lent, nothing is looked for.
    pub fn lend_from(&self, name: u32) -> (&[Item], Option<u32>)
        requires { IsItem name self.now }
        ensures some { 0 < length result.0.now }
        ensures parts { (behind : List Item) × (items_from name self.now ≡ result.0.now ++ behind)
            × (result.1 ≡ first_name behind) }
    {
        let seat = self.index.seat(name);
        let items = &self.index.items_of(seat.chunk)[seat.place..];
        (items, self.index.head_after(seat.chunk))
    }

    /// No two items have one name. It is so always: who knows the list alone asks here, at no cost.
    pub(crate) fn apart(&self)
        ensures { AreApart self.now }
    {
        let _ = &self.index;
    }

    /// All weigh less than 2^31 together.
    pub(crate) fn light(&self)
        ensures { weight_of self.now < 2 ^ 31 }
    {
        let _ = &self.index;
    }

    // Puts a piece at the end, as a chunk of its own.
    fn begin(&mut self, piece: &[Item]) -> Result<(), Memory>
        requires apart { AreApart piece.now }
        requires new { AreNew piece.now self.old }
        requires light { weight_of self.old + weight_of piece.now < 2 ^ 31 }
        ensures ok { OnOk result (self.new ≡ self.old ++ piece.now) }
        ensures err { OnErr result (self.new ≡ self.old) }
    {
        if piece.is_empty() {
            return Ok(());
        }
        self.index.begin(piece)
    }
}
