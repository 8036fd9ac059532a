// Chunks by number, their order, and the chunk of each item.
ghost use Rattle.std.specs.Prelude.{◌≡◌, ◌≢◌, ◌↔◌, IsTrue, ◌<◌, ◌≤◌, ◌+◌, ◌-◌, ◌^◌, ◌++◌, ◌∷◌, ℕ, List, [], length};
ghost use Rattle.std.specs.Prelude.{take, drop, set, get_or, false, Option, Some, None, IfOk, OnOk, OnErr, vec_capacity};
ghost use Rattle.std.specs.Option.{ForSome};
ghost use Rattle.td_list.specs.Items.{IsItem, AreApart, AreNew, items_from, items_after, renew, without, place_of};
ghost use Rattle.td_list.specs.Items.{first_name, last_name, weight_of};
ghost use Rattle.td_list.specs.Places.{nothing};
ghost use Rattle.td_list.specs.Index.{all_items, items_of, chunks_before, chunks_after, summary, IsIndex};

use crate::chunk::Chunk;
use crate::homes::{grow, settle};
use crate::item::Item;
use crate::room::reserve_by_quarter;
use crate::sequence::Sequence;
use std::alloc::Global;
use std::marker::Model;
use td_base::Memory;

/// So many items stand in a chunk at most, but for those of a piece.
pub const FULL: usize = 64;

/// The parts of a list of chunks.
#[derive(Drop)]
pub struct Index<S: Sequence> {
    // by number; one that is free has no items
    pub(crate) chunks: Vec<Chunk>,
    // the numbers of the others, with what their items come to
    pub(crate) order: S,
    // the chunk of each item, by the name of the item
    pub(crate) homes: Vec<u32>,
    // numbers for new chunks
    pub(crate) free: Vec<u32>,
    // where items lie while others are put before them; nothing rests on it
    aside: Vec<Item>,
    pub(crate) alloc: Global,
}

impl<S: Sequence> Model for Index<S> {
    ghost use Rattle.std.specs.Prelude.{vec_capacity};
    ghost use Rattle.td_list.specs.Index.{Parts};

    ghost Value = { Parts };

    ghost view = { λ i. record {
      chunks = i.chunks.items;
      order = S.items i.order;
      homes = i.homes.items;
      free = i.free.items;
      room = vec_capacity i.free;
    } };
}

/// Where an item is: in which chunk, and at which place of it.
#[derive(Clone, Copy, Debug, PartialEq, Eq)]
pub struct Seat {
    pub chunk: u32,
    pub place: usize,
}

impl<S: Sequence> Index<S> {
    /// No chunks.
    pub fn empty(alloc: Global) -> Result<Index<S>, Memory>
        ensures { IfOk result (λ index. IsIndex index × (index.order ≡ [])) }
    {
        Ok(Index {
            chunks: Vec::new(alloc),
            order: S::empty(alloc)?,
            homes: Vec::new(alloc),
            free: Vec::new(alloc),
            aside: Vec::new(alloc),
            alloc,
        })
    }

    /// The items of a chunk.
    pub fn items_of(&self, chunk: u32) -> &[Item]
        requires { chunk < length self.now.chunks }
        ensures { result.now ≡ items_of chunk self.now }
    {
        self.chunks[chunk as usize].items()
    }

    // The chunk of a number.
    fn numbered(&self, chunk: u32) -> &Chunk
        requires { chunk < length self.now.chunks }
        ensures { result.now ≡ items_of chunk self.now }
    {
        &self.chunks[chunk as usize]
    }

    /// The weight of the items of a chunk before a place.
    pub fn weight_to(&self, chunk: u32, place: usize) -> u32
        requires chunk { chunk < length self.now.chunks }
        requires place { place ≤ length (items_of chunk self.now) }
        requires light { weight_of (items_of chunk self.now) < 2 ^ 31 }
        ensures { result ≡ weight_of (take place (items_of chunk self.now)) }
    {
        self.numbered(chunk).weight_to(place)
    }

    /// The first item of a chunk.
    pub fn head(&self, chunk: u32) -> u32
        requires index { IsIndex self.now }
        requires chunk { IsItem chunk self.now.order }
        ensures { first_name (items_of chunk self.now) ≡ Some result }
    {
        self.items_of(chunk)[0].name()
    }

    /// The last item of a chunk.
    pub fn end(&self, chunk: u32) -> u32
        requires index { IsIndex self.now }
        requires chunk { IsItem chunk self.now.order }
        ensures { last_name (items_of chunk self.now) ≡ Some result }
    {
        let items = self.items_of(chunk);
        items[items.len() - 1].name()
    }

    /// Where an item is.
    pub fn seat(&self, name: u32) -> Seat
        requires index { IsIndex self.now }
        requires there { IsItem name (all_items self.now) }
        ensures chunk { IsItem result.chunk self.now.order }
        ensures within { result.chunk < length self.now.chunks }
        ensures there { IsItem name (items_of result.chunk self.now) }
        ensures place { result.place ≡ place_of name (items_of result.chunk self.now) }
        ensures bound { result.place < length (items_of result.chunk self.now) }
        ensures few { result.place < usize.MAX }
    {
        let chunk = self.homes[name as usize];
        let place = self.numbered(chunk).place_of(name);
        Seat { chunk, place }
    }

    /// Where an item is, in a chunk that has room for more: one that is full is parted.
    pub fn seat_with_room(&mut self, name: u32) -> Result<Seat, Memory>
        requires index { IsIndex self.old }
        requires there { IsItem name (all_items self.old) }
        ensures index { IsIndex self.new }
        ensures all { all_items self.new ≡ all_items self.old }
        ensures chunk { IfOk result (λ seat. IsItem seat.chunk self.new.order) }
        ensures there { IfOk result (λ seat. IsItem name (items_of seat.chunk self.new)) }
        ensures place { IfOk result (λ seat. seat.place ≡ place_of name (items_of seat.chunk self.new)) }
        ensures bound { IfOk result (λ seat. seat.place < length (items_of seat.chunk self.new)) }
        ensures few { IfOk result (λ seat. seat.place < usize.MAX) }
    {
        let seat = self.seat(name);
        if self.items_of(seat.chunk).len() < FULL {
            return Ok(seat);
        }
        self.split(seat.chunk, seat.place)?;
        Ok(self.seat(name))
    }

    /// Puts a piece in a chunk, in place of the items from a place up to another.
    pub fn splice(
        &mut self,
        chunk: u32,
        from: usize,
        to: usize,
        piece: &[Item],
    ) -> Result<(), Memory>
        requires index { IsIndex self.old }
        requires chunk { IsItem chunk self.old.order }
        requires from { from ≤ to }
        requires to { to ≤ length (items_of chunk self.old) }
        requires some { 0 < from + length piece.now + (length (items_of chunk self.old) - to) }
        requires apart { AreApart piece.now }
        requires new { AreNew piece.now (chunks_before chunk self.old
            ++ (take from (items_of chunk self.old) ++ drop to (items_of chunk self.old))
            ++ chunks_after chunk self.old) }
        requires light { weight_of (all_items self.old) + weight_of piece.now < 2 ^ 31 }
        ensures index { IsIndex self.new }
        ensures ok { OnOk result (all_items self.new ≡ chunks_before chunk self.old
            ++ (take from (items_of chunk self.old) ++ piece.now ++ drop to (items_of chunk self.old))
            ++ chunks_after chunk self.old) }
        ensures err { OnErr result (all_items self.new ≡ all_items self.old) }
    {
        let told = self.numbered(chunk).summary(chunk);
        grow(&mut self.homes, piece)?;
        self.chunks[chunk as usize].splice(from, to, piece, &mut self.aside)?;
        settle(&mut self.homes, piece, chunk);
        let now = self.chunks[chunk as usize].summary(chunk);
        tell(&mut self.order, told, now);
        Ok(())
    }

    /// Takes out the items of a chunk from a place up to another, but not all of them.
    pub fn take_out(&mut self, chunk: u32, from: usize, to: usize)
        requires index { IsIndex self.old }
        requires chunk { IsItem chunk self.old.order }
        requires from { from ≤ to }
        requires to { to ≤ length (items_of chunk self.old) }
        requires some { to - from < length (items_of chunk self.old) }
        ensures index { IsIndex self.new }
        ensures all { all_items self.new ≡ chunks_before chunk self.old
            ++ (take from (items_of chunk self.old) ++ drop to (items_of chunk self.old))
            ++ chunks_after chunk self.old }
        ensures chunks { self.new.chunks ≡ set self.old.chunks chunk
            (take from (items_of chunk self.old) ++ drop to (items_of chunk self.old)) }
        ensures order { self.new.order ≡ renew (summary chunk
            (take from (items_of chunk self.old) ++ drop to (items_of chunk self.old))) self.old.order }
        ensures homes { self.new.homes ≡ self.old.homes }
    {
        self.chunks[chunk as usize].take_out(from, to);
        self.order.renew(self.chunks[chunk as usize].summary(chunk));
    }

    /// Puts another item at a place of a chunk, of the name of the one that is there.
    pub fn renew(&mut self, chunk: u32, place: usize, item: Item)
        requires index { IsIndex self.old }
        requires chunk { IsItem chunk self.old.order }
        requires place { place < length (items_of chunk self.old) }
        requires named { item.name ≡ (get_or (items_of chunk self.old) place nothing).name }
        requires light { weight_of (chunks_before chunk self.old
            ++ (take place (items_of chunk self.old) ++ item ∷ drop (place + 1) (items_of chunk self.old))
            ++ chunks_after chunk self.old) < 2 ^ 31 }
        ensures index { IsIndex self.new }
        ensures all { all_items self.new ≡ chunks_before chunk self.old
            ++ (take place (items_of chunk self.old) ++ item ∷ drop (place + 1) (items_of chunk self.old))
            ++ chunks_after chunk self.old }
    {
        self.chunks[chunk as usize].renew(place, item);
        self.order.renew(self.chunks[chunk as usize].summary(chunk));
    }

    /// The items of a chunk up to a place, and a piece, as a chunk that is not in the order.
    pub fn front_with(&self, chunk: u32, place: usize, piece: &[Item]) -> Result<Chunk, Memory>
        requires chunk { chunk < length self.now.chunks }
        requires place { place ≤ length (items_of chunk self.now) }
        requires light { weight_of (items_of chunk self.now) + weight_of piece.now < 2 ^ 31 }
        ensures { IfOk result (λ new. new ≡ take place (items_of chunk self.now) ++ piece.now) }
    {
        let mut new = Chunk::of(self.alloc, &self.items_of(chunk)[..place])?;
        new.splice(place, place, piece, &mut Vec::new(self.alloc))?;
        Ok(new)
    }

    /// Gives a chunk other items, those before a place and a piece, whose homes there is room for.
    pub fn exchange(&mut self, chunk: u32, place: usize, piece: &[Item], new: Chunk)
        requires index { IsIndex self.old }
        requires chunk { IsItem chunk self.old.order }
        requires place { place ≤ length (items_of chunk self.old) }
        requires is { new ≡ take place (items_of chunk self.old) ++ piece.now }
        requires some { 0 < length new }
        requires apart { AreApart piece.now }
        requires fresh { AreNew piece.now (chunks_before chunk self.old
            ++ take place (items_of chunk self.old) ++ chunks_after chunk self.old) }
        requires room { (x : ℕ) → IsItem x piece.now → x < length self.old.homes }
        requires light { weight_of (all_items self.old) + weight_of piece.now < 2 ^ 31 }
        ensures index { IsIndex self.new }
        ensures all { all_items self.new ≡ chunks_before chunk self.old ++ new ++ chunks_after chunk self.old }
    {
        settle(&mut self.homes, piece, chunk);
        self.order.renew(new.summary(chunk));
        self.chunks[chunk as usize] = new;
    }

    /// Makes room for the homes of these items.
    pub fn grow(&mut self, piece: &[Item]) -> Result<(), Memory>
        requires index { IsIndex self.old }
        ensures index { IsIndex self.new }
        ensures chunks { self.new.chunks ≡ self.old.chunks }
        ensures order { self.new.order ≡ self.old.order }
        ensures room { OnOk result ((x : ℕ) → IsItem x piece.now → x < length self.new.homes) }
    {
        grow(&mut self.homes, piece)
    }

    /// Takes a chunk out, with its items. Its number is free from then on.
    pub fn drop_chunk(&mut self, chunk: u32)
        requires index { IsIndex self.old }
        requires chunk { IsItem chunk self.old.order }
        ensures index { IsIndex self.new }
        ensures order { self.new.order ≡ without chunk self.old.order }
        ensures chunks { self.new.chunks ≡ set self.old.chunks chunk [] }
        ensures homes { self.new.homes ≡ self.old.homes }
    {
        self.chunks[chunk as usize] = Chunk::new(self.alloc);
        self.order.remove(chunk);
        self.free.push(chunk).unwrap();
    }

    // Provides a number for a new chunk.
    fn spare(&mut self) -> Result<(), Memory>
        requires index { IsIndex self.old }
        ensures index { IsIndex self.new }
        ensures all { all_items self.new ≡ all_items self.old }
        ensures order { self.new.order ≡ self.old.order }
        ensures homes { self.new.homes ≡ self.old.homes }
        ensures kept { (c : ℕ) → IsItem c self.old.order → items_of c self.new ≡ items_of c self.old }
        ensures some { OnOk result (0 < length self.new.free) }
    {
        if self.free.len() > 0 {
            return Ok(());
        }
        let new = self.chunks.len();
        if new >= u32::MAX as usize {
            return Err(Memory);
        }
        self.free.reserve(new + 1)?;
        push_empty(self.alloc, &mut self.chunks)?;
        self.free.push(new as u32).unwrap();
        Ok(())
    }

    /// Parts a chunk in which items are to be put at a place: those before a cut beside it become a chunk of their own,
    /// before the chunk.
    pub fn split(&mut self, chunk: u32, place: usize) -> Result<(), Memory>
        requires index { IsIndex self.old }
        requires chunk { IsItem chunk self.old.order }
        requires some { 2 ≤ length (items_of chunk self.old) }
        requires place { place < length (items_of chunk self.old) }
        ensures index { IsIndex self.new }
        ensures all { all_items self.new ≡ all_items self.old }
    {
        self.spare()?;
        let new = self.free[self.free.len() - 1];
        let cut = cut_beside(place, self.items_of(chunk).len());
        let copy = Chunk::of(self.alloc, self.numbered(chunk).beyond(cut, place))?;
        self.order.insert_before(chunk, &[empty_chunk(new)])?;
        self.free.pop();
        let front = self.chunks[chunk as usize].part(cut, place, copy);
        settle(&mut self.homes, front.items(), new);
        self.order.renew(self.chunks[chunk as usize].summary(chunk));
        self.order.renew(front.summary(new));
        self.chunks[new as usize] = front;
        Ok(())
    }

    /// Puts a piece at the end, as a chunk of its own.
    pub fn begin(&mut self, piece: &[Item]) -> Result<(), Memory>
        requires index { IsIndex self.old }
        requires some { 0 < length piece.now }
        requires apart { AreApart piece.now }
        requires new { AreNew piece.now (all_items self.old) }
        requires light { weight_of (all_items self.old) + weight_of piece.now < 2 ^ 31 }
        ensures index { IsIndex self.new }
        ensures ok { OnOk result (all_items self.new ≡ all_items self.old ++ piece.now) }
        ensures err { OnErr result (all_items self.new ≡ all_items self.old) }
    {
        self.spare()?;
        let new = self.free[self.free.len() - 1];
        grow(&mut self.homes, piece)?;
        let chunk = Chunk::of(self.alloc, piece)?;
        self.order.push(&[chunk.summary(new)])?;
        self.free.pop();
        settle(&mut self.homes, piece, new);
        self.chunks[new as usize] = chunk;
        Ok(())
    }
}

// Adds a chunk without items.
fn push_empty(alloc: Global, chunks: &mut Vec<Chunk>) -> Result<(), Memory>
    ensures ok { OnOk result (chunks.new.items ≡ chunks.old.items ++ [] ∷ []) }
    ensures err { OnErr result (chunks.new.items ≡ chunks.old.items) }
{
    reserve_by_quarter(chunks, 1)?;
    chunks.push(Chunk::new(alloc)).unwrap();
    Ok(())
}

// Where a chunk of so many items is parted, if others are to be put before the one at a place. Typing puts items at one
// place again and again. So the cut is beside the place: the fewer items stay with it, the longer its part lasts until
// it is full as well, and the fuller is the other, which is left alone. But a quarter of them stay with it at least, as
// edits here and there would leave tiny chunks else.
fn cut_beside(place: usize, length: usize) -> usize
    requires some { 2 ≤ length }
    requires place { place < length }
    ensures low { 0 < result }
    ensures high { result < length }
{
    let quarter = length / 4;
    if place < length / 2 {
        quarter.max(place + 1)
    } else {
        place.min(length - quarter)
    }
}

// What the order tells of a chunk that has no items yet.
fn empty_chunk(number: u32) -> Item
    ensures { result ≡ record { name = number; weight = 0; marked = false } }
{
    Item::new(number, 0, false)
}

// Puts an item in place of the one of its name, unless it is the same.
fn tell<S: Sequence>(order: &mut S, told: Item, now: Item)
    requires named { now.name ≡ told.name }
    requires there { IsItem told.name (S.items order.old) }
    requires is { items_from told.name (S.items order.old) ≡ told ∷ items_after told.name (S.items order.old) }
    requires light { weight_of (renew now (S.items order.old)) < 2 ^ 31 }
    ensures { S.items order.new ≡ renew now (S.items order.old) }
{
    if !is_same(told, now) {
        order.renew(now);
    }
}

fn is_same(a: Item, b: Item) -> bool
    ensures { IsTrue result ↔ (a ≡ b) }
{
    a == b
}
