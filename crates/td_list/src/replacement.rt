// A piece in place of a stretch that reaches over several chunks.
ghost use Rattle.std.specs.Prelude.{◌≡◌, ◌≢◌, ◌<◌, ◌≤◌, ◌+◌, ◌^◌, ◌++◌, ℕ, [], length, take, drop};
ghost use Rattle.std.specs.Prelude.{Option, Some, None, IfNone, IfSome, OnOk, OnErr};
ghost use Rattle.std.specs.Option.{ForSome};
ghost use Rattle.td_list.specs.Items.{IsItem, AreApart, AreNew, items_before, items_after, items_from};
ghost use Rattle.td_list.specs.Items.{items_from_end, first_name, weight_of};
ghost use Rattle.td_list.specs.Index.{all_items, items_of, chunks_before, chunks_after, IsIndex};

use crate::chunk::Chunk;
use crate::index::{Index, Seat};
use crate::item::Item;
use crate::sequence::Sequence;
use td_base::Memory;

impl<S: Sequence> Index<S> {
    /// Puts a piece in place of all from a place in one chunk on up to a place in a later one.
    pub fn replace_far(&mut self, from: Seat, to: Seat, piece: &[Item]) -> Result<(), Memory>
        requires index { IsIndex self.old }
        requires chunk { IsItem from.chunk self.old.order }
        requires later { IsItem to.chunk (items_after from.chunk self.old.order) }
        requires from { from.place ≤ length (items_of from.chunk self.old) }
        requires to { to.place < length (items_of to.chunk self.old) }
        requires apart { AreApart piece.now }
        requires new { AreNew piece.now
            ((chunks_before from.chunk self.old ++ take from.place (items_of from.chunk self.old))
            ++ (drop to.place (items_of to.chunk self.old) ++ chunks_after to.chunk self.old)) }
        requires light { weight_of (all_items self.old) + weight_of piece.now < 2 ^ 31 }
        ensures index { IsIndex self.new }
        ensures ok { OnOk result (all_items self.new
            ≡ (chunks_before from.chunk self.old ++ take from.place (items_of from.chunk self.old)) ++ piece.now
            ++ (drop to.place (items_of to.chunk self.old) ++ chunks_after to.chunk self.old)) }
        ensures err { OnErr result (all_items self.new ≡ all_items self.old) }
    {
        let new = self.front_with(from.chunk, from.place, piece)?;
        self.grow(piece)?;
        self.drop_between(from.chunk, Some(to.chunk));
        self.take_out(to.chunk, 0, to.place);
        self.place_front(from, piece, new);
        Ok(())
    }

    /// Puts a piece in place of all from a place on.
    pub fn replace_rest(&mut self, from: Seat, piece: &[Item]) -> Result<(), Memory>
        requires index { IsIndex self.old }
        requires chunk { IsItem from.chunk self.old.order }
        requires from { from.place ≤ length (items_of from.chunk self.old) }
        requires apart { AreApart piece.now }
        requires new { AreNew piece.now
            (chunks_before from.chunk self.old ++ take from.place (items_of from.chunk self.old)) }
        requires light { weight_of (all_items self.old) + weight_of piece.now < 2 ^ 31 }
        ensures index { IsIndex self.new }
        ensures ok { OnOk result (all_items self.new
            ≡ (chunks_before from.chunk self.old ++ take from.place (items_of from.chunk self.old))
            ++ piece.now) }
        ensures err { OnErr result (all_items self.new ≡ all_items self.old) }
    {
        let new = self.front_with(from.chunk, from.place, piece)?;
        self.grow(piece)?;
        self.drop_between(from.chunk, None);
        self.place_front(from, piece, new);
        Ok(())
    }

    // Gives a chunk the items before a place and a piece, or takes it out where there are none.
    fn place_front(&mut self, from: Seat, piece: &[Item], new: Chunk)
        requires index { IsIndex self.old }
        requires chunk { IsItem from.chunk self.old.order }
        requires place { from.place ≤ length (items_of from.chunk self.old) }
        requires is { new ≡ take from.place (items_of from.chunk self.old) ++ piece.now }
        requires apart { AreApart piece.now }
        requires fresh { AreNew piece.now (chunks_before from.chunk self.old
            ++ take from.place (items_of from.chunk self.old) ++ chunks_after from.chunk self.old) }
        requires room { (x : ℕ) → IsItem x piece.now → x < length self.old.homes }
        requires light { weight_of (all_items self.old) + weight_of piece.now < 2 ^ 31 }
        ensures index { IsIndex self.new }
        ensures all { all_items self.new
            ≡ chunks_before from.chunk self.old ++ new ++ chunks_after from.chunk self.old }
    {
        if new.items().is_empty() {
            self.drop_chunk(from.chunk);
        } else {
            self.exchange(from.chunk, from.place, piece, new);
        }
    }

    // Takes out the chunks after a chunk, up to another or all.
    fn drop_between(&mut self, chunk: u32, end: Option<u32>)
        requires index { IsIndex self.old }
        requires chunk { IsItem chunk self.old.order }
        requires end { ForSome end (λ c. IsItem c (items_after chunk self.old.order)) }
        ensures index { IsIndex self.new }
        ensures order { self.new.order ≡ items_before chunk self.old.order
            ++ take 1 (items_from chunk self.old.order) ++ items_from_end end self.old.order }
        ensures kept { (c : ℕ) → IsItem c self.new.order
            → items_of c self.new ≡ items_of c self.old }
        ensures homes { self.new.homes ≡ self.old.homes }
    {
        while let Some(next) = self.after(chunk, end) {
            self.drop_chunk(next);
        }
    }

    // The chunk after a chunk, unless it is the end.
    fn after(&self, chunk: u32, end: Option<u32>) -> Option<u32>
        requires chunk { IsItem chunk self.now.order }
        ensures some { IfSome result (λ c.
            (first_name (items_after chunk self.now.order) ≡ Some c) × (end ≢ Some c)) }
        ensures none { IfNone result (ForSome end (λ c. IsItem c (items_after chunk self.now.order))
            → first_name (items_after chunk self.now.order) ≡ end) }
    {
        let next = self.next_chunk(chunk);
        if next == end { None } else { next }
    }
}
