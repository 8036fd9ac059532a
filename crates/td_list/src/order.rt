// What is read from the order of the chunks.
ghost use Rattle.std.specs.Prelude.{◌≡◌, nat_lt, Option};
ghost use Rattle.td_list.specs.Index.{chunks_after, IsIndex};
ghost use Rattle.td_list.specs.Items.{IsItem, items_before, items_after, place_of, first_name, last_name, first_marked, share_at, weight_of};

use crate::index::Index;
use crate::item::Share;
use crate::scan::first_marked;
use crate::sequence::Sequence;

impl<S: Sequence> Index<S> {
    pub fn first_chunk(&self) -> Option<u32>
        ensures { result ≡ first_name self.now.order }
    {
        self.order.first()
    }

    pub fn last_chunk(&self) -> Option<u32>
        ensures { result ≡ last_name self.now.order }
    {
        self.order.last()
    }

    /// The chunk that follows a chunk.
    pub fn next_chunk(&self, chunk: u32) -> Option<u32>
        requires { IsItem chunk self.now.order }
        ensures { result ≡ first_name (items_after chunk self.now.order) }
    {
        self.order.next(chunk)
    }

    /// The first chunk after a chunk that has a marked item.
    pub fn next_marked_chunk(&self, chunk: u32) -> Option<u32>
        requires { IsItem chunk self.now.order }
        ensures { result ≡ first_marked (items_after chunk self.now.order) }
    {
        self.order.next_marked(chunk)
    }

    /// The first item of the chunks that follow a chunk.
    pub fn head_after(&self, chunk: u32) -> Option<u32>
        requires index { IsIndex self.now }
        requires chunk { IsItem chunk self.now.order }
        ensures { result ≡ first_name (chunks_after chunk self.now) }
    {
        match self.next_chunk(chunk) {
            Some(next) => Some(self.head(next)),
            None => None,
        }
    }

    /// The first marked item of the chunks that follow a chunk.
    pub fn mark_after(&self, chunk: u32) -> Option<u32>
        requires index { IsIndex self.now }
        requires chunk { IsItem chunk self.now.order }
        ensures { result ≡ first_marked (chunks_after chunk self.now) }
    {
        match self.next_marked_chunk(chunk) {
            Some(next) => first_marked(self.items_of(next), 0),
            None => None,
        }
    }

    /// Whether a chunk stands before another.
    pub fn is_chunk_before(&self, first: u32, second: u32) -> bool
        requires first { IsItem first self.now.order }
        requires second { IsItem second self.now.order }
        ensures { result ≡ nat_lt (place_of first self.now.order) (place_of second self.now.order) }
    {
        self.order.is_before(first, second)
    }

    /// The weight of all chunks.
    pub fn weight(&self) -> u32
        ensures { result ≡ weight_of self.now.order }
    {
        self.order.weight()
    }

    /// The weight of the chunks before a chunk.
    pub fn weight_before(&self, chunk: u32) -> u32
        requires { IsItem chunk self.now.order }
        ensures { result ≡ weight_of (items_before chunk self.now.order) }
    {
        self.order.weight_before(chunk)
    }

    /// The chunk with a unit of weight.
    pub fn chunk_with(&self, unit: u32) -> Option<Share>
        ensures { result ≡ share_at unit self.now.order }
    {
        self.order.share_at(unit)
    }
}
