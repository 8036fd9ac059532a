ghost use Rattle.std.specs.Prelude.{◌≡◌, ◌<◌, ◌≤◌, ◌+◌, ◌∷◌, ◌++◌, [], length, slice_get, slice_index, slice_index_or, slice_set, OnErr, OnOk, IfSome, IsTrue};
ghost use Rattle.td_clock.specs.Vector.{vector_get, vector_set};

use std::alloc::Global;
use std::marker::Model;
use td_base::{MAX_SITE, Memory, Site};
use td_clock::Vector;

/// A list of vectors of one size n in one array; a vector takes 2 n bytes. Room for more is made by `reserve` and used
/// up by `push`.
#[derive(Debug, Drop)]
pub struct Vectors {
    size: u8,
    len: u32,
    // the numbers of the vectors, one vector after another
    numbers: Vec<u16>,
    room: u32,
}

impl Model for Vectors {
    ghost use Rattle.std.specs.Prelude.{vec_capacity};
    ghost use Rattle.td_store.specs.Lists.{VectorsValue};

    ghost Value = { VectorsValue };

    ghost use Rattle.td_store.specs.VectorsParts.{AreVectorsParts, rows_of};

    ghost view = { λ v. record { size = v.size; rows = rows_of v.size v.len v.numbers.items; room = v.room } };

    ghost invariant = { λ v. AreVectorsParts v.size v.len v.room v.numbers.items (vec_capacity v.numbers) };
}

impl Vectors {
    /// No vectors of this size, and no room. Takes no memory.
    pub fn new(alloc: Global, size: u8) -> Vectors
        requires some { 1 ≤ size }
        requires short { size ≤ MAX_SITE }
        ensures { result ≡ record { size = size; rows = []; room = 0 } }
    {
        Vectors {
            size,
            len: 0,
            numbers: Vec::new(alloc),
            room: 0,
        }
    }

    /// Makes room for so many more vectors. `Memory` too where there would be more than `u32::MAX`.
    pub fn reserve(&mut self, more: u32) -> Result<(), Memory>
        ensures ok { OnOk result (more ≤ self.new.room) }
        ensures rows { self.new ≡ record self.old { room = self.new.room } }
        ensures room { self.old.room ≤ self.new.room }
        ensures err { OnErr result (self.new ≡ self.old) }
    {
        if more > u32::MAX - self.len {
            return Err(Memory);
        }
        self.numbers.reserve(more as usize * self.size as usize)?;
        self.room = self.room.max(more);
        Ok(())
    }

    /// Adds the vector at the end. Takes no memory.
    pub fn push(&mut self, vector: &Vector)
        requires size { length vector.now ≡ self.old.size }
        requires room { 1 ≤ self.old.room }
        ensures size { self.new.size ≡ self.old.size }
        ensures rows { self.new.rows ≡ self.old.rows ++ vector.now ∷ [] }
        ensures room { self.new.room + 1 ≡ self.old.room }
    {
        self.numbers.extend_from_slice(vector.numbers()).unwrap();
        self.len += 1;
        self.room -= 1;
    }

    /// The vector at a place from 0 that there is.
    pub fn at(&self, k: u32) -> Vector
        requires { k < length self.now.rows }
        ensures row { result ≡ slice_index_or self.now.rows k [] }
        ensures size { length result ≡ self.now.size }
    {
        let size = self.size as usize;
        let start = k as usize * size;
        Vector::of(&self.numbers[start..start + size])
    }

    /// Whether the vector at a place from 0 is this one, but that it may have any number for the site.
    pub fn has_but_at(&self, k: u32, vector: &Vector, site: Site) -> bool
        requires size { length vector.now ≡ self.now.size }
        requires site { site ≤ self.now.size }
        ensures { IsTrue result → IfSome (slice_get self.now.rows k) (λ row.
            vector_set row site (vector_get vector.now site) ≡ vector.now) × (k < length self.now.rows) }
    {
        if k >= self.len {
            return false;
        }
        let size = self.size as usize;
        let start = k as usize * size;
        let row = &self.numbers[start..start + size];
        are_same_but_at(row, vector.numbers(), site.place())
    }

    /// How many vectors there are.
    pub fn len(&self) -> u32
        ensures { result ≡ length self.now.rows }
    {
        self.len
    }
}

// Whether the numbers are those, but at a place, where they may differ.
fn are_same_but_at(numbers: &[u16], others: &[u16], place: usize) -> bool
    requires { length numbers.now ≡ length others.now }
    ensures { IsTrue result → slice_set numbers.now place (slice_index others.now place) ≡ others.now }
{
    for i in 0..numbers.len() {
        if numbers[i] != others[i] && i != place {
            return false;
        }
    }
    true
}
