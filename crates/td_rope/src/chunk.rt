ghost use Rattle.std.specs.Prelude.{◌≡◌, ◌<◌, ◌≤◌, ◌^◌, length, slice_range, take, All, IfOk};
ghost use Rattle.std.specs.List.{concat};
ghost use Rattle.td_base.specs.Atom.{IsAtom};
ghost use Rattle.td_base.specs.Run.{pieces};
ghost use Rattle.td_rope.specs.ChunkParts.{IsChunkParts};
ghost use Rattle.td_rope.specs.Units.{IsIndexOf};

use crate::cutting::cut_beside;
use crate::part::Part;
use crate::piece::{take_out, total, with_piece};
use crate::size::{Size, width};
use crate::unit::Unit;
use std::alloc::Global;
use std::marker::Model;
use td_base::{Atom, Bytes, Memory, Run};

// So many bytes stand in a chunk at most, but for those of a run.
const FULL: usize = 512;

/// Atoms that stand next to each other: their bytes one after another, how many of these each has, and how much all
/// of them are.
#[derive(Drop)]
pub struct Chunk {
    bytes: Vec<u8>,
    lengths: Vec<u8>,
    size: Size,
}

impl Model for Chunk {
    ghost use Rattle.std.specs.Prelude.{ℕ, List};
    ghost use Rattle.td_base.specs.Run.{pieces};
    ghost use Rattle.td_rope.specs.ChunkParts.{IsChunk};

    ghost Value = { List (List ℕ) };

    ghost view = { λ c. pieces c.lengths.items c.bytes.items };

    ghost invariant = { λ c. IsChunk c.lengths.items c.bytes.items c.size };
}

impl Chunk {
    // How many bytes stand before an atom.
    fn start(&self, index: usize) -> usize
        requires { index ≤ length self.now }
        ensures { result ≡ length (concat (take index self.now)) }
    {
        total(&self.lengths[..index])
    }

    // The bytes of the atoms from an index up to another.
    fn bytes_of(&self, from: usize, to: usize) -> &[u8]
        requires from { from ≤ to }
        requires to { to ≤ length self.now }
        ensures bytes { result.now ≡ concat (slice_range self.now from to) }
        ensures each { All IsAtom self.now }
        ensures few { length result.now < 2 ^ 63 }
    {
        let start = self.start(from);
        let end = self.start(to);
        &self.bytes[start..end]
    }

    // The atoms from an index up to another, in memory that just fits them.
    fn stretch(&self, alloc: Global, from: usize, to: usize) -> Result<Chunk, Memory>
        requires from { from ≤ to }
        requires to { to ≤ length self.now }
        ensures { IfOk result (λ chunk. chunk ≡ slice_range self.now from to) }
    {
        let bytes = self.bytes_of(from, to);
        Ok(Chunk {
            bytes: Vec::from_slice(alloc, bytes)?,
            lengths: Vec::from_slice(alloc, &self.lengths[from..to])?,
            size: Size::of((to - from) as u32, bytes),
        })
    }
}

impl Part for Chunk {
    ghost atoms = { λ c. c };

    fn new(alloc: Global) -> Chunk {
        Chunk {
            bytes: Vec::new(alloc),
            lengths: Vec::new(alloc),
            size: Size::none(),
        }
    }

    fn len(&self) -> u32 {
        self.size.atoms
    }

    fn size(&self) -> Size {
        self.size
    }

    fn is_full(&self) -> bool {
        self.bytes.len() >= FULL
    }

    fn atom(&self, index: u32) -> Atom {
        let place = index as usize;
        Atom::of(self.bytes_of(place, place + 1))
    }

    fn offset_of(&self, unit: Unit, index: u32) -> u64 {
        width(unit, self.bytes_of(0, index as usize))
    }

    fn index_of(&self, unit: Unit, offset: u64) -> u32 {
        index_of(&self.lengths, &self.bytes, unit, offset)
    }

    fn put(&mut self, alloc: Global, index: u32, run: &Run) -> Result<(), Memory> {
        let place = index as usize;
        let all = run.lengths();
        let lengths = with_piece(alloc, &self.lengths, place, &all[..run.len() as usize])?;
        let bytes = with_piece(alloc, &self.bytes, self.start(place), run.bytes())?;
        self.lengths = lengths;
        self.bytes = bytes;
        let more = Size::of(u32::from(run.len()), run.bytes());
        self.size = self.size.plus(&more);
        Ok(())
    }

    fn take_out(&mut self, index: u32) {
        let place = index as usize;
        let from = self.start(place);
        let to = self.start(place + 1);
        let less = Size::of(1, &self.bytes[from..to]);
        take_out(&mut self.bytes, from, to);
        self.lengths.remove(place);
        self.size = self.size.minus(&less);
    }

    fn part(&mut self, alloc: Global, index: u32) -> Result<Chunk, Memory> {
        let end = self.lengths.len();
        let cut = cut_beside(index as usize, end);
        let rest = self.stretch(alloc, cut, end)?;
        *self = self.stretch(alloc, 0, cut)?;
        Ok(rest)
    }

    fn push_range(&self, from: u32, to: u32, text: &mut Bytes) -> Result<(), Memory> {
        let last = to.min(self.len());
        let first = from.min(last);
        text.push(self.bytes_of(first as usize, last as usize))
    }
}

// The index of the atom in which an offset lies.
fn index_of(lengths: &[u8], bytes: &[u8], unit: Unit, offset: u64) -> u32
    requires parts { IsChunkParts lengths.now bytes.now }
    requires few { length bytes.now < 2 ^ 63 }
    ensures { IsIndexOf unit (pieces lengths.now bytes.now) offset result }
{
    let mut index = 0;
    let mut end = 0;
    let mut rest = offset;
    for len in lengths {
        let start = end;
        end += usize::from(*len);
        let width = width(unit, &bytes[start..end]);
        if rest < width {
            return index;
        }
        rest -= width;
        index += 1;
    }
    index
}
