ghost use Rattle.std.specs.Prelude.{◌≡◌, ◌∷◌, ◌++◌, [], length, IfOk, IsTrue, OnOk, OnErr, slice_get, ◌↔◌};

use std::alloc::Global;
use std::marker::Model;
use td_base::{AtomId, Bit, Memory};

/// The way from the root of the tree to a node: pairs of a bit and the identity of the node reached. The path of a row
/// has at least one pair, and its first pair has `Right`. It has at most `u32::MAX` pairs.
#[derive(Debug, Drop)]
pub struct Path {
    pairs: Vec<(Bit, AtomId)>,
}

impl Model for Path {
    ghost use Rattle.std.specs.Prelude.{◌<◌, ◌^◌, length};
    ghost use Rattle.td_path.specs.Infix.{Pairs};

    ghost Value = { Pairs };

    ghost view = { λ p. p.pairs.items };

    ghost invariant = { λ p. length p.pairs.items < 2 ^ 32 };
}

impl Path {
    /// The empty path. Takes no memory.
    pub fn new(alloc: Global) -> Path
        ensures { result ≡ [] }
    {
        Path {
            pairs: Vec::new(alloc),
        }
    }

    /// Goes one step further down.
    pub fn push(&mut self, bit: Bit, id: AtomId) -> Result<(), Memory>
        ensures ok { OnOk result (self.new ≡ self.old ++ (bit, id) ∷ []) }
        ensures err { OnErr result (self.new ≡ self.old) }
    {
        if self.pairs.len() >= u32::MAX as usize {
            return Err(Memory);
        }
        self.pairs.push((bit, id))?;
        Ok(())
    }

    /// A copy of the path.
    pub fn try_clone(&self) -> Result<Path, Memory>
        ensures { IfOk result (λ p. p ≡ self.now) }
    {
        Ok(Path {
            pairs: Vec::from_slice(*self.pairs.allocator(), &self.pairs)?,
        })
    }

    /// How many pairs it has: the depth of its node.
    pub fn len(&self) -> u32
        ensures { result ≡ length self.now }
    {
        self.pairs.len() as u32
    }

    /// Whether it is the way to the root.
    pub fn is_empty(&self) -> bool
        ensures { IsTrue result ↔ (self.now ≡ []) }
    {
        self.pairs.is_empty()
    }

    /// The pair at a place, from 0.
    pub fn pair(&self, i: u32) -> Option<(Bit, AtomId)>
        ensures { result ≡ slice_get self.now i }
    {
        self.pairs.get(i as usize).copied()
    }

    /// The pairs in order.
    pub fn as_slice(&self) -> &[(Bit, AtomId)]
        ensures { result.now ≡ self.now }
    {
        &self.pairs
    }
}
