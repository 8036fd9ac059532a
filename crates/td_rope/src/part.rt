ghost use Rattle.std.specs.Prelude.{◌≡◌, ◌<◌, ◌≤◌, ◌+◌, ◌^◌, ◌++◌, ℕ, List, [], length, remove, slice_get, slice_range};
ghost use Rattle.std.specs.Prelude.{Some, IfOk, OnErr, OnOk};
ghost use Rattle.std.specs.List.{concat, insert_slice};
ghost use Rattle.td_rope.specs.Sizes.{IsSize};
ghost use Rattle.td_rope.specs.Units.{IsIndexOf, offset_of};

use crate::size::Size;
use crate::unit::Unit;
use std::alloc::Global;
use td_base::{Atom, Bytes, Memory, Run};

/// A stretch of the atoms of a text: fewer than 2^32.
pub trait Part: Sized + Drop {
    /// The atoms in their order.
    ghost atoms: { Self → List (List ℕ) };

    /// No atoms. It takes no memory.
    fn new(alloc: Global) -> Self
        ensures { atoms result ≡ [] };

    /// How many atoms there are.
    fn len(&self) -> u32
        ensures { result ≡ length (atoms self.now) };

    /// How much it is. It takes no memory.
    fn size(&self) -> Size
        ensures { IsSize (atoms self.now) result };

    /// Whether it is to be parted before more is put.
    fn is_full(&self) -> bool;

    /// An atom by its index.
    fn atom(&self, index: u32) -> Atom
        requires { index < length (atoms self.now) }
        ensures { slice_get (atoms self.now) index ≡ Some result };

    /// How wide the text is that stands before the atom at an index.
    fn offset_of(&self, unit: Unit, index: u32) -> u64
        requires { index ≤ length (atoms self.now) }
        ensures { result ≡ offset_of unit (atoms self.now) index };

    /// The index of the atom in which an offset lies.
    fn index_of(&self, unit: Unit, offset: u64) -> u32
        ensures { IsIndexOf unit (atoms self.now) offset result };

    /// Puts the atoms of a run at an index.
    fn put(&mut self, alloc: Global, index: u32, run: &Run) -> Result<(), Memory>
        requires index { index ≤ length (atoms self.old) }
        requires few { length (atoms self.old) + length run.now < 2 ^ 32 }
        ensures ok { OnOk result (atoms self.new ≡ insert_slice (atoms self.old) index run.now) }
        ensures err { OnErr result (atoms self.new ≡ atoms self.old) };

    /// Takes the atom at an index out. It takes no memory.
    fn take_out(&mut self, index: u32)
        requires { index < length (atoms self.old) }
        ensures { atoms self.new ≡ remove (atoms self.old) index };

    /// Keeps a front, and gives the rest. More is to be put at the index: it is parted beside that.
    fn part(&mut self, alloc: Global, index: u32) -> Result<Self, Memory>
        requires { index ≤ length (atoms self.old) }
        ensures ok { IfOk result (λ rest. atoms self.new ++ atoms rest ≡ atoms self.old) }
        ensures err { OnErr result (atoms self.new ≡ atoms self.old) };

    /// Adds the bytes of the atoms from an index up to another at the end, as far as there are any.
    fn push_range(&self, from: u32, to: u32, text: &mut Bytes) -> Result<(), Memory>
        ensures ok { OnOk result (text.new ≡ text.old ++ concat (slice_range (atoms self.now) from to)) }
        ensures err { OnErr result (text.new ≡ text.old) };
}
