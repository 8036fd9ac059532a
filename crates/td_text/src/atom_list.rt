ghost use Rattle.std.specs.Prelude.{◌≡◌, ◌++◌, ◌∷◌, ◌↔◌, [], length, map, All, IsTrue, IfOk, OnOk, OnErr};
ghost use Rattle.std.specs.List.{concat};
ghost use Rattle.std.specs.Str.{IsAscii};
ghost use Rattle.td_base.specs.Atom.{IsAtom};
ghost use Rattle.td_base.specs.Run.{letters};

use crate::listed_atoms::ListedAtoms;
use crate::owned_atoms::OwnedAtoms;
use std::alloc::Global;
use std::marker::Model;
use td_base::{Atom, Memory};

/// A list of atoms: what a text is cut into. It has fewer than 2^32.
#[derive(Debug, Drop)]
pub struct AtomList {
    // the bytes of the atoms, one after another
    bytes: Vec<u8>,
    // how many of these each atom has
    lengths: Vec<u8>,
}

impl Model for AtomList {
    ghost use Rattle.std.specs.Prelude.{ℕ, List};
    ghost use Rattle.td_base.specs.Run.{pieces};
    ghost use Rattle.td_text.specs.AtomListParts.{IsAtomListParts};

    ghost Value = { List (List ℕ) };

    ghost view = { λ a. pieces a.lengths.items a.bytes.items };

    ghost invariant = { λ a. IsAtomListParts a.lengths.items a.bytes.items };
}

impl AtomList {
    /// No atoms. Takes no memory.
    pub fn new(alloc: Global) -> AtomList
        ensures { result ≡ [] }
    {
        AtomList {
            bytes: Vec::new(alloc),
            lengths: Vec::new(alloc),
        }
    }

    /// The atoms of a text of ASCII, one for each byte.
    pub(crate) fn of_letters(alloc: Global, text: &[u8]) -> Result<AtomList, Memory>
        requires { IsAscii text.now }
        ensures { IfOk result (λ atoms. atoms ≡ letters text.now) }
    {
        if text.len() > u32::MAX as usize {
            return Err(Memory);
        }
        Ok(AtomList {
            bytes: Vec::from_slice(alloc, text)?,
            lengths: vec![in alloc; 1; text.len()]?,
        })
    }

    /// Adds the atom at the end.
    pub fn push(&mut self, atom: Atom) -> Result<(), Memory>
        ensures ok { OnOk result (self.new ≡ self.old ++ atom ∷ []) }
        ensures err { OnErr result (self.new ≡ self.old) }
    {
        self.push_bytes(atom.bytes())
    }

    /// Adds the atom with these bytes at the end.
    pub(crate) fn push_bytes(&mut self, atom: &[u8]) -> Result<(), Memory>
        requires { IsAtom atom.now }
        ensures ok { OnOk result (self.new ≡ self.old ++ atom.now ∷ []) }
        ensures err { OnErr result (self.new ≡ self.old) }
    {
        if self.lengths.len() >= u32::MAX as usize {
            return Err(Memory);
        }
        self.lengths.reserve(1)?;
        self.bytes.extend_from_slice(atom)?;
        self.lengths.push(atom.len() as u8).unwrap();
        Ok(())
    }

    /// How many atoms there are.
    pub fn len(&self) -> u32
        ensures { result ≡ length self.now }
    {
        self.lengths.len() as u32
    }

    /// Whether there are none.
    pub fn is_empty(&self) -> bool
        ensures { IsTrue result ↔ (self.now ≡ []) }
    {
        self.len() == 0
    }

    /// The atoms, in order.
    pub fn iter(&self) -> ListedAtoms<'_>
        ensures { result ≡ self.now }
    {
        ListedAtoms::new(&self.lengths, &self.bytes)
    }

    /// The atoms, in order, with the memory that they stand in. Takes no memory.
    pub fn into_atoms(self) -> OwnedAtoms
        ensures atoms { result ≡ self }
        ensures each { All IsAtom self }
    {
        OwnedAtoms::new(self.lengths, self.bytes)
    }

    /// The bytes of the atoms, one after another.
    pub fn bytes(&self) -> &[u8]
        ensures { result.now ≡ concat self.now }
    {
        &self.bytes
    }

    /// How many bytes each atom has.
    pub fn lengths(&self) -> &[u8]
        ensures { result.now ≡ map length self.now }
    {
        &self.lengths
    }
}
