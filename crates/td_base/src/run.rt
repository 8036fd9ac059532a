ghost use Rattle.std.specs.Prelude.{◌≡◌, ◌<◌, ◌-◌, ◌^◌, ◌++◌, ◌∷◌, ◌==◌, [], length, map, replicate, sum, All, IfErr, IfSome, None, if◌then◌else◌, slice_get};
ghost use Rattle.std.specs.List.{concat};
ghost use Rattle.std.specs.Result.{OkIff};
ghost use Rattle.td_base.specs.Atom.{IsAtom};
ghost use Rattle.td_base.specs.Run.{IsRun, IsRunFault, pieces};

use crate::atom::Atom;
use crate::atoms::Atoms;
use std::marker::Model;
use thiserror::Error;

/// The greatest number of bytes of a run, and so of its atoms.
pub const MAX_RUN_LEN: usize = 64;

/// Why atoms are no run: the first of these that holds.
#[derive(Clone, Copy, Debug, PartialEq, Eq, Error)]
pub enum RunFault {
    /// There are no atoms.
    #[error("a run has no atoms")]
    Empty,
    /// They have more than `MAX_RUN_LEN` bytes together, namely `len`.
    #[error("a run has {len} bytes, which are too many")]
    Long { len: u64 },
}

/// What one insert puts into the text: 1 to 64 atoms with at most `MAX_RUN_LEN` bytes together. Contracts see the list
/// of the atoms.
#[derive(Clone, Copy, Debug, PartialEq, Eq)]
pub struct Run {
    // the atoms one after another, and zeros behind them
    bytes: [u8; MAX_RUN_LEN],
    // bit i is set where an atom ends with byte i
    ends: u64,
}

impl Model for Run {
    ghost use Rattle.std.specs.Prelude.{ℕ, List};

    ghost Value = { List (List ℕ) };

    ghost use Rattle.td_base.specs.RunParts.{IsRunParts, atoms_of, bytes_of, ends_of};
    ghost use Rattle.std.proofs.Common.{sym};

    ghost view = { λ r. atoms_of r.ends r.bytes };

    ghost invariant = { λ r. IsRunParts r.bytes r.ends };

    ghost inverse = { λ atoms. record { bytes = bytes_of atoms; ends = ends_of atoms } };

    ghost inverse_ok = { λ r h i. record { bytes = sym h.bytes_again i; ends = sym h.ends_again i } };
}

impl Run {
    /// The run of one atom. Takes no memory.
    pub fn one(atom: Atom) -> Run
        ensures { result ≡ atom ∷ [] }
    {
        Run {
            bytes: *atom.padded(),
            ends: 1 << (atom.bytes().len() - 1),
        }
    }

    /// The run of these atoms. Takes no memory.
    pub fn new(atoms: &[Atom]) -> Result<Run, RunFault>
        requires { length atoms.now < 2 ^ 32 }
        ensures ok { OkIff result (IsRun atoms.now) atoms.now }
        ensures fault { IfErr result (IsRunFault atoms.now) }
    {
        if atoms.is_empty() {
            return Err(RunFault::Empty);
        }
        let len = bytes_together(atoms);
        if len > MAX_RUN_LEN as u64 {
            return Err(RunFault::Long { len });
        }
        let mut bytes = [0; MAX_RUN_LEN];
        let mut ends = 0;
        let mut end = 0;
        for atom in atoms {
            let piece = atom.bytes();
            let start = end;
            end += piece.len();
            bytes[start..end].copy_from_slice(piece);
            ends |= 1 << (end - 1);
        }
        Ok(Run { bytes, ends })
    }

    /// The run of the atoms that these bytes are, cut into pieces of these lengths. Takes no memory.
    pub fn cut(bytes: &[u8], lengths: &[u8]) -> Run
        requires whole { sum lengths.now ≡ length bytes.now }
        requires run { IsRun (pieces lengths.now bytes.now) }
        ensures { result ≡ pieces lengths.now bytes.now }
    {
        let mut ends = 0;
        let mut end = 0;
        for len in lengths {
            end += *len;
            ends |= 1 << (end - 1);
        }
        let mut all = [0; MAX_RUN_LEN];
        all[..bytes.len()].copy_from_slice(bytes);
        Run { bytes: all, ends }
    }

    /// How many atoms the run has.
    pub fn len(&self) -> u8
        ensures len { result ≡ length self.now }
        ensures run { IsRun self.now }
    {
        self.ends.count_ones() as u8
    }

    /// The atom at a place from 0.
    pub fn atom(&self, i: u8) -> Option<Atom>
        ensures { result ≡ slice_get self.now i }
    {
        if i >= self.len() {
            return None;
        }
        let mut start = 0;
        let mut ends = self.ends;
        for _ in 0..i {
            let len = ends.trailing_zeros() + 1;
            start += len as usize;
            ends >>= len;
        }
        let end = start + ends.trailing_zeros() as usize + 1;
        Some(Atom::of(&self.bytes[start..end]))
    }

    /// The atom of a run that has no other.
    pub fn only(&self) -> Option<Atom>
        ensures only { result ≡ (if length self.now == 1 then slice_get self.now 0 else None) }
        ensures run { IfSome result (λ atom. self.now ≡ atom ∷ []) }
    {
        let last = self.ends.trailing_zeros();
        if self.ends >> last >> 1 != 0 {
            return None;
        }
        Some(Atom::padded_to(last as u8 + 1, &self.bytes))
    }

    /// The atoms in their order.
    pub fn iter(&self) -> Atoms<'_>
        ensures { result ≡ self.now }
    {
        Atoms::new(&self.bytes, self.ends)
    }

    /// The bytes of the atoms, one after another.
    pub fn bytes(&self) -> &[u8]
        ensures { result.now ≡ concat self.now }
    {
        let len = u64::BITS - self.ends.leading_zeros();
        &self.bytes[..len as usize]
    }

    /// How many bytes each atom has, and zeros behind these numbers.
    pub fn lengths(&self) -> [u8; MAX_RUN_LEN]
        ensures { result ≡ map length self.now ++ replicate (MAX_RUN_LEN - length self.now) 0 }
    {
        let mut lengths = [0; MAX_RUN_LEN];
        let mut ends = self.ends;
        for i in 0..self.len() as usize {
            let last = ends.trailing_zeros();
            lengths[i] = last as u8 + 1;
            ends = ends >> last >> 1;
        }
        lengths
    }
}

// How many bytes the atoms have together.
fn bytes_together(atoms: &[Atom]) -> u64
    requires { length atoms.now < 2 ^ 32 }
    ensures len { result ≡ length (concat atoms.now) }
    ensures atoms { All IsAtom atoms.now }
{
    let mut len = 0;
    for atom in atoms {
        len += atom.bytes().len() as u64;
    }
    len
}
