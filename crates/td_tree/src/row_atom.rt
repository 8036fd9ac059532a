// What a row itself keeps of its atom.
ghost use Rattle.std.specs.Prelude.{◌≡◌, ◌<◌, ◌≤◌, ◌+◌, take, length, vec_len, vec_capacity};
ghost use Rattle.td_base.specs.Atom.{IsAtom};
ghost use Rattle.td_tree.specs.declared.row_atom.TheConstants.{IN_ROW, MOST_LONG};
ghost use Rattle.td_tree.specs.RowAtom.{InRow, Beside, atom_from, IsFrom, IsPlaced};

use crate::kept_atom::KeptAtom;
use std::marker::Model;

// An atom of so many bytes is kept in its row.
pub const IN_ROW: usize = 4;

// So many longer ones have numbers.
pub const MOST_LONG: usize = u32::MAX as usize;

/// A short atom, or the number of a longer one that is kept beside the rows, in 5 bytes. Contracts see which.
#[derive(Debug, Drop)]
pub struct RowAtom {
    // 0 where the atom is kept beside the rows
    len: u8,
    // the atom's at the front, or those of the number, the lowest first
    bytes: [u8; IN_ROW],
}

impl Model for RowAtom {
    ghost use Rattle.td_tree.specs.RowAtom.{RowAtomValue, row_atom, IsRowAtom};

    ghost Value = { RowAtomValue };

    ghost view = { λ a. row_atom a.len a.bytes };

    ghost invariant = { λ a. IsRowAtom a.len a.bytes };
}

impl RowAtom {
    /// The atom of the first bytes, kept in the row.
    pub fn in_row(len: u8, bytes: [u8; IN_ROW]) -> RowAtom
        requires short { len ≤ IN_ROW }
        requires atom { IsAtom (take len bytes) }
        ensures { result ≡ InRow (take len bytes) }
    {
        RowAtom { len, bytes }
    }

    /// The number of an atom that is kept beside the rows.
    pub fn beside(number: u32) -> RowAtom
        ensures { result ≡ Beside number }
    {
        RowAtom {
            len: 0,
            bytes: number.to_le_bytes(),
        }
    }

    /// A new atom put in its row, or, where it is too long, behind those that are kept beside the rows by numbers from
    /// the first on. There must be room for it.
    pub fn placed(first: u32, long: &mut Vec<KeptAtom>, atom: KeptAtom) -> RowAtom
        requires room { vec_len long.old < vec_capacity long.old }
        requires few { first + length long.old.items < MOST_LONG }
        ensures placed { IsPlaced first long.old.items long.new.items atom result }
        ensures room { vec_capacity long.old ≤ vec_capacity long.new }
    {
        match atom.in_row() {
            Some(kept) => kept,
            None => {
                let number = first + long.len() as u32;
                long.push(atom).unwrap();
                RowAtom::beside(number)
            }
        }
    }

    /// The bytes of the atom, with those that are kept beside the rows.
    pub fn bytes<'a>(&'a self, long: &'a [KeptAtom]) -> &'a [u8]
        requires { IsFrom 0 (length long.now) self.now }
        ensures bytes { result.now ≡ atom_from 0 long.now self.now }
        ensures atom { IsAtom result.now }
    {
        if self.len == 0 {
            let number = u32::from_le_bytes(self.bytes);
            return long[number as usize].bytes();
        }
        &self.bytes[..self.len as usize]
    }
}
