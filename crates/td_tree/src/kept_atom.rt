// An atom, in little room.
ghost use Rattle.std.specs.Prelude.{◌≡◌, ◌≤◌, length, IfOk};
ghost use Rattle.std.specs.Option.{SomeIff};
ghost use Rattle.td_base.specs.Atom.{IsAtom};
ghost use Rattle.td_tree.specs.declared.row_atom.TheConstants.{IN_ROW};
ghost use Rattle.td_tree.specs.RowAtom.{InRow};

use crate::row_atom::{IN_ROW, RowAtom};
use std::alloc::Global;
use std::marker::Model;
use td_base::{Atom, Memory};

// An atom of so many bytes is kept in place.
pub const SHORT: usize = 14;

/// An atom in 16 bytes; a long one is kept beside them. Contracts see the list of its bytes.
#[derive(Debug, Drop)]
pub struct KeptAtom {
    kept: Kept,
}

#[derive(Debug, Drop)]
enum Kept {
    Short { len: u8, bytes: [u8; SHORT] },
    Long(Box<Atom>),
}

impl Model for KeptAtom {
    ghost use Rattle.std.specs.Prelude.{ℕ, List};
    ghost use Rattle.td_tree.specs.KeptAtom.{bytes_of, IsKept};

    ghost Value = { List ℕ };

    ghost view = { λ k. bytes_of k.kept };

    ghost invariant = { λ k. IsKept k.kept };
}

impl KeptAtom {
    /// The atom, kept. Only a long one takes memory.
    pub fn of(alloc: Global, atom: &Atom) -> Result<KeptAtom, Memory>
        ensures { IfOk result (λ kept. kept ≡ atom.now) }
    {
        let len = atom.bytes().len();
        if len > SHORT {
            let kept = Kept::Long(Box::new(alloc, *atom)?);
            return Ok(KeptAtom { kept });
        }
        let mut bytes = [0; SHORT];
        bytes.copy_from_slice(&atom.padded()[..SHORT]);
        let len = len as u8;
        let kept = Kept::Short { len, bytes };
        Ok(KeptAtom { kept })
    }

    /// Its bytes.
    pub fn bytes(&self) -> &[u8]
        ensures bytes { result.now ≡ self.now }
        ensures atom { IsAtom self.now }
    {
        match &self.kept {
            Kept::Short { len, bytes } => &bytes[..*len as usize],
            Kept::Long(atom) => atom.bytes(),
        }
    }

    /// The same kept in a row, where it is short enough.
    pub fn in_row(&self) -> Option<RowAtom>
        ensures { SomeIff result (length self.now ≤ IN_ROW) (InRow self.now) }
    {
        match &self.kept {
            Kept::Short { len, bytes } if *len as usize <= IN_ROW => {
                let mut front = [0; IN_ROW];
                front.copy_from_slice(&bytes[..IN_ROW]);
                Some(RowAtom::in_row(*len, front))
            }
            _ => None,
        }
    }
}
