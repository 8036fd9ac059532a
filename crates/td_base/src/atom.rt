ghost use Rattle.std.specs.Prelude.{◌≡◌, take, IfErr};
ghost use Rattle.std.specs.Result.{OkIff};
ghost use Rattle.td_base.specs.Atom.{IsAtom, IsAtomFault};
ghost use Rattle.td_base.specs.AtomParts.{IsAtomParts};
ghost use Rattle.td_base.specs.Padded.{padded_with_zeros};

use std::marker::Model;
use thiserror::Error;

/// The greatest length of an atom in bytes.
pub const MAX_ATOM_LEN: usize = 64;

/// Why bytes are no atom: the first of these that holds.
#[derive(Clone, Copy, Debug, PartialEq, Eq, Error)]
pub enum AtomFault {
    /// There are no bytes.
    #[error("an atom has no bytes")]
    Empty,
    /// There are more than `MAX_ATOM_LEN` bytes.
    #[error("an atom has {len} bytes, which are too many")]
    Long { len: usize },
    /// The bytes are not UTF-8: their longest front that is UTF-8 has `at` bytes.
    #[error("an atom is no UTF-8 behind {at} bytes")]
    Utf8 { at: usize },
}

/// An atom of the text: 1 to `MAX_ATOM_LEN` bytes of UTF-8. Contracts see the list of its bytes.
#[derive(Clone, Copy, Debug, PartialEq, Eq)]
pub struct Atom {
    len: u8,
    // past `len` the bytes are 0
    bytes: [u8; MAX_ATOM_LEN],
}

impl Model for Atom {
    ghost use Rattle.std.specs.Prelude.{ℕ, List, length, take};

    ghost Value = { List ℕ };

    ghost use Rattle.td_base.specs.AtomParts.{IsAtomParts};
    ghost use Rattle.td_base.specs.Padded.{padded_with_zeros, len_again};
    ghost use Rattle.td_base.specs.declared.atom.TheConstants.{MAX_ATOM_LEN};
    ghost use Rattle.std.proofs.Common.{sym};

    ghost view = { λ a. take a.len a.bytes };

    ghost invariant = { λ a. IsAtomParts a.len a.bytes };

    ghost inverse = { λ bytes. record { len = length bytes; bytes = padded_with_zeros MAX_ATOM_LEN bytes } };

    ghost inverse_ok = { λ a h i. record {
      len = len_again MAX_ATOM_LEN a.len a.bytes h.padded i;
      bytes = sym h.padded.zeros i;
    } };
}

impl Atom {
    /// The atom with these bytes. Takes no memory.
    pub fn new(bytes: &[u8]) -> Result<Atom, AtomFault>
        ensures ok { OkIff result (IsAtom bytes.now) bytes.now }
        ensures fault { IfErr result (IsAtomFault bytes.now) }
    {
        if bytes.is_empty() {
            return Err(AtomFault::Empty);
        }
        let len = bytes.len();
        if len > MAX_ATOM_LEN {
            return Err(AtomFault::Long { len });
        }
        if let Err(error) = str::from_utf8(bytes) {
            return Err(AtomFault::Utf8 {
                at: error.valid_up_to(),
            });
        }
        Ok(Atom::of(bytes))
    }

    /// The atom with these bytes, which are known to be one: they are not looked through. Takes no memory.
    pub fn of(bytes: &[u8]) -> Atom
        requires { IsAtom bytes.now }
        ensures { result ≡ bytes.now }
    {
        let mut all = [0; MAX_ATOM_LEN];
        all[..bytes.len()].copy_from_slice(bytes);
        Atom {
            len: bytes.len() as u8,
            bytes: all,
        }
    }

    // The atom of the first bytes, behind which are zeros.
    pub(crate) fn padded_to(len: u8, bytes: &[u8; MAX_ATOM_LEN]) -> Atom
        requires { IsAtomParts len bytes.now }
        ensures { result ≡ take len bytes.now }
    {
        Atom { len, bytes: *bytes }
    }

    /// Its bytes, 1 to `MAX_ATOM_LEN` of them.
    pub fn bytes(&self) -> &[u8]
        ensures bytes { result.now ≡ self.now }
        ensures atom { IsAtom self.now }
    {
        &self.bytes[..self.len as usize]
    }

    /// Its bytes as a text.
    pub fn as_str(&self) -> &str
        ensures { result.now ≡ self.now }
    {
        str::from_utf8(self.bytes()).unwrap()
    }

    /// Its bytes, and zeros behind them.
    pub fn padded(&self) -> &[u8; MAX_ATOM_LEN]
        ensures { result.now ≡ padded_with_zeros MAX_ATOM_LEN self.now }
    {
        &self.bytes
    }
}
