ghost use Rattle.std.specs.Prelude.{◌≡◌};
ghost use Rattle.td_base.specs.RunParts.{HaveAtoms, atoms_of};

use crate::atom::Atom;
use std::marker::Model;

/// The atoms of a run that are still to come. Contracts see the list of these.
#[derive(Drop)]
pub struct Atoms<'a> {
    // their bytes, and perhaps zeros behind them
    bytes: &'a [u8],
    // bit i is set where an atom ends with byte i
    ends: u64,
}

impl<'a> Model for Atoms<'a> {
    ghost use Rattle.std.specs.Prelude.{ℕ, List};
    ghost use Rattle.td_base.specs.RunParts.{HaveAtoms, atoms_of};

    ghost Value = { List (List ℕ) };

    ghost view = { λ a. atoms_of a.ends a.bytes.now };

    ghost invariant = { λ a. HaveAtoms a.bytes.now a.ends };
}

impl<'a> Atoms<'a> {
    /// The atoms that these bytes begin with and that end where the bits say.
    pub(crate) fn new(bytes: &'a [u8], ends: u64) -> Atoms<'a>
        requires { HaveAtoms bytes.now ends }
        ensures { result ≡ atoms_of ends bytes.now }
    {
        Atoms { bytes, ends }
    }
}

impl<'a> Iterator for Atoms<'a> {
    ghost use Rattle.std.specs.Iterator.{YieldsFirst, item_count};

    type Item = Atom;

    ghost next_gives = { YieldsFirst (λ atoms. atoms) };

    ghost remaining = { item_count (λ atoms. atoms) };

    fn next(&mut self) -> Option<Atom> {
        if self.ends == 0 {
            return None;
        }
        let last = self.ends.trailing_zeros();
        let (atom, rest) = self.bytes.split_at(last as usize + 1);
        self.bytes = rest;
        self.ends = self.ends >> last >> 1;
        Some(Atom::of(atom))
    }
}
