ghost use Rattle.std.specs.Prelude.{◌≡◌};
ghost use Rattle.td_base.specs.Run.{pieces};
ghost use Rattle.td_text.specs.AtomListParts.{IsAtomListParts};

use std::marker::Model;
use td_base::Atom;

/// The atoms of an `AtomList` that are still to come. Contracts see the list of these.
#[derive(Drop)]
pub struct ListedAtoms<'a> {
    // how many bytes each has
    lengths: &'a [u8],
    // their bytes, one after another
    bytes: &'a [u8],
}

impl<'a> Model for ListedAtoms<'a> {
    ghost use Rattle.std.specs.Prelude.{ℕ, List};
    ghost use Rattle.td_base.specs.Run.{pieces};
    ghost use Rattle.td_text.specs.AtomListParts.{IsAtomListParts};

    ghost Value = { List (List ℕ) };

    ghost view = { λ a. pieces a.lengths.now a.bytes.now };

    ghost invariant = { λ a. IsAtomListParts a.lengths.now a.bytes.now };
}

impl<'a> ListedAtoms<'a> {
    /// The atoms that these bytes are, cut into pieces of these lengths.
    pub(crate) fn new(lengths: &'a [u8], bytes: &'a [u8]) -> ListedAtoms<'a>
        requires { IsAtomListParts lengths.now bytes.now }
        ensures { result ≡ pieces lengths.now bytes.now }
    {
        ListedAtoms { lengths, bytes }
    }
}

impl<'a> Iterator for ListedAtoms<'a> {
    ghost use Rattle.std.specs.Iterator.{YieldsFirst, item_count};

    type Item = Atom;

    ghost next_gives = { YieldsFirst (λ atoms. atoms) };

    ghost remaining = { item_count (λ atoms. atoms) };

    fn next(&mut self) -> Option<Atom> {
        let (len, lengths) = self.lengths.split_first()?;
        let (atom, rest) = self.bytes.split_at(*len as usize);
        self.lengths = lengths;
        self.bytes = rest;
        Some(Atom::of(atom))
    }
}
