ghost use Rattle.std.specs.Prelude.{◌≡◌, ◌∷◌, [], MatchOption};
ghost use Rattle.td_base.specs.Run.{pieces};
ghost use Rattle.td_text.specs.AtomListParts.{IsAtomListParts};
ghost use Rattle.td_text.specs.Runs.{runs_of};

use crate::runs::first_run;
use std::marker::Model;
use td_base::{Atom, Run};

/// The atoms of an `AtomList` that are still to come, with the memory that all of them stand in. Contracts see the list
/// of those still to come.
#[derive(Debug, Drop)]
pub struct OwnedAtoms {
    // how many bytes each atom has
    lengths: Vec<u8>,
    // their bytes, one after another
    bytes: Vec<u8>,
    // how many atoms came
    count: usize,
    // how many bytes these have
    len: usize,
}

impl Model for OwnedAtoms {
    ghost use Rattle.std.specs.Prelude.{ℕ, List, drop};
    ghost use Rattle.td_base.specs.Run.{pieces};
    ghost use Rattle.td_text.specs.AtomListParts.{IsOwnedParts};

    ghost Value = { List (List ℕ) };

    ghost view = { λ a. pieces (drop a.count a.lengths.items) (drop a.len a.bytes.items) };

    ghost invariant = { λ a. IsOwnedParts a.lengths.items a.bytes.items a.count a.len };
}

impl OwnedAtoms {
    /// The atoms that these bytes are, cut into pieces of these lengths. Takes no memory.
    pub(crate) fn new(lengths: Vec<u8>, bytes: Vec<u8>) -> OwnedAtoms
        requires { IsAtomListParts lengths.items bytes.items }
        ensures { result ≡ pieces lengths.items bytes.items }
    {
        OwnedAtoms {
            lengths,
            bytes,
            count: 0,
            len: 0,
        }
    }

    /// The next atom. It takes the same time wherever the atom stands, and no memory.
    pub fn next_atom(&mut self) -> Option<Atom>
        ensures { MatchOption result ((self.old ≡ []) × (self.new ≡ [])) (λ atom. self.old ≡ atom ∷ self.new) }
    {
        let len = *self.lengths.get(self.count)? as usize;
        let (bytes, _) = self.bytes[self.len..].split_at(len);
        let atom = Atom::of(bytes);
        self.count += 1;
        self.len += len;
        Some(atom)
    }

    /// The next run: as many of the next atoms as fit. Takes no memory.
    pub fn next_run(&mut self) -> Option<Run>
        ensures { MatchOption result ((self.old ≡ []) × (self.new ≡ []))
            (λ run. runs_of self.old ≡ run ∷ runs_of self.new) }
    {
        let lengths = &self.lengths[self.count..];
        if lengths.is_empty() {
            return None;
        }
        let (count, len) = first_run(lengths);
        let (lengths, _) = lengths.split_at(count);
        let (bytes, _) = self.bytes[self.len..].split_at(len);
        let run = Run::cut(bytes, lengths);
        self.count += count;
        self.len += len;
        Some(run)
    }
}
