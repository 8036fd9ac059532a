// A text in runs, each with as many of its clusters as fit.
ghost use Rattle.std.specs.Prelude.{◌≡◌, ◌≢◌, ◌<◌, ◌≤◌, ◌^◌, ◌∷◌, List, [], All, ℕ, length, map, sum, take, drop};
ghost use Rattle.std.specs.List.{flat_map};
ghost use Rattle.td_base.specs.Atom.{IsAtom};
ghost use Rattle.td_base.specs.declared.atom.TheConstants.{MAX_ATOM_LEN};
ghost use Rattle.td_base.specs.Run.{IsRun};
ghost use Rattle.td_text.specs.Runs.{runs_of};

use crate::atom_list::AtomList;
use std::marker::Model;
use td_base::{MAX_RUN_LEN, Run};

/// The runs of a text that are still to come. Contracts see the list of these.
#[derive(Drop)]
pub struct TextRuns<'a> {
    // how many bytes each of their atoms has
    lengths: &'a [u8],
    // the bytes of these atoms, one after another
    bytes: &'a [u8],
}

impl<'a> Model for TextRuns<'a> {
    ghost use Rattle.std.specs.Prelude.{ℕ, List};
    ghost use Rattle.td_base.specs.Run.{pieces};
    ghost use Rattle.td_text.specs.AtomListParts.{IsAtomListParts};
    ghost use Rattle.td_text.specs.Runs.{runs_of};

    ghost Value = { List (List (List ℕ)) };

    ghost view = { λ r. runs_of (pieces r.lengths.now r.bytes.now) };

    ghost invariant = { λ r. IsAtomListParts r.lengths.now r.bytes.now };
}

/// The atoms in runs. Takes no memory.
pub fn runs_of(atoms: &AtomList) -> TextRuns<'_>
    requires each { All IsAtom atoms.now }
    requires few { length atoms.now < 2 ^ 32 }
    ensures { result ≡ runs_of atoms.now }
{
    TextRuns {
        lengths: atoms.lengths(),
        bytes: atoms.bytes(),
    }
}

impl<'a> Iterator for TextRuns<'a> {
    ghost use Rattle.std.specs.Iterator.{YieldsFirst, item_count};

    type Item = Run;

    ghost next_gives = { YieldsFirst (λ runs. runs) };

    ghost remaining = { item_count (λ runs. runs) };

    fn next(&mut self) -> Option<Run> {
        if self.lengths.is_empty() {
            return None;
        }
        let (count, len) = first_run(self.lengths);
        let (lengths, other_lengths) = self.lengths.split_at(count);
        let (bytes, other_bytes) = self.bytes.split_at(len);
        self.lengths = other_lengths;
        self.bytes = other_bytes;
        Some(Run::cut(bytes, lengths))
    }
}

/// How many of the atoms that have so many bytes one run has, and how many bytes these have.
pub(crate) fn first_run(lengths: &[u8]) -> (usize, usize)
    requires short { All (λ len. len ≤ MAX_ATOM_LEN) lengths.now }
    requires some { lengths.now ≢ [] }
    ensures within { result.0 ≤ length lengths.now }
    ensures some { 0 < result.0 }
    ensures bytes { result.1 ≡ sum (take result.0 lengths.now) }
    ensures first { (atoms : List (List ℕ)) → map length atoms ≡ lengths.now
        → runs_of atoms ≡ take result.0 atoms ∷ runs_of (drop result.0 atoms) }
{
    let mut room = MAX_RUN_LEN;
    let mut count = 0;
    for len in lengths {
        let len = *len as usize;
        if room < len {
            return (count, MAX_RUN_LEN - room);
        }
        room -= len;
        count += 1;
    }
    (count, MAX_RUN_LEN - room)
}

/// The runs of a text are runs, and have its atoms in order.
#[tactic(auto, using(crate::proofs::RunLemmas::runs_are_runs, crate::proofs::RunLemmas::atoms_of_runs))]
pub fn a_text_is_cut_into_runs()
    ensures runs { (atoms : List (List ℕ)) → All IsAtom atoms → All IsRun (runs_of atoms) }
    ensures atoms { (atoms : List (List ℕ)) → flat_map (λ (run : List (List ℕ)). run) (runs_of atoms) ≡ atoms }
{}
