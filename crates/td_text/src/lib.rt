//! A text cut into atoms, and its atoms into runs.
//!
//! `cut` answers the extended grapheme clusters of a text (UAX #29, as Unicode 18.0 has them), each an atom, or the
//! first of them that has more than 64 bytes; `runs_of` gives these in runs, as many in each as fit: what an editor
//! does with a text that is typed or pasted. Begin at `clusters`, and at `specs/Clusters.antt` and `specs/Runs.antt`,
//! what is cut and what is not. An `AtomList` keeps atoms as their bytes one after another
//! (`specs/AtomListParts.antt`).
#![tactic(auto)]

mod atom_list;
mod clusters;
mod listed_atoms;
mod owned_atoms;
mod runs;

pub use atom_list::AtomList;
pub use clusters::{CutFault, cut};
pub use listed_atoms::ListedAtoms;
pub use owned_atoms::OwnedAtoms;
pub use runs::{TextRuns, a_text_is_cut_into_runs, runs_of};
