//! The values that every crate of treedoc speaks of: sites, dots, identities of atoms, atoms, runs of atoms, lists of
//! bytes.
//!
//! Each is in its range by construction, is compared as its contract says, and is seen by contracts as a number, a
//! record of numbers or a list. Begin at `dot`, and at `specs/Value.antt` for what contracts see. How values compare
//! is in `specs/Order.antt` and `specs/Equality.antt`, the atoms of an insert and their identities in
//! `specs/RunAtoms.antt`, and what the definitions of all crates say of lists in `specs/Lists.antt`.
#![tactic(auto)]

mod atom;
mod atom_id;
mod atoms;
mod bit;
mod bytes;
mod dot;
mod memory;
mod named_atom;
mod order;
mod run;
mod site;

pub use atom::{Atom, AtomFault, MAX_ATOM_LEN};
pub use atom_id::{AtomId, MAX_OFFSET};
pub use atoms::Atoms;
pub use bit::Bit;
pub use bytes::Bytes;
pub use dot::{Dot, MAX_SEQ};
pub use memory::Memory;
pub use named_atom::NamedAtom;
pub use order::{bits_are_ordered, dots_are_ordered, identities_are_ordered};
pub use run::{MAX_RUN_LEN, Run, RunFault};
pub use site::{MAX_SITE, Site};
