//! Which row of a document has an identity, and which dots a document has seen.
//!
//! `Identities` is a map from identities to the numbers of their rows. The rows of one insert have numbers one after
//! another, and the operations of a site come in the order of their numbers, so it is a list for each site and needs
//! no search. `Seen` keeps the greatest dot of each site. Begin at `specs/Identities.antt`, which says what a map
//! holds.
#![tactic(auto)]

mod identities;
mod numbers;
mod seen;

pub use identities::Identities;
pub use numbers::{Numbers, Operations, Stray};
pub use seen::Seen;
