//! The operations of a replica, each stored once and compactly, and the compact values that a history keeps.
//!
//! Contracts see what is stored, never how: `Ops` is a list of operations, `Runs` a list of runs, `Vectors` a list of
//! vectors, and the compact values are the dots, identities and slots that they stand for. Begin at `ops`, and at
//! `specs/Lists.antt` for what contracts see. Operations that are typed behind one another are in `specs/Typed.antt`,
//! and how operations share their dependencies is in `specs/HeadsParts.antt`.
#![tactic(auto)]

mod chains;
mod compact_body;
mod compact_dot;
mod compact_id;
mod compact_slot;
mod heads;
mod ops;
mod place;
mod runs;
mod vectors;

pub use compact_dot::CompactDot;
pub use compact_id::CompactId;
pub use compact_slot::CompactSlot;
pub use ops::Ops;
pub use runs::Runs;
pub use vectors::Vectors;
