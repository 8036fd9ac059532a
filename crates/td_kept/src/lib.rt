//! Kept replicas side by side, and their crashes.
//!
//! A `KeptWorld` is a world of sites, each a replica with the journal of its inputs on a disk in memory. Whatever is
//! called of it, it is a world as those of `td_world` are: each call is a list of moves, and a crash is one move or
//! none. Messages get their numbers when they are released, that is, when the step that sent them is on the disk.
//! Begin at `specs/KeptWorld.antt` and at `world`; `site` has what one site does, and `reopening` how it crashes and
//! comes back.
#![tactic(auto)]

mod reopening;
mod seat;
mod site;
mod world;

pub use reopening::DISK_CALLS;
pub use world::KeptWorld;
