//! Many sites: their replicas, the messages that they sent, and what becomes of these.
//!
//! Whatever is called of a `World`, the histories of its sites are a consistent family with the messages that they
//! sent (`IsWorld` in `specs/World.antt`), so the six promises hold of it (`IsPromised` in `specs/Promises.antt`).
//! Each call is a list of moves, each one step of one site's machine: `specs/Calls.antt` says which. Where a call
//! finds no memory, a front of them is done. After `settle` all sites have the same operations and each proposal is
//! decided (`specs/Promises.antt`), where nobody was ready before it; three passes are enough then (`passes_end`).
//!
//! Begin at `specs/World.antt` and `world`; how a world begins is in `opening`, what is given to a site in `give`, and
//! until when in `settle`. What the definitions come to is in `laws`.
#![tactic(auto, using(crate::proofs::Promised::promised))]

mod give;
mod laws;
mod opening;
mod post;
mod settle;
mod sites;
mod world;

pub use laws::{
    causes_of_give, messages_are_for_others, nothing_ready_is_left, passes_end,
    settled_worlds_agree, settled_worlds_are_one, worlds_go_on, worlds_keep_the_promises,
};
pub use world::World;
