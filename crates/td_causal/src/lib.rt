//! Operations that wait for others: causal delivery by vectors (happened-before is Lamport's, 1978; vectors for
//! delivery are those of Birman, Schiper and Stephenson, 1991).
//!
//! An operation is ready at a site that has all that it depends on. A `Buffer` keeps the dots of those that came too
//! early, each with the number by which the operation is stored, and finds the least one that is ready by looking
//! only at the next operation of each site. Begin at `buffer`. The rule itself is the machine's, `specs/Ready.antt` of
//! `td_machine`; `specs/Waiting.antt` says how what waits is told.
#![tactic(auto)]

mod buffer;
mod laws;
mod offer;
mod waiting;

pub use buffer::Buffer;
pub use laws::what_waits_is_as_in_the_machine;
pub use offer::Offer;
pub use waiting::Waiting;
