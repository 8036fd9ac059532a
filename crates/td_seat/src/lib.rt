//! A site in the replay of a trace: what its entries say that it made, and its seat, at which they are done again.
//!
//! An operation depends on all that its site had made and taken before it. So a site's entries tell which operations it
//! made and what each of them depends on: `counted` counts the entries of one site, one after another, and `made` has
//! what is counted of all sites, by the dots of their operations. A `Seat` is a replica of its site, in which an
//! operation that only waits is known by its dot and by what it depends on. Begin at `specs/Counted.antt` and
//! `specs/Seat.antt`.
#![tactic(auto)]

mod counted;
mod made;
mod own_ops;
mod reading;
mod seat;
mod told;
mod votes;

pub use counted::Counted;
pub use made::Made;
pub use seat::Seat;
