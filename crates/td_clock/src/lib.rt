//! Version vectors: for each site of the shared buffer, how many of its operations are known.
//!
//! A vector of n sites is seen by contracts as the list of its n numbers. Begin at `vector`, at `specs/Vector.antt`
//! for what each call computes, and at `laws` for why that is the order in which operations happened.
#![tactic(auto)]

mod laws;
mod vector;

pub use laws::{
    bumps_raise_one_place, covers_is_an_order, covers_is_having_the_dots, has_is_up_to_the_number,
    join_is_the_least_cover, sums_grow, vectors_are_compared_by_their_numbers,
};
pub use vector::Vector;
