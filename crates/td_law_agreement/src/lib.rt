//! That the sites of a consistent family agree on where atoms stand, whatever the order in which operations came and
//! whatever was flattened; and what follows: nothing comes that is unfit, and a part of the family's operations has
//! the order of the whole. It has no code: each law is the contract of a function with an empty body.
//!
//! Begin at `specs/Agreement.antt`, what is agreed; then `specs/Unfit.antt` and `specs/Parts.antt`, what follows.
#![tactic(auto)]

mod laws;

pub use laws::{
    a_part_keeps_the_order_of_its_family, nothing_is_unfit, siblings_at_arrival, sites_agree,
    slots_have_epochs,
};
