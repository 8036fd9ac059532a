//! Convergence: whatever was flattened, each site of a consistent family shows at every moment the text that its
//! operations show, and its rows are part of the one order. It has no code: each law is the contract of a function
//! with an empty body.
//!
//! Begin at `specs/Headline.antt`, the six promises, and `specs/Promises.antt`, those of rows and texts; `examples`
//! has a family with a commit, written out.
#![tactic(auto)]

mod examples;
mod laws;

pub use examples::a_slot_used_again_in_one_order;
pub use laws::{
    consistent_families_keep_the_promises, rows_are_part_of_the_order, subtrees_stay_whole,
    texts_converge,
};
