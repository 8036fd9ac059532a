//! The largest part of a document of which every site is known to have everything, and why it is the largest.
//!
//! Begin at `specs/Stable.antt`, which says what every site is known to have, at `specs/Candidate.antt` and
//! `specs/Best.antt`, and at `idle`, whose `best` finds the best candidate and `check` looks at the reason for it. The
//! way is one pass over the rows for those to which something was done that is not stable (`unknown`), and two for the
//! largest candidates, those on the left of a row and those on the right of one (`top`). The laws say what a candidate
//! is worth: who does not know all of it makes no edit in it any more.
#![tactic(auto)]

mod candidate;
mod conditions;
mod examples;
mod idle;
mod laws;
mod stability;
mod top;
mod unknown;
mod walk;

pub use conditions::check;
pub use examples::{a_candidate_with_an_operation_to_come, what_two_typists_know_of_each_other};
pub use idle::{Idle, best};
pub use laws::{
    a_certified_slot_is_the_best, slots_within_have_fewer_rows,
    what_is_still_to_come_knows_all_that_is_stable, why_a_candidate_is_voted_no,
};
pub use stability::stable;
