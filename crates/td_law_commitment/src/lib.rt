//! Votes and decisions at the sites of a consistent family: each proposal has one decision, which every site follows;
//! no edit of a committed slot is concurrent with the commit; and a commit changes no text. It has no code: each law
//! is the contract of a function with an empty body.
//!
//! Begin at `specs/Promises.antt`, what is promised; then `specs/Voted.antt`, what holds of the votes and holds of a
//! commit at every site, on which the agreement of sites rests (`td_law_agreement`).
#![tactic(auto)]

mod laws;

pub use laws::{
    commits_keep_the_text, families_are_voted, no_edit_is_beside_a_commit,
    proposals_are_decided_once,
};
