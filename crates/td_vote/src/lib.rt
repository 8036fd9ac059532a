//! The holds of a replica, the commits that it knows, and its vote on a proposal: the side of a participant in
//! two-phase commitment (Gray 1978).
//!
//! Contracts see the lists of `specs/Holds.antt` and cite the rules of `td_machine`: the vote is `votes_yes`, and what
//! refuses a request is `held_slot`, `held_row` or `held_over`. Begin at `holds`. A replica knows its commits in the
//! order of their dots, a log has them in that of its operations; `the_vote_is_that_of_the_log` says that the vote is
//! one.
#![tactic(auto)]

mod by_place;
mod by_site;
mod committed;
mod held;
mod holds;
mod laws;
mod room;
mod site_commits;
mod slots;

pub use holds::Holds;
pub use laws::the_vote_is_that_of_the_log;
