//! How a proposer counts the votes on its proposals: the coordinator of a two-phase commitment (Gray 1978).
//!
//! A proposal is committed at the Yes of the last site, and aborted at the first No or where it is cancelled,
//! whichever comes first; nothing after that changes it, and no vote is counted twice. Begin at `tally`, and at
//! `specs/Tally.antt`, which says what each call computes in the words of the decision rule of `td_machine`.
#![tactic(auto)]

mod ballot;
mod counted;
mod tally;
mod voters;

pub use counted::Counted;
pub use tally::Tally;
