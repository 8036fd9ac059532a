//! The judge of traces: whether a trace is one that live replicas may have made, and else what is wrong with it first.
//!
//! Begin at `check`, whose `check_trace` is the one call, and at `specs/Verdict.antt`, which says what the verdict is;
//! `specs/Stops.antt` and `specs/Findings.antt` have each fault with its line. The way is that of the verdict: a
//! `Replay` goes in rounds over the sites (`course`), an entry at a time (`judging`), and compares the looks on the way
//! (`looks`); then come the votes, what editors did (`deeds`, `alone`), the texts, and whether all is settled.
#![tactic(auto)]

mod alone;
mod check;
mod course;
mod deeds;
mod judged;
mod judging;
mod looks;
mod opening;
mod replay;
mod seats;
mod sent;
mod settled;
mod standing;
mod stop;
mod texts;
mod verdict;
mod votes;

pub use check::check_trace;
pub use verdict::{Fault, Verdict};
