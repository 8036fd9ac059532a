//! Workers whose links are settled: their histories are a consistent family, for any number of workers. It has no code:
//! what one worker took and sent as bytes, the rule of loss, and the laws that put the workers together.
//!
//! Begin at `specs/Accounts.antt`, which says what each worker can tell by itself and when all are settled.
//! `specs/Thin.antt` has what is sent of a site's messages where some are lost and some come twice, `specs/Peers.antt`
//! what a worker keeps for another one, `specs/Takes.antt` what a history takes, and `specs/Rows.antt` an order in
//! which all links can be settled. The laws are in `laws`, worked examples in `examples`.
#![tactic(auto)]

mod examples;
mod laws;

pub use examples::{
    a_message_is_sent_once_of_two_times, two_workers_are_settled, votes_go_to_the_proposer,
    what_is_lost_and_what_comes_twice,
};
pub use laws::{messages_are_addressed, rows_that_met_are_settled, settled_workers_are_consistent};
