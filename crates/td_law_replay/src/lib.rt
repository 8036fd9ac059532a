//! The replay of a trace: whether what a trace tells of its sites is what is told of histories that they can have come
//! to together. It has no code: each law is the contract of a function with an empty body.
//!
//! It promises that entries can be replayed to the end exactly where they are those of a consistent family
//! (`entries_are_replayed_exactly`): whoever replays them, in whatever order of sites, comes to the machines of that
//! family, with its texts on the way. So what a checker finds along the replay says whether a trace is that of a live
//! family (`traces_are_accepted_exactly`). No order in time between the sites is asked.
//!
//! Begin at `specs/Judging.antt`, what the next entry of a site comes to, and `specs/Counting.antt`, what entries say
//! that their site made; then `specs/Replay.antt` and `specs/Rounds.antt`, the course of the replay and its stops, and
//! `specs/Ended.antt` and `specs/Accepted.antt`, what its end shows. `examples` has a trace that no order in time
//! gives, and one for each stop.
#![tactic(auto)]

mod examples;
mod laws;
mod live;

pub use examples::{
    a_trace_of_a_live_family, a_vote_that_was_not_sent, an_operation_that_need_not_wait,
    an_operation_that_no_entry_made, an_operation_with_a_wrong_number, no_order_in_time_is_asked,
    operations_used_before_they_are_made,
};
pub use laws::{
    a_consistent_family_never_stops, a_replay_shows_a_consistent_family,
    a_stop_shows_that_there_is_no_family, entries_are_replayed_exactly, entries_tell_what_was_made,
    its_replay_ends_with_its_machines, operations_are_values,
    rounds_of_a_consistent_family_do_not_stop, texts_on_the_way,
    the_order_of_sites_makes_no_difference,
};
pub use live::{
    a_live_trace_is_accepted, an_accepted_trace_is_live, ends_have_texts_on_their_way,
    traces_are_accepted_exactly,
};
