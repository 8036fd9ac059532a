//! The logs of the sites of a consistent family: what an operation met where it was made, and where the atoms stand
//! after the operations of a log. It has no code: each law is the contract of a function with an empty body.
//!
//! Begin at `specs/Part.antt`, sets of operations with their pasts, and `specs/Logs.antt`, the log in which an
//! operation was made; then `specs/Places.antt`, where atoms stand.
#![tactic(auto)]

mod laws;

pub use laws::{
    all_operations_of_a_family, line_ups_follow_the_past, logs_are_parts, logs_of_moments,
    parts_are_well_rooted, what_was_there_is_the_past,
};
