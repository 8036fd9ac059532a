//! Records one behind another, each behind an open gate: which bytes stand for which records.
//!
//! A record is the byte 1, its length in two bytes, and its body. Behind the last one stands a closed gate, a byte
//! that is not 1, and behind that any bytes, such as a crash leaves. `record_len` and `is_closed` look at the front of
//! the bytes, `records_end` finds the closed gate. They are exact both ways, and no bytes stand for two lists of
//! records. Begin at `records` and at `specs/Records.antt`.
#![tactic(auto)]

mod laws;
mod records;

pub use laws::records_are_unique;
pub use records::{is_closed, record_len, records_end};
