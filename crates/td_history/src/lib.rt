//! What a replica keeps of its past: the operations by number, those of them that were made or taken in their order,
//! the messages that it sent and the entries of its history. Each operation is stored once; all else has its number.
//!
//! Contracts see the whole past as plain lists. Begin at `history` and at `specs/Past.antt`. How each kind of thing is
//! kept, and what it stands for, is told beside it: requests for text (`put`), inputs, replies, votes, messages and
//! entries (`entry`) as compact values, the operations of each site in their order (`index`), the log (`log`) and the
//! list of the entries (`entries`), with what they keep beside themselves (`aside`). What goes on from element to
//! element (`goes_on`) is kept in ramps (`ramps`).
#![tactic(auto)]

mod aside;
mod entries;
mod entry;
mod goes_on;
mod history;
mod index;
mod input;
mod log;
mod message;
mod put;
mod ramps;
mod reply;
mod vote;

pub use history::History;
