//! What sites tell one another and what they answer: operations, votes and messages, requests, inputs, replies and the
//! entries of a history, and changes of a text. All are values of fixed size that are copied.
//!
//! An operation is valid by construction: its dot is the one after those of its site that it depends on, and no site
//! that it names is past the size of its vector. Begin at `op` and at `specs/Op.antt`. The insertions among
//! operations, and the atoms that they put, are in `specs/Insertion.antt`. Which operation happened before which is in
//! `specs/Past.antt`, with its laws in `laws`. What a change does to a text is in `specs/Change.antt`. What the types
//! keep of their parts is told by `is_in_range` (`valid`).
#![tactic(auto)]

mod body;
mod change;
mod entry;
mod input;
mod insertion;
mod laws;
mod message;
mod op;
mod reply;
mod request;
mod valid;
mod vote;

pub use body::Body;
pub use change::Change;
pub use entry::Entry;
pub use input::Input;
pub use insertion::Insertion;
pub use laws::{
    concurrency_is_symmetric, past_is_strict, sites_are_in_order, sums_grow_with_the_past,
};
pub use message::Message;
pub use op::Op;
pub use reply::{Reply, Why};
pub use request::Request;
pub use vote::Vote;
