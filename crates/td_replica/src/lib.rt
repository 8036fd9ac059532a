//! One site of a Treedoc buffer: a replica that an editor can stand on.
//!
//! Each call of `Replica` is one step of the machine of `td_machine`, exactly: its reply and what it leaves. Contracts
//! see a replica as that machine with the history that led to it, and the type tells that the history is legal, so no
//! caller owes a word about the replica's own state. Begin at `replica` and at `specs/Replica.antt`. What a replica
//! has and how an operation changes it is in `state`; what an editor asks is judged in `requests` and done in
//! `making`; what other sites send is in `operations` and `votes`, and what a step did to the atoms
//! shown in `last_change`.
#![tactic(auto)]

mod answering;
mod done;
mod given;
mod last_change;
mod making;
mod operations;
mod reading;
mod replica;
mod requests;
mod same;
mod state;
mod votes;

pub use given::Given;
pub use replica::Replica;
