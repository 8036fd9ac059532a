//! Tests of sessions: that memory is found where there is some, that a bad argument is a fault, and that a session
//! comes back from its journal.
//!
//! A module is named by what it tries.
#![tactic(auto)]

#[cfg(test)]
mod saving;
#[cfg(test)]
mod session;
