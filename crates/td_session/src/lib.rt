//! A session: one person's hold on one replica, asked by bytes and numbers.
//!
//! It is what an editor stands on that has no types of treedoc: `treedoc_c` hands each call out to C. Each call that
//! changes the replica is one step of its machine, or none, where what it is given is no atom, no text, no operation's
//! name or no packet, or where memory runs out; a `Fault` says which. Begin at `session` and at `specs/Calls.antt`;
//! `reading` has what a session tells of its text, `places` the way from bytes, units of UTF-16 and code points to
//! atoms and back, `sending` what goes to other sites, and `saving` how a session comes back: its own packets alone do
//! not bring it, the journal of what it was asked and given does. For places the atoms stand in a rope beside the
//! replica (`shown`).
#![tactic(auto)]

mod crossing;
mod fault;
mod laws;
mod places;
mod reading;
mod saving;
mod sending;
mod session;
mod shown;

pub use fault::Fault;
pub use laws::what_is_saved_is_loaded;
pub use sending::Outgoing;
pub use session::Session;
pub use td_rope::Unit;
