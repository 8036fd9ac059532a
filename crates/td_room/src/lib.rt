//! Workers and editors: a room of sites, each with its worker and its editors, from the opening to the close.
//!
//! `room` opens it, `Worker::turn` does what is to be done for a site's editors and with the other workers, and `close`
//! ends it: whatever turns and calls were made, on whatever threads and in whatever order, the histories of the
//! replicas are one consistent family, and each call has its answer. Begin at `worker`. `specs/Workers.antt` says what
//! holds of a worker at every moment, `specs/Turns.antt` what a turn does, `specs/Rooms.antt` and `specs/Opening.antt`
//! what a room is, `specs/Closing.antt` what is left when it is closed.
#![tactic(auto)]

mod answers;
mod closed;
mod closing;
mod crossing;
mod ending;
mod gathering;
mod hearing;
mod laws;
mod looking;
mod opening;
mod readers;
mod room_fault;
mod turn;
mod worker;

pub use answers::Answers;
pub use closed::Closed;
pub use closing::close;
pub use laws::{a_room_stays_one, later_workers_compose};
pub use opening::room;
pub use room_fault::RoomFault;
pub use worker::Worker;
