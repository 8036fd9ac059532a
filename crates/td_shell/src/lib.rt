//! A shell: one site of a shared text, whose replica is kept in a journal, driven by lines.
//!
//! A line is a command of `play` that names no site, or `take` with a packet of another site, or `send` with a number.
//! What it does is written into the journal before it is answered, and the answer ends with the messages that it
//! sent: a `send` line that was read by anybody is on the disk. Begin at `specs/Answers.antt`, what a line does and
//! what is answered, over the machine; at `talk`, the run of a shell from a source of lines to a sink of answers; and
//! at `specs/Talk.antt`, what it promises. `answering` does one line, and `opening` begins a journal or goes on in it.
#![tactic(auto)]

mod answering;
mod asking;
mod halt;
mod lines;
mod opening;
mod replying;
mod running;
mod sending;
mod showing;
mod staging;
mod status;
mod taking;
mod talking;

pub use opening::begin_or_open;
pub use running::{Member, member_of, run};
pub use status::Status;
pub use taking::packets_are_read;
pub use talking::talk;
