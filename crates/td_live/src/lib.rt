//! A live script at work: its editors and its workers on threads, up to the trace of one live family.
//!
//! Begin at `specs/Live.antt`, what the trace of a live script is: histories that are a consistent family, with what
//! each editor did, which follows its lines (`specs/Following.antt`, over `specs/Asking.antt`, what each line asks
//! for). `live` is the call that does it all. A desk (`desk`, `turning`) is an editor at work on its lines, and
//! `specs/Turning.antt` says what a turn of it does; `working` lets workers and desks work on threads.
//!
//! When the threads are done, `ending` closes the room, does the lines that are left (`finishing`), settles, and prints
//! the trace (`printing`): `specs/Ending.antt` says what that comes to, over the books of the editors
//! (`specs/Books.antt`). Where there was no room, `alone` does all lines.
#![tactic(auto)]

mod agenda;
mod alone;
mod ask;
mod book;
mod crossing;
mod desk;
mod ending;
mod finishing;
mod line_calls;
mod live;
mod next;
mod printing;
mod turning;
mod went;
mod working;

pub use agenda::Agenda;
pub use desk::Desk;
pub use ending::conclude;
pub use live::live_trace;
pub use next::Next;
pub use went::Went;
pub use working::{work, work_stays_in_its_room};
