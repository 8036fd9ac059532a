//! A durable replica: each input is on a disk before what it sends is let out.
//!
//! `Kept` is a replica with the journal of its inputs. `create` begins one, `stage` does steps and `commit` puts them
//! on the disk, all or none; `step` is both. Whatever a crash does, and whenever it comes, it leaves a journal of the
//! acknowledged inputs, or of these and those that were staged. A journal has one of two formats: in `Checked` each
//! record has a check, so that bytes which changed are found out. No file is two journals. Where the bytes have a place
//! of their own, `save` makes the whole journal of a replica, and `load` the replica of one. Begin at `calls`, and at
//! `specs/Journal.antt` for what a journal is as bytes.
#![tactic(auto)]

mod calls;
mod check;
mod fault;
mod format;
mod kept;
mod laws;
mod opening;
mod piece;
mod reading;
mod record;
mod whole;

pub use fault::{KeptFault, LoadFault, OpenFault, Refused, SaveFault};
pub use format::Format;
pub use kept::Kept;
pub use laws::{
    a_file_is_one_journal, families_survive_crashes, released_messages_survive,
    reopening_restores_the_history, what_is_saved_is_loaded,
};
pub use whole::{load, save};
