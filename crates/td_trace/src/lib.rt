//! What a trace tells, as values: the entries of the histories, and what the editors did.
//!
//! The histories of a live run are printed entry by entry, an operation that was taken by its dot alone
//! (`specs/Entries.antt`), and then the calls and looks of each editor. Begin at `specs/Family.antt`: when the
//! histories and the editors are those of one live family. Printing, reading and judging a trace stand on these words.
#![tactic(auto)]

mod entry;
mod log;
mod told_input;

pub use entry::TraceEntry;
pub use log::{Did, DidList, EditorLog};
pub use told_input::ToldInput;
