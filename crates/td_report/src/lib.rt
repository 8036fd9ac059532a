//! What commands ask for, and the lines that a script of `play` prints, the summary of a generated script, and the trace
//! of a live run, as bytes.
//!
//! Each call answers the lines of its values, each ended by LF, or want of memory. Begin at `specs/Replies.antt` and
//! `specs/Tree.antt`, which have one definition for each kind of line, over the values that a machine has: replies,
//! messages, rows; `specs/Marks.antt` has those of marks, and `specs/Kept.antt` those of crashes and full disks.
//! `specs/Asking.antt` has the requests of a command.
//! `specs/TraceLines.antt` has what a line of a trace says and how it is written, apart from any replica, and
//! `specs/Trace.antt` the whole trace. Numbers, dots and texts are written as `td_script` reads them.
#![tactic(auto)]

mod asking;
mod count;
mod edits;
mod entry;
mod event;
mod flattens;
mod give;
mod kept;
mod laws;
mod marks;
mod parts;
mod show;
mod summary;
mod trace;
mod tree;

pub use asking::{Outcome, is_made, proposal};
pub use count::count_line;
pub use edits::{del_line, ins_line, paste_line};
pub use entry::entry_line;
pub use event::event_line;
pub use flattens::{cancel_line, flat_line, flat_none_line};
pub use give::{give_line, settle_line};
pub use kept::{
    cancel_full_line, crash_full_line, crash_line, del_full_line, flat_full_line, give_full_line,
    ins_full_line,
};
pub use laws::{traces_are_their_parts, traces_grow_at_their_ends};
pub use marks::{mark_line, marks_lines, meet_line};
pub use show::show_line;
pub use summary::summary_lines;
pub use trace::{trace_editor, trace_end, trace_head, trace_site, trace_text};
pub use tree::tree_lines;
