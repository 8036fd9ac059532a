//! The reader of traces: from the bytes of a printed trace to what its lines tell, exact both ways.
//!
//! `read_trace` answers a trace where the bytes are one, and else the first line that is not of its form. Begin at
//! `specs/Form.antt`, which speaks of what is written and of no reader, and at `specs/Values.antt`, the values that a
//! trace has. No bytes are the traces of two values, and no line of a trace is faulty (`laws`). A trace is kept as its
//! bytes, where each line begins, and at which lines histories and editors do; a line is read again when it is asked
//! for, by its site and entry, by its editor and what it did, or by its place. `specs/LineNumbers.antt` says which
//! number a line has.
//!
//! Each reader goes over the bytes from the front, and answers what `specs/Reading.antt`, `Arguments.antt`,
//! `Requests.antt`, `Replies.antt` and `Lines.antt` say; `specs/Reached.antt` says which line can be the next, by
//! counts alone.
#![tactic(auto)]

mod atoms;
mod cursor;
mod editors;
mod endings;
mod histories;
mod laws;
mod line;
mod names;
mod number;
mod parts;
mod places;
mod quoted;
mod reached;
mod read_line;
mod reply;
mod request;
mod trace;

pub use editors::ReadDid;
pub use laws::{
    bytes_are_the_trace_of_one_value, lines_are_where_their_numbers_say,
    written_traces_have_no_fault,
};
pub use line::ReadLine;
pub use places::ReadTrace;
pub use quoted::Quoted;
pub use trace::{MAX_TRACE, ReadTraceFault, read_trace};
