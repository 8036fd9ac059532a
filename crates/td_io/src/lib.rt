//! Sources and sinks of bytes.
//!
//! A `Source` gives bytes and a `Sink` takes them, piece by piece, and each counts its faults: a call answers `Failed`
//! only where the count rose. A source counts its calls too, and notes the first that found the end. `read_all` and
//! `put_all` move a whole stream. `MemSource` and `MemSink` are exact, and fail at the calls that they are told.
//! `ReadSource` and `WriteSink` stand before a reader and a writer of std, and tell of the bytes what those tell: a
//! slice or a vector all, the system's own streams nothing. Begin at `source` and `sink`, at `specs/Count.antt` for
//! what "rose" means, and at `specs/Reading.antt` for what a read leaves.
#![tactic(auto)]

mod fault;
mod mem_sink;
mod mem_source;
mod put_whole;
mod read_source;
mod read_whole;
mod sink;
mod source;
mod write_sink;

pub use fault::{Failed, MemSinkFault, ReadFault};
pub use mem_sink::MemSink;
pub use mem_source::MemSource;
pub use put_whole::put_all;
pub use read_source::ReadSource;
pub use read_whole::read_all;
pub use sink::Sink;
pub use source::Source;
pub use write_sink::WriteSink;
