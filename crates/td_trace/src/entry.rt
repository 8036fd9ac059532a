ghost use Rattle.std.specs.Prelude.{◌≡◌};
ghost use Rattle.td_trace.specs.Entries.{traced};

use crate::told_input::ToldInput;
use td_op::{Entry, Reply};

/// What a trace tells of an entry.
#[derive(Clone, Copy, Debug, PartialEq, Eq)]
pub struct TraceEntry {
    pub told: ToldInput,
    pub reply: Reply,
}

impl TraceEntry {
    /// What is told of the entry. Takes no memory.
    pub fn of(entry: &Entry) -> TraceEntry
        ensures { result ≡ traced entry.now }
    {
        TraceEntry {
            told: ToldInput::of(&entry.input),
            reply: entry.reply,
        }
    }
}
