// What one entry tells, by its input and its reply.
ghost use Rattle.std.specs.Prelude.{◌≡◌};
ghost use Rattle.td_law_replay.specs.Counting.{used, asks_proposal};
ghost use Rattle.td_law_replay.specs.Replies.{is_new, taken_of};

use td_base::Dot;
use td_op::{Reply, Request};
use td_trace::{ToldInput, TraceEntry};

/// Whether a message was taken when it came.
pub fn is_new(reply: &Reply) -> bool
    ensures { result ≡ is_new reply.now }
{
    matches!(reply, Reply::New)
}

/// The operation that the entry uses.
pub fn used(entry: &TraceEntry) -> Option<Dot>
    ensures { result ≡ used entry.now }
{
    match entry.told {
        ToldInput::TookOp { dot } if is_new(&entry.reply) => Some(dot),
        ToldInput::Went => taken(&entry.reply),
        _ => None,
    }
}

// The operation that had waited and was taken.
fn taken(reply: &Reply) -> Option<Dot>
    ensures { result ≡ taken_of reply.now }
{
    match reply {
        Reply::Taken { dot } => Some(*dot),
        _ => None,
    }
}

/// Whether the entry is a request to flatten.
pub fn asks_proposal(told: &ToldInput) -> bool
    ensures { result ≡ asks_proposal told.now }
{
    match told {
        ToldInput::Asked(request) => matches!(
            request,
            Request::Propose { .. } | Request::ProposeAt { .. }
        ),
        _ => false,
    }
}
