// What a command asks for, and what came of it.
ghost use Rattle.std.specs.Prelude.{◌≡◌, Some, None};
ghost use Rattle.td_report.specs.Asking.{is_made, proposal};

use td_op::{Reply, Request};
use td_path::Slot;
use td_script::Place;

/// The request that `flat` makes of its place. Takes no memory.
pub fn proposal(place: Place) -> Request
    ensures { result ≡ proposal place }
{
    match place {
        Place::Root => Request::Propose { slot: Slot::Root },
        Place::Beside { index, bit } => Request::ProposeAt { index, bit },
    }
}

/// What came of edits: how many atoms were edited, and the reply to a request that was refused.
#[derive(Clone, Copy, Debug, PartialEq, Eq)]
pub struct Outcome {
    pub done: u32,
    pub refused: Option<Reply>,
}

impl Outcome {
    /// So many were edited, and the next request was refused.
    pub fn refused(done: u32, reply: Reply) -> Outcome
        ensures { result ≡ record { done = done; refused = Some reply } }
    {
        Outcome {
            done,
            refused: Some(reply),
        }
    }

    /// All were edited.
    pub fn all(done: u32) -> Outcome
        ensures { result ≡ record { done = done; refused = None } }
    {
        Outcome {
            done,
            refused: None,
        }
    }
}

/// Whether the request was done.
pub fn is_made(reply: &Reply) -> bool
    ensures { result ≡ is_made reply.now }
{
    matches!(reply, Reply::Made { .. })
}
