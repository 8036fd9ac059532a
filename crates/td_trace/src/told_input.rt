ghost use Rattle.std.specs.Prelude.{◌≡◌};
ghost use Rattle.td_trace.specs.Entries.{told_of};

use td_base::Dot;
use td_op::{Input, Message, Request, Vote};

/// What a trace tells of an input. The content of an operation that was taken stands in the trace of its own site.
#[derive(Clone, Copy, Debug, PartialEq, Eq)]
pub enum ToldInput {
    /// A request of an editor.
    Asked(Request),
    /// An operation of another site was taken.
    TookOp { dot: Dot },
    /// A vote of another site was taken.
    TookVote(Vote),
    /// An operation that waited was to be taken.
    Went,
}

impl ToldInput {
    /// What is told of the input. Takes no memory.
    pub fn of(input: &Input) -> ToldInput
        ensures { result ≡ told_of input.now }
    {
        match input {
            Input::Local(request) => ToldInput::Asked(*request),
            Input::Take(Message::Op(op)) => ToldInput::TookOp { dot: op.dot() },
            Input::Take(Message::Vote(vote)) => ToldInput::TookVote(*vote),
            Input::Next => ToldInput::Went,
        }
    }
}
