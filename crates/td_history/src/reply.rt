ghost use Rattle.std.specs.Prelude.{◌≡◌};
ghost use Rattle.td_history.specs.Replies.{reply_of};

use td_op::{Reply, Why};
use td_store::{CompactDot, CompactId};

/// A reply in 12 bytes. It stands for `reply_of` it.
#[derive(Clone, Copy, Debug, PartialEq, Eq)]
pub enum CompactReply {
    Made { dot: CompactDot },
    Cancelled,
    Held { by: CompactDot },
    Position { len: u32 },
    Gone { id: CompactId },
    Limit { made: u32, undecided: u32 },
    NotOpen { proposal: CompactDot },
    New,
    Later,
    Repeat,
    Unfit { why: Why },
    Taken { dot: CompactDot },
    // the cause stands first, so that there is no gap
    Dropped { why: Why, dot: CompactDot },
    Idle,
}

impl CompactReply {
    /// The reply, made compact.
    pub fn of(reply: &Reply) -> CompactReply
        ensures { reply_of result ≡ reply.now }
    {
        match *reply {
            Reply::Made { dot } => CompactReply::Made {
                dot: CompactDot::of(dot),
            },
            Reply::Cancelled => CompactReply::Cancelled,
            Reply::Held { by } => CompactReply::Held {
                by: CompactDot::of(by),
            },
            Reply::Position { len } => CompactReply::Position { len },
            Reply::Gone { id } => CompactReply::Gone {
                id: CompactId::of(id),
            },
            Reply::Limit { made, undecided } => CompactReply::Limit { made, undecided },
            Reply::NotOpen { proposal } => CompactReply::NotOpen {
                proposal: CompactDot::of(proposal),
            },
            Reply::New => CompactReply::New,
            Reply::Later => CompactReply::Later,
            Reply::Repeat => CompactReply::Repeat,
            Reply::Unfit { why } => CompactReply::Unfit { why },
            Reply::Taken { dot } => CompactReply::Taken {
                dot: CompactDot::of(dot),
            },
            Reply::Dropped { dot, why } => CompactReply::Dropped {
                why,
                dot: CompactDot::of(dot),
            },
            Reply::Idle => CompactReply::Idle,
        }
    }

    /// The reply that it stands for.
    pub fn reply(&self) -> Reply
        ensures { result ≡ reply_of self.now }
    {
        match *self {
            CompactReply::Made { dot } => Reply::Made { dot: dot.dot() },
            CompactReply::Cancelled => Reply::Cancelled,
            CompactReply::Held { by } => Reply::Held { by: by.dot() },
            CompactReply::Position { len } => Reply::Position { len },
            CompactReply::Gone { id } => Reply::Gone { id: id.id() },
            CompactReply::Limit { made, undecided } => Reply::Limit { made, undecided },
            CompactReply::NotOpen { proposal } => Reply::NotOpen {
                proposal: proposal.dot(),
            },
            CompactReply::New => Reply::New,
            CompactReply::Later => Reply::Later,
            CompactReply::Repeat => Reply::Repeat,
            CompactReply::Unfit { why } => Reply::Unfit { why },
            CompactReply::Taken { dot } => Reply::Taken { dot: dot.dot() },
            CompactReply::Dropped { why, dot } => Reply::Dropped {
                dot: dot.dot(),
                why,
            },
            CompactReply::Idle => Reply::Idle,
        }
    }
}
