ghost use Rattle.std.specs.Prelude.{◌≡◌};
ghost use Rattle.td_op.specs.Message.{sender, is_for};

use crate::op::Op;
use crate::vote::Vote;
use td_base::Site;

/// What one site sends another.
#[derive(Clone, Copy, Debug, PartialEq, Eq)]
pub enum Message {
    Op(Op),
    Vote(Vote),
}

impl Message {
    /// The site that sent it.
    pub fn sender(&self) -> Site
        ensures { result ≡ sender self.now }
    {
        match self {
            Message::Op(op) => op.dot().site,
            Message::Vote(vote) => vote.voter,
        }
    }

    /// Whether it is for a site: another one sent it, and it is an operation, or a vote on a proposal of this site.
    pub fn is_for(&self, site: Site) -> bool
        ensures { result ≡ is_for site self.now }
    {
        match self {
            Message::Op(op) => op.dot().site != site,
            Message::Vote(vote) => vote.voter != site && vote.proposal.site == site,
        }
    }
}
