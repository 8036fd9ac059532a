ghost use Rattle.std.specs.Prelude.{◌≡◌};
ghost use Rattle.td_history.specs.Votes.{vote_of};

use td_base::{Dot, Site};
use td_op::Vote;
use td_store::CompactDot;

/// A vote in 6 bytes. It stands for `vote_of` it.
#[derive(Clone, Copy, Debug, PartialEq, Eq)]
pub struct CompactVote {
    proposal: CompactDot,
    voter: Site,
    yes: bool,
}

impl CompactVote {
    /// The vote of a site on a proposal.
    pub fn new(proposal: Dot, voter: Site, yes: bool) -> CompactVote
        ensures { vote_of result ≡ record { proposal = proposal; voter = voter; yes = yes } }
    {
        CompactVote {
            proposal: CompactDot::of(proposal),
            voter,
            yes,
        }
    }

    /// The vote, made compact.
    pub fn of(vote: &Vote) -> CompactVote
        ensures { vote_of result ≡ vote.now }
    {
        CompactVote::new(vote.proposal, vote.voter, vote.yes)
    }

    /// The vote that it stands for.
    pub fn vote(&self) -> Vote
        ensures { result ≡ vote_of self.now }
    {
        Vote {
            proposal: self.proposal.dot(),
            voter: self.voter,
            yes: self.yes,
        }
    }
}
