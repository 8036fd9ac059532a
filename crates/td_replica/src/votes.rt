// Votes of other sites on own proposals.
ghost use Rattle.std.specs.Prelude.{◌≡◌, Some, None, IfOk, OnErr, IfSome, IsNone, IsSome, is_some, find};
ghost use Rattle.td_op.specs.declared.reply.Reply.TheVariants.{Unfit};
ghost use Rattle.td_op.specs.Message.{IsVote};
ghost use Rattle.td_machine.specs.Decision.{is_on};
ghost use Rattle.td_machine.specs.Taking.{vote_step};
ghost use Rattle.td_machine.specs.Parts.{Anything, IsBuilt, IsCounting};
ghost use Rattle.td_replica.specs.Parts.{IsAsBefore};
ghost use Rattle.td_replica.specs.Steps.{IsStep};
ghost use Rattle.td_replica.specs.Judging.{vote_misfit, IsUndue};

use crate::done::Done;
use crate::last_change::LastChange;
use crate::state::State;
use td_base::Memory;
use td_coord::Counted;
use td_doc::Doc;
use td_op::{Body, Reply, Vote, Why};

impl<D: Doc> State<D> {
    /// Counts the vote, or answers why not.
    pub(crate) fn take_vote(&mut self, vote: &Vote) -> Result<Done, Memory>
        requires built { IsBuilt Anything self.old.machine.site self.old.machine.size self.old.machine }
        requires valid { IsVote vote.now }
        ensures ok { IfOk result (λ done. IsStep (vote_step vote.now self.old.machine) self.old self.new done) }
        ensures err { OnErr result (IsAsBefore self.old self.new) }
    {
        if let Some(why) = self.vote_misfit(vote) {
            return self.refuse(Reply::Unfit { why });
        }
        let proposal = vote.proposal;
        match self.tally.foresee(*vote) {
            Counted::Repeat => self.refuse(Reply::Repeat),
            Counted::Commit => self.make_decision(vote, &Body::Commit { proposal }),
            Counted::Abort => self.make_decision(vote, &Body::Abort { proposal }),
            Counted::Wait => self.only_count(vote),
        }
    }

    // The vote is counted, and brings no decision yet.
    fn only_count(&mut self, vote: &Vote) -> Result<Done, Memory>
        requires built { IsBuilt Anything self.old.machine.site self.old.machine.size self.old.machine }
        requires may { IsCounting Anything vote.now self.old.machine }
        requires waits { IsUndue vote.now self.old.machine }
        ensures ok { IfOk result (λ done. IsStep (vote_step vote.now self.old.machine) self.old self.new done) }
        ensures err { OnErr result (IsAsBefore self.old self.new) }
    {
        self.reserve(self.site)?;
        self.count(vote);
        Ok(Done {
            reply: Reply::New,
            change: LastChange::Nothing,
            number: None,
        })
    }

    // Why the vote is none that another site sends here.
    pub(crate) fn vote_misfit(&self, vote: &Vote) -> Option<Why>
        ensures { result ≡ vote_misfit vote.now self.now.machine }
    {
        let n = self.have.size();
        if vote.voter.number() > n || vote.proposal.site.number() > n {
            return Some(Why::Size);
        }
        if vote.proposal.site != self.site {
            return Some(Why::Address);
        }
        if self.tally.state(vote.proposal).is_none() {
            return Some(Why::Proposal);
        }
        None
    }
}
