ghost use Rattle.std.specs.Prelude.{◌≡◌, ◌≤◌};
ghost use Rattle.td_machine.specs.Decision.{is_open, is_counted, counted, outcome, close};
ghost use Rattle.td_coord.specs.Tally.{started, told, brought};
ghost use Rattle.td_coord.specs.TallyParts.{HasRoom, after_vote};

use crate::counted::Counted;
use crate::voters::Voters;
use std::marker::Model;
use td_base::{Dot, MAX_SITE, Site};
use td_op::Vote;

/// The votes on one proposal, and its decision, true for a commit. Contracts see the ballot of `td_machine`.
#[derive(Debug, Drop)]
pub struct Ballot {
    proposal: Dot,
    yes: Voters,
    decision: Option<bool>,
}

impl Model for Ballot {
    ghost use Rattle.td_machine.specs.Decision.{Ballot as Votes};

    ghost Value = { Votes };

    ghost view = { λ b. record { proposal = b.proposal; yes = b.yes; decision = b.decision } };
}

impl Ballot {
    /// The ballot of a proposal that is started, with the Yes of the own site counted.
    pub fn start(size: u8, own: Site, proposal: Dot) -> Ballot
        ensures { result ≡ started size own proposal }
    {
        Ballot {
            proposal,
            yes: Voters::new(own),
            decision: if size == 1 { Some(true) } else { None },
        }
    }

    /// The proposal that is voted on.
    pub fn proposal(&self) -> Dot
        ensures { result ≡ self.now.proposal }
    {
        self.proposal
    }

    /// Whether there is no decision.
    pub fn is_open(&self) -> bool
        ensures { result ≡ is_open self.now }
    {
        self.decision.is_none()
    }

    /// How the proposal stands.
    pub fn state(&self) -> Counted
        ensures { result ≡ told self.now.decision }
    {
        Counted::told(self.decision)
    }

    /// What a vote brings among so many sites.
    pub fn foresee(&self, size: u8, vote: &Vote) -> Counted
        ensures { result ≡ brought size vote.now self.now }
    {
        if self.is_counted(vote.voter) {
            return Counted::Repeat;
        }
        Counted::told(self.due(size, vote))
    }

    /// Counts a vote among so many sites, unless it is a repeat.
    pub fn count(&mut self, size: u8, vote: &Vote) -> Counted
        requires room { HasRoom size self.old }
        requires small { size ≤ MAX_SITE }
        ensures brought { result ≡ brought size vote.now self.old }
        ensures ballot { self.new ≡ after_vote size vote.now self.old }
    {
        if self.is_counted(vote.voter) {
            return Counted::Repeat;
        }
        let decision = self.due(size, vote);
        if vote.yes {
            self.yes.add(vote.voter);
        }
        self.decision = decision;
        Counted::told(decision)
    }

    /// Decides the proposal.
    pub fn close(&mut self, commit: bool)
        ensures { self.new ≡ close commit self.old }
    {
        self.decision = Some(commit);
    }

    // Whether a vote of the site changes nothing.
    fn is_counted(&self, voter: Site) -> bool
        ensures { result ≡ is_counted voter self.now }
    {
        self.decision.is_some() || self.yes.contains(voter)
    }

    // The decision that is due once the vote is counted.
    fn due(&self, size: u8, vote: &Vote) -> Option<bool>
        ensures { result ≡ outcome size vote.now.yes (counted vote.now.voter vote.now.yes self.now) }
    {
        if !vote.yes {
            return Some(false);
        }
        if self.yes.len() + 1 == size {
            return Some(true);
        }
        None
    }
}
