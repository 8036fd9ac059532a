ghost use Rattle.std.specs.Prelude.{◌≡◌, ◌≤◌, ◌<◌, ◌+◌, [], false, if◌then◌else◌};
ghost use Rattle.std.specs.Prelude.{IfOk, IsNone, IsSome, OnErr, OnOk};
ghost use Rattle.std.specs.List.{find};
ghost use Rattle.std.specs.Option.{ForSome, option_map, option_copied};
ghost use Rattle.td_machine.specs.Decision.{Ballot as Votes, is_on, revise, close, count_open};
ghost use Rattle.td_coord.specs.Tally.{told, started, put_ballot, brought, voted, is_open_found};
ghost use Rattle.td_coord.specs.TallyParts.{IsRising};
ghost use Rattle.td_coord.specs.Places.{IsPlace};

use crate::ballot::Ballot;
use crate::counted::Counted;
use std::alloc::Global;
use std::cmp::Ordering;
use std::marker::Model;
use td_base::{Dot, MAX_SITE, Memory, Site};
use td_op::Vote;

/// The votes on a site's own proposals. Contracts see the number of sites, the own site, a ballot for each proposal
/// that was started, and the number of places: how many more can be started without taking memory. "As before" does
/// not speak of the places. Only `reserve` and `start` take memory.
#[derive(Debug, Drop)]
pub struct Tally {
    size: u8,
    own: Site,
    // how many proposals are undecided
    undecided: u32,
    // in the order of their proposals
    ballots: Vec<Ballot>,
}

impl Model for Tally {
    ghost use Rattle.std.specs.Prelude.{vec_capacity};
    ghost use Rattle.td_coord.specs.Tally.{TallyValue};
    ghost use Rattle.td_coord.specs.TallyParts.{IsTallyParts, tally_of};

    ghost Value = { TallyValue };

    ghost view = { λ t. tally_of t.size t.own (vec_capacity t.ballots) t.ballots.items };

    ghost invariant = { λ t. IsTallyParts t.size t.own t.undecided t.ballots.items };
}

impl Tally {
    /// No proposal of a site among n.
    pub fn new(alloc: Global, n: u8, own: Site) -> Tally
        requires some { 1 ≤ n }
        requires small { n ≤ MAX_SITE }
        requires within { own ≤ n }
        ensures { result ≡ record { size = n; own = own; ballots = []; places = 0 } }
    {
        Tally {
            size: n,
            own,
            undecided: 0,
            ballots: Vec::new(alloc),
        }
    }

    /// Starts a proposal, with the Yes of the own site: `Commit` where that is the only site, else `Wait`. `Memory`
    /// also where `u32::MAX` proposals are started.
    pub fn start(&mut self, proposal: Dot) -> Result<Counted, Memory>
        requires { IsNone (find (is_on proposal) self.old.ballots) }
        ensures ok { IfOk result (λ counted.
            (counted ≡ told (started self.old.size self.old.own proposal).decision)
            × (self.new.ballots ≡ put_ballot (started self.old.size self.old.own proposal) self.old.ballots)) }
        ensures err { OnErr result ((self.old.places ≡ 0) × (self.new.ballots ≡ self.old.ballots)) }
        ensures places { 0 < self.old.places → self.new.places + 1 ≡ self.old.places }
        ensures sites { (self.new.size ≡ self.old.size) × (self.new.own ≡ self.old.own) }
    {
        if self.ballots.len() >= u32::MAX as usize {
            return Err(Memory);
        }
        let place = place_of(&self.ballots, proposal).unwrap_err();
        let ballot = Ballot::start(self.size, self.own, proposal);
        let state = ballot.state();
        let open = ballot.is_open();
        self.ballots.insert(place, ballot)?;
        self.undecided += u32::from(open);
        Ok(state)
    }

    /// Counts a vote on a proposal that was started, and decides it where that is due.
    pub fn count(&mut self, vote: Vote) -> Counted
        requires started { IsSome (find (is_on vote.proposal) self.old.ballots) }
        requires voter { vote.voter ≤ self.old.size }
        ensures brought { ForSome (find (is_on vote.proposal) self.old.ballots)
            (λ b. result ≡ brought self.old.size vote b) }
        ensures tally { ForSome (find (is_on vote.proposal) self.old.ballots)
            (λ b. self.new ≡ record self.old { ballots = voted self.old.size vote b self.old.ballots }) }
        ensures sites { (self.new.size ≡ self.old.size) × (self.new.own ≡ self.old.own) }
    {
        let place = place_of(&self.ballots, vote.proposal).unwrap();
        let counted = self.ballots[place].count(self.size, &vote);
        self.undecided -= u32::from(counted.is_decision());
        counted
    }

    /// What `count` would answer.
    pub fn foresee(&self, vote: Vote) -> Counted
        requires started { IsSome (find (is_on vote.proposal) self.now.ballots) }
        requires voter { vote.voter ≤ self.now.size }
        ensures { ForSome (find (is_on vote.proposal) self.now.ballots)
            (λ b. result ≡ brought self.now.size vote b) }
    {
        self.find(vote.proposal).unwrap().foresee(self.size, &vote)
    }

    /// Aborts a proposal: false where it was not started, or is decided.
    pub fn cancel(&mut self, proposal: Dot) -> bool
        ensures open { result ≡ is_open_found (find (is_on proposal) self.old.ballots) }
        ensures tally { self.new ≡ record self.old {
          ballots = if result then revise proposal (close false) self.old.ballots else self.old.ballots;
        } }
    {
        let Ok(place) = place_of(&self.ballots, proposal) else {
            return false;
        };
        let ballot = &mut self.ballots[place];
        if !ballot.is_open() {
            return false;
        }
        ballot.close(false);
        self.undecided -= 1;
        true
    }

    /// How many proposals are undecided.
    pub fn undecided(&self) -> u32
        ensures { result ≡ count_open self.now.ballots }
    {
        self.undecided
    }

    /// How a proposal stands, where it was started: never `Repeat`.
    pub fn state(&self, proposal: Dot) -> Option<Counted>
        ensures { result ≡ option_map (λ (b : Votes). told b.decision) (find (is_on proposal) self.now.ballots) }
    {
        self.find(proposal).map(|ballot| ballot.state())
    }

    /// Makes sure of a place for one more proposal. `Memory` also where `u32::MAX` proposals are started: there is no
    /// place for more.
    pub fn reserve(&mut self) -> Result<(), Memory>
        ensures ok { OnOk result (1 ≤ self.new.places) }
        ensures err { OnErr result (self.old.places ≡ 0) }
        ensures ballots { self.new.ballots ≡ self.old.ballots }
        ensures sites { (self.new.size ≡ self.old.size) × (self.new.own ≡ self.old.own) }
    {
        if self.ballots.len() >= u32::MAX as usize {
            return Err(Memory);
        }
        self.ballots.reserve(1)?;
        Ok(())
    }

    // The ballot on a proposal.
    fn find(&self, proposal: Dot) -> Option<&Ballot>
        ensures { option_copied result ≡ find (is_on proposal) self.now.ballots }
    {
        match place_of(&self.ballots, proposal) {
            Ok(place) => Some(&self.ballots[place]),
            Err(_) => None,
        }
    }
}

// Where the ballot on the proposal stands, or where it is to be put. The last is looked at first: mostly it is on the
// newest proposal.
fn place_of(ballots: &[Ballot], proposal: Dot) -> Result<usize, usize>
    requires { IsRising ballots.now }
    ensures { IsPlace proposal ballots.now result }
{
    let Some(last) = ballots.last() else {
        return Err(0);
    };
    match last.proposal().cmp(&proposal) {
        Ordering::Less => Err(ballots.len()),
        Ordering::Equal => Ok(ballots.len() - 1),
        Ordering::Greater => ballots.binary_search_by(|ballot| ballot.proposal().cmp(&proposal)),
    }
}
