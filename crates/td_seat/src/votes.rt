ghost use Rattle.std.specs.Prelude.{◌≡◌, ◌-◌, ◌^◌, List, [], OnOk, min};
ghost use Rattle.std.specs.Map.{count_at};
ghost use Rattle.std.specs.BTreeMap as tree;
ghost use Rattle.td_base.specs.Value.{DotValue};
ghost use Rattle.td_base.specs.Order.{dot_cmp};
ghost use Rattle.td_law_replay.specs.Counting.{Count, is_decisive, more_yes, more_no};
ghost use Rattle.td_seat.specs.Votes.{AreVotes};

use crate::told::is_new;
use std::alloc::Global;
use std::collections::{BTreeMap, BTreeSet};
use td_base::{Dot, Memory};
use td_trace::{ToldInput, TraceEntry};

/// The votes on the proposals of a site that its entries tell.
#[derive(Debug, Drop)]
pub struct Votes {
    // how often a Yes was counted on a proposal, up to `u32::MAX`
    yes: BTreeMap<Dot, u32>,
    // the proposals on which a No was counted
    no: BTreeSet<Dot>,
}

impl Votes {
    /// No vote. Takes no memory.
    pub fn new(alloc: Global) -> Votes
        ensures { AreVotes [] [] result }
    {
        Votes {
            yes: BTreeMap::new(alloc),
            no: BTreeSet::new(alloc),
        }
    }

    /// Whether the input is a vote that decides its proposal, among n sites, where it is taken next.
    pub fn is_decisive(&self, n: u8, told: &ToldInput) -> bool
        ensures { (c : Count) → AreVotes c.yes c.no self.now → result ≡ is_decisive n c told.now }
    {
        let ToldInput::TookVote(vote) = told else {
            return false;
        };
        if vote.yes {
            u64::from(self.yes_on(vote.proposal)) + 2 == u64::from(n)
        } else {
            !self.no.contains(&vote.proposal)
        }
    }

    /// Counts the vote, if the entry takes one.
    pub fn count(&mut self, entry: &TraceEntry) -> Result<(), Memory>
        ensures ok { OnOk result ((yes no : List DotValue) → AreVotes yes no self.old
            → AreVotes (more_yes entry.now.told entry.now.reply yes) (more_no entry.now.told entry.now.reply no)
            self.new) }
    {
        let ToldInput::TookVote(vote) = entry.told else {
            return Ok(());
        };
        if !is_new(&entry.reply) {
            return Ok(());
        }
        if vote.yes {
            let count = self.yes_on(vote.proposal).saturating_add(1);
            self.yes.insert(vote.proposal, count)?;
        } else {
            self.no.insert(vote.proposal)?;
        }
        Ok(())
    }

    // How often a Yes was counted on the proposal.
    fn yes_on(&self, proposal: Dot) -> u32
        ensures { result ≡ count_at (tree.get dot_cmp self.now.yes) proposal }
    {
        self.yes.get(&proposal).copied().unwrap_or(0)
    }
}
