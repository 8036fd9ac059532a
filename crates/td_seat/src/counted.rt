ghost use Rattle.std.specs.Prelude.{◌≡◌, ◌≤◌, ◌++◌, ◌∷◌, [], ℕ, List, OnOk, length};
ghost use Rattle.td_law_replay.specs.Counting.{Count, makes};
ghost use Rattle.td_seat.specs.Votes.{AreVotes};
ghost use Rattle.td_seat.specs.Counted.{AreCounted, told_deps};

use crate::own_ops::OwnOps;
use crate::told::{asks_proposal, used};
use crate::votes::Votes;
use std::alloc::Global;
use td_base::{MAX_SEQ, MAX_SITE, Memory, Site};
use td_clock::Vector;
use td_op::Reply;
use td_trace::TraceEntry;

/// What the entries of a site say so far that it made.
#[derive(Debug, Drop)]
pub struct Counted {
    ops: OwnOps,
    votes: Votes,
}

impl Counted {
    /// No entry of a site, of n, is counted. Takes no memory.
    pub fn new(alloc: Global, site: Site, n: u8) -> Counted
        requires small { n ≤ MAX_SITE }
        requires within { site ≤ n }
        ensures { AreCounted site n [] result }
    {
        Counted {
            ops: OwnOps::new(alloc, site, n),
            votes: Votes::new(alloc),
        }
    }

    /// Counts the next entry. After `Memory` there is no telling what is counted.
    pub fn count(&mut self, entry: &TraceEntry) -> Result<(), Memory>
        ensures ok { OnOk result ((site n : ℕ) (entries : List TraceEntry) → AreCounted site n entries self.old
            → AreCounted site n (entries ++ entry.now ∷ []) self.new) }
    {
        let made = self.makes(entry);
        self.ops.make(made)?;
        self.ops.use_one(used(entry));
        self.votes.count(entry)
    }

    /// What the operation with this number depends on, where it was made and has a vector.
    pub fn deps(&self, seq: u32) -> Option<Vector>
        requires least { 1 ≤ seq }
        requires greatest { seq ≤ MAX_SEQ }
        ensures { (site n : ℕ) (entries : List TraceEntry) → AreCounted site n entries self.now
            → result ≡ told_deps site n entries seq }
    {
        self.ops.deps(seq)
    }

    // How many operations the entry makes. A proposal is decided at once where there is one site.
    fn makes(&self, entry: &TraceEntry) -> u8
        ensures { (c : Count) → AreVotes c.yes c.no self.now.votes
            → result ≡ makes (length self.now.ops.have) c entry.now }
    {
        let n = self.ops.size();
        match entry.reply {
            Reply::Made { .. } if asks_proposal(&entry.told) && n == 1 => 2,
            Reply::Made { .. } | Reply::Cancelled => 1,
            Reply::New => u8::from(self.votes.is_decisive(n, &entry.told)),
            _ => 0,
        }
    }
}
