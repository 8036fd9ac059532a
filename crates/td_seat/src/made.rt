ghost use Rattle.std.specs.Prelude.{◌≡◌, ◌+◌, ◌++◌, ◌∷◌, [], ℕ, List, OnOk, length};
ghost use Rattle.td_trace.specs.declared.entry.TraceEntry.{TraceEntry};
ghost use Rattle.td_law_replay.specs.Counting.{made_deps};
ghost use Rattle.td_seat.specs.Counted.{AreCounted};
ghost use Rattle.td_seat.specs.Made.{AreMade, IsMade};

use crate::counted::Counted;
use std::alloc::Global;
use td_base::{Dot, Memory};
use td_clock::Vector;

/// What the entries of all sites say that these made.
#[derive(Debug, Drop)]
pub struct Made {
    // that of site s at place s - 1
    sites: Vec<Counted>,
}

impl Made {
    /// No site. Takes no memory.
    pub fn new(alloc: Global) -> Made
        ensures { (n : ℕ) → AreMade n [] result }
    {
        Made {
            sites: Vec::new(alloc),
        }
    }

    /// Adds what is counted of the next site.
    pub fn push(&mut self, counted: Counted) -> Result<(), Memory>
        ensures ok { OnOk result ((n : ℕ) (all : List (List TraceEntry)) (entries : List TraceEntry)
            → AreMade n all self.old → AreCounted (length all + 1) n entries counted
            → AreMade n (all ++ entries ∷ []) self.new) }
    {
        self.sites.push(counted)?;
        Ok(())
    }

    /// What the operation with this dot depends on, where an entry of its site made it and it has a vector.
    pub fn deps(&self, dot: Dot) -> Option<Vector>
        ensures { (all : List (List TraceEntry)) → IsMade all self.now
            → result ≡ made_deps all dot }
    {
        let place = dot.site.place();
        let counted = self.sites.get(place)?;
        counted.deps(dot.seq)
    }
}
