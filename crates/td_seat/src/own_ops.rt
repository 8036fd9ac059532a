ghost use Rattle.std.specs.Prelude.{◌≡◌, ◌≤◌, length};

use std::alloc::Global;
use td_base::{Dot, MAX_SEQ, MAX_SITE, Memory, Site};
use td_clock::Vector;
use td_store::Vectors;

/// The operations that a site made, and what it used.
#[derive(Debug, Drop)]
pub struct OwnOps {
    site: Site,
    // how many operations of each site it made or used, as long as no number passes `MAX_SEQ`
    have: Vector,
    // whether one passed: no operation counted from then on has a vector
    is_past: bool,
    // what the q-th operation depends on, at place q - 1
    deps: Vectors,
    ghost within: { site ≤ length have },
    ghost sized: { deps.size ≡ length have },
}

impl OwnOps {
    ghost use Rattle.std.specs.Prelude.{◌≡◌, ◌≤◌, ℕ, List, Option, None, OnOk, IfSome, length, replicate};
    ghost use Rattle.td_base.specs.Value.{DotValue};
    ghost use Rattle.td_clock.specs.Vector.{vector_bump};
    ghost use Rattle.td_law_replay.specs.Counting.{raised, with_use};
    ghost use Rattle.td_seat.specs.OwnOps.{AreOwnOps, with_one, with_more};

    /// A site, of n, that did nothing. Takes no memory.
    pub fn new(alloc: Global, site: Site, n: u8) -> OwnOps
        requires small { n ≤ MAX_SITE }
        requires within { site ≤ n }
        ensures { AreOwnOps site n (replicate n 0) (λ (q : ℕ). None) result }
    {
        // the number is read, so that its range is known
        let _ = site.number();
        OwnOps {
            site,
            have: Vector::new(n),
            is_past: false,
            deps: Vectors::new(alloc, n),
        }
    }

    /// The number of sites.
    pub fn size(&self) -> u8
        ensures { result ≡ length self.now.have }
    {
        self.have.size()
    }

    /// The site made so many operations, one after another.
    pub fn make(&mut self, count: u8) -> Result<(), Memory>
        ensures ok { OnOk result ((site n : ℕ) (v : List ℕ) (told : ℕ → Option (List ℕ))
            → AreOwnOps site n v told self.old
            → AreOwnOps site n (raised site count v) (with_more site count v told) self.new) }
    {
        for _ in 0..count {
            self.make_one()?;
        }
        Ok(())
    }

    // The site made an operation, which depends on all that it has.
    fn make_one(&mut self) -> Result<(), Memory>
        ensures ok { OnOk result ((site n : ℕ) (v : List ℕ) (told : ℕ → Option (List ℕ))
            → AreOwnOps site n v told self.old
            → AreOwnOps site n (vector_bump v site) (with_one site v told) self.new) }
    {
        if self.is_past {
            return Ok(());
        }
        if self.have.get(self.site) >= MAX_SEQ {
            self.is_past = true;
            return Ok(());
        }
        self.deps.reserve(1)?;
        self.deps.push(&self.have);
        self.have.bump(self.site);
        Ok(())
    }

    /// The site used the operation, if there is one. Operations of its own are counted where they are made.
    pub fn use_one(&mut self, used: Option<Dot>)
        ensures counted { (site n : ℕ) (v : List ℕ) (told : ℕ → Option (List ℕ))
            → AreOwnOps site n v told self.old → AreOwnOps site n (with_use site used v) told self.new }
        ensures range { IfSome used (λ dot. 1 ≤ dot.site) }
    {
        let Some(dot) = used else {
            return;
        };
        let number = dot.site.number();
        if number == self.site.number() {
            return;
        }
        if number > self.have.size() {
            return;
        }
        if self.have.get(dot.site) >= MAX_SEQ {
            self.is_past = true;
        } else {
            self.have.bump(dot.site);
        }
    }

    /// What the operation with this number depends on, where it has a vector.
    pub fn deps(&self, seq: u32) -> Option<Vector>
        requires least { 1 ≤ seq }
        requires greatest { seq ≤ MAX_SEQ }
        ensures { (site n : ℕ) (v : List ℕ) (told : ℕ → Option (List ℕ))
            → AreOwnOps site n v told self.now → result ≡ told seq }
    {
        let place = seq - 1;
        if place >= self.deps.len() {
            return None;
        }
        Some(self.deps.at(place))
    }
}
