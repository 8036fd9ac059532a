ghost use Rattle.std.specs.Prelude.{◌≡◌, ◌⊎◌, ◌+◌, ◌<◌, ◌≤◌, [], ◌∷◌, length, IsTrue, OnOk, OnErr};
ghost use Rattle.td_path.specs.declared.slot.Slot.TheVariants.{Root};
ghost use Rattle.td_doc.specs.Answers.{is_rooted};
ghost use Rattle.td_doc.specs.Slots.{is_known, overlaps};
ghost use Rattle.std.specs.List.{list_any};
ghost use Rattle.td_machine.specs.Hold.{Hold, held_slot, held_row, held_over, is_held, release};
ghost use Rattle.td_machine.specs.Log.{commit_at};
ghost use Rattle.td_machine.specs.Vote.{votes_yes};
ghost use Rattle.td_vote.specs.ByPlace.{AreInPlace, ArePlaced, AreSame, IsFree};
ghost use Rattle.td_vote.specs.Commits.{put_commit};

use crate::by_place::{any_overlapping, least_containing, least_overlapping, least_round, put};
use crate::by_site::Commits;
use crate::held::{Held, has_proposal};
use crate::room::make_room;
use crate::slots::{is_known, is_rooted};
use std::alloc::Global;
use std::marker::Model;
use td_base::{AtomId, Dot, Memory};
use td_clock::Vector;
use td_doc::Doc;
use td_path::Slot;

const MAX_HOLDS: usize = u32::MAX as usize;

/// What a replica votes by: the proposals that it said Yes to, with their slots, until their decisions are taken, and
/// the commits that it made or took. Places are what can be put in without memory. There are at most `u32::MAX`
/// holds, so where these are held no place is left.
#[derive(Debug, Drop)]
pub struct Holds {
    // the newest at the end
    holds: Vec<Held>,
    // the same in the order of their places
    by_place: Vec<Held>,
    commits: Commits,
}

impl Model for Holds {
    ghost use Rattle.td_vote.specs.Holds.{HoldsValue};
    ghost use Rattle.td_vote.specs.HoldsParts.{holds_of, AreHoldsParts};
    ghost use Rattle.std.specs.Prelude.{vec_capacity};

    ghost Value = { HoldsValue };

    ghost view = { λ a.
        holds_of a.holds.items (vec_capacity a.holds) a.by_place.items (vec_capacity a.by_place) a.commits };

    ghost invariant = { λ a. AreHoldsParts a.holds.items a.by_place.items };
}

impl Holds {
    /// No holds, no commits. Takes no memory.
    pub fn new(alloc: Global) -> Holds
        ensures { result ≡ record { holds = []; by_place = []; commits = []; hold_places = 0; commit_places = 0 } }
    {
        Holds {
            holds: Vec::new(alloc),
            by_place: Vec::new(alloc),
            commits: Commits::new(alloc),
        }
    }

    /// The vote on a proposal of the slot whose dependencies are `v`, by the document and what this replica knows.
    /// `have` is the vector of the replica: where `v` covers it, no row is looked at.
    pub fn judge<D: Doc>(&self, doc: &D, have: &Vector, slot: Slot, v: &Vector) -> bool
        requires sizes { length v.now ≡ length have.now }
        requires known { IsTrue (is_known (D.rows doc.now) Root have.now) }
        requires placed { ArePlaced (D.rows doc.now) self.now }
        ensures { result ≡ votes_yes (D.rows doc.now) self.now.holds self.now.commits slot v.now }
    {
        is_rooted(doc, &slot)
            && is_known(doc, have, &slot, v)
            && !self.overlaps(doc, &slot)
            && self.commits.all_apart(doc, &slot, v)
    }

    // Whether a hold overlaps the slot.
    fn overlaps<D: Doc>(&self, doc: &D, slot: &Slot) -> bool
        requires { ArePlaced (D.rows doc.now) self.now }
        ensures { result ≡ list_any (λ (h : Hold). overlaps (D.rows doc.now) h.slot slot.now) self.now.holds }
    {
        any_overlapping(&self.by_place, doc, slot)
    }

    /// Makes a place for one hold and for one commit more, where there is none.
    pub fn reserve(&mut self) -> Result<(), Memory>
        ensures holds { self.new.holds ≡ self.old.holds }
        ensures by_place { self.new.by_place ≡ self.old.by_place }
        ensures commits { self.new.commits ≡ self.old.commits }
        ensures hold_place { OnOk result (1 ≤ self.new.hold_places) }
        ensures commit_place { OnOk result (1 ≤ self.new.commit_places) }
        ensures memory { OnErr result ((self.old.hold_places ≡ 0) ⊎ (self.old.commit_places ≡ 0)) }
    {
        if self.holds.len() >= MAX_HOLDS {
            return Err(Memory);
        }
        make_room(&mut self.holds)?;
        make_room(&mut self.by_place)?;
        self.commits.reserve()
    }

    /// Holds the slot for the proposal. `Memory` comes only where there was no place, as where `u32::MAX` are held.
    pub fn hold<D: Doc>(&mut self, doc: &D, proposal: Dot, slot: Slot) -> Result<(), Memory>
        requires placed { ArePlaced (D.rows doc.now) self.old }
        requires rooted { IsTrue (is_rooted (D.rows doc.now) slot) }
        requires free { IsFree (D.rows doc.now) slot self.old.holds }
        ensures ok { OnOk result (self.new.holds ≡ record { proposal = proposal; slot = slot } ∷ self.old.holds) }
        ensures err { OnErr result (self.new.holds ≡ self.old.holds) }
        ensures order { AreInPlace (D.rows doc.now) self.new.by_place }
        ensures same { OnOk result (AreSame self.new.by_place self.new.holds) }
        ensures commits { self.new.commits ≡ self.old.commits }
        ensures memory { OnErr result (self.old.hold_places ≡ 0) }
        ensures place { 0 < self.old.hold_places → self.new.hold_places + 1 ≡ self.old.hold_places }
        ensures commit_places { self.new.commit_places ≡ self.old.commit_places }
    {
        if self.holds.len() >= MAX_HOLDS {
            return Err(Memory);
        }
        make_room(&mut self.holds)?;
        put(&mut self.by_place, doc, proposal, &slot)?;
        self.holds.push_reserved(Held { proposal, slot });
        Ok(())
    }

    /// Ends the hold of the proposal, if there is one.
    #[tactic(auto, using(td_base::proofs::Reversed::filter_reverse))]
    pub fn release(&mut self, proposal: Dot)
        ensures holds { self.new.holds ≡ release proposal self.old.holds }
        ensures by_place { self.new.by_place ≡ release proposal self.old.by_place }
        ensures commits { self.new.commits ≡ self.old.commits }
        ensures places { self.old.hold_places ≤ self.new.hold_places }
        ensures commit_places { self.new.commit_places ≡ self.old.commit_places }
    {
        self.by_place.retain(|held| held.proposal != proposal);
        self.holds.retain(|held| held.proposal != proposal);
    }

    /// Knows one commit more, by its own dot, with the slot of its proposal.
    pub fn committed(&mut self, commit: Dot, slot: Slot) -> Result<(), Memory>
        ensures ok { OnOk result (self.new.commits ≡ put_commit (commit_at commit slot) self.old.commits) }
        ensures err { OnErr result (self.new.commits ≡ self.old.commits) }
        ensures holds { self.new.holds ≡ self.old.holds }
        ensures by_place { self.new.by_place ≡ self.old.by_place }
        ensures memory { OnErr result (self.old.commit_places ≡ 0) }
        ensures place { 0 < self.old.commit_places → self.new.commit_places + 1 ≡ self.old.commit_places }
        ensures hold_places { self.new.hold_places ≡ self.old.hold_places }
    {
        self.commits.put(commit, slot)
    }

    /// The least proposal whose held slot contains the slot.
    pub fn held_slot<D: Doc>(&self, doc: &D, slot: Slot) -> Option<Dot>
        requires { ArePlaced (D.rows doc.now) self.now }
        ensures { result ≡ held_slot (D.rows doc.now) slot self.now.holds }
    {
        least_containing(&self.by_place, doc, &slot)
    }

    /// The least proposal whose held slot contains the row.
    pub fn held_row<D: Doc>(&self, doc: &D, id: AtomId) -> Option<Dot>
        requires { ArePlaced (D.rows doc.now) self.now }
        ensures { result ≡ held_row (D.rows doc.now) id self.now.holds }
    {
        least_round(&self.by_place, doc, id)
    }

    /// The least proposal whose held slot overlaps the slot.
    pub fn held_over<D: Doc>(&self, doc: &D, slot: Slot) -> Option<Dot>
        requires { ArePlaced (D.rows doc.now) self.now }
        ensures { result ≡ held_over (D.rows doc.now) slot self.now.holds }
    {
        least_overlapping(&self.by_place, doc, &slot)
    }

    /// Whether the proposal is held.
    #[tactic(auto, using(td_base::proofs::Reversed::any_reverse))]
    pub fn has(&self, proposal: Dot) -> bool
        ensures { result ≡ is_held proposal self.now.holds }
    {
        has_proposal(&self.holds, proposal)
    }

    /// The number of holds.
    pub fn len(&self) -> u32
        ensures { result ≡ length self.now.holds }
    {
        self.holds.len() as u32
    }
}
