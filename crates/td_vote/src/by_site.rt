// The commits that a replica knows, site by site.
ghost use Rattle.std.specs.Prelude.{◌≡◌, ◌||◌, ◌<◌, ◌≤◌, ◌+◌, [], length, All, vec_len, vec_capacity};
ghost use Rattle.std.specs.Prelude.{◌≢◌, false, IsTrue, IfOk, OnOk, OnErr};
ghost use Rattle.std.specs.List.{AllByRecursion, HoldsAt, list_all};
ghost use Rattle.td_clock.specs.Vector.{vector_has};
ghost use Rattle.td_machine.specs.Log.{Committed as CommittedValue, commit_at};
ghost use Rattle.td_machine.specs.Vote.{is_apart};
ghost use Rattle.td_vote.specs.declared.site_commits.SiteCommits.{SiteCommits};
ghost use Rattle.td_vote.specs.Commits.{put_commit};
ghost use Rattle.td_vote.specs.BySite.{all_commits, IsOf, IsOfItsSite, HasRoom, IsBySite, IsPlaceOf};

use crate::committed::{Committed, put};
use crate::room::make_room;
use crate::site_commits::{SiteCommits, all_apart};
use std::alloc::Global;
use std::marker::Model;
use std::mem;
use td_base::{Dot, Memory, Site};
use td_clock::Vector;
use td_doc::Doc;
use td_path::Slot;

/// The commits that a replica knows. Contracts see one list, in the order of their dots, and whether there is a place
/// for one commit more, of any site: one that can be put in without memory.
#[derive(Debug, Drop)]
pub struct Commits {
    // in the order of their numbers, for each site one at most
    sites: Vec<SiteCommits>,
    // holds nothing: the room for the commits of one site more
    spare: Vec<Committed>,
    // where there is a place, there is room for one site more, in the spare list and in that of each site
    has_place: bool,
    alloc: Global,
}

impl Model for Commits {
    ghost use Rattle.std.specs.Prelude.{vec_len, vec_capacity};
    ghost use Rattle.td_vote.specs.Commits.{CommitsValue};
    ghost use Rattle.td_vote.specs.BySite.{AreCommitsParts, commits_of};

    ghost Value = { CommitsValue };

    ghost view = { λ a. commits_of a.has_place a.sites.items };

    ghost invariant = { λ a. AreCommitsParts a.has_place a.sites a.spare };
}

impl Commits {
    /// No commits, no place. Takes no memory.
    pub fn new(alloc: Global) -> Commits
        ensures { result ≡ record { commits = []; places = 0 } }
    {
        Commits {
            sites: Vec::new(alloc),
            spare: Vec::new(alloc),
            has_place: false,
            alloc,
        }
    }

    /// Makes sure of a place for one commit more.
    pub fn reserve(&mut self) -> Result<(), Memory>
        ensures commits { self.new.commits ≡ self.old.commits }
        ensures ok { OnOk result (1 ≤ self.new.places) }
        ensures memory { OnErr result (self.old.places ≡ 0) }
    {
        if self.has_place {
            return Ok(());
        }
        make_room(&mut self.sites)?;
        make_room(&mut self.spare)?;
        make_rooms(&mut self.sites)?;
        self.has_place = true;
        Ok(())
    }

    /// Knows one commit more. `Memory` comes only where there was no place.
    pub fn put(&mut self, dot: Dot, slot: Slot) -> Result<(), Memory>
        ensures ok { OnOk result (self.new.commits ≡ put_commit (commit_at dot slot) self.old.commits) }
        ensures err { OnErr result (self.new.commits ≡ self.old.commits) }
        ensures memory { OnErr result (self.old.places ≡ 0) }
        ensures place { 0 < self.old.places → self.new.places + 1 ≡ self.old.places }
    {
        self.has_place = false;
        let place = reach(&mut self.sites, &mut self.spare, self.alloc, dot.site)?;
        put_at(&mut self.sites, place, dot, slot)
    }

    /// Whether each commit that the vector does not have lies apart from the slot. The others are not looked at.
    pub fn all_apart<D: Doc>(&self, doc: &D, slot: &Slot, v: &Vector) -> bool
        ensures { result ≡ list_all (λ (c : CommittedValue). vector_has v.now c.dot
            || is_apart (D.rows doc.now) slot.now c) self.now.commits }
    {
        each_apart(&self.sites, doc, slot, v)
    }
}

// Makes room for one commit more in the list of each site.
fn make_rooms(sites: &mut Vec<SiteCommits>) -> Result<(), Memory>
    requires { IsBySite sites.old.items }
    ensures sites { IsBySite sites.new.items }
    ensures same { all_commits sites.new.items ≡ all_commits sites.old.items }
    ensures len { vec_len sites.new ≡ vec_len sites.old }
    ensures capacity { vec_capacity sites.new ≡ vec_capacity sites.old }
    ensures rooms { OnOk result (All HasRoom sites.new.items) }
    ensures full { OnErr result (All HasRoom sites.old.items → ⊥) }
{
    for i in 0..sites.len() {
        make_room(&mut sites[i].commits)?;
    }
    Ok(())
}

// The place of the site among the others. Where it has none, it gets the spare list.
fn reach(
    sites: &mut Vec<SiteCommits>,
    spare: &mut Vec<Committed>,
    alloc: Global,
    site: Site,
) -> Result<usize, Memory>
    requires sites { IsBySite sites.old.items }
    requires spare { spare.old.items ≡ [] }
    ensures sites { IsBySite sites.new.items }
    ensures spare { spare.new.items ≡ [] }
    ensures same { all_commits sites.new.items ≡ all_commits sites.old.items }
    ensures within { IfOk result (λ place. place < vec_len sites.new) }
    ensures site { IfOk result (λ place. HoldsAt (IsOf site) sites.new.items place) }
    ensures room { IfOk result (λ place. All HasRoom sites.old.items → vec_len spare.old < vec_capacity spare.old
        → HoldsAt HasRoom sites.new.items place) }
    ensures full { OnErr result (vec_capacity sites.old ≤ vec_len sites.old) }
{
    let place = place_of_site(sites, site);
    if is_at(sites, place, site) {
        return Ok(place);
    }
    let commits = mem::replace(spare, Vec::new(alloc));
    sites.insert(place, SiteCommits { site, commits })?;
    Ok(place)
}

// The place of the site among the others: behind the smaller ones.
fn place_of_site(sites: &[SiteCommits], site: Site) -> usize
    requires { IsBySite sites.now }
    ensures { IsPlaceOf site sites.now result }
{
    sites.partition_point(|other| other.site < site)
}

// Whether the site is the one at the place.
fn is_at(sites: &[SiteCommits], place: usize, site: Site) -> bool
    ensures within { IsTrue result → place < length sites.now }
    ensures yes { IsTrue result → HoldsAt (IsOf site) sites.now place }
    ensures no { result ≡ false → place < length sites.now → HoldsAt (λ s. s.site ≢ site) sites.now place }
{
    place < sites.len() && sites[place].site == site
}

// Puts a commit among those of its site, which are at the place.
fn put_at(sites: &mut Vec<SiteCommits>, place: usize, dot: Dot, slot: Slot) -> Result<(), Memory>
    requires sites { IsBySite sites.old.items }
    requires within { place < vec_len sites.old }
    requires site { HoldsAt (IsOf dot.site) sites.old.items place }
    ensures sites { IsBySite sites.new.items }
    ensures ok { OnOk result (all_commits sites.new.items
        ≡ put_commit (commit_at dot slot) (all_commits sites.old.items)) }
    ensures err { OnErr result (all_commits sites.new.items ≡ all_commits sites.old.items) }
    ensures full { OnErr result (HoldsAt HasRoom sites.old.items place → ⊥) }
{
    put(&mut sites[place].commits, dot, slot)
}

// Whether each commit of these sites that the vector does not have lies apart from the slot.
fn each_apart<D: Doc>(sites: &[SiteCommits], doc: &D, slot: &Slot, v: &Vector) -> bool
    requires { AllByRecursion IsOfItsSite sites.now }
    ensures { result ≡ list_all (λ (c : CommittedValue). vector_has v.now c.dot
        || is_apart (D.rows doc.now) slot.now c) (all_commits sites.now) }
{
    let mut left = sites;
    while let Some((of_site, rest)) = left.split_first() {
        if !all_apart(of_site, doc, slot, v) {
            return false;
        }
        left = rest;
    }
    true
}
