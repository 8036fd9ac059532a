ghost use Rattle.std.specs.Prelude.{◌≡◌, ◌<◌, ◌≤◌, ◌-◌, ◌∷◌, ◌++◌, [], length, replicate, IfOk, OnErr, OnOk, vec_len, vec_capacity};
ghost use Rattle.td_history.specs.Index.{list_of, logged_at, last_of, with_logged, decided_in, with_decided, IsFromOne};

use std::alloc::Global;
use std::marker::Model;
use std::mem::size_of;
use td_base::{Dot, Memory, Site};

/// An operation of the log: its number, and if it is a proposal that was decided, whether it was committed.
#[derive(Clone, Copy, Debug, PartialEq, Eq)]
pub struct Logged {
    pub number: u32,
    pub decided: Option<bool>,
}

const _: () = prove!(size_of::<Logged>() == 8);

/// The operations of the log by their site, in the order of their dots: those of a site are numbered without gaps, so
/// that a dot is a place. There is room for so many more operations of one site.
#[derive(Drop)]
pub struct Index {
    // of site s at place s - 1
    lists: Vec<Vec<Logged>>,
    room_site: Site,
    room: u32,
}

impl Model for Index {
    ghost use Rattle.std.specs.Prelude.{◌≤◌, ◌+◌, ◌-◌, map, vec_len, vec_capacity, length, IfSome};
    ghost use Rattle.std.specs.List.{slice_get};
    ghost use Rattle.td_history.specs.IndexValue.{IndexValue};

    ghost Value = { IndexValue };

    ghost view = { λ i. record {
      lists = map (λ v. v.items) i.lists.items;
      room = i.room;
      room_site = i.room_site;
    } };

    ghost invariant = { λ i. (i.room_site ≤ length i.lists.items)
        × IfSome (slice_get i.lists.items (i.room_site - 1)) (λ v. vec_len v + i.room ≤ vec_capacity v) };
}

impl Index {
    /// The empty index of n sites, with no room.
    pub fn new(alloc: Global, site: Site, n: u8) -> Result<Index, Memory>
        requires { site ≤ n }
        ensures { IfOk result (λ i. i ≡ record { lists = replicate n []; room = 0; room_site = site }) }
    {
        let mut lists = Vec::new(alloc);
        for _ in 0..n {
            lists.push(Vec::new(alloc))?;
        }
        Ok(Index {
            lists,
            room_site: site,
            room: 0,
        })
    }

    /// Makes room for so many more operations of the site.
    pub fn reserve(&mut self, of: Site, more: u32) -> Result<(), Memory>
        requires { of ≤ length self.old.lists }
        ensures lists { self.new.lists ≡ self.old.lists }
        ensures room { OnOk result (self.new.room ≡ more) }
        ensures site { OnOk result (self.new.room_site ≡ of) }
        ensures err { OnErr result (self.new.room_site ≡ self.old.room_site) }
    {
        self.lists[of.place()].reserve(more as usize)?;
        self.room_site = of;
        self.room = more;
        Ok(())
    }

    /// The site of whose operations there is room for more.
    pub fn room_site(&self) -> Site
        ensures { result ≡ self.now.room_site }
    {
        self.room_site
    }

    /// Adds an operation at the end of the list of the site that there is room for.
    pub fn push(&mut self, number: u32)
        requires { 1 ≤ self.old.room }
        ensures lists { self.new.lists ≡ with_logged self.old.room_site number self.old.lists }
        ensures site { self.new.room_site ≡ self.old.room_site }
        ensures some { 1 ≤ self.old.room_site }
        ensures room { self.new.room ≡ self.old.room - 1 }
    {
        self.lists[self.room_site.place()].push_reserved(Logged {
            number,
            decided: None,
        });
        self.room -= 1;
    }

    /// Notes what was decided of a proposal.
    pub fn decide(&mut self, proposal: Dot, yes: bool)
        ensures dot { IsFromOne proposal }
        ensures lists { self.new.lists ≡ with_decided proposal yes self.old.lists }
        ensures site { self.new.room_site ≡ self.old.room_site }
        ensures room { self.new.room ≡ self.old.room }
    {
        if let Some(list) = self.lists.get_mut(proposal.site.place()) {
            decide_in(list, proposal.seq as usize - 1, yes);
        }
    }

    /// The operation with this dot.
    pub fn get(&self, dot: Dot) -> Option<Logged>
        ensures logged { result ≡ logged_at dot self.now.lists }
        ensures dot { IsFromOne dot }
    {
        let list = self.lists.get(dot.site.place())?;
        list.get(dot.seq as usize - 1).copied()
    }

    /// The last operation of a site.
    pub fn last(&self, site: Site) -> Option<Logged>
        ensures logged { result ≡ last_of (list_of site self.now.lists) }
        ensures site { 1 ≤ site }
    {
        self.lists.get(site.place())?.last().copied()
    }
}

// Notes what was decided of the operation at a place.
fn decide_in(list: &mut Vec<Logged>, i: usize, yes: bool)
    ensures items { list.new.items ≡ decided_in i yes list.old.items }
    ensures len { vec_len list.new ≡ vec_len list.old }
    ensures capacity { vec_capacity list.new ≡ vec_capacity list.old }
{
    if let Some(logged) = list.get_mut(i) {
        logged.decided = Some(yes);
    }
}
