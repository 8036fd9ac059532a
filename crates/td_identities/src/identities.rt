ghost use Rattle.std.specs.Prelude.{◌≡◌, ◌<◌, ◌≤◌, ◌+◌, ◌-◌, ◌^◌, ℕ, [], length, false, get_or, if◌then◌else◌, Some, None, Option, IsTrue, OnOk, vec_len, vec_capacity};
ghost use Rattle.std.specs.List.{list_any};
ghost use Rattle.td_base.specs.Value.{DotValue, AtomIdValue};
ghost use Rattle.td_base.specs.Equality.{same_dot};
ghost use Rattle.td_identities.specs.declared.numbers.Stray.{Stray};
ghost use Rattle.td_identities.specs.Numbers.{nth, with_run};
ghost use Rattle.td_identities.specs.Identities.{insert_of, with_strays, number_of, HasRoom};

use crate::numbers::{Numbers, Operations, Stray};
use std::alloc::Global;
use td_base::{AtomId, Dot, Memory, Site};

/// The numbers of rows by their identities. A later number of an identity counts in place of an earlier one.
#[derive(Debug, Drop)]
pub struct Identities {
    // by the numbers of the sites, of which none is 0
    sites: Vec<Operations>,
    strays: Vec<Stray>,
    alloc: Global,
}

impl Identities {
    /// No identity has a number. Takes no memory.
    pub fn empty(alloc: Global) -> Identities
        ensures { (x : AtomIdValue) → number_of result x ≡ None }
    {
        Identities {
            sites: Vec::new(alloc),
            strays: Vec::new(alloc),
            alloc,
        }
    }

    /// The number of an identity.
    pub fn number(&self, id: AtomId) -> Option<u32>
        ensures { result ≡ number_of self.now id }
    {
        let numbers = insert_of(&self.sites, id.dot);
        number_or(&self.strays, id, numbers.nth(id.offset))
    }

    /// Makes room for the numbers of an insert.
    pub fn make_room(&mut self, dot: Dot) -> Result<(), Memory>
        ensures same { (x : AtomIdValue) → number_of self.new x ≡ number_of self.old x }
        ensures ok { OnOk result (HasRoom dot self.new) }
    {
        reach_insert(self.alloc, &mut self.sites, dot)?;
        self.strays.reserve(1)?;
        Ok(())
    }

    /// Gives numbers, from the first on, to so many identities of one insert, from one on.
    pub fn put(&mut self, id: AtomId, first: u32, count: u8)
        requires room { HasRoom id.dot self.old }
        requires few { first + count ≤ 2 ^ 32 }
        ensures { (x : AtomIdValue) → number_of self.new x
            ≡ with_run id (record { first = first; count = count }) x (number_of self.old x) }
    {
        let numbers = Numbers::new(first, count);
        if id.offset == 0 && self.is_unused(id.dot) {
            set_insert(&mut self.sites, id.dot, numbers);
        } else {
            self.strays.push(Stray { id, numbers }).unwrap();
        }
    }

    // Whether no identity of the insert has a number.
    fn is_unused(&self, dot: Dot) -> bool
        ensures rows { IsTrue result → (insert_of self.now.sites.items dot).count ≡ 0 }
        ensures strays { IsTrue result → list_any (λ (s : Stray). same_dot s.id.dot dot) self.now.strays.items ≡ false }
    {
        insert_of(&self.sites, dot).is_empty() && !has_stray(&self.strays, dot)
    }
}

// The numbers of an insert.
fn insert_of(sites: &Vec<Operations>, dot: Dot) -> Numbers
    ensures { result ≡ insert_of sites.now.items dot }
{
    let site = dot.site.number() as usize;
    if site < sites.len() {
        sites[site].get(dot.seq)
    } else {
        Numbers::new(0, 0)
    }
}

// The number of an identity among strays, of which the later ones count, or that other one.
fn number_or(strays: &[Stray], id: AtomId, other: Option<u32>) -> Option<u32>
    ensures { result ≡ with_strays strays.now id other }
{
    let mut number = other;
    for stray in strays {
        number = stray.number_or(id, number);
    }
    number
}

fn has_stray(strays: &[Stray], dot: Dot) -> bool
    ensures { result ≡ list_any (λ (s : Stray). same_dot s.id.dot dot) strays.now }
{
    strays.iter().any(|stray| stray.id.dot == dot)
}

// Makes room for the numbers of an insert.
fn reach_insert(alloc: Global, sites: &mut Vec<Operations>, dot: Dot) -> Result<(), Memory>
    ensures same { (d : DotValue) → insert_of sites.new.items d ≡ insert_of sites.old.items d }
    ensures site { OnOk result (dot.site < length sites.new.items) }
    ensures seq { OnOk result (dot.seq < length (get_or sites.new.items dot.site [])) }
{
    reach_site(alloc, sites, dot.site)?;
    sites[dot.site.number() as usize].reach(dot.seq)?;
    Ok(())
}

// Makes room for the operations of a site.
fn reach_site(alloc: Global, sites: &mut Vec<Operations>, site: Site) -> Result<(), Memory>
    ensures same { (k : ℕ) → get_or sites.new.items k [] ≡ get_or sites.old.items k [] }
    ensures ok { OnOk result (site < length sites.new.items) }
{
    while sites.len() <= site.number() as usize {
        sites.push(Operations::new(alloc))?;
    }
    Ok(())
}

// Gives an insert its numbers.
fn set_insert(sites: &mut Vec<Operations>, dot: Dot, numbers: Numbers)
    requires site { dot.site < length sites.old.items }
    requires seq { dot.seq < length (get_or sites.old.items dot.site []) }
    ensures { (d : DotValue) → insert_of sites.new.items d
        ≡ (if same_dot dot d then numbers else insert_of sites.old.items d) }
{
    sites[dot.site.number() as usize].set(dot.seq, numbers);
}
