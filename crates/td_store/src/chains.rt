ghost use Rattle.std.specs.Prelude.{◌≡◌, ◌≤◌, ◌<◌, ◌+◌, ◌-◌, ◌*◌, ◌/◌, ◌^◌, ◌∷◌, ◌++◌, [], length, max, take, slice_get, IfSome, OnErr, OnOk, Some};
ghost use Rattle.std.specs.Prelude.{vec_capacity};
ghost use Rattle.td_store.specs.declared.place.Place.TheVariants.{Head, Letter};
ghost use Rattle.td_store.specs.ChainsParts.{AreBases, IsNextLetter, last_base, number_at};

use crate::place::{Place, Typed};
use std::alloc::Global;
use std::marker::Model;
use std::mem::size_of;
use td_base::Memory;

// So many operations have one base.
const BLOCK: usize = 256;

// The places of operations in their chains: a head, and the letters typed behind it. An operation takes two bytes, and
// a base for each `BLOCK` of them four. Room for more is made by `reserve` and used up by `push_head` and
// `push_letter`.
#[derive(Debug, Drop)]
pub(crate) struct Chains {
    links: Vec<Link>,
    // for each `BLOCK` operations, how many heads stand before them
    bases: Vec<u32>,
    heads: u32,
    room: u32,
}

// An operation stands so many behind its head. The byte is its letter, or of a head its number from the base on: as an
// enum it would take a third byte.
#[derive(Clone, Copy, Debug)]
struct Link {
    behind: u8,
    byte: u8,
}

const _: () = prove!(size_of::<Link>() == 2);

impl Model for Chains {
    ghost use Rattle.std.specs.Prelude.{vec_capacity};
    ghost use Rattle.td_store.specs.Lists.{ChainsValue};

    ghost Value = { ChainsValue };

    ghost use Rattle.td_store.specs.ChainsParts.{AreChainsParts, places_of};

    ghost view = { λ c. record { heads = c.heads; places = places_of c.links.items c.bases.items; room = c.room } };

    ghost invariant = { λ c.
        AreChainsParts c.links.items c.bases.items c.heads c.room (vec_capacity c.links) (vec_capacity c.bases) };
}

impl Chains {
    // No places, and no room. Takes no memory.
    pub(crate) fn new(alloc: Global) -> Chains
        ensures { result ≡ record { heads = 0; places = []; room = 0 } }
    {
        Chains {
            links: Vec::new(alloc),
            bases: Vec::new(alloc),
            heads: 0,
            room: 0,
        }
    }

    // Makes room for so many more places. `Memory` too where there would be more than `u32::MAX`.
    pub(crate) fn reserve(&mut self, more: u32) -> Result<(), Memory>
        ensures ok { OnOk result (self.new.room ≡ max self.old.room more) }
        ensures places { self.new ≡ record self.old { room = self.new.room } }
        ensures err { OnErr result (self.new ≡ self.old) }
    {
        if more > u32::MAX - self.len() {
            return Err(Memory);
        }
        self.links.reserve(more as usize)?;
        self.bases.reserve(more as usize / BLOCK + 1)?;
        self.room = self.room.max(more);
        Ok(())
    }

    // Adds the next head at the end. Takes no memory.
    pub(crate) fn push_head(&mut self)
        requires { 1 ≤ self.old.room }
        ensures heads { self.new.heads ≡ self.old.heads + 1 }
        ensures places { self.new.places ≡ self.old.places ++ Head self.old.heads ∷ [] }
        ensures room { self.new.room + 1 ≡ self.old.room }
    {
        begin_block(&mut self.bases, self.links.len(), self.heads);
        let base = self.bases[self.bases.len() - 1];
        self.links.push_reserved(Link {
            behind: 0,
            byte: (self.heads - base) as u8,
        });
        self.heads += 1;
        self.room -= 1;
    }

    // Adds a letter at the end. Takes no memory.
    pub(crate) fn push_letter(&mut self, typed: Typed)
        requires room { 1 ≤ self.old.room }
        requires next { IsNextLetter self.old typed }
        ensures heads { self.new.heads ≡ self.old.heads }
        ensures places { self.new.places ≡ self.old.places ++ Letter typed ∷ [] }
        ensures room { self.new.room + 1 ≡ self.old.room }
    {
        begin_block(&mut self.bases, self.links.len(), self.heads);
        self.links.push_reserved(Link {
            behind: typed.behind,
            byte: typed.letter,
        });
        self.room -= 1;
    }

    // This letter, typed next, where there is a head for it: at most 255 operations are typed behind one.
    pub(crate) fn next(&self, letter: u8) -> Option<Typed>
        ensures next { IfSome result (λ typed. IsNextLetter self.now typed) }
        ensures letter { IfSome result (λ typed. typed.letter ≡ letter) }
    {
        let last = self.links.last()?;
        let behind = last.behind.checked_add(1)?;
        let place = self.links.len() - usize::from(behind);
        let head = number(&self.links, &self.bases, place);
        Some(Typed {
            head,
            behind,
            letter,
        })
    }

    // The place of the operation of a number that there is.
    pub(crate) fn at(&self, k: u32) -> Place
        requires { k < length self.now.places }
        ensures { slice_get self.now.places k ≡ Some result }
    {
        let Link { behind, byte } = self.links[k as usize];
        let place = k as usize - usize::from(behind);
        let head = number(&self.links, &self.bases, place);
        if behind == 0 {
            return Place::Head(head);
        }
        Place::Letter(Typed {
            head,
            behind,
            letter: byte,
        })
    }

    // How many places there are.
    pub(crate) fn len(&self) -> u32
        ensures { result ≡ length self.now.places }
    {
        self.links.len() as u32
    }
}

// The number of the head that stands there.
fn number(links: &[Link], bases: &[u32], k: usize) -> u32
    requires place { k < length links.now }
    requires base { length links.now ≤ length bases.now * BLOCK }
    requires small { number_at links.now bases.now k < 2 ^ 32 }
    ensures { result ≡ number_at links.now bases.now k }
{
    bases[k / BLOCK] + u32::from(links[k].byte)
}

// Behind so many operations, of which so many are heads: adds a base where the next operation needs one.
fn begin_block(bases: &mut Vec<u32>, len: usize, heads: u32)
    requires bases { AreBases bases.old.items len heads }
    requires room { len < vec_capacity bases.old * BLOCK }
    requires len { len < 2 ^ 32 }
    ensures bases { AreBases bases.new.items (len + 1) (heads + 1) }
    ensures low { last_base bases.new.items ≤ heads }
    ensures front { take (length bases.old.items) bases.new.items ≡ bases.old.items }
    ensures capacity { vec_capacity bases.new ≡ vec_capacity bases.old }
{
    if len == bases.len() * BLOCK {
        bases.push_reserved(heads);
    }
}
