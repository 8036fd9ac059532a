ghost use Rattle.std.specs.Prelude.{◌≡◌, ◌<◌, ◌≤◌, ◌+◌, ◌-◌, ◌++◌, [], ◌∷◌, length, Some, OnOk, IsTrue};
ghost use Rattle.std.specs.Prelude.{vec_len, vec_capacity};
ghost use Rattle.std.specs.Prelude.{true, false, leb};
ghost use Rattle.std.specs.List.{slice_get};
ghost use Rattle.std.specs.List.Sorted.{IsNonDecreasingBy, IsPartitionPoint};
ghost use Rattle.td_history.specs.declared.ramps.Ramp.{Ramp};
ghost use Rattle.td_history.specs.Ramps.{items_in, AreRampsFrom, IsNextOfRamp};

use crate::goes_on::GoesOn;
use std::alloc::Global;
use std::marker::Model;
use std::mem::size_of;
use td_base::Memory;

/// A list in ramps: of elements that go on from one another the first is kept, as of operations that came one behind
/// another, or of letters typed on. There is room for so many more elements.
#[derive(Drop)]
pub struct Ramps<T: GoesOn> {
    ramps: Vec<Ramp<T>>,
    len: u32,
    room: u32,
}

/// Elements that go on from one another: the place of the first among all, and the first.
#[derive(Clone, Copy)]
pub struct Ramp<T> {
    pub start: u32,
    pub first: T,
}

const _: () = prove!(size_of::<Ramp<u32>>() == 8);

impl<T: GoesOn> Model for Ramps<T> {
    ghost use Rattle.std.specs.Prelude.{vec_len, vec_capacity};
    ghost use Rattle.td_history.specs.Ramps.{RampsValue, items_in, AreRamps};

    ghost Value = { RampsValue T };

    ghost view = { λ r. record { items = items_in T.on r.ramps.items r.len; room = r.room } };

    ghost invariant = { λ r. AreRamps r.ramps.items (vec_len r.ramps) (vec_capacity r.ramps) r.len r.room };
}

impl<T: GoesOn> Ramps<T> {
    /// No elements, and no room. Takes no memory.
    pub fn new(alloc: Global) -> Ramps<T>
        ensures { result ≡ record { items = []; room = 0 } }
    {
        Ramps {
            ramps: Vec::new(alloc),
            len: 0,
            room: 0,
        }
    }

    /// Makes room for so many more elements. `Memory` also where there would be 2 ^ 32 or more.
    pub fn reserve(&mut self, more: u32) -> Result<(), Memory>
        ensures items { self.new.items ≡ self.old.items }
        ensures room { OnOk result (self.new.room ≡ more) }
    {
        self.room = 0;
        if more > u32::MAX - self.len {
            return Err(Memory);
        }
        self.ramps.reserve(more as usize)?;
        self.room = more;
        Ok(())
    }

    /// Adds an element at the end. Takes no memory.
    pub fn push(&mut self, item: T)
        requires { 1 ≤ self.old.room }
        ensures { self.new ≡ record { items = self.old.items ++ item ∷ []; room = self.old.room - 1 } }
    {
        push_item(&mut self.ramps, self.len, item);
        self.len += 1;
        self.room -= 1;
    }

    /// How many elements there are.
    pub fn len(&self) -> u32
        ensures { result ≡ length self.now.items }
    {
        self.len
    }

    /// The element at a place from 0.
    pub fn get(&self, k: u64) -> Option<T>
        ensures { result ≡ slice_get self.now.items k }
    {
        if k >= self.len as u64 {
            return None;
        }
        Some(self.at(k))
    }

    /// The element at a place from 0 that there is.
    pub fn at(&self, k: u64) -> T
        requires { k < length self.now.items }
        ensures { slice_get self.now.items k ≡ Some result }
    {
        let ramp = self.ramps[begun(&self.ramps, k) - 1];
        ramp.first.on((k - ramp.start as u64) as u32)
    }
}

// How many ramps begin at this place or before. Mostly a late one is asked for: the last is looked at first.
fn begun<T: GoesOn>(ramps: &[Ramp<T>], k: u64) -> usize
    ensures bound { result ≤ length ramps.now }
    ensures point { IsNonDecreasingBy (λ (r : Ramp T). r.start) ramps.now → IsPartitionPoint
        (λ (r : Ramp T). leb r.start k ≡ true) (λ (r : Ramp T). leb r.start k ≡ false) ramps.now result }
{
    if let Some(last) = ramps.last()
        && last.start as u64 <= k
    {
        return ramps.len();
    }
    ramps.partition_point(|ramp| ramp.start as u64 <= k)
}

// Adds an element behind so many in these ramps: to the last of them, where it goes on.
fn push_item<T: GoesOn>(ramps: &mut Vec<Ramp<T>>, len: u32, item: T)
    requires ramps { AreRampsFrom 0 ramps.old.items len }
    requires room { vec_len ramps.old < vec_capacity ramps.old }
    ensures items { items_in T.on ramps.new.items (len + 1) ≡ items_in T.on ramps.old.items len ++ item ∷ [] }
    ensures ramps { AreRampsFrom 0 ramps.new.items (len + 1) }
    ensures len { vec_len ramps.new ≤ vec_len ramps.old + 1 }
    ensures capacity { vec_capacity ramps.new ≡ vec_capacity ramps.old }
{
    if !goes_on(ramps, len, item) {
        ramps.push_reserved(Ramp {
            start: len,
            first: item,
        });
    }
}

// Whether the element is the next one of the last ramp, behind so many elements.
fn goes_on<T: GoesOn>(ramps: &[Ramp<T>], len: u32, item: T) -> bool
    requires { AreRampsFrom 0 ramps.now len }
    ensures { IsTrue result → IsNextOfRamp T.on ramps.now len item }
{
    match ramps.last() {
        Some(last) => last.first.on(len - last.start) == item,
        None => false,
    }
}
