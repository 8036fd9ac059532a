// Numbers of rows, one after another.
ghost use Rattle.std.specs.Prelude.{◌≡◌, ◌<◌, ◌≤◌, ◌+◌, ◌-◌, ◌^◌, ◌==◌, ℕ, [], get_or, set, length, Option, IsTrue, OnOk};
ghost use Rattle.td_identities.specs.Numbers.{no_numbers, nth, is_in_run, with_run};

use std::alloc::Global;
use std::marker::Model;
use td_base::{AtomId, Memory};

// Room is made for so many operations at a time: those of a site come one after another.
const AHEAD: usize = 64;

/// So many numbers, from the first on.
#[derive(Clone, Copy, Debug)]
pub struct Numbers {
    first: u32,
    count: u8,
}

impl Model for Numbers {
    ghost use Rattle.std.specs.Prelude.{◌≤◌, ◌+◌, ◌^◌};
    ghost use Rattle.td_identities.specs.Numbers.{NumbersValue};

    ghost Value = { NumbersValue };

    ghost view = { λ n. record { first = n.first; count = n.count } };

    ghost invariant = { λ n. n.first + n.count ≤ 2 ^ 32 };

    ghost inverse = { λ n. record { first = n.first; count = n.count } };
}

impl Numbers {
    pub fn new(first: u32, count: u8) -> Numbers
        requires { first + count ≤ 2 ^ 32 }
        ensures { result ≡ record { first = first; count = count } }
    {
        Numbers { first, count }
    }

    /// Whether there are none.
    pub fn is_empty(&self) -> bool
        ensures { result ≡ (self.now.count == 0) }
    {
        self.count == 0
    }

    /// The number at a place from 0.
    pub fn nth(&self, place: u8) -> Option<u32>
        ensures { result ≡ nth self.now place }
    {
        if place < self.count {
            Some(self.first + u32::from(place))
        } else {
            None
        }
    }
}

/// Identities that have no place in the list of their site: those that no replica makes.
#[derive(Clone, Copy, Debug)]
pub struct Stray {
    /// The first of them; the others are of its insert, and follow it.
    pub id: AtomId,
    pub numbers: Numbers,
}

impl Stray {
    /// The number of an identity, where it is one of these, or that other one.
    pub fn number_or(&self, id: AtomId, other: Option<u32>) -> Option<u32>
        ensures { result ≡ with_run self.now.id self.now.numbers id other }
    {
        if self.id.dot == id.dot && self.id.offset <= id.offset {
            match self.numbers.nth(id.offset - self.id.offset) {
                Some(number) => Some(number),
                None => other,
            }
        } else {
            other
        }
    }
}

/// The operations of a site by their numbers, with the numbers of the rows of those that are inserts.
#[derive(Debug, Drop)]
pub struct Operations {
    rows: Vec<Numbers>,
}

impl Model for Operations {
    ghost use Rattle.std.specs.Prelude.{List};
    ghost use Rattle.td_identities.specs.Numbers.{NumbersValue};

    ghost Value = { List NumbersValue };

    ghost view = { λ o. o.rows.items };
}

impl Operations {
    /// No operations. Takes no memory.
    pub fn new(alloc: Global) -> Operations
        ensures { result ≡ [] }
    {
        Operations {
            rows: Vec::new(alloc),
        }
    }

    /// The numbers of an operation: none where it is no insert.
    pub fn get(&self, seq: u32) -> Numbers
        ensures { result ≡ get_or self.now seq no_numbers }
    {
        let seq = seq as usize;
        if seq < self.rows.len() {
            self.rows[seq]
        } else {
            Numbers::new(0, 0)
        }
    }

    /// Gives an operation its numbers.
    pub fn set(&mut self, seq: u32, numbers: Numbers)
        requires { seq < length self.old }
        ensures { self.new ≡ set self.old seq numbers }
    {
        self.rows[seq as usize] = numbers;
    }

    /// Makes room for the numbers of an operation.
    pub fn reach(&mut self, seq: u32) -> Result<(), Memory>
        ensures same { (k : ℕ) → get_or self.new k no_numbers ≡ get_or self.old k no_numbers }
        ensures ok { OnOk result (seq < length self.new) }
    {
        let seq = seq as usize;
        if self.rows.len() <= seq {
            self.rows.resize(seq + AHEAD, Numbers::new(0, 0))?;
        }
        Ok(())
    }
}
