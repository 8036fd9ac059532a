// The dots of the deletes that named a row, where there are several.
ghost use Rattle.std.specs.Prelude.{◌≡◌, ◌∷◌, [], length, slice_get, IfOk, OnOk, OnErr};
ghost use Rattle.std.specs.List.{list_all};
ghost use Rattle.td_clock.specs.Vector.{vector_has};
ghost use Rattle.td_doc.specs.Deletion.{add_dot};

use std::alloc::Global;
use std::marker::Model;
use td_base::{Dot, Memory};
use td_clock::Vector;
use td_doc::add_dot;

/// Dots in their order, fewer than 2^32. Contracts see the list of them.
#[derive(Debug, Drop)]
pub struct Deletes {
    dots: Vec<Dot>,
}

impl Model for Deletes {
    ghost use Rattle.std.specs.Prelude.{◌<◌, ◌^◌, List, length};
    ghost use Rattle.td_base.specs.Value.{DotValue};

    ghost Value = { List DotValue };

    ghost view = { λ d. d.dots.items };

    ghost invariant = { λ d. length d.dots.items < 2 ^ 32 };
}

impl Deletes {
    /// A dot and another.
    pub fn two(alloc: Global, dot: Dot, by: Dot) -> Result<Deletes, Memory>
        ensures { IfOk result (λ deletes. deletes ≡ add_dot by (dot ∷ [])) }
    {
        let mut dots = Vec::new(alloc);
        dots.push(dot)?;
        add_dot(&mut dots, by)?;
        Ok(Deletes { dots })
    }

    /// Adds a dot, unless it is there.
    pub fn add(&mut self, by: Dot) -> Result<(), Memory>
        ensures ok { OnOk result (self.new ≡ add_dot by self.old) }
        ensures err { OnErr result (self.new ≡ self.old) }
    {
        add_dot(&mut self.dots, by)
    }

    /// How many dots there are.
    pub fn len(&self) -> u32
        ensures { result ≡ length self.now }
    {
        self.dots.len() as u32
    }

    /// The k-th dot, from 0.
    pub fn get(&self, k: u32) -> Option<Dot>
        ensures { result ≡ slice_get self.now k }
    {
        self.dots.get(k as usize).copied()
    }

    /// Whether the vector has all of them.
    pub fn are_known(&self, v: &Vector) -> bool
        ensures { result ≡ list_all (vector_has v.now) self.now }
    {
        self.dots.iter().all(|dot| v.has(*dot))
    }
}
