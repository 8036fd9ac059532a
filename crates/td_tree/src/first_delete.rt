// The first delete that named a row, in little room.
ghost use Rattle.std.specs.Prelude.{◌≡◌, length, slice_get, Some, None};
ghost use Rattle.std.specs.List.{list_all};
ghost use Rattle.td_clock.specs.Vector.{vector_has};
ghost use Rattle.td_tree.specs.Deletes.{first_dots};

use std::marker::Model;
use td_base::{Dot, Site};
use td_clock::Vector;

/// The dot of a delete, or none, in 3 bytes. Contracts see which.
#[derive(Debug, Drop)]
pub struct FirstDelete {
    // 0 where there is none
    site: u8,
    // the lowest byte first; as one number it would leave a gap behind it
    seq: [u8; 2],
}

impl Model for FirstDelete {
    ghost use Rattle.std.specs.Prelude.{Option};
    ghost use Rattle.std.specs.Int.{w16, from_le_bytes};
    ghost use Rattle.td_base.specs.Value.{DotValue};
    ghost use Rattle.td_tree.specs.Deletes.{first_dot, IsFirst};

    ghost Value = { Option DotValue };

    ghost view = { λ d. first_dot d.site (from_le_bytes w16 d.seq) };

    ghost invariant = { λ d. IsFirst d.site (from_le_bytes w16 d.seq) };
}

impl FirstDelete {
    /// None.
    pub fn none() -> FirstDelete
        ensures { result ≡ None }
    {
        FirstDelete {
            site: 0,
            seq: [0; 2],
        }
    }

    /// The dot, kept.
    pub fn of(dot: Dot) -> FirstDelete
        ensures { result ≡ Some dot }
    {
        FirstDelete {
            site: dot.site.number(),
            seq: (dot.seq as u16).to_le_bytes(),
        }
    }

    /// The dot, where there is one.
    pub fn dot(&self) -> Option<Dot>
        ensures { result ≡ self.now }
    {
        let site = Site::new(self.site)?;
        Some(Dot {
            site,
            seq: u32::from(u16::from_le_bytes(self.seq)),
        })
    }

    /// How many dots that is.
    pub fn len(&self) -> u32
        ensures { result ≡ length (first_dots self.now) }
    {
        match self.dot() {
            Some(_) => 1,
            None => 0,
        }
    }

    /// The k-th dot, from 0.
    pub fn get(&self, k: u32) -> Option<Dot>
        ensures { result ≡ slice_get (first_dots self.now) k }
    {
        match self.dot() {
            Some(dot) if k == 0 => Some(dot),
            _ => None,
        }
    }

    /// Whether the vector has it, where there is one.
    pub fn is_known(&self, v: &Vector) -> bool
        ensures { result ≡ list_all (vector_has v.now) (first_dots self.now) }
    {
        match self.dot() {
            Some(dot) => v.has(dot),
            None => true,
        }
    }
}
