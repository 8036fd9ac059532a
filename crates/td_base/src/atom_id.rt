ghost use Rattle.std.specs.Prelude.{◌≡◌, ◌≤◌};
ghost use Rattle.std.specs.Option.{SomeIff};

use crate::dot::Dot;
use std::marker::Model;

/// The greatest place of an atom in the run of its insert.
pub const MAX_OFFSET: u8 = 63;

/// The identity of an atom: the dot of its insert, and its place in the insert's run from 0 to `MAX_OFFSET`. An atom
/// keeps it through every flatten. It is the disambiguator of Treedoc (Preguiça et al. 2009). Identities compare by
/// dot, then by offset.
#[derive(Clone, Copy, Debug, PartialEq, Eq, PartialOrd, Ord, Hash)]
pub struct AtomId {
    pub dot: Dot,
    pub offset: u8,
}

impl Model for AtomId {
    ghost use Rattle.std.specs.Prelude.{◌≤◌};
    ghost use Rattle.td_base.specs.Value.{AtomIdValue};
    ghost use Rattle.td_base.specs.declared.atom_id.TheConstants.{MAX_OFFSET};

    ghost Value = { AtomIdValue };

    ghost view = { λ x. record { dot = x.dot; offset = x.offset } };

    ghost invariant = { λ x. x.offset ≤ MAX_OFFSET };

    ghost inverse = { λ x. record { dot = x.dot; offset = x.offset } };
}

impl AtomId {
    /// The first atom of an insert.
    pub fn of(dot: Dot) -> AtomId
        ensures { result ≡ record { dot = dot; offset = 0 } }
    {
        AtomId { dot, offset: 0 }
    }

    /// The atom at a place of an insert's run, where the place is in range.
    pub fn new(dot: Dot, offset: u8) -> Option<AtomId>
        ensures { SomeIff result (offset ≤ MAX_OFFSET) (record { dot = dot; offset = offset }) }
    {
        if offset > MAX_OFFSET {
            return None;
        }
        Some(AtomId { dot, offset })
    }
}
