ghost use Rattle.std.specs.Prelude.{◌≡◌, ◌≤◌};
ghost use Rattle.std.specs.Option.{SomeIff};

use crate::site::Site;
use std::marker::Model;

/// The greatest number of an operation of one site.
pub const MAX_SEQ: u32 = 65_535;

/// The name of an operation: its site, and its number among that site's operations, from 1 to `MAX_SEQ`. Dots compare
/// by site, then by seq. (A dot of a version vector; the order is the one by which Lamport, 1978, breaks ties.)
#[derive(Clone, Copy, Debug, PartialEq, Eq, PartialOrd, Ord, Hash)]
pub struct Dot {
    pub site: Site,
    pub seq: u32,
}

impl Model for Dot {
    ghost use Rattle.std.specs.Prelude.{◌≤◌};
    ghost use Rattle.td_base.specs.Value.{DotValue};
    ghost use Rattle.td_base.specs.declared.dot.TheConstants.{MAX_SEQ};

    ghost Value = { DotValue };

    ghost view = { λ d. record { site = d.site; seq = d.seq } };

    ghost invariant = { λ d. (1 ≤ d.seq) × (d.seq ≤ MAX_SEQ) };

    ghost inverse = { λ d. record { site = d.site; seq = d.seq } };
}

impl Dot {
    /// The dot of a site's operation, where the number is in range.
    pub fn new(site: Site, seq: u32) -> Option<Dot>
        ensures { SomeIff result ((1 ≤ seq) × (seq ≤ MAX_SEQ)) (record { site = site; seq = seq }) }
    {
        if seq == 0 || seq > MAX_SEQ {
            return None;
        }
        Some(Dot { site, seq })
    }
}
