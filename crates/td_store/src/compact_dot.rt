ghost use Rattle.std.specs.Prelude.{◌≡◌};

use std::marker::Model;
use td_base::{Dot, Site};

/// A dot in 4 bytes. Contracts see the dot.
#[derive(Clone, Copy, Debug, PartialEq, Eq, PartialOrd, Ord, Hash)]
pub struct CompactDot {
    site: Site,
    seq: u16,
}

impl Model for CompactDot {
    ghost use Rattle.std.specs.Prelude.{◌≤◌};
    ghost use Rattle.td_base.specs.Value.{DotValue};

    ghost Value = { DotValue };

    ghost view = { λ d. record { site = d.site; seq = d.seq } };

    ghost invariant = { λ d. 1 ≤ d.seq };

    ghost inverse = { λ d. record { site = d.site; seq = d.seq } };
}

impl CompactDot {
    /// The dot, made compact.
    pub fn of(dot: Dot) -> CompactDot
        ensures { result ≡ dot }
    {
        CompactDot {
            site: dot.site,
            seq: dot.seq as u16,
        }
    }

    /// The dot that it stands for.
    pub fn dot(&self) -> Dot
        ensures { result ≡ self.now }
    {
        Dot {
            site: self.site,
            seq: u32::from(self.seq),
        }
    }
}
