ghost use Rattle.std.specs.Prelude.{◌≡◌};

use std::marker::Model;
use td_base::{AtomId, Dot, Site};

/// The identity of an atom in 4 bytes. Contracts see the identity.
#[derive(Clone, Copy, Debug, PartialEq, Eq, Hash)]
pub struct CompactId {
    // of the dot; the number stands first, so that there is no gap
    seq: u16,
    site: Site,
    offset: u8,
}

impl Model for CompactId {
    ghost use Rattle.std.specs.Prelude.{◌≤◌};
    ghost use Rattle.td_base.specs.Value.{AtomIdValue};
    ghost use Rattle.td_base.specs.declared.atom_id.TheConstants.{MAX_OFFSET};

    ghost Value = { AtomIdValue };

    ghost view = { λ x. record { dot = record { site = x.site; seq = x.seq }; offset = x.offset } };

    ghost invariant = { λ x. (1 ≤ x.seq) × (x.offset ≤ MAX_OFFSET) };

    ghost inverse = { λ x. record { seq = x.dot.seq; site = x.dot.site; offset = x.offset } };
}

impl CompactId {
    /// The identity, made compact.
    pub fn of(id: AtomId) -> CompactId
        ensures { result ≡ id }
    {
        let AtomId { dot, offset } = id;
        CompactId {
            seq: dot.seq as u16,
            site: dot.site,
            offset,
        }
    }

    /// The identity that it stands for.
    pub fn id(&self) -> AtomId
        ensures { result ≡ self.now }
    {
        let dot = Dot {
            site: self.site,
            seq: u32::from(self.seq),
        };
        AtomId {
            dot,
            offset: self.offset,
        }
    }
}
