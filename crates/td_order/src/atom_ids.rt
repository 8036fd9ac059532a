ghost use Rattle.std.specs.Prelude.{◌≡◌};

use std::marker::Model;
use td_base::AtomId;

/// A list of identities of atoms.
#[derive(Debug, Drop)]
pub struct AtomIds {
    items: Vec<AtomId>,
}

impl Model for AtomIds {
    ghost use Rattle.std.specs.Prelude.{List};
    ghost use Rattle.td_base.specs.Value.{AtomIdValue};

    ghost Value = { List AtomIdValue };

    ghost view = { λ ids. ids.items.items };
}

impl AtomIds {
    /// The list of these. Takes no memory.
    pub fn new(items: Vec<AtomId>) -> AtomIds
        ensures { result ≡ items.items }
    {
        AtomIds { items }
    }

    /// The identities in order.
    pub fn as_slice(&self) -> &[AtomId]
        ensures { result.now ≡ self.now }
    {
        &self.items
    }

    /// Gives the list back as it was made. Takes no memory.
    pub fn into_vec(self) -> Vec<AtomId>
        ensures { result.items ≡ self }
    {
        self.items
    }
}
