ghost use Rattle.std.specs.Prelude.{◌≡◌, IfOk};
ghost use Rattle.td_base.specs.Value.{IsDot};
ghost use Rattle.td_marks.specs.Mark.{is_about};

use std::alloc::Global;
use std::marker::Model;
use td_base::{AtomId, Dot, Memory};
use td_clock::Vector;

/// The number of names that an atom may have. They are the numbers from 0 on.
pub const NAMES: u8 = 32;

/// The greatest number of atoms that one operation names.
pub const MAX_ATOMS: u32 = 64;

/// An operation on marks: a name is added to some atoms, or removed from them. It names them by identity, so that it
/// means the same atoms wherever they stand.
#[derive(Debug, Drop)]
pub struct MarkOp {
    pub dot: Dot,
    /// How many operations on marks of each site its maker had just before.
    pub seen: Vector,
    /// Whether it adds the name; else it removes it.
    pub add: bool,
    pub name: u8,
    pub atoms: Vec<AtomId>,
}

impl Model for MarkOp {
    ghost use Rattle.td_marks.specs.Mark.{MarkOpValue};

    ghost Value = { MarkOpValue };

    ghost view = { λ o. record { dot = o.dot; seen = o.seen; add = o.add; name = o.name; atoms = o.atoms.items } };
}

impl MarkOp {
    // The same operation once more.
    pub(crate) fn copied(&self, alloc: Global) -> Result<MarkOp, Memory>
        ensures copy { IfOk result (λ copy. copy ≡ self.now) }
        ensures range { IsDot self.now.dot }
    {
        let dot = self.dot();
        let mut atoms = Vec::new(alloc);
        atoms.extend_from_slice(&self.atoms)?;
        Ok(MarkOp {
            dot,
            seen: self.seen,
            add: self.add,
            name: self.name,
            atoms,
        })
    }

    // Its dot, whose parts are read, so that their ranges are known.
    pub(crate) fn dot(&self) -> Dot
        ensures dot { result ≡ self.now.dot }
        ensures range { IsDot result }
    {
        let dot = self.dot;
        let _ = (dot.site.number(), dot.seq);
        dot
    }

    // The atoms that it names.
    pub(crate) fn named(&self) -> &[AtomId]
        ensures { result.now ≡ self.now.atoms }
    {
        &self.atoms
    }

    // Whether it adds this name to this atom, or removes it.
    pub(crate) fn is_about(&self, id: AtomId, name: u8) -> bool
        ensures { result ≡ is_about id name self.now }
    {
        self.name == name && self.atoms.contains(&id)
    }
}
