use crate::atom::Atom;
use crate::atom_id::AtomId;
use std::marker::Model;

/// An atom with its identity.
#[derive(Clone, Copy, Debug, PartialEq, Eq)]
pub struct NamedAtom {
    pub id: AtomId,
    pub atom: Atom,
}

impl Model for NamedAtom {
    ghost use Rattle.td_base.specs.RunAtoms.{NamedAtom as NamedAtomValue};

    ghost Value = { NamedAtomValue };

    ghost view = { λ a. record { id = a.id; atom = a.atom } };

    ghost inverse = { λ a. record { id = a.id; atom = a.atom } };
}
