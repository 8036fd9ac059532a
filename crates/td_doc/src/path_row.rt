ghost use Rattle.std.specs.Prelude.{◌≡◌, ◌≢◌, [], OnErr, OnOk};
ghost use Rattle.td_doc.specs.Document.{has_id, is_live, row_id};
ghost use Rattle.td_doc.specs.Slots.{is_known_row, own_slot};
ghost use Rattle.td_doc.specs.Array.{named};
ghost use Rattle.td_doc.specs.Deletion.{add_dot};

use crate::dots::{add_dot, has_all};
use std::alloc::Global;
use std::marker::Model;
use td_base::{Atom, AtomId, Dot, Memory, NamedAtom};
use td_clock::Vector;
use td_path::{Path, Slot};

/// A row with its whole path. Contracts see the row.
#[derive(Debug, Drop)]
pub struct PathRow {
    pub path: Path,
    pub atom: Atom,
    pub deletes: Vec<Dot>,
}

impl Model for PathRow {
    ghost use Rattle.std.specs.Prelude.{◌≢◌, ◌<◌, ◌^◌, [], length};
    ghost use Rattle.td_doc.specs.Document.{DocRow};

    ghost Value = { DocRow };

    ghost view = { λ r. record { path = r.path; atom = r.atom; deletes = r.deletes.items } };

    ghost invariant = { λ r. (r.path ≢ []) × (length r.deletes.items < 2 ^ 32) };
}

impl PathRow {
    /// A live row that ends at the path.
    pub fn new(alloc: Global, path: Path, atom: Atom) -> PathRow
        requires { path ≢ [] }
        ensures { result ≡ record { path = path; atom = atom; deletes = [] } }
    {
        PathRow {
            path,
            atom,
            deletes: Vec::new(alloc),
        }
    }

    /// The identity of its last pair.
    pub fn id(&self) -> AtomId
        ensures { result ≡ row_id self.now }
    {
        let pairs = self.path.as_slice();
        pairs[pairs.len() - 1].1
    }

    /// Whether that is this one.
    pub fn has_id(&self, id: AtomId) -> bool
        ensures { result ≡ has_id id self.now }
    {
        self.id() == id
    }

    /// Whether no delete named it.
    pub fn is_live(&self) -> bool
        ensures { result ≡ is_live self.now }
    {
        self.deletes.is_empty()
    }

    /// The atom of the row, with its identity.
    pub fn named(&self) -> NamedAtom
        ensures { result ≡ named self.now }
    {
        NamedAtom {
            id: self.id(),
            atom: self.atom,
        }
    }

    /// Whether the vector has the dot of the row's identity and its delete dots.
    pub fn is_known(&self, v: &Vector) -> bool
        ensures { result ≡ is_known_row v.now self.now }
    {
        v.has(self.id().dot) && has_all(v, &self.deletes)
    }

    /// Adds the dot of a delete, unless it is there.
    pub fn add_delete(&mut self, by: Dot) -> Result<(), Memory>
        ensures ok { OnOk result (self.new ≡ record self.old { deletes = add_dot by self.old.deletes }) }
        ensures path { self.new.path ≡ self.old.path }
        ensures err { OnErr result (self.new ≡ self.old) }
    {
        add_dot(&mut self.deletes, by)
    }

    /// The slot in which the row stands.
    pub fn own_slot(&self) -> Slot
        ensures { result ≡ own_slot self.now }
    {
        match self.path.as_slice() {
            [.., parent, last] => Slot::At {
                atom: parent.1,
                bit: last.0,
            },
            _ => Slot::Root,
        }
    }
}
