ghost use Rattle.std.specs.Prelude.{◌≡◌, IfOk};
ghost use Rattle.td_op.specs.Insertion.{ids_of, insertion_of};

use crate::body::Body;
use crate::op::Op;
use std::alloc::Global;
use td_base::{AtomId, Dot, Memory, Run};
use td_clock::Vector;
use td_path::Slot;

/// An operation that puts the atoms of a run into a slot.
#[derive(Clone, Copy, Debug, PartialEq, Eq)]
pub struct Insertion {
    pub dot: Dot,
    /// The operations that were known where it was made.
    pub deps: Vector,
    pub slot: Slot,
    pub run: Run,
}

impl Insertion {
    /// The operation as an insertion, where it is one.
    pub fn of(op: &Op) -> Option<Insertion>
        ensures { result ≡ insertion_of op.now }
    {
        match *op.body_ref() {
            Body::Insert { slot, run } => Some(Insertion {
                dot: op.dot(),
                deps: *op.deps(),
                slot,
                run,
            }),
            Body::Delete { .. } | Body::Propose { .. } => None,
            Body::Commit { .. } | Body::Abort { .. } => None,
        }
    }

    /// The identities of its atoms, in their order.
    pub fn ids(&self, alloc: Global) -> Result<Vec<AtomId>, Memory>
        ensures { IfOk result (λ ids. ids.items ≡ ids_of self.now) }
    {
        let mut ids = Vec::new(alloc);
        for offset in 0..self.run.len() {
            if let Some(id) = AtomId::new(self.dot, offset) {
                ids.push(id)?;
            }
        }
        Ok(ids)
    }
}
