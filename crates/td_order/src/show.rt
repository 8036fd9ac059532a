ghost use Rattle.std.specs.Prelude.{◌≡◌, IfOk};
ghost use Rattle.std.specs.List.{find};
ghost use Rattle.std.specs.Option.{option_copied};
ghost use Rattle.td_op.specs.declared.insertion.Insertion.{Insertion};
ghost use Rattle.td_base.specs.Equality.{same_dot};
ghost use Rattle.td_order.specs.LineUp.{DotsDiffer};
ghost use Rattle.td_order.specs.Show.{atom_in, deletes, is_deleted, show};

use crate::insertions::insertions_of;
use crate::order::order_of;
use std::alloc::Global;
use td_base::{Atom, AtomId, Bytes, Dot, Memory};
use td_op::{Body, Insertion, Op};

/// The text that the operations make: the atoms of `order_of` that no delete among the operations names, joined.
pub fn show_of(alloc: Global, ops: &[Op]) -> Result<Bytes, Memory>
    requires { DotsDiffer ops.now }
    ensures { IfOk result (λ text. text ≡ show ops.now) }
{
    let ids = order_of(alloc, ops)?;
    let insertions = insertions_of(alloc, ops)?;
    let mut text = Bytes::new(alloc);
    for id in ids.as_slice() {
        if !is_deleted(ops, *id) {
            if let Some(atom) = atom_in(&insertions, *id) {
                text.push(atom.bytes())?;
            }
        }
    }
    Ok(text)
}

// Whether one of the operations deletes the atom.
fn is_deleted(ops: &[Op], id: AtomId) -> bool
    ensures { result ≡ is_deleted ops.now id }
{
    ops.iter().any(|op| deletes(op.body_ref(), id))
}

fn deletes(body: &Body, id: AtomId) -> bool
    ensures { result ≡ deletes id body.now }
{
    match *body {
        Body::Delete { target } => target == id,
        Body::Insert { .. } | Body::Propose { .. } => false,
        Body::Commit { .. } | Body::Abort { .. } => false,
    }
}

// The atom with an identity.
fn atom_in(insertions: &[Insertion], id: AtomId) -> Option<Atom>
    ensures { result ≡ atom_in insertions.now id }
{
    let insertion = insertion_with(insertions, id.dot)?;
    insertion.run.atom(id.offset)
}

// The first insertion with a dot.
fn insertion_with(insertions: &[Insertion], dot: Dot) -> Option<&Insertion>
    ensures { option_copied result ≡ find (λ (a : Insertion). same_dot a.dot dot) insertions.now }
{
    insertions.iter().find(|insertion| insertion.dot == dot)
}
