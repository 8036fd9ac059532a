// Arrays of atoms, made as rows with whole paths.
ghost use Rattle.std.specs.Prelude.{◌≡◌, ◌<◌, ◌∷◌, ◌++◌, [], length, IfOk, slice_get, Some};
ghost use Rattle.td_base.specs.Value.{AtomIdValue};
ghost use Rattle.td_path.specs.SlotPaths.{path_in};
ghost use Rattle.td_doc.specs.Array.{array};
ghost use Rattle.td_base.specs.RunAtoms.{run_atoms};

use crate::path_row::PathRow;
use std::alloc::Global;
use std::cmp::Ordering;
use td_base::{AtomId, Bit, Dot, Memory, NamedAtom, Run};
use td_path::{Path, SlotPath};

/// The rows of the array of these atoms in the slot (the "explode" of Preguiça et al. 2009).
pub fn array(alloc: Global, slot: &SlotPath, atoms: &[NamedAtom]) -> Result<Vec<PathRow>, Memory>
    ensures { IfOk result (λ rows. rows.items ≡ array slot.now atoms.now) }
{
    let mut rows = Vec::with_capacity(alloc, atoms.len())?;
    for place in 0..atoms.len() {
        rows.push(array_row(alloc, slot, atoms, place)?)?;
    }
    Ok(rows)
}

// One row of the array. The way to it goes down from the top node: at each node the atoms on the other side fall away.
fn array_row(
    alloc: Global,
    slot: &SlotPath,
    atoms: &[NamedAtom],
    place: usize,
) -> Result<PathRow, Memory>
    requires { place < length atoms.now }
    ensures { IfOk result (λ row. slice_get (array slot.now atoms.now) place ≡ Some row) }
{
    let (mut path, mut bit) = front_of(alloc, slot)?;
    let mut rest = atoms;
    let mut left = place;
    loop {
        let middle = rest.len() / 2;
        let node = &rest[middle];
        path.push(bit, node.id)?;
        match left.cmp(&middle) {
            Ordering::Less => {
                rest = &rest[..middle];
                bit = Bit::Left;
            }
            Ordering::Equal => return Ok(PathRow::new(alloc, path, node.atom)),
            Ordering::Greater => {
                rest = &rest[middle + 1..];
                left -= middle + 1;
                bit = Bit::Right;
            }
        }
    }
}

// The node below which the slot is, and the side.
fn front_of(alloc: Global, slot: &SlotPath) -> Result<(Path, Bit), Memory>
    ensures { IfOk result (λ front. (id : AtomIdValue) → path_in slot.now id ≡ front.0 ++ (front.1, id) ∷ []) }
{
    match slot {
        SlotPath::Root => Ok((Path::new(alloc), Bit::Right)),
        SlotPath::Below { path, bit } => Ok((path.try_clone()?, *bit)),
    }
}

/// The atoms of an insert: those of its run, with its dot and their places as identities.
pub fn run_atoms(alloc: Global, dot: Dot, run: &Run) -> Result<Vec<NamedAtom>, Memory>
    ensures { IfOk result (λ atoms. atoms.items ≡ run_atoms dot run.now) }
{
    let mut atoms = Vec::with_capacity(alloc, run.len() as usize)?;
    for (offset, atom) in run.iter().enumerate() {
        let id = AtomId {
            dot,
            offset: offset as u8,
        };
        atoms.push(NamedAtom { id, atom })?;
    }
    Ok(atoms)
}
