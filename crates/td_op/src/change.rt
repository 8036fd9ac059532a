ghost use Rattle.std.specs.Prelude.{◌≡◌, ◌≤◌, ◌+◌, ◌++◌, length, vec_len, vec_capacity};
ghost use Rattle.std.specs.List.{insert_slice};
ghost use Rattle.td_op.specs.Change.{changed, put_count, CanChange};

use td_base::{Atom, Run};

/// A change of the list of live atoms. An index counts them from 0.
#[derive(Clone, Copy, Debug, PartialEq, Eq)]
pub enum Change {
    /// Puts the atom at the index.
    Put { index: u32, atom: Atom },
    /// Puts all atoms of the run, in order, at the index.
    PutRun { index: u32, run: Run },
    /// Takes the atom at the index away.
    Cut { index: u32 },
}

impl Change {
    /// Does the change to the list, in the room that the list has.
    pub fn apply(&self, atoms: &mut Vec<Atom>)
        requires range { CanChange self.now atoms.old.items }
        requires room { vec_len atoms.old + put_count self.now ≤ vec_capacity atoms.old }
        ensures atoms { atoms.new.items ≡ changed self.now atoms.old.items }
        ensures capacity { vec_capacity atoms.old ≤ vec_capacity atoms.new }
    {
        match *self {
            Change::Put { index, atom } => atoms.insert(index as usize, atom).unwrap(),
            Change::PutRun { index, run } => put_run(atoms, index as usize, &run),
            Change::Cut { index } => {
                atoms.remove(index as usize);
            }
        }
    }
}

// Puts the atoms of the run at the end, and turns them in front of what stood from the index on: one shift for the
// whole run.
fn put_run(atoms: &mut Vec<Atom>, index: usize, run: &Run)
    requires range { index ≤ length atoms.old.items }
    requires room { vec_len atoms.old + length run.now ≤ vec_capacity atoms.old }
    ensures atoms { atoms.new.items ≡ insert_slice atoms.old.items index run.now }
    ensures capacity { vec_capacity atoms.old ≤ vec_capacity atoms.new }
{
    push_run(atoms, run);
    atoms[index..].rotate_right(run.len() as usize);
}

// Adds the atoms of the run at the end.
fn push_run(atoms: &mut Vec<Atom>, run: &Run)
    requires { vec_len atoms.old + length run.now ≤ vec_capacity atoms.old }
    ensures atoms { atoms.new.items ≡ atoms.old.items ++ run.now }
    ensures len { vec_len atoms.new ≡ vec_len atoms.old + length run.now }
    ensures capacity { vec_capacity atoms.old ≤ vec_capacity atoms.new }
{
    for atom in run.iter() {
        atoms.push(atom).unwrap();
    }
}
