// New rows.
ghost use Rattle.std.specs.Prelude.{◌≡◌, ◌<◌, ◌≤◌, ◌+◌, ◌^◌, ◌++◌, ◌∷◌, [], ℕ, length, map, vec_len, vec_capacity, IsNone, IfOk, OnOk, OnErr, Option};
ghost use Rattle.std.specs.List.{range_with_len};
ghost use Rattle.td_base.specs.Run.{IsRun};
ghost use Rattle.td_path.specs.declared.slot.Slot.{Slot};
ghost use Rattle.td_doc.specs.Document.{find_row};
ghost use Rattle.td_doc.specs.Answers.{IsFresh};
ghost use Rattle.td_tree.specs.declared.kept_state.TheConstants.{MOST_ARRAYS};
ghost use Rattle.td_tree.specs.declared.tree_row.RowState.TheVariants.{InArray};
ghost use Rattle.td_tree.specs.KeptState.{FitsKept};
ghost use Rattle.td_tree.specs.Parts.{doc_rows, IsTree};
ghost use Rattle.td_tree.specs.Places.{IsNewPlace, IsPut, IsRunPut, run_entries, top_id};

use crate::flatten::push_array;
use crate::item_of::{atom_item, close_item, open_item};
use crate::kept_atom::KeptAtom;
use crate::kept_rows::KeptRows;
use crate::kept_state::{KeptState, MOST_ARRAYS};
use crate::new_rows::NewRows;
use crate::tokens::Tokens;
use crate::tree_row::{Array, RowState};
use std::alloc::Global;
use td_base::{Atom, AtomId, Dot, Memory, Run};
use td_list::{put_at, reserve_by_quarter};

// So many rows have numbers.
const MOST_ROWS: usize = 1 << 30;

impl Tokens {
    /// Puts a new row in brackets of its own before a token, or at the end.
    pub fn put_row(&mut self, at: Option<u32>, id: AtomId, atom: &Atom) -> Result<(), Memory>
        requires tree { IsTree self.old }
        requires new { IsNone (find_row id (doc_rows self.old)) }
        requires place { (slot : Slot) × IsNewPlace self.old slot id at }
        ensures ok { OnOk result (IsPut self.old self.new at id atom.now) }
        ensures err { OnErr result (self.new ≡ self.old) }
    {
        make_room(&mut self.rows, &mut self.states, 1)?;
        let atom = KeptAtom::of(self.alloc, atom)?;
        let row = self.rows.len() as u32;
        put_at(
            &mut self.list,
            at,
            &[open_item(row), atom_item(row, 1), close_item(row)],
        )?;
        self.rows.push(id, atom);
        push_state(&mut self.states, RowState::Node);
        self.nodes += 1;
        self.count += 1;
        Ok(())
    }

    /// Puts the rows of an insert's run before a token, or at the end, as the leaf of a new array.
    pub fn put_run(&mut self, at: Option<u32>, dot: Dot, run: &Run) -> Result<(), Memory>
        requires tree { IsTree self.old }
        requires new { IsFresh (doc_rows self.old) dot }
        requires place { (slot : Slot) × IsNewPlace self.old slot (top_id dot run.now) at }
        ensures ok { OnOk result (IsRunPut self.old self.new at dot run.now) }
        ensures err { OnErr result (self.new ≡ self.old) }
    {
        let count = u32::from(run.len());
        make_room(&mut self.rows, &mut self.states, count as usize)?;
        make_array_room(&mut self.arrays)?;
        let first = self.rows.len() as u32;
        let numbers = numbers_from(self.alloc, first, count)?;
        let rows = rows_of_run(self.alloc, &self.rows, dot, run)?;
        put_at(&mut self.list, at, &[atom_item(first + count / 2, count)])?;
        self.rows.append(rows);
        push_states(&mut self.states, self.arrays.len() as u32, count);
        push_array(&mut self.arrays, numbers);
        self.count += count;
        Ok(())
    }
}

// Makes room for so many more rows.
fn make_room(rows: &mut KeptRows, states: &mut Vec<KeptState>, count: usize) -> Result<(), Memory>
    requires { count < 2 ^ 30 }
    ensures rows { rows.new.entries ≡ rows.old.entries }
    ensures states { states.new.items ≡ states.old.items }
    ensures few { OnOk result (length rows.old.entries + count < 2 ^ 30) }
    ensures room { OnOk result (count ≤ rows.new.room) }
    ensures states_room { OnOk result (vec_len states.new + count ≤ vec_capacity states.new) }
{
    if rows.len() >= MOST_ROWS - count {
        return Err(Memory);
    }
    rows.reserve(count)?;
    reserve_by_quarter(states, count)
}

// Makes room for one more array.
fn make_array_room(arrays: &mut Vec<Array>) -> Result<(), Memory>
    ensures arrays { arrays.new.items ≡ arrays.old.items }
    ensures few { OnOk result (length arrays.old.items < MOST_ARRAYS) }
    ensures room { OnOk result (vec_len arrays.new < vec_capacity arrays.new) }
{
    if arrays.len() >= MOST_ARRAYS as usize {
        return Err(Memory);
    }
    reserve_by_quarter(arrays, 1)
}

// So many numbers, from the first on.
fn numbers_from(alloc: Global, first: u32, count: u32) -> Result<Vec<u32>, Memory>
    requires { first + count < 2 ^ 32 }
    ensures { IfOk result (λ numbers. numbers.items ≡ range_with_len first count) }
{
    Ok((first..first + count).collect::<Vec<u32>>(alloc)?)
}

// The rows of an insert's run, which are to come behind others.
fn rows_of_run(alloc: Global, rows: &KeptRows, dot: Dot, run: &Run) -> Result<NewRows, Memory>
    requires run { IsRun run.now }
    requires room { length run.now ≤ rows.now.room }
    ensures rows { IfOk result (λ more. more.entries ≡ run_entries dot 0 run.now) }
    ensures first { IfOk result (λ more. more.first ≡ rows.now.long) }
{
    let mut more = rows.to_come(alloc, run.len() as usize)?;
    for (offset, atom) in run.iter().enumerate() {
        let id = AtomId {
            dot,
            offset: offset as u8,
        };
        let atom = KeptAtom::of(alloc, &atom)?;
        more.push(id, atom);
    }
    Ok(more)
}

// Adds the states of the rows of an array, in the room that there is.
fn push_states(states: &mut Vec<KeptState>, array: u32, count: u32)
    requires array { array < MOST_ARRAYS }
    requires room { vec_len states.old + count ≤ vec_capacity states.old }
    ensures { states.new.items ≡ states.old.items ++ map (InArray array) (range_with_len 0 count) }
{
    for index in 0..count {
        push_state(states, RowState::InArray { array, index });
    }
}

// Adds where a row is, in the room that there is.
fn push_state(states: &mut Vec<KeptState>, state: RowState)
    requires fits { FitsKept state }
    requires room { vec_len states.old < vec_capacity states.old }
    ensures state { states.new.items ≡ states.old.items ++ state ∷ [] }
    ensures room { vec_capacity states.old ≤ vec_capacity states.new }
    ensures long { vec_len states.new ≡ vec_len states.old + 1 }
{
    states.push(KeptState::of(state)).unwrap();
}
