// The rows of a tree by number, in little room.
ghost use Rattle.std.specs.Prelude.{◌≡◌, ◌<◌, ◌≤◌, ◌+◌, ◌++◌, ◌∷◌, [], ℕ, length, set, get_or, slice_get, IfOk, OnOk, OnErr, Some, None};
ghost use Rattle.std.specs.List.{list_all};
ghost use Rattle.td_base.specs.Atom.{IsAtom};
ghost use Rattle.td_clock.specs.Vector.{vector_has};
ghost use Rattle.td_doc.specs.Deletion.{add_dot};
ghost use Rattle.td_tree.specs.Deletes.{first_dots};
ghost use Rattle.td_tree.specs.KeptRows.{several_at, deletes_of};
ghost use Rattle.td_tree.specs.Parts.{nobody};

use crate::deletes::Deletes;
use crate::first_delete::FirstDelete;
use crate::kept_atom::KeptAtom;
use crate::new_rows::NewRows;
use crate::row_atom::{MOST_LONG, RowAtom};
use crate::tree_row::TreeRow;
use std::alloc::Global;
use std::collections::BTreeMap;
use std::marker::Model;
use td_base::{AtomId, Dot, Memory};
use td_clock::Vector;
use td_list::reserve_by_quarter;

/// Rows by number, in 12 bytes each: most have a short atom and are deleted once at most, and longer atoms and the
/// deletes of the others are kept beside them. Contracts see each row with its atom and deletes, and for how many more
/// there is room, whatever their atoms are.
#[derive(Drop)]
pub struct KeptRows {
    rows: Vec<TreeRow>,
    // the atoms that are too long for their rows, by number
    long: Vec<KeptAtom>,
    // all deletes of the rows that more than one named, by the number of the row
    several: BTreeMap<u32, Deletes>,
}

impl Model for KeptRows {
    ghost use Rattle.std.specs.Prelude.{◌-◌, length, min, vec_capacity};
    ghost use Rattle.td_tree.specs.KeptRows.{Column, several_at, entries_from, IsColumn};
    ghost use Rattle.td_tree.specs.declared.row_atom.TheConstants.{MOST_LONG};

    ghost Value = { Column };

    ghost view = { λ k. record {
      entries = entries_from 0 k.long.items (several_at k.several) 0 k.rows.items;
      long = length k.long.items;
      room = min (vec_capacity k.rows - length k.rows.items)
          (min (vec_capacity k.long) MOST_LONG - length k.long.items);
    } };

    ghost invariant = { λ k. IsColumn 0 k.rows.items k.long.items (several_at k.several) };
}

impl KeptRows {
    /// No rows. Takes no memory.
    pub fn new(alloc: Global) -> KeptRows
        ensures { result.entries ≡ [] }
    {
        KeptRows {
            rows: Vec::new(alloc),
            long: Vec::new(alloc),
            several: BTreeMap::new(alloc),
        }
    }

    /// How many there are.
    pub fn len(&self) -> usize
        ensures { result ≡ length self.now.entries }
    {
        self.rows.len()
    }

    /// The identity of a row.
    pub fn id(&self, row: u32) -> AtomId
        requires { row < length self.now.entries }
        ensures { result ≡ (get_or self.now.entries row nobody.entry).id }
    {
        self.rows[row as usize].id.id()
    }

    /// The bytes of the atom of a row.
    pub fn atom_bytes(&self, row: u32) -> &[u8]
        requires { row < length self.now.entries }
        ensures bytes { result.now ≡ (get_or self.now.entries row nobody.entry).atom }
        ensures atom { IsAtom result.now }
    {
        self.rows[row as usize].atom.bytes(&self.long)
    }

    /// How many deletes named a row.
    pub fn delete_count(&self, row: u32) -> u32
        requires { row < length self.now.entries }
        ensures { result ≡ length (get_or self.now.entries row nobody.entry).deletes }
    {
        let first = &self.rows[row as usize].deleted;
        count_of(&self.several, first, row)
    }

    /// The k-th dot of the deletes that named a row, from 0.
    pub fn delete_dot(&self, row: u32, k: u32) -> Option<Dot>
        requires { row < length self.now.entries }
        ensures { result ≡ slice_get (get_or self.now.entries row nobody.entry).deletes k }
    {
        let first = &self.rows[row as usize].deleted;
        dot_of(&self.several, first, row, k)
    }

    /// Whether the vector has the dots of all deletes that named a row.
    pub fn are_deletes_known(&self, row: u32, v: &Vector) -> bool
        requires { row < length self.now.entries }
        ensures { result ≡ list_all (vector_has v.now) (get_or self.now.entries row nobody.entry).deletes }
    {
        let first = &self.rows[row as usize].deleted;
        are_dots_known(&self.several, first, row, v)
    }

    /// Adds the dot of a delete to a row, unless it is there. Only a second one takes memory.
    pub fn add_delete(&mut self, alloc: Global, row: u32, by: Dot) -> Result<(), Memory>
        requires { row < length self.old.entries }
        ensures ok { OnOk result (self.new.entries ≡ set self.old.entries row
            (record (get_or self.old.entries row nobody.entry) {
              deletes = add_dot by (get_or self.old.entries row nobody.entry).deletes;
            })) }
        ensures err { OnErr result (self.new.entries ≡ self.old.entries) }
    {
        let first = &mut self.rows[row as usize].deleted;
        add_dot_of(alloc, &mut self.several, first, row, by)
    }

    /// Makes room for so many more.
    pub fn reserve(&mut self, count: usize) -> Result<(), Memory>
        ensures entries { self.new.entries ≡ self.old.entries }
        ensures room { OnOk result (count ≤ self.new.room) }
    {
        if count > MOST_LONG - self.long.len() {
            return Err(Memory);
        }
        reserve_by_quarter(&mut self.rows, count)?;
        reserve_by_quarter(&mut self.long, count)
    }

    /// Adds a live row, in the room that there is.
    pub fn push(&mut self, id: AtomId, atom: KeptAtom)
        requires { 0 < self.old.room }
        ensures row { self.new.entries
            ≡ self.old.entries ++ record { id = id; atom = atom; deletes = [] } ∷ [] }
        ensures long { length self.new.entries ≡ length self.old.entries + 1 }
    {
        let atom = RowAtom::placed(0, &mut self.long, atom);
        self.rows.push(TreeRow::new(id, atom)).unwrap();
    }

    /// Rows that are to come behind them, none as yet, and room for so many.
    pub fn to_come(&self, alloc: Global, count: usize) -> Result<NewRows, Memory>
        requires { count ≤ self.now.room }
        ensures rows { IfOk result (λ new. new.entries ≡ []) }
        ensures first { IfOk result (λ new. new.first ≡ self.now.long) }
        ensures room { IfOk result (λ new. count ≤ new.room) }
    {
        NewRows::new(alloc, self.long.len() as u32, count)
    }

    /// Adds rows that were to come behind them, in the room that there is.
    pub fn append(&mut self, mut more: NewRows)
        requires first { more.first ≡ self.old.long }
        requires room { length more.entries ≤ self.old.room }
        ensures { self.new.entries ≡ self.old.entries ++ more.entries }
    {
        self.rows.append(&mut more.rows).unwrap();
        self.long.append(&mut more.long).unwrap();
    }
}

// How many deletes a row has, of which this is the first.
fn count_of(several: &BTreeMap<u32, Deletes>, first: &FirstDelete, row: u32) -> u32
    ensures { result ≡ length (deletes_of (several_at several.now row) first.now) }
{
    match several.get(&row) {
        Some(deletes) => deletes.len(),
        None => first.len(),
    }
}

// The k-th of them.
fn dot_of(several: &BTreeMap<u32, Deletes>, first: &FirstDelete, row: u32, k: u32) -> Option<Dot>
    ensures { result ≡ slice_get (deletes_of (several_at several.now row) first.now) k }
{
    match several.get(&row) {
        Some(deletes) => deletes.get(k),
        None => first.get(k),
    }
}

// Whether the vector has all of them.
fn are_dots_known(
    several: &BTreeMap<u32, Deletes>,
    first: &FirstDelete,
    row: u32,
    v: &Vector,
) -> bool
    ensures { result ≡ list_all (vector_has v.now) (deletes_of (several_at several.now row) first.now) }
{
    match several.get(&row) {
        Some(deletes) => deletes.are_known(v),
        None => first.is_known(v),
    }
}

// Adds a dot to those of a row, unless it is there.
fn add_dot_of(
    alloc: Global,
    several: &mut BTreeMap<u32, Deletes>,
    first: &mut FirstDelete,
    row: u32,
    by: Dot,
) -> Result<(), Memory>
    ensures row { OnOk result (deletes_of (several_at several.new row) first.new
        ≡ add_dot by (deletes_of (several_at several.old row) first.old)) }
    ensures others { (r : ℕ) → (r ≡ row → ⊥) → several_at several.new r ≡ several_at several.old r }
    ensures err { OnErr result (deletes_of (several_at several.new row) first.new
        ≡ deletes_of (several_at several.old row) first.old) }
{
    match several.get_mut(&row) {
        Some(deletes) => deletes.add(by),
        None => add_to_first(alloc, several, first, row, by),
    }
}

// The same of a row that has nothing beside it.
fn add_to_first(
    alloc: Global,
    several: &mut BTreeMap<u32, Deletes>,
    first: &mut FirstDelete,
    row: u32,
    by: Dot,
) -> Result<(), Memory>
    requires { several_at several.old row ≡ None }
    ensures row { OnOk result (deletes_of (several_at several.new row) first.new
        ≡ add_dot by (first_dots first.old)) }
    ensures others { (r : ℕ) → (r ≡ row → ⊥) → several_at several.new r ≡ several_at several.old r }
    ensures err { OnErr result (deletes_of (several_at several.new row) first.new ≡ first_dots first.old) }
{
    match first.dot() {
        None => {
            *first = FirstDelete::of(by);
            Ok(())
        }
        Some(dot) => add_second(alloc, several, dot, row, by),
    }
}

// The same of a row that one dot named.
fn add_second(
    alloc: Global,
    several: &mut BTreeMap<u32, Deletes>,
    dot: Dot,
    row: u32,
    by: Dot,
) -> Result<(), Memory>
    requires { several_at several.old row ≡ None }
    ensures row { OnOk result (deletes_of (several_at several.new row) (Some dot) ≡ add_dot by (dot ∷ [])) }
    ensures others { (r : ℕ) → (r ≡ row → ⊥) → several_at several.new r ≡ several_at several.old r }
    ensures err { OnErr result (several_at several.new row ≡ None) }
{
    if dot == by {
        return Ok(());
    }
    let deletes = Deletes::two(alloc, dot, by)?;
    several.insert(row, deletes)?;
    Ok(())
}
