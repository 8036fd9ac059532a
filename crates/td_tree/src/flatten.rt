// A slot made one leaf.
ghost use Rattle.std.specs.Prelude.{◌≡◌, ◌≢◌, ◌⊎◌, ◌<◌, ◌≤◌, ◌+◌, ◌^◌, ◌++◌, ◌∷◌, [], ℕ, length, get_or, vec_len, vec_capacity, IfOk, OnOk, OnErr, IsTrue, Option, Some, None};
ghost use Rattle.std.specs.Option.{ForSome};
ghost use Rattle.td_path.specs.declared.slot.Slot.{Slot};
ghost use Rattle.td_path.specs.declared.slot.Slot.TheVariants.{Root, At};
ghost use Rattle.td_list.specs.Items.{IsItem, AreNew, items_before, items_from_end, first_name, place_of, replace, weight_of};
ghost use Rattle.td_tree.specs.declared.tree_row.RowState.TheVariants.{Node};
ghost use Rattle.td_tree.specs.Parts.{state_at, table, tokens_of, nodes_of, IsTree, IsFlattened, AreInLast, IsSameTree};
ghost use Rattle.td_tree.specs.Stretches.{leaf_of, IsOneLeaf, IsSlotItems, IsSlotStretch};
ghost use Rattle.td_tree.specs.Walks.{IsStretch};

use crate::item_of::atom_item;
use crate::kept_state::MOST_ARRAYS;
use crate::side::{side_end, side_start};
use crate::states::{bury, gather};
use crate::tokens::Tokens;
use crate::tree_row::{Array, RowState};
use std::alloc::Global;
use td_base::{Bit, Memory};
use td_list::{List, Sequence, reserve_by_quarter};

impl Tokens {
    /// Makes one leaf of the live rows of the root slot, and drops its tombstones.
    pub fn flatten_root(&mut self) -> Result<(), Memory>
        requires { IsTree self.old }
        ensures ok { OnOk result (IsFlattened self.old self.new Root) }
        ensures none { OnOk result (self.new.nodes ≡ 0) }
        ensures err { OnErr result (self.new ≡ self.old) }
    {
        let first = self.first();
        if self.flatten_stretch(first, None)? {
            self.give_arrays_back();
        }
        Ok(())
    }

    // Gives all arrays back but the last, in which alone rows stand.
    fn give_arrays_back(&mut self)
        requires tree { IsTree self.old }
        requires last { AreInLast self.old }
        ensures { IsSameTree self.old self.new }
    {
        let last = self.arrays.len().saturating_sub(1);
        empty(self.alloc, &mut self.arrays, self.given_back, last);
        self.given_back = last;
    }

    /// Makes one leaf of the live rows on a side of a node, and drops its tombstones.
    pub fn flatten_side(&mut self, row: u32, bit: Bit) -> Result<(), Memory>
        requires tree { IsTree self.old }
        requires row { row < length self.old.rows }
        requires node { state_at self.old row ≡ Node }
        ensures ok { OnOk result (IsFlattened self.old self.new (At (table self.old row).id bit)) }
        ensures err { OnErr result (self.new ≡ self.old) }
    {
        let first = self.next(side_start(row, bit));
        self.flatten_stretch(first, Some(side_end(row, bit)))?;
        Ok(())
    }

    // The same for the tokens of a slot, from one on up to an end. Whether that changed them.
    fn flatten_stretch(&mut self, first: Option<u32>, end: Option<u32>) -> Result<bool, Memory>
        requires tree { IsTree self.old }
        requires items { (slot : Slot) × IsSlotItems self.old slot first end }
        ensures ok { OnOk result ((slot : Slot) → IsSlotItems self.old slot first end
            → IsFlattened self.old self.new slot) }
        ensures nodes { OnOk result ((s : IsStretch self.old first end)
            → self.new.nodes + nodes_of (tokens_of self.old s.inner) ≡ self.old.nodes) }
        ensures last { IfOk result (λ changed. IsTrue changed → first ≡ first_name self.old.items → end ≡ None
            → AreInLast self.new) }
        ensures err { OnErr result (self.new ≡ self.old) }
    {
        if first == end {
            return Ok(false);
        }
        match first {
            Some(name) => self.flatten_between(name, end),
            None => Ok(false),
        }
    }

    // The same where there are some, from a token on up to another or to the end. One leaf is left as it is.
    fn flatten_between(&mut self, first: u32, end: Option<u32>) -> Result<bool, Memory>
        requires tree { IsTree self.old }
        requires stretch { (slot : Slot) × IsSlotStretch self.old slot first end }
        ensures ok { OnOk result ((slot : Slot) → IsSlotStretch self.old slot first end
            → IsFlattened self.old self.new slot) }
        ensures nodes { OnOk result ((s : IsStretch self.old (Some first) end)
            → self.new.nodes + nodes_of (tokens_of self.old s.inner) ≡ self.old.nodes) }
        ensures last { IfOk result (λ changed. IsTrue changed → items_before first self.old.items ≡ [] → end ≡ None
            → AreInLast self.new) }
        ensures err { OnErr result (self.new ≡ self.old) }
    {
        if self.is_one_leaf(first, end) {
            return Ok(false);
        }
        let found = self.found_in(Some(first), end)?;
        if self.arrays.len() >= MOST_ARRAYS as usize {
            return Err(Memory);
        }
        reserve_by_quarter(&mut self.arrays, 1)?;
        put_leaf(&mut self.list, first, end, &found.live)?;
        bury(&mut self.states, &found.nodes);
        gather(&mut self.states, self.arrays.len() as u32, &found.live);
        self.nodes -= found.nodes.len() as u32;
        self.count -= found.dead;
        push_array(&mut self.arrays, found.live);
        Ok(true)
    }

    // Whether the tokens from one on up to an end are one leaf.
    fn is_one_leaf(&self, first: u32, end: Option<u32>) -> bool
        requires tree { IsTree self.now }
        requires first { IsItem first self.now.items }
        ensures { IsTrue result → IsOneLeaf self.now first end }
    {
        first % 3 == 1 && self.state(first / 3) != RowState::Node && self.next(first) == end
    }
}

// Puts the leaf of some rows in place of a stretch.
fn put_leaf(list: &mut List, first: u32, end: Option<u32>, live: &[u32]) -> Result<(), Memory>
    requires known { (k : ℕ) → k < length live.now → get_or live.now k 0 < 2 ^ 30 }
    requires few { length live.now ≤ 2 ^ 30 }
    requires first { IsItem first list.old }
    requires end { ForSome end (λ x. IsItem x list.old × (place_of first list.old ≤ place_of x list.old)) }
    requires new { AreNew (leaf_of live.now) (items_before first list.old ++ items_from_end end list.old) }
    requires light { weight_of list.old + length live.now < 2 ^ 31 }
    ensures ok { OnOk result (list.new ≡ replace first end (leaf_of live.now) list.old) }
    ensures err { OnErr result (list.new ≡ list.old) }
{
    if live.is_empty() {
        list.replace(first, end, &[])?;
        return Ok(());
    }
    let top = atom_item(live[live.len() / 2], live.len() as u32);
    list.replace(first, end, &[top])?;
    Ok(())
}

/// Adds an array, in the room that there is.
pub fn push_array(arrays: &mut Vec<Array>, rows: Vec<u32>)
    requires { vec_len arrays.old < vec_capacity arrays.old }
    ensures { arrays.new.items ≡ arrays.old.items ++ rows.items ∷ [] }
{
    arrays.push(Array { rows }).unwrap();
}

// Empties the arrays from one on up to another.
fn empty(alloc: Global, arrays: &mut Vec<Array>, from: usize, to: usize)
    requires { to ≤ length arrays.old.items }
    ensures long { length arrays.new.items ≡ length arrays.old.items }
    ensures each { (a : ℕ) → (get_or arrays.new.items a [] ≡ get_or arrays.old.items a [])
        ⊎ ((a < to) × (get_or arrays.new.items a [] ≡ [])) }
{
    for k in from..to {
        arrays[k].rows = Vec::new(alloc);
    }
}
