// The tokens of a document, with the rows and arrays that they stand for.
ghost use Rattle.std.specs.Prelude.{◌≡◌, ◌<◌, ◌≤◌, ◌^◌, [], length, slice_get, IfOk};
ghost use Rattle.std.specs.List.{list_all};
ghost use Rattle.td_base.specs.Atom.{IsAtom};
ghost use Rattle.td_clock.specs.Vector.{vector_has};
ghost use Rattle.td_list.specs.Items.{IsItem, items_after, first_name};
ghost use Rattle.td_tree.specs.Parts.{state_at, table, doc_rows, nodes_of, tokens, IsTree};

use crate::kept_rows::KeptRows;
use crate::kept_state::KeptState;
use crate::tree_row::{Array, RowState};
use std::alloc::Global;
use std::marker::Model;
use td_base::{AtomId, Dot, Memory};
use td_clock::Vector;
use td_list::{List, Sequence};

/// The parts of a tree.
#[derive(Drop)]
pub struct Tokens {
    // the tokens in their order, named by their rows
    pub(crate) list: List,
    // by number, in the order in which they came
    pub(crate) rows: KeptRows,
    // where each of them is, by number too: a flatten reads this of each row, and of most no more
    pub(crate) states: Vec<KeptState>,
    pub(crate) arrays: Vec<Array>,
    // how many rows have brackets
    pub(crate) nodes: u32,
    // how many rows the document has
    pub(crate) count: u32,
    // so many of the first arrays were given back
    pub(crate) given_back: usize,
    pub(crate) alloc: Global,
}

impl Model for Tokens {
    ghost use Rattle.std.specs.Prelude.{◌≡◌, length};
    ghost use Rattle.td_tree.specs.Parts.{Parts, rows_with};

    ghost Value = { Parts };

    ghost view = { λ t. record {
      items = t.list;
      rows = rows_with t.rows.entries t.states.items;
      arrays = t.arrays.items;
      nodes = t.nodes;
      count = t.count;
    } };

    ghost invariant = { λ t. length t.rows.entries ≡ length t.states.items };
}

impl Tokens {
    /// No tokens.
    pub fn empty(alloc: Global) -> Result<Tokens, Memory>
        ensures { IfOk result (λ tokens. IsTree tokens × (tokens.rows ≡ []) × (doc_rows tokens ≡ [])) }
    {
        Ok(Tokens {
            list: List::empty(alloc)?,
            rows: KeptRows::new(alloc),
            states: Vec::new(alloc),
            arrays: Vec::new(alloc),
            nodes: 0,
            count: 0,
            given_back: 0,
            alloc,
        })
    }

    /// Where a row is.
    pub fn state(&self, row: u32) -> RowState
        requires { row < length self.now.rows }
        ensures { result ≡ state_at self.now row }
    {
        self.states[row as usize].state()
    }

    /// The identity of a row.
    pub fn id(&self, row: u32) -> AtomId
        requires { row < length self.now.rows }
        ensures { result ≡ (table self.now row).id }
    {
        self.rows.id(row)
    }

    /// The bytes of the atom of a row.
    pub fn atom_bytes(&self, row: u32) -> &[u8]
        requires { row < length self.now.rows }
        ensures bytes { result.now ≡ (table self.now row).atom }
        ensures atom { IsAtom result.now }
    {
        self.rows.atom_bytes(row)
    }

    /// How many deletes named a row.
    pub fn delete_count(&self, row: u32) -> u32
        requires { row < length self.now.rows }
        ensures { result ≡ length (table self.now row).deletes }
    {
        self.rows.delete_count(row)
    }

    /// The k-th dot of the deletes that named a row, from 0.
    pub fn delete_dot(&self, row: u32, k: u32) -> Option<Dot>
        requires { row < length self.now.rows }
        ensures { result ≡ slice_get (table self.now row).deletes k }
    {
        self.rows.delete_dot(row, k)
    }

    /// Whether the vector has the dots of all deletes that named a row.
    pub fn are_deletes_known(&self, row: u32, v: &Vector) -> bool
        requires { row < length self.now.rows }
        ensures { result ≡ list_all (vector_has v.now) (table self.now row).deletes }
    {
        self.rows.are_deletes_known(row, v)
    }

    /// The first token.
    pub fn first(&self) -> Option<u32>
        ensures { result ≡ first_name self.now.items }
    {
        self.list.first()
    }

    /// The token that follows a token.
    pub fn next(&self, name: u32) -> Option<u32>
        requires { IsItem name self.now.items }
        ensures { result ≡ first_name (items_after name self.now.items) }
    {
        self.list.next(name)
    }

    /// The number of rows.
    pub fn count(&self) -> u32
        requires { IsTree self.now }
        ensures { result ≡ length (doc_rows self.now) }
    {
        self.count
    }

    /// The number of rows with brackets.
    pub fn nodes(&self) -> u32
        requires { IsTree self.now }
        ensures { result ≡ nodes_of (tokens self.now) }
    {
        self.nodes
    }

    /// The number that the next row gets.
    pub fn next_row(&self) -> u32
        requires { IsTree self.now }
        ensures number { result ≡ length self.now.rows }
        ensures few { result ≤ 2 ^ 30 }
    {
        self.rows.len() as u32
    }
}
