ghost use Rattle.std.specs.Prelude.{◌≡◌, [], ◌∷◌, IsTrue, IsNone, IfSome, IfErr, OnOk, OnErr};
ghost use Rattle.td_doc.specs.Document.{find_row};
ghost use Rattle.td_doc.specs.Deletion.{delete};
ghost use Rattle.td_doc.specs.Flatten.{flatten};
ghost use Rattle.td_doc.specs.Answers.{IsRow, IsFresh, IsAtomFault, IsSlotFault, is_rooted};
ghost use Rattle.td_doc.specs.Insertion.{insert_atom, insert_run};
ghost use Rattle.td_path.specs.declared.slot.Slot.TheVariants.{Root};
ghost use Rattle.td_tree.specs.Nodes.{AddsFew, AddsFewIn};
ghost use Rattle.td_tree.specs.Parts.{doc_rows, nodes_of, tokens};

use crate::last::Last;
use crate::tokens::Tokens;
use std::alloc::Global;
use std::marker::Model;
use td_base::{Atom, AtomId, Bytes, Dot, Memory, Run};
use td_clock::Vector;
use td_doc::{Doc, DocFault, Row};
use td_identities::{Identities, Seen};
use td_path::Slot;

/// The fast document: its rows as one list of tokens, so that no call walks a tree, however deep it is.
#[derive(Drop)]
pub struct Tree {
    pub(crate) tokens: Tokens,
    pub(crate) identities: Identities,
    pub(crate) seen: Seen,
    // none where a run was put since, or a row deleted
    pub(crate) last: Option<Last>,
}

impl Model for Tree {
    ghost use Rattle.std.specs.Prelude.{IfSome};
    ghost use Rattle.td_tree.specs.Last.{IsLast};
    ghost use Rattle.td_tree.specs.Parts.{Parts};
    ghost use Rattle.td_tree.specs.Whole.{IsWhole};

    ghost Value = { Parts };

    ghost view = { λ t. t.tokens };

    ghost invariant = { λ t. IsWhole t.tokens t.identities t.seen × IfSome t.last (IsLast t.tokens t.identities) };
}

impl Tree {
    /// The number of rows that are nodes: those that stand in no leaf. It is 0 where the root slot was just flattened.
    pub fn nodes(&self) -> u32
        ensures { result ≡ nodes_of (tokens self.now) }
    {
        self.tokens.nodes()
    }
}

impl Doc for Tree {
    ghost rows = { λ t. doc_rows t };

    fn empty(alloc: Global) -> Result<Tree, Memory> {
        Ok(Tree {
            tokens: Tokens::empty(alloc)?,
            identities: Identities::empty(alloc),
            seen: Seen::new(),
            last: None,
        })
    }

    fn insert(&mut self, slot: Slot, id: AtomId, atom: Atom) -> Result<(), DocFault>
        requires { IsNone (find_row id (doc_rows self.old)) }
        ensures ok { OnOk result (IsTrue (is_rooted (doc_rows self.old) slot)
            × (doc_rows self.new ≡ insert_atom slot id atom (doc_rows self.old))) }
        ensures fault { IfErr result (IsSlotFault (doc_rows self.old) slot) }
        ensures err { OnErr result (doc_rows self.new ≡ doc_rows self.old) }
        ensures nodes { AddsFewIn self.old self.new slot 1 }
    {
        let at = self.place_typed(slot, id)?;
        self.put(at, id, &atom)?;
        Ok(())
    }

    fn insert_run(&mut self, slot: Slot, dot: Dot, run: Run) -> Result<(), DocFault>
        requires { IsFresh (doc_rows self.old) dot }
        ensures ok { OnOk result (IsTrue (is_rooted (doc_rows self.old) slot)
            × (doc_rows self.new ≡ insert_run slot dot run (doc_rows self.old))) }
        ensures fault { IfErr result (IsSlotFault (doc_rows self.old) slot) }
        ensures err { OnErr result (doc_rows self.new ≡ doc_rows self.old) }
        ensures nodes { AddsFewIn self.old self.new slot 1 }
    {
        if let Some(atom) = run.only() {
            return self.insert(slot, AtomId::of(dot), atom);
        }
        let top = AtomId {
            dot,
            offset: run.len() / 2,
        };
        let at = self.place_in(slot, top)?;
        self.put_run(at, dot, &run)?;
        Ok(())
    }

    fn delete(&mut self, id: AtomId, by: Dot) -> Result<(), DocFault>
        ensures ok { OnOk result (IsRow (doc_rows self.old) id
            × (doc_rows self.new ≡ delete id by (doc_rows self.old))) }
        ensures fault { IfErr result (IsAtomFault (doc_rows self.old) id) }
        ensures err { OnErr result (doc_rows self.new ≡ doc_rows self.old) }
        ensures nodes { AddsFew self.old self.new id 0 }
    {
        match self.number(id) {
            Some(row) => {
                self.last = None;
                self.tokens.open_to(row)?;
                self.tokens.delete_row(row, by)?;
                self.seen.add(by);
                Ok(())
            }
            None => Err(DocFault::Gone { id }),
        }
    }

    fn flatten(&mut self, slot: Slot) -> Result<(), DocFault>
        ensures ok { OnOk result (IsTrue (is_rooted (doc_rows self.old) slot)
            × (doc_rows self.new ≡ flatten slot (doc_rows self.old))) }
        ensures fault { IfErr result (IsSlotFault (doc_rows self.old) slot) }
        ensures err { OnErr result (doc_rows self.new ≡ doc_rows self.old) }
        ensures none { OnOk result (slot ≡ Root → nodes_of (tokens self.new) ≡ 0) }
        ensures nodes { AddsFewIn self.old self.new slot 0 }
    {
        match slot {
            Slot::Root => {
                self.last = None;
                self.tokens.flatten_root()?;
                Ok(())
            }
            Slot::At { atom, bit } => match self.number(atom) {
                Some(row) => {
                    self.last = None;
                    self.tokens.open_to(row)?;
                    self.tokens.flatten_side(row, bit)?;
                    Ok(())
                }
                None => Err(DocFault::Gone { id: atom }),
            },
        }
    }

    fn rows(&self) -> u32 {
        self.tokens.count()
    }

    fn live(&self) -> u32 {
        self.tokens.live()
    }

    fn live_at(&self, index: u32) -> Option<AtomId> {
        if let Some(last) = self.last
            && let Some(at) = last.index
            && at == index
        {
            return Some(last.id);
        }
        match self.tokens.live_row(index) {
            Some(row) => Some(self.tokens.id(row)),
            None => None,
        }
    }

    fn find(&self, id: AtomId) -> Option<Row> {
        match self.number(id) {
            Some(row) => Some(self.tokens.told(row, self.index(row))),
            None => None,
        }
    }

    fn after(&self, id: Option<AtomId>) -> Option<AtomId> {
        let next = match id {
            Some(id) => match self.number(id) {
                Some(row) => self.tokens.row_after(row),
                None => None,
            },
            None => self.tokens.first_row(),
        };
        match next {
            Some(row) => Some(self.tokens.id(row)),
            None => None,
        }
    }

    fn delete_at(&self, id: AtomId, k: u32) -> Option<Dot> {
        match self.number(id) {
            Some(row) => self.tokens.delete_dot(row, k),
            None => None,
        }
    }

    fn slot_empty(&self, slot: Slot) -> bool {
        if let Some(_) = self.end_behind_last(&slot) {
            return true;
        }
        match slot {
            Slot::Root => self.rows() == 0,
            Slot::At { atom, bit } => match self.number(atom) {
                Some(row) => self.tokens.side_is_empty(row, bit),
                None => true,
            },
        }
    }

    fn count(&self, slot: Slot) -> u32 {
        match slot {
            Slot::Root => self.rows(),
            Slot::At { atom, bit } => match self.number(atom) {
                Some(row) => self.tokens.side_count(row, bit),
                None => 0,
            },
        }
    }

    fn within(&self, id: AtomId, slot: Slot) -> bool {
        match self.number(id) {
            Some(row) => self.is_row_within(row, slot),
            None => false,
        }
    }

    fn stands_before(&self, first: AtomId, second: AtomId) -> bool {
        match self.number(first) {
            Some(row) => self.is_row_before(row, second),
            None => false,
        }
    }

    /// A vector that has all dots seen has those of the rows in the slot too, and no row is looked at.
    fn known(&self, slot: Slot, v: &Vector) -> bool {
        if self.seen.is_known(v) {
            return true;
        }
        match slot {
            Slot::Root => self.tokens.are_all_known(v),
            Slot::At { atom, bit } => match self.number(atom) {
                Some(row) => self.tokens.is_side_known(row, bit, v),
                None => true,
            },
        }
    }

    fn push_text(&self, text: &mut Bytes) -> Result<(), Memory> {
        self.tokens.push_text(text)
    }
}
