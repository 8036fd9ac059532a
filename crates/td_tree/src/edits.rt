// What inserts do in turn: find a place, and put rows there.
ghost use Rattle.std.specs.Prelude.{◌≡◌, ◌+◌, IsTrue, IsNone, IfSome, IfOk, IfErr, OnOk, OnErr};
ghost use Rattle.std.specs.Option.{ForSome};
ghost use Rattle.td_base.specs.declared.bit.Bit.TheVariants.{Right};
ghost use Rattle.td_doc.specs.Document.{find_row};
ghost use Rattle.td_doc.specs.Answers.{IsFresh, IsSlotFault, is_rooted};
ghost use Rattle.td_doc.specs.Insertion.{insert_atom, insert_run};
ghost use Rattle.td_list.specs.Items.{IsItem, weight_of};
ghost use Rattle.td_path.specs.declared.slot.Slot.{Slot};
ghost use Rattle.td_path.specs.declared.slot.Slot.TheVariants.{At};
ghost use Rattle.td_tree.specs.Last.{IsEmptyEnd};
ghost use Rattle.td_tree.specs.Nodes.{AddsFewIn};
ghost use Rattle.td_tree.specs.Places.{IsNewPlace, top_id};
ghost use Rattle.td_tree.specs.Parts.{doc_rows, nodes_of, tokens};
ghost use Rattle.td_tree.specs.Stretches.{items_up_to};

use crate::item_of::close_item;
use crate::last::Last;
use crate::tree::Tree;
use td_base::{Atom, AtomId, Bit, Dot, Memory, Run};
use td_doc::DocFault;
use td_path::Slot;

impl Tree {
    /// The token that ends a slot, where that is the right side of the row put last: nothing stands there.
    pub(crate) fn end_behind_last(&self, slot: &Slot) -> Option<u32>
        ensures { IfSome result (IsEmptyEnd self.now slot.now) }
    {
        match *slot {
            Slot::At {
                atom,
                bit: Bit::Right,
            } => self.end_behind(atom),
            _ => None,
        }
    }

    // The same of the right side of an atom.
    fn end_behind(&self, atom: AtomId) -> Option<u32>
        ensures { IfSome result (IsEmptyEnd self.now (At atom Right)) }
    {
        if let Some(last) = self.last
            && last.id == atom
        {
            return Some(close_item(last.row).name());
        }
        None
    }

    /// The token before which a new row is put in a slot: mostly that of a letter typed behind the one put last.
    pub(crate) fn place_typed(&mut self, slot: Slot, id: AtomId) -> Result<Option<u32>, DocFault>
        requires { IsNone (find_row id (doc_rows self.old)) }
        ensures place { IfOk result (λ at. IsNewPlace self.new slot id at) }
        ensures rooted { OnOk result (IsTrue (is_rooted (doc_rows self.old) slot)) }
        ensures fault { IfErr result (IsSlotFault (doc_rows self.old) slot) }
        ensures same { doc_rows self.new ≡ doc_rows self.old }
        ensures nodes { AddsFewIn self.old self.new slot 0 }
    {
        match self.end_behind_last(&slot) {
            Some(end) => Ok(Some(end)),
            None => self.place_in(slot, id),
        }
    }

    /// The token before which a new row is put in a slot; a leaf on the way is opened.
    pub(crate) fn place_in(&mut self, slot: Slot, id: AtomId) -> Result<Option<u32>, DocFault>
        requires { IsNone (find_row id (doc_rows self.old)) }
        ensures place { IfOk result (λ at. IsNewPlace self.new slot id at) }
        ensures rooted { OnOk result (IsTrue (is_rooted (doc_rows self.old) slot)) }
        ensures fault { IfErr result (IsSlotFault (doc_rows self.old) slot) }
        ensures same { doc_rows self.new ≡ doc_rows self.old }
        ensures nodes { AddsFewIn self.old self.new slot 0 }
    {
        match slot {
            Slot::Root => Ok(self.tokens.place_in_root(id)),
            Slot::At { atom, bit } => match self.number(atom) {
                Some(row) => {
                    self.last = None;
                    self.tokens.open_to(row)?;
                    Ok(self.tokens.place_on(row, bit, id))
                }
                None => Err(DocFault::Gone { id: atom }),
            },
        }
    }

    // The number of live rows before a place, which is counted right behind the row put last alone: there it is one
    // more than before that row.
    fn index_at(&self, at: Option<u32>) -> Option<u32>
        requires there { ForSome at (λ x. IsItem x self.now.items) }
        ensures { IfSome result (λ n. n ≡ weight_of (items_up_to at self.now.items)) }
    {
        match self.last {
            Some(last) if at == Some(close_item(last.row).name()) => match last.index {
                Some(index) => Some(index + 1),
                None => Some(self.tokens.index_at(at)),
            },
            _ => None,
        }
    }

    /// Puts a new row at its place.
    pub(crate) fn put(&mut self, at: Option<u32>, id: AtomId, atom: &Atom) -> Result<(), Memory>
        requires new { IsNone (find_row id (doc_rows self.old)) }
        requires place { (slot : Slot) × IsNewPlace self.old slot id at
            × IsTrue (is_rooted (doc_rows self.old) slot) }
        ensures ok { OnOk result ((slot : Slot) → IsNewPlace self.old slot id at
            → IsTrue (is_rooted (doc_rows self.old) slot)
            → doc_rows self.new ≡ insert_atom slot id atom.now (doc_rows self.old)) }
        ensures nodes { OnOk result (nodes_of (tokens self.new) ≡ nodes_of (tokens self.old) + 1) }
        ensures err { OnErr result (self.new ≡ self.old) }
    {
        let index = self.index_at(at);
        self.identities.make_room(id.dot)?;
        let row = self.tokens.next_row();
        self.tokens.put_row(at, id, atom)?;
        self.identities.put(id, row, 1);
        self.seen.add(id.dot);
        self.last = Some(Last { id, row, index });
        Ok(())
    }

    /// Puts the rows of an insert's run at the place of its top.
    pub(crate) fn put_run(&mut self, at: Option<u32>, dot: Dot, run: &Run) -> Result<(), Memory>
        requires new { IsFresh (doc_rows self.old) dot }
        requires place { (slot : Slot) × IsNewPlace self.old slot (top_id dot run.now) at
            × IsTrue (is_rooted (doc_rows self.old) slot) }
        ensures ok { OnOk result ((slot : Slot) → IsNewPlace self.old slot (top_id dot run.now) at
            → IsTrue (is_rooted (doc_rows self.old) slot)
            → doc_rows self.new ≡ insert_run slot dot run.now (doc_rows self.old)) }
        ensures nodes { OnOk result (nodes_of (tokens self.new) ≡ nodes_of (tokens self.old)) }
        ensures err { OnErr result (self.new ≡ self.old) }
    {
        self.identities.make_room(dot)?;
        let row = self.tokens.next_row();
        self.tokens.put_run(at, dot, run)?;
        self.identities.put(AtomId::of(dot), row, run.len());
        self.seen.add(dot);
        self.last = None;
        Ok(())
    }
}
