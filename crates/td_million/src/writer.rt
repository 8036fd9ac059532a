ghost use Rattle.std.specs.Prelude.{◌≡◌, ◌+◌, [], length, IfOk, OnOk, OnErr};
ghost use Rattle.td_path.specs.declared.slot.Slot.TheVariants.{Root};
ghost use Rattle.td_doc.specs.Allocation.{alloc, anchor};
ghost use Rattle.td_doc.specs.Flatten.{flatten};
ghost use Rattle.td_doc.specs.Insertion.{insert_run};
ghost use Rattle.td_tree.specs.Nodes.{AddsFewIn};
ghost use Rattle.td_tree.specs.Parts.{doc_rows, nodes_of, tokens};
ghost use Rattle.td_million.specs.Drafts.{draft_rows, delete_live, dot_after, first_dot};

use crate::fault::Fault;
use std::alloc::Global;
use std::marker::Model;
use td_base::{AtomId, Dot, Run, Site};
use td_doc::{Doc, alloc_slot};
use td_path::Slot;
use td_tree::Tree;

/// A document and the dots with which it is edited: those of one site in turn, then those of the next site.
#[derive(Drop)]
pub(crate) struct Writer {
    doc: Tree,
    site: Site,
    next: u32,
}

impl Model for Writer {
    ghost use Rattle.td_million.specs.Drafts.{Draft, AreFreshFrom};
    ghost use Rattle.td_tree.specs.Parts.{doc_rows};

    ghost Value = { Draft };

    ghost view = { λ w. record { parts = w.doc; next = record { site = w.site; seq = w.next } } };

    ghost invariant = { λ w. AreFreshFrom (record { site = w.site; seq = w.next }) (doc_rows w.doc) };
}

impl Writer {
    /// A writer of an empty document, from the first dot of a site on.
    pub fn new(alloc: Global, site: Site) -> Result<Writer, Fault>
        ensures { IfOk result (λ w. (draft_rows w ≡ []) × (w.next ≡ first_dot site)) }
    {
        Ok(Writer {
            doc: Tree::empty(alloc)?,
            site,
            next: 1,
        })
    }

    /// Goes on to the dots of the next site.
    pub fn next_site(&mut self) -> Result<(), Fault>
        ensures parts { self.new.parts ≡ self.old.parts }
        ensures next { OnOk result (self.new.next ≡ first_dot (self.old.next.site + 1)) }
    {
        self.site = site_after(self.site)?;
        self.next = 1;
        Ok(())
    }

    /// Puts a run where what is typed at an index of the text goes.
    #[tactic(auto, using(crate::proofs::Counts::rows_more))]
    pub fn put(&mut self, index: u32, run: Run) -> Result<(), Fault>
        ensures ok { OnOk result (draft_rows self.new ≡ insert_run
            (alloc (draft_rows self.old) (anchor (draft_rows self.old) index))
            self.old.next run (draft_rows self.old)) }
        ensures next { OnOk result (self.new.next ≡ dot_after self.old.next) }
        ensures rows { OnOk result (length (draft_rows self.new) ≡ length (draft_rows self.old) + length run) }
        ensures nodes { OnOk result (AddsFewIn self.old.parts self.new.parts
            (alloc (draft_rows self.old) (anchor (draft_rows self.old) index)) 1) }
        ensures err { OnErr result (draft_rows self.new ≡ draft_rows self.old) }
    {
        let slot = slot_at(&self.doc, index)?;
        let dot = dot_of(self.site, self.next)?;
        self.doc.insert_run(slot, dot, run)?;
        self.next += 1;
        Ok(())
    }

    /// Deletes the atom at an index of the text.
    #[tactic(auto, using(crate::proofs::Counts::rows_kept))]
    pub fn delete(&mut self, index: u32) -> Result<(), Fault>
        ensures ok { OnOk result (draft_rows self.new ≡ delete_live index self.old.next (draft_rows self.old)) }
        ensures next { OnOk result (self.new.next ≡ dot_after self.old.next) }
        ensures rows { OnOk result (length (draft_rows self.new) ≡ length (draft_rows self.old)) }
        ensures err { OnErr result (draft_rows self.new ≡ draft_rows self.old) }
    {
        let id = self.doc.live_at(index).ok_or(Fault::NoPlace { index })?;
        let dot = dot_of(self.site, self.next)?;
        self.doc.delete(id, dot)?;
        self.next += 1;
        Ok(())
    }

    /// Flattens the whole document.
    pub fn flatten(&mut self) -> Result<(), Fault>
        ensures ok { OnOk result (draft_rows self.new ≡ flatten Root (draft_rows self.old)) }
        ensures nodes { OnOk result (nodes_of (tokens self.new.parts) ≡ 0) }
        ensures next { self.new.next ≡ self.old.next }
        ensures err { OnErr result (draft_rows self.new ≡ draft_rows self.old) }
    {
        self.doc.flatten(Slot::Root)?;
        Ok(())
    }

    /// The document.
    pub fn doc(&self) -> &Tree
        ensures { result.now ≡ self.now.parts }
    {
        &self.doc
    }
}

// Where what is typed at an index of the text goes.
fn slot_at(doc: &Tree, index: u32) -> Result<Slot, Fault>
    ensures { IfOk result (λ slot. slot ≡ alloc (doc_rows doc.now) (anchor (doc_rows doc.now) index)) }
{
    if index > doc.live() {
        return Err(Fault::NoPlace { index });
    }
    let after = behind(doc, index);
    Ok(alloc_slot(doc, after))
}

// The atom behind which it goes.
fn behind(doc: &Tree, index: u32) -> Option<AtomId>
    ensures { result ≡ anchor (doc_rows doc.now) index }
{
    if index == 0 {
        return None;
    }
    doc.live_at(index - 1)
}

fn site_after(site: Site) -> Result<Site, Fault>
    ensures { IfOk result (λ next. next ≡ site + 1) }
{
    Site::new(site.number() + 1).ok_or(Fault::NoValue)
}

fn dot_of(site: Site, seq: u32) -> Result<Dot, Fault>
    ensures { IfOk result (λ dot. dot ≡ record { site = site; seq = seq }) }
{
    Dot::new(site, seq).ok_or(Fault::NoDot)
}
