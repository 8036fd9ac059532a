// The rows that atoms are.
ghost use Rattle.std.specs.Prelude.{◌≡◌, ◌≢◌, ◌<◌, length, None, IfSome, IfNone};
ghost use Rattle.td_doc.specs.Document.{find_row};
ghost use Rattle.td_doc.specs.Slots.{is_within};
ghost use Rattle.td_doc.specs.Answers.{live_before, stands_before};
ghost use Rattle.td_tree.specs.declared.tree_row.RowState.TheVariants.{Gone};
ghost use Rattle.td_tree.specs.Parts.{state_at, table, doc_rows};

use crate::tree::Tree;
use crate::tree_row::RowState;
use td_base::AtomId;
use td_path::Slot;

impl Tree {
    /// The number of the row of an atom. That of the row put last is at hand.
    pub(crate) fn number(&self, id: AtomId) -> Option<u32>
        ensures known { IfSome result (λ r. r < length self.now.rows) }
        ensures stands { IfSome result (λ r. state_at self.now r ≢ Gone) }
        ensures named { IfSome result (λ r. (table self.now r).id ≡ id) }
        ensures none { IfNone result (find_row id (doc_rows self.now) ≡ None) }
    {
        if let Some(last) = self.last
            && last.id == id
        {
            return Some(last.row);
        }
        match self.identities.number(id) {
            Some(row) => match self.tokens.state(row) {
                RowState::Gone => None,
                _ => Some(row),
            },
            None => None,
        }
    }

    /// The number of live rows before a row. Those before the row put last may be counted already.
    pub(crate) fn index(&self, row: u32) -> u32
        requires row { row < length self.now.rows }
        requires stands { state_at self.now row ≢ Gone }
        ensures { result ≡ live_before (table self.now row).id (doc_rows self.now) }
    {
        if let Some(last) = self.last
            && last.row == row
            && let Some(index) = last.index
        {
            return index;
        }
        self.tokens.index(row)
    }

    /// Whether a row is in the slot.
    pub(crate) fn is_row_within(&self, row: u32, slot: Slot) -> bool
        requires row { row < length self.now.rows }
        requires stands { state_at self.now row ≢ Gone }
        ensures { result ≡ is_within (doc_rows self.now) (table self.now row).id slot }
    {
        match slot {
            Slot::Root => true,
            Slot::At { atom, bit } => match self.number(atom) {
                Some(node) => self.tokens.is_on_side(row, node, bit),
                None => false,
            },
        }
    }

    /// Whether a row stands before that of an atom.
    pub(crate) fn is_row_before(&self, row: u32, other: AtomId) -> bool
        requires row { row < length self.now.rows }
        requires stands { state_at self.now row ≢ Gone }
        ensures { result ≡ stands_before (doc_rows self.now) (table self.now row).id other }
    {
        match self.number(other) {
            Some(second) => self.tokens.is_row_before(row, second),
            None => false,
        }
    }
}
