// The text that the rows show.
ghost use Rattle.std.specs.Prelude.{◌≡◌, ◌<◌, ◌++◌, [], ℕ, List, length, OnOk, OnErr};
ghost use Rattle.td_base.specs.Lists.{In};
ghost use Rattle.td_doc.specs.Document.{text_of};
ghost use Rattle.td_list.specs.Items.{Item};
ghost use Rattle.td_brackets.specs.RowNumbers.{text_of_numbers};
ghost use Rattle.td_tree.specs.Parts.{table, doc_rows, IsTree};
ghost use Rattle.td_tree.specs.Reading.{shown_at, shown};

use crate::tokens::Tokens;
use td_base::{Bytes, Memory};
use td_list::Item;

impl Tokens {
    /// Adds the text at the end. What was added when memory ran out is taken off again.
    pub fn push_text(&self, text: &mut Bytes) -> Result<(), Memory>
        requires { IsTree self.now }
        ensures ok { OnOk result (text.new ≡ text.old ++ text_of (doc_rows self.now)) }
        ensures err { OnErr result (text.new ≡ text.old) }
    {
        let len = text.as_slice().len();
        let pushed = self.push_tokens(text);
        if pushed.is_err() {
            text.truncate(len);
        }
        pushed
    }

    // Adds the atoms of all tokens at the end, as many as there is memory for.
    fn push_tokens(&self, text: &mut Bytes) -> Result<(), Memory>
        requires { IsTree self.now }
        ensures ok { OnOk result (text.new ≡ text.old ++ text_of (doc_rows self.now)) }
        ensures front { (more : List ℕ) × (text.new ≡ text.old ++ more) }
    {
        let mut at = self.first();
        while let Some(name) = at {
            let (items, behind) = self.list.lend_from(name);
            self.push_items(items, text)?;
            at = behind;
        }
        Ok(())
    }

    fn push_items(&self, items: &[Item], text: &mut Bytes) -> Result<(), Memory>
        requires tree { IsTree self.now }
        requires there { (i : Item) → In i items.now → In i self.now.items }
        ensures ok { OnOk result (text.new ≡ text.old ++ text_of_numbers (table self.now) (shown self.now items.now)) }
        ensures front { (more : List ℕ) × (text.new ≡ text.old ++ more) }
    {
        for item in items {
            self.push_item(*item, text)?;
        }
        Ok(())
    }

    // Adds what a token shows. What weighs nothing shows nothing: it is a bracket or a tombstone. What weighs one is
    // the row that names it, and what weighs more is a leaf.
    fn push_item(&self, item: Item, text: &mut Bytes) -> Result<(), Memory>
        requires tree { IsTree self.now }
        requires there { In item self.now.items }
        ensures ok { OnOk result (text.new ≡ text.old ++ text_of_numbers (table self.now) (shown_at self.now item)) }
        ensures front { (more : List ℕ) × (text.new ≡ text.old ++ more) }
    {
        match item.weight() {
            0 => Ok(()),
            1 => self.push_row(item.name() / 3, text),
            _ => {
                let leaf = self.leaf_at(item).unwrap();
                self.push_rows(self.part(leaf), text)
            }
        }
    }

    // Adds the atoms of live rows.
    fn push_rows(&self, rows: &[u32], text: &mut Bytes) -> Result<(), Memory>
        requires known { (r : ℕ) → In r rows.now → r < length self.now.rows }
        requires live { (r : ℕ) → In r rows.now → (table self.now r).deletes ≡ [] }
        ensures ok { OnOk result (text.new ≡ text.old ++ text_of_numbers (table self.now) rows.now) }
        ensures front { (more : List ℕ) × (text.new ≡ text.old ++ more) }
    {
        for row in rows {
            self.push_row(*row, text)?;
        }
        Ok(())
    }

    // Adds the atom of a row.
    fn push_row(&self, row: u32, text: &mut Bytes) -> Result<(), Memory>
        requires { row < length self.now.rows }
        ensures ok { OnOk result (text.new ≡ text.old ++ (table self.now row).atom) }
        ensures front { (more : List ℕ) × (text.new ≡ text.old ++ more) }
    {
        text.push(self.atom_bytes(row))
    }
}
