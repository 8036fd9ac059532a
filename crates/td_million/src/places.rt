ghost use Rattle.std.specs.Prelude.{◌≡◌, false, IfOk, IsNone, Some};
ghost use Rattle.std.specs.Option.{ForSome};
ghost use Rattle.td_doc.specs.Document.{live_id_at};
ghost use Rattle.td_doc.specs.Answers.{is_live_id};
ghost use Rattle.td_tree.specs.Parts.{doc_rows};

use crate::fault::Fault;
use td_base::{AtomId, Dot, Site};
use td_doc::Doc;
use td_tree::Tree;

/// The atom of a site's insert.
pub(crate) fn atom_of(site: u8, seq: u32, offset: u8) -> Result<AtomId, Fault> {
    let site = Site::new(site).ok_or(Fault::NoValue)?;
    let dot = Dot::new(site, seq).ok_or(Fault::NoValue)?;
    AtomId::new(dot, offset).ok_or(Fault::NoValue)
}

/// The index at which the text shows an atom, and nothing where the atom is no live row. The atom that stands at the
/// index is asked for too: an error where it is another.
pub(crate) fn index_of(doc: &Tree, id: AtomId) -> Result<Option<u32>, Fault>
    ensures shown { IfOk result (λ found. ForSome found (λ index. live_id_at (doc_rows doc.now) index ≡ Some id)) }
    ensures gone { IfOk result (λ found. IsNone found → is_live_id (doc_rows doc.now) id ≡ false) }
{
    if !doc.is_live(id) {
        return Ok(None);
    }
    let Some(row) = doc.find(id) else {
        return Err(Fault::Gone);
    };
    let index = row.index;
    if doc.live_at(index) != Some(id) {
        return Err(Fault::OtherAtom { index });
    }
    Ok(Some(index))
}
