// The rows, and which of them have something done to them that a vector does not have.
ghost use Rattle.std.specs.Prelude.{◌≡◌, ◌++◌, IfOk, OnOk, IfSome, if◌then◌else◌, [], ◌∷◌, length, map, slice_get};
ghost use Rattle.std.specs.List.{list_all};
ghost use Rattle.td_clock.specs.Vector.{vector_has};
ghost use Rattle.td_doc.specs.Document.{IsDocument, row_id, find_row};
ghost use Rattle.td_idle.specs.Unknown.{deletes_of, is_known_id, unknown_ids};

use std::alloc::Global;
use td_base::{AtomId, Memory};
use td_clock::Vector;
use td_doc::Doc;

/// The rows in their order.
pub fn row_ids<D: Doc>(alloc: Global, doc: &D) -> Result<Vec<AtomId>, Memory>
    ensures { IsDocument (D.rows doc.now) → IfOk result (λ ids. ids.items ≡ map row_id (D.rows doc.now)) }
{
    let mut ids = Vec::new(alloc);
    let mut last = None;
    for _ in 0..doc.rows() {
        let Some(id) = doc.after(last) else { break };
        ids.push(id)?;
        last = Some(id);
    }
    Ok(ids)
}

/// Those of the rows to which something was done that the vector does not have, in their order.
pub fn unknown_rows<D: Doc>(
    alloc: Global,
    doc: &D,
    ids: &[AtomId],
    v: &Vector,
) -> Result<Vec<AtomId>, Memory>
    ensures { IsDocument (D.rows doc.now) → ids.now ≡ map row_id (D.rows doc.now)
        → IfOk result (λ unknown. unknown.items ≡ unknown_ids v.now (D.rows doc.now)) }
{
    let mut unknown = Vec::new(alloc);
    for id in ids {
        push_unknown(&mut unknown, doc, *id, v)?;
    }
    Ok(unknown)
}

// Adds the row, unless the vector has all that was done to it.
fn push_unknown<D: Doc>(
    unknown: &mut Vec<AtomId>,
    doc: &D,
    id: AtomId,
    v: &Vector,
) -> Result<(), Memory>
    ensures { OnOk result (unknown.new.items
        ≡ unknown.old.items ++ (if is_known_id v.now (D.rows doc.now) id then [] else id ∷ [])) }
{
    if !is_row_known(doc, id, v) {
        unknown.push(id)?;
    }
    Ok(())
}

/// Whether the vector has the dot of the identity, and those of the deletes of its row.
pub fn is_row_known<D: Doc>(doc: &D, id: AtomId, v: &Vector) -> bool
    ensures { result ≡ is_known_id v.now (D.rows doc.now) id }
{
    v.has(id.dot) && are_deletes_known(doc, id, v)
}

// Whether the vector has the dots of the deletes of the row. Mostly it is live, and `find` would count rows.
fn are_deletes_known<D: Doc>(doc: &D, id: AtomId, v: &Vector) -> bool
    ensures { result ≡ list_all (vector_has v.now) (deletes_of (find_row id (D.rows doc.now))) }
{
    match doc.delete_at(id, 0) {
        Some(_) => is_tombstone_known(doc, id, v),
        None => true,
    }
}

fn is_tombstone_known<D: Doc>(doc: &D, id: AtomId, v: &Vector) -> bool
    ensures { result ≡ list_all (vector_has v.now) (deletes_of (find_row id (D.rows doc.now))) }
{
    match doc.find(id) {
        Some(row) => are_all_known(doc, id, row.deletes, v),
        None => true,
    }
}

// The same of a row that so many deletes named.
fn are_all_known<D: Doc>(doc: &D, id: AtomId, count: u32, v: &Vector) -> bool
    requires { count ≡ length (deletes_of (find_row id (D.rows doc.now))) }
    ensures { result ≡ list_all (vector_has v.now) (deletes_of (find_row id (D.rows doc.now))) }
{
    for k in 0..count {
        if !is_delete_known(doc, id, k, v) {
            return false;
        }
    }
    true
}

// Whether the vector has the k-th dot of the deletes of the row.
fn is_delete_known<D: Doc>(doc: &D, id: AtomId, k: u32, v: &Vector) -> bool
    ensures { IfSome (slice_get (deletes_of (find_row id (D.rows doc.now))) k) (λ d. result ≡ vector_has v.now d) }
{
    match doc.delete_at(id, k) {
        Some(dot) => v.has(dot),
        None => true,
    }
}
