ghost use Rattle.std.specs.Prelude.{◌≡◌, ◌++◌, IfOk, OnOk, length, slice_get};
ghost use Rattle.std.specs.List.{flat_map};
ghost use Rattle.td_doc.specs.Document.{IsDocument, find_row};
ghost use Rattle.td_script.specs.Spelling.{spaced_dot};
ghost use Rattle.td_report.specs.Parts.{if_any};
ghost use Rattle.td_report.specs.Tree.{deletes_of, deletes_part, row_line, tree_lines};

use crate::parts::{begin, push_identity, push_slot, push_spaced, push_spaced_dot};
use crate::show::push_quoted;
use std::alloc::Global;
use td_base::{AtomId, Bytes, Memory, Site};
use td_doc::Doc;

/// `tree R W`, W the rows, and then a line for each row in infix order: its identity, its slot and its atom, and the
/// deletes of a tombstone.
pub fn tree_lines<D: Doc>(alloc: Global, site: Site, doc: &D) -> Result<Bytes, Memory>
    ensures { IsDocument (D.rows doc.now) → IfOk result (λ lines. lines ≡ tree_lines site (D.rows doc.now)) }
{
    let mut lines = begin(alloc, b"tree", site)?;
    push_spaced(&mut lines, u64::from(doc.rows()))?;
    lines.push(b"\n")?;
    push_rows(&mut lines, doc)?;
    Ok(lines)
}

// A line for each row.
fn push_rows<D: Doc>(lines: &mut Bytes, doc: &D) -> Result<(), Memory>
    ensures { IsDocument (D.rows doc.now)
        → OnOk result (lines.new ≡ lines.old ++ flat_map row_line (D.rows doc.now)) }
{
    let mut last = None;
    for _ in 0..doc.rows() {
        let Some(id) = doc.after(last) else { break };
        push_row(lines, doc, id)?;
        last = Some(id);
    }
    Ok(())
}

// The line of the row with the identity.
fn push_row<D: Doc>(lines: &mut Bytes, doc: &D, id: AtomId) -> Result<(), Memory>
    ensures { OnOk result (lines.new ≡ lines.old ++ if_any row_line (find_row id (D.rows doc.now))) }
{
    let Some(row) = doc.find(id) else {
        return Ok(());
    };
    push_identity(lines, row.id)?;
    push_slot(lines, row.slot)?;
    push_quoted(lines, row.atom.bytes())?;
    push_deletes(lines, doc, id, row.deletes)?;
    lines.push(b"\n")
}

// The dots of the deletes that named the row, of which there are so many.
fn push_deletes<D: Doc>(lines: &mut Bytes, doc: &D, id: AtomId, count: u32) -> Result<(), Memory>
    requires { count ≡ length (deletes_of (find_row id (D.rows doc.now))) }
    ensures { OnOk result (lines.new ≡ lines.old ++ deletes_part (deletes_of (find_row id (D.rows doc.now)))) }
{
    if count == 0 {
        return Ok(());
    }
    lines.push(b" dead")?;
    push_dots(lines, doc, id, count)
}

#[tactic(auto, using(crate::proofs::Printing::next_printed))]
fn push_dots<D: Doc>(lines: &mut Bytes, doc: &D, id: AtomId, count: u32) -> Result<(), Memory>
    requires { count ≡ length (deletes_of (find_row id (D.rows doc.now))) }
    ensures { OnOk result (lines.new
        ≡ lines.old ++ flat_map spaced_dot (deletes_of (find_row id (D.rows doc.now)))) }
{
    for k in 0..count {
        push_dot_at(lines, doc, id, k)?;
    }
    Ok(())
}

// The dot at a place among the deletes, where there is one.
#[tactic(auto, using(crate::proofs::Printing::delete_is))]
fn push_dot_at<D: Doc>(lines: &mut Bytes, doc: &D, id: AtomId, k: u32) -> Result<(), Memory>
    ensures { OnOk result (lines.new
        ≡ lines.old ++ if_any spaced_dot (slice_get (deletes_of (find_row id (D.rows doc.now))) k)) }
{
    match doc.delete_at(id, k) {
        Some(dot) => push_spaced_dot(lines, dot),
        None => Ok(()),
    }
}
