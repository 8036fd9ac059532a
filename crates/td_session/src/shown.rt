// The atoms of the text, in a rope beside the replica.
ghost use Rattle.std.specs.Prelude.{◌≡◌, ◌<◌, [], get_or, insert, length, IfOk, IfSome, MatchOption, OnErr, OnOk};
ghost use Rattle.td_doc.specs.Document.{IsDocument, live_atoms};
ghost use Rattle.td_machine.specs.Shown.{changed_by};
ghost use Rattle.td_op.specs.Change.{CanChange, changed};

use std::alloc::Global;
use td_base::Memory;
use td_doc::Doc;
use td_op::Change;
use td_rope::Rope;

/// The atoms that a document shows.
pub fn rope_of<D: Doc>(alloc: Global, doc: &D) -> Result<Rope, Memory>
    requires { IsDocument (D.rows doc.now) }
    ensures { IfOk result (λ rope. rope ≡ live_atoms (D.rows doc.now)) }
{
    let mut rope = Rope::new(alloc);
    let count = doc.live();
    for index in 0..count {
        put_atom(&mut rope, doc, index)?;
    }
    Ok(rope)
}

/// The rope after a change. None where it finds no memory for that.
pub fn followed(rope: Rope, change: Option<Change>) -> Option<Rope>
    ensures { IfSome result (λ new. new ≡ changed_by change rope) }
{
    let mut rope = rope;
    let Some(change) = change else {
        return Some(rope);
    };
    match alter(&mut rope, &change) {
        Ok(()) => Some(rope),
        Err(_) => None,
    }
}

// Puts the live atom at an index behind those before it.
fn put_atom<D: Doc>(rope: &mut Rope, doc: &D, index: u32) -> Result<(), Memory>
    requires rules { IsDocument (D.rows doc.now) }
    requires index { index < length (live_atoms (D.rows doc.now)) }
    requires behind { length rope.old ≡ index }
    ensures { OnOk result (rope.new ≡ insert rope.old index (get_or (live_atoms (D.rows doc.now)) index [])) }
{
    let Some(id) = doc.live_at(index) else {
        unreachable!()
    };
    let Some(row) = doc.find(id) else {
        unreachable!()
    };
    rope.put(index, row.atom)
}

// Does a change, as far as it is in range.
fn alter(rope: &mut Rope, change: &Change) -> Result<(), Memory>
    ensures ok { OnOk result (rope.new ≡ changed change.now rope.old) }
    ensures err { OnErr result (rope.new ≡ rope.old) }
{
    match in_range(change, rope) {
        Some(change) => do_change(rope, &change),
        None => Ok(()),
    }
}

// Does a change that is in range.
fn do_change(rope: &mut Rope, change: &Change) -> Result<(), Memory>
    requires { CanChange change.now rope.old }
    ensures ok { OnOk result (rope.new ≡ changed change.now rope.old) }
    ensures err { OnErr result (rope.new ≡ rope.old) }
{
    match *change {
        Change::Put { index, atom } => rope.put(index, atom),
        Change::PutRun { index, run } => rope.put_run(index, &run),
        Change::Cut { index } => {
            rope.take_out(index);
            Ok(())
        }
    }
}

// The change with an index that is in range. None where it changes nothing.
fn in_range(change: &Change, rope: &Rope) -> Option<Change>
    ensures { MatchOption result
        (changed change.now rope.now ≡ rope.now)
        (λ fit. CanChange fit rope.now × (changed fit rope.now ≡ changed change.now rope.now)) }
{
    let count = rope.len();
    match *change {
        Change::Put { index, atom } => Some(Change::Put {
            index: index.min(count),
            atom,
        }),
        Change::PutRun { index, run } => Some(Change::PutRun {
            index: index.min(count),
            run,
        }),
        Change::Cut { index } => {
            if index < count {
                Some(Change::Cut { index })
            } else {
                None
            }
        }
    }
}
