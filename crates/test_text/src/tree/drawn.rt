// Edits that a seed draws, of both documents in turn: they answer alike.
ghost use Rattle.std.specs.Prelude.{◌≡◌, ◌≢◌, IfOk};
ghost use Rattle.td_base.specs.Value.{DotValue};
ghost use Rattle.td_doc.specs.Answers.{IsFresh};
ghost use Rattle.td_tree.specs.Parts.{doc_rows};

use super::*;

const EDITS: u16 = 121;

#[derive(Clone, Copy)]
enum Kind {
    Put,
    Delete,
    Flatten,
}

// An edit at an atom, with its dot.
#[derive(Clone, Copy)]
struct Edit {
    kind: Kind,
    slot: Slot,
    atom: AtomId,
    run: Run,
    dot: Dot,
}

// What it adds has its dot.
#[tactic(auto, using(td_doc::proofs::FreshDots::fresh_after, td_tree::proofs::FreshRows::fresh_deleted, td_tree::proofs::FreshRows::fresh_flattened))]
fn apply<D: Doc>(doc: &mut D, edit: &Edit) -> Result<(), DocFault>
    requires { IsFresh (D.rows doc.old) edit.now.dot }
    ensures { (d : DotValue) → d ≢ edit.now.dot → IsFresh (D.rows doc.old) d → IsFresh (D.rows doc.new) d }
{
    match edit.kind {
        Kind::Put => doc.insert_run(edit.slot, edit.dot, edit.run),
        Kind::Delete => doc.delete(edit.atom, edit.dot),
        Kind::Flatten => doc.flatten(edit.slot),
    }
}

// Atoms of 1, 15, 2, 4, 3, 14 and 5 bytes.
fn atoms() -> Result<[Atom; 7], Fail> {
    Ok([
        letter("a")?,
        letter("fifteen bytes..")?,
        letter("é")?,
        letter("😀")?,
        letter("€")?,
        letter("fourteen bytes")?,
        letter("e\u{301}\u{323}")?,
    ])
}

// Atoms of 63 bytes and of 1.
fn longest() -> Result<[Atom; 2], Fail> {
    Ok([
        letter("sixty-three bytes, sixty-three bytes, sixty-three bytes, bytes.")?,
        letter("b")?,
    ])
}

// Atoms of all lengths, alone and together.
fn run_of(draw: u32) -> Result<Run, Fail> {
    let longest = longest()?;
    let atoms = atoms()?;
    let k = (draw % 7) as usize;
    let run = match draw / 8 % 8 {
        0 => Ok(Run::one(longest[0])),
        1 => Run::new(&longest),
        2 | 3 => Ok(Run::one(atoms[k])),
        _ => Run::new(&atoms[..k + 1]),
    };
    match run {
        Ok(run) => Ok(run),
        Err(_) => Err(Fail::from("a run")),
    }
}

// The atom at a drawn index, or the first that was typed, which may be gone.
fn atom_of(doc: &Rows, draw: u32) -> Result<AtomId, Fail> {
    match doc.live_at(draw % 64) {
        Some(atom) => Ok(atom),
        None => Ok(AtomId::of(dot(1, 1)?)),
    }
}

fn drawn(doc: &Rows, draw: u32, dot: Dot) -> Result<Edit, Fail>
    ensures { IfOk result (λ edit. edit.dot ≡ dot) }
{
    let atom = atom_of(doc, draw / 64)?;
    let bit = if draw % 2 == 0 { Bit::Left } else { Bit::Right };
    let kind = match draw / 2 % 16 {
        0 => Kind::Flatten,
        1 | 2 | 3 | 4 => Kind::Delete,
        _ => Kind::Put,
    };
    let slot = if draw / 32 % 32 == 0 {
        Slot::Root
    } else {
        at(atom, bit)
    };
    let run = run_of(draw / 8)?;
    Ok(Edit {
        kind,
        slot,
        atom,
        run,
        dot,
    })
}

fn rows_alike(rt: &impl Abort, rows: &Rows, tree: &Tree, atom: AtomId) {
    assert!(rt; rows.find(atom).is_some());
    assert!(rt; tree.find(atom).is_some());
    let expected = rows.find(atom);
    same(rt, tree.find(atom), expected);
    let expected = rows.delete_at(atom, 0);
    same(rt, tree.delete_at(atom, 0), expected);
}

fn sides_alike(rt: &impl Abort, rows: &Rows, tree: &Tree, atom: AtomId, bit: Bit, v: &Vector) {
    let expected = rows.slot_empty(at(atom, bit));
    same(rt, tree.slot_empty(at(atom, bit)), expected);
    let expected = rows.count(at(atom, bit));
    same(rt, tree.count(at(atom, bit)), expected);
    let expected = rows.known(at(atom, bit), v);
    same(rt, tree.known(at(atom, bit), v), expected);
}

fn within_alike(rt: &impl Abort, rows: &Rows, tree: &Tree, atom: AtomId, other: AtomId) {
    let expected = rows.within(other, at(atom, Bit::Right));
    same(rt, tree.within(other, at(atom, Bit::Right)), expected);
}

// What is told of the live rows, in their order.
fn alike(rt: &impl Abort, rows: &Rows, tree: &Tree, v: &Vector) {
    let middle = rows.live_at(rows.live() / 2);
    for index in 0..rows.live() {
        same(rt, tree.live_at(index), rows.live_at(index));
        if let Some(atom) = rows.live_at(index) {
            rows_alike(rt, rows, tree, atom);
            sides_alike(rt, rows, tree, atom, Bit::Left, v);
            sides_alike(rt, rows, tree, atom, Bit::Right, v);
            if let Some(middle) = middle {
                within_alike(rt, rows, tree, atom, middle);
            }
        }
    }
}

// What follows a row.
fn next_alike(rt: &impl Abort, rows: &Rows, tree: &Tree, atom: AtomId) -> Option<AtomId> {
    assert!(rt; rows.find(atom).is_some());
    assert!(rt; tree.find(atom).is_some());
    let expected = rows.after(Some(atom));
    assert!(rt; tree.after(Some(atom)) == expected);
    expected
}

// All rows, one after another.
fn order_alike(rt: &impl Abort, rows: &Rows, tree: &Tree) {
    let mut at = rows.after(None);
    same(rt, tree.after(None), rows.after(None));
    for _ in 0..rows.rows() {
        if let Some(atom) = at {
            at = next_alike(rt, rows, tree, atom);
        }
    }
    same(rt, tree.rows(), rows.rows());
    same(rt, tree.count(Slot::Root), rows.count(Slot::Root));
}

fn text_of<D: Doc>(alloc: Global, doc: &D) -> Result<Bytes, Fail> {
    let mut text = Bytes::new(alloc);
    doc.push_text(&mut text)?;
    Ok(text)
}

fn texts_alike(rt: &impl Abort, alloc: Global, rows: &Rows, tree: &Tree) -> Result<(), Fail> {
    let expected = text_of(alloc, rows)?;
    let text = text_of(alloc, tree)?;
    same(rt, text.as_slice(), expected.as_slice());
    Ok(())
}

// What is told of a row, and the row at its index.
fn told_alike(rt: &impl Abort, rows: &Rows, tree: &Tree, atom: AtomId) {
    same(rt, tree.find(atom), rows.find(atom));
    if let Some(row) = rows.find(atom) {
        same(rt, tree.live_at(row.index), rows.live_at(row.index));
    }
}

// The edit of both documents, and what is told then of what it put and of its atom.
fn apply_to_both(rt: &impl Abort, rows: &mut Rows, tree: &mut Tree, edit: &Edit)
    requires rows { IsFresh rows.old edit.now.dot }
    requires tree { IsFresh (doc_rows tree.old) edit.now.dot }
    ensures rows { (d : DotValue) → d ≢ edit.now.dot → IsFresh rows.old d → IsFresh rows.new d }
    ensures tree { (d : DotValue) → d ≢ edit.now.dot → IsFresh (doc_rows tree.old) d → IsFresh (doc_rows tree.new) d }
{
    let expected = apply(rows, edit);
    same(rt, apply(tree, edit), expected);
    told_alike(rt, rows, tree, AtomId::of(edit.dot));
    told_alike(rt, rows, tree, edit.atom);
}

// All that is told, from time to time.
fn sometimes_alike(rt: &impl Abort, rows: &Rows, tree: &Tree, seq: u16) {
    if seq % 24 == 0 {
        let v = Vector::of(&[seq / 2, seq, seq / 3, seq]);
        alike(rt, rows, tree, &v);
        order_alike(rt, rows, tree);
    }
}

// Both documents after the edits of a seed.
fn edited(rt: &impl Abort, alloc: Global, seed: u32) -> Result<(Rows, Tree), Fail> {
    let mut rows = Rows::empty(alloc)?;
    let mut tree = Tree::empty(alloc)?;
    let mut state = seed;
    for seq in 1..EDITS {
        state = state.wrapping_mul(1_664_525).wrapping_add(1_013_904_223);
        let dot = dot((state >> 30) as u8 + 1, u32::from(seq))?;
        let edit = drawn(&rows, state >> 8, dot)?;
        apply_to_both(rt, &mut rows, &mut tree, &edit);
        sometimes_alike(rt, &rows, &tree, seq);
    }
    Ok((rows, tree))
}

#[test]
fn rows_and_tree_answer_alike(rt: HostRuntime) -> Result<(), Fail> {
    for seed in 1..26 {
        let (rows, tree) = edited(&rt, rt.alloc(), seed)?;
        texts_alike(&rt, rt.alloc(), &rows, &tree)?;
    }
    Ok(())
}
