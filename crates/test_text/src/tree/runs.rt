// "abcd" at the root, and then "xy" on the right of its a.
ghost use Rattle.std.specs.Prelude.{◌≢◌, ◌<◌, ◌^◌, length};
ghost use Rattle.td_base.specs.Value.{DotValue};
ghost use Rattle.td_doc.specs.Answers.{IsFresh};
ghost use Rattle.td_tree.specs.Parts.{doc_rows};

use super::*;

// An atom, by its index, the number of its run and its place there, the atom in whose slot it stands, with the side,
// and its text. The atom with no such atom stands at the root.
type Standing = (u32, u32, u8, Option<(u32, u8, Bit)>, &'static str);

const ATOMS: [Standing; 6] = [
    (0, 1, 0, Some((1, 1, Bit::Left)), "a"),
    (1, 2, 0, Some((2, 1, Bit::Left)), "x"),
    (2, 2, 1, Some((1, 0, Bit::Right)), "y"),
    (3, 1, 1, Some((1, 2, Bit::Left)), "b"),
    (4, 1, 2, None, "c"),
    (5, 1, 3, Some((1, 2, Bit::Right)), "d"),
];

// Puts a run in a slot. What it adds has its dot.
#[tactic(auto, using(td_doc::proofs::FreshDots::fresh_after))]
fn put_run(doc: &mut Tree, slot: Slot, dot: Dot, run: Run) -> Result<(), DocFault>
    requires { IsFresh (doc_rows doc.old) dot }
    ensures { (d : DotValue) → d ≢ dot → IsFresh (doc_rows doc.old) d → IsFresh (doc_rows doc.new) d }
{
    doc.insert_run(slot, dot, run)
}

fn run_of(atoms: &[Atom]) -> Result<Run, Fail>
    requires { length atoms.now < 2 ^ 32 }
{
    match Run::new(atoms) {
        Ok(run) => Ok(run),
        Err(_) => Err(Fail::from("a run")),
    }
}

fn id_of(seq: u32, offset: u8) -> Result<AtomId, Fail> {
    let dot = dot(1, seq)?;
    match AtomId::new(dot, offset) {
        Some(id) => Ok(id),
        None => Err(Fail::from("an identity")),
    }
}

fn slot_of(beside: Option<(u32, u8, Bit)>) -> Result<Slot, Fail> {
    Ok(match beside {
        Some((seq, offset, bit)) => at(id_of(seq, offset)?, bit),
        None => Slot::Root,
    })
}

fn abcd() -> Result<Run, Fail> {
    run_of(&[letter("a")?, letter("b")?, letter("c")?, letter("d")?])
}

fn xy() -> Result<Run, Fail> {
    run_of(&[letter("x")?, letter("y")?])
}

// Both runs.
fn both_runs(rt: &impl Abort, alloc: Global) -> Result<Tree, Fail> {
    let first = dot(1, 1)?;
    let second = dot(1, 2)?;
    let abcd = abcd()?;
    let xy = xy()?;
    let right = at(AtomId::of(first), Bit::Right);
    let mut doc = Tree::empty(alloc)?;
    same(rt, put_run(&mut doc, Slot::Root, first, abcd), Ok(()));
    same(rt, put_run(&mut doc, right, second, xy), Ok(()));
    Ok(doc)
}

fn stands(rt: &impl Abort, doc: &Tree, standing: Standing) -> Result<(), Fail> {
    let (index, seq, offset, beside, text) = standing;
    let row = Row {
        id: id_of(seq, offset)?,
        slot: slot_of(beside)?,
        atom: letter(text)?,
        deletes: 0,
        index,
    };
    same(rt, doc.find(row.id), Some(row));
    Ok(())
}

fn all_stand(rt: &impl Abort, doc: &Tree) -> Result<(), Fail> {
    for atom in ATOMS {
        stands(rt, doc, atom)?;
    }
    Ok(())
}

#[test]
fn the_atoms_of_runs_stand_in_the_slots_of_their_arrays(rt: HostRuntime) -> Result<(), Fail> {
    let doc = both_runs(&rt, rt.alloc())?;
    same(&rt, (doc.rows(), doc.live()), (6, 6));
    all_stand(&rt, &doc)
}

#[test]
fn a_run_at_an_atom_of_no_row_is_refused(rt: HostRuntime) -> Result<(), Fail> {
    let id = id_of(3, 7)?;
    let run = Run::one(letter("z")?);
    let mut doc = Tree::empty(rt.alloc())?;
    let refused = put_run(&mut doc, at(id, Bit::Left), id.dot, run);
    same(&rt, refused, Err(DocFault::Gone { id }));
    Ok(())
}
