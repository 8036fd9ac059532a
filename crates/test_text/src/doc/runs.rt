// "abcd" at the root, and then "xy" in another slot.
ghost use Rattle.std.specs.Prelude.{◌≡◌, ◌≢◌, ◌<◌, ◌^◌, [], length};
ghost use Rattle.td_base.specs.Value.{DotValue};
ghost use Rattle.td_doc.specs.Answers.{IsFresh};

use super::*;

// An atom, by its index, the number of its run and its place there, the atom in whose slot it stands, with the side,
// and its letter. The atom with no such atom stands at the root.
type Standing = (u32, u32, u8, Option<(u32, u8, Bit)>, u8);

// "xy" is on the right of the a.
const ATOMS: [Standing; 6] = [
    (0, 1, 0, Some((1, 1, Bit::Left)), b'a'),
    (1, 2, 0, Some((2, 1, Bit::Left)), b'x'),
    (2, 2, 1, Some((1, 0, Bit::Right)), b'y'),
    (3, 1, 1, Some((1, 2, Bit::Left)), b'b'),
    (4, 1, 2, None, b'c'),
    (5, 1, 3, Some((1, 2, Bit::Right)), b'd'),
];

// Puts a run in a slot. What it adds has its dot.
#[tactic(auto, using(td_doc::proofs::FreshDots::fresh_after))]
fn put_run(doc: &mut Rows, slot: Slot, dot: Dot, run: Run) -> Result<(), DocFault>
    requires { IsFresh doc.old dot }
    ensures { (d : DotValue) → d ≢ dot → IsFresh doc.old d → IsFresh doc.new d }
{
    doc.insert_run(slot, dot, run)
}

fn run_of(atoms: &[Atom]) -> Result<Run, Fail>
    requires { length atoms.now < 2 ^ 32 }
{
    match Run::new(atoms) {
        Ok(run) => Ok(run),
        Err(_) => Err(Fail::from("a run")),
    }
}

fn abcd() -> Result<Run, Fail> {
    run_of(&[
        letter_of(b'a')?,
        letter_of(b'b')?,
        letter_of(b'c')?,
        letter_of(b'd')?,
    ])
}

fn xy() -> Result<Run, Fail> {
    run_of(&[letter_of(b'x')?, letter_of(b'y')?])
}

fn id_of(seq: u32, offset: u8) -> Result<AtomId, Fail> {
    let dot = dot(1, seq)?;
    match AtomId::new(dot, offset) {
        Some(id) => Ok(id),
        None => Err(Fail::from("an identity")),
    }
}

fn slot_of(beside: Option<(u32, u8, Bit)>) -> Result<Slot, Fail> {
    Ok(match beside {
        Some((seq, offset, bit)) => at(id_of(seq, offset)?, bit),
        None => Slot::Root,
    })
}

fn stands(rt: &impl Abort, doc: &Rows, standing: Standing) -> Result<(), Fail> {
    let (index, seq, offset, beside, letter) = standing;
    let row = Row {
        id: id_of(seq, offset)?,
        slot: slot_of(beside)?,
        atom: letter_of(letter)?,
        deletes: 0,
        index,
    };
    same(rt, doc.find(row.id), Some(row));
    Ok(())
}

fn all_stand(rt: &impl Abort, doc: &Rows) -> Result<(), Fail> {
    for atom in ATOMS {
        stands(rt, doc, atom)?;
    }
    Ok(())
}

// Both runs, "xy" in this slot. A third at an atom of no row is refused.
fn both_runs(rt: &impl Abort, doc: &mut Rows, slot: Slot) -> Result<(), Fail>
    requires { doc.old ≡ [] }
{
    let first = dot(1, 1)?;
    let second = dot(1, 2)?;
    let third = dot(1, 3)?;
    let abcd = abcd()?;
    let xy = xy()?;
    let gone = AtomId::of(dot(2, 7)?);
    same(rt, put_run(doc, Slot::Root, first, abcd), Ok(()));
    same(rt, put_run(doc, slot, second, xy), Ok(()));
    same(
        rt,
        put_run(doc, at(gone, Bit::Left), third, xy),
        Err(DocFault::Gone { id: gone }),
    );
    same(rt, (doc.rows(), doc.live()), (6, 6));
    Ok(())
}

#[test]
fn a_run_goes_in_each_slot(rt: HostRuntime) -> Result<(), Fail> {
    for beside in [None, Some((1, 0, Bit::Left)), Some((1, 0, Bit::Right))] {
        let slot = slot_of(beside)?;
        let mut doc = Rows::empty(rt.alloc())?;
        both_runs(&rt, &mut doc, slot)?;
    }
    Ok(())
}

#[test]
fn the_atoms_of_runs_stand_in_the_slots_of_their_arrays(rt: HostRuntime) -> Result<(), Fail> {
    let right = slot_of(Some((1, 0, Bit::Right)))?;
    let mut doc = Rows::empty(rt.alloc())?;
    both_runs(&rt, &mut doc, right)?;
    all_stand(&rt, &doc)
}
