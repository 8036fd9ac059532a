// Letters put right behind one another, with other edits between them.
use super::*;

// Where a letter is put: at the root, or on a side of the letter with a number.
#[derive(Clone, Copy)]
enum Place {
    Root,
    LeftOf(u32),
    RightOf(u32),
}

#[derive(Clone, Copy)]
enum Edit {
    // The letter with this number.
    Put(Place, u32),
    // That letter, by the delete of site 2 with this number.
    Delete(u32, u32),
    Flatten,
    Nothing,
}

// An edit, and then a letter and the index at which it stands.
type Step = (Edit, u32, u32);

// The letters 4 5 1 2 3, put in the order of their numbers.
const TYPED: [Step; 5] = [
    (Edit::Put(Place::Root, 1), 1, 0),
    (Edit::Put(Place::RightOf(1), 2), 2, 1),
    (Edit::Put(Place::RightOf(2), 3), 3, 2),
    (Edit::Put(Place::LeftOf(1), 4), 4, 0),
    (Edit::Put(Place::RightOf(4), 5), 5, 1),
];

const BEHIND_A_DELETED_ONE: [Step; 5] = [
    (Edit::Delete(5, 1), 1, 1),
    (Edit::Put(Place::RightOf(5), 6), 6, 1),
    (Edit::Delete(4, 2), 6, 0),
    (Edit::Put(Place::RightOf(6), 7), 7, 1),
    (Edit::Nothing, 3, 4),
];

const BEHIND_A_FLATTENED_ONE: [Step; 4] = [
    (Edit::Flatten, 5, 1),
    (Edit::Put(Place::RightOf(5), 6), 6, 2),
    (Edit::Put(Place::RightOf(6), 7), 7, 3),
    (Edit::Nothing, 3, 6),
];

fn id_of(seq: u32) -> Result<AtomId, Fail> {
    Ok(AtomId::of(dot(1, seq)?))
}

fn slot_of(place: Place) -> Result<Slot, Fail> {
    Ok(match place {
        Place::Root => Slot::Root,
        Place::LeftOf(seq) => at(id_of(seq)?, Bit::Left),
        Place::RightOf(seq) => at(id_of(seq)?, Bit::Right),
    })
}

fn apply(rt: &impl Abort, doc: &mut Tree, edit: Edit) -> Result<(), Fail> {
    match edit {
        Edit::Put(place, seq) => put(rt, doc, slot_of(place)?, id_of(seq)?),
        Edit::Delete(seq, by) => Ok(doc.delete(id_of(seq)?, dot(2, by)?)?),
        Edit::Flatten => Ok(doc.flatten(Slot::Root)?),
        Edit::Nothing => Ok(()),
    }
}

fn stands(rt: &impl Abort, doc: &Tree, seq: u32, index: u32) -> Result<(), Fail> {
    let id = id_of(seq)?;
    same(rt, doc.live_at(index), Some(id));
    match doc.find(id) {
        Some(row) => same(rt, row.index, index),
        None => return Err(Fail::from("a row")),
    }
    Ok(())
}

fn play(rt: &impl Abort, doc: &mut Tree, steps: &[Step]) -> Result<(), Fail> {
    for (edit, seq, index) in steps {
        apply(rt, doc, *edit)?;
        stands(rt, doc, *seq, *index)?;
    }
    Ok(())
}

// The steps behind those that type the five letters.
fn plays(rt: &impl Abort, alloc: Global, steps: &[Step]) -> Result<(), Fail> {
    let mut doc = Tree::empty(alloc)?;
    play(rt, &mut doc, &TYPED)?;
    play(rt, &mut doc, steps)
}

#[test]
fn a_letter_is_put_right_behind_a_deleted_one(rt: HostRuntime) -> Result<(), Fail> {
    plays(&rt, rt.alloc(), &BEHIND_A_DELETED_ONE)
}

#[test]
fn a_letter_is_put_right_behind_a_flattened_one(rt: HostRuntime) -> Result<(), Fail> {
    plays(&rt, rt.alloc(), &BEHIND_A_FLATTENED_ONE)
}
