// How many rows the slots of both documents contain.
use super::*;

// The root, the left and the right side of the first letter, a side of the second, and one of a letter that no row is.
type Counts = [u32; 5];

fn id_of(seq: u32) -> Result<AtomId, Fail> {
    Ok(AtomId::of(dot(1, seq)?))
}

fn counts<D: Doc>(rt: &impl Abort, doc: &D, expected: Counts) -> Result<(), Fail> {
    let [root, left, right, below, unknown] = expected;
    same(rt, doc.count(Slot::Root), root);
    same(rt, doc.count(at(id_of(1)?, Bit::Left)), left);
    same(rt, doc.count(at(id_of(1)?, Bit::Right)), right);
    same(rt, doc.count(at(id_of(2)?, Bit::Right)), below);
    same(rt, doc.count(at(id_of(9)?, Bit::Left)), unknown);
    Ok(())
}

// A letter at the root, one on its left, and two on its right, of which one is deleted: a tombstone is counted until
// its slot is flattened. At last the letters are one array.
fn counted<D: Doc>(rt: &impl Abort, doc: &mut D) -> Result<(), Fail> {
    counts(rt, doc, [0, 0, 0, 0, 0])?;
    put(rt, doc, Slot::Root, id_of(1)?)?;
    put(rt, doc, at(id_of(1)?, Bit::Left), id_of(2)?)?;
    put(rt, doc, at(id_of(1)?, Bit::Right), id_of(3)?)?;
    put(rt, doc, at(id_of(3)?, Bit::Right), id_of(4)?)?;
    counts(rt, doc, [4, 1, 2, 0, 0])?;
    doc.delete(id_of(4)?, dot(2, 1)?)?;
    counts(rt, doc, [4, 1, 2, 0, 0])?;
    doc.flatten(at(id_of(1)?, Bit::Right))?;
    counts(rt, doc, [3, 1, 1, 0, 0])?;
    doc.flatten(Slot::Root)?;
    counts(rt, doc, [3, 1, 1, 0, 0])
}

#[test]
fn rows_of_slots_are_counted_with_their_tombstones(rt: HostRuntime) -> Result<(), Fail> {
    counted(&rt, &mut Rows::empty(rt.alloc())?)?;
    counted(&rt, &mut Tree::empty(rt.alloc())?)
}
