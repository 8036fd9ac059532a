// A document of 20,000 letters, typed in a row.
use super::*;

const LETTERS: u32 = 20_000;

// A letter, the number of its delete, and how many live rows and nodes there are then. The array of 20,000 has its
// 10,001st atom as its top, and its first at the end of 14 steps to the left.
const DELETES: [(u32, u32, u32, u32); 2] = [
    (LETTERS / 2 + 1, 1, LETTERS - 1, 1),
    (1, 2, LETTERS - 2, 15),
];

fn type_letters(rt: &impl Abort, doc: &mut Tree) -> Result<(), Fail> {
    let mut slot = Slot::Root;
    for seq in 1..LETTERS + 1 {
        let id = AtomId::of(dot(1, seq)?);
        put(rt, doc, slot, id)?;
        slot = at(id, Bit::Right);
    }
    Ok(())
}

fn delete(doc: &mut Tree, seq: u32, by: u32) -> Result<(), Fail> {
    Ok(doc.delete(AtomId::of(dot(1, seq)?), dot(2, by)?)?)
}

fn tally(doc: &Tree) -> (u32, u32, u32) {
    (doc.rows(), doc.live(), doc.nodes())
}

fn flattened_and_opened(rt: &impl Abort, doc: &mut Tree) -> Result<(), Fail> {
    type_letters(rt, doc)?;
    same(rt, tally(doc), (LETTERS, LETTERS, LETTERS));
    doc.flatten(Slot::Root)?;
    same(rt, tally(doc), (LETTERS, LETTERS, 0));
    for (seq, by, live, nodes) in DELETES {
        delete(doc, seq, by)?;
        same(rt, tally(doc), (LETTERS, live, nodes));
    }
    Ok(())
}

#[test]
fn a_large_document_is_flattened_and_opened_again(rt: HostRuntime) -> Result<(), Fail> {
    let mut doc = Tree::empty(rt.alloc())?;
    flattened_and_opened(&rt, &mut doc)
}
