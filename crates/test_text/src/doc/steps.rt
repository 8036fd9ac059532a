//! Tables of steps: what is done to a document or asked of it, one after another, and what it answers.

use super::*;

// The first atom of an insert, or a delete, by its site and its number.
pub type Name = (u8, u32);

// The slot on a side of that atom, or the root.
pub type Place = Option<(u8, u32, Bit)>;

#[derive(Clone, Copy)]
pub enum Ask {
    // A letter is put in the slot, with this name.
    Put(Place, Name, u8),
    // The atom is deleted, by the delete of this name.
    Delete(Name, Name),
    Flatten(Place),
    Rows,
    Live,
    LiveAt(u32),
    After(Option<Name>),
    Find(Name),
    DeleteAt(Name, u32),
    Within(Name, Place),
    IsRow(Name),
    IsLive(Name),
    Empty(Place),
    Contains(Place, Place),
    // By the vector with so many operations of the sites 1 and 2.
    Known(Place, [u16; 2]),
    // Where what is placed behind the atom goes, or at the start.
    Alloc(Option<Name>),
}

#[derive(Clone, Copy, Debug, PartialEq, Eq)]
pub enum Answer {
    Done,
    Gone(Name),
    Number(u32),
    Is(bool),
    Named(Option<Name>),
    Slot(Place),
    // The slot, the letter, the number of deletes and the index.
    Row(Place, u8, u32, u32),
    NoRow,
}

pub type Step = (Ask, Answer);

fn id_of(name: Name) -> Result<AtomId, Fail> {
    let (site, seq) = name;
    Ok(AtomId::of(dot(site, seq)?))
}

fn slot_of(place: Place) -> Result<Slot, Fail> {
    Ok(match place {
        Some((site, seq, bit)) => at(id_of((site, seq))?, bit),
        None => Slot::Root,
    })
}

fn name_of(dot: Dot) -> Name {
    let Dot { site, seq } = dot;
    (site.number(), seq)
}

// An atom further on in a run has no name here: no run of the tables has one.
fn first_atom(id: AtomId) -> Name {
    let AtomId { dot, offset } = id;
    if offset == 0 { name_of(dot) } else { (0, 0) }
}

fn place_of(slot: Slot) -> Place {
    match slot {
        Slot::Root => None,
        Slot::At { atom, bit } => {
            let (site, seq) = first_atom(atom);
            Some((site, seq, bit))
        }
    }
}

fn named(id: Option<AtomId>) -> Answer {
    match id {
        Some(id) => Answer::Named(Some(first_atom(id))),
        None => Answer::Named(None),
    }
}

fn row_told(row: Option<Row>) -> Answer {
    match row {
        Some(row) => {
            let letter = row.atom.bytes().first().copied().unwrap_or(0);
            Answer::Row(place_of(row.slot), letter, row.deletes, row.index)
        }
        None => Answer::NoRow,
    }
}

fn refused(fault: &DocFault) -> Result<Answer, Fail> {
    match fault {
        DocFault::Gone { id } => Ok(Answer::Gone(first_atom(*id))),
        DocFault::Memory => Err(Fail::from("out of memory")),
    }
}

fn done(outcome: Result<(), DocFault>) -> Result<Answer, Fail> {
    match outcome {
        Ok(()) => Ok(Answer::Done),
        Err(fault) => refused(&fault),
    }
}

fn put(
    rt: &impl Abort,
    doc: &mut Rows,
    slot: Slot,
    id: AtomId,
    letter: Atom,
) -> Result<(), DocFault> {
    assert!(rt; doc.find(id).is_none());
    doc.insert(slot, id, letter)
}

fn after(rt: &impl Abort, doc: &Rows, id: AtomId) -> Option<AtomId> {
    assert!(rt; doc.find(id).is_some());
    doc.after(Some(id))
}

fn slot_after(rt: &impl Abort, doc: &Rows, id: AtomId) -> Slot {
    assert!(rt; doc.find(id).is_some());
    alloc_slot(doc, Some(id))
}

fn change(rt: &impl Abort, doc: &mut Rows, ask: Ask) -> Result<Option<Answer>, Fail> {
    let outcome = match ask {
        Ask::Put(place, name, letter) => put(
            rt,
            doc,
            slot_of(place)?,
            id_of(name)?,
            letter_of(letter)?,
        ),
        Ask::Delete(name, (site, seq)) => doc.delete(id_of(name)?, dot(site, seq)?),
        Ask::Flatten(place) => doc.flatten(slot_of(place)?),
        _ => return Ok(None),
    };
    Ok(Some(done(outcome)?))
}

// What is asked of an atom.
fn of_atom(rt: &impl Abort, doc: &Rows, ask: Ask) -> Result<Answer, Fail> {
    match ask {
        Ask::After(Some(name)) => Ok(named(after(rt, doc, id_of(name)?))),
        Ask::After(None) => Ok(named(doc.after(None))),
        Ask::Find(name) => Ok(row_told(doc.find(id_of(name)?))),
        Ask::DeleteAt(name, k) => Ok(Answer::Named(match doc.delete_at(id_of(name)?, k) {
            Some(dot) => Some(name_of(dot)),
            None => None,
        })),
        Ask::IsRow(name) => Ok(Answer::Is(doc.is_row(id_of(name)?))),
        Ask::IsLive(name) => Ok(Answer::Is(doc.is_live(id_of(name)?))),
        Ask::Alloc(Some(name)) => Ok(Answer::Slot(place_of(slot_after(rt, doc, id_of(name)?)))),
        Ask::Alloc(None) => Ok(Answer::Slot(place_of(alloc_slot(doc, None)))),
        _ => Err(Fail::from("not asked of an atom")),
    }
}

fn reply(rt: &impl Abort, doc: &mut Rows, ask: Ask) -> Result<Answer, Fail> {
    if let Some(answer) = change(rt, doc, ask)? {
        return Ok(answer);
    }
    match ask {
        Ask::Rows => Ok(Answer::Number(doc.rows())),
        Ask::Live => Ok(Answer::Number(doc.live())),
        Ask::LiveAt(index) => Ok(named(doc.live_at(index))),
        Ask::Within(name, place) => Ok(Answer::Is(doc.within(id_of(name)?, slot_of(place)?))),
        Ask::Empty(place) => Ok(Answer::Is(doc.slot_empty(slot_of(place)?))),
        Ask::Contains(outer, inner) => Ok(Answer::Is(contains(
            doc,
            slot_of(outer)?,
            slot_of(inner)?,
        ))),
        Ask::Known(place, counts) => Ok(Answer::Is(doc.known(
            slot_of(place)?,
            &Vector::of(&counts),
        ))),
        _ => of_atom(rt, doc, ask),
    }
}

fn play(rt: &impl Abort, doc: &mut Rows, steps: &[Step]) -> Result<(), Fail> {
    for (ask, expected) in steps {
        let found = reply(rt, doc, *ask)?;
        same(rt, found, *expected);
    }
    Ok(())
}

// A document begins, plays the first steps and then the others, and its text is then this, behind a "<".
pub fn plays(
    rt: &impl Abort,
    alloc: Global,
    first: &[Step],
    others: &[Step],
    text: &str,
) -> Result<(), Fail> {
    let mut doc = Rows::empty(alloc)?;
    play(rt, &mut doc, first)?;
    play(rt, &mut doc, others)?;
    let mut shown = Bytes::new(alloc);
    shown.push(b"<")?;
    doc.push_text(&mut shown)?;
    same(rt, shown.as_slice(), text.as_bytes());
    Ok(())
}
