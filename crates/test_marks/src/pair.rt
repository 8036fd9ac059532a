//! The marks that two sites have of one document, and what is done with them.

ghost use Rattle.std.specs.Prelude.{◌≤◌, IfOk};

use std::alloc::Global;
use std::test::Fail;
use td_base::{Atom, AtomId, Bit, Dot, Site};
use td_doc::{Doc, Rows};
use td_marks::{MarkFault, MarkTaken, Marks, NAMES};
use td_path::Slot;

/// The document, as site 1 typed it, and the marks of both sites.
#[derive(Drop)]
pub struct Pair {
    pub doc: Rows,
    pub first: Marks,
    pub second: Marks,
}

/// What is done. An atom is told by the number of the letter, from 1 and as they were typed.
#[derive(Clone, Copy)]
pub enum Do {
    /// The site gives a name to so many letters from an index on.
    Mark(u8, u8, u32, u32),
    /// The site takes a name from them.
    Unmark(u8, u8, u32, u32),
    /// The site takes all that the other one has.
    Meet(u8),
    /// Site 2 takes the operation of site 1 with this number.
    Take(u32),
    /// A site that is the only one takes the operation of site 1 with this number.
    TakeAlone(u32),
    /// The letter is typed as the one with this number, at the left of another one.
    Type(u32, u8, u32),
    /// The names that the atom has at site 1.
    Names(u32),
    Flatten,
}

/// What comes of it.
#[derive(Clone, Copy, Debug, PartialEq, Eq)]
pub enum Told {
    /// The operation of that site with that number.
    Made(u8, u32),
    Refused(MarkFault),
    /// So many operations were new.
    Met(u32),
    Taken(MarkTaken),
    Named(u32),
    Done,
}

fn id(number: u32) -> Result<AtomId, Fail> {
    let site = Site::new(1).ok_or("a site")?;
    Ok(AtomId::of(Dot::new(site, number).ok_or("a dot")?))
}

fn beside(number: u32, bit: Bit) -> Result<Slot, Fail> {
    let atom = id(number)?;
    Ok(Slot::At { atom, bit })
}

fn put(doc: &mut Rows, slot: Slot, number: u32, letter: u8) -> Result<(), Fail> {
    let id = id(number)?;
    let Ok(atom) = Atom::new(&[letter]) else {
        return Err("an atom".into());
    };
    if doc.find(id).is_some() {
        return Err("an atom that is new".into());
    }
    Ok(doc.insert(slot, id, atom)?)
}

// The first letter, or one at the right of the letter before it.
fn append(doc: &mut Rows, number: u32, letter: u8) -> Result<(), Fail> {
    if number == 1 {
        return put(doc, Slot::Root, 1, letter);
    }
    put(
        doc,
        beside(number.wrapping_sub(1), Bit::Right)?,
        number,
        letter,
    )
}

fn typed(alloc: Global, letters: &[u8]) -> Result<Rows, Fail> {
    let mut doc = Rows::empty(alloc)?;
    let mut number = 0_u32;
    for letter in letters {
        number = number.wrapping_add(1);
        append(&mut doc, number, *letter)?;
    }
    Ok(doc)
}

fn site(number: u8) -> Result<Site, Fail>
    ensures { IfOk result (λ site. site ≤ 2) }
{
    match Site::new(number) {
        Some(site) if site.number() <= 2 => Ok(site),
        _ => Err("one of two sites".into()),
    }
}

fn mark(
    marks: &mut Marks,
    doc: &mut Rows,
    add: bool,
    name: u8,
    (index, count): (u32, u32),
) -> Result<Told, Fail> {
    if name >= NAMES {
        return Err("a name".into());
    }
    Ok(match marks.mark(&*doc, add, name, index, count) {
        Ok(dot) => Told::Made(dot.site.number(), dot.seq),
        Err(fault) => Told::Refused(fault),
    })
}

fn meet(to: &mut Marks, from: &mut Marks) -> Result<Told, Fail> {
    Ok(Told::Met(to.meet(from)?))
}

fn take(to: &mut Marks, from: &mut Marks, k: u32) -> Result<Told, Fail> {
    match from.op(k) {
        Some(op) => Ok(Told::Taken(to.take(op)?)),
        None => Err("an operation".into()),
    }
}

fn take_alone(alloc: Global, from: &mut Marks, k: u32) -> Result<Told, Fail> {
    let only = Site::new(1).ok_or("a site")?;
    let mut alone = Marks::new(alloc, only, 1);
    take(&mut alone, from, k)
}

impl Pair {
    /// These letters, and no marks.
    pub fn new(alloc: Global, letters: &[u8]) -> Result<Pair, Fail> {
        let (first, second) = (site(1)?, site(2)?);
        Ok(Pair {
            doc: typed(alloc, letters)?,
            first: Marks::new(alloc, first, 2),
            second: Marks::new(alloc, second, 2),
        })
    }

    fn mark(&mut self, site: u8, add: bool, name: u8, place: (u32, u32)) -> Result<Told, Fail> {
        match site {
            1 => mark(&mut self.first, &mut self.doc, add, name, place),
            _ => mark(&mut self.second, &mut self.doc, add, name, place),
        }
    }

    fn meet(&mut self, site: u8) -> Result<Told, Fail> {
        match site {
            1 => meet(&mut self.first, &mut self.second),
            _ => meet(&mut self.second, &mut self.first),
        }
    }

    fn write(&mut self, what: Do) -> Result<Told, Fail> {
        match what {
            Do::Type(number, letter, right) => {
                put(&mut self.doc, beside(right, Bit::Left)?, number, letter)?;
            }
            _ => self.doc.flatten(Slot::Root)?,
        }
        Ok(Told::Done)
    }

    /// What comes of it.
    pub fn step(&mut self, alloc: Global, what: Do) -> Result<Told, Fail> {
        match what {
            Do::Mark(site, name, index, count) => self.mark(site, true, name, (index, count)),
            Do::Unmark(site, name, index, count) => self.mark(site, false, name, (index, count)),
            Do::Meet(site) => self.meet(site),
            Do::Take(k) => take(&mut self.second, &mut self.first, k),
            Do::TakeAlone(k) => take_alone(alloc, &mut self.first, k),
            Do::Names(number) => Ok(Told::Named(self.first.names(id(number)?))),
            Do::Type(..) | Do::Flatten => self.write(what),
        }
    }
}
