// The tree beside the plain document, and what no contract says.
ghost use Rattle.std.specs.Prelude.{◌≡◌, IfOk};

mod counts;
mod drawn;
mod large;
mod runs;
mod typing;

use std::alloc::Global;
use std::fmt::Debug;
use std::process::Abort;
use std::test::Fail;
use td_base::{Atom, AtomId, Bit, Bytes, Dot, Run, Site};
use td_clock::Vector;
use td_doc::{Doc, DocFault, Row, Rows};
use td_path::Slot;
use td_tree::*;

fn dot(site: u8, seq: u32) -> Result<Dot, Fail>
    ensures { IfOk result (λ dot. dot ≡ record { site = site; seq = seq }) }
{
    let Some(site) = Site::new(site) else {
        return Err(Fail::from("a site"));
    };
    match Dot::new(site, seq) {
        Some(dot) => Ok(dot),
        None => Err(Fail::from("a dot")),
    }
}

fn at(atom: AtomId, bit: Bit) -> Slot {
    Slot::At { atom, bit }
}

fn letter(text: &str) -> Result<Atom, Fail> {
    match Atom::new(text.as_bytes()) {
        Ok(atom) => Ok(atom),
        Err(_) => Err(Fail::from("an atom")),
    }
}

// Puts an a in a slot.
fn put<D: Doc>(rt: &impl Abort, doc: &mut D, slot: Slot, id: AtomId) -> Result<(), Fail> {
    let atom = letter("a")?;
    assert!(rt; doc.find(id).is_none());
    Ok(doc.insert(slot, id, atom)?)
}

// What was found is what is expected. An assertion costs the check much, and here it is proved once.
fn same<T: Copy + Debug + PartialEq>(rt: &impl Abort, found: T, expected: T) {
    assert_eq!(rt; found, expected);
}
