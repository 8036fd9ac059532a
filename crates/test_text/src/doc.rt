// The plain document, by worked examples: what its clauses mean, and that it finds memory.
ghost use Rattle.std.specs.Prelude.{◌≡◌, IfOk};

mod examples;
mod runs;
mod steps;

use std::alloc::Global;
use std::fmt::Debug;
use std::process::Abort;
use std::test::Fail;
use td_base::{Atom, AtomId, Bit, Bytes, Dot, Run, Site};
use td_clock::Vector;
use td_doc::*;
use td_path::Slot;

fn dot(site: u8, seq: u32) -> Result<Dot, Fail>
    ensures { IfOk result (λ dot. dot ≡ record { site = site; seq = seq }) }
{
    let Some(site) = Site::new(site) else {
        return Err(Fail::from("a site"));
    };
    match Dot::new(site, seq) {
        Some(dot) => Ok(dot),
        None => Err(Fail::from("a dot")),
    }
}

fn at(atom: AtomId, bit: Bit) -> Slot {
    Slot::At { atom, bit }
}

fn letter_of(letter: u8) -> Result<Atom, Fail> {
    match Atom::new(&[letter]) {
        Ok(atom) => Ok(atom),
        Err(_) => Err(Fail::from("an atom")),
    }
}

// What was found is what is expected. An assertion costs the check much, and here it is proved once.
fn same<T: Copy + Debug + PartialEq>(rt: &impl Abort, found: T, expected: T) {
    assert_eq!(rt; found, expected);
}

#[test]
fn a_dot_is_added_once_in_its_place(rt: HostRuntime) -> Result<(), Fail> {
    let mut dots = Vec::new(rt.alloc());
    for added in [dot(2, 1)?, dot(1, 7)?, dot(2, 1)?] {
        assert!(rt; dots.len() < 3);
        add_dot(&mut dots, added)?;
    }
    assert_eq!(rt; dots.as_slice(), [dot(1, 7)?, dot(2, 1)?].as_slice());
    Ok(())
}
