ghost use Rattle.std.specs.Prelude.{◌<◌, ◌^◌, length};

use std::alloc::Global;
use std::process::Abort;
use std::test::Fail;
use td_base::{Atom, Bytes, Memory, Run};
use td_rope::*;

// An atom of so many bytes, all of them this letter.
fn atom(letter: u8, len: usize) -> Result<Atom, Fail> {
    let bytes = [letter; 64];
    let piece = bytes.get(..len).ok_or("a length")?;
    Ok(Atom::new(piece).map_err(|_| "an atom")?)
}

// The text, and its bytes from an index up to another.
fn text(alloc: Global, rope: &Rope, from: u32, to: u32) -> Result<(Bytes, Bytes), Memory> {
    let mut all = Bytes::new(alloc);
    rope.push_text(&mut all)?;
    let mut part = Bytes::new(alloc);
    rope.push_range(from, to, &mut part)?;
    Ok((all, part))
}

fn put_all(rt: &impl Abort, alloc: Global, rope: &mut Rope) -> Result<(), Fail> {
    assert_eq!(rt; (rope.is_empty(), rope.atom(0)), (true, None));
    let run = Run::new(&[atom(b'b', 1)?, atom(b'c', 2)?]).map_err(|_| "a run")?;
    for edit in [(0, b'd'), (0, b'a'), (2, b'e')] {
        assert!(rt; edit.0 <= rope.len());
        assert_eq!(rt; rope.put(edit.0, atom(edit.1, 1)?), Ok(()));
    }
    assert!(rt; rope.len() == 3);
    assert_eq!(rt; rope.put_run(1, &run), Ok(()));
    assert_eq!(rt;
        (rope.atom(2), rope.atom(4), rope.atom(5)),
        (Some(atom(b'c', 2)?), Some(atom(b'e', 1)?), None)
    );
    let told = text(alloc, rope, 1, 3)?;
    assert_eq!(rt;
        (told.0.as_slice(), told.1.as_slice()),
        (b"abccde".as_slice(), b"bcc".as_slice())
    );
    Ok(())
}

#[test]
fn atoms_and_runs_are_put_at_the_front_in_the_middle_and_at_the_end(
    rt: HostRuntime,
) -> Result<(), Fail> {
    let mut rope = Rope::new(rt.alloc());
    put_all(&rt, rt.alloc(), &mut rope)
}

// Of a text of three letters the ranges from an index up to another, and how many letters these have.
const RANGES: [(u32, u32, usize); 5] = [(0, 9, 3), (2, 9, 1), (3, 9, 0), (9, 12, 0), (2, 1, 0)];

fn has_ranges(rt: &impl Abort, alloc: Global, rope: &Rope) -> Result<(), Fail> {
    for (from, to, len) in &RANGES {
        let told = text(alloc, rope, *from, *to)?;
        assert_eq!(rt; told.1.as_slice().len(), *len);
    }
    Ok(())
}

#[test]
fn a_range_goes_as_far_as_the_text(rt: HostRuntime) -> Result<(), Fail> {
    let (rope, _) = letters(&rt, rt.alloc(), 3, 1)?;
    has_ranges(&rt, rt.alloc(), &rope)
}

// A text of so many atoms, each put where its number says, and the letters of these in a plain list.
fn letters(rt: &impl Abort, alloc: Global, count: u32, len: usize) -> Result<(Rope, Vec<u8>), Fail>
    requires { count < 10000 }
{
    let mut rope = Rope::new(alloc);
    let mut plain: Vec<u8> = Vec::new(alloc);
    fill(rt, &mut rope, &mut plain, count, len)?;
    Ok((rope, plain))
}

fn fill(
    rt: &impl Abort,
    rope: &mut Rope,
    plain: &mut Vec<u8>,
    count: u32,
    len: usize,
) -> Result<(), Fail>
    requires { count < 10000 }
{
    for number in 0..count {
        assert!(rt; rope.len() < 10000);
        let letter = (number % 200) as u8;
        let index = number * 7919 % (rope.len() + 1);
        assert!(rt; index as usize <= plain.len());
        rope.put(index, atom(letter % 128, len)?)?;
        plain.insert(index as usize, letter % 128)?;
    }
    Ok(())
}

// Takes so many atoms out, here and there, and their letters out of the plain list.
fn thin(rt: &impl Abort, rope: &mut Rope, plain: &mut Vec<u8>, count: u32)
    requires { count < 10000 }
{
    for number in 0..count {
        assert!(rt; rope.len() > 0);
        let index = number * 7919 % rope.len();
        assert!(rt; (index as usize) < plain.len());
        rope.take_out(index);
        plain.remove(index as usize);
    }
}

// Whether the atoms begin with these letters, in order, and are no more.
fn spells(rope: &Rope, plain: &[u8]) -> bool
    requires { length plain.now < 2 ^ 32 }
{
    for (index, letter) in plain.iter().enumerate() {
        let Some(atom) = rope.atom(index as u32) else {
            return false;
        };
        if atom.bytes()[0] != *letter {
            return false;
        }
    }
    rope.len() as usize == plain.len()
}

fn stands_as(rt: &impl Abort, alloc: Global, rope: &Rope, plain: &[u8]) -> Result<(), Fail> {
    let told = text(alloc, rope, 700, 2700)?;
    assert!(rt; told.0.as_slice() == plain);
    assert_eq!(rt; plain.len(), 5000);
    assert!(rt; told.1.as_slice() == &plain[700..2700]);
    Ok(())
}

#[test]
fn some_thousand_letters_stand_as_in_a_plain_list(rt: HostRuntime) -> Result<(), Fail> {
    let (rope, plain) = letters(&rt, rt.alloc(), 5000, 1)?;
    stands_as(&rt, rt.alloc(), &rope, &plain)
}

fn is_cut_down(rt: &impl Abort, rope: &mut Rope, plain: &mut Vec<u8>) -> Result<(), Fail> {
    assert!(rt; plain.len() == 2000);
    assert!(rt; spells(rope, plain));
    thin(rt, rope, plain, 1900);
    assert!(rt; plain.len() == 100);
    assert!(rt; spells(rope, plain));
    thin(rt, rope, plain, 100);
    assert_eq!(rt; (rope.is_empty(), plain.len()), (true, 0));
    assert!(rt; rope.len() == 0);
    assert_eq!(rt; rope.put(0, atom(b'a', 64)?), Ok(()));
    assert_eq!(rt; rope.atom(0), Some(atom(b'a', 64)?));
    Ok(())
}

#[test]
fn long_atoms_fill_rows_and_are_cut_down_to_nothing(rt: HostRuntime) -> Result<(), Fail> {
    let (mut rope, mut plain) = letters(&rt, rt.alloc(), 2000, 64)?;
    is_cut_down(&rt, &mut rope, &mut plain)
}
