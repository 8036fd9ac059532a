use std::alloc::Global;
use std::test::Fail;
use td_base::{Atom, AtomId, Bit, Dot, Run, Site};
use td_clock::Vector;
use td_op::*;
use td_path::Slot;

fn dot(site: u8, seq: u32) -> Result<Dot, Fail> {
    let site = Site::new(site).ok_or("a site")?;
    Ok(Dot::new(site, seq).ok_or("a dot")?)
}

fn letter(byte: u8) -> Result<Atom, Fail> {
    Ok(Atom::new(&[byte]).ok().ok_or("a letter")?)
}

fn letters(alloc: Global, text: &[u8]) -> Result<Vec<Atom>, Fail> {
    let mut atoms = Vec::new(alloc);
    for byte in text {
        atoms.push(letter(*byte)?)?;
    }
    Ok(atoms)
}

// Of two sites, of which the second has made two operations.
fn deps() -> Result<Vector, Fail> {
    let mut deps = Vector::new(2);
    deps.set(Site::new(2).ok_or("site 2")?, 2);
    Ok(deps)
}

// One body of each kind that names this site.
fn bodies(site: u8) -> Result<[Body; 5], Fail> {
    let proposal = dot(site, 1)?;
    let target = AtomId::of(proposal);
    let left = Slot::At {
        atom: target,
        bit: Bit::Left,
    };
    let right = Slot::At {
        atom: target,
        bit: Bit::Right,
    };
    let run = Run::one(letter(b'a')?);
    Ok([
        Body::Insert { slot: left, run },
        Body::Delete { target },
        Body::Propose { slot: right },
        Body::Commit { proposal },
        Body::Abort { proposal },
    ])
}

#[test]
fn a_body_names_no_site_past_the_size(rt: HostRuntime) -> Result<(), Fail> {
    for (site, valid) in [(1, true), (2, true), (3, false), (64, false)] {
        for body in bodies(site)? {
            let op = Op::new(dot(2, 3)?, deps()?, body);
            assert_eq!(rt; op.is_some(), valid, "at {body:?}");
        }
    }
    Ok(())
}

#[test]
fn a_dot_is_the_next_of_its_site(rt: HostRuntime) -> Result<(), Fail> {
    let body = Body::Propose { slot: Slot::Root };
    for (site, seq, valid) in [
        (1, 1, true),
        (1, 2, false),
        (2, 2, false),
        (2, 3, true),
        (2, 4, false),
        (3, 1, false),
    ] {
        let op = Op::new(dot(site, seq)?, deps()?, body);
        assert_eq!(rt; op.is_some(), valid, "at {site}.{seq}");
    }
    Ok(())
}

#[test]
fn an_operation_is_read_back(rt: HostRuntime) -> Result<(), Fail> {
    for body in bodies(1)? {
        let op = Op::new(dot(2, 3)?, deps()?, body).ok_or("an operation")?;
        assert_eq!(rt; op.dot(), dot(2, 3)?);
        assert_eq!(rt; *op.deps(), deps()?);
        assert_eq!(rt; op.body(), body);
        assert_eq!(rt; *op.body_ref(), body);
        assert_eq!(rt; Op::of(op.dot(), op.deps(), op.body_ref()), op);
    }
    Ok(())
}

#[test]
fn an_insertion_names_its_atoms(rt: HostRuntime) -> Result<(), Fail> {
    let run = Run::new(&[letter(b'x')?, letter(b'y')?])
        .ok()
        .ok_or("a run")?;
    let slot = Slot::Root;
    let op = Op::new(dot(2, 3)?, deps()?, Body::Insert { slot, run }).ok_or("an operation")?;
    let insertion = Insertion::of(&op).ok_or("an insertion")?;
    let ids = insertion.ids(rt.alloc())?;
    let second = AtomId::new(dot(2, 3)?, 1).ok_or("an identity")?;
    assert_eq!(rt; ids.as_slice(), [AtomId::of(dot(2, 3)?), second].as_slice());
    let other = Op::new(dot(2, 3)?, deps()?, Body::Propose { slot }).ok_or("an operation")?;
    assert_eq!(rt; Insertion::of(&other), None);
    Ok(())
}

#[test]
fn changes_are_done_at_their_index(rt: HostRuntime) -> Result<(), Fail> {
    let run = Run::new(&[letter(b'x')?, letter(b'y')?, letter(b'z')?])
        .ok()
        .ok_or("a run")?;
    let mut atoms = letters(rt.alloc(), b"abc")?;
    assert_eq!(rt; atoms.len(), 3);
    atoms.reserve(4)?;
    Change::PutRun { index: 1, run }.apply(&mut atoms);
    assert_eq!(rt;
        atoms.as_slice(),
        letters(rt.alloc(), b"axyzbc")?.as_slice()
    );
    assert_eq!(rt; atoms.len(), 6);
    Change::Put {
        index: 6,
        atom: letter(b'd')?,
    }
    .apply(&mut atoms);
    assert_eq!(rt;
        atoms.as_slice(),
        letters(rt.alloc(), b"axyzbcd")?.as_slice()
    );
    assert_eq!(rt; atoms.len(), 7);
    Change::Cut { index: 1 }.apply(&mut atoms);
    assert_eq!(rt;
        atoms.as_slice(),
        letters(rt.alloc(), b"ayzbcd")?.as_slice()
    );
    Ok(())
}
