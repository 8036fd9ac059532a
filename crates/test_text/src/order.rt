use std::alloc::Global;
use std::process::Abort;
use std::test::Fail;
use td_base::{Atom, AtomId, Bit, Dot, MAX_SEQ, Run, Site};
use td_clock::Vector;
use td_op::{Body, Op};
use td_order::*;
use td_path::Slot;

// What an operation does. An atom is named by the dot of its insert, and is the first of it.
#[derive(Clone, Copy)]
enum Act {
    Root(&'static str),
    Left(u8, u32, &'static str),
    Right(u8, u32, &'static str),
    Delete(u8, u32),
    Propose,
    Commit(u8, u32),
    GiveUp(u8, u32),
}

// An operation of three sites: its site and number, how many of each site it knew, and what it does.
type Row = (u8, u32, [u32; 3], Act);

fn dot(site: u8, seq: u32) -> Result<Dot, Fail> {
    let site = Site::new(site).ok_or("a site")?;
    Ok(Dot::new(site, seq).ok_or("a dot")?)
}

fn id(site: u8, seq: u32, offset: u8) -> Result<AtomId, Fail> {
    Ok(AtomId::new(dot(site, seq)?, offset).ok_or("an identity")?)
}

fn deps(known: [u32; 3]) -> Result<Vector, Fail> {
    let mut deps = Vector::new(3);
    for (site, number) in [(1, known[0]), (2, known[1]), (3, known[2])] {
        let site = Site::new(site).ok_or("a site")?;
        if site.number() <= deps.size() && number <= MAX_SEQ {
            deps.set(site, number);
        }
    }
    Ok(deps)
}

// A run of one or more letters.
fn run(alloc: Global, text: &str) -> Result<Run, Fail> {
    let mut atoms = Vec::new(alloc);
    for byte in text.as_bytes() {
        atoms.push(Atom::new(&[*byte]).ok().ok_or("a letter")?)?;
    }
    let len = atoms.len().min(64);
    Ok(Run::new(&atoms[..len]).ok().ok_or("a run")?)
}

fn insert(alloc: Global, slot: Slot, text: &str) -> Result<Body, Fail> {
    let run = run(alloc, text)?;
    Ok(Body::Insert { slot, run })
}

fn at(site: u8, seq: u32, bit: Bit) -> Result<Slot, Fail> {
    let atom = id(site, seq, 0)?;
    Ok(Slot::At { atom, bit })
}

fn body(alloc: Global, act: Act) -> Result<Body, Fail> {
    Ok(match act {
        Act::Root(text) => insert(alloc, Slot::Root, text)?,
        Act::Left(site, seq, text) => insert(alloc, at(site, seq, Bit::Left)?, text)?,
        Act::Right(site, seq, text) => insert(alloc, at(site, seq, Bit::Right)?, text)?,
        Act::Delete(site, seq) => Body::Delete {
            target: id(site, seq, 0)?,
        },
        Act::Propose => Body::Propose { slot: Slot::Root },
        Act::Commit(site, seq) => Body::Commit {
            proposal: dot(site, seq)?,
        },
        Act::GiveUp(site, seq) => Body::Abort {
            proposal: dot(site, seq)?,
        },
    })
}

fn op(alloc: Global, row: Row) -> Result<Op, Fail> {
    let (site, seq, known, act) = row;
    Ok(Op::new(dot(site, seq)?, deps(known)?, body(alloc, act)?).ok_or("an operation")?)
}

fn ops(alloc: Global, rows: &[Row]) -> Result<Vec<Op>, Fail> {
    let mut ops = Vec::new(alloc);
    for row in rows {
        ops.push(op(alloc, *row)?)?;
    }
    Ok(ops)
}

// The operations show the text, and in the other order of the list too.
fn shows(rt: &impl Abort, alloc: Global, rows: &[Row], text: &str) -> Result<(), Fail> {
    let mut ops = ops(alloc, rows)?;
    assert!(rt; dots_differ(&ops), "{text}");
    assert_eq!(rt; show_of(alloc, &ops)?.as_slice(), text.as_bytes(), "{text}");
    ops.reverse();
    assert!(rt; dots_differ(&ops), "{text}");
    assert_eq!(rt;
        show_of(alloc, &ops)?.as_slice(),
        text.as_bytes(),
        "{text} in reverse"
    );
    Ok(())
}

#[test]
fn what_is_put_at_once_in_one_slot_stands_by_dot(rt: HostRuntime) -> Result<(), Fail> {
    let root = [
        (2, 1, [0, 0, 0], Act::Root("b")),
        (1, 1, [0, 0, 0], Act::Root("a")),
    ];
    shows(&rt, rt.alloc(), &root, "ab")?;
    let gap = [
        (1, 1, [0, 0, 0], Act::Root("a")),
        (1, 2, [1, 0, 0], Act::Right(1, 1, "c")),
        (1, 3, [2, 0, 0], Act::Left(1, 2, "X")),
        (2, 1, [2, 0, 0], Act::Left(1, 2, "Y")),
    ];
    shows(&rt, rt.alloc(), &gap, "aXYc")?;
    let three_sites = [
        (3, 1, [0, 0, 0], Act::Root("e")),
        (3, 2, [0, 0, 1], Act::Right(3, 1, "f")),
        (1, 1, [0, 0, 0], Act::Root("a")),
        (1, 2, [1, 0, 0], Act::Right(1, 1, "b")),
        (2, 1, [0, 0, 0], Act::Root("c")),
        (2, 2, [0, 1, 0], Act::Right(2, 1, "d")),
    ];
    shows(&rt, rt.alloc(), &three_sites, "abcdef")
}

// The one that knew less is placed last here, since its site made other operations first.
#[test]
fn siblings_stand_with_what_is_under_them(rt: HostRuntime) -> Result<(), Fail> {
    let after_the_smaller = [
        (1, 1, [0, 0, 0], Act::Root("a")),
        (1, 2, [1, 0, 0], Act::Right(1, 1, "b")),
        (2, 1, [0, 0, 0], Act::Propose),
        (2, 2, [0, 1, 0], Act::GiveUp(2, 1)),
        (2, 3, [0, 2, 0], Act::Root("x")),
    ];
    shows(&rt, rt.alloc(), &after_the_smaller, "abx")?;
    let before_the_greater = [
        (2, 1, [0, 0, 0], Act::Root("b")),
        (2, 2, [0, 1, 0], Act::Left(2, 1, "a")),
        (1, 1, [0, 0, 0], Act::Propose),
        (1, 2, [1, 0, 0], Act::GiveUp(1, 1)),
        (1, 3, [2, 0, 0], Act::Root("x")),
    ];
    shows(&rt, rt.alloc(), &before_the_greater, "xab")?;
    let between = [
        (1, 1, [0, 0, 0], Act::Root("a")),
        (3, 1, [0, 0, 0], Act::Root("c")),
        (2, 1, [0, 0, 0], Act::Propose),
        (2, 2, [0, 1, 0], Act::Root("b")),
    ];
    shows(&rt, rt.alloc(), &between, "abc")
}

#[test]
fn what_was_known_is_no_sibling(rt: HostRuntime) -> Result<(), Fail> {
    let slot_used_again = [
        (1, 1, [0, 0, 0], Act::Root("x")),
        (1, 2, [1, 0, 0], Act::Right(1, 1, "y")),
        (1, 3, [2, 0, 0], Act::Delete(1, 2)),
        (1, 4, [3, 0, 0], Act::Propose),
        (1, 5, [4, 0, 0], Act::Commit(1, 4)),
        (1, 6, [5, 0, 0], Act::Right(1, 1, "p")),
        (2, 1, [5, 0, 0], Act::Right(1, 1, "q")),
    ];
    shows(&rt, rt.alloc(), &slot_used_again, "xpq")?;
    let held = [
        (1, 1, [0, 0, 0], Act::Root("a")),
        (1, 2, [1, 0, 0], Act::Right(1, 1, "b")),
        (1, 3, [2, 0, 0], Act::Propose),
        (1, 4, [3, 0, 0], Act::Commit(1, 3)),
        (1, 5, [4, 0, 0], Act::Left(1, 1, "x")),
    ];
    shows(&rt, rt.alloc(), &held, "xab")
}

#[test]
fn deleted_atoms_keep_their_place_and_are_not_shown(rt: HostRuntime) -> Result<(), Fail> {
    let both_delete = [
        (1, 1, [0, 0, 0], Act::Root("a")),
        (1, 2, [1, 0, 0], Act::Right(1, 1, "b")),
        (1, 3, [2, 0, 0], Act::Delete(1, 1)),
        (2, 1, [2, 0, 0], Act::Delete(1, 1)),
    ];
    shows(&rt, rt.alloc(), &both_delete, "b")?;
    let beside_a_tombstone = [
        (1, 1, [0, 0, 0], Act::Root("a")),
        (1, 2, [1, 0, 0], Act::Right(1, 1, "b")),
        (1, 3, [2, 0, 0], Act::Right(1, 2, "c")),
        (1, 4, [3, 0, 0], Act::Delete(1, 2)),
        (1, 5, [4, 0, 0], Act::Left(1, 2, "x")),
    ];
    shows(&rt, rt.alloc(), &beside_a_tombstone, "axc")
}

// A paste that two sites split at once.
#[test]
fn runs_stay_together(rt: HostRuntime) -> Result<(), Fail> {
    let rows = [
        (1, 1, [0, 0, 0], Act::Root("abcd")),
        (2, 1, [1, 0, 0], Act::Right(1, 1, "xy")),
        (1, 2, [1, 0, 0], Act::Right(1, 1, "z")),
    ];
    shows(&rt, rt.alloc(), &rows, "azxybcd")?;
    let ops = ops(rt.alloc(), &rows)?;
    assert!(rt; dots_differ(&ops));
    let order = AtomIds::new(order_of(rt.alloc(), &ops)?.into_vec());
    let atoms = [
        id(1, 1, 0)?,
        id(1, 2, 0)?,
        id(2, 1, 0)?,
        id(2, 1, 1)?,
        id(1, 1, 1)?,
        id(1, 1, 2)?,
        id(1, 1, 3)?,
    ];
    assert_eq!(rt; order.as_slice(), atoms.as_slice());
    Ok(())
}

#[test]
fn a_dot_that_comes_twice_is_found(rt: HostRuntime) -> Result<(), Fail> {
    let twice = [
        (1, 1, [0, 0, 0], Act::Root("a")),
        (2, 1, [1, 0, 0], Act::Propose),
        (1, 1, [0, 1, 0], Act::Delete(2, 1)),
    ];
    assert!(rt; !dots_differ(&ops(rt.alloc(), &twice)?));
    Ok(())
}
