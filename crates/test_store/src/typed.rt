ghost use Rattle.std.specs.Prelude.{◌≡◌, length, IfOk};

use crate::ops::{deps, dot, reads, run, run_of};
use std::alloc::Global;
use std::process::Abort;
use std::test::Fail;
use td_base::{Atom, AtomId, Bit, Run};
use td_op::{Body, Op};
use td_path::Slot;
use td_store::Ops;

const COUNT: u32 = 621;

// Of the operation at a place its site, its number there, and how many of the first site's it knows. The first site
// types 6, then both by turns, and then each some more, the second one with two vectors; the last 605 are of the first
// site.
fn made(k: u32) -> (u8, u32, u32) {
    match k {
        0..=5 => (1, k + 1, 0),
        6 | 8 => (2, k / 2 - 2, 0),
        7 => (1, 7, 0),
        9..=11 => (1, k - 1, 0),
        12 | 13 => (2, k - 9, 0),
        14 | 15 => (2, k - 9, 9),
        _ => (1, k - 5, 0),
    }
}

fn letter(k: u32) -> Result<Run, Fail> {
    let byte = b'a' + (k % 26) as u8;
    run(&[Atom::new(&[byte]).ok().ok_or("a letter")?])
}

// Beside the operation of the site with this number, or at the root where that is 0.
fn beside(site: u8, seq: u32, bit: Bit) -> Result<Slot, Fail> {
    if seq == 0 {
        return Ok(Slot::Root);
    }
    let atom = AtomId::of(dot(site, seq)?);
    Ok(Slot::At { atom, bit })
}

// Each puts a letter right behind the operation of the site before it, but for a paste, a delete, one that is put
// behind the one before that, one that has no letter, and one on the left.
fn body(k: u32, site: u8, seq: u32) -> Result<Body, Fail> {
    let target = AtomId::of(dot(site, seq)?);
    if k == 3 {
        return Ok(Body::Delete { target });
    }
    let bit = if k == 11 { Bit::Left } else { Bit::Right };
    let back = if k == 4 { 2 } else { 1 };
    let slot = beside(site, seq.saturating_sub(back), bit)?;
    let run = match k {
        1 => run_of(2)?,
        5 => run(&[Atom::new("é".as_bytes()).ok().ok_or("an atom")?])?,
        _ => letter(k)?,
    };
    Ok(Body::Insert { slot, run })
}

fn operation(k: u32) -> Result<Op, Fail>
    ensures { IfOk result (λ op. length op.deps ≡ 2) }
{
    let (site, seq, first) = made(k);
    let dot = dot(site, seq)?;
    Ok(Op::new(dot, deps(2, first, dot)?, body(k, site, seq)?).ok_or("an operation")?)
}

fn add(ops: &mut Ops, k: u32) -> Result<(), Fail>
    requires { ops.old.size ≡ 2 }
    ensures { ops.new.size ≡ 2 }
{
    let op = operation(k)?;
    ops.reserve(1)?;
    ops.push(&op);
    Ok(())
}

fn add_all(ops: &mut Ops) -> Result<(), Fail>
    requires { ops.old.size ≡ 2 }
{
    for k in 0..COUNT {
        add(ops, k)?;
    }
    Ok(())
}

fn has_deps(ops: &Ops, k: u32, op: &Op) -> bool {
    k < ops.len() && ops.deps(k) == *op.deps()
}

fn reads_all(rt: &impl Abort, ops: &Ops) -> Result<(), Fail> {
    for k in 0..COUNT {
        let op = operation(k)?;
        assert!(rt; reads(ops, k, Some(op)) && has_deps(ops, k, &op), "at {k}");
    }
    assert!(rt; reads(ops, COUNT, None));
    Ok(())
}

// The debug text alone tells how many operations are kept whole: those of which the comment at `body` tells, the first
// one of each site, one wherever the site or the vector changes, and each that has 255 letters behind the one before.
fn has_fifteen_heads(alloc: Global, ops: &Ops) -> Result<bool, Fail> {
    let text = format!(in alloc; "{ops:?}")?;
    Ok(text.contains("heads: 15, "))
}

#[test]
fn what_is_typed_is_read_back(rt: HostRuntime) -> Result<(), Fail> {
    let mut ops = Ops::new(rt.alloc(), 2);
    add_all(&mut ops)?;
    reads_all(&rt, &ops)?;
    assert!(&rt; has_fifteen_heads(rt.alloc(), &ops)?);
    Ok(())
}
