ghost use Rattle.std.specs.Prelude.{◌≡◌, ◌<◌, ◌^◌, length, IfOk};

use std::alloc::Global;
use std::process::Abort;
use std::test::Fail;
use td_base::{Atom, AtomId, Bit, Dot, MAX_SEQ, MAX_SITE, Memory, Run, Site};
use td_clock::Vector;
use td_op::{Body, Op};
use td_path::Slot;
use td_store::Ops;

pub(crate) fn dot(site: u8, seq: u32) -> Result<Dot, Fail> {
    let site = Site::new(site).ok_or("a site")?;
    Ok(Dot::new(site, seq).ok_or("a dot")?)
}

fn atom(text: &str) -> Result<Atom, Fail> {
    Ok(Atom::new(text.as_bytes()).ok().ok_or("an atom")?)
}

pub(crate) fn run(atoms: &[Atom]) -> Result<Run, Fail>
    requires { length atoms.now < 2 ^ 32 }
{
    Ok(Run::new(atoms).ok().ok_or("a run")?)
}

const LONG: &str = "0123456789abcdef0123456789abcdef0123456789abcdef0123456789abcdef";

// A run of each way in which one is stored.
pub(crate) fn run_of(kind: u32) -> Result<Run, Fail> {
    match kind {
        0 => run(&[atom("x")?]),
        1 => run(&[atom("a")?; 64]),
        2 => run(&[atom("a")?, atom("é")?, atom("€")?, atom("😀")?]),
        _ => run(&[atom(LONG)?]),
    }
}

// A slot of each kind: the root, or a side of the atom.
fn slot_of(kind: u32, atom: AtomId) -> Slot {
    match kind {
        0 => Slot::Root,
        1 => Slot::At {
            atom,
            bit: Bit::Left,
        },
        _ => Slot::At {
            atom,
            bit: Bit::Right,
        },
    }
}

fn insert(slot: u32, atom: AtomId, run: u32) -> Result<Body, Fail> {
    Ok(Body::Insert {
        slot: slot_of(slot, atom),
        run: run_of(run)?,
    })
}

// A body of each kind, which names this dot or this atom.
fn body_of(kind: u32, proposal: Dot, target: AtomId) -> Result<Body, Fail> {
    match kind {
        0 => insert(0, target, 0),
        1 => insert(1, target, 1),
        2 => insert(2, target, 2),
        3 => Ok(Body::Delete { target }),
        4 => insert(1, target, 3),
        5..=7 => Ok(Body::Propose {
            slot: slot_of(kind - 5, target),
        }),
        8 => Ok(Body::Commit { proposal }),
        _ => Ok(Body::Abort { proposal }),
    }
}

// It names the greatest identity of the site.
fn body(site: u8, k: u32) -> Result<Body, Fail> {
    let proposal = dot(site, MAX_SEQ)?;
    let target = AtomId::new(proposal, 63).ok_or("the last atom")?;
    body_of(k % 10, proposal, target)
}

// What an operation with this dot depends on: so many of the first site's, and those of its own site before it.
pub(crate) fn deps(n: u8, first: u32, dot: Dot) -> Result<Vector, Fail>
    ensures { IfOk result (λ deps. length deps ≡ n) }
{
    if n == 0 || n > MAX_SITE || dot.site.number() > n || first > MAX_SEQ {
        return Err("a vector".into());
    }
    let mut deps = Vector::new(n);
    deps.set(Site::new(1).ok_or("site 1")?, first);
    deps.set(dot.site, dot.seq - 1);
    Ok(deps)
}

const COUNT: u32 = 41;

// Of the operation at a place its site, its number there, and how many of the first site's it knows. First the last
// site makes one operation of each body and knows of no other, then the second one of each and each time knows of one
// more of the first, then both by turns, and the last is the last that a site can make.
fn made(n: u8, k: u32) -> (u8, u32, u32) {
    if k < 10 {
        (n, k + 1, 0)
    } else if k < 20 {
        (2, k - 9, k - 9)
    } else if k == 40 {
        (n, MAX_SEQ, 9)
    } else if k % 2 == 0 {
        (n, k / 2 + 1, 0)
    } else {
        (2, k / 2 + 1, 10)
    }
}

fn operation(n: u8, k: u32) -> Result<Op, Fail>
    ensures { IfOk result (λ op. length op.deps ≡ n) }
{
    let (site, seq, first) = made(n, k);
    let dot = dot(site, seq)?;
    Ok(Op::new(dot, deps(n, first, dot)?, body(n, k)?).ok_or("an operation")?)
}

fn add(ops: &mut Ops, n: u8, k: u32) -> Result<(), Fail>
    requires { ops.old.size ≡ n }
    ensures { ops.new.size ≡ n }
{
    let op = operation(n, k)?;
    ops.reserve(1)?;
    ops.push(&op);
    Ok(())
}

fn add_all(ops: &mut Ops, n: u8) -> Result<(), Fail>
    requires { ops.old.size ≡ n }
{
    for k in 0..COUNT {
        add(ops, n, k)?;
    }
    Ok(())
}

pub(crate) fn reads(ops: &Ops, k: u32, op: Option<Op>) -> bool {
    ops.get(k) == op && ops.dot(k) == op.map(|op| op.dot()) && ops.body(k) == op.map(|op| op.body())
}

fn reads_all(rt: &impl Abort, ops: &Ops, n: u8) -> Result<(), Fail> {
    for k in 0..COUNT {
        assert!(rt;
            reads(ops, k, Some(operation(n, k)?)),
            "at {k} of {n} sites"
        );
    }
    assert!(rt; reads(ops, COUNT, None), "of {n} sites");
    assert_eq!(rt; ops.len(), COUNT);
    Ok(())
}

// The debug text alone tells how many vectors are stored: one that all operations of the last site but its last one
// share, one for that, and ten of the second site.
fn has_twelve_vectors(alloc: Global, ops: &Ops, n: u8) -> Result<bool, Fail> {
    let text = format!(in alloc; "{ops:?}")?;
    let vectors = format!(in alloc; "Vectors {{ size: {n}, len: 12, ")?;
    Ok(text.contains(vectors.as_str()))
}

fn are_read_back(rt: &impl Abort, alloc: Global, ops: &mut Ops, n: u8) -> Result<(), Fail>
    requires { ops.old.size ≡ n }
{
    add_all(ops, n)?;
    reads_all(rt, ops, n)?;
    assert!(rt; has_twelve_vectors(alloc, ops, n)?, "of {n} sites");
    Ok(())
}

#[test]
fn operations_of_every_kind_are_read_back(rt: HostRuntime) -> Result<(), Fail> {
    for n in [3, MAX_SITE] {
        let mut ops = Ops::new(rt.alloc(), n);
        are_read_back(&rt, rt.alloc(), &mut ops, n)?;
    }
    Ok(())
}

fn has_no_more_room(rt: &impl Abort, ops: &mut Ops) -> Result<(), Fail>
    requires { ops.old.size ≡ 1 }
{
    add(ops, 1, 0)?;
    assert_eq!(rt; ops.reserve(u32::MAX), Err(Memory));
    assert!(rt; reads(ops, 0, Some(operation(1, 0)?)));
    Ok(())
}

#[test]
fn no_room_is_made_for_more_than_can_be_counted(rt: HostRuntime) -> Result<(), Fail> {
    let mut ops = Ops::new(rt.alloc(), 1);
    has_no_more_room(&rt, &mut ops)
}
