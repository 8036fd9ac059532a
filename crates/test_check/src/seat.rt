ghost use Rattle.std.specs.Prelude.{◌≡◌, ◌≤◌, IfOk};
ghost use Rattle.td_machine.specs.Machine.{start};

use std::alloc::Global;
use std::process::Abort;
use std::test::Fail;
use td_base::{Atom, Dot, Run, Site};
use td_clock::Vector;
use td_doc::Rows;
use td_op::{Body, Op, Reply, Request, Vote, Why};
use td_path::Slot;
use td_seat::{Counted, Made, Seat};
use td_trace::{ToldInput, TraceEntry};

fn site(number: u8) -> Result<Site, Fail>
    ensures { IfOk result (λ site. site ≡ number) }
{
    Ok(Site::new(number).ok_or("a site")?)
}

fn dot(number: u8, seq: u32) -> Result<Dot, Fail>
    ensures { IfOk result (λ dot. dot.site ≡ number) }
{
    Ok(Dot::new(site(number)?, seq).ok_or("a dot")?)
}

fn atom(text: &str) -> Result<Atom, Fail> {
    Ok(Atom::new(text.as_bytes()).ok().ok_or("an atom")?)
}

fn insert() -> Result<Request, Fail> {
    let atom = atom("a")?;
    Ok(Request::Insert { index: 0, atom })
}

// A site makes 1.1, takes 2.1, and makes 1.2.
fn entries() -> Result<[TraceEntry; 3], Fail> {
    let (first, taken, second) = (dot(1, 1)?, dot(2, 1)?, dot(1, 2)?);
    let request = insert()?;
    Ok([
        TraceEntry {
            told: ToldInput::Asked(request),
            reply: Reply::Made { dot: first },
        },
        TraceEntry {
            told: ToldInput::TookOp { dot: taken },
            reply: Reply::New,
        },
        TraceEntry {
            told: ToldInput::Asked(request),
            reply: Reply::Made { dot: second },
        },
    ])
}

fn count_all(counted: &mut Counted, entries: &[TraceEntry]) -> Result<(), Fail> {
    for entry in entries {
        counted.count(entry)?;
    }
    Ok(())
}

fn made(alloc: Global, own: Site, entries: &[TraceEntry]) -> Result<Made, Fail>
    requires { own ≡ 1 }
{
    let mut counted = Counted::new(alloc, own, 2);
    count_all(&mut counted, entries)?;
    let mut made = Made::new(alloc);
    made.push(counted)?;
    Ok(made)
}

// The number of a site and the number of an operation, and the dependencies that are found of it.
const DEPS: [((u8, u32), Option<[u16; 2]>); 4] = [
    ((1, 1), Some([0, 0])),
    ((1, 2), Some([1, 1])),
    ((1, 3), None),
    ((2, 1), None),
];

fn has_deps(made: &Made, dot: Dot, deps: Option<[u16; 2]>) -> bool {
    match (made.deps(dot), deps) {
        (Some(found), Some(told)) => found.numbers() == told.as_slice(),
        (found, told) => found.is_none() && told.is_none(),
    }
}

fn all_have_deps(rt: &impl Abort, made: &Made) -> Result<(), Fail> {
    for (numbers, deps) in &DEPS {
        let (number, seq) = *numbers;
        assert!(rt;
            has_deps(made, dot(number, seq)?, *deps),
            "of {number}.{seq}"
        );
    }
    Ok(())
}

#[test]
fn what_entries_tell_of_an_operation(rt: HostRuntime) -> Result<(), Fail> {
    let (own, entries) = (site(1)?, entries()?);
    let made = made(rt.alloc(), own, &entries)?;
    all_have_deps(&rt, &made)
}

// A site of two at the beginning.
fn fresh(alloc: Global, number: u8) -> Result<Seat<Rows>, Fail>
    requires { number ≤ 2 }
    ensures { IfOk result (λ seat. seat ≡ start number 2) }
{
    Ok(Seat::new(alloc, site(number)?, 2)?)
}

// A site of two whose editor typed an "a".
fn typed(rt: &impl Abort, alloc: Global) -> Result<Seat<Rows>, Fail> {
    let mut seat = fresh(alloc, 1)?;
    let request = Request::Insert {
        index: 0,
        atom: atom("a")?,
    };
    assert_eq!(rt; seat.ask(request), Ok(Reply::Made { dot: dot(1, 1)? }));
    Ok(seat)
}

// Whether a seat has the operation of its first site with this number.
fn has(seat: &Seat<Rows>, seq: u32) -> Result<bool, Fail> {
    Ok(seat.op(dot(1, seq)?).is_some())
}

#[test]
fn what_is_typed_is_there(rt: HostRuntime) -> Result<(), Fail> {
    let seat = typed(&rt, rt.alloc())?;
    assert_eq!(rt; (has(&seat, 1)?, has(&seat, 2)?), (true, false));
    assert_eq!(rt; seat.text(rt.alloc())?.as_slice(), b"a".as_slice());
    Ok(())
}

#[test]
fn an_operation_is_taken_again(rt: HostRuntime) -> Result<(), Fail> {
    let run = Run::one(atom("a")?);
    let slot = Slot::Root;
    let op = Op::new(dot(1, 1)?, Vector::new(2), Body::Insert { slot, run }).ok_or("an operation")?;
    let mut seat = fresh(rt.alloc(), 2)?;
    assert_eq!(rt; seat.take(&op), Ok(true));
    Ok(())
}

#[test]
fn an_operation_waits_by_its_outline(rt: HostRuntime) -> Result<(), Fail> {
    let slot = Slot::Root;
    let deps = Vector::of(&[1, 0]);
    let outline = Op::new(dot(1, 2)?, deps, Body::Propose { slot }).ok_or("an operation")?;
    let mut seat = fresh(rt.alloc(), 2)?;
    assert_eq!(rt; seat.know(&outline), Ok(Reply::Later));
    Ok(())
}

#[test]
fn nothing_that_waits_is_taken_up(rt: HostRuntime) -> Result<(), Fail> {
    let slot = Slot::Root;
    let op = Op::new(dot(1, 1)?, Vector::new(2), Body::Propose { slot }).ok_or("an operation")?;
    let mut seat = fresh(rt.alloc(), 2)?;
    assert_eq!(rt; seat.take_up(&op), Ok(Reply::Idle));
    Ok(())
}

#[test]
fn a_vote_on_no_proposal_is_unfit(rt: HostRuntime) -> Result<(), Fail> {
    let vote = Vote {
        proposal: dot(1, 1)?,
        voter: site(2)?,
        yes: true,
    };
    let mut seat = fresh(rt.alloc(), 1)?;
    let why = Why::Proposal;
    assert_eq!(rt; seat.count(vote), Ok(Reply::Unfit { why }));
    Ok(())
}
