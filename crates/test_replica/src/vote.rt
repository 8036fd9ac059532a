ghost use Rattle.std.specs.Prelude.{◌≡◌, IfOk};
ghost use Rattle.td_doc.specs.Answers.{is_rooted};
ghost use Rattle.td_doc.specs.Document.{IsDocument};
ghost use Rattle.td_vote.specs.ByPlace.{ArePlaced};

use std::alloc::Global;
use std::process::Abort;
use std::test::Fail;
use td_base::{Atom, AtomId, Bit, Dot, Site};
use td_clock::Vector;
use td_doc::{Doc, Rows};
use td_path::Slot;
use td_vote::*;

// The number of a site and the number of one of its operations.
type Told = (u8, u32);

// A slot of the document: an "a" of 1.1, and on its right a "b" of 1.2, which 2.1 deleted.
#[derive(Clone, Copy)]
enum At {
    Root,
    Left,
    Right,
    // On the left of the "b", and on its right.
    Below,
    Behind,
    // On the right of an atom that is not there.
    Gone,
}

fn dot((number, seq): Told) -> Result<Dot, Fail> {
    let site = Site::new(number).ok_or("a site")?;
    Ok(Dot::new(site, seq).ok_or("a dot")?)
}

fn some_dot(told: Option<Told>) -> Result<Option<Dot>, Fail> {
    Ok(match told {
        Some(told) => Some(dot(told)?),
        None => None,
    })
}

fn beside(told: Told, bit: Bit) -> Result<Slot, Fail> {
    let atom = AtomId::of(dot(told)?);
    Ok(Slot::At { atom, bit })
}

fn slot(at: At) -> Result<Slot, Fail> {
    match at {
        At::Root => Ok(Slot::Root),
        At::Left => beside((1, 1), Bit::Left),
        At::Right => beside((1, 1), Bit::Right),
        At::Below => beside((1, 2), Bit::Left),
        At::Behind => beside((1, 2), Bit::Right),
        At::Gone => beside((2, 7), Bit::Right),
    }
}

fn put(doc: &mut Rows, slot: Slot, seq: u32, letter: u8) -> Result<(), Fail>
    requires { IsDocument doc.old }
    ensures { IsDocument doc.new }
{
    let id = AtomId::of(dot((1, seq))?);
    let Ok(atom) = Atom::new(&[letter]) else {
        return Err("an atom".into());
    };
    if doc.find(id).is_some() {
        return Err("a new atom".into());
    }
    Ok(doc.insert(slot, id, atom)?)
}

fn write(doc: &mut Rows) -> Result<(), Fail>
    requires { IsDocument doc.old }
    ensures { IsDocument doc.new }
{
    put(doc, Slot::Root, 1, b'a')?;
    put(doc, slot(At::Right)?, 2, b'b')?;
    let (gone, by) = (AtomId::of(dot((1, 2))?), dot((2, 1))?);
    Ok(doc.delete(gone, by)?)
}

fn empty(alloc: Global) -> Result<Rows, Fail>
    ensures { IfOk result (λ doc. IsDocument doc) }
{
    Ok(Rows::empty(alloc)?)
}

fn document(alloc: Global) -> Result<Rows, Fail>
    ensures { IfOk result (λ doc. IsDocument doc) }
{
    let mut doc = empty(alloc)?;
    write(&mut doc)?;
    Ok(doc)
}

fn no_holds(alloc: Global, doc: &Rows) -> Holds
    requires { IsDocument doc.now }
    ensures { ArePlaced doc.now result }
{
    Holds::new(alloc)
}

fn is_rooted(doc: &Rows, slot: Slot) -> bool
    ensures { result ≡ is_rooted doc.now slot }
{
    match slot {
        Slot::Root => true,
        Slot::At { atom, .. } => doc.is_row(atom),
    }
}

// Holds a slot that no held one overlaps, as a replica does.
fn hold(holds: &mut Holds, doc: &Rows, proposal: Told, slot: Slot) -> Result<(), Fail>
    requires { ArePlaced doc.now holds.old }
    ensures { ArePlaced doc.now holds.new }
{
    let proposal = dot(proposal)?;
    if !is_rooted(doc, slot) || holds.held_over(doc, slot).is_some() {
        return Err("a slot that may be held".into());
    }
    Ok(holds.hold(doc, proposal, slot)?)
}

fn release(holds: &mut Holds, doc: &Rows, proposal: Dot)
    requires { ArePlaced doc.now holds.old }
    ensures { ArePlaced doc.now holds.new }
{
    holds.release(proposal);
}

fn commit(holds: &mut Holds, doc: &Rows, commit: Told, slot: Slot) -> Result<(), Fail>
    requires { ArePlaced doc.now holds.old }
    ensures { ArePlaced doc.now holds.new }
{
    Ok(holds.committed(dot(commit)?, slot)?)
}

fn keep(
    holds: &mut Holds,
    doc: &Rows,
    held: &[(Told, At)],
    commits: &[(Told, At)],
) -> Result<(), Fail>
    requires { ArePlaced doc.now holds.old }
    ensures { ArePlaced doc.now holds.new }
{
    for (proposal, at) in held {
        hold(holds, doc, *proposal, slot(*at)?)?;
    }
    for (told, at) in commits {
        commit(holds, doc, *told, slot(*at)?)?;
    }
    Ok(())
}

// These holds and commits, in this order.
fn kept(
    alloc: Global,
    doc: &Rows,
    held: &[(Told, At)],
    commits: &[(Told, At)],
) -> Result<Holds, Fail>
    requires { IsDocument doc.now }
    ensures { IfOk result (λ holds. ArePlaced doc.now holds) }
{
    let mut holds = no_holds(alloc, doc);
    keep(&mut holds, doc, held, commits)?;
    Ok(holds)
}

fn is_held(rt: &impl Abort, doc: &Rows, holds: &Holds, by: Option<Dot>, other: Dot)
    requires { ArePlaced doc.now holds.now }
{
    let own = by.is_some_and(|own| holds.has(own));
    assert_eq!(rt; holds.held_slot(doc, Slot::Root), by);
    assert!(rt; own == by.is_some() && !holds.has(other));
}

#[test]
fn a_hold_lasts_until_its_release(rt: HostRuntime) -> Result<(), Fail> {
    let (own, other) = (dot((1, 3))?, dot((1, 4))?);
    let doc = empty(rt.alloc())?;
    let mut holds = no_holds(rt.alloc(), &doc);
    hold(&mut holds, &doc, (1, 3), Slot::Root)?;
    is_held(&rt, &doc, &holds, Some(own), other);
    release(&mut holds, &doc, own);
    is_held(&rt, &doc, &holds, None, own);
    Ok(())
}

// The vote of a replica that made 1.1 to 1.4 and took 2.1 to 2.3, on a proposal that knew so many of each.
fn vote(doc: &Rows, holds: &Holds, at: At, knew: (u16, u16)) -> Result<bool, Fail>
    requires { ArePlaced doc.now holds.now }
{
    let (have, known) = (Vector::of(&[4, 3]), Vector::of(&[knew.0, knew.1]));
    if !doc.known(Slot::Root, &have) {
        return Err("a replica that has its document".into());
    }
    Ok(holds.judge(doc, &have, slot(at)?, &known))
}

// A slot that is proposed by a site that knew so many operations of each, what is held and committed, and the vote.
type Judged = (
    At,
    (u16, u16),
    &'static [(Told, At)],
    &'static [(Told, At)],
    bool,
);

const VOTES: [Judged; 17] = [
    (At::Right, (4, 3), &[], &[], true),
    // the atom of the slot
    (At::Gone, (4, 3), &[], &[], false),
    // what was done to the rows
    (At::Right, (2, 1), &[], &[], true),
    (At::Right, (2, 0), &[], &[], false),
    (At::Right, (1, 1), &[], &[], false),
    (At::Left, (1, 0), &[], &[], true),
    // holds
    (At::Right, (4, 3), &[((2, 3), At::Root)], &[], false),
    (At::Root, (4, 3), &[((2, 3), At::Left)], &[], false),
    (At::Right, (4, 3), &[((2, 3), At::Left)], &[], true),
    // commits
    (At::Right, (4, 2), &[], &[((2, 2), At::Right)], true),
    (At::Right, (4, 1), &[], &[((2, 2), At::Right)], false),
    (At::Right, (4, 1), &[], &[((2, 2), At::Left)], true),
    (At::Right, (4, 1), &[], &[((2, 2), At::Gone)], false),
    // commits of both sites, of which all but 2.2 lie apart from the slot
    (At::Right, (4, 2), &[], &MANY, true),
    (At::Right, (3, 2), &[], &MANY, true),
    (At::Right, (4, 1), &[], &MANY, false),
    (At::Right, (2, 1), &[], &MANY, false),
];

// Put in out of order.
const MANY: [(Told, At); 5] = [
    ((2, 2), At::Right),
    ((1, 4), At::Left),
    ((2, 1), At::Left),
    ((1, 3), At::Left),
    ((2, 3), At::Left),
];

fn is_judged(rt: &impl Abort, alloc: Global, doc: &Rows, judged: Judged) -> Result<(), Fail>
    requires { IsDocument doc.now }
{
    let (at, (first, second), held, commits, yes) = judged;
    let holds = kept(alloc, doc, held, commits)?;
    assert_eq!(rt;
        vote(doc, &holds, at, (first, second))?,
        yes,
        "by {first}, {second}"
    );
    Ok(())
}

#[test]
fn a_vote_is_yes_where_all_parts_of_the_rule_hold(rt: HostRuntime) -> Result<(), Fail> {
    let doc = document(rt.alloc())?;
    for judged in &VOTES {
        is_judged(&rt, rt.alloc(), &doc, *judged)?;
    }
    Ok(())
}

// What is held, a slot, the proposal whose slot contains it, and the least whose slot overlaps it.
type OfSlot = (&'static [(Told, At)], At, Option<Told>, Option<Told>);

const APART: [(Told, At); 3] = [
    ((2, 2), At::Below),
    ((1, 3), At::Behind),
    ((2, 1), At::Left),
];

const SIDES: [(Told, At); 2] = [((1, 3), At::Right), ((2, 1), At::Left)];

const SLOTS: [OfSlot; 9] = [
    (&APART, At::Below, Some((2, 2)), Some((2, 2))),
    (&APART, At::Behind, Some((1, 3)), Some((1, 3))),
    (&APART, At::Left, Some((2, 1)), Some((2, 1))),
    (&APART, At::Right, None, Some((1, 3))),
    (&APART, At::Root, None, Some((1, 3))),
    (&SIDES, At::Below, Some((1, 3)), Some((1, 3))),
    (&SIDES, At::Left, Some((2, 1)), Some((2, 1))),
    (
        &[((2, 4), At::Root)],
        At::Behind,
        Some((2, 4)),
        Some((2, 4)),
    ),
    (&SIDES, At::Gone, None, None),
];

// What is held, an atom, and the proposal whose slot contains it.
type OfAtom = (&'static [(Told, At)], Told, Option<Told>);

const ATOMS: [OfAtom; 5] = [
    (&APART, (1, 2), None),
    (&SIDES, (1, 1), None),
    (&SIDES, (1, 2), Some((1, 3))),
    (&[((2, 4), At::Root)], (1, 1), Some((2, 4))),
    (&[((2, 4), At::Root)], (2, 7), None),
];

fn refuses_slot(rt: &impl Abort, alloc: Global, doc: &Rows, of: OfSlot) -> Result<(), Fail>
    requires { IsDocument doc.now }
{
    let (held, at, over, least) = of;
    let holds = kept(alloc, doc, held, &[])?;
    let slot = slot(at)?;
    assert_eq!(rt; holds.len() as usize, held.len());
    assert_eq!(rt; holds.held_slot(doc, slot), some_dot(over)?);
    assert_eq!(rt; holds.held_over(doc, slot), some_dot(least)?);
    Ok(())
}

fn refuses_atom(rt: &impl Abort, alloc: Global, doc: &Rows, of: OfAtom) -> Result<(), Fail>
    requires { IsDocument doc.now }
{
    let (held, atom, by) = of;
    let holds = kept(alloc, doc, held, &[])?;
    let (id, by) = (AtomId::of(dot(atom)?), some_dot(by)?);
    assert_eq!(rt; holds.held_row(doc, id), by);
    Ok(())
}

#[test]
fn what_is_held_refuses(rt: HostRuntime) -> Result<(), Fail> {
    let doc = document(rt.alloc())?;
    for of in &SLOTS {
        refuses_slot(&rt, rt.alloc(), &doc, *of)?;
    }
    for of in &ATOMS {
        refuses_atom(&rt, rt.alloc(), &doc, *of)?;
    }
    Ok(())
}

// Each letter on the right of the one before it.
fn type_on(doc: &mut Rows) -> Result<(), Fail>
    requires { IsDocument doc.old }
    ensures { IsDocument doc.new }
{
    put(doc, Slot::Root, 1, b'a')?;
    for seq in 2..20 {
        put(doc, beside((1, seq - 1), Bit::Right)?, seq, b'b')?;
    }
    Ok(())
}

fn hold_sides(holds: &mut Holds, doc: &Rows) -> Result<(), Fail>
    requires { ArePlaced doc.now holds.old }
    ensures { ArePlaced doc.now holds.new }
{
    for seq in 1..20 {
        hold(holds, doc, (2, seq), beside((1, seq), Bit::Left)?)?;
        commit(holds, doc, (2, seq), Slot::Root)?;
    }
    Ok(())
}

// More than the places that one call makes.
#[test]
fn places_that_are_used_up_are_made_again(rt: HostRuntime) -> Result<(), Fail> {
    let mut doc = empty(rt.alloc())?;
    type_on(&mut doc)?;
    let mut holds = no_holds(rt.alloc(), &doc);
    hold_sides(&mut holds, &doc)?;
    holds.reserve()?;
    assert_eq!(rt; holds.len(), 19);
    Ok(())
}
