// Each call by its own name, where it finds nothing and where it makes an operation.
use crate::replica::steps::Ask::{
    Cancel, Delete, DeleteAtom, Insert, InsertAfter, Next, PasteAfter, Propose, ProposeBeside,
    ProposeRoot, Take, TakeOp, TakeVote,
};
use crate::replica::steps::Told::{Cancelled, Gone, Idle, Made, NotOpen, Position};
use crate::replica::steps::{Ask, Told, atom, dot, id, replicas, reply, run, shows, slot};
use std::alloc::Global;
use std::process::Abort;
use std::test::Fail;
use td_base::Bit;
use td_base::Bit::Left;
use td_doc::Rows;
use td_op::Reply;
use td_path::Slot;
use td_replica::Replica;

fn insert(replica: &mut Replica<Rows>, index: u32, letter: u8) -> Result<Reply, Fail> {
    let atom = atom(letter)?;
    Ok(replica.insert(index, atom)?)
}

fn insert_after(replica: &mut Replica<Rows>, after: (u8, u32), letter: u8) -> Result<Reply, Fail> {
    let (after, atom) = (id(after.0, after.1)?, atom(letter)?);
    Ok(replica.insert_after(Some(after), atom)?)
}

// What is pasted with nothing before it is pasted at index 0.
fn paste(
    replica: &mut Replica<Rows>,
    after: Option<(u8, u32)>,
    letters: [u8; 2],
) -> Result<Reply, Fail> {
    let run = run(letters)?;
    match after {
        Some((site, seq)) => {
            let after = id(site, seq)?;
            Ok(replica.paste_after(Some(after), run)?)
        }
        None => Ok(replica.paste(0, run)?),
    }
}

fn delete_atom(replica: &mut Replica<Rows>, site: u8, seq: u32) -> Result<Reply, Fail> {
    let id = id(site, seq)?;
    Ok(replica.delete_atom(id)?)
}

fn propose_beside(
    replica: &mut Replica<Rows>,
    site: u8,
    seq: u32,
    bit: Bit,
) -> Result<Reply, Fail> {
    let slot = slot(site, seq, bit)?;
    Ok(replica.propose(slot)?)
}

fn cancel(replica: &mut Replica<Rows>, site: u8, seq: u32) -> Result<Reply, Fail> {
    let proposal = dot(site, seq)?;
    Ok(replica.cancel(proposal)?)
}

// The reply to the call.
fn call(replica: &mut Replica<Rows>, ask: Ask) -> Result<Reply, Fail> {
    match ask {
        Insert(index, letter) => insert(replica, index, letter),
        InsertAfter(site, seq, letter) => insert_after(replica, (site, seq), letter),
        PasteAfter(after, letters) => paste(replica, after, letters),
        Delete(index) => Ok(replica.delete(index)?),
        DeleteAtom(site, seq) => delete_atom(replica, site, seq),
        ProposeRoot => Ok(replica.propose(Slot::Root)?),
        ProposeBeside(site, seq, bit) => propose_beside(replica, site, seq, bit),
        Propose(index, bit) => Ok(replica.propose_at(index, bit)?),
        Cancel(site, seq) => cancel(replica, site, seq),
        Next => Ok(replica.next()?),
        Take(..) | TakeOp(..) | TakeVote(..) => Err(Fail::from("a call")),
    }
}

// The calls reply that. The text that is shown then.
fn calls(
    rt: &impl Abort,
    alloc: Global,
    replica: &mut Replica<Rows>,
    table: &[(Ask, Told)],
    text: &str,
) -> Result<(), Fail> {
    for (ask, told) in table {
        assert!(rt; call(replica, *ask)? == reply(*told)?);
    }
    shows(rt, alloc, "calls by their names", replica, text)
}

// Of the calls in the first table each finds nothing, and of those in the second each makes an operation.
const EMPTY: [(Ask, Told); 9] = [
    (Insert(1, b'a'), Position(0)),
    (InsertAfter(2, 1, b'a'), Gone(2, 1)),
    (PasteAfter(Some((2, 1)), *b"ab"), Gone(2, 1)),
    (Delete(0), Position(0)),
    (DeleteAtom(1, 1), Gone(1, 1)),
    (ProposeBeside(1, 1, Left), Gone(1, 1)),
    (Propose(0, Left), Position(0)),
    (Cancel(1, 1), NotOpen(1, 1)),
    (Next, Idle),
];

const WRITTEN: [(Ask, Told); 9] = [
    (Insert(0, b'x'), Made(1, 1)),
    (InsertAfter(1, 1, b'y'), Made(1, 2)),
    (PasteAfter(None, *b"ab"), Made(1, 3)),
    (PasteAfter(Some((1, 2)), *b"cd"), Made(1, 4)),
    (Delete(0), Made(1, 5)),
    (DeleteAtom(1, 1), Made(1, 6)),
    (ProposeRoot, Made(1, 7)),
    (Cancel(1, 7), Cancelled),
    (Propose(0, Left), Made(1, 9)),
];

// The first site is called, by the first table and then by the second one.
fn all_call(rt: &impl Abort, alloc: Global, replicas: &mut [Replica<Rows>]) -> Result<(), Fail> {
    match replicas.first_mut() {
        Some(replica) => {
            calls(rt, alloc, replica, &EMPTY, "")?;
            calls(rt, alloc, replica, &WRITTEN, "bycd")
        }
        None => Err(Fail::from("a site")),
    }
}

#[test]
fn each_call_finds_nothing_on_an_empty_text_and_then_makes_an_operation(
    rt: HostRuntime,
) -> Result<(), Fail> {
    let mut replicas = replicas(rt.alloc(), 2)?;
    all_call(&rt, rt.alloc(), &mut replicas)
}
