//! What a step tells of the list of live atoms.

use crate::replica::steps::Ask::{Delete, Insert, Next, PasteAfter, ProposeRoot, Take};
use crate::replica::steps::Told::{Later, Made, New, Position, Taken};
use crate::replica::steps::{Step, atom, replicas, run, step};
use std::process::Abort;
use std::test::Fail;
use td_doc::Rows;
use td_op::Change;
use td_replica::Replica;

// What a step tells.
#[derive(Clone, Copy)]
enum Shows {
    Nothing,
    Letter(u32, u8),
    Letters(u32, [u8; 2]),
    Cut(u32),
}

const STEPS: [(Step, Shows); 12] = [
    ((1, Insert(0, b'a'), Made(1, 1)), Shows::Letter(0, b'a')),
    (
        (1, PasteAfter(Some((1, 1)), *b"bc"), Made(1, 2)),
        Shows::Letters(1, *b"bc"),
    ),
    ((1, Insert(4, b'x'), Position(3)), Shows::Nothing),
    ((2, Take(1, 2), Later), Shows::Nothing),
    ((2, Take(1, 1), New), Shows::Letter(0, b'a')),
    ((2, Next, Taken(1, 2)), Shows::Letters(1, *b"bc")),
    ((1, Delete(0), Made(1, 3)), Shows::Cut(0)),
    ((2, Delete(0), Made(2, 1)), Shows::Cut(0)),
    ((2, Delete(1), Made(2, 2)), Shows::Cut(1)),
    ((1, Take(2, 1), New), Shows::Nothing),
    ((1, Take(2, 2), New), Shows::Cut(1)),
    ((1, ProposeRoot, Made(1, 4)), Shows::Nothing),
];

fn change_of(shows: Shows) -> Result<Option<Change>, Fail> {
    Ok(match shows {
        Shows::Nothing => None,
        Shows::Letter(index, letter) => Some(Change::Put {
            index,
            atom: atom(letter)?,
        }),
        Shows::Letters(index, letters) => Some(Change::PutRun {
            index,
            run: run(letters)?,
        }),
        Shows::Cut(index) => Some(Change::Cut { index }),
    })
}

// The step gives its reply, and tells this change.
fn tells(
    rt: &impl Abort,
    replicas: &mut [Replica<Rows>],
    (asked, shows): (Step, Shows),
) -> Result<(), Fail> {
    let change = change_of(shows)?;
    step(rt, "each step tells its change", replicas, asked)?;
    match replicas.get(usize::from(asked.0).wrapping_sub(1)) {
        Some(replica) => assert_eq!(rt; replica.last_change(), change),
        None => return Err(Fail::from("a site")),
    }
    Ok(())
}

fn all_tell(rt: &impl Abort, replicas: &mut [Replica<Rows>]) -> Result<(), Fail> {
    for row in &STEPS {
        tells(rt, replicas, *row)?;
    }
    Ok(())
}

#[test]
fn each_step_tells_its_change(rt: HostRuntime) -> Result<(), Fail> {
    let mut replicas = replicas(rt.alloc(), 2)?;
    all_tell(&rt, &mut replicas)
}
