// How the links between workers end.
ghost use Rattle.std.specs.Prelude.{◌≡◌, ◌<◌, ◌++◌, ◌∷◌, [], length, map, drop, List, IfOk, OnOk};
ghost use Rattle.td_law_meeting.specs.Rows.{MatchesFirsts, AllMatch};
ghost use Rattle.td_peer.specs.Peers.{PeerState, packets, AreLinked, PeersMet};
ghost use mathlib.Core.List.{IsPrefix};
ghost use Rattle.td_peer.specs.Meeting.{MetNext};

use crate::parcel::Parcel;
use crate::peer::Peer;
use crate::row::Row;
use std::alloc::Global;
use std::sync::Wait;
use td_base::Memory;
use td_link::{Rx, Tx, settle};

// Settles both links between two workers. What was not taken is lost.
fn meet<R: Wait>(rt: &R, alloc: Global, one: Peer, other: Peer) -> Result<(), Memory>
    requires { AreLinked one other }
    ensures { OnOk result (PeersMet one other) }
{
    let Peer {
        own: _,
        site: _,
        inbox: here,
        outbox: away,
        waiting: _,
        dealt: _,
        addressed: _,
        again: _,
        loss: _,
    } = one;
    let Peer {
        own: _,
        site: _,
        inbox: there,
        outbox: back,
        waiting: _,
        dealt: _,
        addressed: _,
        again: _,
        loss: _,
    } = other;
    settle_link(rt, alloc, back, here)?;
    settle_link(rt, alloc, away, there)?;
    Ok(())
}

// Settles one link. What was taken from it is a beginning of what was sent, and the rest is lost.
fn settle_link<R: Wait>(rt: &R, alloc: Global, tx: Tx<Parcel>, rx: Rx<Parcel>) -> Result<(), Memory>
    requires { tx.link ≡ rx.link }
    ensures { OnOk result (IsPrefix (packets rx.taken) (packets tx.sent)) }
{
    let _left = settle(rt, alloc, tx, rx)?;
    Ok(())
}

// Settles the links between the first of the row and the first of the first row behind it.
fn meet_next<R: Wait>(
    rt: &R,
    alloc: Global,
    row: &mut Row,
    rows: &mut Vec<Row>,
    left: &mut Vec<Row>,
) -> Result<(), Memory>
    requires linked { MatchesFirsts AreLinked row.old rows.old.items }
    requires some { 0 < length row.old }
    ensures { OnOk result (MetNext row.old row.new rows.old.items rows.new.items left.old.items left.new.items) }
{
    let one = row.take_first();
    let mut behind = rows.remove(0);
    let other = behind.take_first();
    meet(rt, alloc, one, other)?;
    left.push(behind)?;
    Ok(())
}

// Settles the links between the worker of this row and each one behind it. What is left of their rows is answered.
fn meet_firsts<R: Wait>(rt: &R, alloc: Global, row: Row, rows: Vec<Row>) -> Result<Vec<Row>, Memory>
    requires { MatchesFirsts AreLinked row rows.items }
    ensures met { OnOk result (MatchesFirsts PeersMet row rows.items) }
    ensures left { IfOk result (λ left. left.items ≡ map (drop 1) rows.items) }
{
    let mut row = row;
    let mut rows = rows;
    let mut left = Vec::new(alloc);
    while row.len() > 0 {
        meet_next(rt, alloc, &mut row, &mut rows, &mut left)?;
    }
    Ok(left)
}

/// Settles all links between workers, whose peers are given row by row. What was not taken is lost.
pub fn meet_all<R: Wait>(rt: &R, alloc: Global, rows: Vec<Row>) -> Result<(), Memory>
    requires { AllMatch AreLinked (length rows.items) rows.items }
    ensures { OnOk result (AllMatch PeersMet (length rows.items) rows.items) }
{
    let mut rows = rows;
    while rows.len() > 0 {
        let row = rows.remove(0);
        rows = meet_firsts(rt, alloc, row, rows)?;
    }
    Ok(())
}
