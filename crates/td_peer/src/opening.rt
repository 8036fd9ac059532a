// What workers keep for each other at the beginning.
ghost use Rattle.std.specs.Prelude.{◌≡◌, ◌<◌, ◌≤◌, ◌+◌, ◌∷◌, Some, length, List, IfOk, OnOk};
ghost use Rattle.td_base.specs.declared.site.TheConstants.{MAX_SITE};
ghost use Rattle.td_law_meeting.specs.Rows.{AllMatch};
ghost use Rattle.td_peer.specs.Peers.{PeerState, AreLinked};
ghost use Rattle.td_peer.specs.Opening.{new_state, IsNewPeer, AreFreshRows, OpensNext, OpensFirst};

use crate::loss::Loss;
use crate::parcel::Parcel;
use crate::peer::Peer;
use crate::row::Row;
use std::alloc::Global;
use td_base::{Memory, Site};
use td_link::{Rx, Tx, link};

/// How many packets a link between two workers holds.
pub const PLACES: u32 = 64;

impl Peer {
    /// What the worker of a site keeps for that of another one over these links, of which nothing is dealt with. It
    /// takes no memory.
    pub fn new(own: Site, site: Site, inbox: Rx<Parcel>, outbox: Tx<Parcel>, loss: Loss) -> Peer
        requires hears { inbox.mark ≡ Some site }
        requires tells { outbox.mark ≡ Some own }
        ensures { result ≡ new_state own site inbox outbox loss }
    {
        Peer {
            own,
            site,
            inbox,
            outbox,
            waiting: None,
            dealt: 0,
            addressed: 0,
            again: false,
            loss,
        }
    }
}

/// What the workers of sites 1 to n keep for each other, a row for each worker, over a new link each way of `PLACES`
/// places. The queues take their memory at once.
pub fn open_rows(alloc: Global, n: u8, loss: Loss) -> Result<Vec<Row>, Memory>
    requires { n ≤ MAX_SITE }
    ensures linked { IfOk result (λ rows. AllMatch AreLinked n rows.items) }
    ensures fresh { IfOk result (λ rows. AreFreshRows n loss rows.items) }
{
    let mut rows = Vec::new(alloc);
    let mut before = n;
    while before > 0 {
        rows = open_before(alloc, site_of(before), rows, loss)?;
        before -= 1;
    }
    Ok(rows)
}

// Puts the row of a site before these, which are those of the sites behind it.
fn open_before(alloc: Global, first: Site, rows: Vec<Row>, loss: Loss) -> Result<Vec<Row>, Memory>
    requires { first + length rows.items ≤ MAX_SITE }
    ensures { IfOk result (λ all. (row : List PeerState) × (theirs : List (List PeerState))
        × (all.items ≡ row ∷ theirs) × OpensFirst first loss rows.items row theirs) }
{
    let (row, mut theirs) = open_first(alloc, first, rows, loss)?;
    theirs.insert(0, row)?;
    Ok(theirs)
}

// Opens the links between a site and those of these rows, which are those behind it. Its row, and then theirs.
fn open_first(
    alloc: Global,
    first: Site,
    rows: Vec<Row>,
    loss: Loss,
) -> Result<(Row, Vec<Row>), Memory>
    requires { first + length rows.items ≤ MAX_SITE }
    ensures { IfOk result (λ r. OpensFirst first loss rows.items r.0 r.1.items) }
{
    let mut rows = rows;
    let mut row = Row::new(alloc);
    let mut done = Vec::new(alloc);
    let mut last = first.number();
    while rows.len() > 0 {
        last += 1;
        let other = site_of(last);
        open_next(alloc, first, other, loss, &mut row, &mut rows, &mut done)?;
    }
    Ok((row, done))
}

// Opens the links between a site and the other one, which is that of the first of these rows.
fn open_next(
    alloc: Global,
    first: Site,
    other: Site,
    loss: Loss,
    row: &mut Row,
    rows: &mut Vec<Row>,
    done: &mut Vec<Row>,
) -> Result<(), Memory>
    requires { 0 < length rows.old.items }
    ensures { OnOk result (OpensNext first other loss row.old row.new rows.old.items rows.new.items
        done.old.items done.new.items) }
{
    let (one, twin) = pair(alloc, first, other, PLACES, loss)?;
    let mut behind = rows.remove(0);
    behind.put_first(twin)?;
    row.push(one)?;
    done.push(behind)?;
    Ok(())
}

// What the workers of two sites keep for each other, over two new links of so many places.
pub(crate) fn pair(
    alloc: Global,
    one: Site,
    other: Site,
    places: u32,
    loss: Loss,
) -> Result<(Peer, Peer), Memory>
    requires some { 0 < places }
    requires few { places ≤ 65536 }
    ensures linked { IfOk result (λ r. AreLinked r.0 r.1) }
    ensures one { IfOk result (λ r. IsNewPeer one other places loss r.0) }
    ensures other { IfOk result (λ r. IsNewPeer other one places loss r.1) }
{
    let (away, there) = link::<Parcel>(alloc, places, one)?;
    let (back, here) = link::<Parcel>(alloc, places, other)?;
    Ok((
        Peer::new(one, other, here, away, loss),
        Peer::new(other, one, there, back, loss),
    ))
}

// The site with this number.
pub(crate) fn site_of(number: u8) -> Site
    requires some { 0 < number }
    requires few { number ≤ MAX_SITE }
    ensures { result ≡ number }
{
    Site::new(number).unwrap()
}
