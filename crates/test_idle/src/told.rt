//! What is found at a site, and what is done at one.

ghost use Rattle.std.specs.Prelude.{◌≤◌, IfOk};
ghost use Rattle.td_world.specs.World.{size};

use std::alloc::Global;
use std::test::Fail;
use td_base::{Atom, Memory, Site};
use td_doc::Doc;
use td_idle::{best, check};
use td_op::Request;
use td_path::Slot;
use td_replica::Replica;
use td_world::World;

/// The best candidate of a site, where there is one.
#[derive(Clone, Copy, Debug, PartialEq, Eq)]
pub struct Found {
    pub slot: Option<Slot>,
    pub rows: u32,
    /// Whether its certificate holds, and does no more with one row more.
    pub checks: bool,
}

/// What is found where there is no candidate.
pub const NOTHING: Found = Found {
    slot: None,
    rows: 0,
    checks: true,
};

/// What is found at the site of the replica.
pub fn found_at<D: Doc>(alloc: Global, replica: &Replica<D>) -> Result<Found, Memory> {
    match best(alloc, replica)? {
        Some(mut idle) => {
            let (slot, rows, checks) = (Some(idle.slot), idle.rows, check(replica, &idle));
            idle.rows = rows.wrapping_add(1);
            let checks = checks && !check(replica, &idle);
            Ok(Found { slot, rows, checks })
        }
        None => Ok(NOTHING),
    }
}

/// A letter as an atom.
pub fn atom(letter: u8) -> Result<Atom, Fail> {
    Ok(Atom::new(&[letter]).ok().ok_or("an atom")?)
}

/// The site, where the world has it.
pub fn site_of<D: Doc>(world: &World<D>, number: u8) -> Result<Site, Fail>
    ensures { IfOk result (λ site. site ≤ size world.now) }
{
    match Site::new(number) {
        Some(site) if site.number() <= world.size() => Ok(site),
        _ => Err("a site".into()),
    }
}

/// Asks the site, or with no request gives it all that the others sent.
pub fn act<D: Doc>(
    alloc: Global,
    world: &mut World<D>,
    site: Site,
    request: Option<Request>,
) -> Result<(), Memory>
    requires { site ≤ size world.old }
{
    match request {
        Some(request) => world.call(site, request).map(|_| ()),
        None => world.give_all(alloc, site).map(|_| ()),
    }
}
