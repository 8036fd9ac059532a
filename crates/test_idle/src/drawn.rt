ghost use Rattle.std.specs.Prelude.{◌≤◌};
ghost use Rattle.td_world.specs.World.{size};

use crate::told::{Found, act, atom, found_at, site_of};
use std::alloc::Global;
use std::process::Abort;
use std::test::Fail;
use td_base::{Bit, Site};
use td_doc::{Doc, Rows};
use td_op::Request;
use td_path::Slot;
use td_tree::Tree;
use td_world::World;

const WORLDS: u32 = 150;

const STEPS: u32 = 60;

// What a draw asks of a site with so many live atoms, if anything; the slot is the best one of the first site.
fn asked(live: u32, slot: Slot, draw: u32) -> Result<Option<Request>, Fail> {
    let index = (draw / 32).checked_rem(live).unwrap_or(0);
    Ok(Some(match draw % 32 {
        0..=15 => return Ok(None),
        16..=26 => Request::Insert {
            index,
            atom: atom(b'a')?,
        },
        27 => Request::ProposeAt {
            index,
            bit: Bit::Right,
        },
        28 => Request::Propose { slot },
        _ => Request::Delete { index },
    }))
}

fn act_as_drawn<D: Doc>(
    alloc: Global,
    world: &mut World<D>,
    site: Site,
    slot: Slot,
    draw: u32,
) -> Result<(), Fail>
    requires { site ≤ size world.old }
{
    let live = world.replica(site).doc().live();
    Ok(act(alloc, world, site, asked(live, slot, draw)?)?)
}

// What is found at the first site, and then one drawn step of a site.
fn step<D: Doc>(alloc: Global, world: &mut World<D>, draw: u32) -> Result<Found, Fail> {
    let first = site_of(world, 1)?;
    let best = found_at(alloc, world.replica(first))?;
    let site = site_of(world, 1 + (draw % 3) as u8)?;
    act_as_drawn(
        alloc,
        world,
        site,
        best.slot.unwrap_or(Slot::Root),
        draw / 3,
    )?;
    Ok(best)
}

// How many candidates are found in the worlds of a seed, which are the same in both.
fn same<A: Doc, B: Doc>(
    rt: &impl Abort,
    alloc: Global,
    (one, other): (&mut World<A>, &mut World<B>),
    seed: u32,
) -> Result<u32, Fail> {
    let mut state = seed;
    let mut candidates = 0_u32;
    for _ in 0..STEPS {
        state = state.wrapping_mul(1_664_525).wrapping_add(1_013_904_223);
        let best = step(alloc, one, state >> 12)?;
        assert_eq!(rt; step(alloc, other, state >> 12)?, best, "seed {seed}");
        assert!(rt; best.checks, "seed {seed}");
        candidates = candidates.wrapping_add(u32::from(best.slot.is_some()));
    }
    Ok(candidates)
}

fn same_over_both(rt: &impl Abort, alloc: Global, seed: u32) -> Result<u32, Fail> {
    let mut rows = World::<Rows>::new(alloc, 3)?;
    let mut trees = World::<Tree>::new(alloc, 3)?;
    same(rt, alloc, (&mut rows, &mut trees), seed)
}

#[test]
fn the_best_is_the_same_over_both_documents(rt: HostRuntime) -> Result<(), Fail> {
    let mut candidates = 0_u32;
    for seed in 0..WORLDS {
        candidates = candidates.wrapping_add(same_over_both(&rt, rt.alloc(), seed)?);
    }
    assert!(rt; candidates > WORLDS * STEPS / 4, "{candidates}");
    Ok(())
}
