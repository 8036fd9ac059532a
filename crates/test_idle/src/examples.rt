use crate::told::{Found, NOTHING, act, atom, found_at, site_of};
use std::alloc::Global;
use std::process::Abort;
use std::test::Fail;
use td_base::{AtomId, Bit, Dot, Site};
use td_doc::{Doc, Rows};
use td_idle::stable;
use td_op::Request;
use td_path::Slot;
use td_tree::Tree;
use td_world::World;

// An example a line: what it shows; what two sites are asked in turn; what site 1 knows that both have; and the best
// slot there with the number of its rows. A step is a site and what it is asked: `i0a` puts a letter at an index, `d0`
// deletes there, `p` proposes to flatten the whole, and `g` gives it all that the other sent. A slot is the root, or a
// side of the first atom of an insert. All is worked out by hand.
const EXAMPLES: &str = "\
nothing is idle of a site that was never heard of | 1i0a 1i1b 2g | 0 0 | none
auto with two sites | 1i0a 1i1b 2g 2i2c 1g 1i0x | 2 1 | 1.1r 2
all is stable | 1i0a 1i1b 2g 2d0 1g | 2 1 | root 2
what is held is no candidate | 1i0a 2g 2i1b 1g 1p | 1 1 | none
the first of two slots with as many rows | 1i0b 1i0a 1i2c 2g 2i3d 2d3 1g 1d1 1d1 | 3 2 | 1.1l 1
a slot at the left takes the place of those in it | 1i0d 1i0c 1i0b 1i0a 2g 2i4e 1g 1d3 | 4 1 | 1.1l 3";

fn digit(byte: u8) -> u8 {
    byte.saturating_sub(b'0')
}

fn slot_of(site: u8, seq: u8, side: u8) -> Result<Slot, Fail> {
    let site = Site::new(site).ok_or("a site")?;
    let dot = Dot::new(site, u32::from(seq)).ok_or("a dot")?;
    let bit = if side == b'l' { Bit::Left } else { Bit::Right };
    let atom = AtomId::of(dot);
    Ok(Slot::At { atom, bit })
}

// A slot and the number of its rows.
fn told(text: &[u8]) -> Result<Found, Fail> {
    let (slot, rows) = match text {
        [b'r', b'o', b'o', b't', b' ', rows] => (Slot::Root, *rows),
        [of, b'.', seq, side, b' ', rows] => (slot_of(digit(*of), digit(*seq), *side)?, *rows),
        _ => return Ok(NOTHING),
    };
    Ok(Found {
        slot: Some(slot),
        rows: u32::from(digit(rows)),
        checks: true,
    })
}

fn request(asked: &[u8]) -> Result<Option<Request>, Fail> {
    Ok(match asked {
        [b'i', index, letter] => Some(Request::Insert {
            index: u32::from(digit(*index)),
            atom: atom(*letter)?,
        }),
        [b'd', index] => Some(Request::Delete {
            index: u32::from(digit(*index)),
        }),
        [b'p'] => Some(Request::Propose { slot: Slot::Root }),
        _ => None,
    })
}

fn step<D: Doc>(alloc: Global, world: &mut World<D>, step: &[u8]) -> Result<(), Fail> {
    let [number, asked @ ..] = step else {
        return Err("a step".into());
    };
    let site = site_of(world, digit(*number))?;
    Ok(act(alloc, world, site, request(asked)?)?)
}

fn holds<D: Doc>(
    rt: &impl Abort,
    alloc: Global,
    world: &mut World<D>,
    example: &str,
) -> Result<(), Fail> {
    let (name, rest) = example.split_once(" | ").ok_or("a name")?;
    let (steps, rest) = rest.split_once(" | ").ok_or("steps")?;
    let (known, slot) = rest.split_once(" | ").ok_or("a slot")?;
    for asked in steps.split(' ') {
        step(alloc, world, asked.as_bytes())?;
    }
    let [first, _, second] = known.as_bytes() else {
        return Err("two numbers".into());
    };
    let both = [u16::from(digit(*first)), u16::from(digit(*second))];
    let site = site_of(world, 1)?;
    let one = world.replica(site);
    assert_eq!(rt; stable(one).numbers(), both.as_slice(), "{name}");
    assert_eq!(rt; found_at(alloc, one)?, told(slot.as_bytes())?, "{name}");
    Ok(())
}

fn holds_over<D: Doc>(rt: &impl Abort, alloc: Global, example: &str) -> Result<(), Fail> {
    let mut world = World::<D>::new(alloc, 2)?;
    holds(rt, alloc, &mut world, example)
}

#[test]
fn worked_examples(rt: HostRuntime) -> Result<(), Fail> {
    for example in EXAMPLES.split('\n') {
        holds_over::<Rows>(&rt, rt.alloc(), example)?;
        holds_over::<Tree>(&rt, rt.alloc(), example)?;
    }
    Ok(())
}
