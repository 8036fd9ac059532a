//! Tables of moves: what is done in a world, one after another, and what comes of each.

ghost use Rattle.std.specs.Prelude.{◌≤◌, IfOk};
ghost use Rattle.td_world.specs.World.{size};

use std::alloc::Global;
use std::process::Abort;
use std::test::Fail;
use td_base::{Atom, Bit, Dot, MAX_SITE, Site};
use td_doc::Rows;
use td_op::{Reply, Request};
use td_path::Slot;
use td_replica::Given;
use td_world::World;

// What is done: at a site, with an index, a dot or the number of a message.
#[derive(Clone, Copy)]
pub enum Do {
    // A letter at the index.
    Type(u8, u32, u8),
    Delete(u8, u32),
    ProposeRoot(u8),
    // To flatten the slot on this side of the live atom at the index.
    Propose(u8, u32, Bit),
    Cancel(u8, u32),
    Give(u8, u64),
    // What is known to the site or is for others is not given.
    Offer(u8, u64),
    GiveAll(u8),
    Settle,
}

// What comes of it.
#[derive(Clone, Copy, Debug, PartialEq, Eq)]
pub enum Told {
    Made(u32),
    Held(u8, u32),
    Cancelled,
    NotOpen,
    OtherReply,
    NoSuch,
    NotGiven,
    Stray,
    // so many waiting operations were taken then
    New(u32),
    Later(u32),
    Repeat(u32),
    // so many messages were given
    Gave(u64),
}

// What is shown, how many sites there are, what is done in turn, and the text that these sites show then.
pub struct Example {
    pub name: &'static str,
    pub sites: u8,
    pub moves: &'static [(Do, Told)],
    pub text: &'static str,
    pub shown_at: &'static [u8],
}

fn dot(number: u8, seq: u32) -> Result<Dot, Fail> {
    let site = Site::new(number).ok_or("a site")?;
    Ok(Dot::new(site, seq).ok_or("a dot")?)
}

fn atom(letter: u8) -> Result<Atom, Fail> {
    Ok(Atom::new(&[letter]).ok().ok_or("an atom")?)
}

// What is asked, and of which site, where it is a request.
fn request(what: Do) -> Result<Option<(u8, Request)>, Fail> {
    Ok(Some(match what {
        Do::Type(at, index, letter) => {
            let atom = atom(letter)?;
            (at, Request::Insert { index, atom })
        }
        Do::Delete(at, index) => (at, Request::Delete { index }),
        Do::ProposeRoot(at) => (at, Request::Propose { slot: Slot::Root }),
        Do::Propose(at, index, bit) => (at, Request::ProposeAt { index, bit }),
        Do::Cancel(at, seq) => {
            let proposal = dot(at, seq)?;
            (at, Request::Cancel { proposal })
        }
        Do::Give(..) | Do::Offer(..) | Do::GiveAll(..) | Do::Settle => return Ok(None),
    }))
}

fn of_reply(reply: Reply) -> Told {
    match reply {
        Reply::Made { dot } => Told::Made(dot.seq),
        Reply::Held { by } => Told::Held(by.site.number(), by.seq),
        Reply::Cancelled => Told::Cancelled,
        Reply::NotOpen { .. } => Told::NotOpen,
        _ => Told::OtherReply,
    }
}

fn of_taken(reply: Reply, next: u32) -> Told {
    match reply {
        Reply::New => Told::New(next),
        Reply::Later => Told::Later(next),
        Reply::Repeat => Told::Repeat(next),
        _ => Told::OtherReply,
    }
}

fn of_given(given: Given) -> Told {
    match given {
        Given::NoSuch => Told::NoSuch,
        Given::Stray => Told::Stray,
        Given::Took { reply, next } => of_taken(reply, next),
    }
}

// The site, where the world has it.
fn site_in(world: &World<Rows>, number: u8) -> Result<Site, Fail>
    ensures { IfOk result (λ site. site ≤ size world.now) }
{
    match Site::new(number) {
        Some(site) if site.number() <= world.size() => Ok(site),
        _ => Err("a site".into()),
    }
}

fn give_all(alloc: Global, world: &mut World<Rows>, number: u8) -> Result<Told, Fail> {
    let to = site_in(world, number)?;
    Ok(Told::Gave(world.give_all(alloc, to)?.len() as u64))
}

fn of_offered(given: Option<Given>) -> Told {
    match given {
        Some(given) => of_given(given),
        None => Told::NotGiven,
    }
}

fn tell(alloc: Global, world: &mut World<Rows>, what: Do) -> Result<Told, Fail> {
    if let Some((at, request)) = request(what)? {
        let at = site_in(world, at)?;
        return Ok(of_reply(world.call(at, request)?));
    }
    match what {
        Do::Give(to, number) => {
            let to = site_in(world, to)?;
            Ok(of_given(world.give(to, number)?))
        }
        Do::Offer(to, number) => {
            let to = site_in(world, to)?;
            Ok(of_offered(world.offer(to, number)?))
        }
        Do::GiveAll(to) => give_all(alloc, world, to),
        _ => Ok(Told::Gave(world.settle()?)),
    }
}

fn shows(alloc: Global, world: &World<Rows>, number: u8, text: &str) -> Result<bool, Fail> {
    let at = site_in(world, number)?;
    Ok(world.replica(at).text(alloc)?.as_slice() == text.as_bytes())
}

fn plays(
    rt: &impl Abort,
    alloc: Global,
    world: &mut World<Rows>,
    example: &Example,
) -> Result<(), Fail> {
    let name = example.name;
    for (what, told) in example.moves {
        assert_eq!(rt; tell(alloc, world, *what)?, *told, "{name}");
    }
    for number in example.shown_at {
        assert!(rt; shows(alloc, world, *number, example.text)?, "{name}");
    }
    Ok(())
}

fn world(alloc: Global, n: u8) -> Result<World<Rows>, Fail> {
    if n == 0 || n > MAX_SITE {
        return Err("1 to 64 sites".into());
    }
    Ok(World::new(alloc, n)?)
}

/// Each is played in a new world.
pub fn all_play(rt: &impl Abort, alloc: Global, examples: &[Example]) -> Result<(), Fail> {
    for example in examples {
        let mut world = world(alloc, example.sites)?;
        plays(rt, alloc, &mut world, example)?;
    }
    Ok(())
}
