ghost use Rattle.std.specs.Prelude.{◌≡◌, ◌≤◌, IfOk};
ghost use Rattle.td_world.specs.World.{size};

use std::process::Abort;
use std::test::Fail;
use td_base::{Atom, Site};
use td_doc::Rows;
use td_kept::{DISK_CALLS, KeptWorld};
use td_op::{Reply, Request};
use td_replica::Given;

fn site(number: u8) -> Result<Site, Fail>
    ensures { IfOk result (λ site. site ≡ number) }
{
    Ok(Site::new(number).ok_or("a site")?)
}

fn letter(text: &str) -> Result<Atom, Fail> {
    match Atom::new(text.as_bytes()) {
        Ok(atom) => Ok(atom),
        Err(_) => Err("an atom".into()),
    }
}

// The site puts the letter in front.
fn put(world: &mut KeptWorld<Rows>, number: u8, text: &str) -> Result<(), Fail>
    requires { number ≤ size world.old.world }
    ensures { size world.new.world ≡ size world.old.world }
{
    let site = site(number)?;
    let atom = letter(text)?;
    match world.call(site, Request::Insert { index: 0, atom }) {
        Ok(_) => Ok(()),
        Err(_) => Err("a call".into()),
    }
}

// What a message given to a site comes to, as it is printed.
fn give(world: &mut KeptWorld<Rows>, number: u8, message: u64) -> Result<&'static str, Fail>
    requires { number ≤ size world.old.world }
    ensures { size world.new.world ≡ size world.old.world }
{
    let site = site(number)?;
    match world.give(site, message) {
        Ok(given) => Ok(given_as(&given)),
        Err(_) => Err("a message given".into()),
    }
}

fn given_as(given: &Given) -> &'static str {
    match given {
        Given::NoSuch => "none",
        Given::Stray => "stray",
        Given::Took { reply, next } => replied(reply, *next),
    }
}

fn replied(reply: &Reply, next: u32) -> &'static str {
    match reply {
        Reply::New if next == 0 => "new",
        Reply::Later if next == 0 => "later",
        Reply::Repeat if next == 0 => "repeat",
        _ => "another reply",
    }
}

// Site 1 puts the letter in front while a call of its disk fails, crashes and comes back: how many entries it has then.
fn crash(world: &mut KeptWorld<Rows>, k: u32, choice: u64, text: &str) -> Result<u64, Fail>
    requires first { 1 ≤ size world.old.world }
    requires some { 1 ≤ k }
    requires call { k ≤ DISK_CALLS }
    ensures { size world.new.world ≡ size world.old.world }
{
    let site = site(1)?;
    let atom = letter(text)?;
    match world.crash(site, k, choice, Request::Insert { index: 0, atom }) {
        Ok(entries) => Ok(entries),
        Err(_) => Err("a crash".into()),
    }
}

// What a crash of site 1 comes to, which has released a message that site 2 has taken.
#[derive(Clone, Copy, Debug, PartialEq)]
struct Told {
    // of site 1 when it is opened again
    entries: u64,
    // the messages then
    sent: u64,
    // the number of its next one, and what that is told of at site 2
    number: u64,
    given: &'static str,
}

fn crash_and_go_on(world: &mut KeptWorld<Rows>, k: u32, choice: u64) -> Result<Told, Fail>
    requires two { size world.old.world ≡ 2 }
    requires some { 1 ≤ k }
    requires call { k ≤ DISK_CALLS }
{
    put(world, 1, "a")?;
    give(world, 2, 1)?;
    let entries = crash(world, k, choice, "b")?;
    let sent = world.sent();
    put(world, 1, "c")?;
    let number = world.sent();
    let given = give(world, 2, number)?;
    Ok(Told {
        entries,
        sent,
        number,
        given,
    })
}

// The request is done, so site 2 misses a message, or it is not.
fn told_where(is_done: bool) -> Told {
    if is_done {
        Told {
            entries: 2,
            sent: 2,
            number: 3,
            given: "later",
        }
    } else {
        Told {
            entries: 1,
            sent: 1,
            number: 2,
            given: "new",
        }
    }
}

#[test]
fn a_crash_does_its_request_where_the_gate_is_left_open(rt: HostRuntime) -> Result<(), Fail> {
    for k in 1..DISK_CALLS + 1 {
        for choice in [0, 1, 2, 257] {
            let mut world = KeptWorld::new(rt.alloc(), 2)?;
            let told = crash_and_go_on(&mut world, k, choice)?;
            let is_done = k >= 3 && (choice == 1 || choice == 257);
            assert_eq!(rt; told, told_where(is_done), "at {k} and {choice}");
        }
    }
    Ok(())
}

fn crash_again(world: &mut KeptWorld<Rows>) -> Result<[u64; 3], Fail>
    requires { size world.old.world ≡ 1 }
{
    put(world, 1, "a")?;
    put(world, 1, "b")?;
    let first = crash(world, 2, 1, "x")?;
    let second = crash(world, 4, 1, "y")?;
    let third = crash(world, 3, 2, "z")?;
    Ok([first, second, third])
}

#[test]
fn a_site_that_crashed_again_and_again_has_what_it_had(rt: HostRuntime) -> Result<(), Fail> {
    let mut world = KeptWorld::new(rt.alloc(), 1)?;
    let entries = crash_again(&mut world)?;
    assert_eq!(rt; entries, [2, 3, 3]);
    Ok(())
}

fn give_in_vain(rt: &impl Abort, world: &mut KeptWorld<Rows>) -> Result<(), Fail>
    requires { size world.old.world ≡ 2 }
{
    put(world, 1, "a")?;
    give(world, 2, 1)?;
    assert_eq!(rt; give(world, 1, 2)?, "none");
    assert_eq!(rt; give(world, 1, 1)?, "stray");
    assert_eq!(rt; give(world, 2, 1)?, "repeat");
    Ok(())
}

#[test]
fn a_message_that_there_is_not_or_that_is_for_another_site_is_told(
    rt: HostRuntime,
) -> Result<(), Fail> {
    let mut world = KeptWorld::new(rt.alloc(), 2)?;
    give_in_vain(&rt, &mut world)
}
