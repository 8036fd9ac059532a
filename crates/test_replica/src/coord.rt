ghost use Rattle.std.specs.Prelude.{◌≡◌, ◌≤◌, IfOk};

use std::alloc::Global;
use std::process::Abort as MayAbort;
use std::test::Fail;
use td_base::{Dot, MAX_SITE, Site};
use td_coord::Counted::{Abort, Commit, Repeat, Wait};
use td_coord::*;
use td_op::Vote;

// What is done with the proposal of site 1 that has this number.
#[derive(Clone, Copy)]
enum Do {
    Start(u32),
    // The vote of a site.
    Yes(u32, u8),
    No(u32, u8),
    Cancel(u32),
    Nothing(u32),
}

// What comes of it.
#[derive(Clone, Copy, Debug, PartialEq, Eq)]
enum Told {
    Counts(Counted),
    Cancels(bool),
    Nothing,
}

// What is done, what comes of it, how the proposal stands then, and how many are undecided.
type Step = (Do, Told, Option<Counted>, u32);

// What it shows, of how many sites, and what is done in turn.
struct Example {
    name: &'static str,
    sites: u8,
    steps: &'static [Step],
}

const WAITS: Told = Told::Counts(Wait);

const COMMITS: Told = Told::Counts(Commit);

const ABORTS: Told = Told::Counts(Abort);

const REPEATS: Told = Told::Counts(Repeat);

const EXAMPLES: [Example; 7] = [
    Example {
        name: "the last yes commits and no vote counts twice",
        sites: 3,
        steps: &[
            (Do::Start(3), WAITS, Some(Wait), 1),
            (Do::Yes(3, 2), WAITS, Some(Wait), 1),
            (Do::Yes(3, 2), REPEATS, Some(Wait), 1),
            (Do::Yes(3, 3), COMMITS, Some(Commit), 0),
            (Do::Yes(3, 3), REPEATS, Some(Commit), 0),
        ],
    },
    Example {
        name: "the first no aborts",
        sites: 3,
        steps: &[
            (Do::Start(3), WAITS, Some(Wait), 1),
            (Do::No(3, 3), ABORTS, Some(Abort), 0),
            (Do::Yes(3, 2), REPEATS, Some(Abort), 0),
        ],
    },
    Example {
        name: "a no of a site that said yes counts for nothing",
        sites: 3,
        steps: &[
            (Do::Start(3), WAITS, Some(Wait), 1),
            (Do::Yes(3, 3), WAITS, Some(Wait), 1),
            (Do::No(3, 3), REPEATS, Some(Wait), 1),
            (Do::No(3, 2), ABORTS, Some(Abort), 0),
            (Do::No(3, 3), REPEATS, Some(Abort), 0),
        ],
    },
    Example {
        name: "of one site the own yes commits",
        sites: 1,
        steps: &[
            (Do::Start(3), COMMITS, Some(Commit), 0),
            (Do::Yes(3, 1), REPEATS, Some(Commit), 0),
            (Do::Cancel(3), Told::Cancels(false), Some(Commit), 0),
        ],
    },
    Example {
        name: "a cancel decides what is undecided",
        sites: 3,
        steps: &[
            (Do::Cancel(3), Told::Cancels(false), None, 0),
            (Do::Start(3), WAITS, Some(Wait), 1),
            (Do::Cancel(3), Told::Cancels(true), Some(Abort), 0),
            (Do::Cancel(3), Told::Cancels(false), Some(Abort), 0),
            (Do::Yes(3, 2), REPEATS, Some(Abort), 0),
        ],
    },
    Example {
        name: "proposals are counted apart",
        sites: 2,
        steps: &[
            (Do::Start(3), WAITS, Some(Wait), 1),
            (Do::Start(9), WAITS, Some(Wait), 2),
            (Do::No(9, 2), ABORTS, Some(Abort), 1),
            (Do::Nothing(3), Told::Nothing, Some(Wait), 1),
            (Do::Yes(3, 2), COMMITS, Some(Commit), 0),
            (Do::Nothing(9), Told::Nothing, Some(Abort), 0),
        ],
    },
    Example {
        name: "proposals are counted apart that start in another order",
        sites: 2,
        steps: &[
            (Do::Start(9), WAITS, Some(Wait), 1),
            (Do::Start(3), WAITS, Some(Wait), 2),
            (Do::No(3, 2), ABORTS, Some(Abort), 1),
            (Do::Nothing(9), Told::Nothing, Some(Wait), 1),
            (Do::Yes(9, 2), COMMITS, Some(Commit), 0),
            (Do::Nothing(3), Told::Nothing, Some(Abort), 0),
        ],
    },
];

fn site(number: u8, n: u8) -> Result<Site, Fail>
    ensures { IfOk result (λ site. site ≤ n) }
{
    match Site::new(number) {
        Some(site) if site.number() <= n => Ok(site),
        _ => Err("a site".into()),
    }
}

fn dot(seq: u32) -> Result<Dot, Fail> {
    let site = Site::new(1).ok_or("a site")?;
    Ok(Dot::new(site, seq).ok_or("a dot")?)
}

fn start(tally: &mut Tally, proposal: Dot) -> Result<Told, Fail>
    ensures { tally.new.size ≡ tally.old.size }
{
    if tally.state(proposal).is_some() {
        return Err("a new proposal".into());
    }
    Ok(Told::Counts(tally.start(proposal)?))
}

// Counts a vote that is foreseen.
fn count(tally: &mut Tally, proposal: Dot, voter: Site, yes: bool) -> Result<Told, Fail>
    requires { voter ≤ tally.old.size }
    ensures { tally.new.size ≡ tally.old.size }
{
    if tally.state(proposal).is_none() {
        return Err("a proposal".into());
    }
    let foreseen = tally.foresee(Vote {
        proposal,
        voter,
        yes,
    });
    let counted = tally.count(Vote {
        proposal,
        voter,
        yes,
    });
    if counted != foreseen {
        return Err("a vote that is foreseen".into());
    }
    Ok(Told::Counts(counted))
}

fn vote(tally: &mut Tally, n: u8, seq: u32, number: u8, yes: bool) -> Result<Told, Fail>
    requires { tally.old.size ≡ n }
    ensures { tally.new.size ≡ tally.old.size }
{
    let (proposal, voter) = (dot(seq)?, site(number, n)?);
    count(tally, proposal, voter, yes)
}

fn step(tally: &mut Tally, n: u8, what: Do) -> Result<Told, Fail>
    requires { tally.old.size ≡ n }
    ensures { tally.new.size ≡ tally.old.size }
{
    match what {
        Do::Start(seq) => start(tally, dot(seq)?),
        Do::Yes(seq, number) => vote(tally, n, seq, number, true),
        Do::No(seq, number) => vote(tally, n, seq, number, false),
        Do::Cancel(seq) => Ok(Told::Cancels(tally.cancel(dot(seq)?))),
        Do::Nothing(_) => Ok(Told::Nothing),
    }
}

// How the proposal stands with which that was done.
fn state(tally: &Tally, what: Do) -> Result<Option<Counted>, Fail> {
    let seq = match what {
        Do::Start(seq) | Do::Cancel(seq) | Do::Nothing(seq) => seq,
        Do::Yes(seq, _) | Do::No(seq, _) => seq,
    };
    Ok(tally.state(dot(seq)?))
}

fn holds(rt: &impl MayAbort, tally: &mut Tally, n: u8, name: &str, row: Step) -> Result<(), Fail>
    requires { tally.old.size ≡ n }
    ensures { tally.new.size ≡ tally.old.size }
{
    let (what, told, stands, undecided) = row;
    assert_eq!(rt; step(tally, n, what)?, told, "{name}");
    assert_eq!(rt; state(tally, what)?, stands, "{name}");
    assert_eq!(rt; tally.undecided(), undecided, "{name}");
    Ok(())
}

// The tally of site 1 of n.
fn tally(alloc: Global, n: u8) -> Result<Tally, Fail>
    ensures { IfOk result (λ tally. tally.size ≡ n) }
{
    if n > MAX_SITE {
        return Err("no more than 64 sites".into());
    }
    Ok(Tally::new(alloc, n, site(1, n)?))
}

fn all_hold(rt: &impl MayAbort, tally: &mut Tally, n: u8, example: &Example) -> Result<(), Fail>
    requires { tally.old.size ≡ n }
{
    tally.reserve()?;
    for step in example.steps {
        holds(rt, tally, n, example.name, *step)?;
    }
    Ok(())
}

#[test]
fn votes_are_counted(rt: HostRuntime) -> Result<(), Fail> {
    for example in &EXAMPLES {
        let n = example.sites;
        let mut tally = tally(rt.alloc(), n)?;
        all_hold(&rt, &mut tally, n, example)?;
    }
    Ok(())
}

// All but the last wait.
fn all_say_yes(rt: &impl MayAbort, tally: &mut Tally) -> Result<(), Fail>
    requires { tally.old.size ≡ MAX_SITE }
{
    let name = "of 64 sites the last commits";
    holds(
        rt,
        tally,
        MAX_SITE,
        name,
        (Do::Start(3), WAITS, Some(Wait), 1),
    )?;
    for number in 2..=MAX_SITE {
        let step = if number < MAX_SITE {
            (Do::Yes(3, number), WAITS, Some(Wait), 1)
        } else {
            (Do::Yes(3, number), COMMITS, Some(Commit), 0)
        };
        holds(rt, tally, MAX_SITE, name, step)?;
    }
    Ok(())
}

#[test]
fn of_64_sites_the_last_commits(rt: HostRuntime) -> Result<(), Fail> {
    let mut tally = tally(rt.alloc(), MAX_SITE)?;
    all_say_yes(&rt, &mut tally)
}

// The last one first.
fn a_hundred_start(rt: &impl MayAbort, tally: &mut Tally) -> Result<(), Fail>
    requires { tally.old.size ≡ 2 }
{
    let name = "a hundred proposals need no place kept for them";
    for undecided in 1..=100_u32 {
        let start = Do::Start(101_u32.wrapping_sub(undecided));
        holds(rt, tally, 2, name, (start, WAITS, Some(Wait), undecided))?;
    }
    let last = Do::Nothing(1);
    holds(rt, tally, 2, name, (last, Told::Nothing, Some(Wait), 100))
}

#[test]
fn a_hundred_proposals_need_no_place_kept_for_them(rt: HostRuntime) -> Result<(), Fail> {
    let mut tally = tally(rt.alloc(), 2)?;
    a_hundred_start(&rt, &mut tally)
}
