//! Lines by themselves, as the worked examples have them.

use std::alloc::Global;
use std::process::Abort;
use std::test::Fail;
use td_base::{Bytes, Dot, MAX_SITE, Site};
use td_clock::Vector;
use td_op::{Body, Message, Op, Reply, Vote};
use td_replica::Given;
use td_report::{
    cancel_line, del_line, event_line, flat_line, give_line, ins_line, paste_line, settle_line,
    show_line,
};

// A dot by its numbers.
type Numbers = (u8, u32);

// A reply, its dots by numbers.
#[derive(Clone, Copy)]
enum Said {
    Made(Numbers),
    Held(Numbers),
    Position(u32),
    Limit(u32, u32),
    Cancelled,
    NotOpen(Numbers),
    New,
    Later,
    Repeat,
}

// What is printed of a site.
#[derive(Clone, Copy)]
enum Line {
    Ins(u32, u32, Option<Said>),
    Paste(u32, u32, Option<Said>),
    Del(u32, u32, Option<Said>),
    Flat(Said),
    Cancel(Numbers, Said),
    GiveNone(u64),
    GiveStray(u64),
    Give(u64, Said, u32),
    Settle(u64),
    // The site votes on the proposal.
    Vote(Numbers, bool),
    // The operation of the site with this number, behind those of the vector, decides the site's proposal with the
    // other number.
    Decide(u32, &'static [u16], u32, bool),
    Show(&'static str),
}

const LINES: [(u8, Line, &str); 25] = [
    (1, Line::Ins(2, 2, None), "ins 1 2/2\n"),
    (
        1,
        Line::Ins(0, 1, Some(Said::Position(2))),
        "ins 1 0/1 position 2\n",
    ),
    (
        2,
        Line::Ins(0, 1, Some(Said::Held((1, 2)))),
        "ins 2 0/1 held 1.2\n",
    ),
    (
        1,
        Line::Ins(0, 1, Some(Said::Limit(65_534, 1))),
        "ins 1 0/1 limit 65534 1\n",
    ),
    (1, Line::Paste(4, 4, None), "paste 1 4/4\n"),
    (
        1,
        Line::Paste(0, 1, Some(Said::Position(0))),
        "paste 1 0/1 position 0\n",
    ),
    (1, Line::Paste(0, 0, None), "paste 1 0/0\n"),
    (
        1,
        Line::Del(2, 5, Some(Said::Position(0))),
        "del 1 2/5 position 0\n",
    ),
    (1, Line::Flat(Said::Made((1, 65_534))), "flat 1 1.65534\n"),
    (
        1,
        Line::Flat(Said::Limit(65_534, 1)),
        "flat 1 limit 65534 1\n",
    ),
    (1, Line::Flat(Said::Held((2, 1))), "flat 1 held 2.1\n"),
    (
        1,
        Line::Cancel((1, 2), Said::Cancelled),
        "cancel 1 1.2 ok\n",
    ),
    (
        1,
        Line::Cancel((1, 2), Said::NotOpen((1, 2))),
        "cancel 1 1.2 notopen\n",
    ),
    (2, Line::GiveNone(9), "give 2 9 none\n"),
    (1, Line::GiveStray(1), "give 1 1 stray\n"),
    (2, Line::Give(2, Said::Later, 0), "give 2 2 later\n"),
    (2, Line::Give(2, Said::Repeat, 0), "give 2 2 repeat\n"),
    (2, Line::Give(1, Said::New, 1), "give 2 1 new 1\n"),
    (1, Line::Settle(2), "settle 2\n"),
    (2, Line::Vote((1, 4), true), "vote 2 1.4 yes\n"),
    (3, Line::Vote((2, 1), false), "vote 3 2.1 no\n"),
    (
        2,
        Line::Decide(2, &[0, 1], 1, true),
        "decide 2 2.1 commit\n",
    ),
    (
        1,
        Line::Decide(3, &[2, 0], 2, false),
        "decide 1 1.2 abort\n",
    ),
    (1, Line::Show("axybcd"), "show 1 \"axybcd\"\n"),
    (64, Line::Show("a\n\"b\\"), "show 64 \"a\\n\\\"b\\\\\"\n"),
];

fn dot(numbers: Numbers) -> Result<Dot, Fail> {
    let (site, seq) = numbers;
    let site = Site::new(site).ok_or("a site")?;
    Ok(Dot::new(site, seq).ok_or("a dot")?)
}

fn reply(said: Said) -> Result<Reply, Fail> {
    Ok(match said {
        Said::Made(numbers) => Reply::Made { dot: dot(numbers)? },
        Said::Held(numbers) => Reply::Held { by: dot(numbers)? },
        Said::Position(len) => Reply::Position { len },
        Said::Limit(made, undecided) => Reply::Limit { made, undecided },
        Said::Cancelled => Reply::Cancelled,
        Said::NotOpen(numbers) => Reply::NotOpen {
            proposal: dot(numbers)?,
        },
        Said::New => Reply::New,
        Said::Later => Reply::Later,
        Said::Repeat => Reply::Repeat,
    })
}

fn refused(said: Option<Said>) -> Result<Option<Reply>, Fail> {
    Ok(match said {
        Some(said) => Some(reply(said)?),
        None => None,
    })
}

fn vote(voter: Site, proposal: Numbers, yes: bool) -> Result<Message, Fail> {
    Ok(Message::Vote(Vote {
        proposal: dot(proposal)?,
        voter,
        yes,
    }))
}

// The operation with this dot decides the proposal.
fn decision(
    proposal: Numbers,
    numbers: Numbers,
    deps: &[u16],
    commits: bool,
) -> Result<Message, Fail> {
    if deps.is_empty() || deps.len() > usize::from(MAX_SITE) {
        return Err(Fail::from("no vector has so many sites"));
    }
    let proposal = dot(proposal)?;
    let body = if commits {
        Body::Commit { proposal }
    } else {
        Body::Abort { proposal }
    };
    let op = Op::new(dot(numbers)?, Vector::of(deps), body).ok_or("an operation")?;
    Ok(Message::Op(op))
}

fn given_line(
    alloc: Global,
    site: Site,
    number: u64,
    said: Said,
    next: u32,
) -> Result<Bytes, Fail> {
    let reply = reply(said)?;
    Ok(give_line(alloc, site, number, Given::Took { reply, next })?)
}

fn printed(alloc: Global, number: u8, line: Line) -> Result<Bytes, Fail> {
    let site = Site::new(number).ok_or("a site")?;
    Ok(match line {
        Line::Ins(done, all, said) => ins_line(alloc, site, done, all, refused(said)?)?,
        Line::Paste(done, all, said) => paste_line(alloc, site, done, all, refused(said)?)?,
        Line::Del(done, all, said) => del_line(alloc, site, done, all, refused(said)?)?,
        Line::Flat(said) => flat_line(alloc, site, reply(said)?)?,
        Line::Cancel(proposal, said) => cancel_line(alloc, site, dot(proposal)?, reply(said)?)?,
        Line::GiveNone(message) => give_line(alloc, site, message, Given::NoSuch)?,
        Line::GiveStray(message) => give_line(alloc, site, message, Given::Stray)?,
        Line::Give(message, said, next) => given_line(alloc, site, message, said, next)?,
        Line::Settle(given) => settle_line(alloc, given)?,
        Line::Vote(proposal, yes) => event_line(alloc, &vote(site, proposal, yes)?)?,
        Line::Decide(seq, deps, proposal, commits) => {
            let message = decision((number, proposal), (number, seq), deps, commits)?;
            event_line(alloc, &message)?
        }
        Line::Show(text) => show_line(alloc, site, text.as_bytes())?,
    })
}

fn is_printed(
    rt: &impl Abort,
    alloc: Global,
    number: u8,
    line: Line,
    text: &str,
) -> Result<(), Fail> {
    assert_eq!(rt;
        printed(alloc, number, line)?.as_slice(),
        text.as_bytes(),
        "{text}"
    );
    Ok(())
}

#[test]
fn lines_are_those_of_the_examples(rt: HostRuntime) -> Result<(), Fail> {
    for (number, line, text) in &LINES {
        is_printed(&rt, rt.alloc(), *number, *line, text)?;
    }
    Ok(())
}
