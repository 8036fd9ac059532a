//! Tables of steps: what the replicas of a buffer are asked, one after another, and what each replies.

ghost use Rattle.std.specs.Prelude.{◌≡◌, IfOk};

use std::alloc::Global;
use std::process::Abort;
use std::test::Fail;
use td_base::{Atom, AtomId, Bit, Dot, MAX_SITE, Run, Site};
use td_clock::Vector;
use td_doc::Rows;
use td_op::{Body, Entry, Input, Message, Op, Reply, Request, Vote, Why};
use td_path::Slot;
use td_replica::Replica;

// What a replica is asked. Dots and messages are told by a site and a number.
#[derive(Clone, Copy)]
pub enum Ask {
    // The letter at the index.
    Insert(u32, u8),
    // The letter behind the first atom of the insert with this dot.
    InsertAfter(u8, u32, u8),
    // Two letters behind that atom, or at the start.
    PasteAfter(Option<(u8, u32)>, [u8; 2]),
    Delete(u32),
    // That atom.
    DeleteAtom(u8, u32),
    // To flatten the whole document.
    ProposeRoot,
    // To flatten the slot on this side of the live atom at the index.
    Propose(u32, Bit),
    // To flatten the slot on this side of the first atom of the insert with this dot.
    ProposeBeside(u8, u32, Bit),
    Cancel(u8, u32),
    // The message with this number of those that the site sent.
    Take(u8, u64),
    // An operation with this dot, with as many dependencies as there are sites.
    TakeOp(u8, u32, &'static [u16], Content),
    // A vote on the proposal by the site.
    TakeVote(u8, u32, u8),
    Next,
}

// The content of an operation.
#[derive(Clone, Copy)]
pub enum Content {
    Letter,
    DeleteOf(u8, u32),
    ProposalOfRoot,
    CommitOf(u8, u32),
}

// What is replied.
#[derive(Clone, Copy)]
pub enum Told {
    Made(u8, u32),
    Held(u8, u32),
    Gone(u8, u32),
    Position(u32),
    Cancelled,
    NotOpen(u8, u32),
    New,
    Later,
    Repeat,
    Unfit(Why),
    Taken(u8, u32),
    Dropped(u8, u32, Why),
    Idle,
}

// A site is asked this and replies that.
pub type Step = (u8, Ask, Told);

// What is shown, how many sites there are, what they are asked in turn, and the text that all show then, where it is
// one.
pub struct Example {
    pub name: &'static str,
    pub sites: u8,
    pub steps: &'static [Step],
    pub text: Option<&'static str>,
}

fn site(number: u8) -> Result<Site, Fail>
    ensures { IfOk result (λ site. site ≡ number) }
{
    match Site::new(number) {
        Some(site) => Ok(site),
        None => Err(Fail::from("a site")),
    }
}

pub fn dot(number: u8, seq: u32) -> Result<Dot, Fail> {
    match Dot::new(site(number)?, seq) {
        Some(dot) => Ok(dot),
        None => Err(Fail::from("a dot")),
    }
}

pub fn id(site: u8, seq: u32) -> Result<AtomId, Fail> {
    Ok(AtomId::of(dot(site, seq)?))
}

pub fn atom(letter: u8) -> Result<Atom, Fail> {
    match Atom::new(&[letter]) {
        Ok(atom) => Ok(atom),
        Err(_) => Err(Fail::from("an atom")),
    }
}

pub fn slot(site: u8, seq: u32, bit: Bit) -> Result<Slot, Fail> {
    Ok(Slot::At {
        atom: id(site, seq)?,
        bit,
    })
}

pub fn run([first, second]: [u8; 2]) -> Result<Run, Fail> {
    match Run::new(&[atom(first)?, atom(second)?]) {
        Ok(run) => Ok(run),
        Err(_) => Err(Fail::from("a run")),
    }
}

fn paste(after: Option<(u8, u32)>, letters: [u8; 2]) -> Result<Request, Fail> {
    let after = match after {
        Some((site, seq)) => Some(id(site, seq)?),
        None => None,
    };
    let run = run(letters)?;
    Ok(Request::PasteAfter { after, run })
}

fn body(content: Content) -> Result<Body, Fail> {
    Ok(match content {
        Content::Letter => Body::Insert {
            slot: Slot::Root,
            run: Run::one(atom(b'l')?),
        },
        Content::DeleteOf(site, seq) => Body::Delete {
            target: id(site, seq)?,
        },
        Content::ProposalOfRoot => Body::Propose { slot: Slot::Root },
        Content::CommitOf(site, seq) => Body::Commit {
            proposal: dot(site, seq)?,
        },
    })
}

fn op(dot: Dot, deps: &[u16], content: Content) -> Result<Message, Fail> {
    if deps.is_empty() || deps.len() > usize::from(MAX_SITE) {
        return Err(Fail::from("no vector has so many sites"));
    }
    match Op::new(dot, Vector::of(deps), body(content)?) {
        Some(op) => Ok(Message::Op(op)),
        None => Err(Fail::from("an operation")),
    }
}

fn sent(replicas: &[Replica<Rows>], site: u8, number: u64) -> Result<Message, Fail> {
    let found = match replicas.get(usize::from(site).wrapping_sub(1)) {
        Some(replica) => replica.sent_at(number),
        None => return Err(Fail::from("a site")),
    };
    match found {
        Some(message) => Ok(message),
        None => Err(Fail::from("a message")),
    }
}

fn vote(proposal: Dot, voter: u8) -> Result<Message, Fail> {
    Ok(Message::Vote(Vote {
        proposal,
        voter: site(voter)?,
        yes: true,
    }))
}

// A request that names an atom by its dot.
fn request_at(ask: Ask) -> Result<Option<Request>, Fail> {
    Ok(match ask {
        Ask::InsertAfter(site, seq, letter) => Some(Request::InsertAfter {
            after: Some(id(site, seq)?),
            atom: atom(letter)?,
        }),
        Ask::PasteAfter(after, letters) => Some(paste(after, letters)?),
        Ask::DeleteAtom(site, seq) => Some(Request::DeleteAtom { id: id(site, seq)? }),
        Ask::ProposeBeside(site, seq, bit) => Some(Request::Propose {
            slot: slot(site, seq, bit)?,
        }),
        _ => None,
    })
}

fn input(replicas: &[Replica<Rows>], ask: Ask) -> Result<Input, Fail> {
    if let Some(request) = request_at(ask)? {
        return Ok(Input::Local(request));
    }
    Ok(match ask {
        Ask::Insert(index, letter) => Input::Local(Request::Insert {
            index,
            atom: atom(letter)?,
        }),
        Ask::Delete(index) => Input::Local(Request::Delete { index }),
        Ask::ProposeRoot => Input::Local(Request::Propose { slot: Slot::Root }),
        Ask::Propose(index, bit) => Input::Local(Request::ProposeAt { index, bit }),
        Ask::Cancel(site, seq) => Input::Local(Request::Cancel {
            proposal: dot(site, seq)?,
        }),
        Ask::Take(site, number) => Input::Take(sent(replicas, site, number)?),
        Ask::TakeOp(site, seq, deps, content) => Input::Take(op(dot(site, seq)?, deps, content)?),
        Ask::TakeVote(site, seq, voter) => Input::Take(vote(dot(site, seq)?, voter)?),
        _ => Input::Next,
    })
}

pub fn reply(told: Told) -> Result<Reply, Fail> {
    Ok(match told {
        Told::Made(site, seq) => Reply::Made {
            dot: dot(site, seq)?,
        },
        Told::Held(site, seq) => Reply::Held {
            by: dot(site, seq)?,
        },
        Told::Gone(site, seq) => Reply::Gone { id: id(site, seq)? },
        Told::Position(len) => Reply::Position { len },
        Told::Cancelled => Reply::Cancelled,
        Told::NotOpen(site, seq) => Reply::NotOpen {
            proposal: dot(site, seq)?,
        },
        Told::New => Reply::New,
        Told::Later => Reply::Later,
        Told::Repeat => Reply::Repeat,
        Told::Unfit(why) => Reply::Unfit { why },
        Told::Taken(site, seq) => Reply::Taken {
            dot: dot(site, seq)?,
        },
        Told::Dropped(site, seq, why) => Reply::Dropped {
            dot: dot(site, seq)?,
            why,
        },
        Told::Idle => Reply::Idle,
    })
}

// Whether the replica foretells the reply: a message that is known is repeated, and the next is idle where none is
// ready.
fn is_foretold(replica: &Replica<Rows>, entry: &Entry) -> bool {
    match entry.input {
        Input::Take(message) => replica.known(&message) == (entry.reply == Reply::Repeat),
        Input::Next => replica.ready() == (entry.reply != Reply::Idle),
        Input::Local(_) => true,
    }
}

// The input gives the reply, and stands with it as the last entry.
fn enter(rt: &impl Abort, name: &str, replica: &mut Replica<Rows>, entry: &Entry) {
    assert!(rt; is_foretold(replica, entry), "in {name}");
    let reply = replica.step(entry.input);
    assert_eq!(rt; reply, Ok(entry.reply), "in {name}");
    assert!(rt;
        replica.entry(replica.entries()) == Some(*entry),
        "in {name}"
    );
}

// The new replica of one of n sites.
fn fresh(alloc: Global, number: u8, n: u8) -> Result<Replica<Rows>, Fail> {
    if n > MAX_SITE || number > n {
        return Err(Fail::from("a site of no more than 64"));
    }
    Ok(Replica::new(alloc, site(number)?, n)?)
}

// The new replicas of n sites.
pub fn replicas(alloc: Global, n: u8) -> Result<Vec<Replica<Rows>>, Fail> {
    let mut replicas = Vec::new(alloc);
    for number in 1..=n {
        replicas.push(fresh(alloc, number, n)?)?;
    }
    Ok(replicas)
}

// What a step enters in the history of its site.
fn entry(replicas: &[Replica<Rows>], (_, ask, told): Step) -> Result<Entry, Fail> {
    let input = input(replicas, ask)?;
    let reply = reply(told)?;
    Ok(Entry { input, reply })
}

// The step gives its reply, and stands with it in the history of its site.
pub fn step(
    rt: &impl Abort,
    name: &str,
    replicas: &mut [Replica<Rows>],
    step: Step,
) -> Result<(), Fail> {
    let entry = entry(replicas, step)?;
    let (number, _, _) = step;
    match replicas.get_mut(usize::from(number).wrapping_sub(1)) {
        Some(replica) => enter(rt, name, replica, &entry),
        None => return Err(Fail::from("a site")),
    }
    Ok(())
}

fn play(
    rt: &impl Abort,
    name: &str,
    replicas: &mut [Replica<Rows>],
    steps: &[Step],
) -> Result<(), Fail> {
    for told in steps {
        step(rt, name, replicas, *told)?;
    }
    Ok(())
}

pub fn shows(
    rt: &impl Abort,
    alloc: Global,
    name: &str,
    replica: &Replica<Rows>,
    text: &str,
) -> Result<(), Fail> {
    let shown = replica.text(alloc)?;
    assert!(rt; shown.as_slice() == text.as_bytes(), "in {name}");
    Ok(())
}

fn all_show(
    rt: &impl Abort,
    alloc: Global,
    name: &str,
    replicas: &[Replica<Rows>],
    text: &str,
) -> Result<(), Fail> {
    for replica in replicas {
        shows(rt, alloc, name, replica, text)?;
    }
    Ok(())
}

fn plays(
    rt: &impl Abort,
    alloc: Global,
    replicas: &mut [Replica<Rows>],
    example: &Example,
) -> Result<(), Fail> {
    play(rt, example.name, replicas, example.steps)?;
    match example.text {
        Some(text) => all_show(rt, alloc, example.name, replicas, text),
        None => Ok(()),
    }
}

pub fn all_play(rt: &impl Abort, alloc: Global, examples: &[Example]) -> Result<(), Fail> {
    for example in examples {
        let mut replicas = replicas(alloc, example.sites)?;
        plays(rt, alloc, &mut replicas, example)?;
    }
    Ok(())
}
