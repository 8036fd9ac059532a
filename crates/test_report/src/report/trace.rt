//! The lines of a trace: each row of the tables of inputs and of replies, and the trace of a live run.

use std::alloc::Global;
use std::process::Abort;
use std::test::Fail;
use td_base::{Atom, AtomId, Bit, Bytes, Dot, Run, Site};
use td_clock::Vector;
use td_doc::Rows;
use td_op::{Body, Entry, Input, Message, Op, Reply, Request, Vote, Why};
use td_path::Slot;
use td_replica::Replica;
use td_report::{entry_line, trace_editor, trace_end, trace_head, trace_site, trace_text};
use td_trace::{Did, DidList, EditorLog};

fn site(number: u8) -> Result<Site, Fail> {
    Ok(Site::new(number).ok_or("a site")?)
}

fn dot(number: u8, seq: u32) -> Result<Dot, Fail> {
    Ok(Dot::new(site(number)?, seq).ok_or("a dot")?)
}

fn id(number: u8, seq: u32, offset: u8) -> Result<AtomId, Fail> {
    Ok(AtomId::new(dot(number, seq)?, offset).ok_or("an identity")?)
}

fn atom(text: &str) -> Result<Atom, Fail> {
    Ok(Atom::new(text.as_bytes()).ok().ok_or("an atom")?)
}

// The first operation of site 2 of two, a proposal.
fn operation() -> Result<Message, Fail> {
    let slot = Slot::Root;
    let op = Op::new(dot(2, 1)?, Vector::new(2), Body::Propose { slot }).ok_or("an operation")?;
    Ok(Message::Op(op))
}

fn vote(yes: bool) -> Result<Message, Fail> {
    let proposal = dot(1, 3)?;
    let voter = site(2)?;
    Ok(Message::Vote(Vote {
        proposal,
        voter,
        yes,
    }))
}

fn is_line(
    rt: &impl Abort,
    alloc: Global,
    input: Input,
    reply: Reply,
    text: &str,
) -> Result<(), Fail> {
    let line = entry_line(alloc, 7, Entry { input, reply })?;
    assert_eq!(rt; line.as_slice(), text.as_bytes(), "{text}");
    Ok(())
}

#[test]
fn each_input_has_its_words(rt: HostRuntime) -> Result<(), Fail> {
    let run = Run::new(&[atom("a")?, atom("\n")?]).ok().ok_or("a run")?;
    for (request, text) in [
        (
            Request::Insert {
                index: 0,
                atom: atom("\"")?,
            },
            "7 insert 0 \"\\\"\" -> idle\n",
        ),
        (
            Request::InsertAfter {
                after: Some(id(1, 2, 3)?),
                atom: atom("b")?,
            },
            "7 insertafter 1.2+3 \"b\" -> idle\n",
        ),
        (
            Request::InsertAfter {
                after: None,
                atom: atom("b")?,
            },
            "7 insertafter start \"b\" -> idle\n",
        ),
        (
            Request::Paste { index: 9, run },
            "7 paste 9 \"a\" \"\\n\" -> idle\n",
        ),
        (
            Request::PasteAfter {
                after: Some(id(64, 65535, 0)?),
                run,
            },
            "7 pasteafter 64.65535 \"a\" \"\\n\" -> idle\n",
        ),
        (
            Request::PasteAfter { after: None, run },
            "7 pasteafter start \"a\" \"\\n\" -> idle\n",
        ),
        (Request::Delete { index: 5 }, "7 delete 5 -> idle\n"),
        (
            Request::DeleteAtom { id: id(1, 2, 63)? },
            "7 deleteatom 1.2+63 -> idle\n",
        ),
        (
            Request::Propose { slot: Slot::Root },
            "7 propose root -> idle\n",
        ),
        (
            Request::Propose {
                slot: Slot::At {
                    atom: id(1, 2, 0)?,
                    bit: Bit::Left,
                },
            },
            "7 propose 1.2 left -> idle\n",
        ),
        (
            Request::Propose {
                slot: Slot::At {
                    atom: id(1, 2, 1)?,
                    bit: Bit::Right,
                },
            },
            "7 propose 1.2+1 right -> idle\n",
        ),
        (
            Request::ProposeAt {
                index: 4,
                bit: Bit::Left,
            },
            "7 proposeat 4 left -> idle\n",
        ),
        (
            Request::ProposeAt {
                index: 4,
                bit: Bit::Right,
            },
            "7 proposeat 4 right -> idle\n",
        ),
        (
            Request::Cancel {
                proposal: dot(1, 3)?,
            },
            "7 cancel 1.3 -> idle\n",
        ),
    ] {
        is_line(&rt, rt.alloc(), Input::Local(request), Reply::Idle, text)?;
    }
    for (input, text) in [
        (Input::Take(operation()?), "7 take op 2.1 -> idle\n"),
        (Input::Take(vote(true)?), "7 take vote 2 1.3 yes -> idle\n"),
        (Input::Take(vote(false)?), "7 take vote 2 1.3 no -> idle\n"),
        (Input::Next, "7 next -> idle\n"),
    ] {
        is_line(&rt, rt.alloc(), input, Reply::Idle, text)?;
    }
    Ok(())
}

#[test]
fn each_reply_has_its_words(rt: HostRuntime) -> Result<(), Fail> {
    let dot = dot(2, 4)?;
    for (reply, text) in [
        (Reply::Made { dot }, "7 next -> made 2.4\n"),
        (Reply::Cancelled, "7 next -> cancelled\n"),
        (Reply::Held { by: dot }, "7 next -> held 2.4\n"),
        (Reply::Position { len: 0 }, "7 next -> position 0\n"),
        (Reply::Gone { id: id(2, 4, 1)? }, "7 next -> gone 2.4+1\n"),
        (
            Reply::Limit {
                made: 65534,
                undecided: 1,
            },
            "7 next -> limit 65534 1\n",
        ),
        (Reply::NotOpen { proposal: dot }, "7 next -> notopen 2.4\n"),
        (Reply::New, "7 next -> new\n"),
        (Reply::Later, "7 next -> later\n"),
        (Reply::Repeat, "7 next -> repeat\n"),
        (Reply::Taken { dot }, "7 next -> taken 2.4\n"),
        (Reply::Idle, "7 next -> idle\n"),
        (Reply::Unfit { why: Why::Size }, "7 next -> unfit size\n"),
        (Reply::Unfit { why: Why::Own }, "7 next -> unfit own\n"),
        (Reply::Unfit { why: Why::Atom }, "7 next -> unfit atom\n"),
        (
            Reply::Unfit { why: Why::Proposal },
            "7 next -> unfit proposal\n",
        ),
        (Reply::Unfit { why: Why::Vote }, "7 next -> unfit vote\n"),
        (
            Reply::Unfit { why: Why::Address },
            "7 next -> unfit address\n",
        ),
        (
            Reply::Dropped {
                dot,
                why: Why::Atom,
            },
            "7 next -> dropped 2.4 atom\n",
        ),
    ] {
        is_line(&rt, rt.alloc(), Input::Next, reply, text)?;
    }
    Ok(())
}

fn replica(rt: &impl Abort, alloc: Global, number: u8) -> Result<Replica<Rows>, Fail> {
    let site = site(number)?;
    assert!(rt; site.number() <= 2);
    Ok(Replica::new(alloc, site, 2)?)
}

// The message with this number of those that the other site sent.
fn take(to: &mut Replica<Rows>, from: &Replica<Rows>, number: u64) -> Result<(), Fail> {
    to.take(from.sent_at(number).ok_or("a message")?)?;
    Ok(())
}

// What an editor did that inserted two letters, proposed a flatten, was refused an insert, and looked.
fn log(alloc: Global) -> Result<EditorLog, Fail> {
    let mut did = DidList::new(alloc);
    for (call, entry) in [(1, 1), (2, 2), (3, 3), (4, 4)] {
        did.push(Did::Call { call, entry })?;
    }
    let mut text = Bytes::new(alloc);
    text.push(b"ab")?;
    let (calls, upto) = (4, 4);
    did.push(Did::Look { calls, upto, text })?;
    let home = site(1)?;
    Ok(EditorLog { home, did })
}

// The worked example "live, fixed".
const FIXED: &str =
    "sites 2\nsite 1\n1 insert 0 \"a\" -> made 1.1\n2 insertafter 1.1 \"b\" -> made 1.2\n\
    3 propose root -> made 1.3\n4 insert 0 \"x\" -> held 1.3\n5 take vote 2 1.3 yes -> new\nsite 2\n\
    1 take op 1.1 -> new\n2 take op 1.2 -> new\n3 take op 1.3 -> new\n4 take op 1.4 -> new\neditor 1 1\n\
    call 1 1\ncall 2 2\ncall 3 3\ncall 4 4\nlook 4 4 \"ab\"\ntext 1 \"ab\"\ntext 2 \"ab\"\nend\n";

#[test]
fn the_trace_of_a_live_run_has_its_lines(rt: HostRuntime) -> Result<(), Fail> {
    let mut one = replica(&rt, rt.alloc(), 1)?;
    let mut two = replica(&rt, rt.alloc(), 2)?;
    one.insert(0, atom("a")?)?;
    one.insert_after(Some(id(1, 1, 0)?), atom("b")?)?;
    one.propose(Slot::Root)?;
    one.insert(0, atom("x")?)?;
    take(&mut two, &one, 1)?;
    take(&mut two, &one, 2)?;
    take(&mut two, &one, 3)?;
    take(&mut one, &two, 1)?;
    take(&mut two, &one, 4)?;
    let mut trace = trace_head(rt.alloc(), 2)?;
    for piece in [
        trace_site(rt.alloc(), &one)?,
        trace_site(rt.alloc(), &two)?,
        trace_editor(rt.alloc(), 1, &log(rt.alloc())?)?,
        trace_text(rt.alloc(), site(1)?, one.text(rt.alloc())?.as_slice())?,
        trace_text(rt.alloc(), site(2)?, two.text(rt.alloc())?.as_slice())?,
        trace_end(rt.alloc())?,
    ] {
        trace.push(piece.as_slice())?;
    }
    assert_eq!(rt; trace.as_slice(), FIXED.as_bytes());
    Ok(())
}

#[test]
fn the_trace_of_no_command_has_two_lines(rt: HostRuntime) -> Result<(), Fail> {
    let mut trace = trace_head(rt.alloc(), 0)?;
    trace.push(trace_end(rt.alloc())?.as_slice())?;
    assert_eq!(rt; trace.as_slice(), b"sites 0\nend\n".as_slice());
    Ok(())
}
