use std::alloc::Global;
use std::process::Abort;
use std::test::Fail;
use td_base::{Atom, AtomId, Bit, Dot, Run, Site};
use td_clock::Vector;
use td_input::{read_input, write_input};
use td_op::{Body, Input, Message, Op, Request, Vote};
use td_path::Slot;

fn site(number: u8) -> Result<Site, Fail> {
    Ok(Site::new(number).ok_or("a site")?)
}

fn dot(number: u8, seq: u32) -> Result<Dot, Fail> {
    Ok(Dot::new(site(number)?, seq).ok_or("a dot")?)
}

fn atom(text: &str) -> Result<Atom, Fail> {
    Ok(Atom::new(text.as_bytes()).ok().ok_or("an atom")?)
}

// One of one byte, and one of two.
fn two_atoms() -> Result<Run, Fail> {
    Ok(Run::new(&[atom("a")?, atom("é")?]).ok().ok_or("a run")?)
}

// The insert of "a" at the root by site 1 of 2, and the Yes of site 2 on a proposal.
fn messages() -> Result<[Message; 2], Fail> {
    let body = Body::Insert {
        slot: Slot::Root,
        run: Run::one(atom("a")?),
    };
    let op = Op::new(dot(1, 1)?, Vector::new(2), body).ok_or("an operation")?;
    let vote = Vote {
        proposal: dot(1, 3)?,
        voter: site(2)?,
        yes: true,
    };
    Ok([Message::Op(op), Message::Vote(vote)])
}

// The input is written as these bytes, and they are read as it.
fn is_written_as(rt: &impl Abort, alloc: Global, input: Input, bytes: &[u8]) -> Result<(), Fail> {
    assert_eq!(rt; write_input(alloc, &input)?.as_slice(), bytes);
    assert_eq!(rt; read_input(bytes), Some(input), "at {bytes:?}");
    Ok(())
}

#[test]
fn requests_at_an_index_are_written_and_read(rt: HostRuntime) -> Result<(), Fail> {
    let (index, atom, run) = (7, atom("a")?, two_atoms()?);
    for (request, bytes) in [
        (
            Request::Insert { index, atom },
            b"\x01\x01\0\0\0\x07\x01\x01a".as_slice(),
        ),
        (
            Request::Delete { index: 0x0102_0304 },
            b"\x01\x03\x01\x02\x03\x04",
        ),
        (
            Request::ProposeAt {
                index,
                bit: Bit::Left,
            },
            b"\x01\x06\0\0\0\x07\0",
        ),
        (
            Request::ProposeAt {
                index: u32::MAX,
                bit: Bit::Right,
            },
            b"\x01\x06\xff\xff\xff\xff\x01",
        ),
        (
            Request::Paste { index, run },
            b"\x01\x08\0\0\0\x07\x02\x01\x02a\xc3\xa9",
        ),
    ] {
        is_written_as(&rt, rt.alloc(), Input::Local(request), bytes)?;
    }
    Ok(())
}

#[test]
fn requests_at_a_name_are_written_and_read(rt: HostRuntime) -> Result<(), Fail> {
    let id = AtomId::new(dot(2, 0x102)?, 5).ok_or("an identity")?;
    let (after, atom, run) = (Some(id), atom("a")?, two_atoms()?);
    let (slot, proposal) = (
        Slot::At {
            atom: id,
            bit: Bit::Right,
        },
        dot(64, 65_535)?,
    );
    for (request, bytes) in [
        (
            Request::InsertAfter { after: None, atom },
            b"\x01\x02\0\x01\x01a".as_slice(),
        ),
        (
            Request::InsertAfter { after, atom },
            b"\x01\x02\x01\x02\0\0\x01\x02\x05\x01\x01a",
        ),
        (Request::DeleteAtom { id }, b"\x01\x04\x02\0\0\x01\x02\x05"),
        (Request::Propose { slot: Slot::Root }, b"\x01\x05\0"),
        (
            Request::Propose { slot },
            b"\x01\x05\x01\x01\x02\0\0\x01\x02\x05",
        ),
        (Request::Cancel { proposal }, b"\x01\x07\x40\0\0\xff\xff"),
        (
            Request::PasteAfter { after: None, run },
            b"\x01\x09\0\x02\x01\x02a\xc3\xa9",
        ),
        (
            Request::PasteAfter { after, run },
            b"\x01\x09\x01\x02\0\0\x01\x02\x05\x02\x01\x02a\xc3\xa9",
        ),
    ] {
        is_written_as(&rt, rt.alloc(), Input::Local(request), bytes)?;
    }
    Ok(())
}

#[test]
fn messages_and_leave_are_written_and_read(rt: HostRuntime) -> Result<(), Fail> {
    let [insert, vote] = messages()?;
    for (input, bytes) in [
        (
            Input::Take(insert),
            b"\x02T2\x01\x01\0\0\0\x01\x02\0\0\0\0\0\0\0\0\0\x01\x01a".as_slice(),
        ),
        (Input::Take(vote), b"\x02T2\x06\x02\x01\0\0\0\x03\x01"),
        (Input::Next, b"\x03"),
    ] {
        is_written_as(&rt, rt.alloc(), input, bytes)?;
    }
    Ok(())
}
