use std::process::Abort;
use std::test::Fail;
use td_base::{Atom, AtomId, Bit, Dot, Run, Site};
use td_clock::Vector;
use td_op::{Body, Message, Op, Vote};
use td_path::Slot;
use td_wire::*;

fn dot(site: u8, seq: u32) -> Result<Dot, Fail> {
    let site = Site::new(site).ok_or("a site")?;
    Ok(Dot::new(site, seq).ok_or("a dot")?)
}

fn text(bytes: &[u8]) -> Result<Run, Fail> {
    Ok(Run::one(Atom::new(bytes).ok().ok_or("an atom")?))
}

const INSERT_A: [u8; 21] = [
    0x54, 0x32, 1, 1, 0, 0, 0, 1, 2, 0, 0, 0, 0, 0, 0, 0, 0, 0, 1, 1, 0x61,
];

const INSERT_E: [u8; 29] = [
    0x54, 0x32, 1, 2, 0, 0, 0, 1, 2, 0, 0, 0, 1, 0, 0, 0, 0, 1, 1, 1, 0, 0, 0, 1, 0, 1, 2, 0xc3,
    0xa9,
];

const PROPOSE: [u8; 18] = [0x54, 0x32, 3, 1, 0, 0, 0, 3, 2, 0, 0, 0, 2, 0, 0, 0, 0, 0];

const COMMIT: [u8; 22] = [
    0x54, 0x32, 4, 1, 0, 0, 0, 4, 2, 0, 0, 0, 3, 0, 0, 0, 0, 1, 0, 0, 0, 3,
];

const ABORT: [u8; 22] = [
    0x54, 0x32, 5, 1, 0, 0, 0, 4, 2, 0, 0, 0, 3, 0, 0, 0, 0, 1, 0, 0, 0, 3,
];

const DELETE: [u8; 23] = [
    0x54, 0x32, 2, 2, 0, 0, 0, 1, 2, 0, 0, 0, 1, 0, 0, 0, 0, 1, 0, 0, 0, 1, 0,
];

const VOTE: [u8; 10] = [0x54, 0x32, 6, 2, 1, 0, 0, 0, 3, 1];

const OLD_INSERT_A: [u8; 20] = [
    0x54, 0x31, 1, 1, 0, 0, 0, 1, 2, 0, 0, 0, 0, 0, 0, 0, 0, 0, 1, 0x61,
];

const OLD_INSERT_E: [u8; 27] = [
    0x54, 0x31, 1, 2, 0, 0, 0, 1, 2, 0, 0, 0, 1, 0, 0, 0, 0, 1, 1, 1, 0, 0, 0, 1, 2, 0xc3, 0xa9,
];

const OLD_PROPOSE: [u8; 18] = [0x54, 0x31, 3, 1, 0, 0, 0, 3, 2, 0, 0, 0, 2, 0, 0, 0, 0, 0];

const OLD_COMMIT: [u8; 22] = [
    0x54, 0x31, 4, 1, 0, 0, 0, 4, 2, 0, 0, 0, 3, 0, 0, 0, 0, 1, 0, 0, 0, 3,
];

const OLD_ABORT: [u8; 22] = [
    0x54, 0x31, 5, 1, 0, 0, 0, 4, 2, 0, 0, 0, 3, 0, 0, 0, 0, 1, 0, 0, 0, 3,
];

const OLD_DELETE: [u8; 22] = [
    0x54, 0x31, 2, 2, 0, 0, 0, 1, 2, 0, 0, 0, 1, 0, 0, 0, 0, 1, 0, 0, 0, 1,
];

const OLD_VOTE: [u8; 10] = [0x54, 0x31, 6, 2, 1, 0, 0, 0, 3, 1];

// Atoms of one to four bytes, right of the sixth atom of an insert.
const INSERT_MIXED: [u8; 40] = [
    0x54, 0x32, 1, 2, 0, 0, 0, 1, 2, 0, 0, 0, 1, 0, 0, 0, 0, 1, 1, 1, 0, 0, 0, 1, 5, 4, 1, 2, 3, 4,
    0x61, 0xc3, 0xa9, 0xe2, 0x82, 0xac, 0xf0, 0x9f, 0x98, 0x80,
];

// The messages that are spelled.
#[derive(Clone, Copy)]
enum Spelled {
    InsertA,
    InsertE,
    Propose,
    Commit,
    Abort,
    Delete,
    Vote,
}

// Each with its spellings in format 2 and in format 1.
const SPELLINGS: [(Spelled, &[u8], &[u8]); 7] = [
    (Spelled::InsertA, &INSERT_A, &OLD_INSERT_A),
    (Spelled::InsertE, &INSERT_E, &OLD_INSERT_E),
    (Spelled::Propose, &PROPOSE, &OLD_PROPOSE),
    (Spelled::Commit, &COMMIT, &OLD_COMMIT),
    (Spelled::Abort, &ABORT, &OLD_ABORT),
    (Spelled::Delete, &DELETE, &OLD_DELETE),
    (Spelled::Vote, &VOTE, &OLD_VOTE),
];

fn insert(slot: Slot, bytes: &[u8]) -> Result<Body, Fail> {
    let run = text(bytes)?;
    Ok(Body::Insert { slot, run })
}

fn body(which: Spelled) -> Result<Body, Fail> {
    let (first, proposal) = (AtomId::of(dot(1, 1)?), dot(1, 3)?);
    let right = Slot::At {
        atom: first,
        bit: Bit::Right,
    };
    match which {
        Spelled::InsertA => insert(Slot::Root, b"a"),
        Spelled::InsertE => insert(right, "é".as_bytes()),
        Spelled::Propose => Ok(Body::Propose { slot: Slot::Root }),
        Spelled::Commit => Ok(Body::Commit { proposal }),
        Spelled::Abort => Ok(Body::Abort { proposal }),
        Spelled::Delete => Ok(Body::Delete { target: first }),
        Spelled::Vote => Err("an operation".into()),
    }
}

// The operation of two sites that has this dot and knows so many of the first.
fn op(site: u8, seq: u32, first: u16, which: Spelled) -> Result<Message, Fail> {
    let (own, body) = (dot(site, seq)?, body(which)?);
    let op = Op::new(own, Vector::of(&[first, 0]), body);
    Ok(Message::Op(op.ok_or("an operation")?))
}

fn yes() -> Result<Message, Fail> {
    let (proposal, voter) = (dot(1, 3)?, Site::new(2).ok_or("site 2")?);
    Ok(Message::Vote(Vote {
        proposal,
        voter,
        yes: true,
    }))
}

fn message(which: Spelled) -> Result<Message, Fail> {
    match which {
        Spelled::InsertA => op(1, 1, 0, which),
        Spelled::InsertE | Spelled::Delete => op(2, 1, 1, which),
        Spelled::Propose => op(1, 3, 2, which),
        Spelled::Commit | Spelled::Abort => op(1, 4, 3, which),
        Spelled::Vote => yes(),
    }
}

fn is_spelled(rt: &impl Abort, message: &Message, bytes: &[u8], old: &[u8]) {
    assert_eq!(rt; encode(message).bytes(), bytes);
    assert_eq!(rt; decode(bytes).ok(), Some(*message), "at {bytes:?}");
    assert_eq!(rt; decode(old).ok(), Some(*message), "at {old:?}");
    assert_eq!(rt; decode_encoded(message).ok(), Some(*message));
}

#[test]
fn spellings_are_read_and_written(rt: HostRuntime) -> Result<(), Fail> {
    for (which, bytes, old) in &SPELLINGS {
        is_spelled(&rt, &message(*which)?, bytes, old);
    }
    Ok(())
}

// Bytes that spell no message, and the place of their fault.
const FAULTS: [(&[u8], u32); 37] = [
    (b"", 0),
    (b"T2\x07", 2),
    (b"T1\x07", 2),
    (b"T3\x01", 1),
    (b"T2\x01\x01\0\0\0\0", 7),
    (b"T1\x01\x01\0\0\0\0", 7),
    (b"T2\x01\x03\0\0\0\x01\x02", 8),
    (b"T1\x01\x03\0\0\0\x01\x02", 8),
    // 17 sites, in format 1
    (b"T1\x01\x01\0\0\0\x01\x11", 8),
    // site 0, and site 65
    (b"T2\x01\0\0\0\0\x01", 3),
    (b"T2\x01\x41\0\0\0\x01", 3),
    // 65,536 operations of a site
    (b"T2\x01\x01\0\x01\0\0\x01", 5),
    // the own site with another number than the one before
    (b"T2\x01\x01\0\0\0\x01\x01\0\0\0\x01", 12),
    (b"T2\x01\x01\0\0\x02\x01\x01\0\0\x03", 11),
    // the tag of a slot, and its side
    (b"T2\x01\x01\0\0\0\x01\x01\0\0\0\0\x02", 13),
    (b"T2\x01\x01\0\0\0\x01\x01\0\0\0\0\x01\x02", 14),
    (b"T1\x01\x01\0\0\0\x01\x01\0\0\0\0\x01\x02", 14),
    // an atom of site 2 where there is one site, and offset 64
    (b"T2\x03\x01\0\0\0\x01\x01\0\0\0\0\x01\x00\x02", 15),
    (
        b"T2\x03\x01\0\0\0\x01\x01\0\0\0\0\x01\x00\x01\0\0\0\x01\x40",
        20,
    ),
    // a length that leaves no byte for the next atom, and a second one that passes the sum
    (b"T2\x01\x01\0\0\0\x01\x01\0\0\0\0\0\x02\x40", 15),
    (b"T2\x01\x01\0\0\0\x01\x01\0\0\0\0\0\x02\x3f\x02", 16),
    // no atom, and an atom of no bytes
    (b"T2\x01\x01\0\0\0\x01\x01\0\0\0\0\0\0", 14),
    (b"T2\x01\x01\0\0\0\x01\x01\0\0\0\0\0\x01\0", 15),
    // a character of two bytes in an atom of one, an overlong form, a surrogate, what is past U+10FFFF
    (b"T2\x01\x01\0\0\0\x01\x01\0\0\0\0\0\x01\x01\xc3", 16),
    (b"T2\x01\x01\0\0\0\x01\x01\0\0\0\0\0\x01\x02\xc0\x80", 16),
    (b"T2\x01\x01\0\0\0\x01\x01\0\0\0\0\0\x01\x03\xe0\x80", 17),
    (b"T2\x01\x01\0\0\0\x01\x01\0\0\0\0\0\x01\x03\xed\xa0", 17),
    (b"T2\x01\x01\0\0\0\x01\x01\0\0\0\0\0\x01\x04\xf4\x90", 17),
    (
        b"T2\x01\x01\0\0\0\x01\x01\0\0\0\0\0\x01\x04\xf0\x9f\x98\x41",
        19,
    ),
    // a character that the end cuts
    (
        b"T2\x01\x01\0\0\0\x01\x01\0\0\0\0\0\x01\x04\xf0\x9f\x98",
        19,
    ),
    // the insert of "a": with site 0, with the slot's tag 2, and with one byte more
    (b"T2\x01\0\0\0\0\x01\x02\0\0\0\0\0\0\0\0\0\x01\x01a", 3),
    (b"T2\x01\x01\0\0\0\x01\x02\0\0\0\0\0\0\0\0\x02\x01\x01a", 17),
    (b"T2\x01\x01\0\0\0\x01\x02\0\0\0\0\0\0\0\0\0\x01\x01ab", 21),
    // the insert of U+00E9 with the bit 2
    (
        b"T2\x01\x02\0\0\0\x01\x02\0\0\0\x01\0\0\0\0\x01\x02\x01\0\0\0\x01\0\x01\x02\xc3\xa9",
        18,
    ),
    (
        b"T1\x01\x02\0\0\0\x01\x02\0\0\0\x01\0\0\0\0\x01\x02\x01\0\0\0\x01\x02\xc3\xa9",
        18,
    ),
    // the answer of a vote
    (b"T2\x06\x02\x01\0\0\0\x03\x02", 9),
    (b"T1\x06\x02\x01\0\0\0\x03\x02", 9),
];

#[test]
fn faults_have_their_place(rt: HostRuntime) {
    for (bytes, at) in &FAULTS {
        assert_eq!(rt;
            decode(bytes).err(),
            Some(Malformed { at: *at }),
            "at {bytes:?}"
        );
    }
}

// A message is read where one byte is another, or the fault is at that byte or behind it.
fn is_told(rt: &impl Abort, changed: &[u8], place: usize) {
    match decode(changed) {
        Ok(message) if changed.starts_with(b"T2") => {
            assert_eq!(rt; encode(&message).bytes(), changed);
        }
        Ok(message) => assert_eq!(rt; decode_encoded(&message).ok(), Some(message)),
        Err(fault) => assert!(rt; fault.at as usize >= place, "at {changed:?}"),
    }
}

// A spelling is read. Each of its fronts is at fault at its end. Then each of its bytes is changed to each byte.
fn each_front_and_each_byte(rt: &impl Abort, spelling: &[u8]) {
    assert!(rt; decode(spelling).is_ok() && spelling.len() <= MAX_PACKET_LEN);
    let mut changed = [0; MAX_PACKET_LEN];
    changed[..spelling.len()].copy_from_slice(spelling);
    for (k, was) in spelling.iter().enumerate() {
        let fault = decode(&spelling[..k]).err().map(|fault| fault.at as usize);
        assert_eq!(rt; fault, Some(k));
        for byte in 0..=u8::MAX {
            changed[k] = byte;
            is_told(rt, &changed[..spelling.len()], k);
        }
        changed[k] = *was;
    }
}

#[test]
fn fronts_and_changed_bytes_are_told(rt: HostRuntime) {
    for (_, bytes, old) in &SPELLINGS {
        each_front_and_each_byte(&rt, bytes);
        each_front_and_each_byte(&rt, old);
    }
    each_front_and_each_byte(&rt, &INSERT_MIXED);
}

// The longest operation of 64 sites.
fn longest() -> Result<Op, Fail> {
    let letter = Atom::new(b"a").ok().ok_or("a letter")?;
    let run = Run::new(&[letter; 64]).ok().ok_or("a run")?;
    let atom = AtomId::new(dot(64, 65_535)?, 63).ok_or("an identity")?;
    let bit = Bit::Right;
    let slot = Slot::At { atom, bit };
    let op = Op::new(dot(64, 1)?, Vector::new(64), Body::Insert { slot, run });
    Ok(op.ok_or("an operation")?)
}

#[test]
fn the_longest_message_has_402_bytes_and_in_format_1_145(rt: HostRuntime) -> Result<(), Fail> {
    let op = longest()?;
    let packet = encode(&Message::Op(op));
    assert_eq!(rt; packet.bytes().len(), MAX_PACKET_LEN);
    assert_eq!(rt; decode(packet.bytes()).ok(), Some(Message::Op(op)));
    each_front_and_each_byte(&rt, packet.bytes());

    // insert 16.1 of 64 letters right of 16.65535, deps of 16 zeros
    let mut old = [b'a'; 145];
    old[..9].copy_from_slice(b"T1\x01\x10\0\0\0\x01\x10");
    old[9..73].fill(0);
    old[73..81].copy_from_slice(b"\x01\x01\x10\0\0\xff\xff\x40");
    each_front_and_each_byte(&rt, &old);
    Ok(())
}
