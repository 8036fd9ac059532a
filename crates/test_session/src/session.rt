use std::process::Abort;
use std::test::Fail;
use td_base::{Bit, Dot, Site};
use td_op::Reply;
use td_session::*;

fn made(site: u8, seq: u32) -> Option<Reply> {
    let dot = Dot::new(Site::new(site)?, seq)?;
    Some(Reply::Made { dot })
}

// The calls that make a step, by number.
fn asked(session: &mut Session, call: u8) -> Result<Reply, Fault> {
    match call {
        0 => session.insert(0, b"a"),
        1 => session.paste(1, b"bc\r\n"),
        2 => session.delete(2),
        3 => session.flatten_side(0, Bit::Right),
        4 => session.cancel(1, 4),
        5 => session.flatten_root(),
        6 => session.receive(b"T2\x06\x02\x01\x00\x00\x00\x06\x01"),
        _ => session.next(),
    }
}

// What a session of its own is asked for.
fn steps(rt: &impl Abort, session: &mut Session) -> Result<(), Fail> {
    let replies = [
        made(1, 1),
        made(1, 2),
        made(1, 3),
        made(1, 4),
        Some(Reply::Cancelled),
        made(1, 6),
        Some(Reply::New),
        Some(Reply::Idle),
    ];
    for call in 0..8u8 {
        assert_eq!(rt; asked(session, call).ok(), replies[call as usize]);
    }
    let text = session.text()?;
    assert_eq!(rt; text.as_slice(), &b"ab\r\n"[..]);
    let text = session.stretch(1, 3)?;
    assert_eq!(rt; text.as_slice(), &b"b\r\n"[..]);
    assert_eq!(rt; session.had(1)?, 7);
    Ok(())
}

// Where the letters of a text of the four lengths of UTF-8 stand, in each unit.
fn places(rt: &impl Abort, session: &mut Session) -> Result<(), Fail> {
    // a, e with an accent of its own, the euro sign, a face past 2^16
    let text = b"ae\xcc\x81\xe2\x82\xac\xf0\x9f\x98\x80";
    assert_eq!(rt; session.paste(0, text).ok(), made(1, 1));
    let offsets = [
        (Unit::Byte, [0, 1, 4, 7, 11]),
        (Unit::Utf16, [0, 1, 3, 4, 6]),
        (Unit::CodePoint, [0, 1, 3, 4, 5]),
    ];
    for (unit, at) in offsets {
        assert_eq!(rt; session.len_in(unit)?, at[4]);
        for index in 0..5u32 {
            assert_eq!(rt; session.offset(unit, index)?, at[index as usize]);
            assert_eq!(rt; session.index(unit, at[index as usize])?, index);
        }
    }
    // within a letter
    assert_eq!(rt; session.index(Unit::Byte, 6)?, 2);
    assert_eq!(rt; session.index(Unit::Utf16, 5)?, 3);
    assert_eq!(rt; session.index(Unit::CodePoint, 2)?, 1);
    Ok(())
}

#[test]
fn letters_have_places_in_each_unit(rt: HostRuntime) -> Result<(), Fail> {
    let mut session = Session::open(rt.alloc(), 1, 1)?;
    places(&rt, &mut session)
}

#[test]
fn each_call_makes_its_step(rt: HostRuntime) -> Result<(), Fail> {
    let mut session = Session::open(rt.alloc(), 1, 2)?;
    steps(&rt, &mut session)
}

// The calls with arguments that are bad, by number.
fn asked_badly(session: &mut Session, call: u8) -> Option<Fault> {
    match call {
        0 => session.insert(0, b"").err(),
        1 => session.insert(0, b"\xff").err(),
        2 => session.paste(0, b"").err(),
        3 => session.paste(0, b"\xff").err(),
        4 => session.cancel(0, 1).err(),
        5 => session.receive(b"T2\x09").err(),
        6 => session.stretch(0, 1).err(),
        7 => session.offset(Unit::Byte, 1).err(),
        8 => session.index(Unit::Utf16, 1).err(),
        _ => session.had(3).err(),
    }
}

fn faults(rt: &impl Abort, session: &mut Session) {
    let faults = [
        Fault::Atom,
        Fault::Atom,
        Fault::Text,
        Fault::Text,
        Fault::Dot,
        Fault::Packet { at: 2 },
        Fault::Stretch,
        Fault::Place,
        Fault::Place,
        Fault::Site,
    ];
    for call in 0..10u8 {
        assert_eq!(rt; asked_badly(session, call), Some(faults[call as usize]));
    }
}

#[test]
fn a_bad_argument_is_a_fault(rt: HostRuntime) -> Result<(), Fail> {
    let mut session = Session::open(rt.alloc(), 1, 2)?;
    faults(&rt, &mut session);
    Ok(())
}
