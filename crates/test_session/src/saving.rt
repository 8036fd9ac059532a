use std::alloc::Global;
use std::process::Abort;
use std::test::Fail;
use td_base::{Bytes, Site};
use td_doc::Rows;
use td_journal::{Format, load, save};
use td_op::Reply;
use td_session::{Fault, Session, Unit};

// The journal of a session in which four letters were put, and one of them went.
fn journal(alloc: Global) -> Result<Bytes, Fail> {
    let mut sessions = Vec::new(alloc);
    sessions.push(Session::open(alloc, 1, 2)?)?;
    write(&mut sessions[0])
}

fn write(session: &mut Session) -> Result<Bytes, Fail> {
    session.paste(0, b"abcd")?;
    session.delete(1)?;
    Ok(session.save()?)
}

// The same journal in the format without checks, by way of another document.
fn plain(alloc: Global, journal: &[u8]) -> Result<Bytes, Fail> {
    let site = Site::new(1).ok_or("a site")?;
    let mut replicas = Vec::new(alloc);
    match load::<Rows>(alloc, site, 2, journal) {
        Ok(replica) => replicas.push(replica)?,
        Err(_) => return Err("a replica".into()),
    }
    match save(alloc, &replicas[0], Format::Plain) {
        Ok(journal) => Ok(journal),
        Err(_) => Err("a journal".into()),
    }
}

// The session that comes back shows the letters and their places, has sent what was sent, and goes on.
fn comes_back(rt: &impl Abort, alloc: Global, journal: &[u8]) -> Result<(), Fail> {
    let mut sessions = Vec::new(alloc);
    sessions.push(Session::load(alloc, 1, 2, journal)?)?;
    goes_on(rt, &mut sessions[0])
}

fn goes_on(rt: &impl Abort, session: &mut Session) -> Result<(), Fail> {
    let text = session.text()?;
    assert_eq!(rt; text.as_slice(), &b"acd"[..]);
    assert_eq!(rt; session.sent(), 2);
    assert_eq!(rt; session.index(Unit::Utf16, 2)?, 2);
    let Reply::Made { dot } = session.insert(3, b"e")? else {
        return Err("an operation".into());
    };
    assert_eq!(rt; dot.seq, 3);
    assert_eq!(rt; session.len_in(Unit::Byte)?, 4);
    Ok(())
}

#[test]
fn what_is_saved_is_loaded_and_goes_on(rt: HostRuntime) -> Result<(), Fail> {
    let checked = journal(rt.alloc())?;
    comes_back(&rt, rt.alloc(), checked.as_slice())?;
    let plain = plain(rt.alloc(), checked.as_slice())?;
    comes_back(&rt, rt.alloc(), plain.as_slice())
}

// Bytes that are no journal of site 1 among 2, and where the first part that is none begins.
const SPOILT: [(&[u8], u32); 5] = [
    (b"", 0),
    (b"TJ3\x01\x02\0", 2),
    (b"TJ2\x02\x02\xe7\x36\x48\xf2\0", 3),
    (b"TJ2\x01\x02\xd3\xd1\xe0\x6a\0", 5),
    (
        b"TJ2\x01\x02\xd3\xd1\xe0\x6b\x01\0\x01\x03\x74\xf9\x5b\xa9\0",
        9,
    ),
];

fn fault(alloc: Global, journal: &[u8]) -> Option<Fault> {
    Session::load(alloc, 1, 2, journal).err()
}

#[test]
fn a_spoilt_journal_is_told_at_its_byte(rt: HostRuntime) -> Result<(), Fail> {
    for (bytes, at) in &SPOILT {
        assert_eq!(rt;
            fault(rt.alloc(), bytes),
            Some(Fault::Journal { at: *at }),
            "at {bytes:?}"
        );
    }
    Ok(())
}
