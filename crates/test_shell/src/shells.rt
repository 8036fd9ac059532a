ghost use Rattle.std.specs.Prelude.{◌≤◌, IfOk};
ghost use Rattle.td_disk.specs.Moments.{IsSynced};
ghost use Rattle.td_shell.specs.Staging.{IsAllKept};

use std::alloc::Global;
use std::sync::Wait;
use std::test::Fail;
use td_base::{Bytes, Site};
use td_disk::{Disk, MemDisk};
use td_doc::Rows;
use td_io::{MemSink, MemSource};
use td_journal::Kept;
use td_shell::{Member, Status, begin_or_open, run, talk};

// Room for all that is answered.
const ROOM: u32 = 100_000;

fn site(number: u8) -> Result<Site, Fail>
    ensures { IfOk result (λ site. site ≤ 2) }
{
    if number > 2 {
        return Err(Fail::new("no such site"));
    }
    Ok(Site::new(number).ok_or("a site")?)
}

/// How a site of two runs on this disk, the disk, and what it answers.
pub(crate) fn ran<R: Wait>(
    rt: &R,
    alloc: Global,
    number: u8,
    disk: MemDisk,
    input: &[u8],
) -> Result<(Status, MemDisk, Bytes), Fail>
    requires { IsSynced ⟦<MemDisk as Disk>⟧ disk }
{
    let member = Member {
        site: site(number)?,
        sites: 2,
    };
    let mut source = MemSource::pieces(alloc, input, 7, &[])?;
    let mut sink = MemSink::new(alloc, ROOM, &[])?;
    let (status, disk) = run::<Rows, MemDisk, MemSource, MemSink, R>(
        rt,
        alloc,
        member,
        disk,
        &mut source,
        &mut sink,
    );
    let mut answers = Bytes::new(alloc);
    answers.push(sink.held())?;
    Ok((status, disk, answers))
}

/// What a site of two that has done nothing answers to these lines, all of which it does.
pub(crate) fn answered<R: Wait>(
    rt: &R,
    alloc: Global,
    number: u8,
    input: &[u8],
) -> Result<Bytes, Fail> {
    let (status, _disk, answers) = ran(rt, alloc, number, MemDisk::new(alloc, &[])?, input)?;
    match status {
        Status::Done => Ok(answers),
        _ => Err(Fail::new("a shell that ended before its input")),
    }
}

/// The reads of a source, the writes of a sink and the calls of a disk that fail, by their numbers, and how much the
/// sink takes.
pub(crate) struct Failing {
    pub(crate) reads: &'static [u64],
    pub(crate) writes: &'static [u64],
    pub(crate) calls: &'static [u64],
    pub(crate) room: u32,
}

/// How a shell of site 1 ends that is asked for these lines, and what it answers.
pub(crate) fn talked<R: Wait>(
    rt: &R,
    alloc: Global,
    failing: &Failing,
    input: &[u8],
) -> Result<(Status, Bytes), Fail> {
    let mut kept = opened(alloc, MemDisk::new(alloc, failing.calls)?)?;
    let mut source = MemSource::new(alloc, input, failing.reads)?;
    let mut sink = MemSink::new(alloc, failing.room, failing.writes)?;
    let status = talk(rt, alloc, &mut kept, &mut source, &mut sink);
    let mut answers = Bytes::new(alloc);
    answers.push(sink.held())?;
    Ok((status, answers))
}

// Site 1 of two on this disk.
fn opened(alloc: Global, disk: MemDisk) -> Result<Kept<Rows, MemDisk>, Fail>
    requires { IsSynced ⟦<MemDisk as Disk>⟧ disk }
    ensures { IfOk result (λ kept. IsAllKept ⟦<MemDisk as Disk>⟧ kept) }
{
    match begin_or_open(alloc, site(1)?, 2, disk) {
        Ok(kept) => Ok(kept),
        Err(_) => Err("a journal".into()),
    }
}
