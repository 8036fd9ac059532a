ghost use Rattle.std.specs.Prelude.{◌≡◌, ◌≤◌, IfErr, OnOk};
ghost use Rattle.std.specs.Io.KnownBytes.{Appends};
ghost use Rattle.td_io.specs.Count.{counted};
ghost use Rattle.td_journal.specs.Seen.{replica_of};
ghost use Rattle.td_shell.specs.Answers.{answer};
ghost use Rattle.td_shell.specs.Sending.{cut_answer};
ghost use Rattle.td_shell.specs.Staging.{IsAllKept};
ghost use Rattle.td_shell.specs.Talk.{IsLineAnswered, IsTalk, IsUncut};
ghost use Rattle.td_shell.specs.Wanting.{status_of};

use crate::answering::answer;
use crate::halt::Halt;
use crate::lines::Lines;
use crate::sending::fault_line;
use crate::status::Status;
use std::alloc::Global;
use std::sync::Wait;
use td_disk::Disk;
use td_doc::Doc;
use td_io::{Sink, Source, put_all};
use td_journal::Kept;
use td_script::Kind;

/// Does the lines of the source, one after another as they come, up to its end. What a line does is kept before it is
/// answered, and it is answered before the next one is read. It returns at the end of the input, or where it can't go
/// on. A last line without LF may be half of one, and is not done.
pub fn talk<D: Doc, K: Disk, S: Source, W: Sink, R: Wait>(
    rt: &R,
    alloc: Global,
    kept: &mut Kept<D, K>,
    source: &mut S,
    sink: &mut W,
) -> Status
    requires { IsAllKept K.Disk kept.old }
    ensures { IsTalk S.Source W.Sink kept.old kept.new source.old source.new sink.old sink.new result }
{
    match talk_on(rt, alloc, kept, source, sink) {
        Ok(()) => Status::Done,
        Err(halt) => halt.status(),
    }
}

fn talk_on<D: Doc, K: Disk, S: Source, W: Sink, R: Wait>(
    rt: &R,
    alloc: Global,
    kept: &mut Kept<D, K>,
    source: &mut S,
    sink: &mut W,
) -> Result<(), Halt>
    requires { IsAllKept K.Disk kept.old }
    ensures ok { OnOk result (IsTalk S.Source W.Sink kept.old kept.new source.old source.new sink.old sink.new
        Status.Done) }
    ensures halted { IfErr result (λ halt. IsTalk S.Source W.Sink kept.old kept.new source.old source.new sink.old
        sink.new (status_of halt)) }
{
    let mut lines = Lines::new(alloc);
    let mut number = 0;
    for _ in rt.forever() {
        if let Some(line) = lines.next()? {
            number = counted(number);
            answer_into(alloc, kept, number, line.as_slice(), sink)?;
        } else if !lines.fill(source)? {
            return answer_cut(alloc, number, lines.unread(), sink);
        }
    }
    Ok(())
}

// The number of the next line.
fn counted(number: u64) -> u64
    ensures { result ≡ counted number }
{
    number.saturating_add(1)
}

// Does a line, and puts the answer.
fn answer_into<D: Doc, K: Disk, W: Sink>(
    alloc: Global,
    kept: &mut Kept<D, K>,
    number: u64,
    line: &[u8],
    sink: &mut W,
) -> Result<(), Halt>
    requires { IsAllKept K.Disk kept.old }
    ensures answered { IsLineAnswered K.Disk W.Sink (answer number line.now (replica_of kept.old)) kept.old kept.new
        sink.old sink.new result }
    ensures count { W.faults sink.old ≤ W.faults sink.new }
{
    let text = answer(alloc, kept, number, line)?;
    match put_all(sink, text.as_slice()) {
        Ok(()) => Ok(()),
        Err(_) => Err(Halt::Write),
    }
}

// Says that a line was cut off by the end of the input, behind the one with this number.
fn answer_cut<W: Sink>(alloc: Global, number: u64, unread: &[u8], sink: &mut W) -> Result<(), Halt>
    ensures ok { OnOk result (Appends (W.held sink.old) (W.held sink.new) (cut_answer number unread.now)) }
    ensures halted { IfErr result (IsUncut W.Sink (cut_answer number unread.now) sink.old sink.new) }
{
    if unread.is_empty() {
        return Ok(());
    }
    let text = fault_line(alloc, counted(number), Kind::End)?;
    match put_all(sink, text.as_slice()) {
        Ok(()) => Ok(()),
        Err(_) => Err(Halt::Write),
    }
}
