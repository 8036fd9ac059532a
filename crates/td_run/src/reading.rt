// What comes of an input, by its language: what its script prints, or the line of its first fault; or the line of the
// verdict on it as a trace.
ghost use Rattle.std.specs.Prelude.{◌≡◌, IfOk, IsErrOf};
ghost use Rattle.td_run.specs.declared.answer.Stop.TheVariants.{Read as Unread};
ghost use Rattle.td_run.specs.declared.status.Status.TheVariants.{Done as IsDone, Script as NoScript};
ghost use Rattle.td_run.specs.declared.words.Form.TheVariants.{Reads};
ghost use Rattle.td_run.specs.declared.words.Language.TheVariants.{Play as InPlay, Live as InLive, Kept as InKept};
ghost use Rattle.td_run.specs.declared.words.Language.TheVariants.{Trace as InTrace};
ghost use Rattle.td_run.specs.Answer.{fault_line};
ghost use Rattle.td_run.specs.Answering.{IsAnswerTo, IsInputPlayed, IsPlayedInto, IsPlayedOr};
ghost use Rattle.td_run.specs.VerdictLine.{verdict_line};

use crate::answer::{Answer, Stop};
use crate::ending::end;
use crate::fault::fault_line;
use crate::kept::play_kept;
use crate::play::play_out;
use crate::status::Status;
use crate::verdict_line::verdict_line;
use std::alloc::Global;
use std::sync::Wait;
use std::thread::Threads;
use td_check::{Fault, Verdict, check_trace};
use td_io::{ReadFault, Sink, Source, read_all};
use td_line::Gate;
use td_live::live_trace;
use td_reader::MAX_TRACE;
use td_script::{
    Kind, MAX_LIVE_SCRIPT, MAX_SCRIPT, ScriptFault, read_kept, read_live, read_script,
};
use td_tree::Tree;

/// Reads a script and plays it. What it prints is put as it goes.
pub(crate) fn played<S: Source, K: Sink>(alloc: Global, source: &mut S, sink: &mut K) -> Status
    ensures { IsPlayedInto S.Source K.Sink source.old source.new sink.old sink.new result }
{
    match read_all(alloc, source, MAX_SCRIPT as u32) {
        Ok(input) => played_or_refused(alloc, input.as_slice(), sink),
        Err(ReadFault::Failed) => Status::Read,
        Err(ReadFault::TooLong) => end(sink, refused(alloc, 0, Kind::Size)),
        Err(ReadFault::Memory) => Status::Memory,
    }
}

// The same of an input that was read to its end.
fn played_or_refused<K: Sink>(alloc: Global, input: &[u8], sink: &mut K) -> Status
    ensures { IsInputPlayed K.Sink input.now sink.old sink.new result }
{
    match read_script(alloc, input) {
        Ok(script) => play_out::<Tree, K>(alloc, &script, sink),
        Err(ScriptFault::Fault { line, kind }) => end(sink, refused(alloc, line, kind)),
        Err(ScriptFault::Memory) => Status::Memory,
    }
}

/// Reads a live script, and tells what it comes to.
pub(crate) fn traced<S: Source, G: Gate + Sync, R: Threads + Wait + Copy + Send + Sync>(
    rt: &R,
    alloc: Global,
    source: &mut S,
    gate: &G,
) -> Result<Answer, Stop>
    ensures { IsAnswerTo S.Source (Reads InLive) source.old source.new result }
{
    match read_all(alloc, source, MAX_LIVE_SCRIPT as u32) {
        Ok(input) => traced_or_refused(rt, alloc, input.as_slice(), gate),
        Err(ReadFault::Failed) => Err(Stop::Read),
        Err(ReadFault::TooLong) => refused(alloc, 0, Kind::Size),
        Err(ReadFault::Memory) => Err(Stop::Memory),
    }
}

// The same of an input that was read to its end.
fn traced_or_refused<G: Gate + Sync, R: Threads + Wait + Copy + Send + Sync>(
    rt: &R,
    alloc: Global,
    input: &[u8],
    gate: &G,
) -> Result<Answer, Stop>
    ensures answer { IfOk result (λ a. IsPlayedOr InLive input.now a.status a.bytes) }
    ensures read { IsErrOf result Unread → ⊥ }
{
    match read_live(alloc, input) {
        Ok(script) => Ok(Answer {
            status: Status::Done,
            bytes: live_trace(rt, alloc, script, gate)?,
        }),
        Err(ScriptFault::Fault { line, kind }) => refused(alloc, line, kind),
        Err(ScriptFault::Memory) => Err(Stop::Memory),
    }
}

/// Reads a kept script and plays it.
pub(crate) fn crashed<S: Source>(alloc: Global, source: &mut S) -> Result<Answer, Stop>
    ensures { IsAnswerTo S.Source (Reads InKept) source.old source.new result }
{
    match read_all(alloc, source, MAX_SCRIPT as u32) {
        Ok(input) => crashed_or_refused(alloc, input.as_slice()),
        Err(ReadFault::Failed) => Err(Stop::Read),
        Err(ReadFault::TooLong) => refused(alloc, 0, Kind::Size),
        Err(ReadFault::Memory) => Err(Stop::Memory),
    }
}

// The same of an input that was read to its end.
fn crashed_or_refused(alloc: Global, input: &[u8]) -> Result<Answer, Stop>
    ensures answer { IfOk result (λ a. IsPlayedOr InKept input.now a.status a.bytes) }
    ensures read { IsErrOf result Unread → ⊥ }
{
    match read_kept(alloc, input) {
        Ok(script) => Ok(Answer {
            status: Status::Done,
            bytes: play_kept::<Tree>(alloc, &script)?,
        }),
        Err(ScriptFault::Fault { line, kind }) => refused(alloc, line, kind),
        Err(ScriptFault::Memory) => Err(Stop::Memory),
    }
}

/// Reads a trace and judges it.
pub(crate) fn judged<S: Source>(alloc: Global, source: &mut S) -> Result<Answer, Stop>
    ensures { IsAnswerTo S.Source (Reads InTrace) source.old source.new result }
{
    match read_all(alloc, source, MAX_TRACE as u32) {
        Ok(input) => verdict_on(alloc, input.as_slice()),
        Err(ReadFault::Failed) => Err(Stop::Read),
        Err(ReadFault::TooLong) => told(
            alloc,
            Verdict::No {
                line: 0,
                fault: Fault::Size,
            },
        ),
        Err(ReadFault::Memory) => Err(Stop::Memory),
    }
}

// The verdict on an input that was read to its end.
fn verdict_on(alloc: Global, input: &[u8]) -> Result<Answer, Stop>
    ensures answer { IfOk result (λ a. IsPlayedOr InTrace input.now a.status a.bytes) }
    ensures read { IsErrOf result Unread → ⊥ }
{
    let verdict = check_trace(alloc, input)?;
    told(alloc, verdict)
}

// The line of a verdict.
fn told(alloc: Global, verdict: Verdict) -> Result<Answer, Stop>
    ensures answer { IfOk result (λ a. (a.status ≡ IsDone) × (a.bytes ≡ verdict_line verdict)) }
    ensures read { IsErrOf result Unread → ⊥ }
{
    Ok(Answer {
        status: Status::Done,
        bytes: verdict_line(alloc, verdict)?,
    })
}

// The line of a fault.
fn refused(alloc: Global, line: u32, kind: Kind) -> Result<Answer, Stop>
    ensures answer { IfOk result (λ a. (a.status ≡ NoScript) × (a.bytes ≡ fault_line line kind)) }
    ensures read { IsErrOf result Unread → ⊥ }
{
    Ok(Answer {
        status: Status::Script,
        bytes: fault_line(alloc, line, kind)?,
    })
}
