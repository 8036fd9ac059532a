ghost use Rattle.std.specs.Prelude.{◌≡◌, ◌↔◌, ◌<◌, ◌⊎◌, ℕ, List, IfOk};
ghost use Rattle.td_law_replay.specs.Judging.{States};
ghost use Rattle.td_check.specs.Findings.{IsReplayedWith};
ghost use Rattle.td_check.specs.Looks.{AreLooks, all_seen};
ghost use Rattle.td_check.specs.Seated.{AreSeated};
ghost use Rattle.td_check.specs.Verdict.{IsFinding, IsPossible, IsVerdict};

use crate::alone::first_alone;
use crate::deeds::first_deed;
use crate::looks::Looks;
use crate::replay::Replay;
use crate::settled::is_settled;
use crate::texts::first_text;
use crate::verdict::{Fault, Verdict};
use crate::votes::first_unsent;
use std::alloc::Global;
use td_base::Memory;
use td_doc::Doc;
use td_reader::{MAX_TRACE, ReadTrace, ReadTraceFault, read_trace};
use td_seat::Seat;
use td_tree::Tree;

/// The verdict on the bytes of a trace: that live replicas may have made it, or else the first that is wrong with it.
/// It takes n log n time in the number of bytes, but for the looks: one costs a pass over the rows of its text.
pub fn check_trace(alloc: Global, bytes: &[u8]) -> Result<Verdict, Memory>
    ensures verdict { IfOk result (IsVerdict bytes.now) }
    ensures possible { IfOk result (λ verdict. (verdict ≡ Verdict.Yes) ↔ IsPossible bytes.now) }
{
    if bytes.len() > MAX_TRACE {
        return Ok(no(0, Fault::Size));
    }
    match read_trace(alloc, bytes) {
        Ok(trace) => judge_trace(alloc, &trace),
        Err(ReadTraceFault::Form { line }) => Ok(no(line, Fault::Form)),
        Err(ReadTraceFault::Memory) => Err(Memory),
    }
}

// Of a trace. That of no site tells nothing.
fn judge_trace(alloc: Global, trace: &ReadTrace<'_>) -> Result<Verdict, Memory>
    ensures { IfOk result (λ verdict. ((trace.now.sites ≡ 0) × (verdict ≡ Verdict.Yes))
        ⊎ ((0 < trace.now.sites) × IsFinding trace.now verdict)) }
{
    if trace.sites() == 0 {
        return Ok(Verdict::Yes);
    }
    judge_replay(alloc, trace)
}

// Of a trace of one site or more: goes through its replay, and judges what is told beside the entries.
fn judge_replay(alloc: Global, trace: &ReadTrace<'_>) -> Result<Verdict, Memory>
    requires { 0 < trace.now.sites }
    ensures { IfOk result (IsFinding trace.now) }
{
    // its parts are in range
    trace.sites();
    let mut replay: Replay<'_, Tree> = Replay::new(alloc, trace)?;
    let mut looks = replay.first_looks(alloc)?;
    if let Some(stop) = replay.run(alloc, &mut looks)? {
        return Ok(no(stop.line, stop.fault));
    }
    let seats = replay.seats();
    if let Some(line) = first_unsent(alloc, trace, seats)? {
        return Ok(no(line, Fault::Missing));
    }
    judge_end(alloc, trace, seats, &looks)
}

// Where the replay came to its end, and each vote was sent.
fn judge_end<D: Doc>(
    alloc: Global,
    trace: &ReadTrace<'_>,
    seats: &[Seat<D>],
    looks: &Looks,
) -> Result<Verdict, Memory>
    ensures { IfOk result (λ verdict. (last : States) (text_at : ℕ → ℕ → List ℕ)
        → AreSeated trace.now.sites last seats.now → IsReplayedWith trace.now last text_at
        → AreLooks trace.now (all_seen trace.now) text_at looks.now → IsFinding trace.now verdict) }
{
    // its parts are in range
    trace.sites();
    if let Some(deed) = first_deed(trace, looks) {
        return Ok(no(deed.line, deed.fault));
    }
    if let Some(line) = first_alone(alloc, trace)? {
        return Ok(no(line, Fault::Alone));
    }
    if let Some(line) = first_text(alloc, trace, seats)? {
        return Ok(no(line, Fault::Text));
    }
    if is_settled(seats) {
        return Ok(Verdict::Yes);
    }
    Ok(no(trace.line_of_end(), Fault::Open))
}

fn no(line: u32, fault: Fault) -> Verdict
    ensures { result ≡ Verdict.No line fault }
{
    Verdict::No { line, fault }
}
