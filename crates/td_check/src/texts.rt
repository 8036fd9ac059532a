ghost use Rattle.std.specs.Prelude.{◌≡◌, ◌-◌, ◌↔◌, IfOk, IsTrue, MatchOption, Some, slice_get};
ghost use Rattle.td_doc.specs.Document.{text_of};
ghost use Rattle.td_machine.specs.Machine.{Machine};
ghost use Rattle.td_law_replay.specs.Judging.{States};
ghost use Rattle.td_check.specs.Findings.{AreAllTexts, IsFirstText};
ghost use Rattle.td_check.specs.Seated.{AreSeated};

use std::alloc::Global;
use td_base::{Memory, Site};
use td_doc::Doc;
use td_reader::{Quoted, ReadTrace};
use td_seat::Seat;

/// The line of the first text that is told of a site and is not that of its replica. None where each is. The seats are
/// those at the end of the replay, that of site s at place s - 1.
pub(crate) fn first_text<D: Doc>(
    alloc: Global,
    trace: &ReadTrace<'_>,
    seats: &[Seat<D>],
) -> Result<Option<u32>, Memory>
    ensures { IfOk result (λ found. (last : States) → AreSeated trace.now.sites last seats.now
        → MatchOption found (AreAllTexts trace.now last) (λ line. IsFirstText trace.now last line)) }
{
    for place in 0..trace.sites() {
        let site = Site::at(place);
        if !is_text(alloc, trace, seats, site)? {
            return Ok(Some(trace.line_of_text(site)));
        }
    }
    Ok(None)
}

// Whether the text that is told of the site is that of its seat.
fn is_text<D: Doc>(
    alloc: Global,
    trace: &ReadTrace<'_>,
    seats: &[Seat<D>],
    site: Site,
) -> Result<bool, Memory>
    ensures { IfOk result (λ is. (m : Machine) → slice_get seats.now (site - 1) ≡ Some m
        → IsTrue is ↔ (slice_get trace.now.texts (site - 1) ≡ Some (text_of m.doc))) }
{
    let Some(seat) = seats.get(site.place()) else {
        return Ok(false);
    };
    let Some(told) = trace.text(site) else {
        return Ok(false);
    };
    has_text(alloc, seat, &told)
}

// Whether the text of the seat is this one.
fn has_text<D: Doc>(alloc: Global, seat: &Seat<D>, told: &Quoted<'_>) -> Result<bool, Memory>
    ensures { IfOk result (λ is. IsTrue is ↔ (told.now ≡ text_of seat.now.doc)) }
{
    let text = seat.text(alloc)?;
    Ok(told.is(text.as_slice()))
}
