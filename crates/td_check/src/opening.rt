// The replay before its first entry.
ghost use Rattle.std.specs.Prelude.{◌≤◌, IfOk};
ghost use Rattle.td_base.specs.declared.site.TheConstants.{MAX_SITE};
ghost use Rattle.td_law_replay.specs.Traced.{site_entries};
ghost use Rattle.td_seat.specs.Counted.{AreCounted};
ghost use Rattle.td_seat.specs.Made.{IsMade};
ghost use Rattle.td_check.specs.ReplayParts.{AreStarted};

use std::alloc::Global;
use td_base::{Memory, Site};
use td_doc::Doc;
use td_reader::ReadTrace;
use td_seat::{Counted, Made, Seat};

/// What the entries of all sites say that these made.
pub(crate) fn made_of(alloc: Global, trace: &ReadTrace<'_>) -> Result<Made, Memory>
    ensures { IfOk result (λ made. IsMade trace.now.histories made) }
{
    let mut made = Made::new(alloc);
    for place in 0..trace.sites() {
        let counted = counted_of(alloc, trace, Site::at(place))?;
        made.push(counted)?;
    }
    Ok(made)
}

// What the entries of a site say that it made.
fn counted_of(alloc: Global, trace: &ReadTrace<'_>, site: Site) -> Result<Counted, Memory>
    requires { site ≤ trace.now.sites }
    ensures { IfOk result (AreCounted site trace.now.sites (site_entries trace.now.histories site)) }
{
    let mut counted = Counted::new(alloc, site, trace.sites());
    for k in 0..trace.entries(site) {
        if let Some(entry) = trace.entry(site, k) {
            counted.count(&entry)?;
        }
    }
    Ok(counted)
}

/// The seats of so many sites, which have done nothing.
pub(crate) fn seats_of<D: Doc>(alloc: Global, n: u8) -> Result<Vec<Seat<D>>, Memory>
    requires { n ≤ MAX_SITE }
    ensures { IfOk result (λ seats. AreStarted n n seats.items) }
{
    let mut seats = Vec::new(alloc);
    for place in 0..n {
        let seat = Seat::new(alloc, Site::at(place), n)?;
        seats.push(seat)?;
    }
    Ok(seats)
}
