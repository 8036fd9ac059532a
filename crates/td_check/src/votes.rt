ghost use Rattle.std.specs.Prelude.{◌≡◌, IfOk, MatchOption};
ghost use Rattle.td_reader.specs.Values.{IsTraceValue};
ghost use Rattle.td_law_replay.specs.Ended.{VotesWereSent};
ghost use Rattle.td_law_replay.specs.Judging.{States};
ghost use Rattle.td_law_replay.specs.Traced.{site_entries};
ghost use Rattle.td_check.specs.FirstUnsent.{IsFirstUnsent};
ghost use Rattle.td_check.specs.Seated.{AreSeated};
ghost use Rattle.td_check.specs.Unsent.{AreKnown, AreKnownIn, IsFirstUnknown, IsFirstUnknownIn, is_unknown};

use crate::sent::{SentVote, votes_sent};
use std::alloc::Global;
use std::collections::BTreeSet;
use td_base::{Memory, Site};
use td_doc::Doc;
use td_reader::ReadTrace;
use td_seat::Seat;
use td_trace::{ToldInput, TraceEntry};

/// The line of the first entry, by line, that takes a vote which its voter did not send. None where each was sent. The
/// seats are those at the end of the replay, that of site s at place s - 1.
pub(crate) fn first_unsent<D: Doc>(
    alloc: Global,
    trace: &ReadTrace<'_>,
    seats: &[Seat<D>],
) -> Result<Option<u32>, Memory>
    ensures { IfOk result (λ found. (last : States) → AreSeated trace.now.sites last seats.now
        → MatchOption found (VotesWereSent trace.now.histories last) (λ line. IsFirstUnsent trace.now last line)) }
{
    let sent = votes_sent(alloc, seats)?;
    Ok(first_unknown(trace, &sent))
}

// The line of the first entry that takes a vote which is not one of these.
fn first_unknown(trace: &ReadTrace<'_>, sent: &BTreeSet<SentVote>) -> Option<u32>
    ensures line { MatchOption result (AreKnown sent.now trace.now)
        (λ line. IsFirstUnknown sent.now trace.now line) }
    ensures value { IsTraceValue trace.now }
{
    for place in 0..trace.sites() {
        let site = Site::at(place);
        if let Some(k) = first_of(trace, sent, site) {
            return Some(trace.line_of_entry(site, k));
        }
    }
    None
}

// The number of the first such entry of the site.
fn first_of(trace: &ReadTrace<'_>, sent: &BTreeSet<SentVote>, site: Site) -> Option<u32>
    ensures { let entries = site_entries trace.now.histories site in
        MatchOption result (AreKnownIn sent.now entries) (λ k. IsFirstUnknownIn sent.now entries k) }
{
    for k in 0..trace.entries(site) {
        if let Some(entry) = trace.entry(site, k)
            && is_unknown(&entry, sent)
        {
            return Some(k + 1);
        }
    }
    None
}

// Whether the entry takes a vote that is not one of these.
fn is_unknown(entry: &TraceEntry, sent: &BTreeSet<SentVote>) -> bool
    ensures { result ≡ is_unknown sent.now entry.now }
{
    match entry.told {
        ToldInput::TookVote(vote) => !sent.contains(&SentVote::of(vote)),
        _ => false,
    }
}
