ghost use Rattle.std.specs.Prelude.{◌≡◌, ◌-◌, ◌==◌, ◌&&◌, ◌||◌, IfOk, OnOk};
ghost use Rattle.std.specs.BTreeSet.{contains};
ghost use Rattle.std.specs.List.{list_any};
ghost use Rattle.td_op.specs.declared.vote.Vote.{Vote as VoteValue};
ghost use Rattle.td_op.specs.declared.message.Message.{Message as MessageValue};
ghost use Rattle.td_check.specs.SentVotes.{is_vote, sent_cmp, sent_vote, was_sent};

use std::alloc::Global;
use std::collections::BTreeSet;
use td_base::{Dot, Memory, Site};
use td_doc::Doc;
use td_op::{Message, Vote};
use td_seat::Seat;

/// A vote as a key: by the voter, then by the proposal, then No before Yes.
#[derive(Clone, Copy, Debug, Drop, PartialEq, Eq, PartialOrd, Ord)]
pub(crate) struct SentVote {
    voter: Site,
    proposal: Dot,
    yes: bool,
}

impl SentVote {
    /// The vote.
    pub(crate) fn of(vote: Vote) -> SentVote
        ensures { result ≡ sent_vote vote }
    {
        SentVote {
            voter: vote.voter,
            proposal: vote.proposal,
            yes: vote.yes,
        }
    }
}

/// The votes that their voters sent, of sites with these seats, that of site s at place s - 1.
pub(crate) fn votes_sent<D: Doc>(
    alloc: Global,
    seats: &[Seat<D>],
) -> Result<BTreeSet<SentVote>, Memory>
    ensures { IfOk result (λ sent. (v : VoteValue)
        → contains sent_cmp sent (sent_vote v) ≡ was_sent seats.now v) }
{
    let mut sent = BTreeSet::new(alloc);
    for (place, seat) in seats.iter().enumerate() {
        add_votes(&mut sent, seat, place)?;
    }
    Ok(sent)
}

// Adds the votes that this site sent as their voter. It stands at this place.
fn add_votes<D: Doc>(
    sent: &mut BTreeSet<SentVote>,
    seat: &Seat<D>,
    place: usize,
) -> Result<(), Memory>
    ensures { OnOk result ((v : VoteValue) → contains sent_cmp sent.new (sent_vote v)
        ≡ (contains sent_cmp sent.old (sent_vote v)
        || (v.voter - 1 == place && list_any (is_vote v) seat.now.sent))) }
{
    for k in 0..seat.sent() {
        if let Some(message) = seat.sent_at(k + 1) {
            add_message(sent, &message, place)?;
        }
    }
    Ok(())
}

// Adds the message, where it is a vote of the site at this place.
fn add_message(sent: &mut BTreeSet<SentVote>, message: &Message, place: usize) -> Result<(), Memory>
    ensures { OnOk result ((v : VoteValue) → contains sent_cmp sent.new (sent_vote v)
        ≡ (contains sent_cmp sent.old (sent_vote v) || (v.voter - 1 == place && is_vote v message.now))) }
{
    match message {
        Message::Vote(vote) => add_vote(sent, *vote, place),
        Message::Op(_) => Ok(()),
    }
}

// Adds the vote, where it is that of the site at this place.
fn add_vote(sent: &mut BTreeSet<SentVote>, vote: Vote, place: usize) -> Result<(), Memory>
    ensures { OnOk result ((v : VoteValue) → contains sent_cmp sent.new (sent_vote v)
        ≡ (contains sent_cmp sent.old (sent_vote v)
        || (v.voter - 1 == place && is_vote v (MessageValue.Vote vote)))) }
{
    if vote.voter.place() == place {
        sent.insert(SentVote::of(vote))?;
    }
    Ok(())
}
