// What a line tells of a reply.
ghost use Rattle.std.specs.Prelude.{◌≡◌, MatchOption, None, Some};
ghost use Rattle.td_reader.specs.Replies.{dropped_at, gone_at, held_at, limit_at, made_at, not_open_at, position_at};
ghost use Rattle.td_reader.specs.Replies.{receipt_at, reply_at, taken_at, unfit_at, why_at};

use crate::cursor::behind;
use crate::names::{dot, identity};
use crate::number::short;
use td_op::{Reply, Why};

/// A reply, behind a space, and what is left behind it.
#[tactic(auto, unfolding(crate::specs::Replies::reply_at))]
pub(crate) fn reply(bytes: &[u8]) -> Option<(Reply, &[u8])>
    ensures { let read = reply_at bytes.now in
        MatchOption result (read ≡ None) (λ found. read ≡ Some (found.0, found.1.now)) }
{
    if let Some(rest) = behind(bytes, b" made ") {
        return made(rest);
    }
    if let Some(rest) = behind(bytes, b" cancelled") {
        return Some((Reply::Cancelled, rest));
    }
    if let Some(rest) = behind(bytes, b" held ") {
        return held(rest);
    }
    if let Some(rest) = behind(bytes, b" position ") {
        return position(rest);
    }
    if let Some(rest) = behind(bytes, b" gone ") {
        return gone(rest);
    }
    if let Some(rest) = behind(bytes, b" limit ") {
        return limit(rest);
    }
    if let Some(rest) = behind(bytes, b" notopen ") {
        return not_open(rest);
    }
    receipt(bytes)
}

// The reply to a message, or to what waits.
#[tactic(auto, unfolding(crate::specs::Replies::receipt_at))]
fn receipt(bytes: &[u8]) -> Option<(Reply, &[u8])>
    ensures { let read = receipt_at bytes.now in
        MatchOption result (read ≡ None) (λ found. read ≡ Some (found.0, found.1.now)) }
{
    if let Some(rest) = behind(bytes, b" new") {
        return Some((Reply::New, rest));
    }
    if let Some(rest) = behind(bytes, b" later") {
        return Some((Reply::Later, rest));
    }
    if let Some(rest) = behind(bytes, b" repeat") {
        return Some((Reply::Repeat, rest));
    }
    if let Some(rest) = behind(bytes, b" unfit") {
        return unfit(rest);
    }
    if let Some(rest) = behind(bytes, b" taken ") {
        return taken(rest);
    }
    if let Some(rest) = behind(bytes, b" dropped ") {
        return dropped(rest);
    }
    let rest = behind(bytes, b" idle")?;
    Some((Reply::Idle, rest))
}

// The dot of an operation.
#[tactic(auto, unfolding(crate::specs::Replies::made_at))]
fn made(bytes: &[u8]) -> Option<(Reply, &[u8])>
    ensures { let read = made_at bytes.now in
        MatchOption result (read ≡ None) (λ found. read ≡ Some (found.0, found.1.now)) }
{
    let Some((dot, rest)) = dot(bytes) else {
        return None;
    };
    Some((Reply::Made { dot }, rest))
}

// The dot of a proposal that holds.
#[tactic(auto, unfolding(crate::specs::Replies::held_at))]
fn held(bytes: &[u8]) -> Option<(Reply, &[u8])>
    ensures { let read = held_at bytes.now in
        MatchOption result (read ≡ None) (λ found. read ≡ Some (found.0, found.1.now)) }
{
    let Some((by, rest)) = dot(bytes) else {
        return None;
    };
    Some((Reply::Held { by }, rest))
}

// A length.
#[tactic(auto, unfolding(crate::specs::Replies::position_at))]
fn position(bytes: &[u8]) -> Option<(Reply, &[u8])>
    ensures { let read = position_at bytes.now in
        MatchOption result (read ≡ None) (λ found. read ≡ Some (found.0, found.1.now)) }
{
    let (len, rest) = short(bytes)?;
    Some((Reply::Position { len }, rest))
}

// The identity of an atom.
#[tactic(auto, unfolding(crate::specs::Replies::gone_at))]
fn gone(bytes: &[u8]) -> Option<(Reply, &[u8])>
    ensures { let read = gone_at bytes.now in
        MatchOption result (read ≡ None) (λ found. read ≡ Some (found.0, found.1.now)) }
{
    let Some((id, rest)) = identity(bytes) else {
        return None;
    };
    Some((Reply::Gone { id }, rest))
}

// Two numbers of operations.
#[tactic(auto, unfolding(crate::specs::Replies::limit_at))]
fn limit(bytes: &[u8]) -> Option<(Reply, &[u8])>
    ensures { let read = limit_at bytes.now in
        MatchOption result (read ≡ None) (λ found. read ≡ Some (found.0, found.1.now)) }
{
    let (made, rest) = short(bytes)?;
    let rest = behind(rest, b" ")?;
    let (undecided, rest) = short(rest)?;
    Some((Reply::Limit { made, undecided }, rest))
}

// The dot of a proposal that is not open.
#[tactic(auto, unfolding(crate::specs::Replies::not_open_at))]
fn not_open(bytes: &[u8]) -> Option<(Reply, &[u8])>
    ensures { let read = not_open_at bytes.now in
        MatchOption result (read ≡ None) (λ found. read ≡ Some (found.0, found.1.now)) }
{
    let Some((proposal, rest)) = dot(bytes) else {
        return None;
    };
    Some((Reply::NotOpen { proposal }, rest))
}

// Why a message is unfit.
#[tactic(auto, unfolding(crate::specs::Replies::unfit_at))]
fn unfit(bytes: &[u8]) -> Option<(Reply, &[u8])>
    ensures { let read = unfit_at bytes.now in
        MatchOption result (read ≡ None) (λ found. read ≡ Some (found.0, found.1.now)) }
{
    let (why, rest) = why(bytes)?;
    Some((Reply::Unfit { why }, rest))
}

// The dot of an operation that waited.
#[tactic(auto, unfolding(crate::specs::Replies::taken_at))]
fn taken(bytes: &[u8]) -> Option<(Reply, &[u8])>
    ensures { let read = taken_at bytes.now in
        MatchOption result (read ≡ None) (λ found. read ≡ Some (found.0, found.1.now)) }
{
    let Some((dot, rest)) = dot(bytes) else {
        return None;
    };
    Some((Reply::Taken { dot }, rest))
}

// The dot of an operation that waited, and why it is unfit.
#[tactic(auto, unfolding(crate::specs::Replies::dropped_at))]
fn dropped(bytes: &[u8]) -> Option<(Reply, &[u8])>
    ensures { let read = dropped_at bytes.now in
        MatchOption result (read ≡ None) (λ found. read ≡ Some (found.0, found.1.now)) }
{
    let Some((dot, rest)) = dot(bytes) else {
        return None;
    };
    let (why, rest) = why(rest)?;
    Some((Reply::Dropped { dot, why }, rest))
}

// Why something is unfit, behind a space.
#[tactic(auto, unfolding(crate::specs::Replies::why_at))]
fn why(bytes: &[u8]) -> Option<(Why, &[u8])>
    ensures { let read = why_at bytes.now in
        MatchOption result (read ≡ None) (λ found. read ≡ Some (found.0, found.1.now)) }
{
    if let Some(rest) = behind(bytes, b" size") {
        return Some((Why::Size, rest));
    }
    if let Some(rest) = behind(bytes, b" own") {
        return Some((Why::Own, rest));
    }
    if let Some(rest) = behind(bytes, b" atom") {
        return Some((Why::Atom, rest));
    }
    if let Some(rest) = behind(bytes, b" proposal") {
        return Some((Why::Proposal, rest));
    }
    if let Some(rest) = behind(bytes, b" vote") {
        return Some((Why::Vote, rest));
    }
    let rest = behind(bytes, b" address")?;
    Some((Why::Address, rest))
}
