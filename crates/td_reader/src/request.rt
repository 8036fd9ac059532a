// What a line tells of an input.
ghost use Rattle.std.specs.Prelude.{◌≡◌, MatchOption, None, Some};
ghost use Rattle.td_reader.specs.Requests.{after_atom, asked_at, ballot_at, cancel_at, delete_at, delete_atom_at};
ghost use Rattle.td_reader.specs.Requests.{insert_after_at, insert_at, paste_after_at, paste_at, place_at, propose_at};
ghost use Rattle.td_reader.specs.Requests.{propose_beside, request_at, slot_at, slot_beside, told_at, took_op_at};
ghost use Rattle.td_reader.specs.Requests.{took_vote_at};

use crate::atoms::{bit, run, spaced_atom};
use crate::cursor::behind;
use crate::names::{dot, identity, site};
use crate::number::short;
use td_base::AtomId;
use td_op::{Request, Vote};
use td_path::Slot;
use td_trace::ToldInput;

/// An input, behind a space, and what is left behind it.
#[tactic(auto, unfolding(crate::specs::Requests::told_at))]
pub(crate) fn told(bytes: &[u8]) -> Option<(ToldInput, &[u8])>
    ensures { let read = told_at bytes.now in
        MatchOption result (read ≡ None) (λ found. read ≡ Some (found.0, found.1.now)) }
{
    if let Some(rest) = behind(bytes, b" take op ") {
        return took_op(rest);
    }
    if let Some(rest) = behind(bytes, b" take vote ") {
        return took_vote(rest);
    }
    if let Some(rest) = behind(bytes, b" next") {
        return Some((ToldInput::Went, rest));
    }
    asked(bytes)
}

// An operation that was taken.
#[tactic(auto, unfolding(crate::specs::Requests::took_op_at))]
fn took_op(bytes: &[u8]) -> Option<(ToldInput, &[u8])>
    ensures { let read = took_op_at bytes.now in
        MatchOption result (read ≡ None) (λ found. read ≡ Some (found.0, found.1.now)) }
{
    let Some((dot, rest)) = dot(bytes) else {
        return None;
    };
    Some((ToldInput::TookOp { dot }, rest))
}

// A vote that was taken.
#[tactic(auto, unfolding(crate::specs::Requests::took_vote_at))]
fn took_vote(bytes: &[u8]) -> Option<(ToldInput, &[u8])>
    ensures { let read = took_vote_at bytes.now in
        MatchOption result (read ≡ None) (λ found. read ≡ Some (found.0, found.1.now)) }
{
    let Some((voter, rest)) = site(bytes) else {
        return None;
    };
    let rest = behind(rest, b" ")?;
    let Some((proposal, rest)) = dot(rest) else {
        return None;
    };
    let (yes, rest) = ballot(rest)?;
    let vote = Vote {
        proposal,
        voter,
        yes,
    };
    Some((ToldInput::TookVote(vote), rest))
}

// Yes or no, behind a space.
#[tactic(auto, unfolding(crate::specs::Requests::ballot_at))]
fn ballot(bytes: &[u8]) -> Option<(bool, &[u8])>
    ensures { let read = ballot_at bytes.now in
        MatchOption result (read ≡ None) (λ found. read ≡ Some (found.0, found.1.now)) }
{
    if let Some(rest) = behind(bytes, b" yes") {
        return Some((true, rest));
    }
    let rest = behind(bytes, b" no")?;
    Some((false, rest))
}

// A request of an editor.
#[tactic(auto, unfolding(crate::specs::Requests::asked_at))]
fn asked(bytes: &[u8]) -> Option<(ToldInput, &[u8])>
    ensures { let read = asked_at bytes.now in
        MatchOption result (read ≡ None) (λ found. read ≡ Some (found.0, found.1.now)) }
{
    let Some((request, rest)) = request(bytes) else {
        return None;
    };
    Some((ToldInput::Asked(request), rest))
}

// A request, behind a space.
#[tactic(auto, unfolding(crate::specs::Requests::request_at))]
fn request(bytes: &[u8]) -> Option<(Request, &[u8])>
    ensures { let read = request_at bytes.now in
        MatchOption result (read ≡ None) (λ found. read ≡ Some (found.0, found.1.now)) }
{
    if let Some(rest) = behind(bytes, b" insert ") {
        return insert(rest);
    }
    if let Some(rest) = behind(bytes, b" insertafter ") {
        return insert_after(rest);
    }
    if let Some(rest) = behind(bytes, b" paste ") {
        return paste(rest);
    }
    if let Some(rest) = behind(bytes, b" pasteafter ") {
        return paste_after(rest);
    }
    if let Some(rest) = behind(bytes, b" delete ") {
        return delete(rest);
    }
    if let Some(rest) = behind(bytes, b" deleteatom ") {
        return delete_atom(rest);
    }
    if let Some(rest) = behind(bytes, b" propose ") {
        return propose(rest);
    }
    if let Some(rest) = behind(bytes, b" proposeat ") {
        return propose_at(rest);
    }
    let rest = behind(bytes, b" cancel ")?;
    cancel(rest)
}

// An index and an atom.
#[tactic(auto, unfolding(crate::specs::Requests::insert_at))]
fn insert(bytes: &[u8]) -> Option<(Request, &[u8])>
    ensures { let read = insert_at bytes.now in
        MatchOption result (read ≡ None) (λ found. read ≡ Some (found.0, found.1.now)) }
{
    let (index, rest) = short(bytes)?;
    let Some((atom, rest)) = spaced_atom(rest) else {
        return None;
    };
    Some((Request::Insert { index, atom }, rest))
}

// A place and an atom.
#[tactic(auto, unfolding(crate::specs::Requests::insert_after_at))]
fn insert_after(bytes: &[u8]) -> Option<(Request, &[u8])>
    ensures { let read = insert_after_at bytes.now in
        MatchOption result (read ≡ None) (λ found. read ≡ Some (found.0, found.1.now)) }
{
    let Some((after, rest)) = place(bytes) else {
        return None;
    };
    let Some((atom, rest)) = spaced_atom(rest) else {
        return None;
    };
    Some((Request::InsertAfter { after, atom }, rest))
}

// An index and a run.
#[tactic(auto, unfolding(crate::specs::Requests::paste_at))]
fn paste(bytes: &[u8]) -> Option<(Request, &[u8])>
    ensures { let read = paste_at bytes.now in
        MatchOption result (read ≡ None) (λ found. read ≡ Some (found.0, found.1.now)) }
{
    let (index, rest) = short(bytes)?;
    let Some((run, rest)) = run(rest) else {
        return None;
    };
    Some((Request::Paste { index, run }, rest))
}

// A place and a run.
#[tactic(auto, unfolding(crate::specs::Requests::paste_after_at))]
fn paste_after(bytes: &[u8]) -> Option<(Request, &[u8])>
    ensures { let read = paste_after_at bytes.now in
        MatchOption result (read ≡ None) (λ found. read ≡ Some (found.0, found.1.now)) }
{
    let Some((after, rest)) = place(bytes) else {
        return None;
    };
    let Some((run, rest)) = run(rest) else {
        return None;
    };
    Some((Request::PasteAfter { after, run }, rest))
}

// The index of an atom.
#[tactic(auto, unfolding(crate::specs::Requests::delete_at))]
fn delete(bytes: &[u8]) -> Option<(Request, &[u8])>
    ensures { let read = delete_at bytes.now in
        MatchOption result (read ≡ None) (λ found. read ≡ Some (found.0, found.1.now)) }
{
    let (index, rest) = short(bytes)?;
    Some((Request::Delete { index }, rest))
}

// The identity of an atom.
#[tactic(auto, unfolding(crate::specs::Requests::delete_atom_at))]
fn delete_atom(bytes: &[u8]) -> Option<(Request, &[u8])>
    ensures { let read = delete_atom_at bytes.now in
        MatchOption result (read ≡ None) (λ found. read ≡ Some (found.0, found.1.now)) }
{
    let Some((id, rest)) = identity(bytes) else {
        return None;
    };
    Some((Request::DeleteAtom { id }, rest))
}

// A slot.
#[tactic(auto, unfolding(crate::specs::Requests::propose_at))]
fn propose(bytes: &[u8]) -> Option<(Request, &[u8])>
    ensures { let read = propose_at bytes.now in
        MatchOption result (read ≡ None) (λ found. read ≡ Some (found.0, found.1.now)) }
{
    let Some((slot, rest)) = slot(bytes) else {
        return None;
    };
    Some((Request::Propose { slot }, rest))
}

// The index of an atom, and a side of it.
#[tactic(auto, unfolding(crate::specs::Requests::propose_beside))]
fn propose_at(bytes: &[u8]) -> Option<(Request, &[u8])>
    ensures { let read = propose_beside bytes.now in
        MatchOption result (read ≡ None) (λ found. read ≡ Some (found.0, found.1.now)) }
{
    let (index, rest) = short(bytes)?;
    let Some((bit, rest)) = bit(rest) else {
        return None;
    };
    Some((Request::ProposeAt { index, bit }, rest))
}

// The dot of a proposal.
#[tactic(auto, unfolding(crate::specs::Requests::cancel_at))]
fn cancel(bytes: &[u8]) -> Option<(Request, &[u8])>
    ensures { let read = cancel_at bytes.now in
        MatchOption result (read ≡ None) (λ found. read ≡ Some (found.0, found.1.now)) }
{
    let Some((proposal, rest)) = dot(bytes) else {
        return None;
    };
    Some((Request::Cancel { proposal }, rest))
}

// The atom behind which something is put, or the start.
#[tactic(auto, unfolding(crate::specs::Requests::place_at))]
fn place(bytes: &[u8]) -> Option<(Option<AtomId>, &[u8])>
    ensures { let read = place_at bytes.now in
        MatchOption result (read ≡ None) (λ found. read ≡ Some (found.0, found.1.now)) }
{
    if let Some(rest) = behind(bytes, b"start") {
        return Some((None, rest));
    }
    after_atom(bytes)
}

// The atom behind which something is put.
#[tactic(auto, unfolding(crate::specs::Requests::after_atom))]
fn after_atom(bytes: &[u8]) -> Option<(Option<AtomId>, &[u8])>
    ensures { let read = after_atom bytes.now in
        MatchOption result (read ≡ None) (λ found. read ≡ Some (found.0, found.1.now)) }
{
    let Some((id, rest)) = identity(bytes) else {
        return None;
    };
    Some((Some(id), rest))
}

// A slot.
#[tactic(auto, unfolding(crate::specs::Requests::slot_at))]
fn slot(bytes: &[u8]) -> Option<(Slot, &[u8])>
    ensures { let read = slot_at bytes.now in
        MatchOption result (read ≡ None) (λ found. read ≡ Some (found.0, found.1.now)) }
{
    if let Some(rest) = behind(bytes, b"root") {
        return Some((Slot::Root, rest));
    }
    slot_beside(bytes)
}

// A slot beside an atom.
#[tactic(auto, unfolding(crate::specs::Requests::slot_beside))]
fn slot_beside(bytes: &[u8]) -> Option<(Slot, &[u8])>
    ensures { let read = slot_beside bytes.now in
        MatchOption result (read ≡ None) (λ found. read ≡ Some (found.0, found.1.now)) }
{
    let Some((atom, rest)) = identity(bytes) else {
        return None;
    };
    let Some((bit, rest)) = bit(rest) else {
        return None;
    };
    Some((Slot::At { atom, bit }, rest))
}
