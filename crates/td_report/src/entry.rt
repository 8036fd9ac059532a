ghost use Rattle.std.specs.Prelude.{◌≡◌, ◌++◌, IfOk, OnOk};
ghost use Rattle.std.specs.List.{flat_map};
ghost use Rattle.td_script.specs.Spelling.{spaced, spaced_dot};
ghost use Rattle.td_report.specs.Parts.{spaced_quoted};
ghost use Rattle.td_report.specs.Replies.{yes_or_no};
ghost use Rattle.td_report.specs.Trace.{entry_written};
ghost use Rattle.td_report.specs.TraceLines.{reply_part, request_part, spaced_after, spaced_identity};
ghost use Rattle.td_report.specs.TraceLines.{told_part, why_part};

use crate::event::vote_word;
use crate::parts::{
    push_bit, push_identity, push_number, push_refusal, push_slot, push_spaced, push_spaced_dot,
};
use crate::show::push_quoted;
use std::alloc::Global;
use td_base::{AtomId, Bytes, Dot, Memory, Run};
use td_op::{Entry, Reply, Request, Vote, Why};
use td_trace::{ToldInput, TraceEntry};

/// `K INPUT -> REPLY`: the entry with this number of a history.
pub fn entry_line(alloc: Global, number: u64, entry: Entry) -> Result<Bytes, Memory>
    ensures { IfOk result (λ line. line ≡ entry_written number entry) }
{
    let mut line = Bytes::new(alloc);
    push_entry(&mut line, number, &entry)?;
    Ok(line)
}

/// The entry with this number.
pub(crate) fn push_entry(line: &mut Bytes, number: u64, entry: &Entry) -> Result<(), Memory>
    ensures { OnOk result (line.new ≡ line.old ++ entry_written number entry.now) }
{
    push_number(line, number)?;
    let traced = TraceEntry::of(entry);
    push_told(line, &traced.told)?;
    line.push(b" ->")?;
    push_reply(line, &traced.reply)?;
    line.push(b"\n")
}

// An input, behind a space.
fn push_told(line: &mut Bytes, told: &ToldInput) -> Result<(), Memory>
    ensures { OnOk result (line.new ≡ line.old ++ told_part told.now) }
{
    match told {
        ToldInput::Asked(request) => push_request(line, request),
        ToldInput::TookOp { dot } => push_dotted(line, b" take op", *dot),
        ToldInput::TookVote(vote) => push_vote(line, vote),
        ToldInput::Went => line.push(b" next"),
    }
}

fn push_vote(line: &mut Bytes, vote: &Vote) -> Result<(), Memory>
    ensures { OnOk result (line.new ≡ line.old ++ told_part (ToldInput.TookVote vote.now)) }
{
    push_indexed(line, b" take vote", u32::from(vote.voter.number()))?;
    push_ballot(line, vote)
}

// The proposal, and yes or no.
fn push_ballot(line: &mut Bytes, vote: &Vote) -> Result<(), Memory>
    ensures { OnOk result (line.new ≡ line.old ++ (spaced_dot vote.now.proposal ++ yes_or_no vote.now.yes)) }
{
    push_spaced_dot(line, vote.proposal)?;
    line.push(vote_word(vote.yes))
}

// A request, behind a space.
fn push_request(line: &mut Bytes, request: &Request) -> Result<(), Memory>
    ensures { OnOk result (line.new ≡ line.old ++ request_part request.now) }
{
    match *request {
        Request::Insert { index, atom } => {
            push_indexed(line, b" insert", index)?;
            push_quoted(line, atom.bytes())
        }
        Request::InsertAfter { after, atom } => {
            push_after(line, b" insertafter", after)?;
            push_quoted(line, atom.bytes())
        }
        Request::Paste { index, run } => {
            push_indexed(line, b" paste", index)?;
            push_run(line, &run)
        }
        Request::PasteAfter { after, run } => push_paste_after(line, after, &run),
        Request::Delete { index } => push_indexed(line, b" delete", index),
        Request::DeleteAtom { id } => push_identified(line, b" deleteatom", id),
        Request::Propose { slot } => {
            line.push(b" propose")?;
            push_slot(line, slot)
        }
        Request::ProposeAt { index, bit } => {
            push_indexed(line, b" proposeat", index)?;
            push_bit(line, bit)
        }
        Request::Cancel { proposal } => push_dotted(line, b" cancel", proposal),
    }
}

// A paste behind an atom, or at the start.
fn push_paste_after(line: &mut Bytes, after: Option<AtomId>, run: &Run) -> Result<(), Memory>
    ensures { OnOk result (line.new ≡ line.old ++ request_part (Request.PasteAfter after run.now)) }
{
    push_after(line, b" pasteafter", after)?;
    push_run(line, run)
}

// A word and a number.
fn push_indexed(line: &mut Bytes, word: &[u8], index: u32) -> Result<(), Memory>
    ensures { OnOk result (line.new ≡ line.old ++ (word.now ++ spaced index)) }
{
    line.push(word)?;
    push_spaced(line, u64::from(index))
}

// A word, and the atom behind which something is put, or the start.
fn push_after(line: &mut Bytes, word: &[u8], after: Option<AtomId>) -> Result<(), Memory>
    ensures { OnOk result (line.new ≡ line.old ++ (word.now ++ spaced_after after)) }
{
    line.push(word)?;
    match after {
        None => line.push(b" start"),
        Some(id) => push_spaced_identity(line, id),
    }
}

// A word and an identity.
fn push_identified(line: &mut Bytes, word: &[u8], id: AtomId) -> Result<(), Memory>
    ensures { OnOk result (line.new ≡ line.old ++ (word.now ++ spaced_identity id)) }
{
    line.push(word)?;
    push_spaced_identity(line, id)
}

// An identity behind a space.
fn push_spaced_identity(line: &mut Bytes, id: AtomId) -> Result<(), Memory>
    ensures { OnOk result (line.new ≡ line.old ++ spaced_identity id) }
{
    line.push(b" ")?;
    push_identity(line, id)
}

// The text of each atom, behind a space.
fn push_run(line: &mut Bytes, run: &Run) -> Result<(), Memory>
    ensures { OnOk result (line.new ≡ line.old ++ flat_map spaced_quoted run.now) }
{
    for atom in run.iter() {
        push_quoted(line, atom.bytes())?;
    }
    Ok(())
}

// A reply, behind a space.
fn push_reply(line: &mut Bytes, reply: &Reply) -> Result<(), Memory>
    ensures { OnOk result (line.new ≡ line.old ++ reply_part reply.now) }
{
    match *reply {
        Reply::Made { dot } => push_dotted(line, b" made", dot),
        Reply::Cancelled => line.push(b" cancelled"),
        Reply::Held { .. } | Reply::Position { .. } | Reply::Limit { .. } => {
            push_refusal(line, reply)
        }
        Reply::Gone { id } => push_identified(line, b" gone", id),
        Reply::NotOpen { proposal } => push_dotted(line, b" notopen", proposal),
        Reply::New => line.push(b" new"),
        Reply::Later => line.push(b" later"),
        Reply::Repeat => line.push(b" repeat"),
        Reply::Unfit { why } => {
            line.push(b" unfit")?;
            line.push(why_word(why))
        }
        Reply::Taken { dot } => push_dotted(line, b" taken", dot),
        Reply::Dropped { dot, why } => {
            push_dotted(line, b" dropped", dot)?;
            line.push(why_word(why))
        }
        Reply::Idle => line.push(b" idle"),
    }
}

// A word and a dot.
fn push_dotted(line: &mut Bytes, word: &[u8], dot: Dot) -> Result<(), Memory>
    ensures { OnOk result (line.new ≡ line.old ++ (word.now ++ spaced_dot dot)) }
{
    line.push(word)?;
    push_spaced_dot(line, dot)
}

fn why_word(why: Why) -> &'static [u8]
    ensures { result.now ≡ why_part why }
{
    match why {
        Why::Size => b" size",
        Why::Own => b" own",
        Why::Atom => b" atom",
        Why::Proposal => b" proposal",
        Why::Vote => b" vote",
        Why::Address => b" address",
    }
}
