ghost use Rattle.std.specs.Prelude.{◌≡◌, ◌++◌, IfOk};
ghost use Rattle.td_script.specs.Spelling.{spaced_dot};
ghost use Rattle.td_report.specs.Parts.{line};
ghost use Rattle.td_report.specs.Replies.{body_event, decided, event_line, yes_or_no};

use crate::parts::{begin, push_spaced_dot};
use std::alloc::Global;
use td_base::{Bytes, Dot, Memory, Site};
use td_op::{Body, Message};

/// `vote R S.Q yes` or `no`, with the voter and the proposal; `decide R S.Q commit` or `abort`, with the proposer and
/// the proposal. Other messages have no line.
pub fn event_line(alloc: Global, message: &Message) -> Result<Bytes, Memory>
    ensures { IfOk result (λ line. line ≡ event_line message.now) }
{
    match message {
        Message::Vote(vote) => proposal_line(
            alloc,
            b"vote",
            vote.voter,
            vote.proposal,
            vote_word(vote.yes),
        ),
        Message::Op(op) => body_line(alloc, op.body_ref()),
    }
}

/// Yes or no, behind a space.
pub(crate) fn vote_word(yes: bool) -> &'static [u8]
    ensures { result.now ≡ yes_or_no yes }
{
    if yes { b" yes" } else { b" no" }
}

fn body_line(alloc: Global, body: &Body) -> Result<Bytes, Memory>
    ensures { IfOk result (λ line. line ≡ body_event body.now) }
{
    match *body {
        Body::Commit { proposal } => decision_line(alloc, proposal, b" commit"),
        Body::Abort { proposal } => decision_line(alloc, proposal, b" abort"),
        _ => Ok(Bytes::new(alloc)),
    }
}

fn decision_line(alloc: Global, proposal: Dot, decision: &[u8]) -> Result<Bytes, Memory>
    ensures { IfOk result (λ line. line ≡ decided proposal decision.now) }
{
    proposal_line(alloc, b"decide", proposal.site, proposal, decision)
}

// What a site says of a proposal.
fn proposal_line(
    alloc: Global,
    word: &[u8],
    site: Site,
    proposal: Dot,
    says: &[u8],
) -> Result<Bytes, Memory>
    ensures { IfOk result (λ text. text ≡ line word.now site (spaced_dot proposal ++ says.now)) }
{
    let mut line = begin(alloc, word, site)?;
    push_spaced_dot(&mut line, proposal)?;
    line.push(says)?;
    line.push(b"\n")?;
    Ok(line)
}
