ghost use Rattle.std.specs.Prelude.{◌≡◌, ◌++◌, IfOk, OnOk};
ghost use Rattle.td_report.specs.Replies.{cancel_line, cancel_outcome};
ghost use Rattle.td_report.specs.Replies.{flat_line, flat_none_line, proposal_or_refusal};

use crate::parts::{begin, push_refusal, push_spaced_dot};
use std::alloc::Global;
use td_base::{Bytes, Dot, Memory, Site};
use td_op::Reply;

/// `flat R S.Q`: the proposal that was made. A reply Held, Position or Limit says why none was.
pub fn flat_line(alloc: Global, site: Site, reply: Reply) -> Result<Bytes, Memory>
    ensures { IfOk result (λ line. line ≡ flat_line site reply) }
{
    let mut line = begin(alloc, b"flat", site)?;
    push_proposal(&mut line, &reply)?;
    line.push(b"\n")?;
    Ok(line)
}

/// `flat R none`: nothing is idle that could be flattened, so nothing was asked.
pub fn flat_none_line(alloc: Global, site: Site) -> Result<Bytes, Memory>
    ensures { IfOk result (λ line. line ≡ flat_none_line site) }
{
    let mut line = begin(alloc, b"flat", site)?;
    line.push(b" none")?;
    line.push(b"\n")?;
    Ok(line)
}

// The proposal that was made, or why none was.
fn push_proposal(line: &mut Bytes, reply: &Reply) -> Result<(), Memory>
    ensures { OnOk result (line.new ≡ line.old ++ proposal_or_refusal reply.now) }
{
    match *reply {
        Reply::Made { dot } => push_spaced_dot(line, dot),
        _ => push_refusal(line, reply),
    }
}

/// `cancel R S.Q ok`, where the reply is Cancelled, else `cancel R S.Q notopen`.
pub fn cancel_line(alloc: Global, site: Site, proposal: Dot, reply: Reply) -> Result<Bytes, Memory>
    ensures { IfOk result (λ line. line ≡ cancel_line site proposal reply) }
{
    let mut line = begin(alloc, b"cancel", site)?;
    push_spaced_dot(&mut line, proposal)?;
    line.push(outcome(&reply))?;
    line.push(b"\n")?;
    Ok(line)
}

fn outcome(reply: &Reply) -> &'static [u8]
    ensures { result.now ≡ cancel_outcome reply.now }
{
    match reply {
        Reply::Cancelled => b" ok",
        _ => b" notopen",
    }
}
