// What the types of requests, messages and inputs keep: each value is in range, part by part. To say so of a value its
// parts are read, and nothing is done with them.
ghost use Rattle.td_base.specs.Atom.{IsAtom};
ghost use Rattle.td_base.specs.Run.{IsRun};
ghost use Rattle.td_base.specs.Value.{IsDot, IsAtomId};
ghost use Rattle.td_path.specs.Slot.{IsSlot};
ghost use Rattle.td_op.specs.declared.message.Message.TheVariants.{Op as AnOp, Vote as AVote};
ghost use Rattle.td_op.specs.Input.{IsPlace, IsRequest, IsInput};
ghost use Rattle.td_op.specs.Message.{IsBody, IsOpValue, IsVote, IsMessage};

use crate::body::Body;
use crate::input::Input;
use crate::message::Message;
use crate::op::Op;
use crate::request::Request;
use crate::vote::Vote;
use td_base::{Atom, AtomId, Dot, Run};
use td_path::Slot;

impl Input {
    /// Tells a caller that the input is in range, as every value of the type is.
    pub fn is_in_range(&self)
        ensures { IsInput self.now }
    {
        match self {
            Input::Local(request) => request.is_in_range(),
            Input::Take(message) => message.is_in_range(),
            Input::Next => {}
        }
    }
}

impl Message {
    /// Tells a caller that the message is in range, as every value of the type is.
    pub fn is_in_range(&self)
        ensures { IsMessage self.now }
    {
        match self {
            Message::Op(op) => op_in_range(op),
            Message::Vote(vote) => vote_in_range(vote),
        }
    }
}

impl Request {
    /// Tells a caller that the request is in range, as every value of the type is.
    pub fn is_in_range(&self)
        ensures { IsRequest self.now }
    {
        match self {
            Request::Insert { atom, .. } => atom_in_range(atom),
            Request::InsertAfter { after, atom } => {
                place_in_range(after);
                atom_in_range(atom);
            }
            Request::Paste { run, .. } => run_in_range(run),
            Request::PasteAfter { after, run } => {
                place_in_range(after);
                run_in_range(run);
            }
            Request::DeleteAtom { id } => id_in_range(id),
            Request::Propose { slot } => slot_in_range(slot),
            Request::Cancel { proposal } => dot_in_range(proposal),
            Request::Delete { .. } | Request::ProposeAt { .. } => {}
        }
    }
}

fn op_in_range(op: &Op)
    ensures { IsOpValue op.now }
{
    dot_in_range(&op.dot());
    let _size = op.deps().size();
    body_in_range(op.body_ref());
}

fn body_in_range(body: &Body)
    ensures { IsBody body.now }
{
    match body {
        Body::Insert { slot, run } => {
            slot_in_range(slot);
            run_in_range(run);
        }
        Body::Delete { target } => id_in_range(target),
        Body::Propose { slot } => slot_in_range(slot),
        Body::Commit { proposal } | Body::Abort { proposal } => dot_in_range(proposal),
    }
}

fn vote_in_range(vote: &Vote)
    ensures { IsVote vote.now }
{
    let _voter = vote.voter.number();
    dot_in_range(&vote.proposal);
}

fn place_in_range(after: &Option<AtomId>)
    ensures { IsPlace after.now }
{
    if let Some(id) = after {
        id_in_range(id);
    }
}

fn slot_in_range(slot: &Slot)
    ensures { IsSlot slot.now }
{
    if let Slot::At { atom, .. } = slot {
        id_in_range(atom);
    }
}

fn id_in_range(id: &AtomId)
    ensures { IsAtomId id.now }
{
    dot_in_range(&id.dot);
    let _offset = id.offset;
}

fn dot_in_range(dot: &Dot)
    ensures { IsDot dot.now }
{
    let _number = dot.site.number();
    let _seq = dot.seq;
}

fn run_in_range(run: &Run)
    ensures { IsRun run.now }
{
    let _len = run.len();
}

fn atom_in_range(atom: &Atom)
    ensures { IsAtom atom.now }
{
    let _bytes = atom.bytes();
}
