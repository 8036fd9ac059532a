ghost use Rattle.std.specs.Prelude.{◌≡◌, ◌<◌, ◌≤◌, ◌+◌, ◌^◌, ◌∷◌, [], ℕ, List, IfSome, Some, vec_len, vec_capacity};
ghost use Rattle.std.specs.Option.{option_map};
ghost use Rattle.std.specs.List.{slice_get};
ghost use Rattle.td_op.specs.declared.input.Input.TheVariants.{Local, Take};
ghost use Rattle.td_op.specs.declared.message.Message.TheVariants.{Op as AnOp};
ghost use Rattle.td_op.specs.Op.{OpValue};
ghost use Rattle.td_history.specs.Past.{IsDoneAs};
ghost use Rattle.td_history.specs.Puts.{put_of};
ghost use Rattle.td_history.specs.Inputs.{input_of, put_input, taken_input};
ghost use Rattle.td_history.specs.Texts.{run_at};
ghost use Rattle.td_history.specs.Standing.{IsGrown};

use crate::log::Log;
use crate::put::{CompactPut, compact_id};
use crate::vote::CompactVote;
use td_base::{Atom, Bit, Run};
use td_op::{Input, Message, Op, Request};
use td_store::{CompactDot, CompactId, CompactSlot, Runs};

/// An input in 16 bytes. Among the operations of a log, the texts that no operation has and the operations that were
/// offered alone it stands for `input_of` it.
#[derive(Clone, Copy, Debug, PartialEq, Eq)]
pub enum CompactInput {
    /// A request whose text is the run of the operation of this number.
    Done { put: CompactPut, number: u32 },
    /// A request whose text is the one of this number.
    Refused { put: CompactPut, text: u32 },
    Delete { index: u32 },
    DeleteAtom { id: CompactId },
    Propose { slot: CompactSlot },
    ProposeAt { bit: Bit, index: u32 },
    Cancel { proposal: CompactDot },
    /// The operation of this number.
    Taken { number: u32 },
    /// The offered operation of this number.
    Offered { number: u32 },
    Vote { vote: CompactVote },
    Next,
}

impl CompactInput {
    /// The input that it stands for.
    pub fn input(&self, log: &Log, texts: &Runs, offered: &[Op]) -> Option<Input>
        ensures { result ≡ input_of log.now.ops texts.now.runs offered.now self.now }
    {
        match *self {
            CompactInput::Done { put, number } => put_input(&put, log.run(number)),
            CompactInput::Refused { put, text } => put_input(&put, texts.get(text)),
            CompactInput::Delete { index } => Some(Input::Local(Request::Delete { index })),
            CompactInput::DeleteAtom { id } => {
                Some(Input::Local(Request::DeleteAtom { id: id.id() }))
            }
            CompactInput::Propose { slot } => {
                Some(Input::Local(Request::Propose { slot: slot.slot() }))
            }
            CompactInput::ProposeAt { bit, index } => {
                Some(Input::Local(Request::ProposeAt { index, bit }))
            }
            CompactInput::Cancel { proposal } => Some(Input::Local(Request::Cancel {
                proposal: proposal.dot(),
            })),
            CompactInput::Taken { number } => taken_input(log.op(number)),
            CompactInput::Offered { number } => {
                taken_input(offered.get(number as usize).copied())
            }
            CompactInput::Vote { vote } => Some(Input::Take(Message::Vote(vote.vote()))),
            CompactInput::Next => Some(Input::Next),
        }
    }
}

/// The input, made compact. Where there is no number of the operation that it makes or takes, its text is added to the
/// texts, or its operation to those offered, in the room that they have.
pub fn keep_input(
    texts: &mut Runs,
    offered: &mut Vec<Op>,
    input: &Input,
    number: Option<u32>,
) -> CompactInput
    requires texts_room { 1 ≤ texts.old.room }
    requires offered_room { vec_len offered.old < vec_capacity offered.old }
    requires few { vec_len offered.old < 2 ^ 32 }
    ensures input { (ops : List OpValue) → IfSome number (IsDoneAs ops input.now)
        → input_of ops texts.new.runs offered.new.items result ≡ Some input.now }
    ensures texts { IsGrown texts.old.runs texts.new.runs }
    ensures texts_room { texts.old.room ≤ texts.new.room + 1 }
    ensures offered { IsGrown offered.old.items offered.new.items }
    ensures offered_len { vec_len offered.new ≤ vec_len offered.old + 1 }
    ensures capacity { vec_capacity offered.new ≡ vec_capacity offered.old }
{
    match input {
        Input::Local(request) => keep_request(texts, request, number),
        Input::Take(Message::Op(op)) => keep_op(offered, op, number),
        Input::Take(Message::Vote(vote)) => CompactInput::Vote {
            vote: CompactVote::of(vote),
        },
        Input::Next => CompactInput::Next,
    }
}

// The request, made compact.
fn keep_request(texts: &mut Runs, request: &Request, number: Option<u32>) -> CompactInput
    requires { 1 ≤ texts.old.room }
    ensures input { (ops offered : List OpValue) → IfSome number (IsDoneAs ops (Local request.now))
        → input_of ops texts.new.runs offered result ≡ Some (Local request.now) }
    ensures texts { IsGrown texts.old.runs texts.new.runs }
    ensures room { texts.old.room ≤ texts.new.room + 1 }
{
    match request {
        Request::Insert { index, atom } => {
            let put = CompactPut::Insert { index: *index };
            keep_atom(texts, put, atom, number)
        }
        Request::InsertAfter { after, atom } => {
            let after = compact_id(*after);
            keep_atom(texts, CompactPut::InsertAfter { after }, atom, number)
        }
        Request::Paste { index, run } => {
            let put = CompactPut::Paste { index: *index };
            keep_run(texts, put, run, number)
        }
        Request::PasteAfter { after, run } => {
            let after = compact_id(*after);
            keep_run(texts, CompactPut::PasteAfter { after }, run, number)
        }
        Request::Delete { index } => CompactInput::Delete { index: *index },
        Request::DeleteAtom { id } => CompactInput::DeleteAtom {
            id: CompactId::of(*id),
        },
        Request::Propose { slot } => CompactInput::Propose {
            slot: CompactSlot::of(slot),
        },
        Request::ProposeAt { index, bit } => CompactInput::ProposeAt {
            bit: *bit,
            index: *index,
        },
        Request::Cancel { proposal } => CompactInput::Cancel {
            proposal: CompactDot::of(*proposal),
        },
    }
}

// A request that puts one atom, made compact. The atom is the text of the operation, where there is one.
fn keep_atom(texts: &mut Runs, put: CompactPut, atom: &Atom, number: Option<u32>) -> CompactInput
    requires { 1 ≤ texts.old.room }
    ensures input { (ops offered : List OpValue)
        → IfSome number (λ k. run_at ops k ≡ Some (atom.now ∷ []))
        → input_of ops texts.new.runs offered result ≡ option_map Local (put_of (atom.now ∷ []) put) }
    ensures texts { IsGrown texts.old.runs texts.new.runs }
    ensures room { texts.old.room ≤ texts.new.room + 1 }
{
    match number {
        Some(number) => CompactInput::Done { put, number },
        None => keep_text(texts, put, &Run::one(*atom)),
    }
}

// The same of a run.
fn keep_run(texts: &mut Runs, put: CompactPut, run: &Run, number: Option<u32>) -> CompactInput
    requires { 1 ≤ texts.old.room }
    ensures input { (ops offered : List OpValue) → IfSome number (λ k. run_at ops k ≡ Some run.now)
        → input_of ops texts.new.runs offered result ≡ option_map Local (put_of run.now put) }
    ensures texts { IsGrown texts.old.runs texts.new.runs }
    ensures room { texts.old.room ≤ texts.new.room + 1 }
{
    match number {
        Some(number) => CompactInput::Done { put, number },
        None => keep_text(texts, put, run),
    }
}

// A request whose text no operation has, made compact.
fn keep_text(texts: &mut Runs, put: CompactPut, text: &Run) -> CompactInput
    requires { 1 ≤ texts.old.room }
    ensures input { (ops offered : List OpValue)
        → input_of ops texts.new.runs offered result ≡ option_map Local (put_of text.now put) }
    ensures texts { IsGrown texts.old.runs texts.new.runs }
    ensures room { texts.old.room ≤ texts.new.room + 1 }
{
    let number = texts.len();
    texts.push(text);
    CompactInput::Refused { put, text: number }
}

// An operation that is offered, made compact: it is the one of the number, where there is one.
fn keep_op(offered: &mut Vec<Op>, op: &Op, number: Option<u32>) -> CompactInput
    requires room { vec_len offered.old < vec_capacity offered.old }
    requires few { vec_len offered.old < 2 ^ 32 }
    ensures input { (ops : List OpValue) (texts : List (List (List ℕ)))
        → IfSome number (λ k. slice_get ops k ≡ Some op.now)
        → input_of ops texts offered.new.items result ≡ Some (Take (AnOp op.now)) }
    ensures offered { IsGrown offered.old.items offered.new.items }
    ensures len { vec_len offered.new ≤ vec_len offered.old + 1 }
    ensures capacity { vec_capacity offered.new ≡ vec_capacity offered.old }
{
    match number {
        Some(number) => CompactInput::Taken { number },
        None => {
            let number = offered.len() as u32;
            offered.push_reserved(*op);
            CompactInput::Offered { number }
        }
    }
}

/// A text, put where a compact request says.
pub fn put_input(put: &CompactPut, text: Option<Run>) -> Option<Input>
    ensures { result ≡ put_input put.now text }
{
    let request = put.request(&text?)?;
    Some(Input::Local(request))
}

// An operation, taken.
fn taken_input(op: Option<Op>) -> Option<Input>
    ensures { result ≡ taken_input op }
{
    Some(Input::Take(Message::Op(op?)))
}
