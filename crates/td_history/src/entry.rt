// An entry of a history as it is kept.
ghost use Rattle.std.specs.Prelude.{◌≡◌, ◌≤◌, ◌+◌, List, ℕ, IfSome, IsTrue, Some, refl};
ghost use Rattle.std.specs.List.{slice_get};
ghost use Rattle.std.proofs.Common.{rules};
ghost use Rattle.std.specs.Option.{option_map};
ghost use Rattle.td_op.specs.declared.reply.Reply.TheVariants.{Made, Taken};
ghost use Rattle.td_op.specs.Op.{OpValue};
ghost use Rattle.td_history.specs.declared.entry.WholeEntry.{WholeEntry};
ghost use Rattle.td_history.specs.Past.{IsDoneAs};
ghost use Rattle.td_history.specs.AsideValue.{HasGrown};
ghost use Rattle.td_history.specs.GoesOn.{entry_on};
ghost use Rattle.td_history.specs.Entries.{entry_among, whole_among};

use crate::aside::Aside;
use crate::goes_on::GoesOn;
use crate::input::{CompactInput, put_input};
use crate::log::Log;
use crate::put::CompactPut;
use crate::ramps::Ramp;
use crate::reply::CompactReply;
use std::mem::size_of;
use td_base::Dot;
use td_op::{Entry, Input, Message, Op, Reply, Request};
use td_store::Runs;

/// An entry in 12 bytes. Among the operations of a log, the texts that no operation has, the operations that were
/// offered alone and the entries that are kept whole it stands for `entry_among` it.
#[derive(Clone, Copy, Debug, PartialEq, Eq)]
pub enum CompactEntry {
    /// An atom was to be put at the index, and the operation of this number was made.
    Inserted { index: u32, number: u32 },
    /// The atom at the index was to be deleted, and the operation of this number was made.
    Deleted { index: u32, number: u32 },
    /// The operation of this number came, and was new.
    Taken { number: u32 },
    /// The operation of this number came, and was kept for later.
    Kept { number: u32 },
    /// What waited was asked for, and the operation of this number was taken.
    Resumed { number: u32 },
    /// Any entry: the one of this number among those that are kept whole.
    Whole { place: u32 },
}

/// An entry in 28 bytes, with its reply. It stands for `whole_among` it.
#[derive(Clone, Copy, Debug, PartialEq, Eq)]
pub struct WholeEntry {
    pub input: CompactInput,
    pub reply: CompactReply,
}

const _: () = prove!(size_of::<CompactEntry>() == 12);

const _: () = prove!(size_of::<Ramp<CompactEntry>>() == 16);

const _: () = prove!(size_of::<WholeEntry>() == 28);

impl CompactEntry {
    /// The entry that it stands for.
    pub fn entry(&self, log: &Log, aside: &Aside) -> Option<Entry>
        ensures { result ≡ entry_among log.now.ops aside.now.texts aside.now.offered aside.now.wholes self.now }
    {
        match *self {
            CompactEntry::Inserted { index, number } => {
                let dot = log.dot(number)?;
                let input = put_input(&CompactPut::Insert { index }, log.run(number))?;
                Some(Entry {
                    input,
                    reply: Reply::Made { dot },
                })
            }
            CompactEntry::Deleted { index, number } => {
                let dot = log.dot(number)?;
                Some(Entry {
                    input: Input::Local(Request::Delete { index }),
                    reply: Reply::Made { dot },
                })
            }
            CompactEntry::Taken { number } => {
                let op = log.op(number)?;
                Some(Entry {
                    input: Input::Take(Message::Op(op)),
                    reply: Reply::New,
                })
            }
            CompactEntry::Kept { number } => {
                let op = log.op(number)?;
                Some(Entry {
                    input: Input::Take(Message::Op(op)),
                    reply: Reply::Later,
                })
            }
            CompactEntry::Resumed { number } => {
                let dot = log.dot(number)?;
                Some(Entry {
                    input: Input::Next,
                    reply: Reply::Taken { dot },
                })
            }
            CompactEntry::Whole { place } => aside.entry(log, place),
        }
    }
}

/// In an entry numbers rise by one, and the index at which a letter is put does so.
impl GoesOn for CompactEntry {
    ghost on = { entry_on };

    fn on(self, k: u32) -> CompactEntry {
        if k == 0 {
            return self;
        }
        match self {
            CompactEntry::Inserted { index, number } => CompactEntry::Inserted {
                index: index.wrapping_add(k),
                number: number.wrapping_add(k),
            },
            CompactEntry::Deleted { index, number } => CompactEntry::Deleted {
                index,
                number: number.wrapping_add(k),
            },
            CompactEntry::Taken { number } => CompactEntry::Taken {
                number: number.wrapping_add(k),
            },
            CompactEntry::Kept { number } => CompactEntry::Kept {
                number: number.wrapping_add(k),
            },
            CompactEntry::Resumed { number } => CompactEntry::Resumed {
                number: number.wrapping_add(k),
            },
            CompactEntry::Whole { place } => CompactEntry::Whole {
                place: place.wrapping_add(k),
            },
        }
    }

    ghost first = { λ x. refl };

    ghost same = { Prim.search rules };
}

impl WholeEntry {
    /// The entry that it stands for.
    pub fn entry(&self, log: &Log, texts: &Runs, offered: &[Op]) -> Option<Entry>
        ensures { result ≡ whole_among log.now.ops texts.now.runs offered.now self.now }
    {
        let input = self.input.input(log, texts, offered)?;
        Some(Entry {
            input,
            reply: self.reply.reply(),
        })
    }
}

/// The entry, made compact. Where there is no number of the operation that it makes or takes, or its reply does not
/// follow from that, it is kept whole, in the room that there is.
pub fn keep_entry(
    log: &Log,
    aside: &mut Aside,
    input: &Input,
    reply: &Reply,
    number: Option<u32>,
) -> CompactEntry
    requires { 1 ≤ aside.old.room }
    ensures entry { IfSome number (IsDoneAs log.now.ops input.now)
        → entry_among log.now.ops aside.new.texts aside.new.offered aside.new.wholes result
        ≡ Some (record { input = input.now; reply = reply.now }) }
    ensures grown { HasGrown aside.old aside.new }
    ensures room { aside.old.room ≤ aside.new.room + 1 }
{
    match by_number(log, input, reply, number) {
        Some(entry) => entry,
        None => CompactEntry::Whole {
            place: aside.keep(input, reply, number),
        },
    }
}

// The entry by the number of its operation, where its reply follows from that.
fn by_number(log: &Log, input: &Input, reply: &Reply, number: Option<u32>) -> Option<CompactEntry>
    ensures { IfSome result (λ entry. (texts : List (List (List ℕ))) (offered : List OpValue) (wholes : List WholeEntry)
        → IfSome number (IsDoneAs log.now.ops input.now)
        → entry_among log.now.ops texts offered wholes entry
        ≡ Some (record { input = input.now; reply = reply.now })) }
{
    let number = number?;
    match *input {
        Input::Local(Request::Insert { index, .. }) => {
            if !is_made(log, number, reply) {
                return None;
            }
            Some(CompactEntry::Inserted { index, number })
        }
        Input::Local(Request::Delete { index }) => {
            if !is_made(log, number, reply) {
                return None;
            }
            Some(CompactEntry::Deleted { index, number })
        }
        Input::Take(Message::Op(_)) => match *reply {
            Reply::New => Some(CompactEntry::Taken { number }),
            Reply::Later => Some(CompactEntry::Kept { number }),
            _ => None,
        },
        Input::Next => {
            if !is_taken(log, number, reply) {
                return None;
            }
            Some(CompactEntry::Resumed { number })
        }
        _ => None,
    }
}

// Whether the reply says that the operation of the number was made.
fn is_made(log: &Log, number: u32, reply: &Reply) -> bool
    ensures { IsTrue result
        → option_map (λ (op : OpValue). Made op.dot) (slice_get log.now.ops number) ≡ Some reply.now }
{
    match *reply {
        Reply::Made { dot } => is_of(log, number, dot),
        _ => false,
    }
}

// Whether the reply says that the operation of the number was taken.
fn is_taken(log: &Log, number: u32, reply: &Reply) -> bool
    ensures { IsTrue result
        → option_map (λ (op : OpValue). Taken op.dot) (slice_get log.now.ops number) ≡ Some reply.now }
{
    match *reply {
        Reply::Taken { dot } => is_of(log, number, dot),
        _ => false,
    }
}

// Whether the operation of the number has the dot.
fn is_of(log: &Log, number: u32, dot: Dot) -> bool
    ensures { IsTrue result → option_map (λ (op : OpValue). op.dot) (slice_get log.now.ops number) ≡ Some dot }
{
    match log.dot(number) {
        Some(other) => other == dot,
        None => false,
    }
}
