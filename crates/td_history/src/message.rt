ghost use Rattle.std.specs.Prelude.{refl};
ghost use Rattle.std.proofs.Common.{rules};
ghost use Rattle.td_history.specs.GoesOn.{message_on};

use crate::goes_on::GoesOn;
use crate::ramps::Ramp;
use crate::vote::CompactVote;
use std::mem::size_of;

/// A message in 8 bytes. Among the operations of a log it stands for `message_of` it.
#[derive(Clone, Copy, Debug, PartialEq, Eq)]
pub enum CompactMessage {
    /// The operation of this number.
    Op { number: u32 },
    Vote { vote: CompactVote },
}

const _: () = prove!(size_of::<CompactMessage>() == 8);

const _: () = prove!(size_of::<Ramp<CompactMessage>>() == 12);

/// Operations go on by their numbers.
impl GoesOn for CompactMessage {
    ghost on = { message_on };

    fn on(self, k: u32) -> CompactMessage {
        match self {
            CompactMessage::Op { number } => CompactMessage::Op {
                number: number.on(k),
            },
            CompactMessage::Vote { vote } => CompactMessage::Vote { vote },
        }
    }

    ghost first = { λ x. refl };

    ghost same = { Prim.search rules };
}
