use crate::status::Status;
use td_base::{Bytes, Memory};

/// The whole output of a run, and how the run ends where all of it is taken.
#[derive(Debug, Drop)]
pub(crate) struct Answer {
    pub status: Status,
    pub bytes: Bytes,
}

/// Why a run has no output.
#[derive(Clone, Copy, Debug, PartialEq, Eq)]
pub(crate) enum Stop {
    /// The input could not be read.
    Read,
    /// Memory ran out.
    Memory,
}

impl From<Memory> for Stop {
    ghost use Rattle.std.specs.Prelude.{◌≡◌};
    ghost use Rattle.td_run.specs.declared.answer.Stop.{Stop};

    ghost from_gives = { λ _ stop. stop ≡ Stop.Memory };

    fn from(_memory: Memory) -> Stop {
        Stop::Memory
    }
}
